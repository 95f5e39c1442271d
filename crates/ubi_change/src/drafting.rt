//! Edits done to the records of a table.

ghost use Rattle.std.specs.Bool.{then_some};
ghost use Rattle.std.specs.List.{AllByRecursion};
ghost use Rattle.std.specs.Option.{option_or};
ghost use Rattle.std.specs.Prelude.{◌≡◌, ℕ, Bool, IfErr, IfOk, IfSome, None, OnOk, length, not, option_map};
ghost use Rattle.ubi_change.specs.EditFaults.{all_records_left, fault_of, fault_on, records_left, sizing_fault, with_changed, with_size, writing_fault};
ghost use Rattle.ubi_change.specs.EditsAsked.{new_of, news_of};
ghost use Rattle.ubi_change.specs.Listed.{is_hidden};
ghost use Rattle.ubi_change.specs.declared.errors.EditFault.TheVariants as fault;
ghost use Rattle.ubi_change.specs.inner.Drafting.{IsFirstEditFault, IsUndrafted, TellsUsed};
ghost use Rattle.ubi_media.specs.Name.{is_name};
ghost use Rattle.ubi_media.specs.Record.{rec_fault};
ghost use Rattle.ubi_media.specs.declared.record.VolumeRecord.{VolumeRecord};
ghost use Rattle.ubi_change.specs.UpdateRefused.{IsRename, IsNamingFault, StopsRenames};
ghost use Rattle.ubi_table.specs.Drafted.{without_record};
ghost use Rattle.ubi_table.specs.Named.{with_name};

use crate::edit::{Edit, NewVolume};
use crate::errors::{EditFault, UpdateRefusal};
use std::alloc::AllocError;
use ubi_laid::is_long;
use ubi_media::{Geometry, VolName, VolumeRecord, rec_fault};
use ubi_scan::Scan;
use ubi_table::Draft;

/// Whether a logical eraseblock of a volume, at or above a number, is hidden.
fn is_hidden(ends: &[u64], id: u32, from: u32) -> bool
    ensures { result ≡ is_hidden ends.now id from }
{
    match ends.get(id as usize) {
        Some(end) => u64::from(from) < *end,
        None => false,
    }
}

/// Whether such a logical eraseblock is taken: an eraseblock is a member of it, or it is hidden.
pub fn is_taken(scan: &Scan, ends: &[u64], id: u32, from: u32) -> bool
    ensures { (used : ℕ → ℕ → Bool) → TellsUsed scan.now.winners ends.now used → result ≡ used id from }
{
    scan.next_winner(id, from).is_some() || is_hidden(ends, id, from)
}

/// Why a volume isn't written.
fn writing_fault(geometry: &Geometry, volume: &NewVolume) -> Option<EditFault>
    ensures { result ≡ writing_fault geometry.now volume.now }
{
    let part = volume.part(0);
    match rec_fault(geometry, &part.entry) {
        Some(fault) => Some(EditFault::Record(fault)),
        None => is_long(geometry, &part).then_some(EditFault::TooLarge),
    }
}

/// Why a volume doesn't get another size, if its record then breaks no rule. `whole` says whether it isn't updating or damaged.
fn sizing_fault(
    scan: &Scan,
    ends: &[u64],
    whole: bool,
    id: u32,
    old: u32,
    new: u32,
) -> Option<EditFault>
    ensures { (used : ℕ → ℕ → Bool) → TellsUsed scan.now.winners ends.now used → (r : VolumeRecord) → r.reserved ≡ old → result ≡ sizing_fault used whole id r new }
{
    if new == old {
        None
    } else if !whole {
        Some(EditFault::NotWhole)
    } else {
        is_taken(scan, ends, id, old.min(new)).then_some(EditFault::InUse)
    }
}

/// Gives a volume another name, or says why not.
///
/// # Errors
///
/// Memory ran out.
fn rename(draft: &mut Draft, id: u32, name: &[u8]) -> Result<Option<EditFault>, AllocError>
    ensures fault { IfOk result (λ f. f ≡ fault_on draft.old id (λ r. then_some (not (is_name name.now)) fault.BadName)) }
    ensures left { IfOk result (λ f. f ≡ None → draft.new ≡ with_changed draft.old id (λ r. with_name r name.now)) }
{
    let Some(entry) = draft.get(id).copied() else {
        return Ok(Some(EditFault::NoVolume));
    };
    let Some(name) = VolName::new(name) else {
        return Ok(Some(EditFault::BadName));
    };
    draft.set(id, VolumeRecord { name, ..entry })?;
    Ok(None)
}

/// Gives a volume another size, or says why not.
///
/// # Errors
///
/// Memory ran out.
fn resize(
    geometry: &Geometry,
    scan: &Scan,
    ends: &[u64],
    whole: bool,
    draft: &mut Draft,
    id: u32,
    reserved: u32,
) -> Result<Option<EditFault>, AllocError>
    requires { draft.old.sizes ≡ geometry.now }
    ensures fault { IfOk result (λ f. (used : ℕ → ℕ → Bool) → TellsUsed scan.now.winners ends.now used → f ≡ fault_on draft.old id
        (λ r. option_or (option_map fault.Record (rec_fault geometry.now (with_size r reserved))) (sizing_fault used whole id r reserved))) }
    ensures left { IfOk result (λ f. f ≡ None → draft.new ≡ with_changed draft.old id (λ r. with_size r reserved)) }
{
    let Some(entry) = draft.get(id).copied() else {
        return Ok(Some(EditFault::NoVolume));
    };
    let sized = VolumeRecord { reserved, ..entry };
    if let Some(fault) = rec_fault(geometry, &sized) {
        return Ok(Some(EditFault::Record(fault)));
    }
    if let Some(fault) = sizing_fault(scan, ends, whole, id, entry.reserved, reserved) {
        return Ok(Some(fault));
    }
    draft.set(id, sized)?;
    Ok(None)
}

/// Removes a volume, or says why not.
fn remove(draft: &mut Draft, id: u32) -> Option<EditFault>
    ensures fault { result ≡ fault_on draft.old id (λ r. None) }
    ensures left { result ≡ None → draft.new ≡ without_record draft.old id }
{
    if draft.get(id).is_none() {
        return Some(EditFault::NoVolume);
    }
    draft.remove(id);
    None
}

/// Removes a volume for one that is written in its place, or says why not.
fn replace(geometry: &Geometry, draft: &mut Draft, id: u32, volume: &NewVolume) -> Option<EditFault>
    ensures fault { result ≡ fault_on draft.old id (λ r. writing_fault geometry.now volume.now) }
    ensures left { result ≡ None → draft.new ≡ without_record draft.old id }
    ensures sound { result ≡ None → writing_fault geometry.now volume.now ≡ None }
{
    if draft.get(id).is_none() {
        return Some(EditFault::NoVolume);
    }
    if let Some(fault) = writing_fault(geometry, volume) {
        return Some(fault);
    }
    draft.remove(id);
    None
}

/// Makes an edit, or says why not.
///
/// # Errors
///
/// Memory ran out.
fn make(
    geometry: &Geometry,
    scan: &Scan,
    ends: &[u64],
    whole: bool,
    draft: &mut Draft,
    edit: &Edit,
) -> Result<Option<EditFault>, AllocError>
    requires { draft.old.sizes ≡ geometry.now }
    ensures fault { IfOk result (λ f. (used : ℕ → ℕ → Bool) → TellsUsed scan.now.winners ends.now used → f ≡ fault_of geometry.now used whole draft.old edit.now) }
    ensures left { IfOk result (λ f. f ≡ None → draft.new ≡ records_left draft.old edit.now) }
    ensures sound { IfOk result (λ f. f ≡ None → IfSome (new_of edit.now) (λ v. writing_fault geometry.now v ≡ None)) }
    ensures renames { IfOk result (λ f. IsRename edit.now → IfSome f IsNamingFault) }
{
    match edit {
        Edit::Rename(id, name) => rename(draft, *id, name.as_slice()),
        Edit::Resize(id, reserved) => resize(geometry, scan, ends, whole, draft, *id, *reserved),
        Edit::Remove(id) => Ok(remove(draft, *id)),
        Edit::Replace(id, volume) => Ok(replace(geometry, draft, *id, volume)),
        Edit::Create(volume) => Ok(writing_fault(geometry, volume)),
    }
}

/// Makes edits, one after the other. `ends` says what is hidden, and `wholes` of each edit whether the volume that it gives another size
/// isn't updating or damaged.
///
/// # Errors
///
/// `Edit` with the first edit that isn't made, and why. `Memory` if memory ran out.
pub fn drafted(
    geometry: &Geometry,
    scan: &Scan,
    ends: &[u64],
    wholes: &[bool],
    draft: &mut Draft,
    edits: &[Edit],
) -> Result<(), UpdateRefusal>
    requires sizes { draft.old.sizes ≡ geometry.now }
    requires each { length wholes.now ≡ length edits.now }
    ensures sizes { OnOk result (draft.new.sizes ≡ geometry.now) }
    ensures made { OnOk result (IsFirstEditFault geometry.now scan.now.winners ends.now wholes.now draft.old edits.now None) }
    ensures left { OnOk result (draft.new ≡ all_records_left draft.old edits.now) }
    ensures sound { OnOk result (AllByRecursion (λ v. writing_fault geometry.now v ≡ None) (news_of edits.now)) }
    ensures refused { IfErr result (IsUndrafted geometry.now scan.now.winners ends.now wholes.now draft.old edits.now) }
    ensures renames { IfErr result (λ c. AllByRecursion IsRename edits.now → StopsRenames c) }
{
    for i in 0..edits.len() {
        if let Some(fault) = make(geometry, scan, ends, wholes[i], draft, &edits[i])? {
            return Err(UpdateRefusal::Edit(i, fault));
        }
    }
    Ok(())
}
