//! What edits make of the volumes of an image, and why not.

ghost use Rattle.std.specs.List.{AllByRecursion};
ghost use Rattle.std.specs.Prelude.{◌≡◌, IfErr, IfOk, length, option_copied};
ghost use Rattle.ubi_change.specs.Placed.{autoresized_twice, first_flagged, flagged_twice, is_any_flagged, is_flagged};
ghost use Rattle.ubi_change.specs.inner.Drafting.{IsUndrafted};
ghost use Rattle.ubi_change.specs.inner.Judging.{IsJudged, IsPlaced, IsRenamedAlone, IsUnjudged};
ghost use Rattle.ubi_change.specs.inner.Laying.{AreReadable};
ghost use Rattle.ubi_change.specs.UpdateRefused.{IsRename, StopsRenames};
ghost use Rattle.ubi_table.specs.Records.{AreRecords};

use crate::drafting::drafted;
use crate::edit::Edit;
use crate::errors::UpdateRefusal;
use crate::placing::{free_slots, new_volumes, parts_of, place};
use std::alloc::Global;
use ubi_laid::Part;
use ubi_media::{Geometry, VolumeRecord};
use ubi_table::{Draft, DraftError, Table};
use ubi_volume::Surveyed;

/// The flag of a volume that grows to the size of the device (`UBI_VTBL_AUTORESIZE_FLG`).
const AUTORESIZE: u8 = 0x01;

/// How many eraseblocks UBI needs beside those that volumes reserve and the two of the volume table: one to move data, and one to change
/// a logical eraseblock.
const BESIDE: u64 = 2;

/// Records with those of new volumes, which are placed as far as there are slots.
#[derive(Drop)]
struct Placed {
    draft: Draft,
    /// The volumes that are placed.
    parts: Vec<Part>,
    /// How many volumes are written.
    needs: usize,
    /// How many slots are free.
    has: usize,
}

/// Makes edits of the volumes of a survey, and places the volumes that are written.
///
/// # Errors
///
/// `Edit` or `Memory`.
fn with_new_volumes(
    alloc: Global,
    geometry: &Geometry,
    surveyed: &Surveyed,
    ends: &[u64],
    wholes: &[bool],
    edits: &[Edit],
) -> Result<Placed, UpdateRefusal>
    requires sizes { surveyed.now.records.sizes ≡ geometry.now }
    requires each { length wholes.now ≡ length edits.now }
    ensures placed { IfOk result (IsPlaced geometry.now surveyed.now ends.now wholes.now edits.now) }
    ensures sizes { IfOk result (λ placed. placed.draft.sizes ≡ geometry.now) }
    ensures readable { IfOk result (λ placed. AreReadable geometry.now edits.now placed.parts.items) }
    ensures refused { IfErr result (IsUndrafted geometry.now surveyed.now.scan.winners ends.now wholes.now surveyed.now.records edits.now) }
    ensures renamed { IfOk result (λ placed. AllByRecursion IsRename edits.now → IsRenamedAlone surveyed.now.records placed) }
    ensures renames { IfErr result (λ c. AllByRecursion IsRename edits.now → StopsRenames c) }
{
    let (scan, table) = (surveyed.scan(), surveyed.table());
    let mut draft = Draft::of(alloc, table)?;
    drafted(geometry, scan, ends, wholes, &mut draft, edits)?;
    let free = free_slots(alloc, scan, ends, table)?;
    let written = new_volumes(alloc, edits)?;
    let (slots, volumes) = (free.as_slice(), written.as_slice());
    let parts = parts_of(alloc, slots, volumes)?;
    place(&mut draft, parts.as_slice())?;
    Ok(Placed {
        draft,
        parts,
        needs: volumes.len(),
        has: slots.len(),
    })
}

/// Whether a volume grows to the size of the device.
fn is_flagged(volume: &VolumeRecord) -> bool
    ensures { result ≡ is_flagged volume.now }
{
    volume.flags & AUTORESIZE != 0
}

/// The first of some records whose volume grows to the size of the device, after its number.
fn first_flagged(records: &[(u32, VolumeRecord)]) -> Option<&(u32, VolumeRecord)>
    ensures { option_copied result ≡ first_flagged records.now }
{
    records.iter().find(|entry| is_flagged(&entry.1))
}

/// The first two of some records whose volume grows to the size of the device: their numbers.
fn flagged_twice(records: &[(u32, VolumeRecord)]) -> Option<(u32, u32)>
    ensures { result ≡ flagged_twice records.now }
{
    for (at, (slot, volume)) in records.iter().enumerate() {
        if is_flagged(volume) {
            return match first_flagged(&records[at + 1..]) {
                Some(next) => Some((*slot, next.0)),
                None => None,
            };
        }
    }
    None
}

/// Whether one of some volumes grows to the size of the device.
fn is_any_flagged(parts: &[Part]) -> bool
    ensures { result ≡ is_any_flagged parts.now }
{
    parts.iter().any(|part| is_flagged(&part.entry))
}

/// Two of some records whose volume grows to the size of the device, if one of those that are written does.
fn autoresized_twice(parts: &[Part], records: &[(u32, VolumeRecord)]) -> Option<(u32, u32)>
    ensures { result ≡ autoresized_twice parts.now records.now }
{
    if is_any_flagged(parts) {
        flagged_twice(records)
    } else {
        None
    }
}

/// What edits make of the volumes of an image.
#[derive(Drop)]
pub struct Judged {
    /// The table with the volumes that are left and those that are written.
    pub table: Table,
    /// The volumes that are written, each with its slot.
    pub parts: Vec<Part>,
}

/// What edits make of the volumes of a survey. `ends` says what is hidden, and `room` is how many eraseblocks may be touched.
///
/// # Errors
///
/// The first cause that applies up to `Autoresize` in the order of [`UpdateRefusal`], or `Memory`.
pub fn judge(
    alloc: Global,
    geometry: &Geometry,
    surveyed: &Surveyed,
    ends: &[u64],
    wholes: &[bool],
    edits: &[Edit],
    room: usize,
) -> Result<Judged, UpdateRefusal>
    requires sizes { surveyed.now.records.sizes ≡ geometry.now }
    requires each { length wholes.now ≡ length edits.now }
    ensures judged { IfOk result (IsJudged geometry.now surveyed.now ends.now wholes.now edits.now room) }
    ensures records { IfOk result (λ judged. AreRecords judged.table) }
    ensures sizes { IfOk result (λ judged. judged.table.sizes ≡ geometry.now) }
    ensures readable { IfOk result (λ judged. AreReadable geometry.now edits.now judged.parts.items) }
    ensures refused { IfErr result (IsUnjudged geometry.now surveyed.now ends.now wholes.now edits.now room) }
    ensures renames { IfErr result (λ c. AllByRecursion IsRename edits.now → StopsRenames c) }
{
    let Placed {
        draft,
        parts,
        needs,
        has,
    } = with_new_volumes(alloc, geometry, surveyed, ends, wholes, edits)?;
    let table = match draft.table(alloc) {
        Ok(table) => table,
        Err(DraftError::Twice(first, next)) => return Err(UpdateRefusal::SameName(first, next)),
        Err(DraftError::Memory) => return Err(UpdateRefusal::Memory),
    };
    if has < needs {
        return Err(UpdateRefusal::NoSlot(needs, has));
    }
    let (old, new) = (surveyed.table().space(), table.space());
    if new > old && new + BESIDE > room as u64 {
        return Err(UpdateRefusal::NoSpace(new + BESIDE, room));
    }
    match autoresized_twice(parts.as_slice(), table.entries()) {
        Some((first, next)) => Err(UpdateRefusal::Autoresize(first, next)),
        None => Ok(Judged { table, parts }),
    }
}
