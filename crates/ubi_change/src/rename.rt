//! The plan of a rename, which is a plan of edits.

ghost use Rattle.std.specs.Prelude.{◌≡◌, [], ◌∷◌, IfErr, IfOk};
ghost use Rattle.ubi_change.specs.Fitting.{AllFit};
ghost use Rattle.ubi_change.specs.Order.{RisesBetweenErases};
ghost use Rattle.ubi_change.specs.Planned.{NamesFailed, after_plan};
ghost use Rattle.ubi_change.specs.RenamePlanned.{IsFrugalRenameOf, IsPlannedRename, IsRenameError, IsRenameRefusal, IsTheRename, KeepsReading, LeavesBothGoodOf, SurvivesRenameOf, SurvivesRenameTearsOf};
ghost use Rattle.ubi_change.specs.UpdatePlan.{NamesUnread, after_update};
ghost use Rattle.ubi_change.specs.UpdateRefused.{StopsRenames};
ghost use Rattle.ubi_change.specs.inner.Renaming.{StopsRename, rename_cause, rename_error};
ghost use Rattle.ubi_change.specs.declared.edit.Edit.TheVariants as edit;
ghost use Rattle.ubi_scan.specs.Image.{image_of, of_blocks};
ghost use Rattle.ubi_scan.specs.Source.{Narrows};

use crate::avoided::Avoided;
use crate::edit::Edit;
use crate::errors::{EditFault, PlanError, RenameRefusal, UpdateError, UpdateRefusal};
use crate::laying::contents_error;
use crate::step::Step;
use crate::updating::plan_update_from;
use std::alloc::{AllocError, Global};
use ubi_media::Geometry;
use ubi_scan::{BlockSource, MemorySource};
use ubi_volume::Bytes;

/// The edit that gives a volume another name.
///
/// # Errors
///
/// Memory ran out.
fn renaming(alloc: Global, id: u32, name: &[u8]) -> Result<Vec<Edit>, AllocError>
    ensures { IfOk result (λ edits. edits.items ≡ edit.Rename id name.now ∷ []) }
{
    let name = Bytes::new(Vec::from_slice(alloc, name)?);
    let mut edits = Vec::new(alloc);
    edits.push(Edit::Rename(id, name))?;
    Ok(edits)
}

/// Why a volume gets no other name, by why the edit isn't planned.
fn rename_cause(id: u32, cause: UpdateRefusal) -> RenameRefusal
    requires { StopsRenames cause }
    ensures { result ≡ rename_cause id cause }
{
    match cause {
        UpdateRefusal::Attach(cause) => RenameRefusal::Attach(cause),
        UpdateRefusal::Edit(_, EditFault::NoVolume) => RenameRefusal::NoVolume,
        UpdateRefusal::Edit(_, EditFault::BadName) => RenameRefusal::BadName,
        UpdateRefusal::SameName(first, next) => {
            RenameRefusal::SameName(if first == id { next } else { first })
        }
        UpdateRefusal::NeedsRepair => RenameRefusal::NeedsRepair,
        UpdateRefusal::WeakCheck(pages) => RenameRefusal::WeakCheck(pages),
        UpdateRefusal::Exhausted => RenameRefusal::Exhausted,
        UpdateRefusal::NoFree(_, _) => RenameRefusal::NoFree,
        UpdateRefusal::Memory => RenameRefusal::Memory,
        // No volume is written, and none reserves more.
        UpdateRefusal::Edit(_, _)
        | UpdateRefusal::NoSlot(_, _)
        | UpdateRefusal::NoSpace(_, _)
        | UpdateRefusal::Autoresize(_, _) => unreachable!(),
    }
}

/// Why a rename has no plan, by why its edit has none.
fn rename_error(id: u32, error: UpdateError) -> PlanError<RenameRefusal>
    requires { StopsRename error }
    ensures { result ≡ rename_error id error }
{
    match error {
        UpdateError::Refused(cause) => PlanError::Refused(rename_cause(id, cause)),
        UpdateError::Read(p) => PlanError::Read(p),
        UpdateError::NotBlank(p) => PlanError::NotBlank(p),
        // No contents are written.
        UpdateError::Beyond(_) | UpdateError::Contents(_) => unreachable!(),
    }
}

/// The steps of the plan of the edit.
///
/// # Errors
///
/// As [`plan_update_from`].
fn steps_of<S: BlockSource>(
    alloc: Global,
    geometry: &Geometry,
    source: &mut S,
    avoided: &Avoided,
    id: u32,
    name: &[u8],
) -> Result<Vec<Step>, UpdateError>
    ensures known { S.known source.new ≡ after_update (S.known source.old) result }
    ensures narrows { Narrows (S.agrees source.old) (S.agrees source.new) }
    ensures plan { IfOk result (λ steps. IsPlannedRename geometry.now (S.known source.old) (S.agrees source.new) avoided.now id name.now steps.items) }
    ensures refused { IfErr result (λ e. IsRenameError geometry.now (S.known source.old) (S.agrees source.new) avoided.now id name.now (rename_error id e)) }
    ensures stops { IfErr result StopsRename }
    ensures named { IfErr result (NamesUnread geometry.now (S.failed_at source.new)) }
{
    let edits = renaming(alloc, id, name)?;
    let mut contents = MemorySource::new(&[]);
    let plan = plan_update_from(
        alloc,
        geometry,
        source,
        avoided,
        &mut contents,
        edits.as_slice(),
    )?;
    let mut buffer = Vec::from_elem(alloc, 0u8, geometry.peb_size() as usize)?;
    match plan.steps(alloc, geometry, &mut contents, buffer.as_mut_slice()) {
        Ok(steps) => Ok(steps),
        Err(error) => Err(contents_error(0, error)),
    }
}

/// The steps of [`plan_rename`] for the image of a source. One of its eraseblocks is held at a time.
///
/// Each eraseblock that a step changes lies in the source, and a page that is programmed lies in its eraseblock. The
/// steps are right for whatever image the source may hold after the reads that it answered. None of them touches what is
/// avoided.
///
/// # Errors
///
/// The first cause in the order of [`RenameRefusal`] that applies, or `Memory`; or `Read` if a read failed; or `NotBlank`
/// if a listed eraseblock isn't Blank.
pub fn plan_rename_from<S: BlockSource>(
    alloc: Global,
    geometry: &Geometry,
    source: &mut S,
    avoided: &Avoided,
    id: u32,
    name: &[u8],
) -> Result<Vec<Step>, PlanError<RenameRefusal>>
    ensures known { S.known source.new ≡ after_plan (S.known source.old) result }
    ensures narrows { Narrows (S.agrees source.old) (S.agrees source.new) }
    ensures plan { IfOk result (λ steps. IsPlannedRename geometry.now (S.known source.old) (S.agrees source.new) avoided.now id name.now steps.items) }
    ensures refused { IfErr result (IsRenameError geometry.now (S.known source.old) (S.agrees source.new) avoided.now id name.now) }
    ensures named { IfErr result (NamesFailed geometry.now (S.failed_at source.new)) }
{
    match steps_of(alloc, geometry, source, avoided, id, name) {
        Ok(steps) => Ok(steps),
        Err(error) => Err(rename_error(id, error)),
    }
}

/// The steps that give a volume another name. They rewrite both copies of the volume table, copy 0 first, each to an eraseblock
/// that may be taken, and then erase the eraseblock that held the copy.
///
/// The name is 1 to 127 bytes without zero; it may be the one that the volume has. After any number of the steps the image is
/// accepted, it means the old or the renamed, and each volume reads as before. At the end both copies are good. If the
/// power fails during a step, it means the old or the renamed too, as for [`crate::plan_change`].
///
/// Each step fits what those before it leave, and the pages of an eraseblock are programmed in order, as by
/// [`crate::plan_change`]. The steps touch only the eraseblocks that hold the copies and the first two of those that may be
/// taken. The holder of a copy is erased once the new one is good, unless it can't count another erase or is the only eraseblock
/// that names the image. Each eraseblock that is erased has a Valid erase-counter header at the end, which counts each erase.
///
/// A cut between the copies leaves two tables that differ, unless the name is the old one. The image that it leaves can't be
/// renamed (`NeedsRepair`) until they are made equal, as Linux makes them when it attaches.
///
/// # Errors
///
/// The first cause in the order of [`RenameRefusal`] that applies, or `Memory`.
pub fn plan_rename(
    alloc: Global,
    geometry: &Geometry,
    image: &[u8],
    id: u32,
    name: &[u8],
) -> Result<Vec<Step>, RenameRefusal>
    ensures survives { IfOk result (λ steps. SurvivesRenameOf (image_of geometry.now image.now) id name.now steps.items) }
    ensures torn { IfOk result (λ steps. SurvivesRenameTearsOf (image_of geometry.now image.now) id name.now steps.items) }
    ensures reads { IfOk result (λ steps. KeepsReading (image_of geometry.now image.now) steps.items) }
    ensures copies { IfOk result (λ steps. LeavesBothGoodOf (image_of geometry.now image.now) id name.now steps.items) }
    ensures fits { IfOk result (λ steps. of_blocks AllFit (image_of geometry.now image.now) steps.items) }
    ensures rises { IfOk result (λ steps. of_blocks RisesBetweenErases (image_of geometry.now image.now) steps.items) }
    ensures frugal { IfOk result (λ steps. IsFrugalRenameOf (image_of geometry.now image.now) id name.now steps.items) }
    ensures plan { IfOk result (λ steps. IsTheRename (image_of geometry.now image.now) id name.now steps.items) }
    ensures refused { IfErr result (IsRenameRefusal (image_of geometry.now image.now) id name.now) }
{
    let nothing = Avoided::nothing();
    match plan_rename_from(
        alloc,
        geometry,
        &mut MemorySource::new(image),
        &nothing,
        id,
        name,
    ) {
        Ok(steps) => Ok(steps),
        Err(PlanError::Refused(cause)) => Err(cause),
        // No read fails.
        Err(PlanError::Read(_)) => unreachable!(),
        // No eraseblock is listed.
        Err(PlanError::NotBlank(_)) => unreachable!(),
    }
}
