//! The plan of an atomic change.

ghost use Rattle.std.specs.Prelude.{◌≡◌, ◌+◌, ◌%◌, ◌^◌, ◌<◌, ◌≤◌, IfErr, IfOk, None, length};
ghost use Rattle.ubi_change.specs.Fitting.{AllFit, AllWithin};
ghost use Rattle.ubi_change.specs.inner.Making.{AreStepsOf, FitsPrepared, HasRoom, IsNoWrite, IsPrepared, IsTarget, IsTargetRefusal, IsUnplanned, change_error, mapped_steps, own_causes, steps_on, unmapped_steps};
ghost use Rattle.ubi_change.specs.Sites.{HasCounter};
ghost use Rattle.ubi_change.specs.Order.{RisesBetweenErases};
ghost use Rattle.ubi_change.specs.Planned.{IsChangeError, IsChangeRefusal, IsFrugalOf, IsThePlan, NamesFailed, PlanFactsOfSource, SurvivesCutsOf, SurvivesTearsOf, after_plan};
ghost use Rattle.ubi_change.specs.Refused.{first_of, is_bad_length};
ghost use Rattle.ubi_media.specs.Record.{rec_fault, usable};
ghost use Rattle.ubi_scan.specs.Image.{image_of, of_blocks};
ghost use Rattle.ubi_scan.specs.Source.{Narrows};
ghost use Rattle.ubi_scan.specs.Stream.{NamesBlock, after};
ghost use Rattle.ubi_volume.specs.Places.{ArePlacesError};

use crate::avoided::Avoided;
use crate::basis::Basis;
use crate::errors::{ChangeRefusal, PlanError};
use crate::ground::{Ground, ground_of, winner_site};
use crate::plan_steps::{Replacement, Target, push_copy, push_mount, ready_ec};
use crate::sites::{Site, Sites, sites_of};
use crate::step::Step;
use crate::weak_check::weak_place;
use std::alloc::{AllocError, Global};
use ubi_media::{Geometry, VolKind, VolumeRecord};
use ubi_scan::{BlockSource, MemorySource, StreamError};
use ubi_table::Table;

/// What the plan of a change reads of a source.
#[derive(Drop)]
struct Prepared {
    /// The image, and the eraseblocks that may be taken.
    ground: Ground,
    /// The winner of the logical eraseblock, if it has one.
    winner: Option<Site>,
}

/// Reads what the plan of a change needs.
///
/// # Errors
///
/// As [`ubi_volume::survey_from`].
fn prepare<S: BlockSource>(
    alloc: Global,
    geometry: &Geometry,
    source: &mut S,
    avoided: &Avoided,
    id: u32,
    lnum: u32,
) -> Result<Prepared, StreamError>
    ensures known { S.known source.new ≡ after (S.known source.old) result }
    ensures narrows { Narrows (S.agrees source.old) (S.agrees source.new) }
    ensures prepared { IfOk result (IsPrepared geometry.now (S.known source.old) (S.agrees source.new) avoided.now id lnum) }
    ensures refused { IfErr result (ArePlacesError geometry.now (S.known source.old) (S.agrees source.new)) }
    ensures named { IfErr result (NamesBlock geometry.now (S.failed_at source.new)) }
{
    let mut buffer = Vec::from_elem(alloc, 0u8, geometry.peb_size() as usize)?;
    let buffer = buffer.as_mut_slice();
    let ground = ground_of(alloc, geometry, source, avoided, 2, buffer)?;
    let winner = winner_site(
        geometry,
        source,
        &ground.surveyed,
        avoided,
        id,
        lnum,
        buffer,
    )?;
    Ok(Prepared { ground, winner })
}

/// The logical eraseblock that is to be changed.
///
/// # Errors
///
/// The first cause that applies of those that the volume's record and the new bytes decide.
fn target_of(
    geometry: &Geometry,
    table: &Table,
    id: u32,
    lnum: u32,
    new: &[u8],
) -> Result<Target, ChangeRefusal>
    requires { table.now.sizes ≡ geometry.now }
    ensures target { IfOk result (IsTarget geometry.now table.now id lnum new.now) }
    ensures refused { IfErr result (IsTargetRefusal geometry.now table.now id lnum new.now) }
{
    let Some(entry) = table.get(id) else {
        return Err(ChangeRefusal::NoVolume);
    };
    match own_cause(geometry, entry, lnum, new) {
        Some(cause) => Err(cause),
        None => Ok(Target {
            id,
            lnum,
            compat: 0,
            data_pad: entry.data_pad(geometry),
        }),
    }
}

/// The steps for a logical eraseblock with a winner: they write a copy, and then erase the winner.
fn mapped_steps(
    alloc: Global,
    geometry: &Geometry,
    basis: &Basis,
    target: &Target,
    new: &[u8],
    copy: &Site,
    old: &Site,
) -> Result<Vec<Step>, AllocError>
    requires paged { length new.now % geometry.now.page ≡ 0 }
    requires short { length new.now < 2 ^ 31 }
    requires few { basis.now.top_sqnum + 1 ≤ 0xFFFFFFFFFFFFFFFF }
    requires copy { HasCounter copy.now }
    requires old { HasCounter old.now }
    ensures { IfOk result (λ steps. steps.items ≡ mapped_steps geometry.now basis.now target.now new.now copy.now old.now) }
{
    let copy = Replacement {
        target: *copy,
        header: target.copy_header(basis.top_sqnum() + 1, new),
        old: *old,
        old_ec: old.ec,
    };
    let mut steps = Vec::new(alloc);
    push_copy(alloc, &mut steps, geometry, basis, &copy, new)?;
    Ok(steps)
}

/// The steps for a logical eraseblock without a winner: they write a blank one and a copy, and then erase the blank one.
fn unmapped_steps(
    alloc: Global,
    geometry: &Geometry,
    basis: &Basis,
    target: &Target,
    new: &[u8],
    first: &Site,
    copy: &Site,
) -> Result<Vec<Step>, AllocError>
    requires paged { length new.now % geometry.now.page ≡ 0 }
    requires short { length new.now < 2 ^ 31 }
    requires few { basis.now.top_sqnum + 2 ≤ 0xFFFFFFFFFFFFFFFF }
    requires mean { basis.now.mean_ec ≤ 0x7FFFFFFF }
    requires first { HasCounter first.now }
    requires copy { HasCounter copy.now }
    ensures { IfOk result (λ steps. steps.items ≡ unmapped_steps geometry.now basis.now target.now new.now first.now copy.now) }
{
    let header = target.blank_header(basis.top_sqnum() + 1);
    let copy = Replacement {
        target: *copy,
        header: target.copy_header(basis.top_sqnum() + 2, new),
        old: *first,
        old_ec: ready_ec(basis, first),
    };
    let mut steps = Vec::new(alloc);
    push_mount(alloc, &mut steps, geometry, basis, first, &header)?;
    push_copy(alloc, &mut steps, geometry, basis, &copy, new)?;
    Ok(steps)
}

/// The steps that work on these eraseblocks.
fn steps_on(
    alloc: Global,
    geometry: &Geometry,
    basis: &Basis,
    target: &Target,
    new: &[u8],
    sites: &Sites,
) -> Result<Vec<Step>, AllocError>
    requires paged { length new.now % geometry.now.page ≡ 0 }
    requires short { length new.now < 2 ^ 31 }
    requires mean { basis.now.mean_ec ≤ 0x7FFFFFFF }
    requires sites { HasRoom basis.now sites.now }
    ensures { IfOk result (λ steps. steps.items ≡ steps_on geometry.now basis.now target.now new.now sites.now) }
{
    match sites {
        Sites::Mapped { copy, old } => {
            mapped_steps(alloc, geometry, basis, target, new, copy, old)
        }
        Sites::Unmapped { first, copy } => {
            unmapped_steps(alloc, geometry, basis, target, new, first, copy)
        }
    }
}

/// The steps of the plan, by what was read for it.
///
/// # Errors
///
/// The first cause that applies, except `Attach`, or `Memory`.
fn change_steps(
    alloc: Global,
    geometry: &Geometry,
    prepared: &Prepared,
    avoided: &Avoided,
    id: u32,
    lnum: u32,
    new: &[u8],
) -> Result<Vec<Step>, ChangeRefusal>
    requires { FitsPrepared geometry.now prepared.now }
    ensures steps { IfOk result (λ steps. AreStepsOf geometry.now avoided.now prepared.now id lnum new.now steps.items) }
    ensures within { IfOk result (λ steps. AllWithin geometry.now (length prepared.now.ground.surveyed.states) steps.items) }
    ensures refused { IfErr result (IsUnplanned geometry.now avoided.now prepared.now id lnum new.now) }
{
    let Ground { surveyed, taken } = &prepared.ground;
    let basis = avoided.basis(surveyed.scan());
    // By the limits of the geometry, the new bytes fit into an eraseblock.
    prove!(geometry.page() >= 64);
    let target = target_of(geometry, surveyed.table(), id, lnum, new)?;
    let sites = sites_of(&basis, prepared.winner, taken.as_slice())?;
    Ok(steps_on(alloc, geometry, &basis, &target, new, &sites)?)
}

/// Why what a plan needs couldn't be read.
fn unread(error: StreamError) -> PlanError<ChangeRefusal>
    requires { IsNoWrite error }
    ensures { result ≡ change_error error }
{
    match error {
        StreamError::Refused(cause) => PlanError::Refused(ChangeRefusal::Attach(cause)),
        StreamError::Read(p, _) => PlanError::Read(p),
        StreamError::Memory => PlanError::Refused(ChangeRefusal::Memory),
        // Nothing is written.
        StreamError::Write(_) => unreachable!(),
    }
}

/// The steps of [`plan_change`] for the image of a source. One of its eraseblocks is held at a time.
///
/// Each eraseblock that a step changes lies in the source, and a page that is programmed lies in its eraseblock. The
/// steps are right for whatever image the source may hold after the reads that it answered. None of them touches what is
/// avoided.
///
/// # Errors
///
/// The first cause in the order of [`ChangeRefusal`] that applies, or `Memory`; or `Read` if a read failed; or `NotBlank`
/// if a listed eraseblock isn't Blank.
pub fn plan_change_from<S: BlockSource>(
    alloc: Global,
    geometry: &Geometry,
    source: &mut S,
    avoided: &Avoided,
    id: u32,
    lnum: u32,
    new: &[u8],
) -> Result<Vec<Step>, PlanError<ChangeRefusal>>
    ensures known { S.known source.new ≡ after_plan (S.known source.old) result }
    ensures narrows { Narrows (S.agrees source.old) (S.agrees source.new) }
    ensures plan { IfOk result (λ steps. PlanFactsOfSource geometry.now (S.known source.old) (S.agrees source.new) avoided.now id lnum new.now steps.items) }
    ensures refused { IfErr result (IsChangeError geometry.now (S.known source.old) (S.agrees source.new) avoided.now id lnum new.now) }
    ensures named { IfErr result (NamesFailed geometry.now (S.failed_at source.new)) }
{
    // The law that plans survive needs it.
    prove!(geometry.page() >= 64);
    match prepare(alloc, geometry, source, avoided, id, lnum) {
        Ok(prepared) => match avoided.not_blank(geometry, &prepared.ground.surveyed) {
            Some(p) => Err(PlanError::NotBlank(p)),
            None => match change_steps(alloc, geometry, &prepared, avoided, id, lnum, new) {
                Ok(steps) => match avoided.listed(steps.as_slice()) {
                    Some(p) => Err(PlanError::NotBlank(p)),
                    None => Ok(steps),
                },
                Err(cause) => Err(PlanError::Refused(cause)),
            },
        },
        Err(error) => Err(unread(error)),
    }
}

/// The steps that give a logical eraseblock of a dynamic volume new bytes, and 0xFF after them.
///
/// The new bytes are whole pages, at least one, and no more than the volume uses of a logical eraseblock. After any number of the
/// steps the image is accepted, and means the old or the new.
///
/// So it does if the power fails during a step, whatever that leaves of the step's eraseblock, where no CRC is right by
/// chance, a program clears no bit that it isn't to clear, and an erase leaves an erase-counter header of 0xFF bytes as it
/// is if the volume-identifier header isn't 0xFF.
///
/// Each step fits what those before it leave. Between two erases of an eraseblock its pages are programmed in ascending order,
/// none twice except page 0, and that at most twice. A program of page 0 comes right after an erase, or keeps the bytes of the
/// erase-counter header as they stand.
///
/// The steps touch only the winner of the logical eraseblock, if it has one, and the first of the eraseblocks that may be taken:
/// one if it has a winner, and two if not. An eraseblock that alone names the image, by its image sequence number, isn't taken.
/// Once the copy is whole, they erase what is given up (the winner, or the one that is taken first), unless it can't count another
/// erase by then, or alone names the image. Each eraseblock that is erased has a Valid erase-counter header at the end, which
/// counts each erase.
///
/// # Errors
///
/// The first cause in the order of [`ChangeRefusal`] that applies, or `Memory`.
pub fn plan_change(
    alloc: Global,
    geometry: &Geometry,
    image: &[u8],
    id: u32,
    lnum: u32,
    new: &[u8],
) -> Result<Vec<Step>, ChangeRefusal>
    ensures survives { IfOk result (λ steps. SurvivesCutsOf (image_of geometry.now image.now) id lnum new.now steps.items) }
    ensures torn { IfOk result (λ steps. SurvivesTearsOf (image_of geometry.now image.now) id lnum new.now steps.items) }
    ensures fits { IfOk result (λ steps. of_blocks AllFit (image_of geometry.now image.now) steps.items) }
    ensures rises { IfOk result (λ steps. of_blocks RisesBetweenErases (image_of geometry.now image.now) steps.items) }
    ensures frugal { IfOk result (λ steps. IsFrugalOf (image_of geometry.now image.now) id lnum new.now steps.items) }
    ensures plan { IfOk result (λ steps. IsThePlan (image_of geometry.now image.now) id lnum new.now steps.items) }
    ensures refused { IfErr result (IsChangeRefusal (image_of geometry.now image.now) id lnum new.now) }
{
    match plan_change_from(
        alloc,
        geometry,
        &mut MemorySource::new(image),
        &Avoided::nothing(),
        id,
        lnum,
        new,
    ) {
        Ok(steps) => Ok(steps),
        Err(PlanError::Refused(cause)) => Err(cause),
        // No read fails.
        Err(PlanError::Read(_)) => unreachable!(),
        // No eraseblock is listed.
        Err(PlanError::NotBlank(_)) => unreachable!(),
    }
}

/// Whether a length isn't a number of whole pages, or is 0, or is above a limit.
fn is_bad_length(geometry: &Geometry, limit: u32, length: usize) -> bool
    ensures { result ≡ is_bad_length geometry.now limit length }
{
    length == 0 || length % geometry.page() as usize != 0 || length > limit as usize
}

/// The first cause for not changing a logical eraseblock of a volume with this record, among those that depend only on the request.
pub fn own_cause(
    geometry: &Geometry,
    entry: &VolumeRecord,
    lnum: u32,
    new: &[u8],
) -> Option<ChangeRefusal>
    requires { rec_fault geometry.now entry.now ≡ None }
    ensures { result ≡ first_of (own_causes geometry.now entry.now lnum new.now) }
{
    if entry.kind == VolKind::Static {
        return Some(ChangeRefusal::StaticVolume);
    }
    if entry.marker {
        return Some(ChangeRefusal::Updating);
    }
    if lnum >= entry.reserved {
        return Some(ChangeRefusal::OutOfRange);
    }
    if is_bad_length(geometry, entry.usable(geometry), new.len()) {
        return Some(ChangeRefusal::BadLength);
    }
    weak_place(geometry, new).map(ChangeRefusal::WeakCheck)
}
