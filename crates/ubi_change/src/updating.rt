//! The plan of edits of the image of a source.

ghost use Rattle.std.specs.Prelude.{◌≡◌, IfErr, IfOk, length};
ghost use Rattle.ubi_change.specs.EditsAsked.{first_beyond, is_beyond};
ghost use Rattle.ubi_change.specs.UpdatePlan.{NamesUnread, after_update, contents_after_update};
ghost use Rattle.ubi_change.specs.UpdatePlanned.{IsPlannedUpdate, IsUpdateError, StopsIfRenames};
ghost use Rattle.ubi_change.specs.inner.Making.{IsNoWrite};
ghost use Rattle.ubi_change.specs.UpdatePlan.{FitsUpdate, IsBeside, IsLaidFrom, IsPlanOf};
ghost use Rattle.ubi_change.specs.inner.Updating.{IsBased, IsUnbased, update_error};
ghost use Rattle.ubi_scan.specs.Source.{Narrows, WhereHeld};

use crate::avoided::Avoided;
use crate::edit::Edit;
use crate::errors::{UpdateError, UpdateRefusal};
use crate::known::{Known, known_from};
use crate::laying::layings_from;
use crate::update::UpdatePlan;
use crate::written_out::{Ready, make_ready, take_sites};
use std::alloc::Global;
use ubi_media::Geometry;
use ubi_scan::{BlockSource, StreamError};
use ubi_volume::Surveyed;

/// Whether the bytes of the volume that an edit writes end past a size.
fn is_beyond(size: u64, edit: &Edit) -> bool
    ensures { result ≡ is_beyond size edit.now }
{
    match edit.new_volume() {
        Some(volume) => volume.len > size || volume.start > size - volume.len,
        None => false,
    }
}

/// The first edit for which they do, from 0.
fn first_beyond(size: u64, edits: &[Edit]) -> Option<usize>
    ensures { result ≡ first_beyond size edits.now }
{
    edits.iter().position(|edit| is_beyond(size, edit))
}

/// Why what a plan of edits needs couldn't be read.
fn unread(error: StreamError) -> UpdateError
    requires { IsNoWrite error }
    ensures { result ≡ update_error error }
{
    match error {
        StreamError::Refused(cause) => UpdateError::Refused(UpdateRefusal::Attach(cause)),
        StreamError::Read(p, _) => UpdateError::Read(p),
        StreamError::Memory => UpdateError::Refused(UpdateRefusal::Memory),
        // Nothing is written.
        StreamError::Write(_) => unreachable!(),
    }
}

/// What a plan of edits is based on.
#[derive(Drop)]
struct Based {
    /// The image.
    surveyed: Surveyed,
    /// What the edits write, as far as it doesn't depend on contents.
    ready: Ready,
}

/// Reads the image, and judges what edits make of its volumes. The buffer has the size of an eraseblock.
///
/// # Errors
///
/// The first cause that applies up to `WeakCheck`, or `Memory`; or `Read` if a read failed; or `NotBlank` if a listed eraseblock isn't
/// Blank.
fn based_on<S: BlockSource>(
    alloc: Global,
    geometry: &Geometry,
    source: &mut S,
    avoided: &Avoided,
    edits: &[Edit],
    buffer: &mut [u8],
) -> Result<Based, UpdateError>
    requires { length buffer.old ≡ geometry.now.peb_size }
    ensures known { S.known source.new ≡ after_update (S.known source.old) result }
    ensures narrows { Narrows (S.agrees source.old) (S.agrees source.new) }
    ensures based { IfOk result (IsBased geometry.now (S.known source.old) (S.agrees source.new) avoided.now edits.now) }
    ensures refused { IfErr result (IsUnbased geometry.now (S.known source.old) (S.agrees source.new) avoided.now edits.now) }
    ensures named { IfErr result (NamesUnread geometry.now (S.failed_at source.new)) }
    ensures renames { IfErr result (StopsIfRenames edits.now) }
{
    match known_from(alloc, geometry, source, avoided, edits, buffer) {
        Ok(known) => {
            let Known {
                surveyed,
                wholes,
                holders,
            } = known;
            if let Some(p) = avoided.not_blank(geometry, &surveyed) {
                return Err(UpdateError::NotBlank(p));
            }
            let room = avoided.touchable(geometry, &surveyed);
            let wholes = wholes.as_slice();
            let ends = avoided.ends();
            let ready = make_ready(
                alloc, geometry, &surveyed, ends, wholes, holders, edits, room,
            )?;
            Ok(Based { surveyed, ready })
        }
        Err(error) => Err(unread(error)),
    }
}

/// The plan of edits of the image of a source. The bytes of new volumes lie in a source of contents. One eraseblock is held at a time, and
/// of each logical eraseblock that is written where its bytes lie.
///
/// # Errors
///
/// `Beyond` if the contents end too early; or else the first cause in the order of [`UpdateRefusal`] that applies, or `Memory`; or `Read`
/// or `Contents` if a read failed; or `NotBlank` if a listed eraseblock isn't Blank.
pub fn plan_update_from<S: BlockSource, T: BlockSource>(
    alloc: Global,
    geometry: &Geometry,
    source: &mut S,
    avoided: &Avoided,
    contents: &mut T,
    edits: &[Edit],
) -> Result<UpdatePlan, UpdateError>
    ensures known { S.known source.new ≡ after_update (S.known source.old) result }
    ensures known_contents { T.known contents.new ≡ contents_after_update (T.known contents.old) result }
    ensures narrows { Narrows (S.agrees source.old) (S.agrees source.new) }
    ensures narrows_contents { Narrows (T.agrees contents.old) (T.agrees contents.new) }
    ensures source { IfOk result (IsPlanOf geometry.now (S.known source.old)) }
    ensures fits { IfOk result (FitsUpdate geometry.now (T.known contents.old).size) }
    ensures beside { IfOk result (IsBeside avoided.now.marks) }
    ensures laid { IfOk result (λ plan. WhereHeld (T.agrees contents.new) (λ bytes. IsLaidFrom geometry.now bytes plan)) }
    ensures plan { IfOk result (IsPlannedUpdate geometry.now (S.agrees source.new) (T.agrees contents.new) avoided.now edits.now) }
    ensures refused { IfErr result (IsUpdateError geometry.now (S.known source.old) (S.agrees source.new) (T.known contents.old).size (T.failed_at contents.new) (T.agrees contents.new) avoided.now edits.now) }
    ensures named { IfErr result (NamesUnread geometry.now (S.failed_at source.new)) }
    ensures renames { IfErr result (StopsIfRenames edits.now) }
{
    if let Some(i) = first_beyond(contents.len(), edits) {
        return Err(UpdateError::Beyond(i));
    }
    let mut buffer = Vec::from_elem(alloc, 0u8, geometry.peb_size() as usize)?;
    let buffer = buffer.as_mut_slice();
    let Based { surveyed, ready } = based_on(alloc, geometry, source, avoided, edits, buffer)?;
    let layings = layings_from(alloc, geometry, ready.parts.as_slice(), contents, buffer)?;
    let needs = layings.len() + 2;
    let sites = take_sites(alloc, geometry, source, &surveyed, avoided, needs, buffer)?;
    let plan = UpdatePlan::of(surveyed, avoided.above(), ready, layings, sites);
    match plan.listed(avoided) {
        Some(p) => Err(UpdateError::NotBlank(p)),
        None => Ok(plan),
    }
}
