//! What edits write, as far as it doesn't depend on contents, and the eraseblocks that are taken for it.

ghost use Rattle.std.specs.List.{AllByRecursion};
ghost use Rattle.std.specs.Prelude.{◌≡◌, ◌%◌, ◌^◌, ◌<◌, ◌≤◌, IfErr, IfOk, length};
ghost use Rattle.ubi_change.specs.inner.Laying.{AreReadable};
ghost use Rattle.ubi_change.specs.inner.Ready.{AreSitesTaken, IsReady, IsSitesError, IsUnready};
ghost use Rattle.ubi_change.specs.UpdatePlan.{NamesUnread, after_update};
ghost use Rattle.ubi_change.specs.UpdateRefused.{IsRename, StopsRenames};
ghost use Rattle.ubi_media.specs.Fields.{AreBytes};
ghost use Rattle.ubi_media.specs.Geometry.{leb_size};
ghost use Rattle.ubi_scan.specs.Source.{Narrows};
ghost use Rattle.ubi_volume.specs.Survey.{IsSurveyOf};

use crate::avoided::Avoided;
use crate::copies::Holders;
use crate::edit::Edit;
use crate::errors::{UpdateError, UpdateRefusal};
use crate::judging::{Judged, judge};
use crate::pages::table_pages;
use crate::sites::Site;
use crate::takeable::first_takeable;
use crate::weak_check::weak_place;
use std::alloc::Global;
use ubi_laid::Part;
use ubi_media::Geometry;
use ubi_scan::{BlockSource, StreamError};
use ubi_volume::Surveyed;

/// What edits write, as far as it doesn't depend on contents.
#[derive(Drop)]
pub struct Ready {
    /// The volumes that are written, each with its slot.
    pub parts: Vec<Part>,
    /// The pages of the new table.
    pub pages: Vec<u8>,
    /// The eraseblocks that hold the copies of the volume table.
    pub holders: Holders,
}

/// What edits write. `wholes`, `holders` and `room` are what the survey says of the image, and `ends` says what is hidden.
///
/// # Errors
///
/// The first cause that applies up to `WeakCheck`, or `Memory`.
pub fn make_ready(
    alloc: Global,
    geometry: &Geometry,
    surveyed: &Surveyed,
    ends: &[u64],
    wholes: &[bool],
    holders: Option<Holders>,
    edits: &[Edit],
    room: usize,
) -> Result<Ready, UpdateRefusal>
    requires sizes { surveyed.now.records.sizes ≡ geometry.now }
    requires each { length wholes.now ≡ length edits.now }
    ensures ready { IfOk result (IsReady geometry.now surveyed.now ends.now wholes.now holders edits.now room) }
    ensures readable { IfOk result (λ ready. AreReadable geometry.now edits.now ready.parts.items) }
    ensures paged { IfOk result (λ ready. length ready.pages.items % geometry.now.page ≡ 0) }
    ensures short { IfOk result (λ ready. length ready.pages.items < 2 ^ 31) }
    ensures fits { IfOk result (λ ready. length ready.pages.items ≤ leb_size geometry.now) }
    ensures bytes { IfOk result (λ ready. AreBytes ready.pages.items) }
    ensures refused { IfErr result (IsUnready geometry.now surveyed.now ends.now wholes.now holders edits.now room) }
    ensures renames { IfErr result (λ c. AllByRecursion IsRename edits.now → StopsRenames c) }
{
    let Judged { table, parts } = judge(alloc, geometry, surveyed, ends, wholes, edits, room)?;
    let pages = table_pages(alloc, geometry, &table)?;
    let Some(holders) = holders else {
        return Err(UpdateRefusal::NeedsRepair);
    };
    match weak_place(geometry, pages.as_slice()) {
        Some(count) => Err(UpdateRefusal::WeakCheck(count)),
        None => Ok(Ready {
            parts,
            pages,
            holders,
        }),
    }
}

/// The eraseblocks that are taken for as many as are written. The buffer has the size of an eraseblock.
///
/// # Errors
///
/// `Exhausted`, or else `Read` if a read failed, or else `NoFree`; or `Memory`.
pub fn take_sites<S: BlockSource>(
    alloc: Global,
    geometry: &Geometry,
    source: &mut S,
    surveyed: &Surveyed,
    avoided: &Avoided,
    needs: usize,
    buffer: &mut [u8],
) -> Result<Vec<Site>, UpdateError>
    requires survey { IsSurveyOf geometry.now (S.known source.old) (S.agrees source.old) surveyed.now }
    requires room { length buffer.old ≡ geometry.now.peb_size }
    ensures known { S.known source.new ≡ after_update (S.known source.old) result }
    ensures narrows { Narrows (S.agrees source.old) (S.agrees source.new) }
    ensures taken { IfOk result (λ sites. AreSitesTaken geometry.now (S.known source.old) (S.agrees source.new) avoided.now surveyed.now needs sites.items) }
    ensures refused { IfErr result (IsSitesError geometry.now (S.known source.old) (S.agrees source.new) avoided.now surveyed.now needs) }
    ensures named { IfErr result (NamesUnread geometry.now (S.failed_at source.new)) }
{
    if avoided.basis(surveyed.scan()).top_sqnum() > u64::MAX - needs as u64 {
        return Err(UpdateError::Refused(UpdateRefusal::Exhausted));
    }
    match first_takeable(alloc, geometry, source, surveyed, avoided, needs, buffer) {
        Ok(sites) => {
            if sites.len() < needs {
                Err(UpdateError::Refused(UpdateRefusal::NoFree(needs, sites.len())))
            } else {
                Ok(sites)
            }
        }
        Err(StreamError::Read(p, _)) => Err(UpdateError::Read(p)),
        Err(_) => Err(UpdateError::Refused(UpdateRefusal::Memory)),
    }
}
