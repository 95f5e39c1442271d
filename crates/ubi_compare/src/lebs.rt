//! Which logical eraseblocks of a volume read differently.

ghost use Rattle.std.specs.Prelude.{◌≡◌, ◌*◌, ◌<◌, IfErr, IfOk, IfSome, IsTrue, Ok, OnOk, length, ◌↔◌};
ghost use Rattle.std.specs.FinMap as finite;
ghost use Rattle.ubi_scan.specs.Source.{Narrows, blocks_in};
ghost use Rattle.ubi_volume.specs.Extract.{extent_of, leb_bytes, share_len};
ghost use Rattle.ubi_compare.specs.Compared.{NamesSide, WhereBothHeld, after_left, after_right};
ghost use Rattle.ubi_compare.specs.Differences.{leb_differences};
ghost use Rattle.ubi_compare.specs.inner.Found.{Adds};
ghost use Rattle.ubi_compare.specs.inner.Sides.{IsSideOf, IsSideRead, IsSidesError, OfMeanings, OfVolumes};

use crate::difference::Difference;
use crate::errors::CompareFault;
use crate::found::Found;
use crate::ranges::Ranges;
use crate::shares::{Share, same_share};
use crate::sides::OneSide;
use std::alloc::Global;
use ubi_media::Geometry;
use ubi_scan::BlockSource;
use ubi_volume::{Extent, Surveyed, share_len};

/// What is read of a logical eraseblock of a volume.
fn share_of(survey: &Surveyed, id: u32, lnum: u32, extent: Extent) -> Share
    ensures place { result.place ≡ finite.get survey.now.scan.winners (id, lnum) }
    ensures len { result.len ≡ share_len extent.size extent.bytes lnum }
{
    Share {
        place: survey.winner(id, lnum),
        len: share_len(extent.size, extent.bytes, lnum) as usize,
    }
}

/// Adds the ranges of logical eraseblocks of a volume that can be read on both sides and read differently. In brief, it
/// ends with the first of these.
///
/// # Errors
///
/// A read of a side failed, or memory ran out.
pub fn compare_lebs<L: BlockSource, R: BlockSource>(
    alloc: Global,
    geometry: &Geometry,
    left: &mut L,
    right: &mut R,
    here: OneSide<'_>,
    there: OneSide<'_>,
    id: u32,
    one: Extent,
    other: Extent,
    buffers: &mut [u8],
    found: &mut Found,
) -> Result<(), CompareFault>
    requires here { IsSideOf geometry.now (L.known left.old) (L.agrees left.old) id here }
    requires there { IsSideOf geometry.now (R.known right.old) (R.agrees right.old) id there }
    requires one { extent_of geometry.now here.entry.now here.case ≡ Ok one }
    requires other { extent_of geometry.now there.entry.now there.case ≡ Ok other }
    requires size { one.size ≡ other.size }
    requires room { length buffers.old ≡ 2 * geometry.now.peb_size }
    ensures left { L.known left.new ≡ after_left (L.known left.old) result }
    ensures right { R.known right.new ≡ after_right (R.known right.old) result }
    ensures left_narrows { Narrows (L.agrees left.old) (L.agrees left.new) }
    ensures right_narrows { Narrows (R.agrees right.old) (R.agrees right.new) }
    ensures told { OnOk result (WhereBothHeld (L.agrees left.new) (R.agrees right.new) (λ x y. OfMeanings geometry.now here.entry.survey.now there.entry.survey.now x y (λ m n. OfVolumes id m n (λ v w. Adds found.old found.new (leb_differences geometry.now id v w))))) }
    ensures failed { IfErr result (IsSidesError (blocks_in geometry.now (L.known left.old)) (blocks_in geometry.now (R.known right.old))) }
    ensures named { IfErr result (NamesSide geometry.now (L.failed_at left.new) (R.failed_at right.new)) }
{
    let (a, b) = buffers.split_at_mut(geometry.peb_size() as usize);
    let mut ranges = Ranges::new(alloc, id);
    let count = one.lebs.min(other.lebs);
    for lnum in 0..count {
        let p = share_of(here.survey, id, lnum, one);
        let q = share_of(there.survey, id, lnum, other);
        if !same_share(geometry, left, right, p, q, a, b)? {
            if found.is_brief {
                let (first, last) = (lnum, lnum);
                return Ok(found.add(Difference::Lebs { id, first, last })?);
            }
            ranges.add(lnum)?;
        }
    }
    let told = ranges.finish()?;
    Ok(found.extend(told.as_slice())?)
}
