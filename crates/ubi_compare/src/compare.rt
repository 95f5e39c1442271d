//! Comparing what two images mean.

ghost use Rattle.std.specs.Prelude.{◌≡◌, ◌↔◌, IfErr, IfOk, IsTrue};
ghost use Rattle.ubi_compare.specs.Compared.{AreDifferences, IsCompareFault, IsComparison, NamesSide, WhereBothHeld, after_left, after_right};
ghost use Rattle.ubi_compare.specs.Differences.{differences};
ghost use Rattle.ubi_compare.specs.inner.Found.{Tells};
ghost use Rattle.ubi_compare.specs.inner.Sides.{IsSidesError, OfMeanings};
ghost use Rattle.ubi_scan.specs.Image.{image_of};
ghost use Rattle.ubi_scan.specs.Source.{Narrows, WhereHeld, blocks_in};
ghost use Rattle.ubi_volume.specs.Survey.{IsSurveyOf};

use crate::difference::Difference;
use crate::errors::CompareFault;
use crate::found::Found;
use crate::volumes::compare_surveyed;
use std::alloc::Global;
use ubi_media::Geometry;
use ubi_scan::BlockSource;
use ubi_table::Table;
use ubi_volume::{Surveyed, survey_from};

/// Whether two tables have the same records.
fn same_records(left: &Table, right: &Table) -> bool
    ensures { IsTrue result ↔ (left.now.of ≡ right.now.of) }
{
    left.entries() == right.entries()
}

/// The differences of two surveyed images; in brief, whether there is one.
///
/// # Errors
///
/// A read of a side failed, or memory ran out.
fn found_in<L: BlockSource, R: BlockSource>(
    alloc: Global,
    geometry: &Geometry,
    left: &mut L,
    right: &mut R,
    here: &Surveyed,
    there: &Surveyed,
    is_brief: bool,
) -> Result<Vec<Difference>, CompareFault>
    requires here { IsSurveyOf geometry.now (L.known left.old) (L.agrees left.old) here.now }
    requires there { IsSurveyOf geometry.now (R.known right.old) (R.agrees right.old) there.now }
    ensures left { L.known left.new ≡ after_left (L.known left.old) result }
    ensures right { R.known right.new ≡ after_right (R.known right.old) result }
    ensures left_narrows { Narrows (L.agrees left.old) (L.agrees left.new) }
    ensures right_narrows { Narrows (R.agrees right.old) (R.agrees right.new) }
    ensures told { IfOk result (λ found. WhereBothHeld (L.agrees left.new) (R.agrees right.new) (λ x y. OfMeanings geometry.now here.now there.now x y (λ m n. Tells is_brief found.items (differences m n)))) }
    ensures failed { IfErr result (IsSidesError (blocks_in geometry.now (L.known left.old)) (blocks_in geometry.now (R.known right.old))) }
    ensures named { IfErr result (NamesSide geometry.now (L.failed_at left.new) (R.failed_at right.new)) }
{
    let mut found = Found::new(alloc, is_brief);
    compare_surveyed(alloc, geometry, left, right, here, there, &mut found)?;
    Ok(found.list)
}

/// Whether two surveyed images mean the same.
///
/// # Errors
///
/// A read of a side failed, or memory ran out.
fn same_surveyed<L: BlockSource, R: BlockSource>(
    alloc: Global,
    geometry: &Geometry,
    left: &mut L,
    right: &mut R,
    here: &Surveyed,
    there: &Surveyed,
) -> Result<bool, CompareFault>
    requires here { IsSurveyOf geometry.now (L.known left.old) (L.agrees left.old) here.now }
    requires there { IsSurveyOf geometry.now (R.known right.old) (R.agrees right.old) there.now }
    ensures left { L.known left.new ≡ after_left (L.known left.old) result }
    ensures right { R.known right.new ≡ after_right (R.known right.old) result }
    ensures left_narrows { Narrows (L.agrees left.old) (L.agrees left.new) }
    ensures right_narrows { Narrows (R.agrees right.old) (R.agrees right.new) }
    ensures answer { IfOk result (λ answer. WhereBothHeld (L.agrees left.new) (R.agrees right.new) (λ x y. OfMeanings geometry.now here.now there.now x y (λ m n. IsTrue answer ↔ (m ≡ n)))) }
    ensures failed { IfErr result (IsSidesError (blocks_in geometry.now (L.known left.old)) (blocks_in geometry.now (R.known right.old))) }
    ensures named { IfErr result (NamesSide geometry.now (L.failed_at left.new) (R.failed_at right.new)) }
{
    if !same_records(here.table(), there.table()) {
        return Ok(false);
    }
    let found = found_in(alloc, geometry, left, right, here, there, true)?;
    Ok(found.as_slice().is_empty())
}

/// Whether two sources of one geometry mean the same, wherever their eraseblocks lie. It holds one eraseblock of contents of
/// each, reads those of a volume only if the tables agree, and ends with the first that differ. But two static volumes are
/// read to their ends, since one that isn't whole reads nothing.
///
/// # Errors
///
/// `Left` if the first isn't surveyed ([`survey_from`]) or a read of it failed. Otherwise `Right` for the same of the
/// second; the first is surveyed first. Otherwise `Memory` if memory ran out.
pub fn same_from<L: BlockSource, R: BlockSource>(
    alloc: Global,
    geometry: &Geometry,
    left: &mut L,
    right: &mut R,
) -> Result<bool, CompareFault>
    ensures left { L.known left.new ≡ after_left (L.known left.old) result }
    ensures right { R.known right.new ≡ after_right (R.known right.old) result }
    ensures left_narrows { Narrows (L.agrees left.old) (L.agrees left.new) }
    ensures right_narrows { Narrows (R.agrees right.old) (R.agrees right.new) }
    ensures answer { IfOk result (λ answer. WhereBothHeld (L.agrees left.new) (R.agrees right.new) (λ x y. IsComparison (image_of geometry.now x) (image_of geometry.now y) answer)) }
    ensures refused { IfErr result (IsCompareFault geometry.now (L.known left.old) (L.agrees left.new) (R.known right.old) (R.agrees right.new)) }
    ensures named { IfErr result (NamesSide geometry.now (L.failed_at left.new) (R.failed_at right.new)) }
{
    let here = match survey_from(alloc, geometry, left) {
        Ok(survey) => survey,
        Err(error) => return Err(CompareFault::Left(error)),
    };
    let there = match survey_from(alloc, geometry, right) {
        Ok(survey) => survey,
        Err(error) => return Err(CompareFault::Right(error)),
    };
    prove!(geometry.peb_size() >= 64);
    same_surveyed(alloc, geometry, left, right, &here, &there)
}

/// The differences of two sources of one geometry. The list is empty exactly if they mean the same. It holds one eraseblock of contents
/// of each, and reads each logical eraseblock once on either side. But two static volumes are read twice if one of them isn't whole.
///
/// # Errors
///
/// Those of [`same_from`].
pub fn diff_from<L: BlockSource, R: BlockSource>(
    alloc: Global,
    geometry: &Geometry,
    left: &mut L,
    right: &mut R,
) -> Result<Vec<Difference>, CompareFault>
    ensures left { L.known left.new ≡ after_left (L.known left.old) result }
    ensures right { R.known right.new ≡ after_right (R.known right.old) result }
    ensures left_narrows { Narrows (L.agrees left.old) (L.agrees left.new) }
    ensures right_narrows { Narrows (R.agrees right.old) (R.agrees right.new) }
    ensures told { IfOk result (λ told. WhereBothHeld (L.agrees left.new) (R.agrees right.new) (λ x y. AreDifferences (image_of geometry.now x) (image_of geometry.now y) told.items)) }
    ensures refused { IfErr result (IsCompareFault geometry.now (L.known left.old) (L.agrees left.new) (R.known right.old) (R.agrees right.new)) }
    ensures named { IfErr result (NamesSide geometry.now (L.failed_at left.new) (R.failed_at right.new)) }
{
    let here = match survey_from(alloc, geometry, left) {
        Ok(survey) => survey,
        Err(error) => return Err(CompareFault::Left(error)),
    };
    let there = match survey_from(alloc, geometry, right) {
        Ok(survey) => survey,
        Err(error) => return Err(CompareFault::Right(error)),
    };
    found_in(alloc, geometry, left, right, &here, &there, false)
}
