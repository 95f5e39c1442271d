//! The differences of the volumes of two images.

ghost use Rattle.std.specs.Prelude.{◌≡◌, ◌*◌, IfErr, IsTrue, None, OnOk, Some, false, length};
ghost use Rattle.std.specs.FinMap as finite;
ghost use Rattle.ubi_media.specs.Record.{rec_fault};
ghost use Rattle.ubi_media.specs.declared.vid.VolKind.TheVariants.{Static};
ghost use Rattle.ubi_scan.specs.Source.{Narrows, blocks_in};
ghost use Rattle.ubi_volume.specs.Survey.{IsSurveyOf};
ghost use Rattle.ubi_compare.specs.Compared.{NamesSide, WhereBothHeld, after_left, after_right};
ghost use Rattle.ubi_compare.specs.Differences.{content_differences, differences, volume_differences};
ghost use Rattle.ubi_compare.specs.inner.Found.{Adds};
ghost use Rattle.ubi_compare.specs.inner.Sides.{IsSideOf, IsSidesError, OfMeanings, OfVolumes};

use crate::difference::{Difference, Side};
use crate::errors::CompareFault;
use crate::found::Found;
use crate::lebs::compare_lebs;
use crate::pieces::{OneText, is_text};
use crate::records::compare_records;
use crate::sides::{OneSide, compare_lengths, condition_of, is_same_condition};
use crate::texts::compare_texts;
use std::alloc::Global;
use ubi_media::{Geometry, VolumeRecord};
use ubi_scan::BlockSource;
use ubi_volume::{Extent, Surveyed, case_from};

/// Adds the differences in what a volume reads on the two sides, whose cases are known.
///
/// # Errors
///
/// A read of a side failed, or memory ran out.
fn compare_contents<L: BlockSource, R: BlockSource>(
    alloc: Global,
    geometry: &Geometry,
    left: &mut L,
    right: &mut R,
    here: OneSide<'_>,
    there: OneSide<'_>,
    id: u32,
    buffers: &mut [u8],
    found: &mut Found,
) -> Result<(), CompareFault>
    requires here { IsSideOf geometry.now (L.known left.old) (L.agrees left.old) id here }
    requires there { IsSideOf geometry.now (R.known right.old) (R.agrees right.old) id there }
    requires room { length buffers.old ≡ 2 * geometry.now.peb_size }
    ensures left { L.known left.new ≡ after_left (L.known left.old) result }
    ensures right { R.known right.new ≡ after_right (R.known right.old) result }
    ensures left_narrows { Narrows (L.agrees left.old) (L.agrees left.new) }
    ensures right_narrows { Narrows (R.agrees right.old) (R.agrees right.new) }
    ensures told { OnOk result (WhereBothHeld (L.agrees left.new) (R.agrees right.new) (λ x y. OfMeanings geometry.now here.entry.survey.now there.entry.survey.now x y (λ m n. OfVolumes id m n (λ v w. Adds found.old found.new (content_differences geometry.now id v w))))) }
    ensures failed { IfErr result (IsSidesError (blocks_in geometry.now (L.known left.old)) (blocks_in geometry.now (R.known right.old))) }
    ensures named { IfErr result (NamesSide geometry.now (L.failed_at left.new) (R.failed_at right.new)) }
{
    let (one, other) = (condition_of(here.case), condition_of(there.case));
    let is_same = is_same_condition(one, other);
    found.add_unless(
        is_same,
        Difference::Condition {
            id,
            left: one,
            right: other,
        },
    )?;
    compare_lengths(found, id, here.case, there.case)?;
    if found.is_settled() {
        return Ok(());
    }
    let one = match Extent::of(geometry, here.entry, here.case) {
        Ok(extent) => extent,
        Err(_) => return Ok(()), // It can't be read.
    };
    let other = match Extent::of(geometry, there.entry, there.case) {
        Ok(extent) => extent,
        Err(_) => return Ok(()),
    };
    if one.size != other.size {
        return Ok(());
    }
    compare_lebs(
        alloc, geometry, left, right, here, there, id, one, other, buffers, found,
    )
}

/// Adds the differences in what a volume reads on the two sides. It finds the cases first, for which it reads a static volume.
///
/// # Errors
///
/// A read of a side failed, or memory ran out.
fn compare_cases<L: BlockSource, R: BlockSource>(
    alloc: Global,
    geometry: &Geometry,
    left: &mut L,
    right: &mut R,
    here: &Surveyed,
    there: &Surveyed,
    id: u32,
    entry: &VolumeRecord,
    other: &VolumeRecord,
    buffers: &mut [u8],
    found: &mut Found,
) -> Result<(), CompareFault>
    requires here { IsSurveyOf geometry.now (L.known left.old) (L.agrees left.old) here.now }
    requires there { IsSurveyOf geometry.now (R.known right.old) (R.agrees right.old) there.now }
    requires entry { finite.get here.now.records.of id ≡ Some entry.now }
    requires other { finite.get there.now.records.of id ≡ Some other.now }
    requires entry_sound { rec_fault geometry.now entry.now ≡ None }
    requires other_sound { rec_fault geometry.now other.now ≡ None }
    requires room { length buffers.old ≡ 2 * geometry.now.peb_size }
    ensures left { L.known left.new ≡ after_left (L.known left.old) result }
    ensures right { R.known right.new ≡ after_right (R.known right.old) result }
    ensures left_narrows { Narrows (L.agrees left.old) (L.agrees left.new) }
    ensures right_narrows { Narrows (R.agrees right.old) (R.agrees right.new) }
    ensures told { OnOk result (WhereBothHeld (L.agrees left.new) (R.agrees right.new) (λ x y. OfMeanings geometry.now here.now there.now x y (λ m n. OfVolumes id m n (λ v w. Adds found.old found.new (content_differences geometry.now id v w))))) }
    ensures failed { IfErr result (IsSidesError (blocks_in geometry.now (L.known left.old)) (blocks_in geometry.now (R.known right.old))) }
    ensures named { IfErr result (NamesSide geometry.now (L.failed_at left.new) (R.failed_at right.new)) }
{
    let (buffer, _) = buffers.split_at_mut(geometry.peb_size() as usize);
    let case = match case_from(geometry, left, here, id, entry, buffer) {
        Ok(case) => case,
        Err(error) => return Err(CompareFault::Left(error)),
    };
    let one = OneSide {
        survey: here,
        entry,
        case,
    };
    let case = match case_from(geometry, right, there, id, other, buffer) {
        Ok(case) => case,
        Err(error) => return Err(CompareFault::Right(error)),
    };
    let two = OneSide {
        survey: there,
        entry: other,
        case,
    };
    compare_contents(alloc, geometry, left, right, one, two, id, buffers, found)
}

/// Whether two volumes are static, without the update marker and of one alignment.
fn are_texts(entry: &VolumeRecord, other: &VolumeRecord) -> bool
    ensures entry { IsTrue result → (entry.now.marker ≡ false) × (entry.now.kind ≡ Static) }
    ensures other { IsTrue result → (other.now.marker ≡ false) × (other.now.kind ≡ Static) }
    ensures alignment { IsTrue result → (entry.now.alignment ≡ other.now.alignment) }
{
    is_text(entry) && is_text(other) && entry.alignment == other.alignment
}

/// Adds the differences in what a volume reads on the two sides. Two static volumes are first read side by side, each once; if one
/// isn't whole, their cases are found after all.
///
/// # Errors
///
/// A read of a side failed, or memory ran out.
fn compare_reading<L: BlockSource, R: BlockSource>(
    alloc: Global,
    geometry: &Geometry,
    left: &mut L,
    right: &mut R,
    here: &Surveyed,
    there: &Surveyed,
    id: u32,
    entry: &VolumeRecord,
    other: &VolumeRecord,
    buffers: &mut [u8],
    found: &mut Found,
) -> Result<(), CompareFault>
    requires here { IsSurveyOf geometry.now (L.known left.old) (L.agrees left.old) here.now }
    requires there { IsSurveyOf geometry.now (R.known right.old) (R.agrees right.old) there.now }
    requires entry { finite.get here.now.records.of id ≡ Some entry.now }
    requires other { finite.get there.now.records.of id ≡ Some other.now }
    requires entry_sound { rec_fault geometry.now entry.now ≡ None }
    requires other_sound { rec_fault geometry.now other.now ≡ None }
    requires room { length buffers.old ≡ 2 * geometry.now.peb_size }
    ensures left { L.known left.new ≡ after_left (L.known left.old) result }
    ensures right { R.known right.new ≡ after_right (R.known right.old) result }
    ensures left_narrows { Narrows (L.agrees left.old) (L.agrees left.new) }
    ensures right_narrows { Narrows (R.agrees right.old) (R.agrees right.new) }
    ensures told { OnOk result (WhereBothHeld (L.agrees left.new) (R.agrees right.new) (λ x y. OfMeanings geometry.now here.now there.now x y (λ m n. OfVolumes id m n (λ v w. Adds found.old found.new (content_differences geometry.now id v w))))) }
    ensures failed { IfErr result (IsSidesError (blocks_in geometry.now (L.known left.old)) (blocks_in geometry.now (R.known right.old))) }
    ensures named { IfErr result (NamesSide geometry.now (L.failed_at left.new) (R.failed_at right.new)) }
{
    if !are_texts(entry, other) {
        return compare_cases(
            alloc, geometry, left, right, here, there, id, entry, other, buffers, found,
        );
    }
    let one = OneText {
        survey: here,
        entry,
    };
    let two = OneText {
        survey: there,
        entry: other,
    };
    if compare_texts(alloc, geometry, left, right, one, two, id, buffers, found)? {
        return Ok(());
    }
    compare_cases(
        alloc, geometry, left, right, here, there, id, entry, other, buffers, found,
    )
}

/// Adds the differences of a volume that both sides have.
///
/// # Errors
///
/// A read of a side failed, or memory ran out.
fn compare_volume<L: BlockSource, R: BlockSource>(
    alloc: Global,
    geometry: &Geometry,
    left: &mut L,
    right: &mut R,
    here: &Surveyed,
    there: &Surveyed,
    id: u32,
    entry: &VolumeRecord,
    other: &VolumeRecord,
    buffers: &mut [u8],
    found: &mut Found,
) -> Result<(), CompareFault>
    requires here { IsSurveyOf geometry.now (L.known left.old) (L.agrees left.old) here.now }
    requires there { IsSurveyOf geometry.now (R.known right.old) (R.agrees right.old) there.now }
    requires entry { finite.get here.now.records.of id ≡ Some entry.now }
    requires other { finite.get there.now.records.of id ≡ Some other.now }
    requires entry_sound { rec_fault geometry.now entry.now ≡ None }
    requires other_sound { rec_fault geometry.now other.now ≡ None }
    requires room { length buffers.old ≡ 2 * geometry.now.peb_size }
    ensures left { L.known left.new ≡ after_left (L.known left.old) result }
    ensures right { R.known right.new ≡ after_right (R.known right.old) result }
    ensures left_narrows { Narrows (L.agrees left.old) (L.agrees left.new) }
    ensures right_narrows { Narrows (R.agrees right.old) (R.agrees right.new) }
    ensures told { OnOk result (WhereBothHeld (L.agrees left.new) (R.agrees right.new) (λ x y. OfMeanings geometry.now here.now there.now x y (λ m n. OfVolumes id m n (λ v w. Adds found.old found.new (volume_differences geometry.now id (Some v) (Some w)))))) }
    ensures failed { IfErr result (IsSidesError (blocks_in geometry.now (L.known left.old)) (blocks_in geometry.now (R.known right.old))) }
    ensures named { IfErr result (NamesSide geometry.now (L.failed_at left.new) (R.failed_at right.new)) }
{
    compare_records(found, id, entry, other)?;
    if found.is_settled() {
        return Ok(());
    }
    compare_reading(
        alloc, geometry, left, right, here, there, id, entry, other, buffers, found,
    )
}

/// Adds the differences of the volumes with a number, if there are any.
///
/// # Errors
///
/// A read of a side failed, or memory ran out.
fn compare_slot<L: BlockSource, R: BlockSource>(
    alloc: Global,
    geometry: &Geometry,
    left: &mut L,
    right: &mut R,
    here: &Surveyed,
    there: &Surveyed,
    id: u32,
    buffers: &mut [u8],
    found: &mut Found,
) -> Result<(), CompareFault>
    requires here { IsSurveyOf geometry.now (L.known left.old) (L.agrees left.old) here.now }
    requires there { IsSurveyOf geometry.now (R.known right.old) (R.agrees right.old) there.now }
    requires room { length buffers.old ≡ 2 * geometry.now.peb_size }
    ensures left { L.known left.new ≡ after_left (L.known left.old) result }
    ensures right { R.known right.new ≡ after_right (R.known right.old) result }
    ensures left_narrows { Narrows (L.agrees left.old) (L.agrees left.new) }
    ensures right_narrows { Narrows (R.agrees right.old) (R.agrees right.new) }
    ensures told { OnOk result (WhereBothHeld (L.agrees left.new) (R.agrees right.new) (λ x y. OfMeanings geometry.now here.now there.now x y (λ m n. Adds found.old found.new (volume_differences geometry.now id (finite.get m.volumes id) (finite.get n.volumes id))))) }
    ensures failed { IfErr result (IsSidesError (blocks_in geometry.now (L.known left.old)) (blocks_in geometry.now (R.known right.old))) }
    ensures named { IfErr result (NamesSide geometry.now (L.failed_at left.new) (R.failed_at right.new)) }
{
    let side = match (here.table().get(id), there.table().get(id)) {
        (None, None) => return Ok(()),
        (Some(_), None) => Side::Left,
        (None, Some(_)) => Side::Right,
        (Some(entry), Some(other)) => {
            return compare_volume(
                alloc, geometry, left, right, here, there, id, entry, other, buffers, found,
            );
        }
    };
    Ok(found.add(Difference::Only { id, side })?)
}

/// Adds the differences of two surveyed images.
///
/// # Errors
///
/// A read of a side failed, or memory ran out.
pub fn compare_surveyed<L: BlockSource, R: BlockSource>(
    alloc: Global,
    geometry: &Geometry,
    left: &mut L,
    right: &mut R,
    here: &Surveyed,
    there: &Surveyed,
    found: &mut Found,
) -> Result<(), CompareFault>
    requires here { IsSurveyOf geometry.now (L.known left.old) (L.agrees left.old) here.now }
    requires there { IsSurveyOf geometry.now (R.known right.old) (R.agrees right.old) there.now }
    ensures left { L.known left.new ≡ after_left (L.known left.old) result }
    ensures right { R.known right.new ≡ after_right (R.known right.old) result }
    ensures left_narrows { Narrows (L.agrees left.old) (L.agrees left.new) }
    ensures right_narrows { Narrows (R.agrees right.old) (R.agrees right.new) }
    ensures told { OnOk result (WhereBothHeld (L.agrees left.new) (R.agrees right.new) (λ x y. OfMeanings geometry.now here.now there.now x y (λ m n. Adds found.old found.new (differences m n)))) }
    ensures failed { IfErr result (IsSidesError (blocks_in geometry.now (L.known left.old)) (blocks_in geometry.now (R.known right.old))) }
    ensures named { IfErr result (NamesSide geometry.now (L.failed_at left.new) (R.failed_at right.new)) }
{
    let (one, other) = (here.image_seq(), there.image_seq());
    found.add_unless(
        one == other,
        Difference::ImageSeq {
            left: one,
            right: other,
        },
    )?;
    let mut buffers = Vec::from_elem(alloc, 0u8, 2 * geometry.peb_size() as usize)?;
    let buffers = buffers.as_mut_slice();
    for id in 0..geometry.slots() {
        compare_slot(
            alloc, geometry, left, right, here, there, id, buffers, found,
        )?;
    }
    Ok(())
}
