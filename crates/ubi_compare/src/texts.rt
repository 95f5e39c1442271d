//! The contents of static volumes, whose CRCs are checked while they are compared.

ghost use Rattle.std.specs.Prelude.{◌≡◌, ◌*◌, ◌≤◌, IfErr, IfOk, IfSome, IsTrue, OnOk, false, length};
ghost use Rattle.ubi_media.specs.Record.{usable};
ghost use Rattle.ubi_scan.specs.Source.{Narrows, WhereHeld, blocks_in, blocks_of};
ghost use Rattle.ubi_scan.specs.Stream.{IsReadFault, NamesBlock, after};
ghost use Rattle.ubi_volume.specs.Survey.{IsSurveyOf};
ghost use Rattle.ubi_compare.specs.Compared.{NamesSide, WhereBothHeld, after_left, after_right};
ghost use Rattle.ubi_compare.specs.Differences.{content_differences};
ghost use Rattle.ubi_compare.specs.inner.Found.{Adds};
ghost use Rattle.ubi_compare.specs.inner.Ranges.{AddsLeb};
ghost use Rattle.ubi_compare.specs.inner.Sides.{IsSidesError, OfMeanings, OfVolumes};
ghost use Rattle.ubi_compare.specs.inner.Texts.{AreReadTexts, AreWholeTexts, GoesOn, IsTextOf};

use crate::difference::Difference;
use crate::errors::CompareFault;
use crate::found::Found;
use crate::pieces::{LebsOfBoth, OneText, lebs_of_both, pieces_beside};
use crate::ranges::Ranges;
use std::alloc::{AllocError, Global};
use ubi_media::Geometry;
use ubi_scan::{BlockSource, StreamError};
use ubi_volume::{Surveyed, text_piece_from};

/// The contents of two static volumes that were read.
#[derive(Drop)]
pub struct Texts {
    /// The length of the left one in bytes.
    pub left: u64,
    /// The length of the right one in bytes.
    pub right: u64,
    /// The logical eraseblocks that read differently; in brief, the first of them.
    pub ranges: Ranges,
}

/// Adds a logical eraseblock that is read differently; in brief, only the first of them.
fn add_asked(ranges: &mut Ranges, is_brief: bool, lnum: u32) -> Result<(), AllocError>
    ensures { OnOk result (AddsLeb is_brief lnum ranges.old ranges.new) }
{
    if is_brief && !ranges.is_empty() {
        return Ok(());
    }
    ranges.add(lnum)
}

/// Reads the first pieces of two static volumes side by side. `None` if one of them isn't there.
///
/// # Errors
///
/// A read of a side failed, or memory ran out.
fn texts_beside<L: BlockSource, R: BlockSource>(
    alloc: Global,
    geometry: &Geometry,
    left: &mut L,
    right: &mut R,
    here: OneText<'_>,
    there: OneText<'_>,
    id: u32,
    lebs: LebsOfBoth,
    count: u32,
    is_brief: bool,
    one: &mut [u8],
    other: &mut [u8],
) -> Result<Option<Texts>, CompareFault>
    requires here { IsTextOf geometry.now (L.known left.old) (L.agrees left.old) id here }
    requires there { IsTextOf geometry.now (R.known right.old) (R.agrees right.old) id there }
    requires size { usable geometry.now here.entry.now ≡ usable geometry.now there.entry.now }
    requires count { (count ≤ lebs.left) × (count ≤ lebs.right) }
    requires one { length one.old ≡ geometry.now.peb_size }
    requires other { length other.old ≡ geometry.now.peb_size }
    ensures left { L.known left.new ≡ after_left (L.known left.old) result }
    ensures right { R.known right.new ≡ after_right (R.known right.old) result }
    ensures left_narrows { Narrows (L.agrees left.old) (L.agrees left.new) }
    ensures right_narrows { Narrows (R.agrees right.old) (R.agrees right.new) }
    ensures read { IfOk result (λ texts. IfSome texts (λ t. WhereBothHeld (L.agrees left.new) (R.agrees right.new) (λ x y. AreReadTexts is_brief geometry.now id lebs count here.entry.survey.now there.entry.survey.now x y t))) }
    ensures small { IfOk result (λ texts. IfSome texts (λ t. (t.left ≤ count * 0xFFFFFFFF) × (t.right ≤ count * 0xFFFFFFFF))) }
    ensures failed { IfErr result (IsSidesError (blocks_in geometry.now (L.known left.old)) (blocks_in geometry.now (R.known right.old))) }
    ensures named { IfErr result (NamesSide geometry.now (L.failed_at left.new) (R.failed_at right.new)) }
{
    let mut bytes = 0;
    let mut others = 0;
    let mut ranges = Ranges::new(alloc, id);
    for lnum in 0..count {
        let (a, b) = (here.survey, there.survey);
        let Some(pieces) = pieces_beside(geometry, left, right, a, b, id, lebs, lnum, one, other)?
        else {
            return Ok(None);
        };
        bytes += u64::from(pieces.left);
        others += u64::from(pieces.right);
        if !pieces.is_same {
            add_asked(&mut ranges, is_brief, lnum)?;
        }
    }
    Ok(Some(Texts {
        left: bytes,
        right: others,
        ranges,
    }))
}

/// The length in bytes of a static volume whose pieces below the logical eraseblock `first` have this many bytes together. The others
/// are read. `None` if one of them isn't there.
///
/// # Errors
///
/// `Read` if a read failed.
fn length_from<S: BlockSource>(
    geometry: &Geometry,
    source: &mut S,
    survey: &Surveyed,
    id: u32,
    used: u32,
    first: u32,
    bytes: u64,
    buffer: &mut [u8],
) -> Result<Option<u64>, StreamError>
    requires survey { IsSurveyOf geometry.now (S.known source.old) (S.agrees source.old) survey.now }
    requires inside { first ≤ used }
    requires small { bytes ≤ first * 0xFFFFFFFF }
    requires room { length buffer.old ≡ geometry.now.peb_size }
    ensures known { S.known source.new ≡ after (S.known source.old) result }
    ensures narrows { Narrows (S.agrees source.old) (S.agrees source.new) }
    ensures read { IfOk result (λ whole. IfSome whole (λ n. WhereHeld (S.agrees source.new) (λ x. GoesOn geometry.now (blocks_of geometry.now x) id used first bytes n))) }
    ensures failed { IfErr result (IsReadFault (blocks_in geometry.now (S.known source.old))) }
    ensures named { IfErr result (NamesBlock geometry.now (S.failed_at source.new)) }
{
    let mut bytes = bytes;
    for lnum in first..used {
        let Some(size) = text_piece_from(geometry, source, survey, id, used, lnum, buffer)? else {
            return Ok(None);
        };
        bytes += u64::from(size);
    }
    Ok(Some(bytes))
}

/// Reads two static volumes: side by side as far as both go, and then the rest of the longer one. `None` if one of them isn't whole.
///
/// # Errors
///
/// A read of a side failed, or memory ran out.
fn whole_texts<L: BlockSource, R: BlockSource>(
    alloc: Global,
    geometry: &Geometry,
    left: &mut L,
    right: &mut R,
    here: OneText<'_>,
    there: OneText<'_>,
    id: u32,
    lebs: LebsOfBoth,
    is_brief: bool,
    buffers: &mut [u8],
) -> Result<Option<Texts>, CompareFault>
    requires here { IsTextOf geometry.now (L.known left.old) (L.agrees left.old) id here }
    requires there { IsTextOf geometry.now (R.known right.old) (R.agrees right.old) id there }
    requires size { usable geometry.now here.entry.now ≡ usable geometry.now there.entry.now }
    requires room { length buffers.old ≡ 2 * geometry.now.peb_size }
    ensures left { L.known left.new ≡ after_left (L.known left.old) result }
    ensures right { R.known right.new ≡ after_right (R.known right.old) result }
    ensures left_narrows { Narrows (L.agrees left.old) (L.agrees left.new) }
    ensures right_narrows { Narrows (R.agrees right.old) (R.agrees right.new) }
    ensures read { IfOk result (λ texts. IfSome texts (λ t. WhereBothHeld (L.agrees left.new) (R.agrees right.new) (λ x y. AreWholeTexts is_brief geometry.now id lebs here.entry.survey.now there.entry.survey.now x y t))) }
    ensures failed { IfErr result (IsSidesError (blocks_in geometry.now (L.known left.old)) (blocks_in geometry.now (R.known right.old))) }
    ensures named { IfErr result (NamesSide geometry.now (L.failed_at left.new) (R.failed_at right.new)) }
{
    let (one, other) = buffers.split_at_mut(geometry.peb_size() as usize);
    let count = lebs.left.min(lebs.right);
    let Some(texts) = texts_beside(
        alloc, geometry, left, right, here, there, id, lebs, count, is_brief, one, other,
    )?
    else {
        return Ok(None);
    };
    let bytes = match length_from(
        geometry,
        left,
        here.survey,
        id,
        lebs.left,
        count,
        texts.left,
        one,
    ) {
        Ok(Some(bytes)) => bytes,
        Ok(None) => return Ok(None),
        Err(error) => return Err(CompareFault::Left(error)),
    };
    let others = match length_from(
        geometry,
        right,
        there.survey,
        id,
        lebs.right,
        count,
        texts.right,
        other,
    ) {
        Ok(Some(bytes)) => bytes,
        Ok(None) => return Ok(None),
        Err(error) => return Err(CompareFault::Right(error)),
    };
    Ok(Some(Texts {
        left: bytes,
        right: others,
        ranges: texts.ranges,
    }))
}

/// Adds the differences of two static volumes' contents, and says that it did. If one isn't whole, it adds nothing and says so.
///
/// # Errors
///
/// A read of a side failed, or memory ran out.
pub fn compare_texts<L: BlockSource, R: BlockSource>(
    alloc: Global,
    geometry: &Geometry,
    left: &mut L,
    right: &mut R,
    here: OneText<'_>,
    there: OneText<'_>,
    id: u32,
    buffers: &mut [u8],
    found: &mut Found,
) -> Result<bool, CompareFault>
    requires here { IsTextOf geometry.now (L.known left.old) (L.agrees left.old) id here }
    requires there { IsTextOf geometry.now (R.known right.old) (R.agrees right.old) id there }
    requires size { usable geometry.now here.entry.now ≡ usable geometry.now there.entry.now }
    requires room { length buffers.old ≡ 2 * geometry.now.peb_size }
    ensures left { L.known left.new ≡ after_left (L.known left.old) result }
    ensures right { R.known right.new ≡ after_right (R.known right.old) result }
    ensures left_narrows { Narrows (L.agrees left.old) (L.agrees left.new) }
    ensures right_narrows { Narrows (R.agrees right.old) (R.agrees right.new) }
    ensures told { IfOk result (λ done. IsTrue done → WhereBothHeld (L.agrees left.new) (R.agrees right.new) (λ x y. OfMeanings geometry.now here.entry.survey.now there.entry.survey.now x y (λ m n. OfVolumes id m n (λ v w. Adds found.old found.new (content_differences geometry.now id v w))))) }
    ensures kept { IfOk result (λ done. done ≡ false → found.new ≡ found.old) }
    ensures failed { IfErr result (IsSidesError (blocks_in geometry.now (L.known left.old)) (blocks_in geometry.now (R.known right.old))) }
    ensures named { IfErr result (NamesSide geometry.now (L.failed_at left.new) (R.failed_at right.new)) }
{
    let (buffer, _) = buffers.split_at_mut(geometry.peb_size() as usize);
    let Some(lebs) = lebs_of_both(geometry, left, right, here, there, id, buffer)? else {
        return Ok(false);
    };
    let is_brief = found.is_brief;
    let Some(texts) = whole_texts(
        alloc, geometry, left, right, here, there, id, lebs, is_brief, buffers,
    )?
    else {
        return Ok(false);
    };
    let is_same = texts.left == texts.right;
    let lengths = Difference::Bytes {
        id,
        left: texts.left,
        right: texts.right,
    };
    found.add_unless(is_same, lengths)?;
    let told = texts.ranges.finish()?;
    found.extend(told.as_slice())?;
    Ok(true)
}
