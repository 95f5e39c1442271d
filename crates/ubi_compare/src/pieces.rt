//! Two static volumes, and the pieces of their contents in a logical eraseblock.

ghost use Rattle.std.specs.Prelude.{◌≡◌, ◌↔◌, IfErr, IfOk, IfSome, IsTrue, false, length};
ghost use Rattle.ubi_media.specs.Check.{crc_of};
ghost use Rattle.ubi_media.specs.declared.vid.VolKind.TheVariants.{Static};
ghost use Rattle.ubi_scan.specs.Source.{Narrows, blocks_in};
ghost use Rattle.ubi_volume.specs.Survey.{IsSurveyOf};
ghost use Rattle.ubi_compare.specs.Compared.{NamesSide, WhereBothHeld, after_left, after_right};
ghost use Rattle.ubi_compare.specs.inner.Sides.{IsSideRead};
ghost use Rattle.ubi_compare.specs.inner.Texts.{ArePieces, BothLie, IsTextOf};

use crate::errors::CompareFault;
use crate::shares::are_equal;
use ubi_media::{Geometry, VolKind, VolumeRecord, crc};
use ubi_scan::BlockSource;
use ubi_volume::{Surveyed, raw_piece_from, text_lebs_from};

/// A static volume of one of two images, without the update marker.
#[derive(Clone, Copy)]
pub struct OneText<'a> {
    /// What is known of its image.
    pub survey: &'a Surveyed,
    /// Its record.
    pub entry: &'a VolumeRecord,
}

/// How many logical eraseblocks the contents of each of two static volumes take, if they are whole.
#[derive(Clone, Copy)]
pub struct LebsOfBoth {
    /// The left one.
    pub left: u32,
    /// The right one.
    pub right: u32,
}

/// The pieces of two static volumes in a logical eraseblock.
#[derive(Clone, Copy)]
pub struct Pieces {
    /// The size of the left one in bytes.
    pub left: u32,
    /// The size of the right one in bytes.
    pub right: u32,
    /// Whether they are the same.
    pub is_same: bool,
}

/// Whether a volume is static and has no update marker.
pub fn is_text(entry: &VolumeRecord) -> bool
    ensures { IsTrue result ↔ ((entry.now.marker ≡ false) × (entry.now.kind ≡ Static)) }
{
    !entry.marker && entry.kind == VolKind::Static
}

/// How many logical eraseblocks the contents of two static volumes take, if they are whole. `None` if one isn't.
///
/// # Errors
///
/// A read of a side failed.
pub fn lebs_of_both<L: BlockSource, R: BlockSource>(
    geometry: &Geometry,
    left: &mut L,
    right: &mut R,
    here: OneText<'_>,
    there: OneText<'_>,
    id: u32,
    buffer: &mut [u8],
) -> Result<Option<LebsOfBoth>, CompareFault>
    requires here { IsTextOf geometry.now (L.known left.old) (L.agrees left.old) id here }
    requires there { IsTextOf geometry.now (R.known right.old) (R.agrees right.old) id there }
    requires room { length buffer.old ≡ geometry.now.peb_size }
    ensures left { L.known left.new ≡ after_left (L.known left.old) result }
    ensures right { R.known right.new ≡ after_right (R.known right.old) result }
    ensures left_narrows { Narrows (L.agrees left.old) (L.agrees left.new) }
    ensures right_narrows { Narrows (R.agrees right.old) (R.agrees right.new) }
    ensures lebs { IfOk result (λ both. IfSome both (λ lebs. WhereBothHeld (L.agrees left.new) (R.agrees right.new) (λ x y. BothLie geometry.now id here.entry there.entry x y lebs))) }
    ensures failed { IfErr result (IsSideRead (blocks_in geometry.now (L.known left.old)) (blocks_in geometry.now (R.known right.old))) }
    ensures named { IfErr result (NamesSide geometry.now (L.failed_at left.new) (R.failed_at right.new)) }
{
    let one = match text_lebs_from(geometry, left, here.survey, id, here.entry, buffer) {
        Ok(Some(used)) => used,
        Ok(None) => return Ok(None),
        Err(error) => return Err(CompareFault::Left(error)),
    };
    let other = match text_lebs_from(geometry, right, there.survey, id, there.entry, buffer) {
        Ok(Some(used)) => used,
        Ok(None) => return Ok(None),
        Err(error) => return Err(CompareFault::Right(error)),
    };
    Ok(Some(LebsOfBoth {
        left: one,
        right: other,
    }))
}

/// Whether two pieces have the CRCs that their headers name. The CRC of equal ones is computed once.
fn are_checked(one: &[u8], left: u32, other: &[u8], right: u32, is_same: bool) -> bool
    requires same { IsTrue is_same → one.now ≡ other.now }
    ensures { IsTrue result ↔ ((crc_of one.now ≡ left) × (crc_of other.now ≡ right)) }
{
    let check = crc(one);
    if is_same {
        check == left && check == right
    } else {
        check == left && crc(other) == right
    }
}

/// The pieces of two static volumes in a logical eraseblock. `None` if one of them isn't there.
///
/// # Errors
///
/// A read of a side failed.
pub fn pieces_beside<L: BlockSource, R: BlockSource>(
    geometry: &Geometry,
    left: &mut L,
    right: &mut R,
    here: &Surveyed,
    there: &Surveyed,
    id: u32,
    lebs: LebsOfBoth,
    lnum: u32,
    one: &mut [u8],
    other: &mut [u8],
) -> Result<Option<Pieces>, CompareFault>
    requires here { IsSurveyOf geometry.now (L.known left.old) (L.agrees left.old) here.now }
    requires there { IsSurveyOf geometry.now (R.known right.old) (R.agrees right.old) there.now }
    requires one { length one.old ≡ geometry.now.peb_size }
    requires other { length other.old ≡ geometry.now.peb_size }
    ensures left { L.known left.new ≡ after_left (L.known left.old) result }
    ensures right { R.known right.new ≡ after_right (R.known right.old) result }
    ensures left_narrows { Narrows (L.agrees left.old) (L.agrees left.new) }
    ensures right_narrows { Narrows (R.agrees right.old) (R.agrees right.new) }
    ensures read { IfOk result (λ pieces. IfSome pieces (λ p. WhereBothHeld (L.agrees left.new) (R.agrees right.new) (λ x y. ArePieces geometry.now id lebs lnum x y p))) }
    ensures failed { IfErr result (IsSideRead (blocks_in geometry.now (L.known left.old)) (blocks_in geometry.now (R.known right.old))) }
    ensures named { IfErr result (NamesSide geometry.now (L.failed_at left.new) (R.failed_at right.new)) }
{
    let left_raw = match raw_piece_from(geometry, left, here, id, lebs.left, lnum, one) {
        Ok(Some(raw)) => raw,
        Ok(None) => return Ok(None),
        Err(error) => return Err(CompareFault::Left(error)),
    };
    let right_raw = match raw_piece_from(geometry, right, there, id, lebs.right, lnum, other) {
        Ok(Some(raw)) => raw,
        Ok(None) => return Ok(None),
        Err(error) => return Err(CompareFault::Right(error)),
    };
    prove!(geometry.data_offset() <= geometry.peb_size());
    let left_text = &one[..left_raw.size as usize];
    let right_text = &other[..right_raw.size as usize];
    let is_same = are_equal(left_text, right_text);
    if are_checked(
        left_text,
        left_raw.data_crc,
        right_text,
        right_raw.data_crc,
        is_same,
    ) {
        Ok(Some(Pieces {
            left: left_raw.size,
            right: right_raw.size,
            is_same,
        }))
    } else {
        Ok(None)
    }
}
