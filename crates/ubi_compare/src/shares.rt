//! Whether a logical eraseblock reads the same on both sides.

ghost use Rattle.std.specs.Prelude.{◌≡◌, ◌↔◌, ◌<◌, ◌≤◌, IfErr, IfOk, IfSome, IsTrue, length};
ghost use Rattle.ubi_media.specs.Geometry.{leb_size};
ghost use Rattle.ubi_scan.specs.Source.{Narrows, blocks_in};
ghost use Rattle.ubi_volume.specs.Extract.{leb_bytes};
ghost use Rattle.ubi_compare.specs.Compared.{NamesSide, WhereBothHeld, after_left, after_right};
ghost use Rattle.ubi_compare.specs.inner.Sides.{IsSideRead};

use crate::errors::CompareFault;
use ubi_media::Geometry;
use ubi_scan::BlockSource;
use ubi_volume::read_place;

/// What is read of a logical eraseblock.
#[derive(Clone, Copy)]
pub struct Share {
    /// The eraseblock that holds it, if one does; if none does, it reads 0xFF.
    pub place: Option<u32>,
    /// How many bytes are read.
    pub len: usize,
}

/// Whether two byte strings are the same.
pub fn are_equal(one: &[u8], other: &[u8]) -> bool
    ensures { IsTrue result ↔ (one.now ≡ other.now) }
{
    one == other
}

/// Whether two logical eraseblocks begin with the same bytes, as many as the buffers have.
///
/// # Errors
///
/// A read of a side failed.
fn same_bytes<L: BlockSource, R: BlockSource>(
    geometry: &Geometry,
    left: &mut L,
    right: &mut R,
    here: Option<u32>,
    there: Option<u32>,
    one: &mut [u8],
    other: &mut [u8],
) -> Result<bool, CompareFault>
    requires here { IfSome here (λ p. p < blocks_in geometry.now (L.known left.old)) }
    requires there { IfSome there (λ p. p < blocks_in geometry.now (R.known right.old)) }
    requires part { length one.old ≤ leb_size geometry.now }
    requires same { length other.old ≡ length one.old }
    ensures left { L.known left.new ≡ after_left (L.known left.old) result }
    ensures right { R.known right.new ≡ after_right (R.known right.old) result }
    ensures left_narrows { Narrows (L.agrees left.old) (L.agrees left.new) }
    ensures right_narrows { Narrows (R.agrees right.old) (R.agrees right.new) }
    ensures answer { IfOk result (λ answer. WhereBothHeld (L.agrees left.new) (R.agrees right.new) (λ x y. IsTrue answer ↔ (leb_bytes geometry.now (length one.old) here x ≡ leb_bytes geometry.now (length one.old) there y))) }
    ensures failed { IfErr result (IsSideRead (blocks_in geometry.now (L.known left.old)) (blocks_in geometry.now (R.known right.old))) }
    ensures named { IfErr result (NamesSide geometry.now (L.failed_at left.new) (R.failed_at right.new)) }
{
    if here.is_none() && there.is_none() {
        return Ok(true);
    }
    match read_place(geometry, left, here, one) {
        Ok(()) => {}
        Err(error) => return Err(CompareFault::Left(error)),
    }
    match read_place(geometry, right, there, other) {
        Ok(()) => {}
        Err(error) => return Err(CompareFault::Right(error)),
    }
    Ok(are_equal(one, other))
}

/// Whether what is read of two logical eraseblocks is the same. Each buffer has the size of an eraseblock.
///
/// # Errors
///
/// A read of a side failed.
pub fn same_share<L: BlockSource, R: BlockSource>(
    geometry: &Geometry,
    left: &mut L,
    right: &mut R,
    here: Share,
    there: Share,
    one: &mut [u8],
    other: &mut [u8],
) -> Result<bool, CompareFault>
    requires here { IfSome here.place (λ p. p < blocks_in geometry.now (L.known left.old)) }
    requires there { IfSome there.place (λ p. p < blocks_in geometry.now (R.known right.old)) }
    requires here_len { here.len ≤ leb_size geometry.now }
    requires there_len { there.len ≤ leb_size geometry.now }
    requires one { length one.old ≡ geometry.now.peb_size }
    requires other { length other.old ≡ geometry.now.peb_size }
    ensures left { L.known left.new ≡ after_left (L.known left.old) result }
    ensures right { R.known right.new ≡ after_right (R.known right.old) result }
    ensures left_narrows { Narrows (L.agrees left.old) (L.agrees left.new) }
    ensures right_narrows { Narrows (R.agrees right.old) (R.agrees right.new) }
    ensures answer { IfOk result (λ answer. WhereBothHeld (L.agrees left.new) (R.agrees right.new) (λ x y. IsTrue answer ↔ (leb_bytes geometry.now here.len here.place x ≡ leb_bytes geometry.now there.len there.place y))) }
    ensures failed { IfErr result (IsSideRead (blocks_in geometry.now (L.known left.old)) (blocks_in geometry.now (R.known right.old))) }
    ensures named { IfErr result (NamesSide geometry.now (L.failed_at left.new) (R.failed_at right.new)) }
{
    if here.len != there.len {
        return Ok(false);
    }
    prove!(geometry.data_offset() <= geometry.peb_size());
    let (one, other) = (&mut one[..here.len], &mut other[..here.len]);
    same_bytes(geometry, left, right, here.place, there.place, one, other)
}
