//! The size of an image.

ghost use Rattle.std.specs.Prelude.{◌≡◌, ◌/◌, MatchResult};
ghost use Rattle.ubi_scan.specs.Image.{IsLengthFault, IsWholeSize};

use ubi_media::{Geometry, Refusal};

/// How many eraseblocks `len` bytes are.
///
/// # Errors
///
/// `TooMany` if they are more than the device has. Otherwise `Length` if there are none, or if they aren't whole
/// eraseblocks.
pub fn block_count(geometry: &Geometry, len: u64) -> Result<u32, Refusal>
    ensures { MatchResult result (λ n. (n ≡ len / geometry.now.peb_size) × IsWholeSize geometry.now len) (IsLengthFault geometry.now len) }
{
    let size = u64::from(geometry.peb_size());
    if len > u64::from(geometry.pebs()) * size {
        return Err(Refusal::TooMany);
    }
    if len == 0 || len % size != 0 {
        return Err(Refusal::Length);
    }
    Ok((len / size) as u32)
}
