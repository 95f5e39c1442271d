//! A caller of `ubi_scan`.

ghost use Rattle.std.specs.FinMap.{get};
ghost use Rattle.std.specs.Prelude.{◌≡◌, IfOk};
ghost use Rattle.ubi_scan.specs.Image.{image_of, of_blocks};
ghost use Rattle.ubi_scan.specs.Scan.{Found, IsScan};

use std::alloc::Global;
use ubi_media::{AttachError, Geometry};
use ubi_scan::{Blocks, scan};

/// The eraseblock of an image that holds a logical eraseblock of a volume, None where none does.
pub fn holder(
    alloc: Global,
    geometry: &Geometry,
    image: &[u8],
    vol: u32,
    lnum: u32,
) -> Result<Option<u32>, AttachError>
    ensures { IfOk result (λ holder. (found : Found) × of_blocks IsScan (image_of geometry.now image.now) found × (holder ≡ get found.winners (vol, lnum))) }
{
    let blocks = Blocks::new(geometry, image)?;
    let found = scan(alloc, &blocks)?;
    Ok(found.winner(vol, lnum))
}
