//! A caller of `ubi_compose` that builds an image.

ghost use Rattle.std.specs.Prelude.{IfOk};
ghost use Rattle.ubi_scan.specs.Image.{image_of};
ghost use Rattle.ubi_volume.specs.Accepts.{Accepts};
ghost use Rattle.ubi_compose.specs.Built.{built};

use std::alloc::Global;
use ubi_compose::{BuildError, Recipe, build_to};
use ubi_scan::MemorySource;

/// An image of volumes whose bytes are given. It is accepted, and these are the volumes that it means.
pub fn image_of_volumes(alloc: Global, recipe: &Recipe, bytes: &[u8]) -> Result<Vec<u8>, BuildError>
    ensures { IfOk result (λ image. Accepts (image_of recipe.now.sizes image.items) (built recipe.now bytes.now)) }
{
    let mut image = Vec::new(alloc);
    let mut source = MemorySource::new(bytes);
    build_to(alloc, recipe, 0, &mut source, &mut image)?;
    Ok(image)
}
