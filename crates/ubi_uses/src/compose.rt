//! A caller of `ubi_compose`.

ghost use Rattle.std.specs.Prelude.{◌≡◌, IfOk};
ghost use Rattle.ubi_scan.specs.Image.{image_of};
ghost use Rattle.ubi_volume.specs.Accepts.{Accepts};
ghost use Rattle.ubi_volume.specs.Meant.{Meant};
ghost use Rattle.ubi_compose.specs.Normal.{normal_bytes};

use std::alloc::Global;
use ubi_compose::normalise;
use ubi_media::{AttachError, Geometry};

/// The bytes by which a build is known, wherever its eraseblocks lie and however worn they are.
pub fn known_by(alloc: Global, geometry: &Geometry, build: &[u8]) -> Result<Vec<u8>, AttachError>
    ensures { IfOk result (λ normal. (m : Meant) × Accepts (image_of geometry.now build.now) m × (normal.items ≡ normal_bytes m)) }
{
    normalise(alloc, geometry, build)
}
