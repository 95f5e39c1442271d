//! A caller of `ubi_compare`.

ghost use Rattle.std.specs.Prelude.{◌≡◌, ◌↔◌, IfOk, IsTrue};
ghost use Rattle.ubi_scan.specs.Image.{image_of};
ghost use Rattle.ubi_volume.specs.Accepts.{Accepts};
ghost use Rattle.ubi_volume.specs.Meant.{Meant};

use std::alloc::Global;
use ubi_compare::CompareError;
use ubi_media::Geometry;
use ubi_same::same;

/// Whether two builds of an image mean the same, wherever their eraseblocks lie and however worn they are.
pub fn is_same_build(
    alloc: Global,
    geometry: &Geometry,
    ours: &[u8],
    theirs: &[u8],
) -> Result<bool, CompareError>
    ensures { IfOk result (λ answer. (m : Meant) × (n : Meant) × Accepts (image_of geometry.now ours.now) m × Accepts (image_of geometry.now theirs.now) n × (IsTrue answer ↔ (m ≡ n))) }
{
    same(alloc, geometry, ours, theirs)
}
