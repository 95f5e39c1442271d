//! A caller of `ubi_change`.

ghost use Rattle.std.specs.Prelude.{IfOk};
ghost use Rattle.ubi_change.specs.Order.{RisesBetweenErases};
ghost use Rattle.ubi_change.specs.Planned.{SurvivesCutsOf};
ghost use Rattle.ubi_scan.specs.Image.{image_of, of_blocks};

use std::alloc::Global;
use ubi_change::{ChangeRefusal, Step, plan_change};
use ubi_media::Geometry;

/// The steps by which the first logical eraseblock of a volume gets new bytes. The power may fail after any of them.
pub fn update(
    alloc: Global,
    geometry: &Geometry,
    image: &[u8],
    id: u32,
    new: &[u8],
) -> Result<Vec<Step>, ChangeRefusal>
    ensures survives { IfOk result (λ steps. SurvivesCutsOf (image_of geometry.now image.now) id 0 new.now steps.items) }
    ensures rises { IfOk result (λ steps. of_blocks RisesBetweenErases (image_of geometry.now image.now) steps.items) }
{
    plan_change(alloc, geometry, image, id, 0, new)
}
