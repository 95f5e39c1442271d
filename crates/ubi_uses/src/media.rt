//! A caller of `ubi_media`.

ghost use Rattle.std.specs.Prelude.{◌+◌, ◌<◌, ◌^◌};
ghost use Rattle.ubi_media.specs.Ec.{EcIs};
ghost use Rattle.ubi_media.specs.declared.ec.EcRead.TheVariants.{Valid};

use ubi_media::{EcHeader, Geometry, write_ec};

/// The erase-counter header of an eraseblock that was erased once more.
pub fn erased(geometry: &Geometry, header: &EcHeader) -> [u8; 64]
    requires { header.now.counter + 1 < 2 ^ 31 }
    ensures { EcIs geometry.now result (Valid (record header.now { counter = header.now.counter + 1 })) }
{
    let counter = header.counter + 1;
    write_ec(geometry, &EcHeader { counter, ..*header })
}
