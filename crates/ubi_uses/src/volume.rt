//! A caller of `ubi_volume`.

ghost use Rattle.std.specs.Prelude.{◌≤◌, IfOk, length};
ghost use Rattle.ubi_media.specs.Geometry.{leb_size};
ghost use Rattle.ubi_scan.specs.Image.{image_of};
ghost use Rattle.ubi_volume.specs.Accepts.{Accepts};
ghost use Rattle.ubi_volume.specs.Meant.{Meant};
ghost use Rattle.ubi_volume.specs.Reading.{IsLebRead};

use std::alloc::Global;
use ubi_media::{AttachError, Geometry};
use ubi_volume::{ReadError, attach, read_leb};

/// Reads a logical eraseblock of a volume of an image into `out`: how many bytes it has, or why it isn't read.
pub fn read(
    alloc: Global,
    geometry: &Geometry,
    image: &[u8],
    id: u32,
    lnum: u32,
    out: &mut [u8],
) -> Result<Result<usize, ReadError>, AttachError>
    requires { leb_size geometry.now ≤ length out.old }
    ensures { IfOk result (λ read. (m : Meant) × Accepts (image_of geometry.now image.now) m × IfOk read (IsLebRead m id lnum out.old out.new)) }
{
    let attached = attach(alloc, geometry, image)?;
    Ok(read_leb(attached.meaning(), id, lnum, out))
}
