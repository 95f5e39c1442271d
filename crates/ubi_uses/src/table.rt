//! A caller of `ubi_table`.

ghost use Rattle.std.specs.FinMap.{get};
ghost use Rattle.std.specs.Prelude.{◌≡◌, IfOk};
ghost use Rattle.ubi_scan.specs.Image.{image_of, of_blocks};
ghost use Rattle.ubi_table.specs.Records.{Records};
ghost use Rattle.ubi_table.specs.Table.{IsTable};

use std::alloc::Global;
use ubi_media::{AttachError, Geometry, VolumeRecord};
use ubi_scan::{Blocks, scan};
use ubi_table::choose;

/// What the volume table of an image says of a volume, None where there is no such volume.
pub fn record_of(
    alloc: Global,
    geometry: &Geometry,
    image: &[u8],
    id: u32,
) -> Result<Option<VolumeRecord>, AttachError>
    ensures { IfOk result (λ said. (table : Records) × of_blocks IsTable (image_of geometry.now image.now) table × (said ≡ get table.of id)) }
{
    let blocks = Blocks::new(geometry, image)?;
    let found = scan(alloc, &blocks)?;
    let table = choose(alloc, &blocks, &found)?;
    Ok(table.get(id).copied())
}
