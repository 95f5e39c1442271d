//! Limits of a geometry, and the numbers that follow from it.

use std::test::Fail;
use ubi_media::{Geometry, GeometryError};

/// The five numbers of a geometry, and the limit that they don't keep.
static REFUSED: [((u32, u32, u32, u32, u32), GeometryError); 16] = [
    ((512, 96, 100, 128, 1), GeometryError::Page),
    ((512, 32, 64, 128, 32), GeometryError::Page),
    ((131_072, 131_072, 64, 131_072, 32), GeometryError::Page),
    ((500, 64, 64, 128, 32), GeometryError::PebSize),
    ((64, 128, 64, 128, 32), GeometryError::PebSize),
    ((16_777_280, 64, 64, 128, 32), GeometryError::PebSize),
    ((512, 64, 0, 128, 32), GeometryError::VidOffset),
    ((512, 64, 96, 192, 32), GeometryError::VidOffset),
    ((512, 64, 64, 64, 32), GeometryError::DataOffset),
    ((512, 64, 64, 160, 32), GeometryError::DataOffset),
    ((512, 64, 4_294_967_232, 128, 32), GeometryError::DataOffset),
    ((256, 64, 64, 128, 32), GeometryError::LebTooSmall),
    ((512, 64, 64, 512, 32), GeometryError::LebTooSmall),
    ((512, 64, 64, 1024, 32), GeometryError::LebTooSmall),
    ((512, 64, 64, 128, 1), GeometryError::Pebs),
    ((512, 64, 64, 128, 1_048_577), GeometryError::Pebs),
];

#[test]
fn keeps_limits_and_gives_its_numbers(rt: HostRuntime) -> Result<(), Fail> {
    for (index, ((peb_size, page, vid_offset, data_offset, pebs), limit)) in REFUSED
        .iter()
        .enumerate()
    {
        let made = Geometry::new(*peb_size, *page, *vid_offset, *data_offset, *pebs);
        assert!(rt; made == Err(*limit), "case {index}");
    }
    let small = Geometry::new(512, 64, 64, 128, 32)?;
    assert!(rt; (small.peb_size(), small.page()) == (512, 64));
    assert!(rt; (small.vid_offset(), small.data_offset()) == (64, 128));
    assert!(rt; (small.pebs(), small.leb_size(), small.slots()) == (32, 384, 2));
    let large = Geometry::new(16_777_216, 65_536, 65_536, 131_072, 1_048_576)?;
    assert!(rt; (large.leb_size(), large.slots()) == (16_646_144, 128));
    let least = Geometry::new(320, 64, 64, 128, 2)?;
    assert!(rt; (least.leb_size(), least.slots()) == (192, 1));
    Ok(())
}
