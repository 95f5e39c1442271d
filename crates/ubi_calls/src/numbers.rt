//! The numbers of a geometry, as C lays them out.

ghost use Rattle.std.specs.Prelude.{◌≡◌, MatchResult, None, Some};
ghost use Rattle.ubi_media.specs.Limits.{first_broken};
ghost use Rattle.ubi_calls.specs.Calls.{named_sizes};

use ubi_media::{Geometry, GeometryError};

/// The numbers of a geometry.
#[repr(C)]
#[derive(Clone, Copy)]
pub struct DeviceSizes {
    /// The size of an eraseblock in bytes.
    pub peb_size: u32,
    /// The size of a page in bytes.
    pub page: u32,
    /// The offset of the volume-identifier header in an eraseblock.
    pub vid_offset: u32,
    /// The offset of the data in an eraseblock.
    pub data_offset: u32,
    /// The number of eraseblocks of the device.
    pub pebs: u32,
}

/// The geometry of the numbers.
///
/// # Errors
///
/// The first limit that they break.
pub fn geometry_of(sizes: &DeviceSizes) -> Result<Geometry, GeometryError>
    ensures { MatchResult result
        (λ g. (first_broken (named_sizes sizes.now) ≡ None) × (g ≡ named_sizes sizes.now))
        (λ e. first_broken (named_sizes sizes.now) ≡ Some e) }
{
    Geometry::new(
        sizes.peb_size,
        sizes.page,
        sizes.vid_offset,
        sizes.data_offset,
        sizes.pebs,
    )
}
