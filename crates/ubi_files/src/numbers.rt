//! The numbers of a geometry, as the words of a command give them.

ghost use Rattle.std.specs.Prelude.{◌≡◌, Some, None, MatchResult};
ghost use Rattle.ubi_media.specs.Limits.{first_broken};
ghost use Rattle.ubi_files.specs.Numbers.{numbers_of, sizes_of};

use ubi_media::{Geometry, GeometryError, MOST_PEBS};

/// The numbers that the words give. Those that may be left out are options.
#[derive(Clone, Copy, PartialEq, Eq)]
pub struct Numbers {
    /// The size of an eraseblock in bytes.
    pub peb_size: u32,
    /// The size of a page in bytes.
    pub page: u32,
    /// The offset of the volume-identifier header; if it is left out, one page.
    pub vid_offset: Option<u32>,
    /// The offset of the data; if it is left out, two pages.
    pub data_offset: Option<u32>,
    /// The number of eraseblocks of the device; if it is left out, the most that there can be.
    pub pebs: Option<u32>,
}

impl Numbers {
    /// The numbers of a geometry, with none left out.
    pub fn of(geometry: &Geometry) -> Numbers
        ensures { result ≡ numbers_of geometry.now }
    {
        Numbers {
            peb_size: geometry.peb_size(),
            page: geometry.page(),
            vid_offset: Some(geometry.vid_offset()),
            data_offset: Some(geometry.data_offset()),
            pebs: Some(geometry.pebs()),
        }
    }
}

/// The size of the largest page in bytes.
const LARGEST_PAGE: u32 = 65_536;

/// The numbers of the greatest device that there is, for a file of unknown geometry: no more of it is read than such a device
/// has, and one byte.
pub const GREATEST: Numbers = Numbers {
    peb_size: 16_777_216,
    page: LARGEST_PAGE,
    vid_offset: None,
    data_offset: None,
    pebs: None,
};

/// The geometry of the numbers.
///
/// # Errors
///
/// The first limit that they break.
#[tactic(auto, using(crate::proofs::Defaults::page_too_large))]
pub fn geometry_of(numbers: Numbers) -> Result<Geometry, GeometryError>
    ensures { MatchResult result
        (λ g. (first_broken (sizes_of numbers) ≡ None) × (g ≡ sizes_of numbers))
        (λ e. first_broken (sizes_of numbers) ≡ Some e) }
{
    let Numbers {
        peb_size,
        page,
        vid_offset,
        data_offset,
        pebs,
    } = numbers;
    // Twice a larger page may not fit the type.
    if page > LARGEST_PAGE {
        return Err(GeometryError::Page);
    }
    Geometry::new(
        peb_size,
        page,
        vid_offset.unwrap_or(page),
        data_offset.unwrap_or(2 * page),
        pebs.unwrap_or(MOST_PEBS),
    )
}
