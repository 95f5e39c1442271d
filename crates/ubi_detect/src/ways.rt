//! The pages that eraseblocks of a size may have, with out-of-band bytes or without.

ghost use Rattle.std.specs.List.{filter_map};
ghost use Rattle.std.specs.Prelude.{◌≡◌, ◌++◌, ◌<◌, ◌≤◌, ◌^◌, ◌==◌, ◌&&◌, IfOk, OnOk, length};
ghost use Rattle.ubi_detect.specs.Groups.{greatest_size};
ghost use Rattle.ubi_detect.specs.inner.Detecting.{AreWays};
ghost use Rattle.ubi_detect.specs.Layout.{geometry_of};
ghost use Rattle.ubi_detect.specs.Ways.{has_no_way, page_counts, plain_ways, put, way_of, ways};

use crate::groups::Group;
use crate::way::Way;
use std::alloc::{AllocError, Global};
use ubi_media::{EcOffsets, Geometry, MOST_PEBS, PAGE_SIZES};

/// The size of a header in bytes.
const HEADER_SIZE: u64 = 64;

/// How many pages an eraseblock with out-of-band bytes may have.
const PAGE_COUNTS: [u32; 8] = [16, 32, 64, 128, 256, 512, 1024, 2048];

impl Way {
    /// Where a place of an eraseblock without its out-of-band bytes stands in one with them.
    pub fn put(&self, place: u32) -> u64
        ensures place { result ≡ put self.now place }
        ensures few { result < 2 ^ 60 }
    {
        let (page, oob) = (self.geometry.page(), self.oob);
        u64::from(place / page) * (u64::from(page) + u64::from(oob)) + u64::from(place % page)
    }
}

/// The geometry of a page, if there is one in which the data begin where Linux has them.
fn geometry_of(size: u32, offsets: &EcOffsets, page: u32) -> Option<Geometry>
    ensures { result ≡ geometry_of size offsets.now page }
{
    let EcOffsets {
        vid_offset,
        data_offset,
    } = *offsets;
    let geometry = Geometry::new(size, page, vid_offset, data_offset, MOST_PEBS).ok()?;
    let end = u64::from(vid_offset) + HEADER_SIZE;
    if end.div_ceil(u64::from(page)) * u64::from(page) == u64::from(data_offset) {
        Some(geometry)
    } else {
        None
    }
}

/// The pages without out-of-band bytes that an eraseblock may have, the least first.
///
/// # Errors
///
/// Memory ran out.
pub fn plain_ways(alloc: Global, size: u32, offsets: &EcOffsets) -> Result<Vec<Way>, AllocError>
    ensures { IfOk result (λ ways. ways.items ≡ plain_ways size offsets.now) }
{
    let mut found = Vec::new(alloc);
    for page in &PAGE_SIZES {
        if let Some(geometry) = geometry_of(size, offsets, *page) {
            found.push(Way { geometry, oob: 0 })?;
        }
    }
    Ok(found)
}

/// The way in which an eraseblock is `count` pages with out-of-band bytes, if it is.
fn way_of(size: u32, offsets: &EcOffsets, page: u32, count: u32) -> Option<Way>
    requires some { 1 ≤ count }
    requires few { count ≤ 2048 }
    requires page { page ≤ 65536 }
    ensures { result ≡ way_of size offsets.now page count }
{
    let both = size / count;
    if size % count != 0 || both <= page || page < 256 || both - page > page / 4 {
        return None;
    }
    let geometry = geometry_of(page * count, offsets, page)?;
    Some(Way {
        geometry,
        oob: both - page,
    })
}

/// Adds the ways of a page.
fn push_ways(
    found: &mut Vec<Way>,
    size: u32,
    offsets: &EcOffsets,
    page: u32,
) -> Result<(), AllocError>
    requires { page ≤ 65536 }
    ensures { OnOk result (found.new.items ≡ found.old.items ++ filter_map (way_of size offsets.now page) page_counts) }
{
    for count in &PAGE_COUNTS {
        if let Some(way) = way_of(size, offsets, page, *count) {
            found.push(way)?;
        }
    }
    Ok(())
}

/// The pages with out-of-band bytes that an eraseblock may have, the least first, and for one page the fewest pages first.
///
/// # Errors
///
/// Memory ran out.
pub fn oob_ways(alloc: Global, size: u32, offsets: &EcOffsets) -> Result<Vec<Way>, AllocError>
    ensures { IfOk result (λ found. found.items ≡ ways size offsets.now) }
{
    let mut found = Vec::new(alloc);
    for page in &PAGE_SIZES {
        push_ways(&mut found, size, offsets, *page)?;
    }
    Ok(found)
}

/// Whether eraseblocks of a size have no pages with out-of-band bytes.
///
/// # Errors
///
/// Memory ran out.
pub fn has_no_way(alloc: Global, size: u32, offsets: &EcOffsets) -> Result<bool, AllocError>
    ensures { IfOk result (λ none. none ≡ has_no_way size offsets.now) }
{
    let found = oob_ways(alloc, size, offsets)?;
    Ok(found.is_empty())
}

/// The pages that the eraseblocks of a group may have, without out-of-band bytes and with them.
#[derive(Drop)]
pub struct Ways {
    /// The pages without out-of-band bytes, the least first.
    pub without: Vec<Way>,
    /// The pages with out-of-band bytes.
    pub with: Vec<Way>,
}

impl Ways {
    /// The pages of the eraseblocks of a group.
    ///
    /// # Errors
    ///
    /// Memory ran out.
    pub fn of(alloc: Global, group: &Group) -> Result<Ways, AllocError>
        requires { group.now.size ≤ greatest_size }
        ensures { IfOk result (AreWays group.now) }
    {
        let (size, offsets) = (group.size as u32, &group.key.offsets);
        let without = plain_ways(alloc, size, offsets)?;
        let with = oob_ways(alloc, size, offsets)?;
        Ok(Ways { without, with })
    }

    /// Whether there are no pages.
    pub fn are_none(&self) -> bool
        ensures { result ≡ (length self.now.without.items == 0) && (length self.now.with.items == 0) }
    {
        self.without.is_empty() && self.with.is_empty()
    }
}
