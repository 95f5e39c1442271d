//! A geometry with out-of-band bytes.

use ubi_media::Geometry;

/// A geometry, and how many out-of-band bytes follow each page.
#[derive(Clone, Copy)]
pub struct Way {
    /// The sizes without out-of-band bytes.
    pub geometry: Geometry,
    /// How many out-of-band bytes a page has.
    pub oob: u32,
}
