//! The geometry of a device: the sizes and offsets by which an image is cut, and the limits that they keep.

ghost use Rattle.std.specs.Prelude.{◌≡◌, Some, None, MatchResult};
ghost use Rattle.ubi_media.specs.Geometry.{Sizes, IsGeometry, leb_size, slots};
ghost use Rattle.ubi_media.specs.Limits.{first_broken};
ghost use Rattle.ubi_media.specs.ErrorTexts.{geometry_error_text};

use crate::record;
use std::error::Error;
use std::fmt;
use std::marker::Model;

/// The sizes that a page may have, in bytes.
pub const PAGE_SIZES: [u32; 11] = [
    64, 128, 256, 512, 1024, 2048, 4096, 8192, 16384, 32768, 65536,
];

/// The size of the largest eraseblock in bytes.
const LARGEST_PEB: u32 = 0x0100_0000;

/// The size of a header of an eraseblock in bytes.
const HEADER_SIZE: u32 = 64;

/// The size of a record of the volume table in bytes.
const RECORD_SIZE: u32 = record::RECORD_SIZE as u32;

/// The number of records of the longest volume table (`UBI_MAX_VOLUMES`).
const MOST_SLOTS: u32 = 128;

/// The number of eraseblocks of the smallest device: one for each copy of its volume table.
const FEWEST_PEBS: u32 = 2;

/// The number of eraseblocks of the largest device.
pub const MOST_PEBS: u32 = 0x0010_0000;

/// The limit that the numbers of a geometry break.
#[derive(Clone, Copy, Debug, PartialEq, Eq)]
pub enum GeometryError {
    /// The page isn't a power of two from 64 to 65,536 bytes.
    Page,
    /// The eraseblock isn't a multiple of the page, or is above 2^24 bytes.
    PebSize,
    /// The offset of the volume-identifier header isn't a multiple of 64, or is below 64.
    VidOffset,
    /// The offset of the data isn't a multiple of the page, or is less than 64 bytes after that of the
    /// volume-identifier header.
    DataOffset,
    /// A logical eraseblock is too small for one record of the volume table, 172 bytes.
    LebTooSmall,
    /// The number of eraseblocks isn't from 2 to 1,048,576.
    Pebs,
}

impl fmt::Display for GeometryError {
    ghost output = { λ limit. Some (geometry_error_text limit) };

    fn fmt<W: fmt::Write>(&self, f: &mut fmt::Formatter<W>) -> fmt::Result {
        f.write_str(match self {
            GeometryError::Page => "G1 Page",
            GeometryError::PebSize => "G2 PebSize",
            GeometryError::VidOffset => "G3 VidOffset",
            GeometryError::DataOffset => "G4 DataOffset",
            GeometryError::LebTooSmall => "G5 LebTooSmall",
            GeometryError::Pebs => "G6 Pebs",
        })
    }
}

impl Error for GeometryError {}

/// The geometry of a device. Each value keeps every limit that [`GeometryError`] names.
///
/// An eraseblock (a physical eraseblock, PEB) is the unit of erasing, a page the unit of programming. An eraseblock
/// begins with its erase-counter header, has its volume-identifier header at the VID offset, and holds the bytes of
/// its logical eraseblock (LEB) from the data offset to its end.
#[derive(Clone, Copy, Debug, PartialEq, Eq)]
pub struct Geometry {
    peb_size: u32,
    page: u32,
    vid_offset: u32,
    data_offset: u32,
    pebs: u32,
}

impl Model for Geometry {
    ghost use Rattle.ubi_media.specs.Geometry.{Sizes, IsGeometry};

    ghost Value = { Sizes };

    ghost view = { λ g. record { peb_size = g.peb_size; page = g.page; vid_offset = g.vid_offset; data_offset = g.data_offset; pebs = g.pebs } };

    ghost invariant = { λ g. IsGeometry (record { peb_size = g.peb_size; page = g.page; vid_offset = g.vid_offset; data_offset = g.data_offset; pebs = g.pebs }) };

    ghost inverse = { λ s. record { peb_size = s.peb_size; page = s.page; vid_offset = s.vid_offset; data_offset = s.data_offset; pebs = s.pebs } };
}

impl Geometry {
    /// The geometry of a device: the sizes of an eraseblock and of a page in bytes, the offsets of the
    /// volume-identifier header and of the data in an eraseblock, and the number of eraseblocks.
    ///
    /// # Errors
    ///
    /// The first limit that the numbers break, in the order of [`GeometryError`].
    #[tactic(auto, unfolding(crate::specs::Limits::first_broken))]
    pub fn new(
        peb_size: u32,
        page: u32,
        vid_offset: u32,
        data_offset: u32,
        pebs: u32,
    ) -> Result<Geometry, GeometryError>
        ensures { let s : Sizes = record { peb_size = peb_size; page = page; vid_offset = vid_offset; data_offset = data_offset; pebs = pebs } in
            MatchResult result (λ g. (first_broken s ≡ None) × (g ≡ s)) (λ e. first_broken s ≡ Some e) }
    {
        if !PAGE_SIZES.contains(&page) {
            return Err(GeometryError::Page);
        }
        if peb_size < page || peb_size > LARGEST_PEB || peb_size % page != 0 {
            return Err(GeometryError::PebSize);
        }
        if vid_offset < HEADER_SIZE || vid_offset % HEADER_SIZE != 0 {
            return Err(GeometryError::VidOffset);
        }
        if data_offset < HEADER_SIZE
            || data_offset - HEADER_SIZE < vid_offset
            || data_offset % page != 0
        {
            return Err(GeometryError::DataOffset);
        }
        if peb_size < data_offset || peb_size - data_offset < RECORD_SIZE {
            return Err(GeometryError::LebTooSmall);
        }
        if pebs < FEWEST_PEBS || pebs > MOST_PEBS {
            return Err(GeometryError::Pebs);
        }
        Ok(Geometry {
            peb_size,
            page,
            vid_offset,
            data_offset,
            pebs,
        })
    }

    /// The size of an eraseblock in bytes.
    pub fn peb_size(&self) -> u32
        ensures value { result ≡ self.now.peb_size }
        ensures limits { IsGeometry self.now }
    {
        self.peb_size
    }

    /// The size of a page in bytes.
    pub fn page(&self) -> u32
        ensures value { result ≡ self.now.page }
        ensures limits { IsGeometry self.now }
    {
        self.page
    }

    /// The offset of the volume-identifier header in an eraseblock.
    pub fn vid_offset(&self) -> u32
        ensures value { result ≡ self.now.vid_offset }
        ensures limits { IsGeometry self.now }
    {
        self.vid_offset
    }

    /// The offset of the logical eraseblock in an eraseblock.
    pub fn data_offset(&self) -> u32
        ensures value { result ≡ self.now.data_offset }
        ensures limits { IsGeometry self.now }
    {
        self.data_offset
    }

    /// The number of eraseblocks of the device. An image may have fewer.
    pub fn pebs(&self) -> u32
        ensures value { result ≡ self.now.pebs }
        ensures limits { IsGeometry self.now }
    {
        self.pebs
    }

    /// The size of a logical eraseblock in bytes: that of an eraseblock from the data offset on.
    pub fn leb_size(&self) -> u32
        ensures value { result ≡ leb_size self.now }
        ensures limits { IsGeometry self.now }
    {
        self.peb_size - self.data_offset
    }

    /// The number of records of the volume table: as many as fit into a logical eraseblock, but at most 128.
    pub fn slots(&self) -> u32
        ensures value { result ≡ slots self.now }
        ensures limits { IsGeometry self.now }
    {
        (self.leb_size() / RECORD_SIZE).min(MOST_SLOTS)
    }
}
