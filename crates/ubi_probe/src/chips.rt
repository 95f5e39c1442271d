//! Eraseblocks of the size that chips have: 128 KiB in pages of 2 KiB.

use crate::pebs::{COPY_0, COPY_1, Data, Ec, LEB_1, NO_DATA, Peb, Vid, image_of};
use crate::records::Slot;
use std::alloc::{AllocError, Global};
use ubi_media::{Geometry, GeometryError};

/// Where the volume-identifier header and the data of an eraseblock begin, and its erase-counter header with counter 0 in the
/// image 0x12345678.
#[derive(Clone, Copy)]
pub struct Chip {
    /// The offset of the volume-identifier header.
    pub vid: u32,
    /// The offset of the data.
    pub data: u32,
    /// The erase-counter header. Another program worked out its CRC.
    pub ec: &'static [u8; 64],
}

/// The erase-counter header of [`PAGES`].
pub const PAGE_EC: [u8; 64] = *b"UBI#\x01\0\0\0\0\0\0\0\0\0\0\0\0\0\x08\0\0\0\x10\0\x12\x34\x56\x78\
    \0\0\0\0\0\0\0\0\0\0\0\0\0\0\0\0\0\0\0\0\0\0\0\0\0\0\0\0\0\0\0\0\xF0\xEF\x31\x82";

/// A page for each header.
pub const PAGES: Chip = Chip {
    vid: 2048,
    data: 4096,
    ec: &PAGE_EC,
};

/// Both headers in one page, in sub-pages of 512 bytes.
pub const SUBPAGES: Chip = Chip {
    vid: 512,
    data: 2048,
    ec: b"UBI#\x01\0\0\0\0\0\0\0\0\0\0\0\0\0\x02\0\0\0\x08\0\x12\x34\x56\x78\
    \0\0\0\0\0\0\0\0\0\0\0\0\0\0\0\0\0\0\0\0\0\0\0\0\0\0\0\0\0\0\0\0\x62\xA5\x03\x53",
};

impl Chip {
    /// The geometry of a device of 1024 eraseblocks.
    ///
    /// # Errors
    ///
    /// None: the offsets are those of pages.
    pub fn geometry(&self) -> Result<Geometry, GeometryError> {
        Geometry::new(131_072, 2048, self.vid, self.data, 1024)
    }

    /// The image of a dynamic volume 0, whose logical eraseblock 1 begins with two bytes `ab`, followed by a spare
    /// eraseblock. The geometry is the chip's.
    ///
    /// # Errors
    ///
    /// Memory ran out.
    pub fn image(
        &self,
        alloc: Global,
        geometry: &Geometry,
        records: &'static [Slot],
    ) -> Result<Vec<u8>, AllocError> {
        let (ec, table) = (Ec::Bytes(self.ec), Data::Table(records));
        let pebs = [
            Peb(ec, COPY_0, table),
            Peb(ec, COPY_1, table),
            Peb(ec, LEB_1, Data::Runs(&[(b"ab", 1)])),
            Peb(ec, Vid::Blank, NO_DATA),
        ];
        image_of(alloc, geometry, &pebs)
    }
}
