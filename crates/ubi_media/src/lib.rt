//! The media of a UBI image, after Linux's `ubi-media.h`, version 1: the geometry of a device, the CRC of each
//! structure, the two headers of an eraseblock, and the records of the volume table.
//!
//! A reader says exactly what bytes are, a writer gives exactly the bytes of the format, and what is written reads
//! back unchanged. Nothing here allocates memory, and nothing fails except with an answer that says so.
//!
//! A caller, proved from the contracts alone (`crates/ubi_uses`):
//!
//! ```
//! use ubi_media::{EcHeader, Geometry, write_ec};
//!
//! /// The erase-counter header of an eraseblock that was erased once more.
//! pub fn erased(geometry: &Geometry, header: &EcHeader) -> [u8; 64]
//!     requires { header.now.counter + 1 < 2 ^ 31 }
//!     ensures { EcIs geometry.now result (Valid (record header.now { counter = header.now.counter + 1 })) }
//! {
//!     let counter = header.counter + 1;
//!     write_ec(geometry, &EcHeader { counter, ..*header })
//! }
//! ```
#![tactic(auto)]

mod bytes;
mod check;
mod division;
mod ec;
mod geometry;
mod header;
pub mod laws;
mod name;
mod record;
mod refusal;
mod tables;
mod vid;

pub use bytes::is_blank;
pub use check::{crc, crc_more};
pub use ec::{
    EC_MAGIC, EcFault, EcHeader, EcOffsets, EcRead, EcStart, read_ec, read_start, write_ec,
};
pub use geometry::{Geometry, GeometryError, MOST_PEBS, PAGE_SIZES};
pub use name::{LONGEST_NAME, VolName};
pub use record::{RECORD_SIZE, RecFault, RecRead, VolumeRecord, read_rec, rec_fault, write_rec};
pub use refusal::{AttachError, Refusal};
pub use vid::{
    LAYOUT_VOLUME, MOST_VOLUMES, REJECT, VID_MAGIC, VidFault, VidHeader, VidRead, VolKind,
    read_vid, write_vid,
};
