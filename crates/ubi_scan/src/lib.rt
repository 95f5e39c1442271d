//! The eraseblocks of an image: which of them are members of which logical eraseblock (LEB), which member each LEB
//! reads, and the first fault that refuses the image.
//!
//! A scan goes once over the eraseblocks, in ascending order. It finds exactly what its definitions say of all
//! eraseblocks together. Only a scan allocates memory; asking what it found doesn't.
//!
//! An image may lie in memory ([`Blocks`], [`scan`]), or be read at places from any [`BlockSource`] ([`scan_from`]):
//! a scan of a file holds the bytes of one eraseblock at a time.
//!
//! A caller, proved from the contracts alone (`crates/ubi_uses`):
//!
//! ```
//! use std::alloc::Global;
//! use ubi_media::{AttachError, Geometry};
//! use ubi_scan::{Blocks, scan};
//!
//! /// The eraseblock of an image that holds a logical eraseblock of a volume, None where none does.
//! pub fn holder(
//!     alloc: Global,
//!     geometry: &Geometry,
//!     image: &[u8],
//!     vol: u32,
//!     lnum: u32,
//! ) -> Result<Option<u32>, AttachError>
//!     ensures { IfOk result (λ holder. (found : Found) × of_blocks IsScan (image_of geometry.now image.now) found × (holder ≡ get found.winners (vol, lnum))) }
//! {
//!     let blocks = Blocks::new(geometry, image)?;
//!     let found = scan(alloc, &blocks)?;
//!     Ok(found.winner(vol, lnum))
//! }
//! ```
#![tactic(auto)]

mod blocks;
mod candidate;
mod counts;
mod errors;
mod faults;
mod file;
mod found;
mod header;
pub mod laws;
mod pass;
mod passed_over;
mod placed;
mod read;
mod scans;
mod size;
mod source;
mod trace;
mod window;

pub use blocks::Blocks;
pub use errors::StreamError;
pub use file::FileSource;
pub use found::{Leb, MemberHeader, Scan, ScanState};
pub use header::member_of;
pub use passed_over::{count_passed_over, first_anchor};
pub use placed::{PlacedFile, SystemFile, file_len};
pub use read::{read_headers, read_leb, read_member, read_part};
pub use scans::{scan, scan_from};
pub use size::block_count;
pub use source::{BlockSource, MemorySource, SourceFault};
pub use trace::Trace;
