//! The volume table of an image: what each of its two copies is, which one decides, and the records of its volumes.
//!
//! A table is chosen from what a scan found, or refused with the first cause that applies: from an image in memory
//! ([`choose`]), or from any source that was scanned ([`choose_from`]). [`read_copy`] says what one copy is, whether or not
//! it decides. Asking a table about volumes allocates no memory. The bytes of a table read back as that table, and
//! [`Table::renamed`] gives a volume another name.
//!
//! A caller, proved from the contracts alone (`crates/ubi_uses`):
//!
//! ```
//! use std::alloc::Global;
//! use ubi_media::{AttachError, Geometry, VolumeRecord};
//! use ubi_scan::{Blocks, scan};
//! use ubi_table::choose;
//!
//! /// What the volume table of an image says of a volume, None where there is no such volume.
//! pub fn record_of(
//!     alloc: Global,
//!     geometry: &Geometry,
//!     image: &[u8],
//!     id: u32,
//! ) -> Result<Option<VolumeRecord>, AttachError>
//!     ensures { IfOk result (λ said. (table : Records) × of_blocks IsTable (image_of geometry.now image.now) table × (said ≡ get table.of id)) }
//! {
//!     let blocks = Blocks::new(geometry, image)?;
//!     let found = scan(alloc, &blocks)?;
//!     let table = choose(alloc, &blocks, &found)?;
//!     Ok(table.get(id).copied())
//! }
//! ```
#![tactic(auto)]

mod choice;
mod copy;
mod draft;
mod encode;
pub mod laws;
mod renamed;
mod table;

pub use choice::{choose, choose_from};
pub use copy::{CopyRead, read_copy, read_copy_from};
pub use draft::{Draft, DraftError};
pub use table::Table;
