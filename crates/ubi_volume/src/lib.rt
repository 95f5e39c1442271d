//! What an image means: its volumes with what they read, and the state of each of its eraseblocks.
//!
//! Attaching an image accepts it with its one meaning, or refuses it with the first cause that applies. A meaning is read
//! volume by volume, or one logical eraseblock at a time.
//!
//! [`attach_places`] attaches an image in a source without holding its contents. It finds the table, the eraseblock of
//! each logical eraseblock, and what kind of contents each volume has. [`write_places`] then writes a volume from the
//! source.
//!
//! A caller, proved from the contracts alone (`crates/ubi_uses`):
//!
//! ```
//! use std::alloc::Global;
//! use ubi_media::{AttachError, Geometry};
//! use ubi_volume::{ReadError, attach, read_leb};
//!
//! /// Reads a logical eraseblock of a volume of an image into `out`: how many bytes it has, or why it isn't read.
//! pub fn read(
//!     alloc: Global,
//!     geometry: &Geometry,
//!     image: &[u8],
//!     id: u32,
//!     lnum: u32,
//!     out: &mut [u8],
//! ) -> Result<Result<usize, ReadError>, AttachError>
//!     requires { leb_size geometry.now ≤ length out.old }
//!     ensures { IfOk result (λ read. (m : Meant) × Accepts (image_of geometry.now image.now) m × IfOk read (IsLebRead m id lnum out.old out.new)) }
//! {
//!     let attached = attach(alloc, geometry, image)?;
//!     Ok(read_leb(attached.meaning(), id, lnum, out))
//! }
//! ```
#![tactic(auto)]

mod attached;
mod block;
mod cases;
mod content;
mod errors;
mod extract;
pub mod laws;
mod meaning;
mod places;
mod read;
mod surveyed;
mod write;

pub use attached::{Attached, BlockState, attach, attach_from};
pub use block::{Amount, amount_of, is_blank_part, read_place};
pub use cases::{RawPiece, case_from, raw_piece_from, text_lebs_from, text_piece_from};
pub use content::{Bytes, Content, Lebs, Volume};
pub use errors::{MeaningCause, MeaningError, ReadError};
pub use extract::write_places;
pub use meaning::Meaning;
pub use places::{Extent, PlaceContent, Places, attach_places, share_len};
pub use read::{read_leb, volume_len};
pub use surveyed::{Surveyed, survey, survey_from};
pub use write::{read_volume, write_all, write_volume};
