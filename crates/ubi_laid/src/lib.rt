//! The eraseblocks in which volumes are laid out: the header and the text of each logical eraseblock. Wherever these lie,
//! they read what the volumes hold. Where the bytes of volumes lie in a source ([`Part`]), each eraseblock is read as a piece ([`Piece`]).
//!
//! The normal image lays out all volumes of a meaning in order, and a commit writes some into whatever eraseblocks it may
//! take.
//!
//! A caller, proved from the contracts alone (`crates/ubi_uses`):
//!
//! ```
//! use ubi_laid::static_header;
//! use ubi_media::write_vid;
//!
//! /// The bytes of the header of a static volume's only logical eraseblock, which holds `text`.
//! pub fn lone_header(vol_id: u32, text: &[u8]) -> [u8; 64]
//!     requires { length text.now < 2 ^ 32 }
//!     ensures { result ≡ vid_bytes (static_block 0 vol_id 1 0 text.now).header }
//! {
//!     write_vid(&static_header(0, vol_id, 1, 0, text))
//! }
//! ```
#![tactic(auto)]

mod header;
pub mod laws;
mod part;
mod pieces;

pub use header::{damaged_header, piece_header, static_header};
pub use part::{Part, is_long, piece_count, piece_of};
pub use pieces::{Origin, Piece, fetch, header_of, is_left_out};
