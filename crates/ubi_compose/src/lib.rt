//! The normal image of a meaning, which is the one byte string that identifies it; and the composer's text, a plain
//! way to write down the volumes of a meaning.
//!
//! A caller, proved from the contracts alone (`crates/ubi_uses`):
//!
//! ```
//! use std::alloc::Global;
//! use ubi_compose::normalise;
//! use ubi_media::{AttachError, Geometry};
//!
//! /// The bytes by which a build is known, wherever its eraseblocks lie and however worn they are.
//! pub fn known_by(alloc: Global, geometry: &Geometry, build: &[u8]) -> Result<Vec<u8>, AttachError>
//!     ensures { IfOk result (λ normal. (m : Meant) × Accepts (image_of geometry.now build.now) m × (normal.items ≡ normal_bytes m)) }
//! {
//!     normalise(alloc, geometry, build)
//! }
//! ```
#![tactic(auto)]

mod built_image;
mod errors;
mod header;
pub mod laws;
mod line;
mod memory_image;
mod records;
mod shown;
mod source_image;
mod sourced;
mod spec_text;
mod writer;

pub use built_image::{Recipe, build_to};
pub use errors::{BuildError, ComposeError, RecipeError, SpecCause, SpecError};
pub use memory_image::{compose, normalise};
pub use shown::shown_name;
pub use source_image::normalise_to;
pub use spec_text::parse_spec;
