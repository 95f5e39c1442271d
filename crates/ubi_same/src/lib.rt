//! Whether two images in memory mean the same ([`same`]), which is whether their normal images are equal byte for byte.
//!
//! A caller, proved from the contracts alone (`crates/ubi_uses`):
//!
//! ```
//! use std::alloc::Global;
//! use ubi_compare::CompareError;
//! use ubi_media::Geometry;
//! use ubi_same::same;
//!
//! /// Whether two builds of an image mean the same, wherever their eraseblocks lie and however worn they are.
//! pub fn is_same_build(
//!     alloc: Global,
//!     geometry: &Geometry,
//!     ours: &[u8],
//!     theirs: &[u8],
//! ) -> Result<bool, CompareError>
//!     ensures { IfOk result (λ answer. (m : Meant) × (n : Meant) × Accepts (image_of geometry.now ours.now) m × Accepts (image_of geometry.now theirs.now) n × (IsTrue answer ↔ (m ≡ n))) }
//! {
//!     same(alloc, geometry, ours, theirs)
//! }
//! ```
#![tactic(auto)]

mod compared;
pub mod laws;

pub use compared::same;
