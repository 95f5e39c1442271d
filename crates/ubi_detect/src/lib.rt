//! The geometry of a file of which nothing else is known, and where in it an image lies, found by the file's own headers.
//!
//! [`detect_from`] reads the headers in a file and groups them by what they say. It gives each geometry that the headers of one image
//! show, with the part of the file that is the image: all whole eraseblocks on the grid of these headers. It also gives where other images
//! lie in the file. It takes any source of `ubi_scan`, and memory for the groups alone. Its answer is exactly what the definitions say of
//! all bytes of the file.
//!
//! A caller, proved from the contracts alone (`crates/ubi_uses`):
//!
//! ```
//! use std::alloc::Global;
//! use ubi_detect::{DetectError, detect_from};
//! use ubi_scan::BlockSource;
//!
//! /// Where an image begins in a source of which nothing else is known.
//! pub fn start_of<S: BlockSource>(alloc: Global, source: &mut S) -> Result<u64, DetectError>
//!     ensures { IfOk result (λ start. (first : Detected) × (more : List Detected) × AreDetectedOf (S.agrees source.new) (first ∷ more) × (start ≡ first.start)) }
//! {
//!     let found = detect_from(alloc, source)?;
//!     Ok(found.geometries[0].start)
//! }
//! ```
#![tactic(auto)]

mod at_places;
mod block_tests;
mod detect;
mod groups;
mod heads;
mod images;
pub mod laws;
mod place;
mod plain;
mod sure;
mod survey;
mod way;
mod ways;

pub use detect::{DetectError, Detected, Found, Undetected, detect_from};
pub use images::{Images, Span};
