//! Support for the tests of several crates: sources and writers that fail where a test says, and count or keep what they are
//! asked; a source that changes; and the eraseblocks, headers, records and texts that images are made of.
//!
//! Contracts say what the sources and writers answer, so a test may rest on it. Only tests use this crate; no library does.
#![tactic(auto)]

mod changing;
pub mod chips;
pub mod header_bytes;
pub mod headers;
pub mod pebs;
pub mod records;
pub mod sealed;
mod source;
pub mod texts;
mod writer;

pub use changing::ChangingSource;
pub use source::ProbeSource;
pub use writer::{Failure, ProbeWriter};
