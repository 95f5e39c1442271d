//! The config of ubinize, an ini file. It has a section for each volume, which says what the volume is and which file
//! holds its contents. What is read here means the same to ubinize; the rest is refused, with its line.
//!
//! [`parse_config`] gives the sections of a text, and [`Section::record`] the record of a section's volume. [`digits_before`] and
//! [`unit_named`] read a size with a unit, for those who take such sizes elsewhere.
//!
//! A caller, proved from the contracts alone (`crates/ubi_uses`):
//!
//! ```
//! use std::alloc::Global;
//! use ubi_config::{ConfigError, parse_config};
//!
//! /// How many volumes a config describes, or its first fault.
//! pub fn volume_count(alloc: Global, text: &[u8]) -> Result<usize, ConfigError>
//!     ensures count { IfOk result (λ count. count ≡ length (sections_of text.now)) }
//!     ensures refused { IfErr result (IsFault (first_config_fault text.now)) }
//! {
//!     let sections = parse_config(alloc, text)?;
//!     Ok(sections.as_slice().len())
//! }
//! ```
#![tactic(auto)]

mod above;
mod config;
mod drafts;
mod errors;
mod key;
pub mod laws;
mod line;
mod section;
mod text;
mod value;
mod volume;
mod words;
mod written;

pub use config::parse_config;
pub use errors::{ConfigCause, ConfigError};
pub use key::Key;
pub use section::Section;
pub use text::Text;
pub use volume::{ConfigVolume, LeftOut};
pub use words::{digits_before, unit_named};
pub use written::write_config;
