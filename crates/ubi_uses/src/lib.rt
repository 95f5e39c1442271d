//! Callers of the other crates, proved from the contracts alone: the examples of their front pages.
#![tactic(auto)]

mod build;
mod change;
mod compose;
mod config;
mod detect;
mod laid;
mod media;
mod same;
mod scan;
mod table;
mod volume;
mod words;

pub use build::image_of_volumes;
pub use change::update;
pub use compose::known_by;
pub use config::volume_count;
pub use detect::start_of;
pub use laid::lone_header;
pub use media::erased;
pub use same::is_same_build;
pub use scan::holder;
pub use table::record_of;
pub use volume::read;
pub use words::first_number;
