//! The commands that write, over files: `extract`, `normalise`, `change`, `rename` and `update` of an image ([`Writing`]), `unpack`,
//! `compose` and `build`. Below them each command is a function over a source of an image's bytes, or over bytes in memory.
#![tactic(auto)]

mod all_asked;
mod asks;
mod build;
mod byte_numbers;
mod change;
mod compose;
mod config_volumes;
mod contents;
mod extract;
mod folder_config;
mod gathered;
mod lines;
mod normalise;
mod orders;
mod pages;
mod pages_file;
mod plan;
mod plan_image;
mod planners;
mod rename;
mod spec_file;
mod unpack;
mod update;
mod volume_key;
mod writers;

pub use asks::{Ask, Edits, parts_of};
pub use build::build_file;
pub use byte_numbers::bytes_within;
pub use change::{NewBytes, run_change, run_change_from};
pub use compose::{compose_file, run_compose};
pub use extract::run_extract;
pub use lines::blocks_line;
pub use normalise::run_normalise;
pub use orders::{Change, Extract, NewImage, Plan, Rename, Update};
pub use pages::{Made, Pages};
pub use planners::{change_file, rename_file, update_file};
pub use rename::{run_rename, run_rename_from};
pub use unpack::unpack_file;
pub use update::run_update_from;
pub use volume_key::VolumeKey;
pub use writers::{Writing, write_file};
