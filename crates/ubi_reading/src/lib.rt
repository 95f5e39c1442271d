//! The commands that read images and write none, over files: those of one image ([`Reading`]), and those that compare two
//! ([`Comparison`]). Below them each command is a function over a source of an image's bytes, or over bytes in memory.
#![tactic(auto)]

mod check;
mod comparison;
mod differences;
mod format;
mod geometry;
mod lines;
mod list;
mod map;
mod readers;
mod show;

pub use check::run_check;
pub use comparison::{Comparison, compare_files};
pub use format::Format;
pub use geometry::run_geometry;
pub use list::run_list;
pub use map::{map_file, run_map};
pub use readers::{Reading, read_dump, read_file};
pub use show::run_show;
