//! The commands over images in memory, for callers in other languages. Each call returns a status, and writes its answer into
//! the caller's memory.
//!
//! A call takes the numbers of a geometry and the bytes of an image. It puts as much of its answer into a buffer as there is
//! room for, and gives the length of all of it. Nothing is kept between calls.
#![tactic(auto)]

mod answer;
mod buffer;
mod edit_lines;
mod lines;
mod numbers;
mod plans;
mod streams;

pub use answer::NO_MEMORY;
pub use lines::{check, diff, geometry, list, map, same, show};
pub use numbers::DeviceSizes;
pub use plans::{change, rename, update};
pub use streams::{normalise, read};
