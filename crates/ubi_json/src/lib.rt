//! The answers of the commands as JSON: one object on one line. Each text is given exactly, and reads back as the
//! data that the definitions name.
#![tactic(auto)]

mod check;
mod differences;
mod geometry;
pub mod laws;
mod line;
mod list;
mod told;

pub use check::{check_line, check_value, count_of};
pub use differences::{condition_word, differences_line, same_line, side_word};
pub use geometry::geometry_line;
pub use list::{ListedVolume, kind_word, list_line, listed_value, sizes_value};
pub use told::{error_line, refusal_line, refusal_value, side_line, undetected_line};
