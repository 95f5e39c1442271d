//! The commands of `ubi_tool`, by their words. A command does what its words ask for, and answers with a printed text and an exit
//! status.
//!
//! [`run_words`] takes the words and a [`Disk`](ubi_files::Disk), which reaches files by their paths. The program prints the answer
//! with [`report`].
#![tactic(auto)]

mod command_line;
mod commands;
mod given;
pub mod laws;
mod print;
mod requests;

pub use commands::run_words;
pub use print::{report, report_aside, writes_output};
