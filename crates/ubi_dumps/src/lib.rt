//! How the image of a dump is reached: what is asked for ([`Asked`]), which dump that is in a file ([`find_dump`]), and how it is opened
//! ([`open_known`]). Beside it: how an output is opened ([`opening_of`]) and written, and what is said to standard error about what is
//! left out.
#![tactic(auto)]

mod asked;
mod dump;
mod lines;
mod opening;
mod output_file;
mod remarks;

pub use asked::{Asked, Paths, Sought};
pub use dump::{KnownDump, find_dump, open_known, open_known_beside};
pub use lines::{put_amount, put_layout, put_shown, undetected_line, unlike_line};
pub use opening::{Opening, opening_of};
pub use output_file::{Output, keep_file, unwritten_line, write_bytes, write_outcome};
pub use remarks::{is_done, remark_anchor, remark_passed_over, remark_start};
