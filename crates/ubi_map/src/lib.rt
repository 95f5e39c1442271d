//! What lies where in an image: a letter for each eraseblock, and a page that shows them, with the headers of each.
//!
//! The page needs no other file: it is a frame around one JSON value, whose text no `<` can end.
#![tactic(auto)]

mod blocks;
mod data;
mod frame;
mod headers;
pub mod laws;
mod letters;
mod page;

pub use blocks::{block_text, block_texts, header_letters};
pub use headers::header_text;
pub use letters::{put_rows, state_letters};
pub use page::{refused_page, surveyed_page};
