//! Words of a text: where bytes are cut, the numbers that decimal digits stand for, and names as they are shown.
//!
//! The config, the composer's text and the words of a command line are read with them.
//!
//! A caller, proved from the contracts alone (`crates/ubi_uses`):
//!
//! ```
//! use ubi_words::{cut, number_of};
//!
//! /// The number that stands before the first comma of a line.
//! pub fn first_number(line: &[u8]) -> Option<u32>
//!     ensures { (first : List ℕ) (rest : List (List ℕ)) → slice_split (λ b. b == 44) line.now ≡ first ∷ rest → result ≡ number_within most_number first }
//! {
//!     let (first, _) = cut(line, b',');
//!     number_of(first)
//! }
//! ```
#![tactic(auto)]

mod at_byte;
mod decimal;
mod shown;

pub use at_byte::cut;
pub use decimal::{decimal_of, decimal_within, number_of, number_within};
pub use shown::shown_text;
