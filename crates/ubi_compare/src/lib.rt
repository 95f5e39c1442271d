//! Comparing what two images mean: whether they mean the same ([`same_from`]), and where they differ ([`diff_from`]).
//!
//! Both go over two sources in the same way, slot by slot, and hold one eraseblock of contents of each. The differences are a list, which
//! is empty exactly if the images mean the same. `ubi_same` answers for images in memory.
#![tactic(auto)]

mod compare;
mod difference;
mod errors;
mod found;
pub mod laws;
mod lebs;
mod pieces;
mod ranges;
mod records;
mod shares;
mod sides;
mod texts;
mod volumes;

pub use compare::{diff_from, same_from};
pub use difference::{Condition, Difference, Side};
pub use errors::{CompareError, CompareFault};
