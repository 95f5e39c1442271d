//! Plans of edits.

pub mod edits;
mod failing;
mod memory;
mod plans;
mod vast;
