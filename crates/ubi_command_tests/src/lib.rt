//! The tests of the commands over files: what no contract says, or what bytes from outside say again.
//!
//! They stand in a crate above the commands, so the commands are proved once and not a second time with their tests.
#![tactic(auto)]

#[cfg(test)]
mod tests;
