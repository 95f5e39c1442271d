//! The tests of the libraries: what no contract says, or what bytes from outside say again.
//!
//! They stand in a crate above all libraries, so a library is proved once and not a second time with its tests. They are
//! ordered by layers, so a layer's tests can name what the layers below it are tested with. They use public calls alone.

#![tactic(auto)]

#[cfg(test)]
mod tests;
