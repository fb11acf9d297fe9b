//! The tests of `foreign_lines`.
//!
//! They stand in a crate of their own, since a crate that has tests is proved twice.
#![tactic(auto)]

#[cfg(test)]
mod converting;
#[cfg(test)]
mod tests;
