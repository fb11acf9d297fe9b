//! The tests of `line_filter`: texts of all forms, read in pieces of every size, and reads that fail.
//!
//! They stand in a crate of their own, since a crate that has tests is proved twice.
#![tactic(auto)]

#[cfg(test)]
mod mapped;
#[cfg(test)]
mod tests;
