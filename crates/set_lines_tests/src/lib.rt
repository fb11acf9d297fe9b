//! The tests of `set_lines`: lines of all forms, read in pieces of every size, and reads that fail.
//!
//! They stand in a crate of their own, since a crate that has tests is proved twice.
#![tactic(auto)]

#[cfg(test)]
mod tests;
