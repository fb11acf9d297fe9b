//! The tests of `line_program`: worked inputs, statuses, when replies are written, and a text after them.
//!
//! They stand in a crate of their own, since a crate that has tests is proved twice.
#![tactic(auto)]

#[cfg(test)]
mod ending_tests;
#[cfg(test)]
mod tests;
