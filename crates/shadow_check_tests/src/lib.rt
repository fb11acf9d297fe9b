//! The tests of `shadow_check`.
//!
//! They stand in a crate of their own, since a crate that has tests is proved twice.
#![tactic(auto)]

#[cfg(test)]
mod join_tests;
#[cfg(test)]
mod line_tests;
#[cfg(test)]
mod tests;
#[cfg(test)]
mod two_file_tests;
