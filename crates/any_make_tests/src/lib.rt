//! The tests of `any_make`.
//!
//! They stand in a crate of their own, since a crate that has tests is proved twice.
#![tactic(auto)]

#[cfg(test)]
mod memory_tests;
#[cfg(test)]
mod run_tests;
#[cfg(test)]
mod tests;
