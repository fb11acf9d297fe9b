//! The tests of `phc`: rows that say what is refused, texts from outside, and one call of each kind.
//!
//! They stand in a crate of their own, since a crate that has tests is proved twice.
#![tactic(auto)]

#[cfg(test)]
mod part_tests;
#[cfg(test)]
mod tests;
