//! The tests of `mcf`: rows that say what is refused, texts from outside, and one call of each kind.
//!
//! They stand in a crate of their own, since a crate that has tests is proved twice.
#![tactic(auto)]

#[cfg(test)]
mod tests;
