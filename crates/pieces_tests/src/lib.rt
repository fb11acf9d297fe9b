//! The tests of `pieces`: rows of cut texts, places, short bytes and names, and one call of each kind.
//!
//! They stand in a crate of their own, since a crate that has tests is proved twice.
#![tactic(auto)]

#[cfg(test)]
mod tests;
