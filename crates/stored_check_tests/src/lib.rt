//! The tests of `stored_check`: verdicts of stored texts, and each of their faults.
//!
//! They stand in a crate of their own, since a crate that has tests is proved twice.
#![tactic(auto)]

#[cfg(test)]
mod tests;
