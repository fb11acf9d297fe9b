//! The tests of `line_io`: lines by length, budgets, faults, and bytes gathered for a sink.
//!
//! They stand in a crate of their own, since a crate that has tests is proved twice.
#![tactic(auto)]

#[cfg(test)]
mod tests;
