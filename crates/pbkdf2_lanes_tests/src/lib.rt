//! The tests of `pbkdf2_lanes`: keys of eight lanes, and lanes that are set again.
//!
//! They are in a crate of their own, since a crate that has tests is proved twice.
#![tactic(auto)]

#[cfg(test)]
mod tests;
