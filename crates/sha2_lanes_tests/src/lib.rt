//! The tests of `sha2_lanes`: messages of two blocks, one in each lane.
//!
//! They are in a crate of their own, since a crate that has tests is proved twice.
#![tactic(auto)]

#[cfg(test)]
mod tests;
