//! The tests of `wrap_stream`: streams wrapped and unwrapped, with faults and bounds.
//!
//! They stand in a crate of their own, since a crate that has tests is proved twice.
#![tactic(auto)]

#[cfg(test)]
mod tests;
