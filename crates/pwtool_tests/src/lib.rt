//! The tests of `pwtool_forms` and `pwtool_cli`: each form over sources and sinks in memory, and what of the command line
//! reaches it.
//!
//! They stand in a crate of their own, since a crate that has tests is proved twice.
#![tactic(auto)]

#[cfg(test)]
mod form_tests;
#[cfg(test)]
mod tally_tests;
#[cfg(test)]
mod tests;
