//! The tests of `pwcheck_run`: worked lines, bounds, and each device call failing in turn.
//!
//! They stand in a crate of their own, since a crate that has tests is proved twice.
#![tactic(auto)]

#[cfg(test)]
mod form_tests;
#[cfg(test)]
mod runs;
#[cfg(test)]
mod tests;
