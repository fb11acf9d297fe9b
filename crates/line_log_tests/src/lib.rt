//! The tests of `line_log`: files of lines through crashes. The device in memory is crashed at each of its calls, with each
//! write torn in each way.
//!
//! They stand in a crate of their own, since a crate that has tests is proved twice.
#![tactic(auto)]

#[cfg(test)]
mod helpers;
#[cfg(test)]
mod tests;
