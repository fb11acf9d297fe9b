//! The tests of `base64ct`: vectors from outside, rows that say what is refused, counts, and texts in parts.
//!
//! They stand in a crate of their own, since a crate that has tests is proved twice.
#![tactic(auto)]

#[cfg(test)]
mod stream_tests;
#[cfg(test)]
mod tests;
