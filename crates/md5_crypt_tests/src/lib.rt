//! The tests of `md5_crypt`: verdicts, lines, and the scheme under its old paths.
//!
//! They stand in a crate of their own, since a crate that has tests is proved twice.
#![tactic(auto)]

#[cfg(test)]
mod tests;
