//! The tests of `pbkdf2_plain`: vectors, records, and runs over lines.
//!
//! They stand in a crate of their own, since a crate that has tests is proved twice.
#![tactic(auto)]

#[cfg(test)]
mod memory_tests;
#[cfg(test)]
mod sha1_tests;
#[cfg(test)]
mod tests;
