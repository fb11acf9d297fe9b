//! The tests of `yescrypt_plain`: texts of libxcrypt, records, faults, and memory that is refused.
//!
//! They stand in a crate of their own, since a crate that has tests is proved twice.
#![tactic(auto)]

#[cfg(test)]
mod tests;
