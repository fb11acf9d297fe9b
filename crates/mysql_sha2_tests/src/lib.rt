//! The tests of `mysql_sha2`: texts of hashcat's form, and each fault.
//!
//! They are in a crate of their own, since a crate that has tests is proved twice.
#![tactic(auto)]

#[cfg(test)]
mod tests;
