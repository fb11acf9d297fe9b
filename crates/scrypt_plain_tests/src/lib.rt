//! The tests of `scrypt_plain`: the vectors of RFC 7914, and stored records.
//!
//! They stand in a crate of their own, since a crate that has tests is proved twice.
#![tactic(auto)]

#[cfg(test)]
mod tests;
