//! The tests of `crypt_text`: texts, new settings and answers of libxcrypt.
//!
//! They are in a crate of their own, since a crate that has tests is proved twice.
#![tactic(auto)]

#[cfg(test)]
mod memory_tests;
#[cfg(test)]
mod sha1_tests;
#[cfg(test)]
mod tests;
