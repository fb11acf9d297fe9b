//! The tests of `sha_crypt`: texts and digests of libxcrypt and openssl, and texts that are refused.
//!
//! They stand in a crate of their own, since a crate that has tests is proved twice.
#![tactic(auto)]

#[cfg(test)]
mod tests;
