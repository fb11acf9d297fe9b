//! The tests of `md5_plain`: fields of libxcrypt and openssl, and each fault.
//!
//! They stand in a crate of their own, since a crate that has tests is proved twice.
#![tactic(auto)]

#[cfg(test)]
mod tests;
