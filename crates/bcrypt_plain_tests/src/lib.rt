//! The tests of `bcrypt_plain`: texts of libxcrypt and of crypt_blowfish, made and checked, and each fault.
//!
//! They stand in a crate of their own, since a crate that has tests is proved twice.
#![tactic(auto)]

#[cfg(test)]
mod tests;
