//! The tests of `salted_digest`: texts of Apache, Dovecot, 389-ds, passlib and OpenSSL, and each fault.
//!
//! They are in a crate of their own, since a crate that has tests is proved twice.
#![tactic(auto)]

#[cfg(test)]
mod tests;
