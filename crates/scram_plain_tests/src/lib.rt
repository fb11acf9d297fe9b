//! The tests of `scram_plain`: texts of PostgreSQL and Dovecot, the exchange of RFC 7677, and each fault.
//!
//! They are in a crate of their own, since a crate that has tests is proved twice.
#![tactic(auto)]

#[cfg(test)]
mod tests;
