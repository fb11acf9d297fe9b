//! The tests of `argon2_plain`: vectors of RFC 9106 and of libargon2, records, and memory that is refused.
//!
//! They stand in a crate of their own, since a crate that has tests is proved twice.
#![tactic(auto)]

#[cfg(test)]
mod tests;
