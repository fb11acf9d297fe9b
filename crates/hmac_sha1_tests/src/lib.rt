//! The tests of `hmac_sha1`: vectors of RFC 2202.
//!
//! They stand in a crate of their own, since a crate that has tests is proved twice.
#![tactic(auto)]

#[cfg(test)]
mod tests;
