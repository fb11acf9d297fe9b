//! The tests of `hmac_plain`: vectors of RFC 4231.
//!
//! They stand in a crate of their own, since a crate that has tests is proved twice.
#![tactic(auto)]

#[cfg(test)]
mod tests;
