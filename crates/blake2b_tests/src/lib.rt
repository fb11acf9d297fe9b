//! The tests of `blake2b`: the vectors of RFC 7693, and hashes of Python's hashlib.
//!
//! They stand in a crate of their own, since a crate that has tests is proved twice.
#![tactic(auto)]

#[cfg(test)]
mod tests;
