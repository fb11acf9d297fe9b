//! The tests of `phpass_plain`: texts of phpass, WordPress and passlib, and each fault.
//!
//! They are in a crate of their own, since a crate that has tests is proved twice.
#![tactic(auto)]

#[cfg(test)]
mod tests;
