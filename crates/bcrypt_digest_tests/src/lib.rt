//! The tests of `bcrypt_digest`: texts of passlib, Django and WordPress, and each fault.
//!
//! They are in a crate of their own, since a crate that has tests is proved twice.
#![tactic(auto)]

#[cfg(test)]
mod makers;
#[cfg(test)]
mod tests;
