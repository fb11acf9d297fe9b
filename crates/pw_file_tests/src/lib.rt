//! The tests of `pw_file`.
//!
//! They stand in a crate of their own, since a crate that has tests is proved twice.
#![tactic(auto)]

#[cfg(test)]
mod tests;
#[cfg(test)]
mod three_users;
