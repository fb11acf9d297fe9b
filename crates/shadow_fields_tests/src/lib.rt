//! The tests of `shadow_fields`: cut lines, and tables of passwords.
//!
//! They stand in a crate of their own, since a crate that has tests is proved twice.
#![tactic(auto)]

#[cfg(test)]
mod tests;
