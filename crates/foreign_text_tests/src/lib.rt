//! The tests of `foreign_text`: texts of makers, converted and refused.
//!
//! They are in a crate of their own, since a crate that has tests is proved twice.
#![tactic(auto)]

#[cfg(test)]
mod asked;
#[cfg(test)]
mod digests;
#[cfg(test)]
mod makers;
#[cfg(test)]
mod pbkdf2_texts;
#[cfg(test)]
mod tests;
