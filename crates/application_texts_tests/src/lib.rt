//! The tests of `application_texts`: texts of applications, read and refused.
//!
//! They are in a crate of their own, since a crate that has tests is proved twice.
#![tactic(auto)]

#[cfg(test)]
mod fault_tests;
#[cfg(test)]
mod gitea_tests;
#[cfg(test)]
mod mysql_tests;
#[cfg(test)]
mod tests;
