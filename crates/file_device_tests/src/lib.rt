//! The tests of `file_device` over files of the system: made, written, locked, replaced, moved, refused.
//!
//! They stand in a crate of their own, since a crate that has tests is proved twice.
#![tactic(auto)]

#[cfg(test)]
mod helpers;
#[cfg(test)]
mod new_files;
#[cfg(test)]
mod tests;
