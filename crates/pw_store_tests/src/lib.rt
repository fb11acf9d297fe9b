//! The tests of `pw_store`: stores on a device in memory, which is crashed at each of its calls, with each write torn in
//! each way.
//!
//! They stand in a crate of their own, since a crate that has tests is proved twice.
#![tactic(auto)]

#[cfg(test)]
mod files;
#[cfg(test)]
mod groups;
#[cfg(test)]
mod helpers;
#[cfg(test)]
mod steps;
#[cfg(test)]
mod tests;
