//! A dump of a directory in LDIF (RFC 2849), read as lines of a user, a colon and a stored text.
//!
//! [`LdifLines`] is a source in front of another: what reads lines of users and texts reads those of the dump. An entry gives a
//! line for each `userPassword`, with its `uid`, or else its distinguished name, as the user. No memory is taken.
#![tactic(auto)]

mod attribute;
mod dump;
mod entry;
mod pour;
mod reader;
mod room;
mod source;

pub use source::{FileForm, LdifLines};
