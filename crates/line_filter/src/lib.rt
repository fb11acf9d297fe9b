//! What stands between the bytes of a file and its lines: a byte order mark, carriage returns before line feeds, comments and
//! empty lines.
//!
//! [`Filtered`] is a source in front of another, which leaves out what a [`LineForms`] asks it to: whatever reads lines reads
//! those that are meant. [`Noticed`] gives the bytes of another source as they are, and counts the lines that end with a carriage
//! return, and those that are empty or begin with `#`. [`MappedLines`] puts another line in the place of each, by a [`LineRule`]. None of them takes memory.
#![tactic(auto)]

mod filtered;
mod forms;
pub mod laws;
mod mapped;
mod mapping;
mod met;
mod noticed;
mod passing;
mod sieve;

pub use filtered::Filtered;
pub use forms::LineForms;
pub use mapped::MappedLines;
pub use mapping::LineRule;
pub use met::{MESSAGE_MAX, Met, passed_message};
pub use noticed::Noticed;
