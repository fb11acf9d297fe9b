//! Lines of users and stored texts, as files of shadow(5) and htpasswd(1) have them, read as commands that set the texts.
//!
//! [`SetLines`] is a source in front of another: what answers commands sets the text of each line for the line's user. The text ends
//! at the next colon. A line without a colon, or with a tab before its colon, gives a line that is no command. No memory is taken.
#![tactic(auto)]

pub mod laws;
mod sets;
mod source;

pub use source::SetLines;
