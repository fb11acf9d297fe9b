//! What `pwcheck` does: passwords checked against stored texts. [`run`] does what the words of the command line say:
//!
//! - `check` answers each line, a password, a tab and a stored text, by one word; `check --count` adds how often the
//!   alphabet was looked up and bytes were compared;
//! - `normalize` writes the normal text of each line, a stored text;
//! - `bench N` makes `N` lines, checks them and counts the answers;
//! - `wrap W` writes the padded Base64 of its input in lines of `W` characters, and `unwrap W` the bytes of such lines.
//!
//! Lines and bytes come from a source, and the output goes to a sink. The status says how the run ended.
#![tactic(auto)]

mod answer;
mod bench;
mod check;
mod checker;
mod form;
mod input;
pub mod laws;
mod line_answer;
mod normalize;
mod normalizer;
mod program;
mod streams;
mod verdict_word;
mod words;

pub use normalize::normalize_lines;
pub use program::{run, run_limited};
pub use verdict_word::word;
pub use words::Words;
