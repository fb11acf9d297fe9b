//! Base64 in lines, wrapped and unwrapped between a source and a sink in fixed memory.
#![tactic(auto)]

mod gather;
mod grow;
pub mod laws;
mod lines;
mod place;
mod program;
mod reader;
mod status;
mod unwrap;
mod width;
mod wrap;

pub use program::{run_stream, run_stream_limited};
