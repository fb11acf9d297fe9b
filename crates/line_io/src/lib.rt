//! The outside of a program: sources and sinks of bytes that count their faults, the lines of a source in
//! fixed memory, and bytes gathered for a sink.
//!
//! No call takes memory. A program generic over [`Source`] and [`Sink`] is run on standard input and
//! output by [`StdSource`] and [`StdSink`], and tested by [`MemorySource`] and [`MemorySink`], which
//! give few bytes at a time and fail at the calls that are listed.
#![tactic(auto)]

mod buffer;
mod device;
pub mod laws;
mod memory;
mod output;
mod system;
mod write;

pub use buffer::{INPUT_MAX, LINE_MAX, Line, LineBuffer};
pub use device::{Failed, Sink, Source};
pub use memory::{MemorySink, MemorySource};
pub use output::OutputBuffer;
pub use system::{StdSink, StdSource};
pub use write::write_all;
