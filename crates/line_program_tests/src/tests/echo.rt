//! Echo: a program that answers each line by itself, without memory.

ghost use Rattle.std.specs.Prelude.{◌≤◌, ◌^◌};

use line_io::{OutputBuffer, Sink, Source};
use line_program::{Responder, run_lines};
use std::alloc::AllocError;

/// What gives each line back.
#[derive(Clone, Copy, Debug)]
pub struct Echo;

impl Responder for Echo {
    ghost use Rattle.line_program_tests.specs.Toys.{echo_state};

    ghost rules = { echo_state };

    fn answer<K: Sink>(
        &mut self,
        line: &[u8],
        out: &mut OutputBuffer,
        sink: &mut K,
    ) -> Result<bool, AllocError> {
        out.put(sink, line);
        out.put(sink, b"\n");
        Ok(true)
    }

    fn answer_long<K: Sink>(&mut self, out: &mut OutputBuffer, sink: &mut K) -> bool {
        out.put(sink, b"toolong\n");
        false
    }
}

/// Gives the lines of a source back.
pub fn run_echo<S: Source, K: Sink>(source: &mut S, sink: &mut K, max: u64) -> u8
    requires { max ≤ 2 ^ 40 }
{
    let mut echo = Echo;
    run_lines(&mut echo, source, sink, max)
}
