//! A text after the replies.

ghost use Rattle.std.specs.Prelude.{◌≤◌, ◌^◌, List, ℕ};
ghost use Rattle.line_io.specs.Output.{Puts};
ghost use Rattle.line_program.specs.Outcome.{EndedOutcome, RunTold};

use crate::Responder;
use crate::run::run_state_lines;
use crate::status::{SOME_OTHER, WRITE_FAULT};
use line_io::{OutputBuffer, Sink, Source};

/// What has a text to write when its lines have ended.
pub trait Ending: Responder {
    /// The text, by the state.
    ghost ending: { Self → List ℕ };

    /// Puts the text.
    fn put_ending<K: Sink>(&self, out: &mut OutputBuffer, sink: &mut K)
        ensures puts { Puts (K.written sink.old) (K.written sink.new) (K.faults sink.old) (K.faults sink.new) out.old out.new
            (ending self.now) };
}

/// Answers the lines of a source of at most `max` bytes, writes the text of the state after them, and gives the status.
///
/// Statuses are those of [`run_lines`](crate::run_lines). The text is written where the input was read to its end, so at the
/// statuses 0 and 1; where that fails the status is 4.
pub fn run_ended<R: Ending, S: Source, K: Sink>(
    responder: &mut R,
    source: &mut S,
    sink: &mut K,
    max: u64,
) -> u8
    requires { max ≤ 2 ^ 40 }
    ensures told { RunTold S.left S.faults source.old source.new K.written K.faults sink.old sink.new result
        (λ held taken added. EndedOutcome R.Responder.rules R.ending responder.old result max held taken added) }
{
    let status = run_state_lines(responder, source, sink, max);
    if status > SOME_OTHER {
        return status;
    }
    let mut out = OutputBuffer::new();
    responder.put_ending(&mut out, sink);
    out.flush(sink);
    if out.has_failed() {
        return WRITE_FAULT;
    }
    status
}
