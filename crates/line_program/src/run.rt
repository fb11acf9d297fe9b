//! The replies to all lines, one line at a time in fixed memory, and the state after them.

ghost use Rattle.std.specs.Prelude.{◌≡◌, ◌≢◌, ◌≤◌, ◌^◌};
ghost use Rattle.line_io.specs.Devices.{WhereTold};
ghost use Rattle.pieces.specs.FaultCounts.{HasRisen};
ghost use Rattle.line_program.specs.Outcome.{Outcome, StateOutcome};
ghost use Rattle.line_program.specs.Rules.{MayLackMemory, from_state};

use crate::Responder;
use crate::next::next_reply;
use crate::status::{ALL_GOOD, NO_MEMORY, OVER_MAX, READ_FAULT, SOME_OTHER, WRITE_FAULT};
use crate::stop::Stop;
use line_io::{LineBuffer, OutputBuffer, Sink, Source};

/// Answers the lines of a source of at most `max` bytes, and gives the status.
///
/// The lines are kept one at a time in a buffer of 16,384 bytes, and replies are gathered in another. They are
/// written where that is full, before each read, and at the end.
pub fn run_lines<R: Responder, S: Source, K: Sink>(
    responder: &mut R,
    source: &mut S,
    sink: &mut K,
    max: u64,
) -> u8
    requires { max ≤ 2 ^ 40 }

    // No other status comes.
    ensures statuses { (result ≤ 6) × (result ≢ 2) }

    // A fault is answered only where the count of that device rose in this call.
    ensures read_fault { result ≡ 3 → HasRisen (S.faults source.old) (S.faults source.new) }
    ensures write_fault { result ≡ 4 → HasRisen (K.faults sink.old) (K.faults sink.new) }

    // Want of memory is answered only under rules by which memory may be wanting.
    ensures want_of_memory { result ≡ 5 → MayLackMemory R.rules }

    // What was taken and written, for each status.
    ensures outcome { WhereTold (S.left source.old) (S.left source.new) (K.written sink.old) (K.written sink.new)
        (λ held taken added. Outcome (from_state R.rules responder.old) result max held taken added) }
{
    run_state_lines(responder, source, sink, max)
}

/// Does what [`run_lines`] does, and tells the state after the lines too.
pub fn run_state_lines<R: Responder, S: Source, K: Sink>(
    responder: &mut R,
    source: &mut S,
    sink: &mut K,
    max: u64,
) -> u8
    requires { max ≤ 2 ^ 40 }
    ensures statuses { (result ≤ 6) × (result ≢ 2) }
    ensures read_fault { result ≡ 3 → HasRisen (S.faults source.old) (S.faults source.new) }
    ensures write_fault { result ≡ 4 → HasRisen (K.faults sink.old) (K.faults sink.new) }

    // The count of the sink's faults never falls.
    ensures count { K.faults sink.old ≤ K.faults sink.new }
    ensures want_of_memory { result ≡ 5 → MayLackMemory R.rules }

    // What was taken and written, for each status; and the state, where the input was read to its end.
    ensures outcome { WhereTold (S.left source.old) (S.left source.new) (K.written sink.old) (K.written sink.new)
        (λ held taken added. StateOutcome R.rules responder.old responder.new result max held taken added) }
{
    let mut lines = LineBuffer::new(max);
    let mut out = OutputBuffer::new();
    let mut all_good = true;
    'lines: loop {
        match next_reply(responder, &mut lines, &mut out, source, sink) {
            Ok(good) => {
                if out.has_failed() {
                    return WRITE_FAULT;
                }
                all_good &= good;
            }
            Err(stop) => {
                out.flush(sink);
                if out.has_failed() {
                    return WRITE_FAULT;
                }
                return match stop {
                    Stop::End => { if all_good { ALL_GOOD } else { SOME_OTHER } }
                    Stop::ReadFault => READ_FAULT,
                    Stop::WriteFault => WRITE_FAULT,
                    Stop::Budget => OVER_MAX,
                    Stop::NoMemory => NO_MEMORY,
                };
            }
        }
    }
}
