//! The answers of all lines, one line at a time in fixed memory.

ghost use Rattle.std.specs.Prelude.{◌≡◌, ◌≢◌, ◌≤◌, ◌^◌};
ghost use Rattle.line_io.specs.Devices.{WhereTold};
ghost use Rattle.pieces.specs.FaultCounts.{HasRisen};
ghost use Rattle.line_program.specs.Outcome.{Outcome};
ghost use Rattle.pwcheck_run.specs.Answer.{line_rules};

use crate::checker::Checker;
use crate::form::Form;
use line_io::{Sink, Source};
use line_program::run_lines;
use scrypt_plain::ScryptKept;
use std::alloc::Global;

/// Answers the lines of a source of at most `max` bytes, and gives the status.
pub fn check_lines<S: Source, K: Sink>(
    alloc: Global,
    form: Form,
    source: &mut S,
    sink: &mut K,
    max: u64,
) -> u8
    requires { max ≤ 2 ^ 40 }
    ensures statuses { (result ≤ 6) × (result ≢ 2) }
    ensures read_fault { result ≡ 3 → HasRisen (S.faults source.old) (S.faults source.new) }
    ensures write_fault { result ≡ 4 → HasRisen (K.faults sink.old) (K.faults sink.new) }
    ensures outcome { WhereTold (S.left source.old) (S.left source.new) (K.written sink.old) (K.written sink.new)
        (λ held taken added. Outcome (line_rules form) result max held taken added) }
{
    let mut checker = Checker {
        alloc,
        form,
        kdf: ScryptKept::new(alloc),
    };
    run_lines(&mut checker, source, sink, max)
}
