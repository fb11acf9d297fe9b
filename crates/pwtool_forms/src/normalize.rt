//! Stored texts brought to their normal form, line by line.

ghost use Rattle.std.specs.Prelude.{◌≡◌, ◌≢◌, ◌≤◌, ◌^◌};
ghost use Rattle.line_io.specs.Devices.{WhereTold};
ghost use Rattle.line_program.specs.Outcome.{Outcome};
ghost use Rattle.pieces.specs.FaultCounts.{HasRisen};
ghost use Rattle.pwcheck_run.specs.Normalize.{normal_rules};

use line_io::{INPUT_MAX, Sink, Source};

/// Writes the normal text of each line of a source of at most 2^40 bytes, and gives the status. No memory is taken.
pub fn normalize_lines<S: Source, K: Sink>(source: &mut S, sink: &mut K) -> u8
    ensures statuses { (result ≤ 6) × (result ≢ 2) × (result ≢ 5) }
    ensures read_fault { result ≡ 3 → HasRisen (S.faults source.old) (S.faults source.new) }
    ensures write_fault { result ≡ 4 → HasRisen (K.faults sink.old) (K.faults sink.new) }
    ensures outcome { WhereTold (S.left source.old) (S.left source.new) (K.written sink.old) (K.written sink.new)
        (λ held taken added. Outcome normal_rules result (2 ^ 40) held taken added) }
{
    pwcheck_run::normalize_lines(source, sink, INPUT_MAX)
}
