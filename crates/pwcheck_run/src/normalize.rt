//! Stored texts brought to their normal form, one line at a time in fixed memory.

ghost use Rattle.std.specs.Prelude.{◌≡◌, ◌≢◌, ◌≤◌, ◌^◌};
ghost use Rattle.line_io.specs.Devices.{WhereTold};
ghost use Rattle.pieces.specs.FaultCounts.{HasRisen};
ghost use Rattle.line_program.specs.Outcome.{Outcome};
ghost use Rattle.pwcheck_run.specs.Normalize.{normal_rules};

use crate::normalizer::Normalizer;
use line_io::{Sink, Source};
use line_program::run_lines;

/// Writes the normal text of each line of a source of at most `max` bytes, and gives the status. Memory is never
/// wanting.
pub fn normalize_lines<S: Source, K: Sink>(source: &mut S, sink: &mut K, max: u64) -> u8
    requires { max ≤ 2 ^ 40 }
    ensures statuses { (result ≤ 6) × (result ≢ 2) × (result ≢ 5) }
    ensures read_fault { result ≡ 3 → HasRisen (S.faults source.old) (S.faults source.new) }
    ensures write_fault { result ≡ 4 → HasRisen (K.faults sink.old) (K.faults sink.new) }
    ensures outcome { WhereTold (S.left source.old) (S.left source.new) (K.written sink.old) (K.written sink.new)
        (λ held taken added. Outcome normal_rules result max held taken added) }
{
    run_lines(&mut Normalizer, source, sink, max)
}
