//! Laws of the definitions and of whole runs, each the contract of a function that does nothing.
ghost use Rattle.std.specs.Prelude.{◌≡◌, ℕ, ◌<◌, ◌-◌, ◌^◌, ◌⊎◌, ◌↔◌};
ghost use Rattle.pieces.specs.FaultCounts.{HasRisen};
ghost use Rattle.line_io.specs.Runs.{LinesOfBytes};

/// For a source that tells its bytes, the lines that `next_line` gives on a new buffer before `End`
/// are the lines of these bytes, in order, a long one as `TooLong`. Before `Failed` they are the whole
/// lines of the bytes that were taken, and before `Budget` those that end among the first `max` bytes.
pub fn lines_of_bytes()
    ensures { LinesOfBytes }
{}

/// A count of faults has risen exactly where it is greater than before or stands at its greatest number.
pub fn count_has_risen()
    ensures { (before now : ℕ) → HasRisen before now ↔ ((before < now) ⊎ (now ≡ 2 ^ 64 - 1)) }
{}
