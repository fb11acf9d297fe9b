//! Writing of whole pieces.

ghost use Rattle.std.specs.Prelude.{◌≤◌, OnErr, OnOk};
ghost use Rattle.std.specs.Io.KnownBytes.{Appends};
ghost use Rattle.line_io.specs.Devices.{AppendsPrefix};
ghost use Rattle.pieces.specs.FaultCounts.{HasRisen};

use crate::{Failed, Sink};

/// Writes all of a piece, with one write where the sink takes it whole.
///
/// After `Failed` the sink has got bytes from the piece's beginning, perhaps none.
pub fn write_all<K: Sink>(sink: &mut K, piece: &[u8]) -> Result<(), Failed>
    ensures all { OnOk result (Appends (K.written sink.old) (K.written sink.new) piece.now) }
    ensures part { OnErr result (AppendsPrefix (K.written sink.old) (K.written sink.new) piece.now) }
    ensures count { K.faults sink.old ≤ K.faults sink.new }
    ensures cause { OnErr result (HasRisen (K.faults sink.old) (K.faults sink.new)) }
{
    let mut rest = piece;
    'rest: while !rest.is_empty() {
        let count = sink.write(rest)?;
        rest = &rest[count..];
    }
    Ok(())
}
