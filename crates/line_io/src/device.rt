// What a source and a sink are.
ghost use Rattle.std.specs.Prelude.{◌≤◌, ◌<◌, ℕ, List, Option, OnErr};
ghost use Rattle.std.specs.Io.{ReadsAtMost, WritesAtMost};
ghost use Rattle.std.specs.Io.KnownBytes.{ReadConsumes, WriteAppends};
ghost use Rattle.line_io.specs.Devices.{WritesSome};
ghost use Rattle.pieces.specs.FaultCounts.{HasRisen};

/// A read or a write failed. The device has counted it.
#[derive(Clone, Copy, Debug, PartialEq, Eq)]
pub struct Failed;

/// Where bytes come from.
///
/// A source may tell the bytes that are left, and counts its faults. A source over a file or a
/// terminal tells none, and its reads then have no promise on bytes.
pub trait Source {
    /// The bytes that are left, where the source tells them.
    ghost left: { Self → Option (List ℕ) };

    /// The count of faults.
    ghost faults: { Self → ℕ };

    /// Takes the first of the bytes that are left into the beginning of `buf`, and answers how many.
    /// `Ok(0)` for a nonempty `buf` is the end. After `Failed` nothing was taken.
    fn read(&mut self, buf: &mut [u8]) -> Result<usize, Failed>
        ensures bound { ReadsAtMost result buf.new }
        ensures bytes { ReadConsumes (left self.old) (left self.new) result buf.new }

        // The count never falls, and a read fails only where it has risen.
        ensures count { faults self.old ≤ faults self.new }
        ensures cause { OnErr result (HasRisen (faults self.old) (faults self.new)) };
}

/// Where bytes go.
///
/// A sink may tell the bytes that were written, and counts its faults.
pub trait Sink {
    /// The bytes that were written, where the sink tells them.
    ghost written: { Self → Option (List ℕ) };

    /// The count of faults.
    ghost faults: { Self → ℕ };

    /// Writes the first bytes of `piece`, and answers how many: one or more of a nonempty piece.
    /// After `Failed` nothing was written.
    fn write(&mut self, piece: &[u8]) -> Result<usize, Failed>
        ensures bound { WritesAtMost result piece.now }
        ensures some { WritesSome result piece.now }
        ensures bytes { WriteAppends (written self.old) (written self.new) result piece.now }

        // The count never falls, and a write fails only where it has risen.
        ensures count { faults self.old ≤ faults self.new }
        ensures cause { OnErr result (HasRisen (faults self.old) (faults self.new)) };
}
