//! Generators of random bytes that may refuse.

ghost use Rattle.std.specs.Prelude.{◌≤◌, ℕ, List, Option, OnErr, OnOk};
ghost use Rattle.std.specs.Io.KnownBytes.{Consumes};
ghost use Rattle.pieces.specs.FaultCounts.{HasRisen};

/// A generator of random bytes that may refuse.
///
/// It counts its refusals, and may tell the bytes that are still to come. A generator over an operating
/// system tells none, and its bytes then have no promise.
pub trait TryFill {
    /// Why it refused.
    type Error;

    /// The count of refusals.
    ghost refusals: { Self → ℕ };

    /// The bytes that are still to come, where the generator tells them.
    ghost coming: { Self → Option (List ℕ) };

    /// Fills `out` with the next bytes, and takes them. After an `Err` the bytes of `out` are not stated.
    fn try_fill(&mut self, out: &mut [u8]) -> Result<(), Self::Error>
        ensures bytes { OnOk result (Consumes (coming self.old) (coming self.new) out.new) }

        // The count never falls, and a call refuses only where it has risen.
        ensures count { refusals self.old ≤ refusals self.new }
        ensures cause { OnErr result (HasRisen (refusals self.old) (refusals self.new)) };
}
