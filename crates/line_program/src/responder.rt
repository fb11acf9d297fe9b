//! What answers a line.

ghost use Rattle.std.specs.Prelude.{◌≡◌, ◌≤◌, ◌<◌, ℕ, List, [], length, true, OnErr, OnOk, IfOk};
ghost use Rattle.line_io.specs.Output.{Puts};
ghost use Rattle.line_program.specs.Rules.{StateRules};
ghost use Rattle.line_io.specs.Limits.{line_max};

use line_io::{OutputBuffer, Sink};
use std::alloc::AllocError;

/// What answers lines one after the other.
pub trait Responder {
    /// For the state in which this is and a line: the reply, the state after it, whether the reply is good, and
    /// whether memory may be wanting.
    ghost rules: { StateRules Self };

    /// Puts the reply to a line of at most 8,192 bytes, and tells whether it is good; or memory is wanting, and
    /// nothing is put. A reply that took long may be flushed.
    fn answer<K: Sink>(
        &mut self,
        line: &[u8],
        out: &mut OutputBuffer,
        sink: &mut K,
    ) -> Result<bool, AllocError>
        requires short { length line.now ≤ line_max }
        ensures good { IfOk result (λ good. good ≡ rules.is_good self.old line.now) }
        ensures reply { OnOk result (Puts (K.written sink.old) (K.written sink.new) (K.faults sink.old) (K.faults sink.new) out.old out.new
            (rules.reply self.old line.now)) }
        ensures after { OnOk result (self.new ≡ rules.after self.old line.now) }
        ensures wants { OnErr result (rules.may_lack_memory self.old line.now ≡ true) }
        ensures nothing { OnErr result (Puts (K.written sink.old) (K.written sink.new) (K.faults sink.old) (K.faults sink.new) out.old out.new []) }
        ensures unchanged { OnErr result (self.new ≡ self.old) };

    /// Puts the reply to a line of more than 8,192 bytes, whichever it was, and tells whether it is good.
    fn answer_long<K: Sink>(&mut self, out: &mut OutputBuffer, sink: &mut K) -> bool
        ensures good { (line : List ℕ) → line_max < length line → result ≡ rules.is_good self.old line }
        ensures reply { (line : List ℕ) → line_max < length line →
            Puts (K.written sink.old) (K.written sink.new) (K.faults sink.old) (K.faults sink.new) out.old out.new (rules.reply self.old line) }
        ensures after { (line : List ℕ) → line_max < length line → self.new ≡ rules.after self.old line };
}
