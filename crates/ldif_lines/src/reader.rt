//! A dump, in pieces.

ghost use Rattle.std.specs.Prelude.{◌≡◌, ◌==◌, ◌≤◌, ◌++◌, [], List, ℕ, length, min, take};
ghost use Rattle.ldif_lines.specs.Ldif.{dump_text};

use crate::dump::Dump;
use crate::pour::pour;
use crate::room::Room;

/// The bytes of one read.
pub(crate) const PIECE: usize = 8_192;

/// A dump, and what was read of it and not yet taken.
#[derive(Drop)]
pub(crate) struct Reader {
    pub dump: Dump,
    pub piece: Room<PIECE>,
    /// Those of `piece` that were taken.
    pub at: usize,
    ghost within: { at ≤ length piece },
}

impl Reader {
    ghost use Rattle.ldif_lines.specs.Steps.{pending, shown_by, waiting};

    /// Nothing was read.
    pub fn new() -> Reader
        ensures shown { (text : List ℕ) → shown_by result text ≡ dump_text text }
    {
        Reader {
            dump: Dump::new(),
            piece: Room::new(),
            at: 0,
        }
    }

    /// Whether no byte is ready.
    pub fn is_given(&self) -> bool
        ensures { result ≡ (length (waiting self.now.dump) == 0) }
    {
        self.dump.is_given()
    }

    /// Takes of the bytes that were read until some are ready.
    pub fn refill(&mut self)
        requires given { waiting self.old.dump ≡ [] }
        ensures shown { (text : List ℕ) → shown_by self.new text ≡ shown_by self.old text }
        ensures all { waiting self.new.dump ≡ [] → pending self.new ≡ [] }
    {
        let count = pour(&mut self.dump, &self.piece.as_slice()[self.at..]);
        self.at += count;
    }

    /// Takes of a piece until some bytes are ready.
    pub fn take(&mut self, piece: &[u8])
        requires given { waiting self.old.dump ≡ [] }
        requires none { pending self.old ≡ [] }
        requires fits { length piece.now ≤ 8192 }
        ensures shown { (text : List ℕ) → shown_by self.new text ≡ shown_by self.old (piece.now ++ text) }
        ensures all { waiting self.new.dump ≡ [] → pending self.new ≡ [] }
    {
        self.piece.clear();
        self.piece.push_all(piece);
        self.at = 0;
        self.refill();
    }

    /// The dump has ended: all that is left of it is ready.
    pub fn end(&mut self)
        requires given { waiting self.old.dump ≡ [] }
        requires none { pending self.old ≡ [] }
        ensures shown { shown_by self.new [] ≡ shown_by self.old [] }
        ensures waiting { waiting self.new.dump ≡ shown_by self.old [] }
        ensures none { pending self.new ≡ [] }
    {
        self.dump.clear();
        self.dump.end();
    }

    /// Gives the first of the bytes that are ready into the beginning of `buf`, as many as it has room for.
    pub fn give_into(&mut self, buf: &mut [u8]) -> usize
        ensures bound { result ≤ length buf.new }
        ensures amount { result ≡ min (length buf.old) (length (waiting self.old.dump)) }
        ensures shown { (text : List ℕ) → take result buf.new ++ shown_by self.new text ≡ shown_by self.old text }
    {
        self.dump.give_into(buf)
    }
}
