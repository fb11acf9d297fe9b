//! A dump, byte by byte.

ghost use Rattle.std.specs.Prelude.{◌≡◌, ◌==◌, ◌&&◌, ◌||◌, ◌≤◌, ◌+◌, ◌++◌, ◌∷◌, [], List, ℕ, not, true, drop, false, length, min, take};
ghost use Rattle.ldif_lines.specs.Limits.{rows_most};
ghost use Rattle.ldif_lines.specs.Rests.{fresh, given_lines, grown, held_rows};

use crate::attribute::{LINE_MOST, is_dn};
use crate::entry::{Entry, Ready, Rows};
use crate::room::Room;

/// What was read of a dump, and the lines of its entries that are ready.
#[derive(Drop)]
pub(crate) struct Dump {
    /// A line feed was read last, whose line may go on.
    pub has_feed: bool,
    /// The line so far.
    pub line: Room<LINE_MOST>,
    pub entry: Entry,
    pub rows: Rows,
    pub ready: Ready,
    /// Those of `ready` that were given.
    pub given: usize,
    ghost within: { given ≤ length ready },
}

// One byte more of a line, where it counts.
fn grow(line: &mut Room<LINE_MOST>, b: u8)
    ensures grown { line.new ≡ grown line.old b }
{
    if line.len() < LINE_MOST {
        line.push(b);
    }
}

// Whether a line goes on with a byte after its line feed.
fn goes_on(line: &Room<LINE_MOST>, b: u8) -> bool
    ensures { result ≡ (not (length line.now == 0) && (b == 32)) }
{
    line.len() != 0 && b == b' '
}

// Whether there is a line at the end of a dump.
fn has_line(has_feed: bool, line: &Room<LINE_MOST>) -> bool
    ensures { result ≡ (has_feed || not (length line.now == 0)) }
{
    has_feed || line.len() != 0
}

impl Dump {
    ghost use Rattle.ldif_lines.specs.Steps.{held, shown, waiting};
    ghost use Rattle.ldif_lines.specs.Ldif.{dump_text};

    /// Nothing was read.
    pub fn new() -> Dump
        ensures waiting { waiting result ≡ [] }
        ensures ready { result.ready ≡ [] }
        ensures shown { (text : List ℕ) → shown result text ≡ dump_text text }
    {
        Dump {
            has_feed: false,
            line: Room::new(),
            entry: Entry::new(),
            rows: Room::new(),
            ready: Room::new(),
            given: 0,
        }
    }

    /// The bytes that are ready.
    #[tactic(auto, unfolding(crate::specs::Steps::waiting))]
    pub fn waiting(&self) -> &[u8]
        ensures value { result.now ≡ waiting self.now }
        ensures fits { self.now.given + length result.now ≤ 32768 }
    {
        &self.ready.as_slice()[self.given..]
    }

    /// Whether no byte is ready.
    pub fn is_given(&self) -> bool
        ensures { result ≡ (length (waiting self.now) == 0) }
    {
        self.waiting().is_empty()
    }

    // Puts the lines of the entry.
    fn close(&mut self)
        requires room { length self.old.ready ≤ rows_most }
        ensures waiting { waiting self.new ≡ waiting self.old ++ held_rows (held self.old.entry) }
        ensures entry { self.new.entry ≡ self.old.entry }
        ensures line { self.new.line ≡ self.old.line }
        ensures has_feed { self.new.has_feed ≡ self.old.has_feed }
        ensures size { length self.new.ready ≤ length self.old.ready + rows_most }
    {
        self.entry.put(&mut self.rows, &mut self.ready);
    }

    // The line is whole.
    fn end_line(&mut self)
        requires room { length self.old.ready ≤ rows_most }
        ensures given { (more : List (List ℕ)) → waiting self.new ++ given_lines (held self.new.entry) more
            ≡ waiting self.old ++ given_lines (held self.old.entry) (self.old.line ∷ more) }
        ensures line { self.new.line ≡ [] }
        ensures has_feed { self.new.has_feed ≡ self.old.has_feed }
        ensures size { length self.new.ready ≤ length self.old.ready + rows_most }
    {
        if self.line.len() == 0 {
            self.close();
            self.entry.clear();
            return;
        }
        if is_dn(self.line.as_slice()) {
            self.close();
            self.entry.begin(self.line.as_slice());
            self.line.clear();
            return;
        }
        self.entry.take(self.line.as_slice());
        self.line.clear();
    }

    // The next byte of a line.
    fn take(&mut self, b: u8)
        requires has_feed { self.old.has_feed ≡ false }
        ensures shown { (text : List ℕ) → shown self.new text ≡ shown self.old (b ∷ text) }
    {
        if b == b'\n' {
            self.has_feed = true;
        } else {
            grow(&mut self.line, b);
        }
    }

    // The next byte after a line feed: a space with which the line goes on, or the first of the next line.
    fn take_after(&mut self, b: u8)
        requires none { self.old.ready ≡ [] }
        requires has_feed { self.old.has_feed ≡ true }
        ensures shown { (text : List ℕ) → shown self.new text ≡ shown self.old (b ∷ text) }
    {
        self.has_feed = false;
        if goes_on(&self.line, b) {
            return;
        }
        self.end_line();
        self.take(b);
    }

    /// The next byte.
    pub fn step(&mut self, b: u8)
        requires none { self.old.ready ≡ [] }
        ensures shown { (text : List ℕ) → shown self.new text ≡ shown self.old (b ∷ text) }
    {
        if self.has_feed {
            self.take_after(b);
        } else {
            self.take(b);
        }
    }

    // No byte follows the line.
    fn end_last(&mut self)
        requires room { length self.old.ready ≤ rows_most }
        ensures given { waiting self.new ++ held_rows (held self.new.entry) ≡ shown self.old [] }
        ensures line { self.new.line ≡ [] }
        ensures has_feed { self.new.has_feed ≡ false }
        ensures size { length self.new.ready ≤ length self.old.ready + rows_most }
    {
        if has_line(self.has_feed, &self.line) {
            self.has_feed = false;
            self.end_line();
        }
    }

    /// The dump has ended: all that is left of it is ready.
    pub fn end(&mut self)
        requires none { self.old.ready ≡ [] }
        ensures shown { shown self.new [] ≡ shown self.old [] }
        ensures waiting { waiting self.new ≡ shown self.old [] }
    {
        self.end_last();
        self.close();
        self.entry.clear();
    }

    /// Forgets the bytes that were given, where all were.
    pub fn clear(&mut self)
        requires given { waiting self.old ≡ [] }
        ensures shown { (text : List ℕ) → shown self.new text ≡ shown self.old text }
        ensures ready { self.new.ready ≡ [] }
        ensures waiting { waiting self.new ≡ [] }
    {
        self.ready.clear();
        self.given = 0;
    }

    /// Gives the first of the bytes that are ready into the beginning of `buf`, as many as it has room for.
    pub fn give_into(&mut self, buf: &mut [u8]) -> usize
        ensures bound { result ≤ length buf.new }
        ensures amount { result ≡ min (length buf.old) (length (waiting self.old)) }
        ensures shown { (text : List ℕ) → take result buf.new ++ shown self.new text ≡ shown self.old text }
        ensures waiting { take result buf.new ++ waiting self.new ≡ waiting self.old }
    {
        let given = self.given;
        let count = buf.len().min(self.waiting().len());
        buf[..count].copy_from_slice(&self.waiting()[..count]);
        self.given = given + count;
        count
    }
}
