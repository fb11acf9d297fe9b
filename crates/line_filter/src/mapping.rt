//! Lines put in the places of others, as their bytes come.

ghost use Rattle.std.specs.Prelude.{◌≡◌, ◌≢◌, ◌+◌, ◌≤◌, ◌<◌, ◌++◌, ◌∷◌, ◌==◌, [], ℕ, List, drop, length, min, take};
ghost use Rattle.line_io.specs.Limits.{line_max};
ghost use Rattle.line_io.specs.Lines.{NoFeed};
ghost use Rattle.line_filter.specs.Mapped.{mapped_line, mapped_text};

use line_io::LINE_MAX;
use pieces::short_bytes::ShortBytes;

/// The most bytes of one read.
pub(crate) const PIECE: usize = 8_192;

// The bytes of a line that count: with one more than a line may have it is too long.
const LINE_ROOM: usize = 8_193;

// The most bytes that are ready.
const ROOM: usize = 32_768;

// With more bytes that are ready no further line is taken: one adds 8,193 at most.
const FULL: usize = 24_575;

/// What gives a line for each line.
pub trait LineRule {
    /// The line in the place of another.
    ghost rule: { Self → List ℕ → List ℕ };

    /// The line in the place of one of at most 8,192 bytes.
    fn line(&self, line: &[u8]) -> ShortBytes<LINE_MAX>
        requires short { length line.now ≤ line_max }
        ensures line { result ≡ rule self.now line.now };
}

/// The line under way, and the bytes of the lines in the places of those before it that are ready.
#[derive(Drop)]
pub(crate) struct Mapping {
    /// The first bytes of the line under way.
    pub line: ShortBytes<LINE_ROOM>,
    /// What was read last.
    pub piece: ShortBytes<PIECE>,
    /// Those of `piece` that were taken.
    pub at: usize,
    pub ready: ShortBytes<ROOM>,
    /// Those of `ready` that were given.
    pub given: usize,
    ghost free: { NoFeed line },
    ghost taken: { at ≤ length piece },
    ghost within: { given ≤ length ready },
}

// The line in the place of another.
#[tactic(auto, unfolding(crate::specs::Mapped::mapped_line))]
fn mapped_line<R: LineRule>(rule: &R, line: &[u8]) -> ShortBytes<LINE_MAX>
    ensures line { result ≡ mapped_line (R.rule rule.now) line.now }
{
    if line.len() > LINE_MAX {
        return ShortBytes::new();
    }
    rule.line(line)
}

impl Mapping {
    ghost use Rattle.line_filter.specs.MappedSteps.{mapped_after, mapped_shown, pending_of, waiting_of};

    /// Nothing was read.
    pub fn new() -> Mapping
        ensures shown { (rule : List ℕ → List ℕ) (text : List ℕ) → mapped_shown rule result text ≡ mapped_text rule text }
    {
        Mapping {
            line: ShortBytes::new(),
            piece: ShortBytes::new(),
            at: 0,
            ready: ShortBytes::new(),
            given: 0,
        }
    }

    /// The bytes that are ready.
    #[tactic(auto, unfolding(crate::specs::MappedSteps::waiting_of))]
    pub fn waiting(&self) -> &[u8]
        ensures value { result.now ≡ waiting_of self.now }
        ensures fits { self.now.given + length result.now ≤ ROOM }
    {
        &self.ready.as_slice()[self.given..]
    }

    /// Whether no byte is ready.
    pub fn is_given(&self) -> bool
        ensures { result ≡ (length (waiting_of self.now) == 0) }
    {
        self.waiting().is_empty()
    }

    // A line and its line feed are ready.
    fn give(&mut self, line: &[u8])
        requires room { length self.old.ready + length line.now < ROOM }
        ensures waiting { waiting_of self.new ≡ waiting_of self.old ++ (line.now ++ 10 ∷ []) }
        ensures same { (self.new.line ≡ self.old.line) × (self.new.given ≡ self.old.given) }
        ensures piece { (self.new.piece ≡ self.old.piece) × (self.new.at ≡ self.old.at) }
        ensures size { length self.new.ready ≡ length self.old.ready + length line.now + 1 }
    {
        self.ready.push_all(line);
        self.ready.push_all(b"\n");
    }

    // The line under way is whole.
    fn end_line<R: LineRule>(&mut self, rule: &R)
        requires room { length self.old.ready + 8193 ≤ ROOM }
        ensures waiting { waiting_of self.new ≡ waiting_of self.old ++ (mapped_line (R.rule rule.now) self.old.line ++ 10 ∷ []) }
        ensures line { self.new.line ≡ [] }
        ensures given { self.new.given ≡ self.old.given }
        ensures piece { (self.new.piece ≡ self.old.piece) × (self.new.at ≡ self.old.at) }
    {
        let line = mapped_line(rule, self.line.as_slice());
        self.give(line.as_slice());
        self.line = ShortBytes::new();
    }

    // One byte more of the line under way, where it counts.
    fn hold(&mut self, b: u8)
        requires other { b ≢ 10 }
        ensures shown { (rule : List ℕ → List ℕ) (text : List ℕ) → mapped_after rule self.new text ≡ mapped_after rule self.old (b ∷ text) }
        ensures given { self.new.given ≡ self.old.given }
        ensures piece { (self.new.piece ≡ self.old.piece) × (self.new.at ≡ self.old.at) }
    {
        if self.line.len() < LINE_ROOM {
            self.line.push_all(&[b]);
        }
    }

    // The next byte.
    fn step<R: LineRule>(&mut self, rule: &R, b: u8)
        requires room { length self.old.ready + 8193 ≤ ROOM }
        ensures shown { (text : List ℕ) → mapped_after (R.rule rule.now) self.new text ≡ mapped_after (R.rule rule.now) self.old (b ∷ text) }
        ensures given { self.new.given ≡ self.old.given }
        ensures piece { (self.new.piece ≡ self.old.piece) × (self.new.at ≡ self.old.at) }
    {
        if b == b'\n' {
            self.end_line(rule);
        } else {
            self.hold(b);
        }
    }

    // Takes bytes until no further line has room; how many were taken.
    fn pour<R: LineRule>(&mut self, rule: &R, bytes: &[u8]) -> usize
        requires none { self.old.given ≡ 0 }
        ensures shown { (text : List ℕ) → mapped_after (R.rule rule.now) self.new (drop result bytes.now ++ text)
            ≡ mapped_after (R.rule rule.now) self.old (bytes.now ++ text) }
        ensures most { result ≤ length bytes.now }
        ensures all { waiting_of self.new ≡ [] → result ≡ length bytes.now }
        ensures piece { (self.new.piece ≡ self.old.piece) × (self.new.at ≡ self.old.at) }
    {
        for i in 0..bytes.len() {
            if self.ready.len() > FULL {
                return i;
            }
            self.step(rule, bytes[i]);
        }
        bytes.len()
    }

    // Forgets the bytes that were given, where all were.
    fn clear(&mut self)
        requires given { waiting_of self.old ≡ [] }
        ensures shown { (rule : List ℕ → List ℕ) (text : List ℕ) → mapped_after rule self.new text ≡ mapped_after rule self.old text }
        ensures waiting { waiting_of self.new ≡ [] }
        ensures ready { (self.new.ready ≡ []) × (self.new.given ≡ 0) }
        ensures piece { (self.new.piece ≡ self.old.piece) × (self.new.at ≡ self.old.at) }
    {
        self.ready = ShortBytes::new();
        self.given = 0;
    }

    /// Takes of the bytes that were read, where all that was ready was given.
    pub fn refill<R: LineRule>(&mut self, rule: &R)
        requires given { waiting_of self.old ≡ [] }
        ensures shown { (text : List ℕ) → mapped_shown (R.rule rule.now) self.new text ≡ mapped_shown (R.rule rule.now) self.old text }
        ensures all { waiting_of self.new ≡ [] → pending_of self.new ≡ [] }
    {
        self.clear();
        let piece = self.piece;
        let count = self.pour(rule, &piece.as_slice()[self.at..]);
        self.at += count;
    }

    /// Takes of a piece that was read.
    pub fn take<R: LineRule>(&mut self, rule: &R, piece: &[u8])
        requires given { waiting_of self.old ≡ [] }
        requires none { pending_of self.old ≡ [] }
        requires fits { length piece.now ≤ PIECE }
        ensures shown { (text : List ℕ) → mapped_shown (R.rule rule.now) self.new text
            ≡ mapped_shown (R.rule rule.now) self.old (piece.now ++ text) }
        ensures all { waiting_of self.new ≡ [] → pending_of self.new ≡ [] }
    {
        self.piece = ShortBytes::from_slice(piece);
        self.at = 0;
        self.refill(rule);
    }

    /// The text has ended: all that is left of it is ready.
    pub fn end<R: LineRule>(&mut self, rule: &R)
        requires given { waiting_of self.old ≡ [] }
        requires none { pending_of self.old ≡ [] }
        ensures shown { mapped_shown (R.rule rule.now) self.new [] ≡ mapped_shown (R.rule rule.now) self.old [] }
        ensures waiting { waiting_of self.new ≡ mapped_shown (R.rule rule.now) self.old [] }
        ensures none { pending_of self.new ≡ [] }
    {
        self.clear();
        if self.line.len() != 0 {
            self.end_line(rule);
        }
    }

    /// Gives the first of the bytes that are ready into the beginning of `buf`, as many as it has room for.
    pub fn give_into(&mut self, buf: &mut [u8]) -> usize
        ensures bound { result ≤ length buf.new }
        ensures amount { result ≡ min (length buf.old) (length (waiting_of self.old)) }
        ensures shown { (rule : List ℕ → List ℕ) (text : List ℕ) → take result buf.new ++ mapped_shown rule self.new text
            ≡ mapped_shown rule self.old text }
    {
        let given = self.given;
        let count = buf.len().min(self.waiting().len());
        buf[..count].copy_from_slice(&self.waiting()[..count]);
        self.given = given + count;
        count
    }
}
