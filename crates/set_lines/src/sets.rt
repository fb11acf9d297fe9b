//! The commands of lines, byte by byte.

ghost use Rattle.std.specs.Prelude.{◌≡◌, ◌+◌, ◌*◌, ◌≤◌, ◌<◌, ◌++◌, ◌∷◌, [], None, Some, ℕ, List, length, min, take};
ghost use Rattle.set_lines.specs.Rests.{given_first, rest};
ghost use Rattle.set_lines.specs.Sets.{set_text};
ghost use Rattle.set_lines.specs.declared.sets.TheConstants.{ROOM};

use pieces::short_bytes::ShortBytes;

/// The most bytes that are ready: five for each byte of a piece, and the last line feed.
pub(crate) const ROOM: usize = 71_681;

/// The part of a line that is under way.
#[derive(Clone, Copy, Debug, PartialEq, Eq)]
pub(crate) enum Part {
    /// The user.
    User,
    /// The text, after the first colon.
    Text,
    /// What comes after the second colon.
    More,
}

// Where the next byte leads, and the byte that it gives.
fn step(part: Part, b: u8) -> (Option<Part>, Option<u8>)
    ensures { (text : List ℕ) → rest (Some part) (b ∷ text) ≡ given_first result.1 (rest result.0 text) }
{
    if b == b'\n' {
        return (None, Some(b'\n'));
    }
    match part {
        Part::User => {
            if b == b':' {
                (Some(Part::Text), Some(b'\t'))
            } else if b == b'\t' {
                (Some(Part::User), Some(b':'))
            } else {
                (Some(Part::User), Some(b))
            }
        }
        Part::Text => {
            if b == b':' {
                (Some(Part::More), None)
            } else {
                (Some(Part::Text), Some(b))
            }
        }
        Part::More => (Some(Part::More), None),
    }
}

/// What was read of lines, and the bytes of their commands that are ready.
#[derive(Drop)]
pub(crate) struct Sets {
    /// The part of a line that is under way; none before the first byte of a line.
    pub part: Option<Part>,
    pub ready: ShortBytes<ROOM>,
    /// Those of `ready` that were given.
    pub given: usize,
    ghost within: { given ≤ length ready },
}

impl Sets {
    ghost use Rattle.set_lines.specs.Steps.{shown, waiting};

    /// Nothing was read.
    #[tactic(auto, unfolding(crate::specs::Steps::waiting, crate::specs::Steps::shown))]
    pub fn new() -> Sets
        ensures waiting { waiting result ≡ [] }
        ensures shown { (text : List ℕ) → shown result text ≡ set_text text }
    {
        Sets {
            part: None,
            ready: ShortBytes::new(),
            given: 0,
        }
    }

    /// The bytes that are ready.
    #[tactic(auto, unfolding(crate::specs::Steps::waiting))]
    pub fn waiting(&self) -> &[u8]
        ensures value { result.now ≡ waiting self.now }
        ensures fits { self.now.given + length result.now ≤ ROOM }
    {
        &self.ready.as_slice()[self.given..]
    }

    // Bytes that are given.
    #[tactic(auto, unfolding(crate::specs::Steps::waiting))]
    fn give(&mut self, bytes: &[u8])
        requires room { length self.old.ready + length bytes.now ≤ ROOM }
        ensures given { waiting self.new ≡ waiting self.old ++ bytes.now }
        ensures size { length self.new.ready ≡ length self.old.ready + length bytes.now }
        ensures part { self.new.part ≡ self.old.part }
    {
        self.ready.push_all(bytes);
    }

    // The part of the line under way; where none is, a command begins.
    fn begin(&mut self) -> Part
        requires room { length self.old.ready + 4 ≤ ROOM }
        ensures shown { (b : ℕ) (text : List ℕ) → waiting self.new ++ rest (Some result) (b ∷ text) ≡ shown self.old (b ∷ text) }
        ensures size { length self.new.ready ≤ length self.old.ready + 4 }
    {
        match self.part {
            Some(part) => part,
            None => {
                self.give(b"set\t");
                Part::User
            }
        }
    }

    // The next byte.
    fn push(&mut self, b: u8)
        requires room { length self.old.ready + 5 ≤ ROOM }
        ensures shown { (text : List ℕ) → shown self.new text ≡ shown self.old (b ∷ text) }
        ensures size { length self.new.ready ≤ length self.old.ready + 5 }
    {
        let part = self.begin();
        let (next, given) = step(part, b);
        self.part = next;
        match given {
            Some(c) => self.give(&[c]),
            None => {}
        }
    }

    /// The next bytes.
    pub fn pour(&mut self, bytes: &[u8])
        requires room { length self.old.ready + 5 * length bytes.now ≤ ROOM }
        ensures shown { (text : List ℕ) → shown self.new text ≡ shown self.old (bytes.now ++ text) }
    {
        for b in bytes {
            self.push(*b);
        }
    }

    /// The text has ended: all that is left of it is ready.
    pub fn end(&mut self)
        requires room { length self.old.ready < ROOM }
        ensures shown { shown self.new [] ≡ shown self.old [] }
        ensures waiting { waiting self.new ≡ shown self.old [] }
    {
        if self.part.is_some() {
            self.part = None;
            self.give(b"\n");
        }
    }

    /// Forgets the bytes that were given, where all were.
    pub fn clear(&mut self)
        requires given { waiting self.old ≡ [] }
        ensures shown { (text : List ℕ) → shown self.new text ≡ shown self.old text }
        ensures waiting { waiting self.new ≡ [] }
        ensures ready { self.new.ready ≡ [] }
    {
        self.ready = ShortBytes::new();
        self.given = 0;
    }

    /// Gives the first of the bytes that are ready into the beginning of `buf`, as many as it has room for.
    pub fn give_into(&mut self, buf: &mut [u8]) -> usize
        ensures bound { result ≤ length buf.new }
        ensures amount { result ≡ min (length buf.old) (length (waiting self.old)) }
        ensures shown { (text : List ℕ) → take result buf.new ++ shown self.new text ≡ shown self.old text }
        ensures waiting { take result buf.new ++ waiting self.new ≡ waiting self.old }
    {
        let given = self.given;
        let count = buf.len().min(self.waiting().len());
        buf[..count].copy_from_slice(&self.waiting()[..count]);
        self.given = given + count;
        count
    }
}
