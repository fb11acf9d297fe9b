//! What leaves bytes out, one after the other.

ghost use Rattle.std.specs.Prelude.{◌≡◌, ◌+◌, ◌≤◌, ◌<◌, ◌++◌, ◌∷◌, [], ℕ, List, drop, false, length, take, true, min};
ghost use Rattle.line_filter.specs.Rests.{given_first, kept_rest, return_size};
ghost use Rattle.line_filter.specs.declared.sieve.TheConstants.{ROOM};

use crate::forms::LineForms;
use pieces::short_bytes::ShortBytes;

/// The bytes that a sieve has room for.
pub(crate) const ROOM: usize = 8_195;

/// How much of a byte order mark was read.
#[derive(Clone, Copy, Debug, PartialEq, Eq)]
pub(crate) enum Mark {
    /// Nothing of the text was read.
    Due,
    /// Its first byte alone.
    First,
    /// Its first two bytes alone.
    Second,
    /// All of it, or what is no mark.
    Past,
}

/// Where in a line the bytes that were read end.
#[derive(Clone, Copy, Debug, PartialEq, Eq)]
pub(crate) enum Place {
    /// Before its first byte.
    Start,
    /// In a line that is kept.
    Inside,
    /// In a line that is passed over.
    Passed,
}

// Where the next byte of a text without carriage returns leads, and whether it is given.
fn step(htpasswd: bool, place: Place, b: u8) -> (Place, bool)
    ensures { (text : List ℕ) → kept_rest htpasswd place (b ∷ text) ≡ given_first result.1 b (kept_rest htpasswd result.0 text) }
{
    if !htpasswd {
        return (place, true);
    }
    match place {
        Place::Start => {
            if b == b'#' {
                (Place::Passed, false)
            } else if b == b'\n' {
                (Place::Start, false)
            } else {
                (Place::Inside, true)
            }
        }
        Place::Inside => {
            if b == b'\n' {
                (Place::Start, true)
            } else {
                (Place::Inside, true)
            }
        }
        Place::Passed => {
            if b == b'\n' {
                (Place::Start, false)
            } else {
                (Place::Passed, false)
            }
        }
    }
}

/// What leaves bytes out of a text, and keeps those that are ready to be given.
#[derive(Drop)]
pub(crate) struct Sieve {
    pub forms: LineForms,
    pub mark: Mark,
    /// A carriage return was read last.
    pub has_return: bool,
    pub place: Place,
    pub ready: ShortBytes<ROOM>,
    /// Those of `ready` that were given.
    pub given: usize,
    ghost within: { given ≤ length ready },
}

impl Sieve {
    ghost use Rattle.line_filter.specs.Steps.{shown, shown_after, shown_kept, size, waiting};
    ghost use Rattle.line_filter.specs.Forms.{meant};

    /// Nothing was read.
    #[tactic(auto, unfolding(crate::specs::Steps::waiting, crate::specs::Steps::shown, crate::specs::Steps::shown_after, crate::specs::Steps::shown_kept))]
    pub fn new(forms: LineForms) -> Sieve
        ensures forms { result.forms ≡ forms }
        ensures waiting { waiting result ≡ [] }
        ensures size { size result ≤ 3 }
        ensures shown { (text : List ℕ) → shown result text ≡ meant forms text }
    {
        Sieve {
            forms,
            mark: if forms.crlf { Mark::Due } else { Mark::Past },
            has_return: false,
            place: Place::Start,
            ready: ShortBytes::new(),
            given: 0,
        }
    }

    /// The bytes that are ready.
    #[tactic(auto, unfolding(crate::specs::Steps::waiting))]
    pub fn waiting(&self) -> &[u8]
        ensures value { result.now ≡ waiting self.now }
        ensures fits { self.now.given + length result.now ≤ ROOM }
    {
        &self.ready.as_slice()[self.given..]
    }

    // A byte that is given.
    #[tactic(auto, unfolding(crate::specs::Steps::waiting))]
    fn give(&mut self, b: u8)
        requires room { length self.old.ready < ROOM }
        ensures given { waiting self.new ≡ waiting self.old ++ b ∷ [] }
        ensures size { length self.new.ready ≡ length self.old.ready + 1 }
        ensures forms { self.new.forms ≡ self.old.forms }
        ensures mark { self.new.mark ≡ self.old.mark }
        ensures has_return { self.new.has_return ≡ self.old.has_return }
        ensures place { self.new.place ≡ self.old.place }
    {
        self.ready.push_all(&[b]);
    }

    // The next byte after the carriage returns are left out.
    fn keep(&mut self, b: u8)
        requires room { length self.old.ready < ROOM }
        ensures shown { (text : List ℕ) → shown_kept self.new text ≡ shown_kept self.old (b ∷ text) }
        ensures size { length self.new.ready ≤ length self.old.ready + 1 }
        ensures forms { self.new.forms ≡ self.old.forms }
        ensures mark { self.new.mark ≡ self.old.mark }
        ensures has_return { self.new.has_return ≡ self.old.has_return }
    {
        let (place, is_given) = step(self.forms.htpasswd, self.place, b);
        self.place = place;
        if is_given {
            self.give(b);
        }
    }

    // Gives a carriage return that was read last, unless it stands before a line feed.
    fn release(&mut self, next: u8)
        requires room { length self.old.ready + return_size self.old.has_return ≤ ROOM }
        requires crlf { self.old.forms.crlf ≡ true }
        ensures shown { (text : List ℕ) → shown_after self.new (next ∷ text) ≡ shown_after self.old (next ∷ text) }
        ensures size { length self.new.ready ≤ length self.old.ready + return_size self.old.has_return }
        ensures has_return { self.new.has_return ≡ false }
        ensures forms { self.new.forms ≡ self.old.forms }
        ensures mark { self.new.mark ≡ self.old.mark }
    {
        if self.has_return {
            self.has_return = false;
            if next != b'\n' {
                self.keep(b'\r');
            }
        }
    }

    // Keeps a byte with no carriage return before it, or waits for what follows it.
    fn hold(&mut self, b: u8)
        requires room { length self.old.ready < ROOM }
        requires crlf { self.old.forms.crlf ≡ true }
        requires has_return { self.old.has_return ≡ false }
        ensures shown { (text : List ℕ) → shown_after self.new text ≡ shown_after self.old (b ∷ text) }
        ensures size { length self.new.ready + return_size self.new.has_return ≤ length self.old.ready + 1 }
        ensures forms { self.new.forms ≡ self.old.forms }
        ensures mark { self.new.mark ≡ self.old.mark }
    {
        if b == b'\r' {
            self.has_return = true;
        } else {
            self.keep(b);
        }
    }

    // The next byte after a byte order mark.
    fn take(&mut self, b: u8)
        requires room { length self.old.ready + return_size self.old.has_return < ROOM }
        ensures shown { (text : List ℕ) → shown_after self.new text ≡ shown_after self.old (b ∷ text) }
        ensures size { length self.new.ready + return_size self.new.has_return
            ≤ length self.old.ready + return_size self.old.has_return + 1 }
        ensures forms { self.new.forms ≡ self.old.forms }
        ensures mark { self.new.mark ≡ self.old.mark }
    {
        if self.forms.crlf {
            self.release(b);
            self.hold(b);
        } else {
            self.keep(b);
        }
    }

    // The next byte where the first of a mark was read.
    fn take_second(&mut self, b: u8)
        requires first { self.old.mark ≡ Mark.First }
        requires room { size self.old < ROOM }
        ensures shown { (text : List ℕ) → shown self.new text ≡ shown self.old (b ∷ text) }
        ensures size { size self.new ≤ size self.old + 1 }
        ensures forms { self.new.forms ≡ self.old.forms }
    {
        if b == 0xBB {
            self.mark = Mark::Second;
        } else {
            self.mark = Mark::Past;
            self.take(0xEF);
            self.take(b);
        }
    }

    // The next byte where the first two of a mark were read.
    fn take_third(&mut self, b: u8)
        requires second { self.old.mark ≡ Mark.Second }
        requires room { size self.old < ROOM }
        ensures shown { (text : List ℕ) → shown self.new text ≡ shown self.old (b ∷ text) }
        ensures size { size self.new ≤ size self.old + 1 }
        ensures forms { self.new.forms ≡ self.old.forms }
    {
        self.mark = Mark::Past;
        if b != 0xBF {
            self.take(0xEF);
            self.take(0xBB);
            self.take(b);
        }
    }

    // The first byte of the text.
    fn take_first(&mut self, b: u8)
        requires due { self.old.mark ≡ Mark.Due }
        requires room { size self.old < ROOM }
        ensures shown { (text : List ℕ) → shown self.new text ≡ shown self.old (b ∷ text) }
        ensures size { size self.new ≤ size self.old + 1 }
        ensures forms { self.new.forms ≡ self.old.forms }
    {
        if b == 0xEF {
            self.mark = Mark::First;
        } else {
            self.mark = Mark::Past;
            self.take(b);
        }
    }

    // The next byte.
    fn push(&mut self, b: u8)
        requires room { size self.old < ROOM }
        ensures shown { (text : List ℕ) → shown self.new text ≡ shown self.old (b ∷ text) }
        ensures size { size self.new ≤ size self.old + 1 }
        ensures forms { self.new.forms ≡ self.old.forms }
    {
        match self.mark {
            Mark::Due => self.take_first(b),
            Mark::First => self.take_second(b),
            Mark::Second => self.take_third(b),
            Mark::Past => self.take(b),
        }
    }

    /// The next bytes.
    pub fn pour(&mut self, bytes: &[u8])
        requires room { size self.old + length bytes.now ≤ ROOM }
        ensures shown { (text : List ℕ) → shown self.new text ≡ shown self.old (bytes.now ++ text) }
        ensures size { size self.new ≤ size self.old + length bytes.now }
        ensures forms { self.new.forms ≡ self.old.forms }
    {
        for b in bytes {
            self.push(*b);
        }
    }

    // Nothing follows the bytes of a mark that isn't whole.
    fn end_mark(&mut self)
        requires room { size self.old ≤ ROOM }
        ensures shown { shown_after self.new [] ≡ shown self.old [] }
        ensures size { length self.new.ready + return_size self.new.has_return ≤ size self.old }
        ensures forms { self.new.forms ≡ self.old.forms }
        ensures past { self.new.mark ≡ Mark.Past }
    {
        match self.mark {
            Mark::First => {
                self.mark = Mark::Past;
                self.take(0xEF);
            }
            Mark::Second => {
                self.mark = Mark::Past;
                self.take(0xEF);
                self.take(0xBB);
            }
            Mark::Due => self.mark = Mark::Past,
            Mark::Past => {}
        }
    }

    // Nothing follows a carriage return.
    fn end_return(&mut self)
        requires room { length self.old.ready + return_size self.old.has_return ≤ ROOM }
        ensures shown { waiting self.new ≡ shown_after self.old [] }
        ensures has_return { self.new.has_return ≡ false }
        ensures forms { self.new.forms ≡ self.old.forms }
        ensures mark { self.new.mark ≡ self.old.mark }
    {
        if self.has_return {
            self.has_return = false;
            if self.forms.crlf {
                self.keep(b'\r');
            }
        }
    }

    /// The text has ended: all that is left of it is ready.
    pub fn end(&mut self)
        requires room { size self.old ≤ ROOM }
        ensures shown { shown self.new [] ≡ shown self.old [] }
        ensures waiting { waiting self.new ≡ shown self.old [] }
        ensures forms { self.new.forms ≡ self.old.forms }
    {
        self.end_mark();
        self.end_return();
    }

    /// Forgets the bytes that were given, where all were.
    pub fn clear(&mut self)
        requires given { waiting self.old ≡ [] }
        ensures shown { (text : List ℕ) → shown self.new text ≡ shown self.old text }
        ensures waiting { waiting self.new ≡ [] }
        ensures size { size self.new ≤ 3 }
        ensures forms { self.new.forms ≡ self.old.forms }
    {
        self.ready = ShortBytes::new();
        self.given = 0;
    }

    /// Gives the first of the bytes that are ready into the beginning of `buf`, as many as it has room for.
    pub fn give_into(&mut self, buf: &mut [u8]) -> usize
        ensures bound { result ≤ length buf.new }
        ensures amount { result ≡ min (length buf.old) (length (waiting self.old)) }
        ensures shown { (text : List ℕ) → take result buf.new ++ shown self.new text ≡ shown self.old text }
        ensures waiting { take result buf.new ++ waiting self.new ≡ waiting self.old }
        ensures forms { self.new.forms ≡ self.old.forms }
    {
        let given = self.given;
        let count = buf.len().min(self.waiting().len());
        buf[..count].copy_from_slice(&self.waiting()[..count]);
        self.given = given + count;
        count
    }
}
