//! A source whose bytes are looked at.

ghost use Rattle.std.specs.Prelude.{◌≡◌, ◌≤◌, ◌<◌, ◌-◌, ◌^◌, ◌++◌, ◌∷◌, ◌==◌, ◌&&◌, ◌||◌, [], ℕ, List, false, true, IfOk, OnErr, if◌then◌else◌, length, min, slice_index, take};
ghost use Rattle.std.specs.Io.{ReadsAtMost};
ghost use Rattle.std.specs.Io.KnownBytes.{ReadConsumes};
ghost use Rattle.pieces.specs.FaultCounts.{HasRisen, one_more};
ghost use Rattle.pieces.specs.Places.{LacksBelow};
ghost use Rattle.line_filter.specs.Met.{has_mark_after, mark_with, met_in, met_with, returns_with};
ghost use Rattle.line_filter.specs.Passed.{count_passed_over};

use crate::met::Met;
use crate::passing::Passing;
use crate::sieve::Mark;
use line_io::{Failed, Source};
use memchr::memchr;

/// What was met so far.
#[derive(Clone, Copy, Debug)]
pub(crate) struct Noticing {
    pub mark: Mark,
    pub has_mark: bool,
    /// A carriage return was read last.
    pub has_return: bool,
    pub returns: u64,
}

// The count of carriage returns after a byte, where one was read before it or not.
fn one_more_after(returns: u64, has_return: bool, b: u8) -> u64
    ensures count { result ≡ (if has_return && (b == 10) then one_more returns else returns) }
{
    if has_return && b == b'\n' {
        returns.saturating_add(1)
    } else {
        returns
    }
}

// How much of a mark was read after a byte, and whether it is whole.
fn mark_step(mark: Mark, b: u8) -> (Mark, bool)
    ensures mark { (text : List ℕ) → has_mark_after mark (b ∷ text) ≡ (result.1 || has_mark_after result.0 text) }
{
    match mark {
        Mark::Due => {
            if b == 0xEF {
                (Mark::First, false)
            } else {
                (Mark::Past, false)
            }
        }
        Mark::First => {
            if b == 0xBB {
                (Mark::Second, false)
            } else {
                (Mark::Past, false)
            }
        }
        Mark::Second => (Mark::Past, b == 0xBF),
        Mark::Past => (Mark::Past, false),
    }
}

// Whether a carriage return is among these bytes.
fn has_return(bytes: &[u8]) -> bool
    ensures free { result ≡ false → LacksBelow 13 bytes.now (length bytes.now) }
    ensures met { result ≡ true → (place : ℕ) × (place < length bytes.now) × (slice_index bytes.now place ≡ 13) }
{
    memchr(b'\r', bytes).is_some()
}

fn met_of(returns: u64, has_mark: bool) -> Met
    ensures returns { result.returns ≡ returns }
    ensures has_mark { result.has_mark ≡ has_mark }
    ensures small { returns < 2 ^ 64 }
{
    Met { returns, has_mark }
}

impl Noticing {
    /// Nothing was read.
    fn new() -> Noticing
        ensures met { (text : List ℕ) → met_with result text ≡ met_in text }
    {
        Noticing {
            mark: Mark::Due,
            has_mark: false,
            has_return: false,
            returns: 0,
        }
    }

    // The next byte, of which carriage returns are counted.
    fn count(&mut self, b: u8)
        ensures returns { (text : List ℕ) → returns_with self.new text ≡ returns_with self.old (b ∷ text) }
        ensures marks { (text : List ℕ) → mark_with self.new text ≡ mark_with self.old text }
    {
        self.returns = one_more_after(self.returns, self.has_return, b);
        self.has_return = b == b'\r';
    }

    // The next bytes, of which this is the first, and among which is no carriage return.
    fn pass(&mut self, first: u8, bytes: &[u8])
        requires first { slice_index bytes.now 0 ≡ first }
        requires some { 0 < length bytes.now }
        requires free { LacksBelow 13 bytes.now (length bytes.now) }
        ensures returns { (text : List ℕ) → returns_with self.new text ≡ returns_with self.old (bytes.now ++ text) }
        ensures marks { (text : List ℕ) → mark_with self.new text ≡ mark_with self.old text }
    {
        self.returns = one_more_after(self.returns, self.has_return, first);
        self.has_return = false;
    }

    // The next byte, of which a mark is looked for.
    fn look(&mut self, b: u8)
        ensures returns { (text : List ℕ) → returns_with self.new text ≡ returns_with self.old text }
        ensures marks { (text : List ℕ) → mark_with self.new text ≡ mark_with self.old (b ∷ text) }
    {
        let (mark, is_whole) = mark_step(self.mark, b);
        self.mark = mark;
        self.has_mark |= is_whole;
    }

    // Counts the carriage returns of the next bytes.
    fn count_all(&mut self, bytes: &[u8])
        ensures returns { (text : List ℕ) → returns_with self.new text ≡ returns_with self.old (bytes.now ++ text) }
        ensures marks { (text : List ℕ) → mark_with self.new text ≡ mark_with self.old text }
    {
        for b in bytes {
            self.count(*b);
        }
    }

    // The same, by one search where there are none.
    fn count_returns(&mut self, bytes: &[u8])
        ensures returns { (text : List ℕ) → returns_with self.new text ≡ returns_with self.old (bytes.now ++ text) }
        ensures marks { (text : List ℕ) → mark_with self.new text ≡ mark_with self.old text }
    {
        if bytes.is_empty() {
            return;
        }
        if has_return(bytes) {
            self.count_all(bytes);
        } else {
            self.pass(bytes[0], bytes);
        }
    }

    // Looks for a mark in the next bytes, where one may begin or go on.
    fn look_at(&mut self, bytes: &[u8])
        ensures returns { (text : List ℕ) → returns_with self.new text ≡ returns_with self.old text }
        ensures marks { (text : List ℕ) → mark_with self.new text ≡ mark_with self.old (bytes.now ++ text) }
    {
        for b in bytes {
            if self.mark == Mark::Past {
                return;
            }
            self.look(*b);
        }
    }

    /// The next bytes.
    fn notice(&mut self, bytes: &[u8])
        ensures met { (text : List ℕ) → met_with self.new text ≡ met_with self.old (bytes.now ++ text) }
    {
        self.count_returns(bytes);
        self.look_at(bytes);
    }

    /// What was met.
    fn met(&self) -> Met
        ensures met { result ≡ met_with self.now [] }
    {
        met_of(self.returns, self.has_mark)
    }
}

/// A source of the bytes of another, which tells what was met in those that were read.
#[derive(Drop)]
pub struct Noticed<S: Source + Drop> {
    source: S,
    noticing: Noticing,
    passing: Passing,
}

impl<S: Source + Drop> Noticed<S> {
    ghost use Rattle.line_filter.specs.Views.{met_after, noticed_source, passed_after};

    /// A source of what the other one has left.
    pub fn new(source: S) -> Noticed<S>
        ensures source { noticed_source result ≡ source }
        ensures met { (text : List ℕ) → met_after result text ≡ met_in text }
        ensures passed { (text : List ℕ) → passed_after result text ≡ min (count_passed_over text) (2 ^ 64 - 1) }
    {
        Noticed {
            source,
            noticing: Noticing::new(),
            passing: Passing::new(),
        }
    }

    /// What was met so far.
    pub fn met(&self) -> Met
        ensures met { result ≡ met_after self.now [] }
    {
        self.noticing.met()
    }

    /// The lines so far that are empty or begin with `#`; the count stays at the greatest number of its type.
    pub fn passed_over(&self) -> u64
        ensures count { result ≡ passed_after self.now [] }
    {
        self.passing.total()
    }
}

impl<S: Source + Drop> Source for Noticed<S> {
    ghost use Rattle.line_filter.specs.Views.{met_after, noticed_source, passed_after};

    ghost left = { λ n. S.left (noticed_source n) };

    ghost faults = { λ n. S.faults (noticed_source n) };

    fn read(&mut self, buf: &mut [u8]) -> Result<usize, Failed>
        ensures bound { ReadsAtMost result buf.new }
        ensures bytes { ReadConsumes (S.left (noticed_source self.old)) (S.left (noticed_source self.new)) result buf.new }
        ensures count { S.faults (noticed_source self.old) ≤ S.faults (noticed_source self.new) }
        ensures cause { OnErr result (HasRisen (S.faults (noticed_source self.old)) (S.faults (noticed_source self.new))) }

        // The bytes that are given are those that count.
        ensures met { IfOk result (λ n. (text : List ℕ) → met_after self.new text ≡ met_after self.old (take n buf.new ++ text)) }
        ensures same { OnErr result ((text : List ℕ) → met_after self.new text ≡ met_after self.old text) }
        ensures passed { IfOk result (λ n. (text : List ℕ) → passed_after self.new text ≡ passed_after self.old (take n buf.new ++ text)) }
        ensures passed_same { OnErr result ((text : List ℕ) → passed_after self.new text ≡ passed_after self.old text) }
    {
        let count = self.source.read(buf)?;
        self.noticing.notice(&buf[..count]);
        self.passing.notice(&buf[..count]);
        Ok(count)
    }
}
