//! Lines that are empty or comments, counted as the bytes of a text pass.

ghost use Rattle.std.specs.Prelude.{◌≡◌, ◌<◌, ◌≤◌, ◌+◌, ◌-◌, ◌^◌, ◌++◌, ◌∷◌, ◌&&◌, [], ℕ, List, IsTrue, if◌then◌else◌, length, min, slice_index};
ghost use Rattle.pieces.specs.FaultCounts.{one_more};
ghost use Rattle.line_filter.specs.Passed.{NoneBegins, begins_passed, count_passed_over, passed_with};

use std::simd::prelude::*;

/// How many lines that are empty or begin with `#` began so far.
#[derive(Clone, Copy, Debug)]
pub(crate) struct Passing {
    /// The next byte is the first of a line.
    pub at_start: bool,
    /// The count stays at the greatest number of its type.
    pub count: u64,
}

// Whether a line that begins with this byte is empty or a comment.
fn begins_passed(b: u8) -> bool
    ensures { result ≡ begins_passed b }
{
    b == b'\n' || b == b'#'
}

// The count after a byte, which is the first of a line or not.
fn one_more_at(count: u64, at_start: bool, b: u8) -> u64
    ensures count { result ≡ (if at_start && begins_passed b then one_more count else count) }
{
    if at_start && begins_passed(b) {
        count.saturating_add(1)
    } else {
        count
    }
}

// The count, which fits its type.
fn as_it_is(count: u64) -> u64
    ensures same { result ≡ count }
    ensures small { count < 2 ^ 64 }
{
    count
}

// Whether none of the 16 bytes after that at `i` is the first of such a line.
#[inline(always)]
fn begin_none(bytes: &[u8], i: usize) -> bool
    requires room { i + 17 ≤ length bytes.now }
    ensures free { IsTrue result → NoneBegins bytes.now i (i + 16) }
{
    let here = u8x16::from_slice(&bytes[i..]);
    let next = u8x16::from_slice(&bytes[i + 1..]);
    let ends = here.simd_eq(u8x16::splat(b'\n'));
    let begins = next.simd_eq(u8x16::splat(b'\n')) | next.simd_eq(u8x16::splat(b'#'));
    (ends & begins).to_bitmask() == 0
}

// The same of all bytes after the first, one by one.
fn begin_none_by_one(bytes: &[u8]) -> bool
    ensures free { IsTrue result → NoneBegins bytes.now 0 (length bytes.now - 1) }
{
    let mut i = 1;
    while i < bytes.len() {
        if bytes[i - 1] == b'\n' && begins_passed(bytes[i]) {
            return false;
        }
        i += 1;
    }
    true
}

// The same, sixteen bytes a step.
fn begins_nowhere(bytes: &[u8]) -> bool
    ensures free { IsTrue result → NoneBegins bytes.now 0 (length bytes.now - 1) }
{
    if bytes.len() < 17 {
        return begin_none_by_one(bytes);
    }
    let last = bytes.len() - 17;
    let mut i = 0;
    while i < last {
        if !begin_none(bytes, i) {
            return false;
        }
        i += 16;
    }
    // The last 17 bytes, of which some were looked at.
    begin_none(bytes, last)
}

impl Passing {
    /// Nothing was read.
    pub fn new() -> Passing
        ensures count { (text : List ℕ) → passed_with result text ≡ min (count_passed_over text) (2 ^ 64 - 1) }
    {
        Passing {
            at_start: true,
            count: 0,
        }
    }

    // The next byte.
    fn step(&mut self, b: u8)
        ensures count { (text : List ℕ) → passed_with self.new text ≡ passed_with self.old (b ∷ text) }
    {
        self.count = one_more_at(self.count, self.at_start, b);
        self.at_start = b == b'\n';
    }

    // The next bytes, one by one.
    fn step_all(&mut self, bytes: &[u8])
        ensures count { (text : List ℕ) → passed_with self.new text ≡ passed_with self.old (bytes.now ++ text) }
    {
        for b in bytes {
            self.step(*b);
        }
    }

    // The next bytes, of which none after the first is the first of a line that is empty or a comment.
    fn pass(&mut self, first: u8, last: u8, bytes: &[u8])
        requires some { 0 < length bytes.now }
        requires first { slice_index bytes.now 0 ≡ first }
        requires last { slice_index bytes.now (length bytes.now - 1) ≡ last }
        requires free { NoneBegins bytes.now 0 (length bytes.now - 1) }
        ensures count { (text : List ℕ) → passed_with self.new text ≡ passed_with self.old (bytes.now ++ text) }
    {
        self.count = one_more_at(self.count, self.at_start, first);
        self.at_start = last == b'\n';
    }

    /// The next bytes.
    pub fn notice(&mut self, bytes: &[u8])
        ensures count { (text : List ℕ) → passed_with self.new text ≡ passed_with self.old (bytes.now ++ text) }
    {
        if bytes.is_empty() {
            return;
        }
        if begins_nowhere(bytes) {
            self.pass(bytes[0], bytes[bytes.len() - 1], bytes);
        } else {
            self.step_all(bytes);
        }
    }

    /// How many there were.
    pub fn total(&self) -> u64
        ensures count { result ≡ passed_with self.now [] }
    {
        as_it_is(self.count)
    }
}
