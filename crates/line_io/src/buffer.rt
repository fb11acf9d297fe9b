// The lines of a source, one at a time, in a buffer of fixed size.
ghost use Rattle.std.specs.Prelude.{◌≡◌, ◌≢◌, ◌≤◌, ◌<◌, ◌+◌, ◌-◌, ◌^◌, ℕ, [], true, false, List, length, take, drop, slice_index, MatchOption, OnOk, OnErr, IfNone, OnSome, IfSome, Option, nat_lt, ◌||◌, if◌then◌else◌};
ghost use Rattle.std.specs.Io.KnownBytes.{Keeps};
ghost use Rattle.std.specs.List.{list_any};
ghost use Rattle.pieces.specs.FaultCounts.{HasRisen};
ghost use Rattle.line_io.specs.Lines.{is_feed, NoFeed};
ghost use Rattle.line_io.specs.Limits.{line_max};
ghost use Rattle.line_io.specs.declared.buffer.TheConstants.{CAPACITY};

use crate::{Failed, Source};
use pieces::places::first_place;

/// The bytes that the buffer holds.
const CAPACITY: usize = 16_384;

/// The most bytes of a line.
pub const LINE_MAX: usize = 8_192;

/// The most bytes of an input of a program: 2^40, which is the greatest bound that [`LineBuffer::new`] takes.
pub const INPUT_MAX: u64 = 1 << 40;

/// An answer of [`LineBuffer::next_line`].
#[derive(Clone, Copy, Debug, PartialEq, Eq)]
pub enum Line {
    /// A line of this many bytes, at most 8,192. [`LineBuffer::line`] gives it.
    Whole(usize),
    /// A line of more than 8,192 bytes, which was dropped.
    TooLong,
    /// There is no further line.
    End,
    /// A read failed before the end of the next line was taken.
    Failed,
    /// The source has more bytes than the buffer may take, and the next line ends behind them.
    Budget,
}

/// The lines of one source, one at a time, in 16,384 bytes held in place.
///
/// A line ends with a line feed, which is no part of it; a last piece without one is a line where it
/// is nonempty. A carriage return is an ordinary byte. At most `max` bytes of the source count: a line
/// whose end lies behind them isn't answered, and at most one byte more is taken.
///
/// After `End`, `Failed` or `Budget` the buffer is closed, and `next_line` may no longer be called.
#[derive(Debug, Drop)]
pub struct LineBuffer {
    /// Pending are those from `start` to `end`.
    bytes: [u8; CAPACITY],
    line_start: usize,
    line_end: usize,
    start: usize,
    end: usize,
    taken: u64,
    max: u64,
    ended: bool,
    closed: bool,
    ghost line_in_order: { line_start ≤ line_end },
    ghost line_within: { line_end ≤ 16384 },
    ghost in_order: { start ≤ end },
    ghost within: { end ≤ 16384 },
    ghost small: { max ≤ 2 ^ 40 },
    ghost past: { taken ≤ max + (end - start) },
    ghost within_max: { ended ≡ true → taken ≤ max },
    ghost one_past: { taken ≤ max + 1 },
}

// The place of the first line feed.
#[inline(always)]
fn first_feed(bytes: &[u8]) -> Option<usize>
    ensures found { MatchOption result (NoFeed bytes.now) (λ at. (at < length bytes.now)
        × NoFeed (take at bytes.now) × (slice_index bytes.now at ≡ 10)) }
{
    first_place(bytes, b'\n')
}

impl LineBuffer {
    ghost use Rattle.line_io.specs.Runs.{IsCall};
    ghost use Rattle.line_io.specs.Buffer.{pending, line, taken, max_bytes, is_ended, is_closed, among_first, is_last, Takes, KnowsEnd};
    ghost use Rattle.line_io.specs.Steps.{Fills, KeepsRest, KeepsAll, Closes};

    /// A buffer that has taken nothing, for a source of which the first `max` bytes count.
    #[tactic(auto, unfolding(crate::specs::Buffer::pending, crate::specs::Buffer::line))]
    pub fn new(max: u64) -> LineBuffer
        requires { max ≤ 2 ^ 40 }
        ensures pending { pending result ≡ [] }
        ensures line { line result ≡ [] }
        ensures taken { taken result ≡ 0 }
        ensures max { max_bytes result ≡ max }
        ensures ended { is_ended result ≡ false }
        ensures closed { is_closed result ≡ false }
    {
        LineBuffer {
            bytes: [0; CAPACITY],
            line_start: 0,
            line_end: 0,
            start: 0,
            end: 0,
            taken: 0,
            max,
            ended: false,
            closed: false,
        }
    }

    /// The line of the last answer where that was `Whole`, without its line feed; else nothing.
    #[tactic(auto, unfolding(crate::specs::Buffer::line))]
    pub fn line(&self) -> &[u8]
        ensures { result.now ≡ line self.now }
    {
        &self.bytes[self.line_start..self.line_end]
    }

    #[tactic(auto, unfolding(crate::specs::Buffer::pending))]
    fn pending(&self) -> &[u8]
        ensures value { result.now ≡ pending self.now }
        ensures past { taken self.now ≤ max_bytes self.now + length (pending self.now) }
    {
        &self.bytes[self.start..self.end]
    }

    /// Forgets the line.
    #[tactic(auto, unfolding(crate::specs::Buffer::pending, crate::specs::Buffer::line))]
    fn clear_line(&mut self)
        ensures line { line self.new ≡ [] }
        ensures line_end { self.new.line_end ≡ 0 }
        ensures pending { pending self.new ≡ pending self.old }
        ensures rest { KeepsRest self.old self.new }
    {
        self.line_start = 0;
        self.line_end = 0;
    }

    /// Drops all that is pending.
    #[tactic(auto, unfolding(crate::specs::Buffer::pending, crate::specs::Buffer::line))]
    fn drop_pending(&mut self)
        requires { taken self.old ≤ max_bytes self.old }
        ensures line { line self.new ≡ line self.old }
        ensures pending { pending self.new ≡ [] }
        ensures rest { KeepsRest self.old self.new }
    {
        self.start = self.end;
    }

    /// Makes the first `count` pending bytes the line, and drops them with `skip` bytes behind them.
    #[tactic(auto, unfolding(crate::specs::Buffer::pending, crate::specs::Buffer::line))]
    fn take_line(&mut self, count: usize, skip: usize)
        requires within { count + skip ≤ length (pending self.old) }
        requires past { taken self.old + count + skip ≤ max_bytes self.old + length (pending self.old) }
        ensures line { line self.new ≡ take count (pending self.old) }
        ensures pending { pending self.new ≡ drop (count + skip) (pending self.old) }
        ensures rest { KeepsRest self.old self.new }
    {
        self.line_start = self.start;
        self.line_end = self.start + count;
        self.start += count + skip;
    }

    /// Moves what is pending to the beginning of the buffer.
    #[tactic(auto, unfolding(crate::specs::Buffer::pending, crate::specs::Buffer::line))]
    fn compact(&mut self)
        ensures pending { pending self.new ≡ pending self.old }
        ensures line_end { self.new.line_end ≡ 0 }
        ensures end { self.new.end ≡ length (pending self.old) }
        ensures rest { KeepsRest self.old self.new }
    {
        self.bytes.copy_within(self.start..self.end, 0);
        self.end -= self.start;
        self.start = 0;
        self.line_start = 0;
        self.line_end = 0;
    }

    /// Makes room behind what is pending. Bytes are moved only where the end of the buffer is reached.
    fn make_room(&mut self)
        requires small { length (pending self.old) ≤ line_max }
        ensures line_end { self.new.line_end ≡ 0 }
        ensures pending { pending self.new ≡ pending self.old }
        ensures room { self.new.end < CAPACITY }
        ensures rest { KeepsRest self.old self.new }
    {
        self.clear_line();
        if self.start == self.end || self.end == CAPACITY {
            self.compact();
        }
    }

    /// The place of the first line feed among the pending bytes that are among the first `max` taken.
    fn feed_from(&self, seen: usize) -> Option<usize>
        requires within { seen ≤ length (pending self.now) }
        requires seen { NoFeed (take seen (pending self.now)) }
        ensures past { taken self.now ≤ max_bytes self.now + length (pending self.now) }
        ensures found { MatchOption result (NoFeed (among_first self.now (pending self.now))) (λ at.
            (at < length (pending self.now)) × (taken self.now + at + 1 ≤ max_bytes self.now + length (pending self.now))
            × NoFeed (take at (pending self.now)) × (slice_index (pending self.now) at ≡ 10)) }
    {
        let pending = self.pending();
        let past = self.taken.saturating_sub(self.max) as usize;
        let end = pending.len() - past;
        if end <= seen {
            return None;
        }
        match first_feed(&pending[seen..end]) {
            Some(at) => Some(seen + at),
            None => None,
        }
    }

    /// Reads after what is pending.
    #[tactic(auto, unfolding(crate::specs::Buffer::pending, crate::specs::Buffer::line))]
    fn fill<S: Source>(&mut self, source: &mut S) -> Result<(), Failed>
        requires room { length (pending self.old) ≤ line_max }
        requires more { taken self.old ≤ max_bytes self.old }
        requires not_ended { is_ended self.old ≡ false }
        ensures line { line self.new ≡ [] }
        ensures fills { OnOk result (Fills (S.left source.old) (S.left source.new) self.old self.new) }
        ensures err { OnErr result (KeepsAll self.old self.new × Keeps (S.left source.old) (S.left source.new)) }
        ensures count { S.faults source.old ≤ S.faults source.new }
        ensures cause { OnErr result (HasRisen (S.faults source.old) (S.faults source.new)) }
    {
        self.make_room();
        let end = self.end;
        let room = (CAPACITY - end).min((self.max + 1 - self.taken) as usize);
        match source.read(&mut self.bytes[end..end + room]) {
            Ok(count) => {
                self.end = end + count;
                self.taken += count as u64;
                self.ended = count == 0;
                Ok(())
            }
            Err(Failed) => Err(Failed),
        }
    }

    /// Drops what is pending where it is more than a line may have. Tells whether the line is too long.
    fn drop_long(&mut self, long: bool) -> bool
        requires more { taken self.old ≤ max_bytes self.old }
        requires no_line { line self.old ≡ [] }
        ensures long { result ≡ (long || nat_lt line_max (length (pending self.old))) }
        ensures line { line self.new ≡ [] }
        ensures pending { pending self.new ≡ (if nat_lt line_max (length (pending self.old)) then [] else pending self.old) }
        ensures rest { KeepsRest self.old self.new }
    {
        if self.pending().len() > LINE_MAX {
            self.drop_pending();
            return true;
        }
        long
    }

    /// Answers the first `count` pending bytes as a line, or as the end of a long one.
    fn answer_line(&mut self, count: usize, skip: usize, long: bool) -> Line
        requires within { count + skip ≤ length (pending self.old) }
        requires past { taken self.old + count + skip ≤ max_bytes self.old + length (pending self.old) }
        ensures answer { result ≡ (if long || nat_lt line_max count then Line.TooLong else Line.Whole count) }
        ensures line { line self.new ≡ (if long || nat_lt line_max count then [] else take count (pending self.old)) }
        ensures pending { pending self.new ≡ drop (count + skip) (pending self.old) }
        ensures rest { KeepsRest self.old self.new }
    {
        self.take_line(count, skip);
        if long || count > LINE_MAX {
            self.clear_line();
            Line::TooLong
        } else {
            Line::Whole(count)
        }
    }

    /// Answers an end, after which the buffer is closed.
    #[tactic(auto, unfolding(crate::specs::Buffer::pending, crate::specs::Buffer::line))]
    fn close(&mut self, last: Line) -> Line
        ensures answer { result ≡ last }
        ensures closes { Closes self.old self.new }
    {
        self.closed = true;
        last
    }

    /// The next line where its line feed is pending, so without a read; else none, and nothing changes.
    ///
    /// Where it gives none, `next_line` is to be called, which may read.
    pub fn next_pending(&mut self) -> Option<Line>
        requires { is_closed self.old ≡ false }
        // Exactly where no line feed is pending among the bytes that count there is none.
        ensures none { IfNone result ((self.new ≡ self.old) × NoFeed (among_first self.old (pending self.old))) }
        ensures some { OnSome result (list_any is_feed (pending self.old) ≡ true) }
        // For whatever the source has left: the call is one of those of `next_line`.
        ensures call { IfSome result (λ answer. (left : Option (List ℕ)) → IsCall answer left left self.old self.new) }
        ensures goes_on { IfSome result (λ answer. is_last answer ≡ false) }
        // Either way the next call may follow.
        ensures open { is_closed self.new ≡ false }
    {
        match self.feed_from(0) {
            Some(at) => Some(self.answer_line(at, 1, false)),
            None => None,
        }
    }

    /// The next line, or why there is none.
    ///
    /// The pending bytes before the call and those that it takes are the answered line, its line feed
    /// where one stands, and the bytes that are pending then. A long line is answered once its line
    /// feed was taken or the source has ended. All calls are to be given the same source.
    pub fn next_line<S: Source>(&mut self, source: &mut S) -> Line
        requires { is_closed self.old ≡ false }
        // What was taken, what the answer says of it, and whether a call may follow.
        ensures call { IsCall result (S.left source.old) (S.left source.new) self.old self.new }
        ensures one_past { taken self.new ≤ max_bytes self.new + 1 }

        // The count never falls, and a fault is answered only where it has risen.
        ensures count { S.faults source.old ≤ S.faults source.new }
        ensures cause { result ≡ Line.Failed → HasRisen (S.faults source.old) (S.faults source.new) }

        // It reads only where no line feed is pending, and never after the end.
        ensures line_pending { list_any is_feed (pending self.old) ≡ true →
            (taken self.new ≡ taken self.old) × (source.new ≡ source.old) }
        ensures after_end { is_ended self.old ≡ true → source.new ≡ source.old }
    {
        self.clear_line();
        let mut long = false;
        let mut seen = 0;
        loop {
            if let Some(at) = self.feed_from(seen) {
                return self.answer_line(at, 1, long);
            }
            if self.taken > self.max {
                return self.close(Line::Budget);
            }
            if self.ended {
                let count = self.pending().len();
                if count == 0 && !long {
                    return self.close(Line::End);
                }
                return self.answer_line(count, 0, long);
            }
            long = self.drop_long(long);
            seen = self.pending().len();
            match self.fill(source) {
                Ok(()) => {}
                Err(Failed) => return self.close(Line::Failed),
            }
        }
    }
}
