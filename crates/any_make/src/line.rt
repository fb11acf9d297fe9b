//! The text of the first line of a source.

ghost use Rattle.std.specs.Prelude.{◌≡◌, ◌++◌, ◌∷◌, []};
ghost use Rattle.line_io.specs.Devices.{WhereTold};
ghost use Rattle.pieces.specs.FaultCounts.{HasRisen};
ghost use Rattle.any_make.specs.Line.{MakeOutcome, WritesText, is_password};

use crate::{MakeCost, MakeFault, TEXT_MAX, made_text};
use line_io::{Failed, Line, LineBuffer, Sink, Source, write_all};
use pieces::short_bytes::ShortBytes;
use std::alloc::Global;

/// How a run of [`run_make`] ended.
#[derive(Clone, Copy, Debug, PartialEq, Eq)]
pub enum MakeEnd {
    /// The text and a line feed are written.
    Made,
    /// No text is made of the first line.
    Refused(MakeFault),
    /// The source is empty.
    NoLine,
    /// The first line is empty, and an empty password isn't taken.
    EmptyLine,
    /// The first line has more than 8,192 bytes.
    LongLine,
    /// A read failed.
    ReadFault,
    /// A write failed.
    WriteFault,
}

// Room for a text and a line feed.
const LINE_ROOM: usize = 155;

// The bytes of a source that count: those of the longest line and its line feed.
const READ_MAX: u64 = 8_193;

// A text with a line feed behind it.
fn with_feed(text: &ShortBytes<TEXT_MAX>) -> ShortBytes<LINE_ROOM>
    ensures { result ≡ text.now ++ 10 ∷ [] }
{
    let mut line = ShortBytes::from_slice(text.as_slice());
    line.push_all(b"\n");
    line
}

// Whether a line is a password.
fn is_password(takes_empty: bool, line: &[u8]) -> bool
    ensures { result ≡ is_password takes_empty line.now }
{
    takes_empty || 0 < line.len()
}

// Writes the text of a line that is a password, and a line feed.
fn write_text<K: Sink>(
    alloc: Global,
    cost: MakeCost,
    takes_empty: bool,
    line: &[u8],
    salt: &[u8],
    sink: &mut K,
) -> MakeEnd
    ensures write_fault { result ≡ MakeEnd.WriteFault → HasRisen (K.faults sink.old) (K.faults sink.new) }
    ensures written { WritesText cost takes_empty line.now salt.now (K.written sink.old) (K.written sink.new) result }
{
    if !is_password(takes_empty, line) {
        return MakeEnd::EmptyLine;
    }
    match made_text(alloc, cost, line, salt) {
        Ok(text) => match write_all(sink, with_feed(&text).as_slice()) {
            Ok(()) => MakeEnd::Made,
            Err(Failed) => MakeEnd::WriteFault,
        },
        Err(fault) => MakeEnd::Refused(fault),
    }
}

/// Reads the first line of a source, a password, and writes its text for a cost and a salt, and a line feed.
///
/// The line ends with a line feed, which is no part of it, or with the source. No other line is read, though bytes after the
/// first may be taken from the source: at most 8,194 are taken in all, however long the first line is. The salt has
/// [`MakeCost::salt_length`] bytes. A line without a byte is a password where `takes_empty` says so. Nothing is written before
/// the text is made.
pub fn run_make<S: Source, K: Sink>(
    alloc: Global,
    cost: MakeCost,
    salt: &[u8],
    takes_empty: bool,
    source: &mut S,
    sink: &mut K,
) -> MakeEnd
    ensures read_fault { result ≡ MakeEnd.ReadFault → HasRisen (S.faults source.old) (S.faults source.new) }
    ensures write_fault { result ≡ MakeEnd.WriteFault → HasRisen (K.faults sink.old) (K.faults sink.new) }
    ensures outcome { WhereTold (S.left source.old) (S.left source.new) (K.written sink.old) (K.written sink.new)
        (λ held taken added. MakeOutcome cost salt.now takes_empty result held taken added) }
{
    let mut lines = LineBuffer::new(READ_MAX);
    match lines.next_line(source) {
        Line::Whole(_) => write_text(alloc, cost, takes_empty, lines.line(), salt, sink),
        Line::TooLong => MakeEnd::LongLine,
        // More bytes than the longest line and its line feed have, and no line feed among these.
        Line::Budget => MakeEnd::LongLine,
        Line::End => MakeEnd::NoLine,
        Line::Failed => MakeEnd::ReadFault,
    }
}
