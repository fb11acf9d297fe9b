//! Replies as they are written.

ghost use Rattle.std.specs.Prelude.{◌++◌, ◌∷◌, []};
ghost use Rattle.std.specs.List.{flat_map};
ghost use Rattle.line_io.specs.Output.{Puts};
ghost use Rattle.pw_file.specs.Lines.{shown};
ghost use Rattle.pw_file.specs.Replies.{reply_text, row_line, word_text};

use crate::{LineReply, Policy, Table, Word};
use line_io::{OutputBuffer, Sink};

// Puts a word and a line feed. A reply that took long isn't kept waiting.
fn put_word<K: Sink>(word: Word, out: &mut OutputBuffer, sink: &mut K)
    ensures puts { Puts (K.written sink.old) (K.written sink.new) (K.faults sink.old) (K.faults sink.new) out.old out.new
        (word_text word ++ 10 ∷ []) }
{
    out.put(sink, word.as_str().as_bytes());
    out.put(sink, b"\n");
    if matches!(word, Word::Match | Word::Mismatch | Word::Upgraded) {
        out.flush(sink);
    }
}

// Puts the line of each user.
fn put_listing<P: Policy, K: Sink>(table: &Table<P>, out: &mut OutputBuffer, sink: &mut K)
    ensures puts { Puts (K.written sink.old) (K.written sink.new) (K.faults sink.old) (K.faults sink.new) out.old out.new
        (flat_map row_line table.now) }
{
    for i in 0..table.len() {
        match table.row_line(i) {
            Some(line) => out.put(sink, line.as_slice()),
            None => {}
        }
    }
}

/// Puts a reply, where a listing is that of the table.
pub fn put_reply<P: Policy, K: Sink>(
    table: &Table<P>,
    reply: LineReply,
    out: &mut OutputBuffer,
    sink: &mut K,
)
    ensures puts { Puts (K.written sink.old) (K.written sink.new) (K.faults sink.old) (K.faults sink.new) out.old out.new
        (reply_text (shown table.now reply)) }
{
    match reply {
        LineReply::Word(word) => put_word(word, out, sink),
        LineReply::Listing => put_listing(table, out, sink),
    }
}
