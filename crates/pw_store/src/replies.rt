//! Replies as they are written.

ghost use Rattle.std.specs.Prelude.{◌≡◌};
ghost use Rattle.line_io.specs.Output.{Puts};
ghost use Rattle.pw_file.specs.History.{Says};
ghost use Rattle.pw_file.specs.Replies.{reply_text};
ghost use Rattle.pw_store.specs.Progress.{IsRefusal, refusal_of, refusal_text, verdict_word, words};

use crate::StoreError;
use line_io::{OutputBuffer, Sink};
use pw_file::{FileError, LineReply, Word, error_word};
use std::alloc::AllocError;

/// Puts a word and a line feed.
pub(crate) fn put_word<K: Sink>(word: Word, out: &mut OutputBuffer, sink: &mut K)
    ensures puts { Puts (K.written sink.old) (K.written sink.new) (K.faults sink.old) (K.faults sink.new) out.old out.new
        (reply_text (Says word)) }
{
    out.put_line(sink, word.as_str().as_bytes());
}

/// Puts a word so many times.
pub(crate) fn put_words<K: Sink>(word: Word, count: usize, out: &mut OutputBuffer, sink: &mut K)
    ensures puts { Puts (K.written sink.old) (K.written sink.new) (K.faults sink.old) (K.faults sink.new) out.old out.new
        (words count word) }
{
    let mut done = 0;
    'each: while done < count {
        put_word(word, out, sink);
        done += 1;
    }
}

// The reply of an upgrade by whether the text matched.
fn verdict_word(matches: bool) -> Word
    ensures word { result ≡ verdict_word matches }
{
    if matches {
        Word::Upgraded
    } else {
        Word::Mismatch
    }
}

/// Puts the reply of an upgrade. It took long, and isn't kept waiting.
pub(crate) fn put_verdict<K: Sink>(matches: bool, out: &mut OutputBuffer, sink: &mut K)
    ensures puts { Puts (K.written sink.old) (K.written sink.new) (K.faults sink.old) (K.faults sink.new) out.old out.new
        (reply_text (Says (verdict_word matches))) }
{
    put_word(verdict_word(matches), out, sink);
    out.flush(sink);
}

/// The reply of a refusal of a change, by whether changes are taken; none where memory is wanting.
pub(crate) fn refusal_word<T: Copy, V: Copy>(takes: bool, e: StoreError<T, V>) -> Option<Word>
    ensures word { result ≡ refusal_of takes e }
{
    if !takes {
        return Some(Word::DiskFault);
    }
    match e {
        StoreError::Table(FileError::OutOfMemory) => None,
        StoreError::Table(e) => Some(error_word(e)),
        StoreError::FileFull => Some(Word::FileFull),
        StoreError::DiskFault => Some(Word::DiskFault),
    }
}

/// Puts the reply of a refusal, and tells whether the reply is a good one, as `kept` is; or out of memory.
pub(crate) fn put_refusal<K: Sink>(
    word: Option<Word>,
    out: &mut OutputBuffer,
    sink: &mut K,
) -> Result<bool, AllocError>
    ensures puts { Puts (K.written sink.old) (K.written sink.new) (K.faults sink.old) (K.faults sink.new) out.old out.new
        (refusal_text word) }
    ensures answer { IsRefusal word result }
{
    match word {
        Some(word) => {
            put_word(word, out, sink);
            Ok(LineReply::Word(word).is_good())
        }
        None => Err(AllocError),
    }
}
