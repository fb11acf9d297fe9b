//! What is written for a line.

ghost use Rattle.std.specs.Prelude.{◌≡◌, ◌≢◌, ◌≤◌, Err, MatchOption, length, true};
ghost use Rattle.line_io.specs.Limits.{line_max};
ghost use Rattle.line_io.specs.Output.{Puts};
ghost use Rattle.pwcheck_run.specs.Answer.{answer_text, counts_text, is_match, line_is_good, line_may_lack, line_output};

use crate::answer::{Answer, answer_to};
use crate::form::Form;
use base64ct::Counts;
use line_io::{OutputBuffer, Sink};
use pieces::short_bytes::ShortBytes;
use scrypt_plain::ScryptKept;
use std::alloc::Global;
use stored_check::StoredError;

/// The most bytes of two counts with their names.
const COUNTS_LEN: usize = 54;

/// The answer of a line, which isn't want of memory, and its counts.
#[derive(Drop)]
pub struct LineAnswer {
    pub answer: Answer,
    pub looks: u64,
    pub sames: u64,
}

// The counts, as they stand behind a match or a mismatch.
fn counts_text(looks: u64, sames: u64) -> ShortBytes<COUNTS_LEN>
    ensures text { result ≡ counts_text looks sames }
{
    let mut text = ShortBytes::new();
    text.push_all(b" looks=");
    text.push_decimal(looks);
    text.push_all(b" sames=");
    text.push_decimal(sames);
    text
}

/// Puts the word of an answer, with `--count` the counts of a verdict, and a line feed.
pub fn put_answer<K: Sink>(out: &mut OutputBuffer, sink: &mut K, form: Form, line: &LineAnswer)
    requires known { line.now.answer ≢ Answer.Checked (Err StoredError.OutOfMemory) }
    ensures puts { Puts (K.written sink.old) (K.written sink.new) (K.faults sink.old) (K.faults sink.new) out.old out.new
        (answer_text form line.now.answer line.now.looks line.now.sames) }
{
    let word = line.answer.word().as_bytes();
    if form == Form::Counted && line.answer.has_verdict() {
        out.put(sink, word);
        out.put_line(sink, counts_text(line.looks, line.sames).as_slice());
    } else {
        out.put_line(sink, word);
    }
}

/// The answer of a line of at most 8,192 bytes with its counts; none where memory is wanting.
pub fn answer_line(alloc: Global, kdf: &ScryptKept, line: &[u8]) -> Option<LineAnswer>
    requires short { length line.now ≤ line_max }
    ensures answered { MatchOption result (line_may_lack line.now ≡ true)
        (λ a. (a.answer ≢ Answer.Checked (Err StoredError.OutOfMemory))
        × ((form : Form) → answer_text form a.answer a.looks a.sames ≡ line_output form line.now)
        × (is_match a.answer ≡ line_is_good line.now)) }
{
    let mut counts = Counts::new();
    let answer = answer_to(alloc, kdf, line, &mut counts);
    if answer == Answer::Checked(Err(StoredError::OutOfMemory)) {
        return None;
    }
    Some(LineAnswer {
        answer,
        looks: counts.looks(),
        sames: counts.sames(),
    })
}
