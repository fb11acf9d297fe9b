//! The responder in front of another.

ghost use Rattle.std.specs.Prelude.{◌≡◌, ◌<◌, ◌≤◌, ◌∷◌, ◌++◌, [], IfOk, MatchOption, OnErr, OnOk, length, true};
ghost use Rattle.line_io.specs.Limits.{line_max};
ghost use Rattle.line_io.specs.Output.{Puts};
ghost use Rattle.application_texts.specs.Makers.{read_by};
ghost use Rattle.foreign_lines.specs.Handed.{by_answer, by_reply, by_test, handed, refused, surveyed_text, word_line};
ghost use Rattle.foreign_lines.specs.Parts.{line_with};
ghost use Rattle.foreign_lines.specs.Views.{parts_of};
ghost use Rattle.foreign_lines.specs.Rules.{by_after};

use crate::parts::{LineForm, LineParts, parts_in};
use application_texts::{Maker, maker_text};
use foreign_text::{ForeignFault, MadeText};
use line_io::{LINE_MAX, OutputBuffer, Sink};
use line_program::{Ending, Responder};
use pieces::short_bytes::ShortBytes;
use shadow_fields::put_user;
use std::alloc::AllocError;

/// What hands lines to another responder, each with its stored text converted.
#[derive(Drop)]
pub struct ForeignLines<R> {
    /// Whose spelling the texts have.
    pub foreign: Maker,
    /// What a line is.
    pub form: LineForm,
    /// What answers the lines.
    pub inner: R,
}

/// A text after a front and a mark, where the whole has at most 8,192 bytes.
pub(crate) fn behind_mark(front: &[u8], mark: u8, text: &[u8]) -> Option<ShortBytes<LINE_MAX>>
    ensures line { MatchOption result (line_max < length (front.now ++ mark ∷ text.now))
        (λ line. line ≡ front.now ++ mark ∷ text.now) }
{
    if front.len() >= LINE_MAX || text.len() >= LINE_MAX - front.len() {
        return None;
    }
    let mut line = ShortBytes::new();
    line.push_all(front);
    line.push_all(&[mark]);
    line.push_all(text);
    Some(line)
}

// A stored text behind a user and a password.
fn behind_both(user: &[u8], password: &[u8], stored: &[u8]) -> Option<ShortBytes<LINE_MAX>>
    ensures line { MatchOption result (line_max < length ((user.now ++ 58 ∷ password.now) ++ 9 ∷ stored.now))
        (λ line. line ≡ (user.now ++ 58 ∷ password.now) ++ 9 ∷ stored.now) }
{
    match behind_mark(user, b':', password) {
        Some(front) => behind_mark(front.as_slice(), b'\t', stored),
        None => None,
    }
}

// The line with another stored text, where it has at most 8,192 bytes.
fn line_with(form: LineForm, parts: LineParts<'_>, stored: &[u8]) -> Option<ShortBytes<LINE_MAX>>
    ensures line { MatchOption result (line_max < length (line_with form (parts_of parts.entry) stored.now))
        (λ line. line ≡ line_with form (parts_of parts.entry) stored.now) }
{
    match form {
        LineForm::Password => behind_mark(parts.password, b'\t', stored),
        LineForm::UserPassword => behind_both(parts.user, parts.password, stored),
        LineForm::UserText | LineForm::Surveyed => behind_mark(parts.user, b':', stored),
    }
}

// Answers a line with another stored text, of whatever length it is.
fn answer_with<R: Responder, K: Sink>(
    inner: &mut R,
    form: LineForm,
    parts: LineParts<'_>,
    stored: &[u8],
    out: &mut OutputBuffer,
    sink: &mut K,
) -> Result<bool, AllocError>
    ensures good { IfOk result (λ good. good ≡ R.rules.is_good inner.old (line_with form (parts_of parts.entry) stored.now)) }
    ensures reply { OnOk result (Puts (K.written sink.old) (K.written sink.new) (K.faults sink.old) (K.faults sink.new) out.old out.new
        (R.rules.reply inner.old (line_with form (parts_of parts.entry) stored.now))) }
    ensures after { OnOk result (inner.new ≡ R.rules.after inner.old (line_with form (parts_of parts.entry) stored.now)) }
    ensures wants { OnErr result
        (R.rules.may_lack_memory inner.old (line_with form (parts_of parts.entry) stored.now) ≡ true) }
    ensures nothing { OnErr result (Puts (K.written sink.old) (K.written sink.new) (K.faults sink.old) (K.faults sink.new) out.old out.new []) }
    ensures unchanged { OnErr result (inner.new ≡ inner.old) }
{
    match line_with(form, parts, stored) {
        Some(line) => inner.answer(line.as_slice(), out, sink),
        None => Ok(inner.answer_long(out, sink)),
    }
}

// Puts the word of a cause.
fn put_word<K: Sink>(fault: ForeignFault, out: &mut OutputBuffer, sink: &mut K)
    ensures puts { Puts (K.written sink.old) (K.written sink.new) (K.faults sink.old) (K.faults sink.new) out.old out.new
        (word_line fault) }
{
    out.put_line(sink, fault.word().as_bytes());
}

// The text that a survey gets in place of one that isn't converted.
fn surveyed_text(fault: ForeignFault) -> &'static [u8]
    ensures { result.now ≡ surveyed_text fault }
{
    match fault {
        ForeignFault::Locked => b"!",
        _ => fault.word().as_bytes(),
    }
}

// Answers a line whose stored text isn't converted.
fn answer_refused<R: Responder, K: Sink>(
    inner: &mut R,
    form: LineForm,
    parts: LineParts<'_>,
    fault: ForeignFault,
    out: &mut OutputBuffer,
    sink: &mut K,
) -> Result<bool, AllocError>
    ensures good { IfOk result (λ good. good ≡ by_test (R.rules.is_good inner.old) (refused form (parts_of parts.entry) fault)) }
    ensures reply { OnOk result (Puts (K.written sink.old) (K.written sink.new) (K.faults sink.old) (K.faults sink.new) out.old out.new
        (by_reply (R.rules.reply inner.old) (refused form (parts_of parts.entry) fault))) }
    ensures after { OnOk result (inner.new
        ≡ by_after (R.rules.after inner.old) inner.old (refused form (parts_of parts.entry) fault)) }
    ensures wants { OnErr result
        (by_test (R.rules.may_lack_memory inner.old) (refused form (parts_of parts.entry) fault) ≡ true) }
    ensures nothing { OnErr result (Puts (K.written sink.old) (K.written sink.new) (K.faults sink.old) (K.faults sink.new) out.old out.new []) }
    ensures unchanged { OnErr result (inner.new ≡ inner.old) }
{
    match form {
        LineForm::Password => {
            put_word(fault, out, sink);
            Ok(false)
        }
        LineForm::UserPassword | LineForm::UserText => {
            put_user(out, sink, parts.user, fault.word());
            Ok(false)
        }
        LineForm::Surveyed => { answer_with(inner, form, parts, surveyed_text(fault), out, sink) }
    }
}

// Answers a line whose stored text stands in these parts.
fn answer_parts<R: Responder, K: Sink>(
    inner: &mut R,
    foreign: Maker,
    form: LineForm,
    parts: LineParts<'_>,
    out: &mut OutputBuffer,
    sink: &mut K,
) -> Result<bool, AllocError>
    ensures good { IfOk result (λ good. good
        ≡ by_test (R.rules.is_good inner.old) (by_answer form (parts_of parts.entry) (read_by foreign parts.entry.text.now))) }
    ensures reply { OnOk result (Puts (K.written sink.old) (K.written sink.new) (K.faults sink.old) (K.faults sink.new) out.old out.new
        (by_reply (R.rules.reply inner.old) (by_answer form (parts_of parts.entry) (read_by foreign parts.entry.text.now)))) }
    ensures after { OnOk result (inner.new ≡ by_after (R.rules.after inner.old) inner.old
        (by_answer form (parts_of parts.entry) (read_by foreign parts.entry.text.now))) }
    ensures wants { OnErr result (by_test (R.rules.may_lack_memory inner.old)
        (by_answer form (parts_of parts.entry) (read_by foreign parts.entry.text.now)) ≡ true) }
    ensures nothing { OnErr result (Puts (K.written sink.old) (K.written sink.new) (K.faults sink.old) (K.faults sink.new) out.old out.new []) }
    ensures unchanged { OnErr result (inner.new ≡ inner.old) }
{
    let mut made = MadeText::new();
    match maker_text(foreign, parts.text, &mut made) {
        Ok(Some(held)) => answer_with(inner, form, parts, held.as_bytes(), out, sink),
        Ok(None) => answer_with(inner, form, parts, made.as_slice(), out, sink),
        Err(fault) => answer_refused(inner, form, parts, fault, out, sink),
    }
}

// Answers a line of at most 8,192 bytes.
fn answer_foreign<R: Responder, K: Sink>(
    inner: &mut R,
    foreign: Maker,
    form: LineForm,
    line: &[u8],
    out: &mut OutputBuffer,
    sink: &mut K,
) -> Result<bool, AllocError>
    requires short { length line.now ≤ line_max }
    ensures good { IfOk result (λ good. good ≡ by_test (R.rules.is_good inner.old) (handed foreign form line.now)) }
    ensures reply { OnOk result (Puts (K.written sink.old) (K.written sink.new) (K.faults sink.old) (K.faults sink.new) out.old out.new
        (by_reply (R.rules.reply inner.old) (handed foreign form line.now))) }
    ensures after { OnOk result (inner.new ≡ by_after (R.rules.after inner.old) inner.old (handed foreign form line.now)) }
    ensures wants { OnErr result (by_test (R.rules.may_lack_memory inner.old) (handed foreign form line.now) ≡ true) }
    ensures nothing { OnErr result (Puts (K.written sink.old) (K.written sink.new) (K.faults sink.old) (K.faults sink.new) out.old out.new []) }
    ensures unchanged { OnErr result (inner.new ≡ inner.old) }
{
    match parts_in(foreign, form, line) {
        Some(parts) => answer_parts(inner, foreign, form, parts, out, sink),
        None => inner.answer(line, out, sink),
    }
}

impl<R: Responder> Responder for ForeignLines<R> {
    ghost use Rattle.foreign_lines.specs.Rules.{foreign_state};

    ghost rules = { foreign_state (λ s. s.foreign) (λ s. s.form) (λ s. s.inner) (λ s i. record s { inner = i }) R.rules };

    fn answer<K: Sink>(
        &mut self,
        line: &[u8],
        out: &mut OutputBuffer,
        sink: &mut K,
    ) -> Result<bool, AllocError> {
        answer_foreign(&mut self.inner, self.foreign, self.form, line, out, sink)
    }

    fn answer_long<K: Sink>(&mut self, out: &mut OutputBuffer, sink: &mut K) -> bool {
        self.inner.answer_long(out, sink)
    }
}

impl<R: Ending> Ending for ForeignLines<R> {
    ghost ending = { λ s. R.ending s.inner };

    fn put_ending<K: Sink>(&self, out: &mut OutputBuffer, sink: &mut K) {
        self.inner.put_ending(out, sink)
    }
}
