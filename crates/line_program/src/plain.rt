//! Lines of a password and a stored text that are answered by `match`, `mismatch` or `invalid`.

ghost use Rattle.std.specs.Prelude.{◌≡◌, ◌≢◌, ◌≤◌, ◌^◌, ◌++◌, ◌∷◌, [], ℕ, Bool, List, None, Option, false, if◌then◌else◌, length, true, OnErr, IfOk};
ghost use Rattle.std.specs.List.{after_last, before_last, list_any};
ghost use Rattle.line_io.specs.Devices.{WhereTold};
ghost use Rattle.pieces.specs.FaultCounts.{HasRisen};
ghost use Rattle.line_program.specs.Outcome.{Outcome};
ghost use Rattle.line_program.specs.PlainOutput.{answer_rules, is_plain_match, line_answer, line_may_lack, plain_word};
ghost use Rattle.pieces.specs.Characters.{is_tab};
ghost use Rattle.line_io.specs.Limits.{line_max};

use crate::Responder;
use crate::cut::cut_at_last_tab;
use crate::run::run_lines;
use line_io::{OutputBuffer, Sink, Source};
use pieces::text::text_of;
use std::alloc::AllocError;

/// What has a verdict on a password and a stored text.
pub trait PasswordCheck {
    /// The verdict; none where there is a cause that there is none.
    ghost verdict: { Self → List ℕ → List ℕ → Option Bool };

    /// Whether memory may be wanting for it.
    ghost may_lack: { Self → List ℕ → List ℕ → Bool };

    /// The verdict, or memory is wanting.
    fn check(&self, password: &str, stored: &str) -> Result<Option<bool>, AllocError>
        ensures verdict { IfOk result (λ answer. answer ≡ verdict self.now password.now stored.now) }
        ensures wants { OnErr result (may_lack self.now password.now stored.now ≡ true) };
}

// The verdict on a line that is text.
fn check_text<C: PasswordCheck>(check: &C, text: &str) -> Result<Option<bool>, AllocError>
    ensures answer { IfOk result (λ answer. answer
        ≡ (if list_any is_tab text.now then C.verdict check.now (before_last is_tab text.now) (after_last is_tab text.now) else None)) }
    ensures wants { OnErr result
        ((if list_any is_tab text.now then C.may_lack check.now (before_last is_tab text.now) (after_last is_tab text.now) else false) ≡ true) }
{
    match cut_at_last_tab(text) {
        Some((password, stored)) => check.check(password, stored),
        None => Ok(None),
    }
}

// The verdict on a line.
fn check_line<C: PasswordCheck>(check: &C, line: &[u8]) -> Result<Option<bool>, AllocError>
    requires short { length line.now ≤ line_max }
    ensures answer { IfOk result (λ answer. answer ≡ line_answer (C.verdict check.now) line.now) }
    ensures wants { OnErr result (line_may_lack (C.may_lack check.now) line.now ≡ true) }
{
    match text_of(line) {
        Some(text) => check_text(check, text),
        None => Ok(None),
    }
}

// The word and a line feed.
fn word_line(answer: Option<bool>) -> &'static [u8]
    ensures text { result.now ≡ plain_word answer ++ 10 ∷ [] }
{
    match answer {
        Some(true) => b"match\n",
        Some(false) => b"mismatch\n",
        None => b"invalid\n",
    }
}

// Whether this is a match.
fn is_match(answer: Option<bool>) -> bool
    ensures matches { result ≡ is_plain_match answer }
{
    matches!(answer, Some(true))
}

/// What answers lines by a verdict, each by itself.
#[derive(Drop)]
pub struct PlainLines<C> {
    pub check: C,
}

impl<C: PasswordCheck> Responder for PlainLines<C> {
    ghost use Rattle.line_program.specs.PlainOutput.{answer_state};

    ghost rules = { answer_state (λ lines. C.verdict lines.check) (λ lines. C.may_lack lines.check) };

    fn answer<K: Sink>(
        &mut self,
        line: &[u8],
        out: &mut OutputBuffer,
        sink: &mut K,
    ) -> Result<bool, AllocError> {
        match check_line(&self.check, line) {
            Ok(answer) => {
                out.put(sink, word_line(answer));
                // A digest took longer than a write.
                if answer.is_some() {
                    out.flush(sink);
                }
                Ok(is_match(answer))
            }
            Err(_) => Err(AllocError),
        }
    }

    fn answer_long<K: Sink>(&mut self, out: &mut OutputBuffer, sink: &mut K) -> bool {
        out.put(sink, b"invalid\n");
        false
    }
}

/// Answers the lines of a source of at most `max` bytes by a verdict, and gives the status.
pub fn run_plain<C: PasswordCheck, S: Source, K: Sink>(
    lines: &mut PlainLines<C>,
    source: &mut S,
    sink: &mut K,
    max: u64,
) -> u8
    requires { max ≤ 2 ^ 40 }
    ensures statuses { (result ≤ 6) × (result ≢ 2) }
    ensures read_fault { result ≡ 3 → HasRisen (S.faults source.old) (S.faults source.new) }
    ensures write_fault { result ≡ 4 → HasRisen (K.faults sink.old) (K.faults sink.new) }
    ensures outcome { WhereTold (S.left source.old) (S.left source.new) (K.written sink.old) (K.written sink.new)
        (λ held taken added. Outcome (answer_rules (C.verdict lines.old.check) (C.may_lack lines.old.check)) result max held taken added) }
{
    run_lines(lines, source, sink, max)
}
