//! The lines of a password file, each answered by its word.

ghost use Rattle.std.specs.Prelude.{◌≡◌, ◌≢◌, ◌≤◌, ◌^◌, ◌++◌, ◌∷◌, [], Err, MatchOption, codes, length, true};
ghost use Rattle.line_io.specs.Output.{Puts};
ghost use Rattle.line_program.specs.Outcome.{Outcome, RunTold};
ghost use Rattle.stored_check.specs.declared.error.StoredError.TheVariants.{OutOfMemory};
ghost use Rattle.shadow_check.specs.Lines.{IsLineAnswer, IsTextAnswer, answer_word, any_line_rules, has_verdict, is_match, line_answer, line_may_lack};

use any_check::{AnyCheck, AnyError, SchemeCosts, any_word};
use line_io::{LINE_MAX, OutputBuffer, Sink, Source};
use line_program::{Responder, cut_at_last_tab, run_lines};
use pieces::text::text_of;
use std::alloc::{AllocError, Global};
use stored_check::StoredError;

/// What a line is answered with.
#[derive(Clone, Copy, Debug, PartialEq, Eq)]
pub enum LineAnswer {
    /// The line has more than 8,192 bytes.
    TooLong,
    /// The line isn't UTF-8, or it has no tab.
    BadLine,
    /// The answer for the password and the stored text of the line.
    Checked(Result<bool, AnyError>),
}

impl LineAnswer {
    /// The word. Want of memory has none.
    #[inline(always)]
    pub fn word(&self) -> &'static str
        requires known { self.now ≢ LineAnswer.Checked (Err (AnyError.Stored OutOfMemory)) }
        ensures word { result.now ≡ answer_word self.now }
    {
        match self {
            LineAnswer::TooLong => "toolong",
            LineAnswer::BadLine => "badline",
            LineAnswer::Checked(answer) => any_word(answer),
        }
    }

    /// Whether this is a match.
    #[inline(always)]
    pub fn is_match(&self) -> bool
        ensures matches { result ≡ is_match self.now }
    {
        matches!(self, LineAnswer::Checked(Ok(true)))
    }

    /// Whether this is a match or a mismatch.
    #[inline(always)]
    pub fn has_verdict(&self) -> bool
        ensures verdict { result ≡ has_verdict self.now }
    {
        matches!(self, LineAnswer::Checked(Ok(_)))
    }
}

// Puts the word of an answer and a line feed.
#[inline(always)]
fn put_word<K: Sink>(out: &mut OutputBuffer, sink: &mut K, answer: &LineAnswer)
    requires known { answer.now ≢ LineAnswer.Checked (Err (AnyError.Stored OutOfMemory)) }
    ensures puts { Puts (K.written sink.old) (K.written sink.new) (K.faults sink.old) (K.faults sink.new) out.old out.new
        (answer_word answer.now ++ 10 ∷ []) }
{
    out.put_line(sink, answer.word().as_bytes());
}

/// What answers the lines of a password file, each by itself.
#[derive(Drop)]
pub struct AnyLines {
    pub check: AnyCheck,
}

impl AnyLines {
    /// Lines under a bound on cost, or under none. No table is kept yet.
    pub fn new(alloc: Global, limits: Option<SchemeCosts>) -> AnyLines
        ensures limits { result.check.limits ≡ limits }
    {
        AnyLines {
            check: AnyCheck::new(alloc, limits),
        }
    }

    #[inline(always)]
    fn answer_to_text(&self, text: &str) -> LineAnswer
        ensures answer { IsTextAnswer self.now.check.limits text.now result }
    {
        match cut_at_last_tab(text) {
            Some((password, stored)) => LineAnswer::Checked(self.check.verdict(password, stored)),
            None => LineAnswer::BadLine,
        }
    }

    #[tactic(auto, unfolding(crate::specs::Lines::line_answer, crate::specs::Lines::line_may_lack))]
    #[inline(always)]
    fn answer_to(&self, line: &[u8]) -> LineAnswer
        ensures answer { IsLineAnswer self.now.check.limits line.now result }
    {
        if line.len() > LINE_MAX {
            return LineAnswer::TooLong;
        }
        match text_of(line) {
            Some(text) => self.answer_to_text(text),
            None => LineAnswer::BadLine,
        }
    }

    /// The answer of a line; none where memory is wanting.
    #[inline(always)]
    pub fn known_answer(&self, line: &[u8]) -> Option<LineAnswer>
        ensures answered { MatchOption result (line_may_lack self.now.check.limits line.now ≡ true)
            (λ a. (a ≢ LineAnswer.Checked (Err (AnyError.Stored OutOfMemory))) × (a ≡ line_answer self.now.check.limits line.now)) }
    {
        let answer = self.answer_to(line);
        if answer == LineAnswer::Checked(Err(AnyError::Stored(StoredError::OutOfMemory))) {
            return None;
        }
        Some(answer)
    }
}

impl Responder for AnyLines {
    ghost use Rattle.shadow_check.specs.LineRules.{any_state_rules};

    ghost rules = { any_state_rules };

    fn answer<K: Sink>(
        &mut self,
        line: &[u8],
        out: &mut OutputBuffer,
        sink: &mut K,
    ) -> Result<bool, AllocError> {
        match self.known_answer(line) {
            Some(answer) => {
                put_word(out, sink, &answer);
                let good = answer.is_match();
                // A digest took longer than a write.
                if answer.has_verdict() {
                    out.flush(sink);
                }
                Ok(good)
            }
            None => Err(AllocError),
        }
    }

    fn answer_long<K: Sink>(&mut self, out: &mut OutputBuffer, sink: &mut K) -> bool {
        out.put(sink, b"toolong\n");
        false
    }
}

/// Answers each line of a source of at most `max` bytes with its word, and gives the status.
///
/// A line is a password, a tab and a stored text. Statuses: 0 each line matches, 1 some line does not, 3 a read failed, 4
/// a write failed, 5 memory was wanting, 6 the source holds more than `max` bytes. Only the keys of scrypt, Argon2 and
/// yescrypt take memory: the largest table of each so far is kept until the run ends.
pub fn run_any<S: Source, K: Sink>(
    alloc: Global,
    limits: Option<SchemeCosts>,
    source: &mut S,
    sink: &mut K,
    max: u64,
) -> u8
    requires bound { max ≤ 2 ^ 40 }
    ensures told { RunTold S.left S.faults source.old source.new K.written K.faults sink.old sink.new result
        (λ held taken added. Outcome (any_line_rules limits) result max held taken added) }
{
    let mut lines = AnyLines::new(alloc, limits);
    run_lines(&mut lines, source, sink, max)
}
