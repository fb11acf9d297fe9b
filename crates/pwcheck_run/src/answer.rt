//! The answer of a line.

ghost use Rattle.std.specs.Prelude.{◌≡◌, ◌≢◌, ◌+◌, ◌^◌, ◌≤◌, Err, length, true};
ghost use Rattle.line_io.specs.Limits.{line_max};
ghost use Rattle.pwcheck_run.specs.Answer.{IsAnswer, IsTextAnswer, answer_word, has_verdict, is_match, line_comparisons, line_looks};

use crate::verdict_word::word;
use base64ct::Counts;
use line_program::cut_at_last_tab;
use pieces::text::text_of;
use scrypt_plain::ScryptKept;
use std::alloc::Global;
use stored_check::{StoredError, check_stored_counted};

/// What a line is answered with.
#[derive(Clone, Copy, Debug, PartialEq, Eq)]
pub enum Answer {
    /// The line has more than 8,192 bytes. Such a line is dropped before it is looked at.
    TooLong,
    /// The line isn't UTF-8, or it has no tab.
    BadLine,
    /// What `check_stored` answers for the password and the stored text of the line.
    Checked(Result<bool, StoredError>),
}

impl Answer {
    /// The word.
    pub fn word(&self) -> &'static str
        requires known { self.now ≢ Answer.Checked (Err StoredError.OutOfMemory) }
        ensures word { result.now ≡ answer_word self.now }
        ensures short { length result.now ≤ 17 }
    {
        match self {
            Answer::TooLong => "toolong",
            Answer::BadLine => "badline",
            Answer::Checked(answer) => word(answer),
        }
    }

    /// Whether this is a match.
    pub fn is_match(&self) -> bool
        ensures matches { result ≡ is_match self.now }
    {
        matches!(self, Answer::Checked(Ok(true)))
    }

    /// Whether this is a match or a mismatch.
    pub fn has_verdict(&self) -> bool
        ensures verdict { result ≡ has_verdict self.now }
    {
        matches!(self, Answer::Checked(Ok(_)))
    }
}

// The answer of a line that is text.
fn answer_to_text(alloc: Global, kdf: &ScryptKept, text: &str, counts: &mut Counts) -> Answer
    requires looks { counts.old.looks ≤ 2 ^ 62 }
    requires sames { counts.old.sames ≤ 2 ^ 62 }
    ensures answer { IsTextAnswer text.now result }
    ensures looks { has_verdict result ≡ true → counts.new.looks ≡ counts.old.looks + line_looks text.now }
    ensures sames { has_verdict result ≡ true → counts.new.sames ≡ counts.old.sames + line_comparisons text.now }
{
    match cut_at_last_tab(text) {
        Some((password, stored)) => {
            Answer::Checked(check_stored_counted(alloc, kdf, password, stored, counts))
        }
        None => Answer::BadLine,
    }
}

/// The answer of a line of at most 8,192 bytes, with its look-ups and comparisons counted.
#[tactic(auto, unfolding(crate::specs::Answer::answer, crate::specs::Answer::line_may_lack))]
pub fn answer_to(alloc: Global, kdf: &ScryptKept, line: &[u8], counts: &mut Counts) -> Answer
    requires short { length line.now ≤ line_max }
    requires looks { counts.old.looks ≤ 2 ^ 62 }
    requires sames { counts.old.sames ≤ 2 ^ 62 }
    ensures answer { IsAnswer line.now result }
    ensures looks { has_verdict result ≡ true → counts.new.looks ≡ counts.old.looks + line_looks line.now }
    ensures sames { has_verdict result ≡ true → counts.new.sames ≡ counts.old.sames + line_comparisons line.now }
{
    match text_of(line) {
        Some(text) => answer_to_text(alloc, kdf, text, counts),
        None => Answer::BadLine,
    }
}
