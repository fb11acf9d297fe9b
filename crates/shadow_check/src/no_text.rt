//! The users of a file of passwords who have no text in another file.

ghost use Rattle.std.specs.Prelude.{◌≡◌, ◌≢◌, ◌≤◌, ◌^◌, IfSome};
ghost use Rattle.line_io.specs.Devices.{WhereTold};
ghost use Rattle.line_io.specs.Output.{Puts};
ghost use Rattle.line_program.specs.Outcome.{Outcome, RunTold};
ghost use Rattle.pieces.specs.FaultCounts.{HasRisen};
ghost use Rattle.shadow_fields.specs.Wanted.{is_in};
ghost use Rattle.shadow_check.specs.JoinOutcome.{status_of};
ghost use Rattle.shadow_check.specs.NoText.{NoTextOutcome, left_output, no_text_rules};

use crate::JoinEnd;
use line_io::{OutputBuffer, Sink, Source};
use line_program::status::SOME_OTHER;
use line_program::{Responder, run_lines};
use shadow_fields::{Loading, Passwords, cut_user, load_passwords, put_user};
use std::alloc::{AllocError, Global};
use std::hash::RandomState;

/// What answers the lines of a file of passwords, each by whether its user is in a table.
#[derive(Drop)]
pub struct NoTextLines {
    pub users: Passwords,
}

impl NoTextLines {
    // Puts a user who has no text, and tells whether there is one.
    fn answer_user<K: Sink>(&self, user: &[u8], out: &mut OutputBuffer, sink: &mut K) -> bool
        ensures good { result ≡ is_in self.now.users user.now }
        ensures reply { Puts (K.written sink.old) (K.written sink.new) (K.faults sink.old) (K.faults sink.new) out.old out.new
            (left_output (is_in self.now.users user.now) user.now) }
    {
        let has_text = self.users.has(user);
        if !has_text {
            put_user(out, sink, user, "no-text");
        }
        has_text
    }
}

impl Responder for NoTextLines {
    ghost use Rattle.shadow_check.specs.NoTextRules.{no_text_state_rules};

    ghost rules = { no_text_state_rules };

    fn answer<K: Sink>(
        &mut self,
        line: &[u8],
        out: &mut OutputBuffer,
        sink: &mut K,
    ) -> Result<bool, AllocError> {
        match cut_user(line) {
            Some((user, _)) => Ok(self.answer_user(user, out, sink)),
            None => {
                out.put(sink, b"badline\n");
                Ok(false)
            }
        }
    }

    fn answer_long<K: Sink>(&mut self, out: &mut OutputBuffer, sink: &mut K) -> bool {
        out.put(sink, b"toolong\n");
        false
    }
}

// Answers the lines of passwords by a table of users.
fn tell_users<P: Source, K: Sink>(users: Passwords, passwords: &mut P, sink: &mut K, max: u64) -> u8
    requires bound { max ≤ 2 ^ 40 }
    ensures told { RunTold P.left P.faults passwords.old passwords.new K.written K.faults sink.old sink.new result
        (λ held taken added. Outcome (no_text_rules (is_in users)) result max held taken added) }
{
    let mut lines = NoTextLines { users };
    run_lines(&mut lines, passwords, sink, max)
}

/// Tells each line of `passwords` whose user has no line in `texts`, and where it ended: at the texts, which are read first,
/// or at the passwords. Each source has at most `max` bytes.
///
/// The answer is the user, a tab and `no-text`; nothing is written for a user who has a text, be it empty or locked. A line
/// without a user is answered by `badline` alone, one of more than 8,192 bytes by `toolong` alone. No password is checked.
/// Status 0: each line is of a user who has a text; 1: some other line; the others are those of
/// [`run_join`](crate::run_join). The users of the texts with all that follows them are kept in memory.
pub fn run_no_text<P: Source, T: Source, K: Sink>(
    alloc: Global,
    keys: RandomState,
    texts: &mut T,
    passwords: &mut P,
    sink: &mut K,
    max: u64,
) -> JoinEnd
    requires bound { max ≤ 2 ^ 40 }
    ensures statuses { (status_of result ≤ 6) × (status_of result ≢ 2) }
    ensures texts_fault { result ≡ JoinEnd.Texts 3 → HasRisen (T.faults texts.old) (T.faults texts.new) }
    ensures passwords_fault { result ≡ JoinEnd.Passwords 3 → HasRisen (P.faults passwords.old) (P.faults passwords.new) }
    ensures write_fault { status_of result ≡ 4 → HasRisen (K.faults sink.old) (K.faults sink.new) }
    ensures outcome { IfSome (T.left texts.old) (λ given.
        WhereTold (P.left passwords.old) (P.left passwords.new) (K.written sink.old) (K.written sink.new)
        (λ held taken added. NoTextOutcome result max given held taken added)) }
{
    let mut loading = Loading {
        passwords: Passwords::new(alloc, keys),
    };
    let status = load_passwords(&mut loading, texts, sink, max);
    if status > SOME_OTHER {
        return JoinEnd::Texts(status);
    }
    JoinEnd::Passwords(tell_users(loading.passwords, passwords, sink, max))
}
