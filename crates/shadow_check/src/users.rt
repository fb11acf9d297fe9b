//! The lines of a file of users, each answered by the user and a word.

ghost use Rattle.std.specs.Prelude.{◌≡◌, ◌≢◌, ◌≤◌, ◌^◌, ◌++◌, ◌∷◌, [], IfOk, OnErr, OnOk, false, true};
ghost use Rattle.line_io.specs.Output.{Puts};
ghost use Rattle.line_program.specs.Outcome.{Outcome, RunTold};
ghost use Rattle.shadow_check.specs.Lines.{line_is_good, line_may_lack, line_output};
ghost use Rattle.shadow_check.specs.Users.{user_line_rules};

use crate::lines::AnyLines;
use any_check::SchemeCosts;
use line_io::{OutputBuffer, Sink, Source};
use line_program::{Responder, run_lines};
use shadow_fields::{cut_user, put_user};
use std::alloc::{AllocError, Global};

/// What answers the lines of a file of users, each by itself.
#[derive(Drop)]
pub struct UserLines {
    pub lines: AnyLines,
}

impl UserLines {
    // Puts a user and the word of what stands behind the colon; or memory is wanting, and nothing is put.
    #[inline(always)]
    fn answer_user<K: Sink>(
        &self,
        user: &[u8],
        rest: &[u8],
        out: &mut OutputBuffer,
        sink: &mut K,
    ) -> Result<bool, AllocError>
        ensures good { IfOk result (λ good. good ≡ line_is_good self.now.lines.check.limits rest.now) }
        ensures reply { OnOk result (Puts (K.written sink.old) (K.written sink.new) (K.faults sink.old) (K.faults sink.new) out.old out.new
            (user.now ++ 9 ∷ line_output self.now.lines.check.limits rest.now)) }
        ensures wants { OnErr result (line_may_lack self.now.lines.check.limits rest.now ≡ true) }
        ensures nothing { OnErr result (Puts (K.written sink.old) (K.written sink.new) (K.faults sink.old) (K.faults sink.new) out.old out.new []) }
    {
        match self.lines.known_answer(rest) {
            Some(answer) => {
                put_user(out, sink, user, answer.word());
                let good = answer.is_match();
                // A digest took longer than a write.
                if answer.has_verdict() {
                    out.flush(sink);
                }
                Ok(good)
            }
            None => Err(AllocError),
        }
    }
}

impl Responder for UserLines {
    ghost use Rattle.shadow_check.specs.UserRules.{user_state_rules};

    ghost rules = { user_state_rules };

    fn answer<K: Sink>(
        &mut self,
        line: &[u8],
        out: &mut OutputBuffer,
        sink: &mut K,
    ) -> Result<bool, AllocError> {
        match cut_user(line) {
            Some((user, rest)) => self.answer_user(user, rest, out, sink),
            None => {
                out.put(sink, b"badline\n");
                Ok(false)
            }
        }
    }

    fn answer_long<K: Sink>(&mut self, out: &mut OutputBuffer, sink: &mut K) -> bool {
        out.put(sink, b"toolong\n");
        false
    }
}

/// Answers each line of a source of at most `max` bytes with its user and its word, and gives the status.
///
/// A line is a user, a colon, and a line as [`run_any`](crate::run_any) reads it: a password, a tab and a stored text. The user is
/// kept, with a tab before the word. A line without a colon, or with a tab before the first colon, has no user and is
/// answered by `badline` alone, one of more than 8,192 bytes by `toolong` alone. Statuses and memory are those of `run_any`.
pub fn run_users<S: Source, K: Sink>(
    alloc: Global,
    limits: Option<SchemeCosts>,
    source: &mut S,
    sink: &mut K,
    max: u64,
) -> u8
    requires bound { max ≤ 2 ^ 40 }
    ensures told { RunTold S.left S.faults source.old source.new K.written K.faults sink.old sink.new result
        (λ held taken added. Outcome (user_line_rules limits) result max held taken added) }
{
    let mut users = UserLines {
        lines: AnyLines::new(alloc, limits),
    };
    run_lines(&mut users, source, sink, max)
}
