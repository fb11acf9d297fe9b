//! The users of one file, answered by the passwords of another.

ghost use Rattle.std.specs.Prelude.{◌≡◌, ◌≢◌, ◌≤◌, ◌^◌, IfSome, List, Option, ℕ};
ghost use Rattle.line_io.specs.Devices.{WhereTold};
ghost use Rattle.pieces.specs.FaultCounts.{HasRisen};
ghost use Rattle.line_program.specs.Outcome.{Outcome, RunTold};
ghost use Rattle.line_program.specs.Rules.{LineRules};
ghost use Rattle.shadow_fields.specs.Passwords.{password_in};
ghost use Rattle.shadow_check.specs.JoinOutcome.{JoinOutcome, status_of};

use crate::joined::JoinedLines;
use any_check::{AnyCheck, SchemeCosts};
use line_io::{Sink, Source};
use line_program::run_lines;
use line_program::status::SOME_OTHER;
use shadow_fields::{Loading, Passwords, load_passwords};
use std::alloc::Global;
use std::hash::RandomState;

/// At which of its files a run ended, and its status.
#[derive(Clone, Copy, Debug, PartialEq, Eq)]
pub enum JoinEnd {
    /// At the passwords.
    Passwords(u8),
    /// At the texts.
    Texts(u8),
}

/// What answers the lines of texts by a table of passwords.
pub trait Joining {
    /// The rules of a run, by what finds the password of a user.
    ghost join_rules: { Self → (List ℕ → Option (List ℕ)) → LineRules };

    /// Answers each line of a source of at most `max` bytes by the passwords in a table, and gives the status of
    /// `line_program::run_lines`.
    fn join_texts<T: Source, K: Sink>(
        &self,
        passwords: Passwords,
        texts: &mut T,
        sink: &mut K,
        max: u64,
    ) -> u8
        requires bound { max ≤ 2 ^ 40 }
        ensures told { RunTold T.left T.faults texts.old texts.new K.written K.faults sink.old sink.new result
            (λ held taken added. Outcome (join_rules self.now (password_in passwords)) result max held taken added) };
}

/// Stored texts, answered by the verdicts of `any_check`, under a bound on cost or under none.
#[derive(Clone, Copy, Debug)]
pub struct TextJoin {
    pub alloc: Global,
    pub limits: Option<SchemeCosts>,
}

impl Joining for TextJoin {
    ghost use Rattle.shadow_check.specs.Join.{joined_rules};

    ghost join_rules = { λ join. joined_rules join.limits };

    fn join_texts<T: Source, K: Sink>(
        &self,
        passwords: Passwords,
        texts: &mut T,
        sink: &mut K,
        max: u64,
    ) -> u8 {
        let mut joined = JoinedLines {
            check: AnyCheck::new(self.alloc, self.limits),
            passwords,
        };
        run_lines(&mut joined, texts, sink, max)
    }
}

/// Answers each line of `texts` by the user's password in `passwords`, and tells where it ended: at the passwords, which are
/// read first, where they weren't read to their end, or at the texts. Each source has at most `max` bytes.
///
/// By [`TextJoin`] a line of texts is a user, a colon and a stored text, which ends at the next colon or with the line. The
/// answer is the user, a tab and a word: `empty`, `locked` for a text that begins with `*` or `!`, `no-password` for a user
/// without one, `badline` where the password or the text isn't UTF-8, else the word of `any_check`. A line without a user is
/// answered by `badline` alone, one of more than 8,192 bytes by `toolong` alone. Passwords are taken as
/// `shadow_fields::load_passwords` does; all of them are kept in memory until the run ends, beside what the verdicts take.
/// The statuses are those of [`run_any`](crate::run_any).
pub fn run_join<J: Joining, P: Source, T: Source, K: Sink>(
    alloc: Global,
    keys: RandomState,
    joining: &J,
    passwords: &mut P,
    texts: &mut T,
    sink: &mut K,
    max: u64,
) -> JoinEnd
    requires bound { max ≤ 2 ^ 40 }
    ensures statuses { (status_of result ≤ 6) × (status_of result ≢ 2) }

    // A fault is answered only where the count of that device rose in this call.
    ensures passwords_fault { result ≡ JoinEnd.Passwords 3 → HasRisen (P.faults passwords.old) (P.faults passwords.new) }
    ensures texts_fault { result ≡ JoinEnd.Texts 3 → HasRisen (T.faults texts.old) (T.faults texts.new) }
    ensures write_fault { status_of result ≡ 4 → HasRisen (K.faults sink.old) (K.faults sink.new) }

    // What was taken and written.
    ensures outcome { IfSome (P.left passwords.old) (λ given.
        WhereTold (T.left texts.old) (T.left texts.new) (K.written sink.old) (K.written sink.new)
        (λ held taken added. JoinOutcome (J.join_rules joining.now) result max given held taken added)) }
{
    let mut loading = Loading {
        passwords: Passwords::new(alloc, keys),
    };
    let status = load_passwords(&mut loading, passwords, sink, max);
    if status > SOME_OTHER {
        return JoinEnd::Passwords(status);
    }
    JoinEnd::Texts(joining.join_texts(loading.passwords, texts, sink, max))
}
