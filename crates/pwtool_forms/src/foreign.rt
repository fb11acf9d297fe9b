//! The forms over foreign texts without their command line: what the theorem is about.

ghost use Rattle.std.specs.Prelude.{◌≡◌, ◌≢◌, ◌≤◌, ◌^◌, IfSome, Ok, Err};
ghost use Rattle.line_io.specs.Devices.{WhereTold};
ghost use Rattle.line_program.specs.Outcome.{EndedOutcome, Outcome, RunTold};
ghost use Rattle.pieces.specs.FaultCounts.{HasRisen};
ghost use Rattle.shadow_survey.specs.Rules.{survey_ending, survey_rules};
ghost use Rattle.shadow_check.specs.FewerOutcome.{FewerOutcome, fewer_status};
ghost use Rattle.shadow_check.specs.JoinOutcome.{JoinOutcome, status_of};
ghost use Rattle.foreign_lines.specs.Rules.{foreign_state};
ghost use Rattle.foreign_lines.specs.Runs.{foreign_joined_rules, foreign_rules, foreign_user_rules};

use any_check::SchemeCosts;
use application_texts::Maker;
use foreign_lines::{
    ForeignJoin, ForeignLines, run_foreign, run_foreign_survey, run_foreign_users,
};
use line_io::{INPUT_MAX, Sink, Source};
use shadow_check::{JoinEnd, run_join, run_join_fewer};
use shadow_survey::SurveyLines;
use std::alloc::Global;
use std::hash::RandomState;

/// Answers each line of a source of at most 2^40 bytes, whose stored text is in a foreign spelling, with its word, and gives
/// the status.
///
/// Answers, statuses and memory are those of [`run_foreign`].
pub fn check_foreign<S: Source, K: Sink>(
    alloc: Global,
    foreign: Maker,
    limits: Option<SchemeCosts>,
    source: &mut S,
    sink: &mut K,
) -> u8
    ensures told { RunTold S.left S.faults source.old source.new K.written K.faults sink.old sink.new result
        (λ held taken added. Outcome (foreign_rules foreign limits) result (2 ^ 40) held taken added) }
{
    run_foreign(alloc, foreign, limits, source, sink, INPUT_MAX)
}

/// The same of lines that begin with a user and a colon. Statuses and memory are those of [`run_foreign_users`].
pub fn check_foreign_users<S: Source, K: Sink>(
    alloc: Global,
    foreign: Maker,
    limits: Option<SchemeCosts>,
    source: &mut S,
    sink: &mut K,
) -> u8
    ensures told { RunTold S.left S.faults source.old source.new K.written K.faults sink.old sink.new result
        (λ held taken added. Outcome (foreign_user_rules foreign limits) result (2 ^ 40) held taken added) }
{
    run_foreign_users(alloc, foreign, limits, source, sink, INPUT_MAX)
}

/// Writes a row for each line of a source of at most 2^40 bytes, whose stored text is in a foreign spelling, and what a survey
/// writes before them and after them. Statuses are those of [`run_foreign_survey`]; no memory is taken.
pub fn survey_foreign<S: Source, K: Sink>(
    lines: &mut ForeignLines<SurveyLines>,
    source: &mut S,
    sink: &mut K,
) -> u8
    ensures told { RunTold S.left S.faults source.old source.new K.written K.faults sink.old sink.new result
        (λ held taken added. EndedOutcome
        (foreign_state (λ s. s.foreign) (λ s. s.form) (λ s. s.inner) (λ s i. record s { inner = i }) survey_rules)
        (λ s. survey_ending s.inner) lines.old result (2 ^ 40) held taken added) }
{
    run_foreign_survey(lines, source, sink, INPUT_MAX)
}

/// Answers each user of a file of foreign texts by the user's password in another file, each of at most 2^40 bytes.
///
/// Answers, statuses and memory are those of [`run_join`] by [`ForeignJoin`].
pub fn join_foreign<P: Source, T: Source, K: Sink>(
    alloc: Global,
    keys: RandomState,
    foreign: Maker,
    limits: Option<SchemeCosts>,
    passwords: &mut P,
    texts: &mut T,
    sink: &mut K,
) -> JoinEnd
    ensures statuses { (status_of result ≤ 6) × (status_of result ≢ 2) }
    ensures passwords_fault { result ≡ JoinEnd.Passwords 3 → HasRisen (P.faults passwords.old) (P.faults passwords.new) }
    ensures texts_fault { result ≡ JoinEnd.Texts 3 → HasRisen (T.faults texts.old) (T.faults texts.new) }
    ensures write_fault { status_of result ≡ 4 → HasRisen (K.faults sink.old) (K.faults sink.new) }
    ensures outcome { IfSome (P.left passwords.old) (λ given.
        WhereTold (T.left texts.old) (T.left texts.new) (K.written sink.old) (K.written sink.new)
        (λ held taken added. JoinOutcome (foreign_joined_rules foreign limits) result (2 ^ 40) given held taken added)) }
{
    let joining = ForeignJoin {
        alloc,
        foreign,
        limits,
    };
    run_join(alloc, keys, &joining, passwords, texts, sink, INPUT_MAX)
}

/// The same, reading the texts first for their users, as [`run_join_fewer`] does.
pub fn join_foreign_fewer<U: Source, P: Source, T: Source, K: Sink>(
    alloc: Global,
    keys: RandomState,
    foreign: Maker,
    limits: Option<SchemeCosts>,
    users: &mut U,
    passwords: &mut P,
    texts: &mut T,
    sink: &mut K,
) -> Result<JoinEnd, u8>
    ensures statuses { (fewer_status result ≤ 6) × (fewer_status result ≢ 2) }
    ensures users_fault { result ≡ Err 3 → HasRisen (U.faults users.old) (U.faults users.new) }
    ensures passwords_fault { result ≡ Ok (JoinEnd.Passwords 3) → HasRisen (P.faults passwords.old) (P.faults passwords.new) }
    ensures texts_fault { result ≡ Ok (JoinEnd.Texts 3) → HasRisen (T.faults texts.old) (T.faults texts.new) }
    ensures write_fault { fewer_status result ≡ 4 → HasRisen (K.faults sink.old) (K.faults sink.new) }
    ensures outcome { IfSome (U.left users.old) (λ first. IfSome (P.left passwords.old) (λ given.
        WhereTold (T.left texts.old) (T.left texts.new) (K.written sink.old) (K.written sink.new)
        (λ held taken added. FewerOutcome (foreign_joined_rules foreign limits) result (2 ^ 40) first given held taken added))) }
{
    let joining = ForeignJoin {
        alloc,
        foreign,
        limits,
    };
    run_join_fewer(
        alloc, keys, &joining, users, passwords, texts, sink, INPUT_MAX,
    )
}
