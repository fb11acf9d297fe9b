//! Runs over one file.

ghost use Rattle.std.specs.Prelude.{◌≡◌, ◌≢◌, ◌≤◌, ◌^◌};
ghost use Rattle.line_program.specs.Outcome.{EndedOutcome, Outcome, RunTold};
ghost use Rattle.shadow_survey.specs.Rules.{survey_ending, survey_rules};
ghost use Rattle.foreign_lines.specs.Rules.{foreign_state};
ghost use Rattle.foreign_lines.specs.Runs.{foreign_rules, foreign_user_rules};

use crate::lines::ForeignLines;
use crate::parts::LineForm;
use any_check::SchemeCosts;
use application_texts::Maker;
use line_io::{Sink, Source};
use line_program::{run_ended, run_lines};
use shadow_check::{AnyLines, UserLines};
use shadow_survey::SurveyLines;
use std::alloc::Global;

/// Answers each line of a source of at most `max` bytes with its word, and gives the status.
///
/// A line is a password, a tab and a stored text in a foreign spelling. Where the text isn't converted, the word of the
/// cause (`ForeignFault::word`) is written; else the answer is that of `shadow_check::run_any` to the line with the stored
/// text. Statuses and memory are those of `run_any`.
pub fn run_foreign<S: Source, K: Sink>(
    alloc: Global,
    foreign: Maker,
    limits: Option<SchemeCosts>,
    source: &mut S,
    sink: &mut K,
    max: u64,
) -> u8
    requires bound { max ≤ 2 ^ 40 }
    ensures told { RunTold S.left S.faults source.old source.new K.written K.faults sink.old sink.new result
        (λ held taken added. Outcome (foreign_rules foreign limits) result max held taken added) }
{
    let mut lines = ForeignLines {
        foreign,
        form: LineForm::Password,
        inner: AnyLines::new(alloc, limits),
    };
    run_lines(&mut lines, source, sink, max)
}

/// The same of lines that begin with a user and a colon: the user and a tab stand before each word, as
/// `shadow_check::run_users` has it.
pub fn run_foreign_users<S: Source, K: Sink>(
    alloc: Global,
    foreign: Maker,
    limits: Option<SchemeCosts>,
    source: &mut S,
    sink: &mut K,
    max: u64,
) -> u8
    requires bound { max ≤ 2 ^ 40 }
    ensures told { RunTold S.left S.faults source.old source.new K.written K.faults sink.old sink.new result
        (λ held taken added. Outcome (foreign_user_rules foreign limits) result max held taken added) }
{
    let mut lines = ForeignLines {
        foreign,
        form: LineForm::UserPassword,
        inner: UserLines {
            lines: AnyLines::new(alloc, limits),
        },
    };
    run_lines(&mut lines, source, sink, max)
}

/// Writes the row of `shadow_survey::run_survey` for each line of a source of at most `max` bytes, with its stored text
/// converted, and what that writes before the rows and after them. A text that isn't converted is unsupported, by the form
/// that its cause's word has. Statuses are those of `run_survey`; no memory is taken.
pub fn run_foreign_survey<S: Source, K: Sink>(
    lines: &mut ForeignLines<SurveyLines>,
    source: &mut S,
    sink: &mut K,
    max: u64,
) -> u8
    requires bound { max ≤ 2 ^ 40 }
    ensures told { RunTold S.left S.faults source.old source.new K.written K.faults sink.old sink.new result
        (λ held taken added. EndedOutcome
        (foreign_state (λ s. s.foreign) (λ s. s.form) (λ s. s.inner) (λ s i. record s { inner = i }) survey_rules)
        (λ s. survey_ending s.inner) lines.old result max held taken added) }
{
    run_ended(lines, source, sink, max)
}
