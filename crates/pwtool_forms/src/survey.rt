//! The form `survey` without its command line: what the theorem is about.

ghost use Rattle.std.specs.Prelude.{◌≡◌, ◌≢◌, ◌≤◌, ◌^◌};
ghost use Rattle.line_program.specs.Outcome.{EndedOutcome, RunTold};
ghost use Rattle.shadow_survey.specs.Rules.{survey_ending, survey_rules};

use line_io::{INPUT_MAX, Sink, Source};
use shadow_survey::{SurveyLines, run_survey};

/// Writes a row for each line of a source of at most 2^40 bytes: in CSV after the names of the columns, and in the form for
/// people how many there are of each judgement after them. Statuses are those of [`run_survey`]; no memory is taken.
pub fn survey_lines<S: Source, K: Sink>(lines: &mut SurveyLines, source: &mut S, sink: &mut K) -> u8
    ensures told { RunTold S.left S.faults source.old source.new K.written K.faults sink.old sink.new result
        (λ held taken added. EndedOutcome survey_rules survey_ending lines.old result (2 ^ 40) held
        taken added) }
{
    run_survey(lines, source, sink, INPUT_MAX)
}
