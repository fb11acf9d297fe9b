//! The form `check` without its command line: what the theorem is about.

ghost use Rattle.std.specs.Prelude.{◌≡◌, ◌≢◌, ◌≤◌, ◌^◌};
ghost use Rattle.line_program.specs.Outcome.{Outcome, RunTold};
ghost use Rattle.shadow_check.specs.Lines.{any_line_rules};
ghost use Rattle.shadow_check.specs.Users.{user_line_rules};

use any_check::SchemeCosts;
use line_io::{INPUT_MAX, Sink, Source};
use shadow_check::{run_any, run_users};
use std::alloc::Global;

/// Answers each line of a source of at most 2^40 bytes with its word, and gives the status.
///
/// A line is a password, a tab and a stored text. Where there is a bound, a valid text whose cost is above it is answered by
/// `too-costly`. Statuses and memory are those of [`run_any`].
pub fn check_lines<S: Source, K: Sink>(
    alloc: Global,
    limits: Option<SchemeCosts>,
    source: &mut S,
    sink: &mut K,
) -> u8
    ensures told { RunTold S.left S.faults source.old source.new K.written K.faults sink.old sink.new result
        (λ held taken added. Outcome (any_line_rules limits) result (2 ^ 40) held taken added) }
{
    run_any(alloc, limits, source, sink, INPUT_MAX)
}

/// The same of lines that begin with a user and a colon: the user and a tab stand before each word. Statuses and memory are
/// those of [`run_users`].
pub fn check_users<S: Source, K: Sink>(
    alloc: Global,
    limits: Option<SchemeCosts>,
    source: &mut S,
    sink: &mut K,
) -> u8
    ensures told { RunTold S.left S.faults source.old source.new K.written K.faults sink.old sink.new result
        (λ held taken added. Outcome (user_line_rules limits) result (2 ^ 40) held taken added) }
{
    run_users(alloc, limits, source, sink, INPUT_MAX)
}
