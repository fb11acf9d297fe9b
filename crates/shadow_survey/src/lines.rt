//! The lines of a survey, and how many of each judgement there are.

ghost use Rattle.std.specs.Prelude.{◌≡◌, ◌≢◌, ◌≤◌, ◌<◌, ◌^◌, ◌++◌, ◌∷◌, ◌&&◌, [], List, ℕ, decimal, false, true, length, replicate, slice_index, take, IfNone, IfSome};
ghost use Rattle.pieces.specs.Places.{LacksBelow};
ghost use Rattle.std.specs.List.{list_all};
ghost use Rattle.std.specs.Str.{is_utf8};
ghost use Rattle.line_io.specs.Output.{Puts};
ghost use Rattle.line_program.specs.Outcome.{EndedOutcome, RunTold};
ghost use Rattle.shadow_survey.specs.Counting.{counted, kind_of, no_counts};
ghost use Rattle.shadow_survey.specs.Judgements.{judged};
ghost use Rattle.shadow_survey.specs.Rows.{front_text, is_good, is_plain, row_text, surveyed};
ghost use Rattle.shadow_survey.specs.Rules.{survey_ending, survey_rules};

use crate::cells::Format;
use crate::counts::Counts;
use crate::judgement::{Judgement, judged};
use crate::least::LeastCosts;
use crate::rows::{are_plain, is_good, is_plain, put_counts, put_front, put_row};
use line_io::{OutputBuffer, Sink, Source};
use line_program::{Ending, Responder, run_ended};
use pieces::text::text_of;
use shadow_fields::{cut_field, cut_user};
use std::alloc::AllocError;

/// What answers the lines of a shadow or htpasswd file by what their texts are, and counts the judgements.
#[derive(Drop)]
pub struct SurveyLines {
    pub least: LeastCosts,
    pub format: Format,
    pub counts: Counts,
    /// Whether a line was read, so that what is before the first row is written.
    pub has_begun: bool,
}

// Whether a text is UTF-8, of which it is known whether each byte is plain.
fn is_name(text: &[u8], all_plain: bool) -> bool
    requires plain { all_plain ≡ list_all is_plain text.now }
    ensures name { result ≡ is_utf8 text.now }
{
    if all_plain {
        return true;
    }
    match text_of(text) {
        Some(_) => true,
        None => false,
    }
}

// The place of the first colon of a line, where each form shows each byte before it as it is; none else.
fn plain_colon(line: &[u8]) -> Option<usize>
    ensures place { IfSome result (λ at. (at < length line.now) × LacksBelow 58 line.now at × (slice_index line.now at ≡ 58)
        × (list_all is_plain (take at line.now) ≡ true)) }
{
    let mut i = 0;
    while i < line.len() {
        let b = line[i];
        if b == b':' {
            return Some(i);
        }
        if !is_plain(b) {
            return None;
        }
        i += 1;
    }
    None
}

// The user and the text of a line whose user each form shows as it is; none of another line.
fn plain_user_and_text(line: &[u8]) -> Option<(&[u8], &[u8])>
    ensures some { IfSome result (λ found. (least : LeastCosts) → surveyed least line.now ≡ (found.0.now, judged least found.1.now)) }
    ensures plain { IfSome result (λ found. list_all is_plain found.0.now ≡ true) }
{
    let at = plain_colon(line)?;
    Some((&line[..at], cut_field(&line[at + 1..])))
}

// The same of any line, and whether each form shows the user as it is; none where it has no user.
fn any_user_and_text(line: &[u8]) -> Option<(&[u8], bool, &[u8])>
    ensures some { IfSome result (λ found. (least : LeastCosts) → surveyed least line.now ≡ (found.0.now, judged least found.2.now)) }
    ensures plain { IfSome result (λ found. found.1 ≡ list_all is_plain found.0.now) }
    ensures none { IfNone result ((least : LeastCosts) → surveyed least line.now ≡ ([], Judgement.BadLine)) }
{
    let (user, rest) = cut_user(line)?;
    let all_plain = are_plain(user);
    if is_name(user, all_plain) {
        Some((user, all_plain, cut_field(rest)))
    } else {
        None
    }
}

// The user and the text of a line, and whether each form shows the user as it is; none where it has no user. Most users are
// seen to be plain in one step with the search of the colon.
fn user_and_text(line: &[u8]) -> Option<(&[u8], bool, &[u8])>
    ensures some { IfSome result (λ found. (least : LeastCosts) → surveyed least line.now ≡ (found.0.now, judged least found.2.now)) }
    ensures plain { IfSome result (λ found. found.1 ≡ list_all is_plain found.0.now) }
    ensures none { IfNone result ((least : LeastCosts) → surveyed least line.now ≡ ([], Judgement.BadLine)) }
{
    match plain_user_and_text(line) {
        Some((user, text)) => Some((user, true, text)),
        None => any_user_and_text(line),
    }
}

impl SurveyLines {
    /// No line was read yet.
    pub fn new(least: LeastCosts, format: Format) -> SurveyLines
        ensures least { result.least ≡ least }
        ensures format { result.format ≡ format }
        ensures counts { result.counts ≡ no_counts }
        ensures none { result.has_begun ≡ false }
    {
        SurveyLines {
            least,
            format,
            counts: Counts::new(),
            has_begun: false,
        }
    }

    // Puts the row of a user and what is before the first row, counts it, and tells whether it is good.
    fn put_counted<K: Sink>(
        &mut self,
        user: &[u8],
        all_plain: bool,
        judgement: &Judgement,
        out: &mut OutputBuffer,
        sink: &mut K,
    ) -> bool
        requires plain { all_plain ≡ list_all is_plain user.now }
        ensures row { Puts (K.written sink.old) (K.written sink.new) (K.faults sink.old) (K.faults sink.new) out.old out.new
            (front_text self.old.has_begun self.old.format ++ row_text self.old.format user.now judgement.now) }
        ensures count { self.new ≡ record self.old { has_begun = true; counts = counted self.old.counts (kind_of judgement.now) } }
        ensures good { result ≡ is_good judgement.now }
    {
        put_front(self.has_begun, self.format, out, sink);
        put_row(self.format, user, all_plain, judgement, out, sink);
        self.has_begun = true;
        self.counts.count(judgement.kind());
        is_good(judgement)
    }
}

impl Responder for SurveyLines {
    ghost use Rattle.shadow_survey.specs.Rules.{survey_rules};

    ghost rules = { survey_rules };

    fn answer<K: Sink>(
        &mut self,
        line: &[u8],
        out: &mut OutputBuffer,
        sink: &mut K,
    ) -> Result<bool, AllocError> {
        match user_and_text(line) {
            Some((user, all_plain, text)) => {
                let judgement = judged(&self.least, text);
                Ok(self.put_counted(user, all_plain, &judgement, out, sink))
            }
            None => Ok(self.put_counted(&[], true, &Judgement::BadLine, out, sink)),
        }
    }

    fn answer_long<K: Sink>(&mut self, out: &mut OutputBuffer, sink: &mut K) -> bool {
        self.put_counted(&[], true, &Judgement::TooLong, out, sink)
    }
}

impl Ending for SurveyLines {
    ghost use Rattle.shadow_survey.specs.Rules.{survey_ending};

    ghost ending = { survey_ending };

    fn put_ending<K: Sink>(&self, out: &mut OutputBuffer, sink: &mut K) {
        put_front(self.has_begun, self.format, out, sink);
        put_counts(self.format, &self.counts, out, sink);
    }
}

/// Writes a row for each line of a source of at most `max` bytes, and gives the status: in CSV the names of the columns before
/// the first row, and in the form for people how many there are of each judgement after the last.
///
/// A line is a user, a colon and a stored text, which ends at the next colon or with the line. Statuses: 0 all accounts are
/// locked or have costs that aren't weak, 1 some other; 3 a read failed, 4 a write failed, 6 the source holds more than
/// `max` bytes. No memory is taken.
pub fn run_survey<S: Source, K: Sink>(
    lines: &mut SurveyLines,
    source: &mut S,
    sink: &mut K,
    max: u64,
) -> u8
    requires bound { max ≤ 2 ^ 40 }
    ensures told { RunTold S.left S.faults source.old source.new K.written K.faults sink.old sink.new result
        (λ held taken added. EndedOutcome survey_rules survey_ending lines.old result max held taken added) }
{
    run_ended(lines, source, sink, max)
}
