//! The forms `check` and `survey` from their command lines on: what of them reaches files and streams.

ghost use Rattle.std.specs.Prelude.{◌≡◌, ◌≢◌, ◌≤◌};

use crate::bounds::{bound_of, least_of};
use crate::brought::{LineStart, brought, brought_texts, tell_met, tell_met_of_texts};
use crate::check::{check_lines, check_users};
use crate::fault::say;
use crate::foreign::{check_foreign, check_foreign_users, survey_foreign};
use crate::from::foreign_of;
use crate::good::{Good, Judging, good_of_check, good_of_survey, survey_status};
use crate::reports::{opened, reporting_of, size_of, summarize, told, watched};
use crate::status::{BAD_WORDS, NO_FILE};
use crate::survey::survey_lines;
use crate::tally::{Noted, Tally};
use clap::ArgMatches;
use foreign_lines::{ForeignLines, LineForm};
use line_io::{Sink, Source, StdSink};
use shadow_survey::{Counts, Format, SurveyLines};
use std::alloc::Global;
use std::io;
use std::io::{Read, Write};

/// What a line asks memory for.
const KEY: &str = "the key of a line";

// Answers all lines of a source, with or without users, in whatever spelling the texts are.
fn answer_given<S: Source, K: Sink>(
    alloc: Global,
    matches: &ArgMatches<'_>,
    source: &mut S,
    sink: &mut K,
) -> u8
    ensures status { (result ≤ 6) × (result ≢ 2) }
{
    let limits = bound_of(matches);
    match (foreign_of(matches), matches.get_flag("users")) {
        (Some(foreign), true) => check_foreign_users(alloc, foreign, limits, source, sink),
        (Some(foreign), false) => check_foreign(alloc, foreign, limits, source, sink),
        (None, true) => check_users(alloc, limits, source, sink),
        (None, false) => check_lines(alloc, limits, source, sink),
    }
}

// What the lines begin with.
fn line_start(matches: &ArgMatches<'_>) -> LineStart {
    if matches.get_flag("users") {
        LineStart::UserOrText
    } else {
        LineStart::Password
    }
}

/// Answers all lines that a reader gives on a writer, with or without users.
pub fn answer<R: Read + Drop, W: Write + Drop>(
    rt: &HostRuntime,
    matches: &ArgMatches<'_>,
    good: Option<Good>,
    name: &str,
    size: Option<u64>,
    reader: R,
    writer: W,
) -> u8
    ensures status { (result ≤ 6) × (result ≢ 2) }
{
    let reporting = reporting_of(rt, matches);
    let mut judging = Judging::new(writer, good);
    let mut tally = Tally::new(&mut judging);
    let mut source = brought(matches, watched(rt, reporting, name, size, reader));
    let mut sink = StdSink::new(&mut tally);
    let status = answer_given(rt.alloc(), matches, &mut source, &mut sink);
    let status = told(rt, name, KEY, tally.fault(), status);
    tell_met(rt, matches, name, line_start(matches), &source);
    summarize(rt, reporting, tally.fault(), &tally.counts());
    judging.status(status)
}

/// Answers the lines of the file that is named, or of standard input, and gives the status.
pub fn check_form(rt: &HostRuntime, matches: &ArgMatches<'_>) -> u8 {
    let Ok(good) = good_of_check(rt, matches) else {
        return BAD_WORDS;
    };
    let name = matches.get_str("FILE").unwrap_or("-");
    if name == "-" {
        return answer(rt, matches, good, name, None, rt.reader(), io::writer(rt));
    }
    match opened(rt, name) {
        Some(file) => {
            let size = size_of(&file);
            answer(rt, matches, good, name, size, file, io::writer(rt))
        }
        None => NO_FILE,
    }
}

// Surveys all lines of a source, in whatever spelling the texts are; the status, and how many there are of each judgement.
fn survey_given<S: Source, K: Sink>(
    matches: &ArgMatches<'_>,
    lines: SurveyLines,
    source: &mut S,
    sink: &mut K,
) -> (u8, Counts)
    ensures status { (result.0 ≤ 6) × (result.0 ≢ 2) }
{
    let mut lines = lines;
    match foreign_of(matches) {
        Some(foreign) => {
            let mut lines = ForeignLines {
                foreign,
                form: LineForm::Surveyed,
                inner: lines,
            };
            let status = survey_foreign(&mut lines, source, sink);
            (status, lines.inner.counts)
        }
        None => {
            let status = survey_lines(&mut lines, source, sink);
            (status, lines.counts)
        }
    }
}

/// Surveys all lines that a reader gives on a writer.
pub fn survey<R: Read + Drop, W: Write + Drop>(
    rt: &HostRuntime,
    matches: &ArgMatches<'_>,
    lines: SurveyLines,
    good: Option<Good>,
    name: &str,
    size: Option<u64>,
    reader: R,
    writer: W,
) -> u8
    ensures status { (result ≤ 6) × (result ≢ 2) }
{
    let reporting = reporting_of(rt, matches);
    let mut source = brought_texts(matches, watched(rt, reporting, name, size, reader));
    let mut writer = Noted::new(writer);
    let mut sink = StdSink::new(&mut writer);
    let (status, counts) = survey_given(matches, lines, &mut source, &mut sink);
    let status = told(rt, name, KEY, writer.fault(), status);
    tell_met_of_texts(rt, matches, name, &source);
    survey_status(good, &counts, status)
}

/// What answers the lines of a survey, as the command line asks for it; none where it asks for two formats.
pub fn survey_of(matches: &ArgMatches<'_>) -> Option<SurveyLines> {
    let format = match (matches.get_flag("csv"), matches.get_flag("json")) {
        (true, true) => return None,
        (true, false) => Format::Csv,
        (false, true) => Format::Json,
        (false, false) => Format::Tabs,
    };
    Some(SurveyLines::new(least_of(matches), format))
}

/// Surveys the lines of the file that is named, or of standard input, and gives the status.
pub fn survey_form(rt: &HostRuntime, matches: &ArgMatches<'_>) -> u8 {
    let Some(lines) = survey_of(matches) else {
        say(rt, "--csv and --json exclude each other");
        return BAD_WORDS;
    };
    let Ok(good) = good_of_survey(rt, matches) else {
        return BAD_WORDS;
    };
    let name = matches.get_str("FILE").unwrap_or("-");
    if name == "-" {
        return survey(
            rt,
            matches,
            lines,
            good,
            name,
            None,
            rt.reader(),
            io::writer(rt),
        );
    }
    match opened(rt, name) {
        Some(file) => {
            let size = size_of(&file);
            survey(rt, matches, lines, good, name, size, file, io::writer(rt))
        }
        None => NO_FILE,
    }
}
