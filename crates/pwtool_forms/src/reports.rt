//! What a run tells on standard error, and the files that it opens.

ghost use Rattle.std.specs.Prelude.{◌≡◌};

use crate::fault::{say, say_at};
use crate::progress::{Progress, Watched};
use crate::tally::Counts;
use clap::ArgMatches;
use line_program::status::{NO_MEMORY, OVER_MAX, READ_FAULT, WRITE_FAULT};
use std::fs::File;
use std::io::{ErrorKind, IsTerminal, Read};

/// What a file is called in messages.
pub fn called(name: &str) -> &str {
    if name == "-" { "standard input" } else { name }
}

/// What is told of a run on standard error beside its faults.
#[derive(Clone, Copy)]
pub struct Reporting {
    has_summary: bool,
    has_progress: bool,
}

/// What the command line asks for. Where standard error is a terminal, progress is told without being asked for.
pub fn reporting_of(rt: &HostRuntime, matches: &ArgMatches<'_>) -> Reporting {
    let is_quiet = matches.get_flag("quiet");
    Reporting {
        has_summary: !is_quiet,
        has_progress: matches.get_flag("progress") || (!is_quiet && rt.stderr().is_terminal()),
    }
}

/// A reader of a file of so many bytes, whose progress is told where that is asked for.
pub fn watched<'a, R: Read + Drop>(
    rt: &'a HostRuntime,
    reporting: Reporting,
    name: &'a str,
    size: Option<u64>,
    reader: R,
) -> Watched<'a, R> {
    let progress = if reporting.has_progress {
        Progress::new(rt, called(name), size)
    } else {
        None
    };
    Watched::new(reader, progress)
}

/// The bytes of a regular file. Any other has no number of bytes before it is read.
pub fn size_of(file: &File) -> Option<u64> {
    let metadata = file.metadata().ok()?;
    if metadata.is_file() {
        Some(metadata.len())
    } else {
        None
    }
}

/// Says how many lines were answered, and how. Where the reader of a pipe has gone, which `fault` tells, nothing is said.
pub fn summarize(
    rt: &impl Eprint,
    reporting: Reporting,
    fault: Option<ErrorKind>,
    counts: &Counts,
) {
    if reporting.has_summary && fault != Some(ErrorKind::BrokenPipe) {
        let lines = counts.lines();
        let (matches, mismatches, others) = (counts.matches, counts.mismatches, counts.others);
        let _ = eprintln!(rt;
            "pwtool: lines: {lines}; match: {matches}, mismatch: {mismatches}, other: {others}"
        );
    }
}

/// Says why a write to standard output failed. Where the reader of a pipe has gone, nobody waits for the rest, so nothing is said.
pub fn say_write(rt: &impl Eprint, fault: Option<ErrorKind>) {
    match fault {
        Some(ErrorKind::BrokenPipe) => {}
        Some(kind) => {
            let _ = eprintln!(rt; "pwtool: standard output: {kind}");
        }
        None => say(rt, "standard output: a write failed"),
    }
}

/// Says why a run ended before the end of its input, and gives its status. `memory` says what memory was asked for.
pub fn told(rt: &impl Eprint, name: &str, memory: &str, fault: Option<ErrorKind>, status: u8) -> u8
    ensures status { result ≡ status }
{
    let name = called(name);
    match status {
        READ_FAULT => say_at(rt, name, "a read failed"),
        WRITE_FAULT => say_write(rt, fault),
        NO_MEMORY => {
            let _ = eprintln!(rt; "pwtool: {name}: out of memory for {memory}");
        }
        OVER_MAX => say_at(rt, name, "the input has more than 2^40 bytes"),
        _ => {}
    }
    status
}

/// Opens a file; what is said where that fails is the system's cause.
pub fn opened(rt: &HostRuntime, name: &str) -> Option<File> {
    let file = match File::open(rt, name) {
        Ok(file) => file,
        Err(error) => {
            let _ = eprintln!(rt; "pwtool: {name}: {error}");
            return None;
        }
    };
    if let Ok(metadata) = file.metadata() {
        if metadata.is_dir() {
            say_at(rt, name, "this is a directory");
            return None;
        }
    }
    Some(file)
}
