//! The forms `normalize`, `wrap` and `unwrap` from their command lines on.

use crate::brought::{LineStart, brought, tell_met};
use crate::fault::{say, say_at};
use crate::normalize::normalize_lines;
use crate::progress::Watched;
use crate::reports::{called, opened, told};
use crate::status::{BAD_WORDS, NO_FILE};
use crate::tally::Noted;
use clap::ArgMatches;
use line_io::{StdSink, StdSource};
use line_program::status;
use std::io;
use std::io::Read;
use wrap_stream::run_stream;

/// The input of `unwrap` is no wrapped encoding.
const NO_TEXT: u8 = 7;

// Writes the normal texts of the lines that a reader gives.
fn normalize<R: Read + Drop>(
    rt: &HostRuntime,
    matches: &ArgMatches<'_>,
    name: &str,
    reader: R,
) -> u8 {
    let mut source = brought(matches, Watched::new(reader, None));
    let mut writer = Noted::new(io::writer(rt));
    let mut sink = StdSink::new(&mut writer);
    let status = normalize_lines(&mut source, &mut sink);
    let status = told(rt, name, "a line", writer.fault(), status);
    tell_met(rt, matches, name, LineStart::UserOrText, &source);
    status
}

/// Writes the normal texts of the lines of the file that is named, or of standard input, and gives the status.
pub fn normalize_form(rt: &HostRuntime, matches: &ArgMatches<'_>) -> u8 {
    let name = matches.get_str("FILE").unwrap_or("-");
    if name == "-" {
        return normalize(rt, matches, name, rt.reader());
    }
    match opened(rt, name) {
        Some(file) => normalize(rt, matches, name, file),
        None => NO_FILE,
    }
}

// Wraps or unwraps the bytes that a reader gives.
fn stream<R: Read + Drop>(
    rt: &HostRuntime,
    form: &str,
    matches: &ArgMatches<'_>,
    name: &str,
    reader: R,
) -> u8 {
    let width = matches.get_str("W").unwrap_or("");
    let mut source = StdSource::new(reader);
    let mut writer = Noted::new(io::writer(rt));
    let mut sink = StdSink::new(&mut writer);
    match run_stream(form, width, &mut source, &mut sink) {
        status::BAD_WORDS => {
            say(rt, "W is a number from 4 to 65536");
            BAD_WORDS
        }
        NO_TEXT => {
            say_at(
                rt,
                called(name),
                "this is no Base64 in lines of the width W",
            );
            NO_TEXT
        }
        status => told(rt, name, "a line", writer.fault(), status),
    }
}

/// Does what the form `wrap` or `unwrap` says with the file that is named, or with standard input, and gives the status.
pub fn stream_form(rt: &HostRuntime, form: &str, matches: &ArgMatches<'_>) -> u8 {
    let name = matches.get_str("FILE").unwrap_or("-");
    if name == "-" {
        return stream(rt, form, matches, name, rt.reader());
    }
    match opened(rt, name) {
        Some(file) => stream(rt, form, matches, name, file),
        None => NO_FILE,
    }
}
