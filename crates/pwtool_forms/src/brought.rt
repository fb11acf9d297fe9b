//! Files as people bring them: what of their bytes is left out, and what is told of it.

use crate::from::is_ldif;
use crate::progress::Watched;
use crate::reports::called;
use clap::ArgMatches;
use ldif_lines::{FileForm, LdifLines};
use line_filter::{Filtered, LineForms, MESSAGE_MAX, Noticed, passed_message};
use line_io::StdSource;
use pieces::short_bytes::ShortBytes;
use pieces::text::text_of;
use std::io::Read;

/// What the command line leaves out of a file before it is cut into lines.
pub fn forms_of(matches: &ArgMatches<'_>) -> LineForms {
    LineForms {
        crlf: matches.get_flag("crlf"),
        htpasswd: matches.get_flag("htpasswd"),
    }
}

/// A dump of a directory has lines that end with a line feed, with or without a carriage return before it, and empty ones between its
/// entries.
const OF_DUMP: LineForms = LineForms {
    crlf: true,
    htpasswd: false,
};

/// A source of what a reader gives, without what the command line leaves out.
pub fn brought<'a, R: Read + Drop>(
    matches: &ArgMatches<'_>,
    reader: Watched<'a, R>,
) -> Filtered<Noticed<StdSource<Watched<'a, R>>>> {
    Filtered::new(forms_of(matches), Noticed::new(StdSource::new(reader)))
}

/// A source of the lines of users and stored texts that a reader gives: the same, or those of a dump of a directory.
pub fn brought_texts<'a, R: Read + Drop>(
    matches: &ArgMatches<'_>,
    reader: Watched<'a, R>,
) -> LdifLines<Filtered<Noticed<StdSource<Watched<'a, R>>>>> {
    let source = Noticed::new(StdSource::new(reader));
    if is_ldif(matches) {
        LdifLines::new(FileForm::Ldif, Filtered::new(OF_DUMP, source))
    } else {
        LdifLines::new(FileForm::Lines, Filtered::new(forms_of(matches), source))
    }
}

/// What the lines of a file begin with.
#[derive(Clone, Copy, Debug, PartialEq, Eq)]
pub enum LineStart {
    /// A password, which may begin with `#`.
    Password,
    /// A user or a stored text. An empty line or one that begins with `#` has neither.
    UserOrText,
}

// What was met of the line's ends and is left as it is, in words; none where the command line leaves it out.
fn returns_met<R: Read + Drop>(
    matches: &ArgMatches<'_>,
    noticed: &Noticed<StdSource<Watched<'_, R>>>,
) -> ShortBytes<MESSAGE_MAX> {
    if matches.get_flag("crlf") {
        return ShortBytes::new();
    }
    noticed.met().message()
}

// The same of empty lines and comments.
fn passed_met<R: Read + Drop>(
    matches: &ArgMatches<'_>,
    start: LineStart,
    noticed: &Noticed<StdSource<Watched<'_, R>>>,
) -> ShortBytes<MESSAGE_MAX> {
    if matches.get_flag("htpasswd") || start == LineStart::Password {
        return ShortBytes::new();
    }
    passed_message(noticed.passed_over())
}

/// Says what was met in a file that its lines may not be meant to have, where it wasn't left out: in one line, with the
/// options that leave it out.
pub fn tell_met<R: Read + Drop>(
    rt: &impl Eprint,
    matches: &ArgMatches<'_>,
    name: &str,
    start: LineStart,
    source: &Filtered<Noticed<StdSource<Watched<'_, R>>>>,
) {
    if matches.get_flag("quiet") {
        return;
    }
    let returns = returns_met(matches, source.source());
    let passed = passed_met(matches, start, source.source());
    let returns = text_of(returns.as_slice()).unwrap_or("");
    let passed = text_of(passed.as_slice()).unwrap_or("");
    let name = called(name);
    match (returns, passed) {
        ("", "") => {}
        (returns, "") => {
            let _ = eprintln!(rt; "pwtool: {name}: {returns}: try --crlf");
        }
        ("", passed) => {
            let _ = eprintln!(rt; "pwtool: {name}: {passed}: try --htpasswd");
        }
        (returns, passed) => {
            let _ = eprintln!(rt;
                "pwtool: {name}: {returns}: try --crlf; {passed}: try --htpasswd"
            );
        }
    }
}

/// The same of a file of stored texts. A dump of a directory may have lines of both kinds.
pub fn tell_met_of_texts<R: Read + Drop>(
    rt: &impl Eprint,
    matches: &ArgMatches<'_>,
    name: &str,
    source: &LdifLines<Filtered<Noticed<StdSource<Watched<'_, R>>>>>,
) {
    if !is_ldif(matches) {
        tell_met(rt, matches, name, LineStart::UserOrText, source.source());
    }
}
