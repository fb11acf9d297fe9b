//! The form `join` from its command line on: what of it reaches files and streams.

use crate::bounds::bound_of;
use crate::brought::{LineStart, brought, brought_texts, tell_met, tell_met_of_texts};
use crate::fault::say;
use crate::foreign::{join_foreign, join_foreign_fewer};
use crate::from::foreign_of;
use crate::good::{Good, Judging, good_of_join};
use crate::join::{join_fewer, join_files, tell_no_text};
use crate::reports::{opened, reporting_of, size_of, summarize, told, watched};
use crate::status::{BAD_WORDS, NO_FILE};
use crate::tally::Tally;
use crate::unused::unused_of_no_text;
use clap::ArgMatches;
use line_io::{Sink, Source, StdSink};
use line_program::status::READ_FAULT;
use shadow_check::JoinEnd;
use std::fs::File;
use std::hash::RandomState;
use std::io;
use std::io::{ErrorKind, Read};

// The names of the two files.
#[derive(Clone, Copy)]
struct Names<'a> {
    texts: &'a str,
    passwords: &'a str,
}

/// What memory a run asked for at the file at which it ended. The users of the passwords are kept in a table, but with `--no-text`,
/// which takes no key, those of the texts.
pub fn memory_at(end: JoinEnd, is_no_text: bool) -> &'static str {
    match (end, is_no_text) {
        (JoinEnd::Passwords(_), false) | (JoinEnd::Texts(_), true) => "the table of users",
        (JoinEnd::Texts(_), false) => "the key of a line",
        (JoinEnd::Passwords(_), true) => "a line",
    }
}

impl Names<'_> {
    // Says at which file a run ended early, if it did, and gives the status.
    fn told(
        &self,
        rt: &HostRuntime,
        fault: Option<ErrorKind>,
        end: JoinEnd,
        is_no_text: bool,
    ) -> u8 {
        let memory = memory_at(end, is_no_text);
        match end {
            JoinEnd::Passwords(status) => told(rt, self.passwords, memory, fault, status),
            JoinEnd::Texts(status) => told(rt, self.texts, memory, fault, status),
        }
    }
}

// The bytes of the two files, where they are regular ones.
#[derive(Clone, Copy)]
struct Sizes {
    texts: Option<u64>,
    passwords: Option<u64>,
}

// The keys of the hashes of the tables; none where the system gives no random bytes, which is said.
fn keys_of(rt: &HostRuntime) -> Option<RandomState> {
    match RandomState::new(rt) {
        Ok(keys) => Some(keys),
        Err(_) => {
            say(rt, "the system gives no random bytes");
            None
        }
    }
}

// Answers the users of the texts by the passwords, whatever spelling the texts have.
fn join_given<P: Source, T: Source, K: Sink>(
    rt: &HostRuntime,
    matches: &ArgMatches<'_>,
    keys: RandomState,
    passwords: &mut P,
    texts: &mut T,
    sink: &mut K,
) -> JoinEnd {
    let limits = bound_of(matches);
    match foreign_of(matches) {
        Some(foreign) => join_foreign(rt.alloc(), keys, foreign, limits, passwords, texts, sink),
        None => join_files(rt.alloc(), keys, limits, passwords, texts, sink),
    }
}

// Answers the users of one reader by the passwords of another, or tells those of the passwords who have no text.
fn join<P: Read + Drop, T: Read + Drop>(
    rt: &HostRuntime,
    matches: &ArgMatches<'_>,
    good: Option<Good>,
    names: &Names<'_>,
    sizes: Sizes,
    passwords: P,
    texts: T,
) -> u8 {
    let Some(keys) = keys_of(rt) else {
        return READ_FAULT;
    };
    let reporting = reporting_of(rt, matches);
    let mut judging = Judging::new(io::writer(rt), good);
    let mut tally = Tally::new(&mut judging);
    let passwords = watched(rt, reporting, names.passwords, sizes.passwords, passwords);
    let mut passwords = brought(matches, passwords);
    let texts = watched(rt, reporting, names.texts, sizes.texts, texts);
    let mut texts = brought_texts(matches, texts);
    let mut sink = StdSink::new(&mut tally);
    let is_no_text = matches.get_flag("no-text");
    let end = if is_no_text {
        tell_no_text(rt.alloc(), keys, &mut texts, &mut passwords, &mut sink)
    } else {
        join_given(rt, matches, keys, &mut passwords, &mut texts, &mut sink)
    };
    let status = names.told(rt, tally.fault(), end, is_no_text);
    tell_met_of_texts(rt, matches, names.texts, &texts);
    tell_met(
        rt,
        matches,
        names.passwords,
        LineStart::UserOrText,
        &passwords,
    );
    summarize(rt, reporting, tally.fault(), &tally.counts());
    judging.status(status)
}

// The same for a file of texts that has fewer bytes than that of passwords, which is opened a second time.
fn join_small(
    rt: &HostRuntime,
    matches: &ArgMatches<'_>,
    good: Option<Good>,
    names: &Names<'_>,
    passwords: File,
    users: File,
) -> u8 {
    let Some(texts) = opened(rt, names.texts) else {
        return NO_FILE;
    };
    let Some(keys) = keys_of(rt) else {
        return READ_FAULT;
    };
    let reporting = reporting_of(rt, matches);
    let mut judging = Judging::new(io::writer(rt), good);
    let mut tally = Tally::new(&mut judging);
    let (of_users, of_passwords) = (size_of(&users), size_of(&passwords));
    let users = watched(rt, reporting, names.texts, of_users, users);
    let mut users = brought_texts(matches, users);
    let passwords = watched(rt, reporting, names.passwords, of_passwords, passwords);
    let mut passwords = brought(matches, passwords);
    let texts = watched(rt, reporting, names.texts, of_users, texts);
    let mut texts = brought_texts(matches, texts);
    let mut sink = StdSink::new(&mut tally);
    let end = match foreign_of(matches) {
        Some(foreign) => join_foreign_fewer(
            rt.alloc(),
            keys,
            foreign,
            bound_of(matches),
            &mut users,
            &mut passwords,
            &mut texts,
            &mut sink,
        ),
        None => join_fewer(
            rt.alloc(),
            keys,
            bound_of(matches),
            &mut users,
            &mut passwords,
            &mut texts,
            &mut sink,
        ),
    };
    let status = match end {
        Ok(end) => names.told(rt, tally.fault(), end, false),
        Err(status) => told(rt, names.texts, "the table of users", tally.fault(), status),
    };
    tell_met_of_texts(rt, matches, names.texts, &users);
    tell_met(
        rt,
        matches,
        names.passwords,
        LineStart::UserOrText,
        &passwords,
    );
    summarize(rt, reporting, tally.fault(), &tally.counts());
    judging.status(status)
}

// Whether both are regular files, and that of the texts has fewer bytes.
fn has_fewer_texts(texts: &File, passwords: &File) -> bool {
    match (size_of(texts), size_of(passwords)) {
        (Some(texts), Some(passwords)) => texts < passwords,
        _ => false,
    }
}

// Runs over two files that are opened.
fn join_opened(
    rt: &HostRuntime,
    matches: &ArgMatches<'_>,
    good: Option<Good>,
    names: &Names<'_>,
    passwords: File,
    texts: File,
) -> u8 {
    if !matches.get_flag("no-text") && has_fewer_texts(&texts, &passwords) {
        return join_small(rt, matches, good, names, passwords, texts);
    }
    let sizes = Sizes {
        texts: size_of(&texts),
        passwords: size_of(&passwords),
    };
    join(rt, matches, good, names, sizes, passwords, texts)
}

/// Answers the users of the first file that is named by the passwords of the second, and gives the status.
pub fn join_form(rt: &HostRuntime, matches: &ArgMatches<'_>) -> u8 {
    if matches.get_flag("no-text") {
        if let Some(option) = unused_of_no_text(matches) {
            let _ = eprintln!(rt;
                "pwtool: --{option}: join --no-text checks no password and doesn't use it"
            );
            return BAD_WORDS;
        }
    }
    let Ok(good) = good_of_join(rt, matches) else {
        return BAD_WORDS;
    };
    let names = Names {
        texts: matches.get_str("TEXTS").unwrap_or("-"),
        passwords: matches.get_str("PASSWORDS").unwrap_or("-"),
    };
    if names.texts == "-" && names.passwords == "-" {
        say(rt, "only one of TEXTS and PASSWORDS can be standard input");
        return BAD_WORDS;
    }
    if names.texts == "-" {
        return match opened(rt, names.passwords) {
            Some(passwords) => {
                let sizes = Sizes {
                    texts: None,
                    passwords: size_of(&passwords),
                };
                join(rt, matches, good, &names, sizes, passwords, rt.reader())
            }
            None => NO_FILE,
        };
    }
    let Some(texts) = opened(rt, names.texts) else {
        return NO_FILE;
    };
    if names.passwords == "-" {
        let sizes = Sizes {
            texts: size_of(&texts),
            passwords: None,
        };
        return join(rt, matches, good, &names, sizes, rt.reader(), texts);
    }
    match opened(rt, names.passwords) {
        Some(passwords) => join_opened(rt, matches, good, &names, passwords, texts),
        None => NO_FILE,
    }
}
