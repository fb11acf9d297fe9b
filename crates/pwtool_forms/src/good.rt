//! Which answers count as good, where the command line says so.

ghost use Rattle.std.specs.Prelude.{◌≡◌, ◌≤◌, ◌<◌};

use clap::ArgMatches;
use pieces::short_bytes::ShortBytes;
use shadow_survey::Counts;
use std::io;
use std::io::Write;

/// The names of answers of `check`, by their words; `unsupported` is for each word that begins with `unsupported-`, `invalid` for each
/// that isn't named, `locked` in `check` for what a maker's texts say so. Those of `join` are all.
const ANSWERS: [&str; 11] = [
    "match",
    "mismatch",
    "no-scheme",
    "unsupported",
    "too-costly",
    "invalid",
    "badline",
    "toolong",
    "locked",
    "empty",
    "no-password",
];

// How many of them `check` has.
const CHECKED: usize = 9;

const UNSUPPORTED: usize = 3;

const INVALID: usize = 5;

/// The names of judgements of `survey`; `unsupported` is for a text of no scheme.
const JUDGEMENTS: [&str; 8] = [
    "ok",
    "weak",
    "empty",
    "locked",
    "unsupported",
    "invalid",
    "badline",
    "toolong",
];

/// The names that count as good, by their places.
#[derive(Clone, Copy, Debug, PartialEq, Eq)]
pub struct Good {
    chosen: [bool; ANSWERS.len()],
}

// The place of a name.
fn place_of(names: &[&str], name: &[u8]) -> Option<usize> {
    for (place, known) in names.iter().enumerate() {
        if known.as_bytes() == name {
            return Some(place);
        }
    }
    None
}

// The names in a list with commas between them.
fn chosen<'a>(names: &[&str], list: &'a str) -> Result<Good, &'a str> {
    let mut chosen = [false; ANSWERS.len()];
    for name in list.split(',') {
        match place_of(names, name.as_bytes()) {
            Some(place) => {
                if let Some(is_chosen) = chosen.get_mut(place) {
                    *is_chosen = true;
                }
            }
            None => return Err(name),
        }
    }
    Ok(Good { chosen })
}

// Says that a name isn't one of these.
fn say_unknown(rt: &impl Eprint, names: &[&str], name: &str) {
    let _ = eprint!(rt; "pwtool: --good: '{name}' is not one of");
    for (place, known) in names.iter().enumerate() {
        let before = if place == 0 { "" } else { "," };
        let _ = eprint!(rt; "{before} {known}");
    }
    let _ = eprintln!(rt; "");
}

// What the command line says of these names: nothing, or the good ones; where a name is none of them, that is said.
fn good_of(rt: &impl Eprint, matches: &ArgMatches<'_>, names: &[&str]) -> Result<Option<Good>, ()> {
    let Some(list) = matches.get_str("good") else {
        return Ok(None);
    };
    match chosen(names, list) {
        Ok(good) => Ok(Some(good)),
        Err(name) => {
            say_unknown(rt, names, name);
            Err(())
        }
    }
}

/// The answers of `check` that count as good, where the command line says so.
pub fn good_of_check(rt: &impl Eprint, matches: &ArgMatches<'_>) -> Result<Option<Good>, ()> {
    good_of(rt, matches, &ANSWERS[..CHECKED])
}

/// The answers of `join` that count as good.
pub fn good_of_join(rt: &impl Eprint, matches: &ArgMatches<'_>) -> Result<Option<Good>, ()> {
    good_of(rt, matches, &ANSWERS)
}

/// The judgements of `survey` that count as good.
pub fn good_of_survey(rt: &impl Eprint, matches: &ArgMatches<'_>) -> Result<Option<Good>, ()> {
    good_of(rt, matches, &JUDGEMENTS)
}

// The place of the name of an answer.
fn place_of_word(word: &[u8]) -> usize {
    if word.starts_with(b"unsupported-") {
        return UNSUPPORTED;
    }
    place_of(&ANSWERS, word).unwrap_or(INVALID)
}

impl Good {
    // Whether the name at a place counts as good.
    fn has(&self, place: usize) -> bool {
        match self.chosen.get(place) {
            Some(is_chosen) => *is_chosen,
            None => false,
        }
    }

    // Whether an answer counts as good.
    fn has_word(&self, word: &[u8]) -> bool {
        self.has(place_of_word(word))
    }
}

// The sum of counts.
fn sum(counts: &[u64]) -> u64 {
    let mut sum: u64 = 0;
    for count in counts {
        sum = sum.saturating_add(*count);
    }
    sum
}

/// The status of a survey by how many judgements of each name there are: 0 where all of them count as good, else 1. That of a run
/// which ended before the end of its input stays.
pub fn survey_status(good: Option<Good>, counts: &Counts, status: u8) -> u8
    ensures ended_early { 1 < status → result ≡ status }
    ensures ended { status ≤ 1 → result ≤ 1 }
{
    let Some(good) = good else {
        return status;
    };
    let numbers = [
        sum(&counts.strong),
        sum(&counts.weak),
        counts.empty,
        counts.locked,
        sum(&counts.unsupported),
        counts.invalid,
        counts.bad_line,
        counts.too_long,
    ];
    let mut are_good = true;
    for (place, number) in numbers.iter().enumerate() {
        are_good &= *number == 0 || good.has(place);
    }
    status_by(are_good, status)
}

// The status of a run whose answers are good or not.
fn status_by(are_good: bool, status: u8) -> u8
    ensures ended_early { 1 < status → result ≡ status }
    ensures ended { status ≤ 1 → result ≤ 1 }
{
    if status > 1 {
        status
    } else if are_good {
        0
    } else {
        1
    }
}

// The most bytes of a word that are kept: all words have fewer.
const WORD_MAX: usize = 32;

/// A writer that looks at the words of the answers which go through it, where some of them count as good: a word ends with its line, and
/// begins with it or after its last tab.
#[derive(Drop)]
pub struct Judging<W: Write + Drop> {
    writer: W,
    good: Option<Good>,
    word: ShortBytes<WORD_MAX>,
    are_good: bool,
}

impl<W: Write + Drop> Judging<W> {
    /// What looks at no answer yet.
    pub fn new(writer: W, good: Option<Good>) -> Judging<W> {
        Judging {
            writer,
            good,
            word: ShortBytes::new(),
            are_good: true,
        }
    }

    /// The status of a run by its answers: 0 where all of them count as good, else 1. That of a run which ended before the end of its
    /// input stays, and each where the command line doesn't say what is good.
    pub fn status(&self, status: u8) -> u8
        ensures ended_early { 1 < status → result ≡ status }
        ensures ended { status ≤ 1 → result ≤ 1 }
    {
        if self.good.is_none() {
            return status;
        }
        status_by(self.are_good, status)
    }

    // Looks at the next byte.
    fn look(&mut self, good: Good, b: u8) {
        if b == b'\n' {
            self.are_good &= good.has_word(self.word.as_slice());
            self.word = ShortBytes::new();
        } else if b == b'\t' {
            self.word = ShortBytes::new();
        } else if self.word.len() < WORD_MAX {
            self.word.push_all(&[b]);
        }
    }
}

impl<W: Write + Drop> Write for Judging<W> {
    fn write(&mut self, piece: &[u8]) -> io::Result<usize> {
        let count = self.writer.write(piece)?;
        if let Some(good) = self.good {
            for b in &piece[..count] {
                self.look(good, *b);
            }
        }
        Ok(count)
    }

    fn flush(&mut self) -> io::Result<()> {
        self.writer.flush()
    }
}
