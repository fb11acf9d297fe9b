//! The command line of `pwtool`, from its words to the status: [`run`]. What the forms do is `pwtool_forms`'s.
#![tactic(auto)]

mod cli;
mod make_cli;
mod options;
mod schemes;
mod tables;

use clap::ArgMatches;
use clap::error::ErrorKind;
pub use cli::command;
use line_program::status::{ALL_GOOD, NO_MEMORY, NO_WORDS, WRITE_FAULT};
use pwtool_forms::fault::{say, say_refused};
use pwtool_forms::form::{check_form, survey_form};
use pwtool_forms::make::make_form;
use pwtool_forms::pair::join_form;
use pwtool_forms::reports::say_write;
use pwtool_forms::small_forms::{normalize_form, stream_form};
use pwtool_forms::status::BAD_WORDS;
pub use schemes::help_of_check;
use std::{env, io};
pub use tables::table_form;

// The words of the command line, or the status.
fn words(rt: &HostRuntime) -> Result<Vec<String>, u8> {
    let words = match env::args(rt) {
        Ok(words) => words,
        Err(error) if error.kind() == io::ErrorKind::OutOfMemory => {
            return Err(no_memory(rt));
        }
        Err(_) => {
            say(rt, "a word of the command line isn't UTF-8");
            return Err(NO_WORDS);
        }
    };
    match words.collect(rt.alloc()) {
        Ok(words) => Ok(words),
        Err(_) => Err(no_memory(rt)),
    }
}

fn no_memory(rt: &HostRuntime) -> u8 {
    say(rt, "out of memory for the words of the command line");
    NO_MEMORY
}

// A form of the program.
#[derive(Clone, Copy)]
enum Form {
    Check,
    Join,
    Survey,
    Make,
    Table,
    Normalize,
    Wrap,
    Unwrap,
}

// The form that has this name: the parser lets no other name through.
fn form_named(name: &str) -> Form {
    match name {
        "join" => Form::Join,
        "survey" => Form::Survey,
        "make" => Form::Make,
        "table" => Form::Table,
        "normalize" => Form::Normalize,
        "wrap" => Form::Wrap,
        "unwrap" => Form::Unwrap,
        _ => Form::Check,
    }
}

// Runs the form that is named.
fn run_form(rt: &HostRuntime, matches: &ArgMatches<'_>) -> u8 {
    let Some((name, matches)) = matches.subcommand() else {
        say(rt, "no form is named: 'pwtool --help' has them");
        return BAD_WORDS;
    };
    match form_named(name) {
        Form::Check => check_form(rt, matches),
        Form::Join => join_form(rt, matches),
        Form::Survey => survey_form(rt, matches),
        Form::Make => make_form(rt, matches),
        Form::Table => table_form(rt, matches),
        Form::Normalize => normalize_form(rt, matches),
        Form::Wrap => stream_form(rt, "wrap", matches),
        Form::Unwrap => stream_form(rt, "unwrap", matches),
    }
}

// Says why the words are refused, or writes the help or the version that they ask for.
fn answer_refused(rt: &HostRuntime, error: &clap::Error) -> u8 {
    match error.kind() {
        ErrorKind::DisplayHelp | ErrorKind::DisplayVersion => match error.print(rt) {
            Ok(()) => ALL_GOOD,
            Err(error) => {
                say_write(rt, Some(error.kind()));
                WRITE_FAULT
            }
        },
        ErrorKind::OutOfMemory => no_memory(rt),
        _ => {
            say_refused(rt, error);
            BAD_WORDS
        }
    }
}

/// Does what the words of the command line say, and gives the status.
pub fn run(rt: &HostRuntime) -> u8 {
    let words = match words(rt) {
        Ok(words) => words,
        Err(status) => return status,
    };
    let help = match help_of_check(rt.alloc()) {
        Ok(help) => help,
        Err(_) => return no_memory(rt),
    };
    let command = match command(rt.alloc(), help.as_str()) {
        Ok(command) => command,
        Err(_) => return no_memory(rt),
    };
    match command.try_get_matches_from(words.as_slice()) {
        Ok(matches) => run_form(rt, &matches),
        Err(error) => answer_refused(rt, &error),
    }
}
