//! `pwstore FILE`: answers the commands of standard input over a table of users and their stored texts that is kept in a
//! file, each change of which is on the disk before it is answered. A file that isn't there is made.
//! `pwstore FILE compact`: writes the file anew, a line for each user.
//! `pwstore FILE export`: writes each user with its text, as a line of a shadow or htpasswd file.
//! `pwstore FILE import`: sets the users of the lines of such a file, which is named or is standard input. With `--from` their
//! texts are those of another maker, as Django, LDAP or Werkzeug.
//!
//! Each reply goes to standard output with a line feed. Errors are one line on standard error. The status says how the run
//! ended.
#![tactic(auto)]

mod cli;
mod fault;
mod status;

use crate::cli::command;
use crate::fault::{say, say_refused};
use crate::status::BAD_WORDS;
use clap::ArgMatches;
use clap::error::ErrorKind;
use line_program::status::{ALL_GOOD, NO_MEMORY, NO_WORDS, WRITE_FAULT};
use rule_options::rules_of;
use std::process::ExitCode;
use std::{env, io};
use store_run::messages::Speaker;
use store_run::table_action;

// The name that messages begin with.
const PROGRAM: &str = "pwstore";

// The program before it knows its file.
const SPEAKER: Speaker<'static> = Speaker {
    program: PROGRAM,
    file: "",
};

// The words of the command line, or the status.
fn words(rt: &HostRuntime) -> Result<Vec<String>, u8> {
    let words = match env::args(rt) {
        Ok(words) => words,
        Err(error) if error.kind() == io::ErrorKind::OutOfMemory => {
            return Err(no_memory(rt));
        }
        Err(_) => {
            say(rt, "a word of the command line isn't UTF-8");
            return Err(NO_WORDS);
        }
    };
    match words.collect(rt.alloc()) {
        Ok(words) => Ok(words),
        Err(_) => Err(no_memory(rt)),
    }
}

fn no_memory(rt: &HostRuntime) -> u8 {
    say(rt, "out of memory for the words of the command line");
    NO_MEMORY
}

// Does what the words ask for.
fn run_words(rt: &HostRuntime, matches: &ArgMatches<'_>) -> u8 {
    let Some(name) = matches.get_str("FILE") else {
        say(rt, "no file is named");
        return BAD_WORDS;
    };
    let action = matches.get_str("ACTION");
    let users = matches.get_str("USERS");
    let from = matches.get_str("from");
    match table_action(rt, PROGRAM, name, rules_of(matches), action, users, from) {
        Some(status) => status,
        None => {
            say(
                rt,
                "after the file is nothing, 'compact', 'export', or 'import' with or without a file of users and --from",
            );
            BAD_WORDS
        }
    }
}

// Says why the words are refused, or writes the help or the version that they ask for.
fn answer_refused(rt: &HostRuntime, error: &clap::Error) -> u8 {
    match error.kind() {
        ErrorKind::DisplayHelp | ErrorKind::DisplayVersion => match error.print(rt) {
            Ok(()) => ALL_GOOD,
            Err(error) => {
                SPEAKER.say_write(rt, Some(error.kind()));
                WRITE_FAULT
            }
        },
        ErrorKind::OutOfMemory => no_memory(rt),
        ErrorKind::MissingRequiredArgument => {
            say(rt, "no file is named: see 'pwstore --help'");
            BAD_WORDS
        }
        _ => {
            say_refused(rt, error);
            BAD_WORDS
        }
    }
}

fn run(rt: &HostRuntime) -> u8 {
    let words = match words(rt) {
        Ok(words) => words,
        Err(status) => return status,
    };
    let command = match command(rt.alloc()) {
        Ok(command) => command,
        Err(_) => return no_memory(rt),
    };
    match command.try_get_matches_from(words.as_slice()) {
        Ok(matches) => run_words(rt, &matches),
        Err(error) => answer_refused(rt, &error),
    }
}

fn main(rt: HostRuntime) -> ExitCode {
    ExitCode::from(run(&rt))
}
