//! The form `table`: its command line, and what it asks of `store_run`.

use clap::{Arg, ArgMatches, Command};
use pwtool_forms::fault::say;
use pwtool_forms::status::BAD_WORDS;
use rule_options::{rules_of, with_rules};
use std::alloc::{AllocError, Global};
use store_run::{ACTIONS, HELP, MAKERS, table_action};

// The name that messages begin with.
const PROGRAM: &str = "pwtool";

/// The form `table`.
pub fn table<'a>(alloc: Global) -> Result<Command<'a>, AllocError> {
    let file = Arg::new(alloc, "FILE")
        .required(true)
        .help("The file of the table; it is made where it isn't there");
    let action = Arg::new(alloc, "ACTION").help(ACTIONS);
    let users = Arg::new(alloc, "USERS").help(
        "The file of users for 'import'; - or left out: standard input",
    );
    let from = Arg::new(alloc, "from")
        .long("from")
        .value_name("MAKER")
        .value_parser(MAKERS)
        .help(
            "'import': the texts of USERS are spelled as this maker spells them; ldif: it is a dump of a directory",
        );
    let command = Command::new(alloc, "table")
        .about(
            "Keep users and their stored texts in a file, each change on the disk before its reply",
        )
        .after_help(HELP)
        .arg(file)?
        .arg(action)?
        .arg(users)?
        .arg(from);
    with_rules(alloc, command)
}

/// Does what the words ask for with the table of the file that is named, and gives the status.
pub fn table_form(rt: &HostRuntime, matches: &ArgMatches<'_>) -> u8 {
    let file = matches.get_str("FILE").unwrap_or("");
    let action = matches.get_str("ACTION");
    let users = matches.get_str("USERS");
    let from = matches.get_str("from");
    match table_action(rt, PROGRAM, file, rules_of(matches), action, users, from) {
        Some(status) => status,
        None => {
            say(
                rt,
                "after the file is nothing, 'compact', 'export', or 'import' with or without a file of users and --from",
            );
            BAD_WORDS
        }
    }
}
