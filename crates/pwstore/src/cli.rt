//! The command line.

use clap::{Arg, Command};
use rule_options::with_rules;
use std::alloc::{AllocError, Global};
use store_run::{ACTIONS, HELP, MAKERS, VERSION};

/// The program's command line.
pub fn command<'a>(alloc: Global) -> Result<Command<'a>, AllocError> {
    let file = Arg::new(alloc, "FILE")
        .required(true)
        .help("The file of the table; it is made where it isn't there");
    let action = Arg::new(alloc, "ACTION").help(ACTIONS);
    let users = Arg::new(alloc, "USERS").help(
        "The file of users for 'import'; - or left out: standard input",
    );
    let from = Arg::new(alloc, "from")
        .long("from")
        .value_name("MAKER")
        .value_parser(MAKERS)
        .help(
            "'import': the texts of USERS are spelled as this maker spells them; ldif: it is a dump of a directory",
        );
    let command = Command::new(alloc, "pwstore")
        .bin_name("pwstore")?
        .version(VERSION)
        .about(
            "A table of users and stored texts in a file, each change on the disk before it is answered",
        )
        .after_help(HELP)
        .arg(file)?
        .arg(action)?
        .arg(users)?
        .arg(from);
    with_rules(alloc, command)
}
