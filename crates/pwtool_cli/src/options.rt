//! What the forms have in common on the command line.

use clap::{Arg, ArgAction, Command};
pub use rule_options::plus;
use std::alloc::{AllocError, Global};
use store_run::MAKERS;

/// The makers of foreign texts by their names, of lines with passwords: all but the dump of a directory.
const LINE_MAKERS: &[&str] = &[
    "django",
    "werkzeug",
    "passlib",
    "ldap",
    "elasticsearch",
    "dovecot",
    "spring",
    "aspnet",
    "cisco",
    "mosquitto",
    "mediawiki",
    "grub",
    "postgres",
    "jenkins",
    "nextcloud",
    "home-assistant",
    "couchdb",
    "grafana",
    "mysql",
    "gitea",
];

/// A form without its words: its name, what it does, and what is after the options in its help.
pub fn form<'a>(
    alloc: Global,
    name: &'static str,
    about: &'static str,
    after_help: &'a str,
) -> Command<'a> {
    Command::new(alloc, name)
        .about(about)
        .after_help(after_help)
}

/// The word that names the file.
pub fn file<'a>(alloc: Global) -> Arg<'a> {
    Arg::new(alloc, "FILE").help("The file; standard input where it is left out or -")
}

/// A word that a form wants.
pub fn wanted<'a>(alloc: Global, name: &'static str, help: &'static str) -> Arg<'a> {
    Arg::new(alloc, name).required(true).help(help)
}

/// An option without a value.
pub fn flag<'a>(alloc: Global, name: &'static str, help: &'static str) -> Arg<'a> {
    Arg::new(alloc, name)
        .long(name)
        .action(ArgAction::SetTrue)
        .help(help)
}

// The helps of the option that says whose spelling the texts have, of `check`, and of `join` and `survey`.
const FROM_MAKER: &str = "The stored texts are spelled as this maker spells them";

const FROM_FILE: &str = "\
The stored texts are spelled as this maker spells them; ldif: the file is a dump of a directory";

// The option that says whose spelling the texts have.
fn from<'a>(alloc: Global, help: &'static str) -> Arg<'a> {
    Arg::new(alloc, "from")
        .long("from")
        .value_name("MAKER")
        .help(help)
}

/// A form that reads lines of passwords and texts, with the option that says whose spelling the texts have.
pub fn with_maker<'a>(
    alloc: Global,
    command: Result<Command<'a>, AllocError>,
) -> Result<Command<'a>, AllocError> {
    plus(command, from(alloc, FROM_MAKER).value_parser(LINE_MAKERS))
}

/// A form that reads files of users and their texts, with the same option, for which a file may be a dump of a directory.
pub fn with_file_of_maker<'a>(
    alloc: Global,
    command: Result<Command<'a>, AllocError>,
) -> Result<Command<'a>, AllocError> {
    plus(command, from(alloc, FROM_FILE).value_parser(MAKERS))
}

/// A form with the options that say what of a file is left out before it is cut into lines.
pub fn with_forms<'a>(
    alloc: Global,
    command: Result<Command<'a>, AllocError>,
) -> Result<Command<'a>, AllocError> {
    let crlf = "A carriage return before a line feed, and a byte order mark, are no part of a line";
    let command = plus(command, flag(alloc, "crlf", crlf));
    let htpasswd = "Pass over empty lines and lines that begin with #";
    plus(command, flag(alloc, "htpasswd", htpasswd))
}

/// A form with the option that says which answers count as good.
pub fn with_good<'a>(
    alloc: Global,
    command: Result<Command<'a>, AllocError>,
    help: &'static str,
) -> Result<Command<'a>, AllocError> {
    let good = Arg::new(alloc, "good")
        .long("good")
        .value_name("LIST")
        .help(help);
    plus(command, good)
}

/// A form with the options that say what is told on standard error.
pub fn with_telling<'a>(
    alloc: Global,
    command: Result<Command<'a>, AllocError>,
) -> Result<Command<'a>, AllocError> {
    let progress =
        "Tell once a second on standard error how far the run is (a terminal is told anyway)";
    let command = plus(command, flag(alloc, "progress", progress));
    let quiet = "Tell nothing but errors on standard error, and the progress if it is asked for";
    plus(command, flag(alloc, "quiet", quiet))
}
