//! The rules of a table.

use crate::{bound_of, plus, with_most};
use any_make::{MakeCost, recommended};
use clap::{Arg, ArgAction, ArgMatches, Command};
use scheme_list::scheme_of_name;
use shadow_table::{PLAIN_RULES, TableRules};
use std::alloc::{AllocError, Global};

/// The schemes of upgrades: those of which texts are made.
const SCHEMES: &[&str] = &[
    "argon2id",
    "yescrypt",
    "scrypt",
    "bcrypt",
    "pbkdf2-sha256",
    "pbkdf2-sha512",
    "sha256-crypt",
    "sha512-crypt",
];

const STRICT: &str =
    "Answer 'invalid' to a set of a text that isn't locked and that no password matches";

const UPGRADE_TO: &str =
    "The scheme of the texts that upgrades make, at the cost of 'pwtool make' (left out: argon2id)";

/// A form over a table with the options that give its rules.
pub fn with_rules<'a>(
    alloc: Global,
    command: Result<Command<'a>, AllocError>,
) -> Result<Command<'a>, AllocError> {
    let strict = Arg::new(alloc, "strict")
        .long("strict")
        .action(ArgAction::SetTrue)
        .help(STRICT);
    let upgrade_to = Arg::new(alloc, "upgrade-to")
        .long("upgrade-to")
        .value_name("SCHEME")
        .value_parser(SCHEMES)
        .help(UPGRADE_TO);
    with_most(alloc, plus(plus(command, strict), upgrade_to))
}

// What the texts of upgrades cost: what is recommended for the scheme that is named. The parser lets no other name through.
fn upgrade_cost(matches: &ArgMatches<'_>) -> MakeCost {
    let name = matches.get_str("upgrade-to").unwrap_or("argon2id");
    match scheme_of_name(name) {
        Some(scheme) => recommended(scheme).unwrap_or(PLAIN_RULES.upgrade_to),
        None => PLAIN_RULES.upgrade_to,
    }
}

/// The rules that the command line gives.
pub fn rules_of(matches: &ArgMatches<'_>) -> TableRules {
    TableRules {
        limits: bound_of(matches),
        strict: matches.get_flag("strict"),
        upgrade_to: upgrade_cost(matches),
    }
}
