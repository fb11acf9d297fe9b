//! Options that bound costs.

use clap::{Arg, Command, value_parser};
use std::alloc::{AllocError, Global};

/// What an option bounds: its name, its help, its least and its most.
#[derive(Drop)]
pub struct CostOption {
    name: &'static str,
    help: &'static str,
    least: i64,
    most: i64,
}

/// An option.
pub fn cost(name: &'static str, help: &'static str, least: i64, most: i64) -> CostOption {
    CostOption {
        name,
        help,
        least,
        most,
    }
}

// The bounds on cost. The most of each is what its scheme takes.
fn costs() -> [CostOption; 12] {
    [
        cost(
            "max-sha-rounds",
            "SHA-crypt, sha1-crypt, mysql-sha2: rounds, 1000 to 4294967295",
            1_000,
            4_294_967_295,
        ),
        cost("max-bcrypt-cost", "bcrypt, phpass: cost, 4 to 31", 4, 31),
        cost("max-yescrypt-ln", "yescrypt: log2 of N, 2 to 23", 2, 23),
        cost("max-yescrypt-r", "yescrypt: r, 1 to 524287", 1, 524_287),
        cost("max-yescrypt-t", "yescrypt: t, 0 to 1024", 0, 1_024),
        cost(
            "max-pbkdf2-rounds",
            "PBKDF2, SCRAM: rounds, 1 to 4294967295",
            1,
            4_294_967_295,
        ),
        cost(
            "max-scrypt-ln",
            "scrypt: ln, 1 to 24, and log2 of N of $7$",
            1,
            24,
        ),
        cost("max-scrypt-r", "scrypt: r, 1 to 131072", 1, 131_072),
        cost("max-scrypt-p", "scrypt: p, 1 to 1024", 1, 1_024),
        cost(
            "max-argon2-memory",
            "Argon2: m in KiB, 8 to 2097152",
            8,
            2_097_152,
        ),
        cost("max-argon2-passes", "Argon2: t, 1 to 2097152", 1, 2_097_152),
        cost("max-argon2-lanes", "Argon2: p, 1 to 262144", 1, 262_144),
    ]
}

/// The heading of the bounds on cost.
const MOST: &str = "The most that a stored text may ask for (left out: what its scheme takes)";

// The argument of an option.
fn argument<'a>(alloc: Global, option: &CostOption, heading: &'static str) -> Arg<'a> {
    Arg::new(alloc, option.name)
        .long(option.name)
        .value_name("N")
        .value_parser(value_parser!(u32).range(option.least..=option.most))
        .help_heading(heading)
        .help(option.help)
}

/// A form with one more word or option.
///
/// A chain of these takes less of the prover's time than one of `?`, at each of which all that was made before is given back.
pub fn plus<'a>(
    command: Result<Command<'a>, AllocError>,
    argument: Arg<'a>,
) -> Result<Command<'a>, AllocError> {
    command?.arg(argument)
}

/// A form with options that bound costs, below a heading.
pub fn with_costs<'a>(
    alloc: Global,
    command: Result<Command<'a>, AllocError>,
    options: &[CostOption],
    heading: &'static str,
) -> Result<Command<'a>, AllocError> {
    let mut command = command;
    for option in options {
        command = plus(command, argument(alloc, option, heading));
    }
    command
}

/// A form with the bounds on cost.
pub fn with_most<'a>(
    alloc: Global,
    command: Result<Command<'a>, AllocError>,
) -> Result<Command<'a>, AllocError> {
    with_costs(alloc, command, &costs(), MOST)
}
