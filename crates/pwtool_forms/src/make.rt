//! The form `make` from its command line on: what of it reaches the system.

ghost use Rattle.std.specs.Prelude.{◌≡◌};
ghost use Rattle.any_make.specs.Costs.{scheme_of};
ghost use Rattle.pwtool_forms.specs.Make.{end_status};

use crate::fault::say;
use crate::reports::say_write;
use crate::rules::broken_rule;
use crate::status::BAD_WORDS;
use crate::tally::Noted;
use any_check::CostFamily;
use any_make::{
    Argon2Cost, MakeCost, MakeEnd, MakeFault, NameFault, recommended, run_make, scheme_named,
};
use clap::ArgMatches;
use line_io::{StdSink, StdSource};
use line_program::status::{ALL_GOOD, NO_MEMORY, READ_FAULT, SOME_OTHER, WRITE_FAULT};
use std::io;
use std::io::{ErrorKind, IsTerminal};
use std::random::RandomSource;
use yescrypt_plain::{ScryptParams, YescryptParams};

// The number of an option, or the recommended one.
fn number(matches: &ArgMatches<'_>, option: &str, recommended: u32) -> u32 {
    matches.get_one::<u32>(option).unwrap_or(recommended)
}

/// What the text is to cost, by the options and the recommendation.
pub fn cost_of(matches: &ArgMatches<'_>, recommended: MakeCost) -> MakeCost
    ensures scheme { scheme_of result ≡ scheme_of recommended }
{
    match recommended {
        MakeCost::ShaCrypt(family, rounds) => {
            MakeCost::ShaCrypt(family, number(matches, "rounds", rounds))
        }
        MakeCost::Scrypt(cost) => MakeCost::Scrypt(ScryptParams {
            ln: number(matches, "ln", cost.ln),
            r: number(matches, "r", cost.r),
            p: number(matches, "p", cost.p),
        }),
        MakeCost::Bcrypt(cost) => MakeCost::Bcrypt(number(matches, "cost", cost)),
        MakeCost::Yescrypt(cost) => MakeCost::Yescrypt(YescryptParams {
            ln: number(matches, "ln", cost.ln),
            r: number(matches, "r", cost.r),
            t: number(matches, "t", cost.t),
        }),
        MakeCost::Argon2id(cost) => MakeCost::Argon2id(Argon2Cost {
            memory: number(matches, "memory", cost.memory),
            passes: number(matches, "passes", cost.passes),
            lanes: number(matches, "lanes", cost.lanes),
        }),
        MakeCost::Pbkdf2(hash, rounds) => {
            MakeCost::Pbkdf2(hash, number(matches, "rounds", rounds))
        }
    }
}

// The options that name a cost of some scheme.
const OPTIONS: [&str; 9] = [
    "rounds", "cost", "ln", "r", "p", "t", "memory", "passes", "lanes",
];

// Whether an option names a cost of a family of schemes.
fn is_option_of(family: CostFamily, option: &str) -> bool {
    match family {
        CostFamily::NoNumber => false,
        CostFamily::ShaCrypt | CostFamily::Pbkdf2Sha256 | CostFamily::Pbkdf2Sha512 => {
            option == "rounds"
        }
        CostFamily::Scrypt => option == "ln" || option == "r" || option == "p",
        CostFamily::Bcrypt => option == "cost",
        CostFamily::Yescrypt => option == "ln" || option == "r" || option == "t",
        CostFamily::Argon2 => option == "memory" || option == "passes" || option == "lanes",
    }
}

// The option that is given though it names no cost of the scheme.
fn other_option(matches: &ArgMatches<'_>, family: CostFamily) -> Option<&'static str> {
    for option in OPTIONS {
        if matches.get_one::<u32>(option).is_some() && !is_option_of(family, option) {
            return Some(option);
        }
    }
    None
}

// The recommended cost of the scheme that is named; what is said where there is none tells why.
fn recommended_of(rt: &HostRuntime, name: &str) -> Option<MakeCost> {
    match scheme_named(name) {
        Ok(scheme) => recommended(scheme),
        Err(NameFault::Weak) => {
            let _ = eprintln!(rt;
                "pwtool: {name}: no text of it is made, as each is weak whatever it costs"
            );
            None
        }
        Err(NameFault::Unknown) => {
            let _ = eprintln!(rt;
                "pwtool: {name}: no scheme of which texts are made: 'pwtool make --help' has them"
            );
            None
        }
    }
}

// Why no text is made of a line.
fn cause_of(fault: MakeFault) -> &'static str {
    match fault {
        MakeFault::Cost => "the scheme doesn't take the cost",
        MakeFault::Salt => "the salt has another length than the scheme's",
        MakeFault::PasswordTooLong => {
            "the password is too long: at most 4096 bytes, and of bcrypt 72, are hashed"
        }
        MakeFault::NotUtf8 => "the password isn't UTF-8",
        MakeFault::ZeroByte => "the password has a zero byte, at which crypt(3) would end it",
        MakeFault::OutOfMemory => "out of memory for the key",
        MakeFault::BufferShort => "the text is too long",
    }
}

/// Says why there is no text, and gives the status. `fault` is why a write failed.
pub fn told(rt: &impl Eprint, fault: Option<ErrorKind>, end: MakeEnd) -> u8
    ensures status { result ≡ end_status end }
{
    match end {
        MakeEnd::Made => ALL_GOOD,
        MakeEnd::ReadFault => {
            say(rt, "standard input: a read failed");
            READ_FAULT
        }
        MakeEnd::WriteFault => {
            say_write(rt, fault);
            WRITE_FAULT
        }
        MakeEnd::NoLine => {
            say(rt, "standard input: there is no line");
            SOME_OTHER
        }
        MakeEnd::EmptyLine => {
            say(
                rt,
                "standard input: the password is empty: give --empty if it is meant to be",
            );
            SOME_OTHER
        }
        MakeEnd::LongLine => {
            say(
                rt,
                "standard input: the first line has more than 8192 bytes",
            );
            SOME_OTHER
        }
        MakeEnd::Refused(MakeFault::OutOfMemory) => {
            say(rt, cause_of(MakeFault::OutOfMemory));
            NO_MEMORY
        }
        MakeEnd::Refused(fault) => {
            say(rt, cause_of(fault));
            SOME_OTHER
        }
    }
}

// The most bytes of a salt.
const SALT_MAX: usize = 16;

// Makes the text of the first line of standard input, with a salt from the system's random source.
fn make(rt: &HostRuntime, cost: MakeCost, takes_empty: bool) -> u8 {
    let mut bytes = [0; SALT_MAX];
    let salt = &mut bytes[..cost.salt_length()];
    if rt.fill_bytes(salt).is_err() {
        say(rt, "the system gives no random bytes");
        return READ_FAULT;
    }
    let mut source = StdSource::new(rt.reader());
    let mut writer = Noted::new(io::writer(rt));
    let mut sink = StdSink::new(&mut writer);
    let end = run_make(rt.alloc(), cost, salt, takes_empty, &mut source, &mut sink);
    told(rt, writer.fault(), end)
}

/// Makes the text of the password on standard input, and gives the status.
pub fn make_form(rt: &HostRuntime, matches: &ArgMatches<'_>) -> u8 {
    let name = matches.get_str("SCHEME").unwrap_or("");
    let Some(recommended) = recommended_of(rt, name) else {
        return BAD_WORDS;
    };
    if let Some(option) = other_option(matches, recommended.scheme().family()) {
        let _ = eprintln!(rt; "pwtool: --{option}: it is no cost of {name}");
        return BAD_WORDS;
    }
    let cost = cost_of(matches, recommended);
    if !cost.is_taken() {
        let rule = broken_rule(cost);
        let _ = eprintln!(rt; "pwtool: {name}: the cost isn't taken: {rule}");
        return BAD_WORDS;
    }
    if rt.stdin().is_terminal() && !matches.get_flag("echo") {
        let _ = eprintln!(rt;
            "pwtool: the terminal would show the password: give --echo, or type it into \
            (trap 'stty echo' EXIT INT; stty -echo; head -n 1) | pwtool make {name}"
        );
        return BAD_WORDS;
    }
    make(rt, cost, matches.get_flag("empty"))
}
