//! Options that a form doesn't use.

use crate::from::is_ldif;
use clap::ArgMatches;

// The bounds on cost.
const BOUNDS: [&str; 12] = [
    "max-sha-rounds",
    "max-bcrypt-cost",
    "max-yescrypt-ln",
    "max-yescrypt-r",
    "max-yescrypt-t",
    "max-pbkdf2-rounds",
    "max-scrypt-ln",
    "max-scrypt-r",
    "max-scrypt-p",
    "max-argon2-memory",
    "max-argon2-passes",
    "max-argon2-lanes",
];

/// The first option on the command line that `join --no-text`, which checks no password, doesn't use. Of a dump of a directory the users
/// are needed.
pub fn unused_of_no_text(matches: &ArgMatches<'_>) -> Option<&'static str> {
    for option in BOUNDS {
        if matches.get_one::<u32>(option).is_some() {
            return Some(option);
        }
    }
    if matches.get_str("from").is_some() && !is_ldif(matches) {
        return Some("from");
    }
    if matches.get_str("good").is_some() {
        return Some("good");
    }
    None
}
