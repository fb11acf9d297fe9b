//! The option that says whose spelling the stored texts have.

use application_texts::Maker;
use clap::ArgMatches;
use foreign_lines::maker_named;

/// The word for a dump of a directory.
const LDIF: &str = "ldif";

/// Whether the texts are those of a dump of a directory, which isn't lines.
pub fn is_ldif(matches: &ArgMatches<'_>) -> bool {
    matches.get_str("from") == Some(LDIF)
}

/// The spelling that the command line names; none where the texts are stored ones as they are.
pub fn foreign_of(matches: &ArgMatches<'_>) -> Option<Maker> {
    maker_named(matches.get_str("from")?)
}
