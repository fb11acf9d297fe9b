//! Laws over the definitions.

ghost use Rattle.yescrypt_plain.specs.Laws.{OneSpelling, ScryptMadeMatches, ScryptMatchesExactly, YescryptMadeMatches};
ghost use Rattle.yescrypt_plain.specs.Laws.{YescryptMatchesExactly};

/// A parameter field of a text `$y$` is read as some costs exactly where it is their one spelling.
pub fn one_spelling()
    ensures one { OneSpelling }
{}

/// A password passes the check of exactly the texts `$y$` that are spelled as the one text of its key for some salt and
/// costs.
pub fn yescrypt_matches_exactly()
    ensures texts { YescryptMatchesExactly }
{}

/// The text `$y$` that is made of a password matches it.
pub fn yescrypt_made_matches()
    ensures matches { YescryptMadeMatches }
{}

/// A password passes the check of exactly the texts `$7$` that are spelled as the one text of its key for some salt and
/// costs.
pub fn scrypt_matches_exactly()
    ensures texts { ScryptMatchesExactly }
{}

/// The text `$7$` that is made of a password matches it.
pub fn scrypt_made_matches()
    ensures matches { ScryptMadeMatches }
{}
