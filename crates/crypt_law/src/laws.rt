//! The law over the two definitions.

ghost use Rattle.crypt_law.specs.Law.{MatchesExactly};

/// A phrase of at most 511 bytes and a text of one of crypt's methods match, where there is a verdict on them, exactly where
/// the text that crypt(3) gives for them is the text itself. A phrase for `$2a$` has no byte of 255 here, as every UTF-8: of
/// some others crypt(3) has another hash.
pub fn matches_exactly()
    ensures law { MatchesExactly }
{}
