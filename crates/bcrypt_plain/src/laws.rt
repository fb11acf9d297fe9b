//! Laws over the definitions.

ghost use Rattle.bcrypt_plain.specs.Laws.{FieldOnce, FirstBytesCount, MadeMatches, MatchesExactly, MeasureNeedsOnes};

/// Of a password the first 72 bytes count.
pub fn first_bytes_count()
    ensures same { FirstBytesCount }
{}

/// Two salts, or two hashes, with one field are equal.
pub fn field_once()
    ensures one { FieldOnce }
{}

/// The text that is made of a password matches it.
pub fn made_matches()
    ensures matches { MadeMatches }
{}

/// A password without a zero byte passes the check of exactly the texts of its hash, for each cost, salt and identifier
/// one; a password with a zero byte passes none.
pub fn matches_exactly()
    ensures texts { MatchesExactly }
{}

/// The safety measure of `2a` changes no hash of a password without a byte of 255, and so none of UTF-8.
pub fn measure_needs_ones()
    ensures same { MeasureNeedsOnes }
{}
