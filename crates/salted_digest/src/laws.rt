//! Laws over the definitions.

ghost use Rattle.salted_digest.specs.Laws.{MatchesExactly, OneText, VerdictWhereHash};

/// A valid text is the text of its hash function, its salt and its digest, so that two texts with the same three are one.
pub fn one_text()
    ensures text { OneText }
{}

/// A text has a verdict, on each password, exactly where it has a hash function.
pub fn verdict_where_hash()
    ensures verdict { VerdictWhereHash }
{}

/// A password passes the check of exactly the texts of its digests, for each hash function and each salt one.
pub fn matches_exactly()
    ensures texts { MatchesExactly }
{}
