//! Laws over the definitions.

ghost use Rattle.bcrypt_digest.specs.Laws.{AllBytesCount, MatchesExactly, VerdictWhereCost};

/// What bcrypt gets has at most 72 bytes and no zero byte, so that it takes all of it.
pub fn all_bytes_count()
    ensures all { AllBytesCount }
{}

/// A text has a verdict, on each password, exactly where it has a cost.
pub fn verdict_where_cost()
    ensures verdict { VerdictWhereCost }
{}

/// A password passes the check of exactly the texts whose text of bcrypt is that of its digest's hash.
pub fn matches_exactly()
    ensures texts { MatchesExactly }
{}
