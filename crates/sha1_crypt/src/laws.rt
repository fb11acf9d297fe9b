//! Laws over the definitions.

ghost use Rattle.sha1_crypt.specs.Laws.{FieldOnce, MatchesExactly, OneText, VerdictWhereCost};

/// Two digests with one hash field are equal.
pub fn field_once()
    ensures one { FieldOnce }
{}

/// A valid text is the text of its rounds, its salt and its digest, so that two texts with the same three are one.
pub fn one_text()
    ensures text { OneText }
{}

/// A text has a verdict, on each password, exactly where it has rounds.
pub fn verdict_where_cost()
    ensures verdict { VerdictWhereCost }
{}

/// A password passes the check of exactly the texts of its digest, for each number of rounds and each salt one.
pub fn matches_exactly()
    ensures texts { MatchesExactly }
{}
