//! Laws over the definitions.

ghost use Rattle.phpass_plain.specs.Laws.{BothFronts, FieldOnce, MatchesExactly, OneText, VerdictWhereCost};

/// Two digests with one hash field are equal.
pub fn field_once()
    ensures one { FieldOnce }
{}

/// A valid text is the text of its identifier, its cost, its salt and its digest, so that two texts with the same four are one.
pub fn one_text()
    ensures text { OneText }
{}

/// Two texts that differ in their identifiers alone, `$P$` and `$H$`, have the same answer for each password, and the same cost. So
/// a cost, a salt and a digest are written by two texts, one of each.
pub fn both_fronts()
    ensures fronts { BothFronts }
{}

/// A text has a verdict, on each password, exactly where it has a cost.
pub fn verdict_where_cost()
    ensures verdict { VerdictWhereCost }
{}

/// A password passes the check of exactly the texts of its digest, for each identifier, each cost and each salt one.
pub fn matches_exactly()
    ensures texts { MatchesExactly }
{}
