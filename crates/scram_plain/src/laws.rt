//! Laws over the definitions.

ghost use Rattle.scram_plain.specs.Laws.{MatchesExactly, OneText, VerdictWhereCost, VerdictWhereLeft};

/// A valid text is the text of its preparation, its rounds, its salt and its keys, so that two texts with the same ones are one.
pub fn one_text()
    ensures text { OneText }
{}

/// A text has a verdict, on each password of ASCII characters, exactly where it has rounds.
pub fn verdict_where_cost()
    ensures verdict { VerdictWhereCost }
{}

/// A valid text has a verdict on exactly the passwords that its preparation leaves as they are.
pub fn verdict_where_left()
    ensures verdict { VerdictWhereLeft }
{}

/// A password passes the check of exactly the texts of its keys, for each preparation that leaves it as it is, each number of rounds and
/// each salt one.
pub fn matches_exactly()
    ensures texts { MatchesExactly }
{}
