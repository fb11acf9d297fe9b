//! Laws over the definitions.

ghost use Rattle.mysql_sha2.specs.Laws.{VerdictWhereCost};

/// A text has a verdict, on each password, exactly where it has rounds.
pub fn verdict_where_cost()
    ensures verdict { VerdictWhereCost }
{}
