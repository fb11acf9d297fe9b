//! Laws over the definitions.

ghost use Rattle.any_make.specs.Laws.{MadeMatches, NamedBack, OthersJudged, RecommendedTaken};

/// The text that is made of a password matches it, for every salt.
pub fn made_matches()
    ensures matches { MadeMatches }
{}

/// Every other password that has a verdict at all matches the text exactly where its own text, of the same cost and salt, is
/// the same.
pub fn others_judged()
    ensures judged { OthersJudged }
{}

/// A cost is recommended for each scheme of which texts are made, and for no other; it is taken. Each of them is found by its
/// name.
pub fn schemes()
    ensures recommended { RecommendedTaken }
    ensures named { NamedBack }
{}
