//! Laws over the definitions, each the contract of a function that does nothing.

ghost use Rattle.set_lines.specs.Laws.{LinesOfSets, SetsTheText};

/// The lines of the commands of a text are the commands of its lines, in their order.
pub fn lines_of_sets()
    ensures law { LinesOfSets }
{}

/// The command of a line that has a user is `set`, a tab, the user, a tab and the text.
pub fn sets_the_text()
    ensures law { SetsTheText }
{}
