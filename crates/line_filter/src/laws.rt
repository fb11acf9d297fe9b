//! Laws over the definitions, each the contract of a function that does nothing.

ghost use Rattle.line_filter.specs.Laws.{LinesKept, LinesWithoutReturns};

/// The lines of a text without the carriage returns before its line feeds: the same lines, each that a line feed ends without the
/// carriage return at its end.
pub fn lines_without_returns()
    ensures lines { LinesWithoutReturns }
{}

/// The lines of a text without those that are passed over: the others, in their order.
pub fn lines_kept()
    ensures lines { LinesKept }
{}
