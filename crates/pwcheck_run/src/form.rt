//! What is written for a line.

/// What is written for a line.
#[derive(Clone, Copy, Debug, PartialEq, Eq)]
pub enum Form {
    /// Its word.
    Plain,
    /// Its word, and behind `match` and `mismatch` the counts of look-ups and comparisons.
    Counted,
}
