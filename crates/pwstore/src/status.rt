//! The status beside those of `line_program` and `store_run`.

/// The words of the command line are no form of the program.
pub const BAD_WORDS: u8 = 64;
