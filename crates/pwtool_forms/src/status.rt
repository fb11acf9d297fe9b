//! The statuses beside those of `line_program`.

/// The words of the command line are no form of the program.
pub const BAD_WORDS: u8 = 64;

/// A file can't be opened.
pub const NO_FILE: u8 = 66;
