//! The statuses beside those of `line_program` and `pw_store`.

/// The file isn't one that a run can have left, or is too long to be written anew.
pub const BAD_FILE: u8 = 65;

/// The file can't be opened.
pub const NO_FILE: u8 = 66;

/// The new file that is to replace the file isn't made.
pub const NO_NEW_FILE: u8 = 73;

/// Another process has the file open.
pub const IN_USE: u8 = 75;
