//! What the exports answer that give no verdict. These numbers are no answer's but for `DONE`.

pub use c_buffers::{DONE, NO_MEMORY, NO_ROOM};

/// A number or a length is outside what is taken.
pub const OUT_OF_RANGE: i32 = -1;

/// The text is the encoding of no bytes.
pub const NOT_BASE64: i32 = -4;

/// The password has more bytes than the scheme takes.
pub const REFUSED_LENGTH: i32 = -5;

/// The password isn't UTF-8.
pub const REFUSED_UTF8: i32 = -6;

/// The password has a zero byte, which the scheme doesn't take.
pub const REFUSED_ZERO: i32 = -7;

/// The length from which on scrypt's passwords and salts are refused: each message that is hashed is then short enough.
pub const TOO_LONG: usize = 1 << 30;
