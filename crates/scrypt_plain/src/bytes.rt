//! Lists of bytes.

pub use word_lists::xor_bytes;
