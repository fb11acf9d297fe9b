//! Laws over the definitions.

ghost use Rattle.scrypt_plain.specs.Laws.{BlockKeyLength, CodeLength, KeyBytes, KeyLength, ShorterKey};

/// A code of HMAC-SHA-256 has 32 bytes.
pub fn code_length()
    ensures { CodeLength }
{}

/// A key of HMAC-SHA-256 fills one block of 64 bytes.
pub fn block_key_length()
    ensures { BlockKeyLength }
{}

/// A key of scrypt has as many bytes as were asked for.
pub fn key_length()
    ensures { KeyLength }
{}

/// A shorter key of scrypt is the beginning of a longer one.
pub fn shorter_key()
    ensures { ShorterKey }
{}

/// A key of scrypt is a list of bytes: as a definition it is one of numbers, and each of these is below 256.
pub fn key_bytes()
    ensures { KeyBytes }
{}
