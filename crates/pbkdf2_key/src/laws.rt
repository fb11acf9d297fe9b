//! Laws over the definitions.

ghost use Rattle.pbkdf2_key.specs.Laws.{CodeLength, KeyLength, ShorterKey};

/// A code of HMAC-SHA-512 has 64 bytes.
pub fn code_length()
    ensures { CodeLength }
{}

/// A key has as many bytes as were asked for, with each hash function.
pub fn key_length()
    ensures { KeyLength }
{}

/// A shorter key is the beginning of a longer one, whatever the pseudorandom function.
pub fn shorter_key()
    ensures { ShorterKey }
{}
