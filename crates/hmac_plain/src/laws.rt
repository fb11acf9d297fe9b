//! Laws over the definitions.

ghost use Rattle.hmac_plain.specs.Laws.{CodeLengths};

/// A code of HMAC-SHA-256 has 32 bytes, one of HMAC-SHA-384 has 48, and one of HMAC-SHA-512 has 64.
pub fn code_lengths()
    ensures { CodeLengths }
{}
