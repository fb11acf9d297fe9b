//! Laws over the definitions.

ghost use Rattle.hmac_sha1.specs.Laws.{CodeLength};

/// A code of HMAC-SHA-1 has 20 bytes.
pub fn code_length()
    ensures { CodeLength }
{}
