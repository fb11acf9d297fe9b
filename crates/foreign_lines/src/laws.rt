//! Laws over the definitions.

ghost use Rattle.foreign_lines.specs.Laws.{PasswordOfDigest, PasswordOfKey};

/// A password has the verdict `match` on a converted text of PBKDF2 exactly where PBKDF2, with the hash that the text names, gives
/// the text's key for it.
pub fn password_of_key()
    ensures key { PasswordOfKey }
{}

/// A password has the verdict `match` on a converted text of a digest exactly where its digest, with the salt after it, is the text's.
pub fn password_of_digest()
    ensures digest { PasswordOfDigest }
{}
