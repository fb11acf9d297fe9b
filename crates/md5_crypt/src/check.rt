//! The verdict.

ghost use Rattle.std.specs.Prelude.{◌≡◌, ◌≤◌, length};
ghost use Rattle.mcf.specs.Views.{fields_left};
ghost use Rattle.md5_plain.specs.Verdict.{md5_verdict};
ghost use Rattle.stored_check.specs.Verdict.{may_lack_memory, verdict};
ghost use Rattle.md5_crypt.specs.Verdict.{IsLegacyVerdict, legacy_may_lack, legacy_verdict, md5_answer, stored_answer};
ghost use Rattle.phc_kdf.specs.Limits.{password_max};

use crate::{LegacyError, Magic};
use mcf::{Fields, PasswordHashRef};
use md5_plain::{magic_of, md5_verdict};
use std::alloc::Global;
use stored_check::{PASSWORD_MAX, PhcKdf, StoredError, check_stored};

// The answer for the fields behind an identifier with this magic.
fn check_fields(magic: Magic, password: &[u8], fields: Fields<'_>) -> Result<bool, LegacyError>
    requires short { length password.now ≤ password_max }
    ensures answer { result ≡ md5_answer (md5_verdict magic password.now (fields_left fields.entry)) }
{
    match md5_verdict(magic, password, fields) {
        Err(e) => Err(LegacyError::Md5(e)),
        Ok(matches) => Ok(matches),
    }
}

// The answer of `check_stored`.
fn check_other<K: PhcKdf>(
    alloc: Global,
    kdf: &K,
    password: &str,
    stored: &str,
) -> Result<bool, LegacyError>
    ensures answer { IsLegacyVerdict
        (stored_answer (verdict (K.accepted kdf.now) (K.tag kdf.now) password.now stored.now))
        (may_lack_memory (K.accepted kdf.now) (K.needs_memory kdf.now) (K.tag kdf.now) password.now stored.now)
        result }
{
    match check_stored(alloc, kdf, password, stored) {
        Ok(matches) => Ok(matches),
        Err(e) => Err(LegacyError::Stored(e)),
    }
}

/// Checks a password against a stored text, and answers whether it matches.
///
/// Texts with identifier `1` or `apr1` are md5-crypt's and need no memory; all others are those of [`check_stored`].
///
/// # Errors
///
/// The first cause that there is no verdict: a password of more than 4,096 bytes, then a fault of the modular crypt
/// format, both as [`LegacyError::Stored`]; then for md5-crypt's texts the first of [`Md5Fault`], for all others the
/// cause of `check_stored`. Want of memory is `Stored(OutOfMemory)`, only where there is a verdict, the identifier is
/// none of `1`, `apr1`, `5` and `6`, and the derivation may need memory for the record.
pub fn check_legacy<K: PhcKdf>(
    alloc: Global,
    kdf: &K,
    password: &str,
    stored: &str,
) -> Result<bool, LegacyError>
    ensures verdict { IsLegacyVerdict
        (legacy_verdict (K.accepted kdf.now) (K.tag kdf.now) password.now stored.now)
        (legacy_may_lack (K.accepted kdf.now) (K.needs_memory kdf.now) (K.tag kdf.now) password.now stored.now)
        result }
{
    if password.len() > PASSWORD_MAX {
        return Err(LegacyError::Stored(StoredError::PasswordTooLong));
    }
    match PasswordHashRef::new(stored) {
        Err(_) => check_other(alloc, kdf, password, stored),
        Ok(text) => match magic_of(text.id()) {
            Some(magic) => check_fields(magic, password.as_bytes(), text.fields()),
            None => check_other(alloc, kdf, password, stored),
        },
    }
}
