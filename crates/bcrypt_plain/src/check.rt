//! The check of a password against a stored text.

ghost use Rattle.std.specs.Prelude.{◌≡◌, ◌↔◌, ◌≤◌, ◌+◌, ◌^◌, Err, Ok, false, if◌then◌else◌, true};
ghost use Rattle.bcrypt_plain.specs.Check.{answer_by, bcrypt_answer, has_zero, is_verdict};
ghost use Rattle.bcrypt_plain.specs.Made.{IsHashText};
ghost use Rattle.bcrypt_plain.specs.Text.{text_cost};
ghost use Rattle.bcrypt_plain.specs.Views.{as_parts};

use crate::compare::Compare;
use crate::text::{BcryptParts, text_parts};
use crate::{BcryptError, BcryptFault, bcrypt};
use base64ct::Counts;

/// Whether a password has a zero byte.
pub(crate) fn has_zero(password: &[u8]) -> bool
    ensures { result ≡ has_zero password.now }
{
    password.contains(&0)
}

// The answer by whether the hash matches.
fn answer_of(matches: bool) -> Result<(), BcryptError>
    ensures answer { result ≡ (if matches then Ok tt else Err BcryptError.HashMismatch) }
    ensures verdict { is_verdict result ≡ true }
{
    if matches {
        Ok(())
    } else {
        Err(BcryptError::HashMismatch)
    }
}

// Whether the hash is that of the password, as the comparison says.
fn check_parts<C: Compare>(
    password: &[u8],
    parts: BcryptParts,
    compare: &mut C,
) -> Result<(), BcryptError>
    requires cost { parts.cost ≤ 31 }
    requires sames { C.sames compare.old ≤ 2 ^ 62 + 8 }
    ensures answer { result ≡ answer_by C.same password.now (as_parts (Ok parts)) }
    ensures looks { C.looks compare.new ≡ C.looks compare.old }
    ensures sames { is_verdict result ≡ true → C.sames compare.new ≡ C.sames compare.old + 23 }
    ensures sames_stay { C.sames compare.old ≤ C.sames compare.new }
    ensures no_sames { is_verdict result ≡ false → C.sames compare.new ≡ C.sames compare.old }
{
    if has_zero(password) {
        return Err(BcryptError::ZeroByte);
    }
    let hash = bcrypt(password, &parts.salt, parts.cost);
    answer_of(compare.same_hashes(&hash, &parts.hash))
}

/// The cost that a valid text names: 4 to 31, the binary logarithm of the number of turns. Nothing is hashed.
///
/// # Errors
///
/// The first fault of the text, in the order of [`BcryptFault`](crate::BcryptFault).
pub fn text_cost(stored: &str) -> Result<u32, BcryptFault>
    ensures cost { result ≡ text_cost stored.now }
{
    match text_parts(stored, &mut Counts::new()) {
        Err(e) => Err(e),
        Ok(parts) => Ok(parts.cost),
    }
}

/// Checks a password against a bcrypt text `$2b$cost$salt-and-hash`, or one with `2a` or `2y` in place of `2b`.
///
/// Of the password the first 72 bytes count, as in OpenBSD's bcrypt, libxcrypt, PHP and htpasswd. The work doubles with
/// each step of the cost: 2^cost turns.
///
/// # Errors
///
/// The first fault of the text, in the order of [`BcryptFault`](crate::BcryptFault); then `ZeroByte` for a password that
/// has one; and else `HashMismatch` for another password.
pub fn bcrypt_check(password: &str, stored: &str) -> Result<(), BcryptError>
    ensures answer { result ≡ bcrypt_answer password.now stored.now }
    ensures passed { (result ≡ Ok tt) ↔ ((has_zero password.now ≡ false) × IsHashText password.now stored.now) }
{
    let mut counts = Counts::new();
    bcrypt_check_counted(password, stored, &mut counts)
}

/// The same check. On a verdict it adds 56 look-ups of characters of the salt and the hash, and 31 comparisons to the
/// counts; on a fault at most 56 and 8.
#[tactic(auto, unfolding(crate::specs::Check::bcrypt_answer))]
pub fn bcrypt_check_counted(
    password: &str,
    stored: &str,
    counts: &mut Counts,
) -> Result<(), BcryptError>
    requires looks { counts.old.looks ≤ 2 ^ 62 }
    requires sames { counts.old.sames ≤ 2 ^ 62 }
    ensures answer { result ≡ bcrypt_answer password.now stored.now }
    ensures looks { is_verdict result ≡ true → counts.new.looks ≡ counts.old.looks + 56 }
    ensures sames { is_verdict result ≡ true → counts.new.sames ≡ counts.old.sames + 31 }
    ensures looks_stay { counts.old.looks ≤ counts.new.looks }
    ensures most_looks { counts.new.looks ≤ counts.old.looks + 56 }
    ensures sames_stay { counts.old.sames ≤ counts.new.sames }
    ensures most_sames { is_verdict result ≡ false → counts.new.sames ≤ counts.old.sames + 8 }
{
    match text_parts(stored, counts) {
        Err(e) => Err(BcryptError::InvalidFormat(e)),
        Ok(parts) => check_parts(password.as_bytes(), parts, counts),
    }
}
