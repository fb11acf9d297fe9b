//! The checks of a password against a stored text.

ghost use Rattle.std.specs.Prelude.{◌≡◌, ◌↔◌, ◌≤◌, ◌+◌, ◌^◌, Err, Ok, false, if◌then◌else◌, length, true};
ghost use Rattle.phc_kdf.specs.Limits.{password_max};
ghost use Rattle.yescrypt_plain.specs.Check.{IsAnswer, is_verdict, scrypt_answer, scrypt_verdict_by, yescrypt_answer};
ghost use Rattle.yescrypt_plain.specs.Check.{yescrypt_verdict_by};
ghost use Rattle.yescrypt_plain.specs.Made.{IsScryptText, IsYescryptText};
ghost use Rattle.yescrypt_plain.specs.Params.{in_bounds, scrypt_in_bounds};
ghost use Rattle.yescrypt_plain.specs.Views.{as_scrypt, as_yescrypt};

use crate::compare::Compare;
use crate::text::{ScryptParts, YescryptParts, scrypt_text, yescrypt_text};
use crate::{CheckError, CryptKept};
use base64ct::Counts;
use phc_kdf::PASSWORD_MAX;
use std::alloc::{AllocError, Global};

// The answer by whether the hash matches.
fn answer_of(matches: bool) -> Result<(), CheckError>
    ensures answer { result ≡ (if matches then Ok tt else Err CheckError.HashMismatch) }
    ensures verdict { is_verdict result ≡ true }
{
    if matches {
        Ok(())
    } else {
        Err(CheckError::HashMismatch)
    }
}

// Whether the hash is that of the password, as the comparison says.
fn check_yescrypt_parts<C: Compare>(
    alloc: Global,
    kept: &CryptKept,
    password: &[u8],
    parts: YescryptParts,
    compare: &mut C,
) -> Result<(), CheckError>
    requires bounds { in_bounds parts.params ≡ true }
    requires salt { length parts.salt ≤ 64 }
    requires sames { C.sames compare.old ≤ 2 ^ 62 + 8 }
    ensures answer { IsAnswer (yescrypt_verdict_by C.same password.now (as_yescrypt (Ok parts))) result }
    ensures looks { C.looks compare.new ≡ C.looks compare.old }
    ensures sames { is_verdict result ≡ true → C.sames compare.new ≡ C.sames compare.old + 32 }
    ensures sames_stay { C.sames compare.old ≤ C.sames compare.new }
    ensures no_sames { is_verdict result ≡ false → C.sames compare.new ≡ C.sames compare.old }
{
    if password.len() > PASSWORD_MAX {
        return Err(CheckError::PasswordTooLong);
    }
    match kept.yescrypt(alloc, password, parts.salt.as_slice(), parts.params) {
        Err(AllocError) => Err(CheckError::OutOfMemory),
        Ok(key) => answer_of(compare.same_hashes(&key, &parts.hash)),
    }
}

/// Checks a password against a text `$y$parameters$salt$hash`, as crypt(3) makes it by yescrypt.
///
/// # Errors
///
/// The first fault of the text, in the order of [`TextFault`](crate::TextFault); then `PasswordTooLong`; then, where the
/// table is refused, `OutOfMemory`; and else `HashMismatch` for another password.
pub fn yescrypt_check(alloc: Global, password: &str, stored: &str) -> Result<(), CheckError>
    ensures answer { IsAnswer (yescrypt_answer password.now stored.now) result }
    ensures passed { (result ≡ Err CheckError.OutOfMemory → ⊥)
        → (result ≡ Ok tt) ↔ ((length password.now ≤ password_max) × IsYescryptText password.now stored.now) }
{
    let kept = CryptKept::new(alloc);
    let mut counts = Counts::new();
    yescrypt_check_kept(alloc, &kept, password, stored, &mut counts)
}

/// The same check, in the table that is kept. On a verdict it adds 44 look-ups of characters of the hash and 36 comparisons
/// to the counts; else at most 44 and 4.
#[tactic(auto, unfolding(crate::specs::Check::yescrypt_answer))]
pub fn yescrypt_check_kept(
    alloc: Global,
    kept: &CryptKept,
    password: &str,
    stored: &str,
    counts: &mut Counts,
) -> Result<(), CheckError>
    requires looks { counts.old.looks ≤ 2 ^ 62 }
    requires sames { counts.old.sames ≤ 2 ^ 62 }
    ensures answer { IsAnswer (yescrypt_answer password.now stored.now) result }
    ensures looks { is_verdict result ≡ true → counts.new.looks ≡ counts.old.looks + 44 }
    ensures sames { is_verdict result ≡ true → counts.new.sames ≡ counts.old.sames + 36 }
    ensures looks_stay { counts.old.looks ≤ counts.new.looks }
    ensures most_looks { counts.new.looks ≤ counts.old.looks + 44 }
    ensures sames_stay { counts.old.sames ≤ counts.new.sames }
    ensures most_sames { is_verdict result ≡ false → counts.new.sames ≤ counts.old.sames + 4 }
{
    match yescrypt_text(stored, counts) {
        Err(fault) => Err(CheckError::InvalidFormat(fault)),
        Ok(parts) => check_yescrypt_parts(alloc, kept, password.as_bytes(), parts, counts),
    }
}

// Whether the hash is that of the password, as the comparison says.
fn check_scrypt_parts<C: Compare>(
    alloc: Global,
    kept: &CryptKept,
    password: &[u8],
    parts: ScryptParts<'_>,
    compare: &mut C,
) -> Result<(), CheckError>
    requires bounds { scrypt_in_bounds parts.params ≡ true }
    requires salt { length parts.salt.now ≤ 86 }
    requires sames { C.sames compare.old ≤ 2 ^ 62 + 8 }
    ensures answer { IsAnswer (scrypt_verdict_by C.same password.now (as_scrypt (Ok parts.entry))) result }
    ensures looks { C.looks compare.new ≡ C.looks compare.old }
    ensures sames { is_verdict result ≡ true → C.sames compare.new ≡ C.sames compare.old + 32 }
    ensures sames_stay { C.sames compare.old ≤ C.sames compare.new }
    ensures no_sames { is_verdict result ≡ false → C.sames compare.new ≡ C.sames compare.old }
{
    if password.len() > PASSWORD_MAX {
        return Err(CheckError::PasswordTooLong);
    }
    match kept.scrypt(alloc, password, parts.salt, parts.params) {
        Err(AllocError) => Err(CheckError::OutOfMemory),
        Ok(scrypt_key) => answer_of(compare.same_hashes(&scrypt_key, &parts.hash)),
    }
}

/// Checks a password against a text `$7$parameters-and-salt$hash`, as crypt(3) makes it by scrypt.
///
/// # Errors
///
/// As [`yescrypt_check`].
pub fn scrypt_check(alloc: Global, password: &str, stored: &str) -> Result<(), CheckError>
    ensures answer { IsAnswer (scrypt_answer password.now stored.now) result }
    ensures passed { (result ≡ Err CheckError.OutOfMemory → ⊥)
        → (result ≡ Ok tt) ↔ ((length password.now ≤ password_max) × IsScryptText password.now stored.now) }
{
    let kept = CryptKept::new(alloc);
    let mut counts = Counts::new();
    scrypt_check_kept(alloc, &kept, password, stored, &mut counts)
}

/// The same check, in the table that is kept. On a verdict it adds 44 look-ups of characters of the hash and 36 comparisons
/// to the counts; else at most 44 and 4.
#[tactic(auto, unfolding(crate::specs::Check::scrypt_answer))]
pub fn scrypt_check_kept(
    alloc: Global,
    kept: &CryptKept,
    password: &str,
    stored: &str,
    counts: &mut Counts,
) -> Result<(), CheckError>
    requires looks { counts.old.looks ≤ 2 ^ 62 }
    requires sames { counts.old.sames ≤ 2 ^ 62 }
    ensures answer { IsAnswer (scrypt_answer password.now stored.now) result }
    ensures looks { is_verdict result ≡ true → counts.new.looks ≡ counts.old.looks + 44 }
    ensures sames { is_verdict result ≡ true → counts.new.sames ≡ counts.old.sames + 36 }
    ensures looks_stay { counts.old.looks ≤ counts.new.looks }
    ensures most_looks { counts.new.looks ≤ counts.old.looks + 44 }
    ensures sames_stay { counts.old.sames ≤ counts.new.sames }
    ensures most_sames { is_verdict result ≡ false → counts.new.sames ≤ counts.old.sames + 4 }
{
    match scrypt_text(stored, counts) {
        Err(fault) => Err(CheckError::InvalidFormat(fault)),
        Ok(parts) => check_scrypt_parts(alloc, kept, password.as_bytes(), parts, counts),
    }
}
