//! Texts that are made.

ghost use Rattle.std.specs.Prelude.{◌≡◌, ◌≤◌, ◌^◌, ◌<◌, Err, IsNone, MatchResult, Ok, length, true};
ghost use Rattle.yescrypt_plain.specs.Made.{IsMakeError, scrypt_made, scrypt_make_fault, scrypt_text_of, yescrypt_made};
ghost use Rattle.yescrypt_plain.specs.Made.{yescrypt_make_fault, yescrypt_text_of};
ghost use Rattle.yescrypt_plain.specs.Params.{in_bounds, scrypt_in_bounds};

use crate::field::{hash_field, push_salt};
use crate::params::{in_bounds, push_yescrypt_params, scrypt_in_bounds, scrypt_params_text};
use crate::text::is_scrypt_salt;
use crate::{CryptKept, MakeError, ScryptParams, YescryptParams, yescrypt};
use phc_kdf::PASSWORD_MAX;
use pieces::short_bytes::ShortBytes;
use std::alloc::{AllocError, Global};

// The first cause that no text `$y$` is made.
fn yescrypt_make_fault(password: &[u8], salt: &[u8], params: YescryptParams) -> Option<MakeError>
    ensures fault { result ≡ yescrypt_make_fault password.now salt.now params }
    ensures bounds { IsNone result → in_bounds params ≡ true }
    ensures salt { IsNone result → length salt.now ≤ 64 }
    ensures password { IsNone result → length password.now < 2 ^ 30 }
{
    if !in_bounds(params) {
        return Some(MakeError::Cost);
    }
    if salt.len() < 1 || 64 < salt.len() {
        return Some(MakeError::Salt);
    }
    if password.len() > PASSWORD_MAX {
        return Some(MakeError::PasswordTooLong);
    }
    None
}

// The text of these parts.
fn yescrypt_text_of(params: YescryptParams, salt: &[u8], hash: &[u8; 32]) -> ShortBytes<154>
    requires bounds { in_bounds params ≡ true }
    requires salt { length salt.now ≤ 64 }
    ensures { result ≡ yescrypt_text_of params salt.now hash.now }
{
    let mut text = ShortBytes::from_slice(b"$y$");
    push_yescrypt_params(&mut text, params);
    text.push_all(b"$");
    push_salt(&mut text, salt);
    text.push_all(b"$");
    text.push_all(&hash_field(hash));
    text
}

/// The text `$y$parameters$salt$hash` for a password, a salt of 1 to 64 bytes and costs.
///
/// # Errors
///
/// The first of [`MakeError`].
#[tactic(auto, unfolding(crate::specs::Made::yescrypt_made))]
pub fn yescrypt_text(
    alloc: Global,
    password: &[u8],
    salt: &[u8],
    params: YescryptParams,
) -> Result<ShortBytes<154>, MakeError>
    ensures text { MatchResult result
        (λ text. yescrypt_made password.now salt.now params ≡ Ok text)
        (λ e. IsMakeError (yescrypt_made password.now salt.now params) e) }
{
    if let Some(fault) = yescrypt_make_fault(password, salt, params) {
        return Err(fault);
    }
    match yescrypt(alloc, password, salt, params) {
        Err(AllocError) => Err(MakeError::OutOfMemory),
        Ok(key) => Ok(yescrypt_text_of(params, salt, &key)),
    }
}

// The first cause that no text `$7$` is made.
fn scrypt_make_fault(password: &[u8], salt: &[u8], params: ScryptParams) -> Option<MakeError>
    ensures fault { result ≡ scrypt_make_fault password.now salt.now params }
    ensures bounds { IsNone result → scrypt_in_bounds params ≡ true }
    ensures salt { IsNone result → length salt.now ≤ 86 }
    ensures password { IsNone result → length password.now < 2 ^ 30 }
{
    if !scrypt_in_bounds(params) {
        return Some(MakeError::Cost);
    }
    if salt.len() < 1 || !is_scrypt_salt(salt) {
        return Some(MakeError::Salt);
    }
    if password.len() > PASSWORD_MAX {
        return Some(MakeError::PasswordTooLong);
    }
    None
}

// The text of these parts.
fn scrypt_text_of(params: ScryptParams, salt: &[u8], hash: &[u8; 32]) -> ShortBytes<144>
    requires bounds { scrypt_in_bounds params ≡ true }
    requires salt { length salt.now ≤ 86 }
    ensures { result ≡ scrypt_text_of params salt.now hash.now }
{
    let mut text = ShortBytes::from_slice(b"$7$");
    text.push_all(scrypt_params_text(params).as_slice());
    text.push_all(salt);
    text.push_all(b"$");
    text.push_all(&hash_field(hash));
    text
}

/// The text `$7$parameters-and-salt$hash` for a password, a salt of 1 to 86 characters of crypt's alphabet, which stand for
/// themselves, and costs.
///
/// # Errors
///
/// The first of [`MakeError`].
#[tactic(auto, unfolding(crate::specs::Made::scrypt_made))]
pub fn scrypt_text(
    alloc: Global,
    password: &[u8],
    salt: &[u8],
    params: ScryptParams,
) -> Result<ShortBytes<144>, MakeError>
    ensures text { MatchResult result
        (λ text. scrypt_made password.now salt.now params ≡ Ok text)
        (λ e. IsMakeError (scrypt_made password.now salt.now params) e) }
{
    if let Some(fault) = scrypt_make_fault(password, salt, params) {
        return Err(fault);
    }
    match CryptKept::new(alloc).scrypt(alloc, password, salt, params) {
        Err(AllocError) => Err(MakeError::OutOfMemory),
        Ok(key) => Ok(scrypt_text_of(params, salt, &key)),
    }
}
