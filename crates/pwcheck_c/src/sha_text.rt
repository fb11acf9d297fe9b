//! Texts of SHA-crypt for a salt that is given.

ghost use Rattle.std.specs.Prelude.{◌≡◌, ◌≤◌, ◌<◌, ◌+◌, ◌^◌, ◌++◌, ◌==◌, ◌&&◌, codes, not, length, true, false};
ghost use Rattle.std.specs.List.{list_all};
ghost use Rattle.sha_crypt.specs.Simple.{made_text, sha256_text, sha512_text};
ghost use Rattle.pwcheck_c.specs.Inputs.{is_password, is_salt, is_salt_character, text_takes};
ghost use Rattle.c_buffers.specs.Put.{IsPut};
ghost use Rattle.std.specs.Str.{is_utf8};
ghost use Rattle.phc_kdf.specs.Limits.{password_max};
ghost use Rattle.sha_crypt.specs.Limits.{salt_max_len};
ghost use Rattle.pwcheck_c.specs.Statuses.{status_out_of_range};

use crate::check::text_of;
use crate::room::sha_text_len;
use crate::statuses::{NO_ROOM, OUT_OF_RANGE};
use c_buffers::put;
use pieces::short_bytes::ShortBytes;
use sha_crypt::{
    Family, ROUNDS_DEFAULT, SALT_MAX_LEN, Sha256Params, Sha512Params, TEXT_MAX, password_text,
};
use stored_check::PASSWORD_MAX;

// Whether this is a character of a salt.
fn is_salt_character(c: u8) -> bool
    ensures { result ≡ is_salt_character c }
{
    c.is_ascii_alphanumeric() || c == b'.' || c == b'/'
}

// Whether these are characters of a salt.
fn are_salt_characters(salt: &[u8]) -> bool
    ensures { result ≡ list_all is_salt_character salt.now }
{
    salt.iter().all(|c| is_salt_character(*c))
}

// Whether this is a salt.
fn is_salt(salt: &[u8]) -> bool
    ensures test { result ≡ is_salt salt.now }
    ensures short { result ≡ true → length salt.now ≤ salt_max_len }
{
    1 <= salt.len() && salt.len() <= SALT_MAX_LEN && are_salt_characters(salt)
}

// Whether a check can match this password.
fn is_password(password: &[u8]) -> bool
    ensures test { result ≡ (is_password password.now && is_utf8 password.now) }
    ensures short { result ≡ true → length password.now ≤ password_max }
{
    password.len() <= PASSWORD_MAX && text_of(password).is_some()
}

// The text of a family for a password and a salt.
fn made_text(family: Family, password: &[u8], salt: &[u8], rounds: usize) -> ShortBytes<TEXT_MAX>
    requires salt { length salt.now ≤ salt_max_len }
    ensures { result ≡ made_text family password.now salt.now rounds }
{
    password_text(family, rounds != ROUNDS_DEFAULT, password, salt, rounds)
}

/// Writes the SHA-256-crypt text `$5$[rounds=N$]salt$hash` of a password, without a zero behind it: at most 80
/// characters. `rounds=N$` stands there for other rounds than 5,000.
#[unsafe(no_mangle)]
pub extern "C" fn pwcheck_sha256_crypt_text(
    password: &[u8],
    salt: &[u8],
    rounds: u32,
    out: &mut [u8],
    len: &mut usize,
) -> i32
    ensures text { text_takes password.now salt.now rounds ≡ true
        → IsPut (sha256_text password.now salt.now rounds) out.old out.new len.old len.new result }
    ensures refused { text_takes password.now salt.now rounds ≡ false
        → (result ≡ status_out_of_range) × (out.new ≡ out.old) × (len.new ≡ len.old) }
{
    if !is_password(password) || !is_salt(salt) {
        return OUT_OF_RANGE;
    }
    match Sha256Params::new(rounds as usize) {
        Ok(params) => {
            if out.len() < sha_text_len(Family::Sha256, salt.len(), rounds) {
                return NO_ROOM;
            }
            let text = made_text(Family::Sha256, password, salt, params.rounds());
            put(text.as_slice(), out, len)
        }
        Err(_) => OUT_OF_RANGE,
    }
}

/// Writes the SHA-512-crypt text `$6$[rounds=N$]salt$hash` of a password, without a zero behind it: at most 123
/// characters. `rounds=N$` stands there for other rounds than 5,000.
#[unsafe(no_mangle)]
pub extern "C" fn pwcheck_sha512_crypt_text(
    password: &[u8],
    salt: &[u8],
    rounds: u32,
    out: &mut [u8],
    len: &mut usize,
) -> i32
    ensures text { text_takes password.now salt.now rounds ≡ true
        → IsPut (sha512_text password.now salt.now rounds) out.old out.new len.old len.new result }
    ensures refused { text_takes password.now salt.now rounds ≡ false
        → (result ≡ status_out_of_range) × (out.new ≡ out.old) × (len.new ≡ len.old) }
{
    if !is_password(password) || !is_salt(salt) {
        return OUT_OF_RANGE;
    }
    match Sha512Params::new(rounds as usize) {
        Ok(params) => {
            if out.len() < sha_text_len(Family::Sha512, salt.len(), rounds) {
                return NO_ROOM;
            }
            let text = made_text(Family::Sha512, password, salt, params.rounds());
            put(text.as_slice(), out, len)
        }
        Err(_) => OUT_OF_RANGE,
    }
}
