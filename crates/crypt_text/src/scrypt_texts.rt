//! Texts `$7$`.

ghost use Rattle.std.specs.Prelude.{◌≡◌, ◌≤◌, ◌+◌, ◌++◌, ◌||◌, IfSome, codes, drop, false, is_ok, length, take, true};
ghost use Rattle.yescrypt_plain.specs.Field.{crypt_field};
ghost use Rattle.yescrypt_plain.specs.Params.{scrypt_in_bounds};
ghost use Rattle.pieces.specs.Characters.{is_crypt_character};
ghost use Rattle.crypt_text.specs.Limits.{phrase_max, setting_max};
ghost use Rattle.crypt_text.specs.Settings.{are_salt_bytes, is_dollar, scrypt_setting};
ghost use Rattle.crypt_text.specs.Texts.{IsAnswer, if_setting, if_short, scrypt_text};
ghost use Rattle.crypt_text.specs.Views.{as_scrypt, scrypt_view};

use crate::bytes::before_last_dollar;
use crate::fields::crypt_field;
use crate::texts::LONG_SETTING_MAX;
use crate::{CryptError, TEXT_MAX};
use pieces::characters::is_crypt_character;
use pieces::short_bytes::ShortBytes;
use std::alloc::{AllocError, Global};
use yescrypt_plain::{CryptKept, ScryptParams, read_scrypt_params};

// What the rest of a setting says: the parameters, and the salt as it is hashed.
#[derive(Clone, Copy)]
struct ScryptParts<'a> {
    params: ScryptParams,
    salt: &'a [u8],
}

// Whether a byte is a character or `$`.
fn is_salt_byte(b: u8) -> bool
    ensures { result ≡ (is_crypt_character b || is_dollar b) }
{
    is_crypt_character(b) || b == b'$'
}

// Whether the first byte that is neither a character nor `$` stands right behind a `$`.
fn are_salt_bytes(text: &[u8]) -> bool
    ensures { result ≡ are_salt_bytes false text.now }
{
    let mut behind_dollar = false;
    'bytes: for b in text {
        if !is_salt_byte(*b) {
            return behind_dollar;
        }
        behind_dollar = *b == b'$';
    }
    true
}

// What the rest of a setting says.
#[tactic(auto, unfolding(crate::specs::Settings::scrypt_setting))]
fn scrypt_setting(rest: &[u8]) -> Option<ScryptParts<'_>>
    ensures parts { as_scrypt result ≡ scrypt_setting rest.now }
    ensures bounds { IfSome result (λ p. scrypt_in_bounds p.params ≡ true) }
    ensures room { IfSome result (λ p. length p.salt.now + 11 ≤ length rest.now) }
{
    let params = match read_scrypt_params(rest) {
        Ok(params) => params,
        Err(_) => return None,
    };
    let salt = &rest[11..];
    if !are_salt_bytes(salt) {
        return None;
    }
    Some(ScryptParts {
        params,
        salt: before_last_dollar(salt),
    })
}

// `$7$parameters-and-salt$hash`.
fn joined(params: &[u8], salt: &[u8], key: &[u8; 32]) -> ShortBytes<TEXT_MAX>
    requires params { length params.now ≡ 11 }
    requires salt { length salt.now ≤ 325 }
    ensures { result ≡ codes "$7$" ++ params.now ++ salt.now ++ codes "$" ++ crypt_field key.now }
{
    let mut text = ShortBytes::from_slice(b"$7$");
    text.push_all(params);
    text.push_all(salt);
    text.push_all(b"$");
    text.push_all(crypt_field(key).as_slice());
    text
}

// The text, or want of memory.
fn scrypt_text(
    alloc: Global,
    phrase: &[u8],
    rest: &[u8],
    parts: ScryptParts<'_>,
) -> Result<ShortBytes<TEXT_MAX>, CryptError>
    requires phrase { length phrase.now ≤ phrase_max }
    requires rest { length rest.now + 3 ≤ setting_max }
    requires bounds { scrypt_in_bounds parts.params ≡ true }
    requires room { length parts.salt.now + 11 ≤ length rest.now }
    ensures { IsAnswer (Ok (scrypt_text rest.now phrase.now (scrypt_view parts.entry))) true result }
{
    match CryptKept::new(alloc).scrypt(alloc, phrase, parts.salt, parts.params) {
        Err(AllocError) => Err(CryptError::OutOfMemory),
        Ok(key) => Ok(joined(&rest[..11], parts.salt, &key)),
    }
}

/// The answer for a phrase and a setting.
#[inline(never)]
pub(crate) fn scrypt_answer(
    alloc: Global,
    phrase: &[u8],
    setting: &[u8],
) -> Result<ShortBytes<TEXT_MAX>, CryptError>
    requires phrase { length phrase.now ≤ phrase_max }
    requires prefix { 3 ≤ length setting.now }
    ensures { let expected = if_short setting.now
        (if_setting (scrypt_text (drop 3 setting.now) phrase.now) (scrypt_setting (drop 3 setting.now)))
        in IsAnswer expected (is_ok expected) result }
{
    if setting.len() > LONG_SETTING_MAX {
        return Err(CryptError::TooLong);
    }
    let rest = &setting[3..];
    match scrypt_setting(rest) {
        None => Err(CryptError::Setting),
        Some(parts) => scrypt_text(alloc, phrase, rest, parts),
    }
}
