//! Texts `$y$`.

ghost use Rattle.std.specs.Prelude.{◌≡◌, ◌≤◌, ◌+◌, ◌++◌, IfSome, codes, drop, is_ok, length, true};
ghost use Rattle.yescrypt_plain.specs.Field.{crypt_field};
ghost use Rattle.yescrypt_plain.specs.Params.{in_bounds};
ghost use Rattle.crypt_text.specs.Limits.{phrase_max, setting_max};
ghost use Rattle.crypt_text.specs.Settings.{salt_bytes, yescrypt_by_texts, yescrypt_setting};
ghost use Rattle.crypt_text.specs.Texts.{IsAnswer, if_setting, if_short, yescrypt_text};
ghost use Rattle.crypt_text.specs.Views.{as_yescrypt, yescrypt_view};

use crate::bytes::{before_last_dollar, cut_at_dollar};
use crate::fields::crypt_field;
use crate::texts::LONG_SETTING_MAX;
use crate::{CryptError, TEXT_MAX};
use base64ct::{Base64ShaCrypt, Encoding};
use pieces::short_bytes::ShortBytes;
use std::alloc::{AllocError, Global};
use yescrypt_plain::{YescryptParams, read_yescrypt_params, yescrypt};

// What the rest of a setting says: the parameters and the salt, and the texts that say it.
#[derive(Clone, Copy)]
struct YescryptParts<'a> {
    params: YescryptParams,
    salt: ShortBytes<64>,
    params_text: &'a [u8],
    salt_text: &'a [u8],
}

// The bytes of a salt whose characters a text is.
fn salt_bytes(text: &[u8]) -> Option<ShortBytes<64>>
    ensures value { result ≡ salt_bytes text.now }
    ensures most { IfSome result (λ salt. length salt ≤ 64) }
{
    if text.len() > 86 {
        return None;
    }
    let mut bytes = [0u8; 64];
    match Base64ShaCrypt::decode(text, &mut bytes) {
        Ok(salt) => Some(ShortBytes::from_slice(salt)),
        Err(_) => None,
    }
}

// By the two texts.
fn yescrypt_by_texts<'a>(params_text: &'a [u8], salt_text: &'a [u8]) -> Option<YescryptParts<'a>>
    ensures parts { as_yescrypt result ≡ yescrypt_by_texts params_text.now salt_text.now }
    ensures bounds { IfSome result (λ p. in_bounds p.params ≡ true) }
    ensures salt { IfSome result (λ p. length p.salt ≤ 64) }
    ensures texts { IfSome result (λ p. length p.params_text.now + length p.salt_text.now ≤ length params_text.now + length salt_text.now) }
{
    match (read_yescrypt_params(params_text), salt_bytes(salt_text)) {
        (Ok(params), Some(salt)) => Some(YescryptParts {
            params,
            salt,
            params_text,
            salt_text,
        }),
        _ => None,
    }
}

// What the rest of a setting says.
#[tactic(auto, unfolding(crate::specs::Settings::yescrypt_setting))]
fn yescrypt_setting(rest: &[u8]) -> Option<YescryptParts<'_>>
    ensures parts { as_yescrypt result ≡ yescrypt_setting rest.now }
    ensures bounds { IfSome result (λ p. in_bounds p.params ≡ true) }
    ensures salt { IfSome result (λ p. length p.salt ≤ 64) }
    ensures texts { IfSome result (λ p. length p.params_text.now + length p.salt_text.now + 1 ≤ length rest.now) }
{
    match cut_at_dollar(rest) {
        None => None,
        Some((params, others)) => yescrypt_by_texts(params, before_last_dollar(others)),
    }
}

// `$y$parameters$salt$hash`.
fn joined(params: &[u8], salt: &[u8], key: &[u8; 32]) -> ShortBytes<TEXT_MAX>
    requires room { length params.now + length salt.now + 48 ≤ 384 }
    ensures { result ≡ codes "$y$" ++ params.now ++ codes "$" ++ salt.now ++ codes "$" ++ crypt_field key.now }
{
    let mut text = ShortBytes::from_slice(b"$y$");
    text.push_all(params);
    text.push_all(b"$");
    text.push_all(salt);
    text.push_all(b"$");
    text.push_all(crypt_field(key).as_slice());
    text
}

// The text, or want of memory.
fn yescrypt_text(
    alloc: Global,
    phrase: &[u8],
    parts: &YescryptParts<'_>,
) -> Result<ShortBytes<TEXT_MAX>, CryptError>
    requires phrase { length phrase.now ≤ phrase_max }
    requires bounds { in_bounds parts.now.params ≡ true }
    requires salt { length parts.now.salt ≤ 64 }
    requires room { length parts.now.params_text.now + length parts.now.salt_text.now + 4 ≤ setting_max }
    ensures { IsAnswer (Ok (yescrypt_text phrase.now (yescrypt_view parts.now))) true result }
{
    match yescrypt(alloc, phrase, parts.salt.as_slice(), parts.params) {
        Err(AllocError) => Err(CryptError::OutOfMemory),
        Ok(key) => Ok(joined(parts.params_text, parts.salt_text, &key)),
    }
}

/// The answer for a phrase and a setting.
#[inline(never)]
pub(crate) fn yescrypt_answer(
    alloc: Global,
    phrase: &[u8],
    setting: &[u8],
) -> Result<ShortBytes<TEXT_MAX>, CryptError>
    requires phrase { length phrase.now ≤ phrase_max }
    requires prefix { 3 ≤ length setting.now }
    ensures { let expected = if_short setting.now
        (if_setting (yescrypt_text phrase.now) (yescrypt_setting (drop 3 setting.now)))
        in IsAnswer expected (is_ok expected) result }
{
    if setting.len() > LONG_SETTING_MAX {
        return Err(CryptError::TooLong);
    }
    match yescrypt_setting(&setting[3..]) {
        None => Err(CryptError::Setting),
        Some(parts) => yescrypt_text(alloc, phrase, &parts),
    }
}
