//! Texts `$sha1$`.

ghost use Rattle.std.specs.Prelude.{◌≡◌, ◌≤◌, IfSome, codes, length, true};
ghost use Rattle.pieces.specs.Pieces.{behind, lent};
ghost use Rattle.crypt_text.specs.Settings.{are_sha1_rounds, is_sha1_salt, sha1_by_number, sha1_setting};
ghost use Rattle.crypt_text.specs.Texts.{if_setting, sha1_text};
ghost use Rattle.crypt_text.specs.Views.{as_sha1, sha1_view};

use crate::bytes::{before_dollar, begins, cut_at_dollar};
use crate::fields::{number_of, push_number};
use crate::{CryptError, TEXT_MAX};
use pieces::characters::are_crypt_characters;
use pieces::short_bytes::ShortBytes;
use sha1_crypt::{encode_sha1, sha1_crypt};

// What a setting says: rounds and a salt.
#[derive(Clone, Copy)]
struct Sha1Parts<'a> {
    rounds: u32,
    salt: &'a [u8],
}

// Whether a number is one of rounds.
fn are_sha1_rounds(n: usize) -> bool
    ensures { result ≡ are_sha1_rounds n }
{
    1 <= n && n <= 4_294_967_295
}

// Whether these are the bytes of a salt.
fn is_sha1_salt(salt: &[u8]) -> bool
    ensures test { result ≡ is_sha1_salt salt.now }
    ensures short { result ≡ true → length salt.now ≤ 64 }
{
    1 <= salt.len() && salt.len() <= 64 && are_crypt_characters(salt)
}

// By the number of rounds, with what stands after its `$`.
fn sha1_by_number(number: Option<usize>, rest: &[u8]) -> Option<Sha1Parts<'_>>
    ensures parts { as_sha1 result ≡ sha1_by_number number rest.now }
    ensures rounds { IfSome result (λ p. 1 ≤ p.rounds) }
    ensures salt { IfSome result (λ p. length p.salt.now ≤ 64) }
{
    let rounds = number?;
    let salt = before_dollar(rest);
    if !are_sha1_rounds(rounds) || !is_sha1_salt(salt) {
        return None;
    }
    Some(Sha1Parts {
        rounds: rounds as u32,
        salt,
    })
}

// What stands after `$sha1$`, where a setting begins with it.
fn after_prefix(setting: &[u8]) -> Option<&[u8]>
    ensures { lent result ≡ behind setting.now (codes "$sha1$") }
{
    if begins(setting, b"$sha1$") {
        Some(&setting[6..])
    } else {
        None
    }
}

// What a setting says.
#[tactic(auto, unfolding(crate::specs::Settings::sha1_setting))]
fn sha1_setting(setting: &[u8]) -> Option<Sha1Parts<'_>>
    ensures parts { as_sha1 result ≡ sha1_setting setting.now }
    ensures rounds { IfSome result (λ p. 1 ≤ p.rounds) }
    ensures salt { IfSome result (λ p. length p.salt.now ≤ 64) }
{
    let Some(rest) = after_prefix(setting) else {
        return None;
    };
    match cut_at_dollar(rest) {
        None => None,
        Some((digits, others)) => sha1_by_number(number_of(digits), others),
    }
}

// `$sha1$rounds$salt$hash`.
fn sha1_text(phrase: &[u8], parts: Sha1Parts<'_>) -> ShortBytes<TEXT_MAX>
    requires rounds { 1 ≤ parts.rounds }
    requires salt { length parts.salt.now ≤ 64 }
    ensures { result ≡ sha1_text phrase.now (sha1_view parts.entry) }
{
    let mut text = ShortBytes::from_slice(b"$sha1$");
    push_number(&mut text, parts.rounds);
    text.push_all(b"$");
    text.push_all(parts.salt);
    text.push_all(b"$");
    text.push_all(&encode_sha1(&sha1_crypt(phrase, parts.salt, parts.rounds)));
    text
}

/// The answer for a phrase and a setting.
#[inline(never)]
pub(crate) fn sha1_answer(phrase: &[u8], setting: &[u8]) -> Result<ShortBytes<TEXT_MAX>, CryptError>
    ensures { result ≡ if_setting (sha1_text phrase.now) (sha1_setting setting.now) }
{
    match sha1_setting(setting) {
        None => Err(CryptError::Setting),
        Some(parts) => Ok(sha1_text(phrase, parts)),
    }
}
