//! Texts `$5$` and `$6$`.

ghost use Rattle.std.specs.Prelude.{◌≡◌, ◌≤◌, IfSome, codes, length};
ghost use Rattle.std.specs.Option.{option_map};
ghost use Rattle.pieces.specs.Pieces.{behind, lent};
ghost use Rattle.sha_crypt.specs.Fields.{plain_number};
ghost use Rattle.sha_crypt.specs.Limits.{salt_max_len};
ghost use Rattle.pieces.specs.Numbers.{has_leading_zero};
ghost use Rattle.crypt_text.specs.Settings.{are_rounds, sha_by_number, sha_salt, sha_setting};
ghost use Rattle.crypt_text.specs.Texts.{if_setting, sha_text};
ghost use Rattle.crypt_text.specs.Views.{as_sha, sha_view};

use crate::bytes::{before_dollar, begins, cut_at_dollar, front};
use crate::fields::old_number;
use crate::{CryptError, TEXT_MAX};
use pieces::short_bytes::ShortBytes;
use pieces::text::text_of;
use sha_crypt::{Family, ROUNDS_DEFAULT, ROUNDS_MAX, ROUNDS_MIN, SALT_MAX_LEN, password_text};

// What the rest of a setting says: rounds, whether they are written, and a salt.
#[derive(Clone, Copy)]
struct ShaParts<'a> {
    rounds: usize,
    written: bool,
    salt: &'a [u8],
}

// The salt: its first 16 bytes.
fn sha_salt(rest: &[u8]) -> &[u8]
    ensures salt { result.now ≡ sha_salt rest.now }
    ensures short { length result.now ≤ salt_max_len }
{
    front(before_dollar(rest), SALT_MAX_LEN)
}

// What stands behind `rounds=`, where a text begins with it.
fn behind_rounds(rest: &[u8]) -> Option<&[u8]>
    ensures { lent result ≡ behind rest.now (codes "rounds=") }
{
    if begins(rest, b"rounds=") {
        Some(&rest[7..])
    } else {
        None
    }
}

// Whether a zero stands before further digits.
fn has_leading_zero(digits: &[u8]) -> bool
    ensures { result ≡ has_leading_zero digits.now }
{
    digits.len() > 1 && begins(digits, b"0")
}

// The number that a plain decimal writes.
fn plain_number(digits: &[u8]) -> Option<usize>
    ensures { result ≡ plain_number digits.now }
{
    if begins(digits, b"+") || has_leading_zero(digits) {
        return None;
    }
    match text_of(digits) {
        Some(text) => old_number(text),
        None => None,
    }
}

// By the number of rounds that is written.
fn sha_by_number(number: Option<usize>, rest: &[u8]) -> Option<ShaParts<'_>>
    ensures parts { as_sha result ≡ sha_by_number number rest.now }
    ensures salt { IfSome result (λ p. length p.salt.now ≤ salt_max_len) }
{
    let rounds = number?;
    if rounds < ROUNDS_MIN || ROUNDS_MAX < rounds {
        return None;
    }
    Some(ShaParts {
        rounds,
        written: true,
        salt: sha_salt(rest),
    })
}

// What the rest of a setting says.
#[tactic(auto, unfolding(crate::specs::Settings::sha_setting))]
fn sha_setting(rest: &[u8]) -> Option<ShaParts<'_>>
    ensures parts { as_sha result ≡ sha_setting rest.now }
    ensures salt { IfSome result (λ p. length p.salt.now ≤ salt_max_len) }
{
    let Some(named) = behind_rounds(rest) else {
        return Some(ShaParts {
            rounds: ROUNDS_DEFAULT,
            written: false,
            salt: sha_salt(rest),
        });
    };
    match cut_at_dollar(named) {
        None => None,
        Some((digits, others)) => sha_by_number(plain_number(digits), others),
    }
}

/// The answer for a phrase, and what stands behind the prefix of a setting.
#[inline(never)]
pub(crate) fn sha_answer(
    family: Family,
    phrase: &[u8],
    rest: &[u8],
) -> Result<ShortBytes<TEXT_MAX>, CryptError>
    ensures { result ≡ if_setting (sha_text family phrase.now) (sha_setting rest.now) }
{
    match sha_setting(rest) {
        None => Err(CryptError::Setting),
        Some(parts) => Ok(password_text(family, parts.written, phrase, parts.salt, parts.rounds)),
    }
}
