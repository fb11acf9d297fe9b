//! Texts `$2a$`, `$2b$` and `$2y$`.

ghost use Rattle.std.specs.Prelude.{◌≡◌, ◌≤◌, IfSome, MatchOption, drop, length, take};
ghost use Rattle.bcrypt_plain.specs.Field.{field_bytes};
ghost use Rattle.bcrypt_plain.specs.Text.{cost_of, is_digit};
ghost use Rattle.crypt_text.specs.Settings.{bcrypt_setting, cleared, cleared_salt};
ghost use Rattle.crypt_text.specs.Texts.{bcrypt_of, bcrypt_text, if_setting};
ghost use Rattle.crypt_text.specs.Views.{as_bcrypt, bcrypt_view};

use crate::fields::two_digits;
use crate::{CryptError, TEXT_MAX};
use bcrypt_plain::{bcrypt, decode_salt, encode_hash, encode_salt, measured_bcrypt};
use pieces::places::first_place;
use pieces::short_bytes::ShortBytes;

// What the rest of a setting says: the cost, and the bytes of the salt.
#[derive(Clone, Copy)]
struct BcryptParts {
    cost: u32,
    salt: [u8; 16],
}

// The alphabet, each character at the place of its value.
const CHARACTERS: [u8; 64] = *b"./ABCDEFGHIJKLMNOPQRSTUVWXYZabcdefghijklmnopqrstuvwxyz0123456789";

// The character of the same value without its four low bits.
fn cleared(c: u8) -> u8
    ensures { result ≡ cleared c }
{
    match first_place(&CHARACTERS, c) {
        Some(value) => CHARACTERS[16 * (value / 16)],
        None => 0,
    }
}

// The characters of a salt, the last one cleared.
fn cleared_salt(characters: &[u8]) -> [u8; 22]
    requires { length characters.now ≡ 22 }
    ensures { result ≡ cleared_salt characters.now }
{
    let mut salt = [0; 22];
    salt.copy_from_slice(characters);
    salt[21] = cleared(characters[21]);
    salt
}

// Whether a byte is a digit.
fn is_digit(c: u8) -> bool
    ensures { result ≡ is_digit c }
{
    b'0' <= c && c <= b'9'
}

// The cost that two digits write.
fn cost_of(digits: &[u8]) -> Option<u32>
    ensures cost { result ≡ cost_of digits.now }
    ensures most { IfSome result (λ n. n ≤ 31) }
{
    if digits.len() == 2 && is_digit(digits[0]) && is_digit(digits[1]) {
        let cost = 10 * (digits[0] as u32 - 48) + (digits[1] as u32 - 48);
        if 4 <= cost && cost <= 31 {
            return Some(cost);
        }
    }
    None
}

// The bytes of the salt that 22 characters write.
fn salt_of(characters: &[u8; 22]) -> Option<[u8; 16]>
    ensures { result ≡ field_bytes 22 characters.now }
{
    decode_salt(characters)
}

// What the rest of a setting says.
#[tactic(auto, unfolding(crate::specs::Settings::bcrypt_setting))]
fn bcrypt_setting(rest: &[u8]) -> Option<BcryptParts>
    ensures parts { as_bcrypt result ≡ bcrypt_setting rest.now }
    ensures cost { IfSome result (λ p. p.cost ≤ 31) }
{
    if rest.len() < 25 || rest[2] != b'$' {
        return None;
    }
    match (cost_of(&rest[..2]), salt_of(&cleared_salt(&rest[3..25]))) {
        (Some(cost), Some(salt)) => Some(BcryptParts { cost, salt }),
        _ => None,
    }
}

// The hash for an identifier.
fn bcrypt_of(id: &[u8], phrase: &[u8], salt: &[u8; 16], cost: u32) -> [u8; 23]
    requires cost { cost ≤ 31 }
    ensures { result ≡ bcrypt_of id.now phrase.now salt.now cost }
{
    if id == b"2a".as_slice() {
        measured_bcrypt(phrase, salt, cost)
    } else {
        bcrypt(phrase, salt, cost)
    }
}

// `$id$cost$salt-and-hash`.
fn bcrypt_text(id: &[u8], phrase: &[u8], parts: BcryptParts) -> ShortBytes<TEXT_MAX>
    requires id { length id.now ≤ 2 }
    requires cost { parts.cost ≤ 31 }
    ensures { result ≡ bcrypt_text id.now phrase.now (bcrypt_view parts) }
{
    let mut text = ShortBytes::from_slice(b"$");
    text.push_all(id);
    text.push_all(b"$");
    text.push_all(&two_digits(parts.cost));
    text.push_all(b"$");
    text.push_all(&encode_salt(&parts.salt));
    text.push_all(&encode_hash(&bcrypt_of(id, phrase, &parts.salt, parts.cost)));
    text
}

/// The answer for a phrase and a setting.
#[inline(never)]
pub(crate) fn bcrypt_answer(
    phrase: &[u8],
    setting: &[u8],
) -> Result<ShortBytes<TEXT_MAX>, CryptError>
    requires prefix { 4 ≤ length setting.now }
    ensures { result ≡ if_setting (bcrypt_text (take 2 (drop 1 setting.now)) phrase.now) (bcrypt_setting (drop 4 setting.now)) }
{
    match bcrypt_setting(&setting[4..]) {
        None => Err(CryptError::Setting),
        Some(parts) => Ok(bcrypt_text(&setting[1..3], phrase, parts)),
    }
}
