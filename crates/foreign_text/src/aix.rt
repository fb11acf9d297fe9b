//! Texts of AIX.

ghost use Rattle.std.specs.Prelude.{◌≡◌, ◌≤◌, ◌^◌, ◌+◌, ◌==◌, ℕ, drop, length};
ghost use Rattle.std.specs.List.{list_any};
ghost use Rattle.base64ct.specs.Alphabets.{base64_crypt};
ghost use Rattle.base64ct.specs.Decoding.{decoding};
ghost use Rattle.pieces.specs.Characters.{dollar};
ghost use Rattle.pieces.specs.Pieces.{behind, lent};
ghost use Rattle.foreign_text.specs.Aix.{aix, aix_fields, aix_key, by_power, four, fours_turned, is_crypt_byte, is_fourth_byte, is_last_part, is_last_two};
ghost use Rattle.foreign_text.specs.Aix.{two_digits, whole_size, with_dollar};
ghost use Rattle.foreign_text.specs.Fields.{in_three};
ghost use Rattle.foreign_text.specs.Views.{as_answer, as_three};

use crate::ForeignFault;
use crate::answers::put_made;
use crate::fields::{Three, number_of, three_at};
use crate::kdf::{FieldBytes, Kdf, MadeText, Pbkdf2Hash, with_bytes};
use base64ct::{Base64Crypt, Encoding};
use pieces::short_bytes::ShortBytes;
use pieces::{begins_with, behind};

fn has_dollar(rest: &[u8]) -> bool
    ensures { result ≡ list_any (λ (b : ℕ). b == dollar) rest.now }
{
    rest.iter().any(|b| *b == b'$')
}

/// What comes after a tag, where a `$` is in it.
pub(crate) fn behind_aix<'a>(text: &'a str, tag: &str) -> Option<&'a str>
    ensures { lent result ≡ with_dollar (behind text.now tag.now) }
{
    match behind(text, tag) {
        Some(rest) if has_dollar(rest.as_bytes()) => Some(rest),
        _ => None,
    }
}

// The number of two digits.
fn two_digits(cost: &str) -> Option<u32>
    ensures { result ≡ two_digits cost.now }
{
    if cost.len() != 2 {
        return None;
    }
    match behind(cost, "0") {
        Some(digit) => number_of(digit),
        None => number_of(cost),
    }
}

// 2^`n`.
fn power(n: u32) -> u32
    requires { n ≤ 31 }
    ensures { result ≡ 2 ^ n }
{
    1 << n
}

// PBKDF2 with the rounds of a cost.
fn by_power(hash: Pbkdf2Hash, cost: Option<u32>) -> Result<Kdf, ForeignFault>
    ensures { result ≡ by_power hash cost }
{
    let Some(n) = cost else {
        return Err(ForeignFault::Rounds);
    };
    if n < 32 {
        Ok(Kdf::Pbkdf2 {
            hash,
            rounds: power(n),
        })
    } else {
        Err(ForeignFault::Rounds)
    }
}

// The first four characters in the other order.
fn first_turned(key: &[u8]) -> [u8; 4]
    requires { 4 ≤ length key.now }
    ensures { result ≡ four key.now }
{
    [key[3], key[2], key[1], key[0]]
}

// The characters after the first four.
fn after_four(key: &[u8]) -> &[u8]
    requires { 4 ≤ length key.now }
    ensures after { result.now ≡ drop 4 key.now }
    ensures fewer { length result.now + 4 ≡ length key.now }
{
    &key[4..]
}

// Four characters at a time in the other order.
#[tactic(auto, using(crate::proofs::Fours::one_more, crate::proofs::Fours::all_turned))]
fn fours_turned(mut key: &[u8]) -> ShortBytes<84>
    requires few { length key.now ≤ 84 }
    ensures turned { result ≡ fours_turned key.now }
{
    let mut turned = ShortBytes::new();
    while key.len() >= 4 {
        turned.push_all(&first_turned(key));
        key = after_four(key);
    }
    turned
}

// How many characters those of the whole bytes are.
fn whole_size(hash: Pbkdf2Hash) -> usize
    ensures size { result ≡ whole_size hash }
    ensures few { result ≤ 84 }
{
    match hash {
        Pbkdf2Hash::Sha1 => 24,
        Pbkdf2Hash::Sha256 => 40,
        Pbkdf2Hash::Sha512 => 84,
    }
}

fn is_crypt_byte(b: u8) -> bool
    ensures { result ≡ is_crypt_byte b }
{
    b.is_ascii_alphanumeric() || b == b'.' || b == b'/'
}

fn is_fourth_byte(b: u8) -> bool
    ensures { result ≡ is_fourth_byte b }
{
    b".26AEIMQUYcgkosw".iter().any(|c| *c == b)
}

// Whether the characters are those of two bytes more.
fn is_last_two(last: &[u8]) -> bool
    ensures { result ≡ is_last_two last.now }
{
    match last {
        [a, b, c] => *a == b'.' && is_fourth_byte(*b) && is_crypt_byte(*c),
        _ => false,
    }
}

// Whether the characters are those after the whole bytes.
fn is_last_part(hash: Pbkdf2Hash, last: &[u8]) -> bool
    ensures { result ≡ is_last_part hash last.now }
{
    match hash {
        Pbkdf2Hash::Sha1 | Pbkdf2Hash::Sha256 => is_last_two(last),
        Pbkdf2Hash::Sha512 => last == b"..".as_slice(),
    }
}

// The bytes whose encoding these characters are.
fn decoded(field: &[u8]) -> Option<FieldBytes>
    requires few { length field.now ≤ 84 }
    ensures { result ≡ decoding base64_crypt field.now }
{
    let mut room = [0; 96];
    match Base64Crypt::decode_into(field, &mut room) {
        Ok(n) => Some(ShortBytes::from_slice(&room[..n])),
        Err(_) => None,
    }
}

// The whole bytes of a key.
fn aix_key(hash: Pbkdf2Hash, key: &[u8]) -> Option<FieldBytes>
    ensures { result ≡ aix_key hash key.now }
{
    let size = whole_size(hash);
    if key.len() < size {
        return None;
    }
    let (whole, last) = key.split_at(size);
    if is_last_part(hash, last) {
        decoded(fours_turned(whole).as_slice())
    } else {
        None
    }
}

// The text of a cost, a salt and a key.
fn aix_fields(
    hash: Pbkdf2Hash,
    fields: Result<Three<'_>, ForeignFault>,
) -> Result<MadeText, ForeignFault>
    ensures { result ≡ in_three (aix_fields hash) (as_three fields.entry) }
{
    match fields {
        Ok(f) => with_bytes(
            by_power(hash, two_digits(f.first)),
            f.second.as_bytes(),
            aix_key(hash, f.third.as_bytes()),
        ),
        Err(fault) => Err(fault),
    }
}

/// The stored text of what comes after a tag.
pub(crate) fn aix<'a>(
    hash: Pbkdf2Hash,
    rest: &str,
    made: &mut MadeText,
) -> Result<Option<&'a str>, ForeignFault>
    ensures { as_answer result made.new ≡ aix hash rest.now }
{
    put_made(aix_fields(hash, three_at(rest, '$')), made)
}
