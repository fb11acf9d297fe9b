//! The fields of foreign texts, and what they write.

ghost use Rattle.std.specs.Prelude.{◌≡◌, ◌≤◌, ◌<◌, length};
ghost use Rattle.std.specs.List.{list_all};
ghost use Rattle.pieces.specs.Pieces.{pieces_at};
ghost use Rattle.foreign_text.specs.Fields.{digit_bytes, field_bytes, five_of, is_capital_digit, is_small_digit, logarithm};
ghost use Rattle.foreign_text.specs.Fields.{four_of, logarithm_of, number_of, pbkdf2_cost, plain_hex, scrypt_cost, small_hex, three_of, two_of};
ghost use Rattle.foreign_text.specs.Views.{as_five, as_four, as_three, as_two};

use crate::ForeignFault;
use crate::kdf::{FieldBytes, Kdf, Pbkdf2Hash};
use base64ct::Encoding;
use phc::Value;
use pieces::short_bytes::ShortBytes;
use pieces::{first_piece, is_end};

/// The most characters of a field that is decoded.
const FIELD_MAX: usize = 128;

/// Two fields of a text.
#[derive(Clone, Copy, Debug)]
pub struct Two<'a> {
    pub first: &'a str,
    pub second: &'a str,
}

/// Three fields of a text.
#[derive(Clone, Copy, Debug)]
pub struct Three<'a> {
    pub first: &'a str,
    pub second: &'a str,
    pub third: &'a str,
}

/// A field of a text, and three after it.
#[derive(Clone, Copy, Debug)]
pub struct Four<'a> {
    pub first: &'a str,
    pub others: Three<'a>,
}

/// Two fields of a text, and three after them.
#[derive(Clone, Copy, Debug)]
pub struct Five<'a> {
    pub first: &'a str,
    pub second: &'a str,
    pub others: Three<'a>,
}

/// The fields of a text that is cut at each `cut`, where there are exactly two.
pub fn two_at(text: &str, cut: char) -> Result<Two<'_>, ForeignFault>
    requires ascii { cut < 128 }
    ensures fields { as_two result ≡ two_of (pieces_at cut text.now) }
{
    let (first, rest) = first_piece(text, cut);
    let Some(rest) = rest else {
        return Err(ForeignFault::Form);
    };
    let (second, more) = first_piece(rest, cut);
    if is_end(more) {
        Ok(Two { first, second })
    } else {
        Err(ForeignFault::Form)
    }
}

/// The same, where there are exactly three.
pub fn three_at(text: &str, cut: char) -> Result<Three<'_>, ForeignFault>
    requires ascii { cut < 128 }
    ensures fields { as_three result ≡ three_of (pieces_at cut text.now) }
{
    let (first, others) = first_piece(text, cut);
    let Some(others) = others else {
        return Err(ForeignFault::Form);
    };
    let (second, rest) = first_piece(others, cut);
    let Some(rest) = rest else {
        return Err(ForeignFault::Form);
    };
    let (third, more) = first_piece(rest, cut);
    if !is_end(more) {
        return Err(ForeignFault::Form);
    }
    Ok(Three {
        first,
        second,
        third,
    })
}

/// The same, where there are exactly four.
pub fn four_at(text: &str, cut: char) -> Result<Four<'_>, ForeignFault>
    requires ascii { cut < 128 }
    ensures fields { as_four result ≡ four_of (pieces_at cut text.now) }
{
    let (first, others) = first_piece(text, cut);
    let Some(others) = others else {
        return Err(ForeignFault::Form);
    };
    match three_at(others, cut) {
        Ok(others) => Ok(Four { first, others }),
        Err(fault) => Err(fault),
    }
}

/// The same, where there are exactly five.
pub fn five_at(text: &str, cut: char) -> Result<Five<'_>, ForeignFault>
    requires ascii { cut < 128 }
    ensures fields { as_five result ≡ five_of (pieces_at cut text.now) }
{
    let (first, others) = first_piece(text, cut);
    let Some(others) = others else {
        return Err(ForeignFault::Form);
    };
    let (second, rest) = first_piece(others, cut);
    let Some(rest) = rest else {
        return Err(ForeignFault::Form);
    };
    match three_at(rest, cut) {
        Ok(others) => Ok(Five {
            first,
            second,
            others,
        }),
        Err(fault) => Err(fault),
    }
}

/// The plain decimal that a field is.
pub fn number_of(field: &str) -> Option<u32>
    ensures number { result ≡ number_of field.now }
{
    let Ok(value) = Value::new(field) else {
        return None;
    };
    match value.decimal() {
        Ok(number) => Some(number),
        Err(_) => None,
    }
}

// The binary logarithm of a power of two from 2 on.
fn logarithm(n: u32) -> Option<u32>
    ensures { result ≡ logarithm n }
{
    if n.is_power_of_two() && 1 < n {
        Some(n.trailing_zeros())
    } else {
        None
    }
}

// The same of a decimal.
fn logarithm_of(n: Option<u32>) -> Option<u32>
    ensures { result ≡ logarithm_of n }
{
    match n {
        Some(n) => logarithm(n),
        None => None,
    }
}

/// PBKDF2 with the rounds that a field writes.
pub fn pbkdf2_cost(hash: Pbkdf2Hash, rounds: &str) -> Result<Kdf, ForeignFault>
    ensures cost { result ≡ pbkdf2_cost hash rounds.now }
{
    match number_of(rounds) {
        Some(rounds) => Ok(Kdf::Pbkdf2 { hash, rounds }),
        None => Err(ForeignFault::Rounds),
    }
}

/// scrypt with the N, r and p that three fields write.
pub fn scrypt_cost(n: &str, r: &str, p: &str) -> Result<Kdf, ForeignFault>
    ensures cost { result ≡ scrypt_cost n.now r.now p.now }
{
    let Some(ln) = logarithm_of(number_of(n)) else {
        return Err(ForeignFault::Cost);
    };
    let Some(r) = number_of(r) else {
        return Err(ForeignFault::Cost);
    };
    match number_of(p) {
        Some(p) => Ok(Kdf::Scrypt { ln, r, p }),
        None => Err(ForeignFault::Cost),
    }
}

/// The bytes whose encoding a field is, in at most 128 characters.
pub fn field_bytes<E: Encoding>(field: &str) -> Option<FieldBytes>
    ensures bytes { result ≡ field_bytes E.alphabet field.now }
{
    if field.len() > FIELD_MAX {
        return None;
    }
    let mut room = [0; 96];
    match E::decode_into(field.as_bytes(), &mut room) {
        Ok(n) => Some(ShortBytes::from_slice(&room[..n])),
        Err(_) => None,
    }
}

fn is_small_digit(b: u8) -> bool
    ensures { result ≡ is_small_digit b }
{
    b.is_ascii_digit() || (b'a' <= b && b <= b'f')
}

fn is_capital_digit(b: u8) -> bool
    ensures { result ≡ is_capital_digit b }
{
    b.is_ascii_digit() || (b'A' <= b && b <= b'F')
}

fn are_small(field: &[u8]) -> bool
    ensures { result ≡ list_all is_small_digit field.now }
{
    field.iter().all(|b| is_small_digit(*b))
}

fn are_capital(field: &[u8]) -> bool
    ensures { result ≡ list_all is_capital_digit field.now }
{
    field.iter().all(|b| is_capital_digit(*b))
}

// The bytes that hexadecimal digits write, in at most 128 characters.
fn digit_bytes(field: &[u8]) -> Option<FieldBytes>
    ensures { result ≡ digit_bytes field.now }
{
    if field.len() > FIELD_MAX {
        return None;
    }
    let mut room = [0; 96];
    let n = field.len() / 2;
    match hex::decode_to_slice(field, &mut room[..n]) {
        Ok(()) => Some(ShortBytes::from_slice(&room[..n])),
        Err(_) => None,
    }
}

/// The same, of digits with small letters alone.
pub fn small_hex(field: &[u8]) -> Option<FieldBytes>
    ensures bytes { result ≡ small_hex field.now }
{
    if are_small(field) {
        digit_bytes(field)
    } else {
        None
    }
}

/// The same, of digits with small or with capital letters, which aren't mixed.
pub fn plain_hex(field: &[u8]) -> Option<FieldBytes>
    ensures bytes { result ≡ plain_hex field.now }
{
    if are_small(field) || are_capital(field) {
        digit_bytes(field)
    } else {
        None
    }
}
