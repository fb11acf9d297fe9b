//! The parts of a text.

ghost use Rattle.std.specs.Prelude.{◌≡◌, ◌≤◌, ◌+◌, ◌^◌, IfOk, IfSome, OnOk};
ghost use Rattle.std.specs.List.{list_all};
ghost use Rattle.pieces.specs.Characters.{dollar};
ghost use Rattle.pieces.specs.Pieces.{pieces_left};
ghost use Rattle.bcrypt_plain.specs.Text.{by_rest, cost_of, encoding_fault, is_cost, is_digit, split_fields, text_fields, text_parts};
ghost use Rattle.bcrypt_plain.specs.Views.{as_fields, as_parts};

use crate::BcryptFault;
use crate::field::counted_bytes;
use crate::version::{Version, version_of};
use base64ct::Counts;
use pieces::characters::are_crypt_characters;
use pieces::{first_piece, is_end};

/// The text of a cost, and the characters behind it.
#[derive(Clone, Copy, Debug)]
pub(crate) struct BcryptFields<'a> {
    pub cost: &'a str,
    pub rest: &'a str,
}

/// What a text means.
#[derive(Clone, Copy, Debug)]
pub(crate) struct BcryptParts {
    pub cost: u32,
    pub salt: [u8; 16],
    pub hash: [u8; 23],
}

// A cost, the characters behind it and nothing else.
fn split_fields(pieces: Option<&str>) -> Result<BcryptFields<'_>, BcryptFault>
    ensures { as_fields result ≡ split_fields (pieces_left dollar pieces.entry) }
{
    let Some(text) = pieces else {
        return Err(BcryptFault::NoCost);
    };
    let (cost, others) = first_piece(text, '$');
    let Some(text) = others else {
        return Err(BcryptFault::NoHash);
    };
    let (rest, more) = first_piece(text, '$');
    if !is_end(more) {
        return Err(BcryptFault::Trailing);
    }
    Ok(BcryptFields { cost, rest })
}

// The fields behind an identifier of bcrypt's.
#[tactic(auto, unfolding(crate::specs::Text::text_fields))]
fn text_fields(text: &str) -> Result<BcryptFields<'_>, BcryptFault>
    ensures { as_fields result ≡ text_fields text.now }
{
    let (front, others) = first_piece(text, '$');
    if !front.is_empty() {
        return Err(BcryptFault::NoDollar);
    }
    let Some(body) = others else {
        return Err(BcryptFault::WrongId);
    };
    let (id, pieces) = first_piece(body, '$');
    match version_of(id) {
        None => Err(BcryptFault::WrongId),
        Some(Version::Obsolete) => Err(BcryptFault::Obsolete),
        Some(Version::Current) => split_fields(pieces),
    }
}

/// Whether there is such a cost.
pub(crate) fn is_cost(n: u32) -> bool
    ensures { result ≡ is_cost n }
{
    4 <= n && n <= 31
}

fn is_digit(c: u8) -> bool
    ensures { result ≡ is_digit c }
{
    48 <= c && c <= 57
}

// The cost that two digits write.
fn cost_of(text: &[u8]) -> Option<u32>
    ensures cost { result ≡ cost_of text.now }
    ensures most { IfSome result (λ n. n ≤ 31) }
{
    if text.len() == 2 && is_digit(text[0]) && is_digit(text[1]) {
        let cost = 10 * (text[0] as u32 - 48) + (text[1] as u32 - 48);
        if is_cost(cost) {
            return Some(cost);
        }
    }
    None
}

// What is wrong with characters that are not those of a salt and a hash.
fn encoding_fault(rest: &[u8]) -> BcryptFault
    ensures { result ≡ encoding_fault rest.now }
{
    if are_crypt_characters(rest) {
        BcryptFault::SpareBits
    } else {
        BcryptFault::Character
    }
}

// The salt and the hash of 53 characters.
fn by_rest(cost: u32, rest: &[u8], counts: &mut Counts) -> Result<BcryptParts, BcryptFault>
    requires looks { counts.old.looks ≤ 2 ^ 62 }
    requires sames { counts.old.sames ≤ 2 ^ 62 }
    ensures parts { as_parts result ≡ by_rest cost rest.now }
    ensures cost { IfOk result (λ p. p.cost ≡ cost) }
    ensures looks { OnOk result (counts.new.looks ≡ counts.old.looks + 56) }
    ensures sames { OnOk result (counts.new.sames ≡ counts.old.sames + 8) }
    ensures looks_stay { counts.old.looks ≤ counts.new.looks }
    ensures most_looks { counts.new.looks ≤ counts.old.looks + 56 }
    ensures sames_stay { counts.old.sames ≤ counts.new.sames }
    ensures most_sames { counts.new.sames ≤ counts.old.sames + 8 }
{
    if rest.len() != 53 {
        return Err(BcryptFault::Length);
    }
    let Some(salt) = counted_bytes::<16>(22, &rest[..22], counts) else {
        return Err(encoding_fault(rest));
    };
    let Some(hash) = counted_bytes::<23>(31, &rest[22..], counts) else {
        return Err(encoding_fault(rest));
    };
    Ok(BcryptParts { cost, salt, hash })
}

/// The parts of a text, or its first fault. The characters of the salt and of the hash are tested by decoding them.
#[tactic(auto, unfolding(crate::specs::Text::text_parts))]
pub(crate) fn text_parts(text: &str, counts: &mut Counts) -> Result<BcryptParts, BcryptFault>
    requires looks { counts.old.looks ≤ 2 ^ 62 }
    requires sames { counts.old.sames ≤ 2 ^ 62 }
    ensures parts { as_parts result ≡ text_parts text.now }
    ensures cost { IfOk result (λ p. p.cost ≤ 31) }
    ensures looks { OnOk result (counts.new.looks ≡ counts.old.looks + 56) }
    ensures sames { OnOk result (counts.new.sames ≡ counts.old.sames + 8) }
    ensures looks_stay { counts.old.looks ≤ counts.new.looks }
    ensures most_looks { counts.new.looks ≤ counts.old.looks + 56 }
    ensures sames_stay { counts.old.sames ≤ counts.new.sames }
    ensures most_sames { counts.new.sames ≤ counts.old.sames + 8 }
{
    let fields = match text_fields(text) {
        Ok(fields) => fields,
        Err(e) => return Err(e),
    };
    let Some(cost) = cost_of(fields.cost.as_bytes()) else {
        return Err(BcryptFault::Cost);
    };
    by_rest(cost, fields.rest.as_bytes(), counts)
}
