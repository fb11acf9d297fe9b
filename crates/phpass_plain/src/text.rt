//! The parts of a text.

ghost use Rattle.std.specs.Prelude.{◌≡◌, ◌≤◌, ◌+◌, ◌^◌, IfOk, OnOk, length};
ghost use Rattle.phpass_plain.specs.Text.{by_hash, by_length, by_salt, field_fault, has_front, text_parts};
ghost use Rattle.phpass_plain.specs.Views.{as_parts};

use crate::PhpassFault;
use crate::cost::cost_of;
use crate::field::{counted_bytes, digest_of};
use base64ct::Counts;
use pieces::begins_with;
use pieces::characters::are_crypt_characters;

/// What a text means.
#[derive(Clone, Copy, Debug)]
pub(crate) struct PhpassParts<'a> {
    pub cost: u32,
    pub salt: &'a [u8],
    pub digest: [u8; 16],
}

// Whether a text begins with one of the identifiers.
fn has_front(text: &str) -> bool
    ensures { result ≡ has_front text.now }
{
    begins_with(text, "$P$") || begins_with(text, "$H$")
}

// What is wrong with 22 characters that are those of no hash.
fn field_fault(hash: &[u8]) -> PhpassFault
    ensures { result ≡ field_fault hash.now }
{
    if are_crypt_characters(hash) {
        PhpassFault::SpareBits
    } else {
        PhpassFault::HashCharacter
    }
}

// The parts, by the characters of the hash.
fn by_hash<'a>(
    cost: u32,
    salt: &'a [u8],
    hash: &[u8],
    counts: &mut Counts,
) -> Result<PhpassParts<'a>, PhpassFault>
    requires len { length hash.now ≡ 22 }
    requires looks { counts.old.looks ≤ 2 ^ 62 }
    requires sames { counts.old.sames ≤ 2 ^ 62 }
    ensures parts { as_parts result ≡ by_hash cost salt.now hash.now }
    ensures cost { IfOk result (λ p. p.cost ≡ cost) }
    ensures looks { counts.new.looks ≡ counts.old.looks + 24 }
    ensures sames { counts.new.sames ≡ counts.old.sames + 4 }
{
    match counted_bytes(hash, counts) {
        Some(bytes) => Ok(PhpassParts {
            cost,
            salt,
            digest: digest_of(&bytes),
        }),
        None => Err(field_fault(hash)),
    }
}

// The parts, by the salt.
fn by_salt<'a>(
    cost: u32,
    salt: &'a [u8],
    hash: &[u8],
    counts: &mut Counts,
) -> Result<PhpassParts<'a>, PhpassFault>
    requires len { length hash.now ≡ 22 }
    requires looks { counts.old.looks ≤ 2 ^ 62 }
    requires sames { counts.old.sames ≤ 2 ^ 62 }
    ensures parts { as_parts result ≡ by_salt cost salt.now hash.now }
    ensures cost { IfOk result (λ p. p.cost ≡ cost) }
    ensures looks { OnOk result (counts.new.looks ≡ counts.old.looks + 24) }
    ensures sames { OnOk result (counts.new.sames ≡ counts.old.sames + 4) }
    ensures looks_stay { counts.old.looks ≤ counts.new.looks }
    ensures most_looks { counts.new.looks ≤ counts.old.looks + 24 }
    ensures sames_stay { counts.old.sames ≤ counts.new.sames }
    ensures most_sames { counts.new.sames ≤ counts.old.sames + 4 }
{
    if !are_crypt_characters(salt) {
        return Err(PhpassFault::SaltCharacter);
    }
    by_hash(cost, salt, hash, counts)
}

// The parts, by the length.
fn by_length<'a>(text: &'a [u8], counts: &mut Counts) -> Result<PhpassParts<'a>, PhpassFault>
    requires looks { counts.old.looks ≤ 2 ^ 62 }
    requires sames { counts.old.sames ≤ 2 ^ 62 }
    ensures parts { as_parts result ≡ by_length text.now }
    ensures cost { IfOk result (λ p. p.cost ≤ 30) }
    ensures looks { OnOk result (counts.new.looks ≡ counts.old.looks + 24) }
    ensures sames { OnOk result (counts.new.sames ≡ counts.old.sames + 4) }
    ensures looks_stay { counts.old.looks ≤ counts.new.looks }
    ensures most_looks { counts.new.looks ≤ counts.old.looks + 24 }
    ensures sames_stay { counts.old.sames ≤ counts.new.sames }
    ensures most_sames { counts.new.sames ≤ counts.old.sames + 4 }
{
    if text.len() != 34 {
        return Err(PhpassFault::Length);
    }
    let Some(cost) = cost_of(text[3]) else {
        return Err(PhpassFault::Cost);
    };
    by_salt(cost, &text[4..12], &text[12..], counts)
}

/// The parts of a text, or its first fault. The characters of the hash are tested by decoding them, and looked at one by one only
/// where they are those of no digest.
#[tactic(auto, unfolding(crate::specs::Text::text_parts))]
pub(crate) fn text_parts<'a>(
    text: &'a str,
    counts: &mut Counts,
) -> Result<PhpassParts<'a>, PhpassFault>
    requires looks { counts.old.looks ≤ 2 ^ 62 }
    requires sames { counts.old.sames ≤ 2 ^ 62 }
    ensures parts { as_parts result ≡ text_parts text.now }
    ensures cost { IfOk result (λ p. p.cost ≤ 30) }
    ensures looks { OnOk result (counts.new.looks ≡ counts.old.looks + 24) }
    ensures sames { OnOk result (counts.new.sames ≡ counts.old.sames + 4) }
    ensures looks_stay { counts.old.looks ≤ counts.new.looks }
    ensures most_looks { counts.new.looks ≤ counts.old.looks + 24 }
    ensures sames_stay { counts.old.sames ≤ counts.new.sames }
    ensures most_sames { counts.new.sames ≤ counts.old.sames + 4 }
{
    if !begins_with(text, "$") {
        return Err(PhpassFault::NoDollar);
    }
    if !has_front(text) {
        return Err(PhpassFault::WrongId);
    }
    by_length(text.as_bytes(), counts)
}
