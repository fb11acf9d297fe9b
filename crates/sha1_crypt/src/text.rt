//! The parts of a text.

ghost use Rattle.std.specs.Prelude.{◌≡◌, ◌≤◌, ◌<◌, ◌+◌, ◌^◌, ◌&&◌, IfOk, OnOk, length};
ghost use Rattle.pieces.specs.Characters.{dollar};
ghost use Rattle.pieces.specs.Pieces.{pieces_at, pieces_left};
ghost use Rattle.sha1_crypt.specs.Text.{by_hash, by_salt, from_identifier, has_salt_length, split_fields, text_fields, text_parts};
ghost use Rattle.sha1_crypt.specs.Views.{as_fields, as_parts};

use crate::Sha1Fault;
use crate::field::{counted_bytes, placed_digest};
use base64ct::Counts;
use pieces::characters::are_crypt_characters;
use pieces::{first_piece, is_end};
use plain_rounds::rounds_of;

/// The texts of the rounds, of a salt and of a hash.
#[derive(Clone, Copy, Debug)]
pub(crate) struct Sha1Fields<'a> {
    pub rounds: &'a str,
    pub salt: &'a str,
    pub hash: &'a str,
}

/// What a text means.
#[derive(Clone, Copy, Debug)]
pub(crate) struct Sha1Parts<'a> {
    pub rounds: u32,
    pub salt: &'a str,
    pub hash: [u8; 20],
}

// Rounds, a salt, a hash and nothing else.
fn split_fields(pieces: Option<&str>) -> Result<Sha1Fields<'_>, Sha1Fault>
    ensures { as_fields result ≡ split_fields (pieces_left dollar pieces.entry) }
{
    let Some(text) = pieces else {
        return Err(Sha1Fault::NoRounds);
    };
    let (rounds, others) = first_piece(text, '$');
    let Some(text) = others else {
        return Err(Sha1Fault::NoSalt);
    };
    let (salt, others) = first_piece(text, '$');
    let Some(text) = others else {
        return Err(Sha1Fault::NoHash);
    };
    let (hash, more) = first_piece(text, '$');
    if !is_end(more) {
        return Err(Sha1Fault::Trailing);
    }
    Ok(Sha1Fields { rounds, salt, hash })
}

// The fields after the identifier.
#[tactic(auto, unfolding(crate::specs::Text::text_fields))]
fn text_fields(text: &str) -> Result<Sha1Fields<'_>, Sha1Fault>
    ensures { as_fields result ≡ text_fields text.now }
{
    let (front, others) = first_piece(text, '$');
    if !front.is_empty() {
        return Err(Sha1Fault::NoDollar);
    }
    let Some(body) = others else {
        return Err(Sha1Fault::WrongId);
    };
    let (id, pieces) = first_piece(body, '$');
    if id != "sha1" {
        return Err(Sha1Fault::WrongId);
    }
    split_fields(pieces)
}

// Whether a salt has as many bytes as it may.
fn has_salt_length(salt: &str) -> bool
    ensures { result ≡ has_salt_length salt.now }
{
    1 <= salt.len() && salt.len() <= 64
}

// The parts, by the text of the hash.
fn by_hash<'a>(
    rounds: u32,
    salt: &'a str,
    hash: &[u8],
    counts: &mut Counts,
) -> Result<Sha1Parts<'a>, Sha1Fault>
    requires looks { counts.old.looks ≤ 2 ^ 62 }
    requires sames { counts.old.sames ≤ 2 ^ 62 }
    ensures parts { as_parts result ≡ by_hash rounds salt.now hash.now }
    ensures rounds { IfOk result (λ p. p.rounds ≡ rounds) }
    ensures looks { OnOk result (counts.new.looks ≡ counts.old.looks + 32) }
    ensures sames { OnOk result (counts.new.sames ≡ counts.old.sames + 5) }
    ensures looks_stay { counts.old.looks ≤ counts.new.looks }
    ensures most_looks { counts.new.looks ≤ counts.old.looks + 32 }
    ensures sames_stay { counts.old.sames ≤ counts.new.sames }
    ensures most_sames { counts.new.sames ≤ counts.old.sames + 5 }
{
    if hash.len() != 28 {
        return Err(Sha1Fault::HashLength);
    }
    let Some(bytes) = counted_bytes(hash, counts) else {
        return Err(Sha1Fault::HashCharacter);
    };
    match placed_digest(&bytes, counts) {
        Some(hash) => Ok(Sha1Parts { rounds, salt, hash }),
        None => Err(Sha1Fault::FirstByte),
    }
}

// The parts, by the salt.
fn by_salt<'a>(
    rounds: u32,
    salt: &'a str,
    hash: &str,
    counts: &mut Counts,
) -> Result<Sha1Parts<'a>, Sha1Fault>
    requires looks { counts.old.looks ≤ 2 ^ 62 }
    requires sames { counts.old.sames ≤ 2 ^ 62 }
    ensures parts { as_parts result ≡ by_salt rounds salt.now hash.now }
    ensures rounds { IfOk result (λ p. p.rounds ≡ rounds) }
    ensures looks { OnOk result (counts.new.looks ≡ counts.old.looks + 32) }
    ensures sames { OnOk result (counts.new.sames ≡ counts.old.sames + 5) }
    ensures looks_stay { counts.old.looks ≤ counts.new.looks }
    ensures most_looks { counts.new.looks ≤ counts.old.looks + 32 }
    ensures sames_stay { counts.old.sames ≤ counts.new.sames }
    ensures most_sames { counts.new.sames ≤ counts.old.sames + 5 }
{
    if !has_salt_length(salt) {
        return Err(Sha1Fault::SaltLength);
    }
    if !are_crypt_characters(salt.as_bytes()) {
        return Err(Sha1Fault::SaltCharacter);
    }
    by_hash(rounds, salt, hash.as_bytes(), counts)
}

/// The parts of a text, or its first fault. The characters of the hash are tested by decoding them.
#[tactic(auto, unfolding(crate::specs::Text::text_parts))]
pub(crate) fn text_parts<'a>(text: &'a str, counts: &mut Counts) -> Result<Sha1Parts<'a>, Sha1Fault>
    requires looks { counts.old.looks ≤ 2 ^ 62 }
    requires sames { counts.old.sames ≤ 2 ^ 62 }
    ensures parts { as_parts result ≡ text_parts text.now }
    ensures rounds { IfOk result (λ p. 1 ≤ p.rounds) }
    ensures looks { OnOk result (counts.new.looks ≡ counts.old.looks + 32) }
    ensures sames { OnOk result (counts.new.sames ≡ counts.old.sames + 5) }
    ensures looks_stay { counts.old.looks ≤ counts.new.looks }
    ensures most_looks { counts.new.looks ≤ counts.old.looks + 32 }
    ensures sames_stay { counts.old.sames ≤ counts.new.sames }
    ensures most_sames { counts.new.sames ≤ counts.old.sames + 5 }
{
    let fields = match text_fields(text) {
        Ok(fields) => fields,
        Err(e) => return Err(e),
    };
    let Some(rounds) = rounds_of(fields.rounds) else {
        return Err(Sha1Fault::Rounds);
    };
    by_salt(rounds, fields.salt, fields.hash, counts)
}
