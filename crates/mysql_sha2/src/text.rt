//! The parts of a text.

ghost use Rattle.std.specs.Prelude.{◌≡◌, ◌≤◌, ◌+◌, ◌^◌, OnOk, length};
ghost use Rattle.sha_crypt.specs.HashField.{field_bytes};
ghost use Rattle.mysql_sha2.specs.Text.{hash_of, salt_of, text_parts};
ghost use Rattle.mysql_sha2.specs.Views.{as_parts};

use crate::MysqlFault;
use crate::digits::{capital_bytes, rounds_of};
use crate::fields::text_fields;
use base64ct::{Base64ShaCrypt, Counts};

/// What a text means.
#[derive(Clone, Copy, Debug)]
pub(crate) struct MysqlParts {
    pub rounds: u32,
    pub salt: [u8; 20],
    pub placed: [u8; 32],
}

// The 20 bytes of the salt, which aren't counted, as they are no secret.
fn salt_of(text: &[u8]) -> Result<[u8; 20], MysqlFault>
    ensures { result ≡ salt_of text.now }
{
    if text.len() != 40 {
        return Err(MysqlFault::SaltLength);
    }
    match capital_bytes::<20>(text) {
        Some(salt) => Ok(salt),
        None => Err(MysqlFault::SaltDigit),
    }
}

// The bytes whose hash field these characters are.
fn counted_bytes(text: &[u8], counts: &mut Counts) -> Option<[u8; 32]>
    requires len { length text.now ≡ 43 }
    requires looks { counts.old.looks ≤ 2 ^ 62 }
    requires sames { counts.old.sames ≤ 2 ^ 62 }
    ensures bytes { result ≡ field_bytes 32 text.now }
    ensures looks { counts.new.looks ≡ counts.old.looks + 44 }
    ensures sames { counts.new.sames ≡ counts.old.sames + 4 }
{
    let mut room = [0; 32];
    let mut bytes = [0; 32];
    match counts.decode::<Base64ShaCrypt>(text, &mut room) {
        Ok(decoded) => {
            bytes.copy_from_slice(decoded);
            Some(bytes)
        }
        Err(_) => None,
    }
}

// The bytes of the digest, in the order of a hash field.
fn hash_of(text: &[u8], counts: &mut Counts) -> Result<[u8; 32], MysqlFault>
    requires looks { counts.old.looks ≤ 2 ^ 62 }
    requires sames { counts.old.sames ≤ 2 ^ 62 }
    ensures hash { result ≡ hash_of text.now }
    ensures looks { OnOk result (counts.new.looks ≡ counts.old.looks + 44) }
    ensures sames { OnOk result (counts.new.sames ≡ counts.old.sames + 4) }
    ensures looks_stay { counts.old.looks ≤ counts.new.looks }
    ensures most_looks { counts.new.looks ≤ counts.old.looks + 44 }
    ensures sames_stay { counts.old.sames ≤ counts.new.sames }
    ensures most_sames { counts.new.sames ≤ counts.old.sames + 4 }
{
    if text.len() != 86 {
        return Err(MysqlFault::HashLength);
    }
    let Some(characters) = capital_bytes::<43>(text) else {
        return Err(MysqlFault::HashDigit);
    };
    match counted_bytes(&characters, counts) {
        Some(placed) => Ok(placed),
        None => Err(MysqlFault::HashField),
    }
}

/// The parts of a text, or its first fault.
#[tactic(auto, unfolding(crate::specs::Text::text_parts))]
pub(crate) fn text_parts(text: &str, counts: &mut Counts) -> Result<MysqlParts, MysqlFault>
    requires looks { counts.old.looks ≤ 2 ^ 62 }
    requires sames { counts.old.sames ≤ 2 ^ 62 }
    ensures parts { as_parts result ≡ text_parts text.now }
    ensures looks { OnOk result (counts.new.looks ≡ counts.old.looks + 44) }
    ensures sames { OnOk result (counts.new.sames ≡ counts.old.sames + 4) }
    ensures looks_stay { counts.old.looks ≤ counts.new.looks }
    ensures most_looks { counts.new.looks ≤ counts.old.looks + 44 }
    ensures sames_stay { counts.old.sames ≤ counts.new.sames }
    ensures most_sames { counts.new.sames ≤ counts.old.sames + 4 }
{
    let fields = match text_fields(text) {
        Ok(fields) => fields,
        Err(e) => return Err(e),
    };
    let Some(rounds) = rounds_of(fields.thousands.as_bytes()) else {
        return Err(MysqlFault::Rounds);
    };
    let salt = match salt_of(fields.salt.as_bytes()) {
        Ok(salt) => salt,
        Err(e) => return Err(e),
    };
    match hash_of(fields.hash.as_bytes(), counts) {
        Ok(placed) => Ok(MysqlParts {
            rounds,
            salt,
            placed,
        }),
        Err(e) => Err(e),
    }
}
