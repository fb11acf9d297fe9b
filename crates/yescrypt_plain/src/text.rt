//! What a text says.

ghost use Rattle.std.specs.Prelude.{◌≡◌, ◌≤◌, ◌+◌, ◌^◌, IfOk, OnOk, codes, length, true};
ghost use Rattle.std.specs.List.{list_all};
ghost use Rattle.pieces.specs.Characters.{dollar};
ghost use Rattle.pieces.specs.Pieces.{pieces_left};
ghost use Rattle.yescrypt_plain.specs.Params.{in_bounds, scrypt_in_bounds};
ghost use Rattle.yescrypt_plain.specs.Text.{is_scrypt_salt, pieces_behind, scrypt_by_salt, scrypt_fields, scrypt_text};
ghost use Rattle.yescrypt_plain.specs.Text.{split_scrypt, split_yescrypt, yescrypt_by_salt, yescrypt_fields, yescrypt_text};
ghost use Rattle.yescrypt_plain.specs.Text.{yescrypt_of, scrypt_of};
ghost use Rattle.yescrypt_plain.specs.Field.{salt_bytes};
ghost use Rattle.yescrypt_plain.specs.Views.{as_pieces, as_scrypt, as_scrypt_fields, as_yescrypt, as_yescrypt_fields};

use crate::field::{hash_bytes, salt_bytes};
use crate::params::{read_scrypt_params, read_yescrypt_params};
use crate::{ScryptParams, TextFault, YescryptParams};
use base64ct::Counts;
use pieces::characters::are_crypt_characters;
use pieces::short_bytes::ShortBytes;
use pieces::{first_piece, is_end};

/// The fields of a text `$y$`.
#[derive(Clone, Copy, Debug)]
pub(crate) struct YescryptPieces<'a> {
    pub params: &'a str,
    pub salt: &'a str,
    pub hash: &'a str,
}

/// The fields of a text `$7$`.
#[derive(Clone, Copy, Debug)]
pub(crate) struct ScryptPieces<'a> {
    pub front: &'a str,
    pub hash: &'a str,
}

/// What a text `$y$` means.
#[derive(Clone, Copy, Debug)]
pub(crate) struct YescryptParts {
    pub params: YescryptParams,
    pub salt: ShortBytes<64>,
    pub hash: [u8; 32],
}

/// What a text `$7$` means.
#[derive(Clone, Copy, Debug)]
pub(crate) struct ScryptParts<'a> {
    pub params: ScryptParams,
    pub salt: &'a [u8],
    pub hash: [u8; 32],
}

// The pieces of a text behind its identifier.
#[tactic(auto, unfolding(crate::specs::Text::pieces_behind))]
fn pieces_behind<'a>(id: &str, text: &'a str) -> Result<Option<&'a str>, TextFault>
    ensures { as_pieces result ≡ pieces_behind id.now text.now }
{
    let (front, others) = first_piece(text, '$');
    if !front.is_empty() {
        return Err(TextFault::NoDollar);
    }
    let Some(body) = others else {
        return Err(TextFault::WrongId);
    };
    let (first, pieces) = first_piece(body, '$');
    if first == id {
        Ok(pieces)
    } else {
        Err(TextFault::WrongId)
    }
}

// Parameters, a salt, a hash and nothing else.
fn split_yescrypt(pieces: Option<&str>) -> Result<YescryptPieces<'_>, TextFault>
    ensures { as_yescrypt_fields result ≡ split_yescrypt (pieces_left dollar pieces.entry) }
{
    let Some(text) = pieces else {
        return Err(TextFault::NoParams);
    };
    let (params, others) = first_piece(text, '$');
    let Some(text) = others else {
        return Err(TextFault::NoSalt);
    };
    let (salt, others) = first_piece(text, '$');
    let Some(text) = others else {
        return Err(TextFault::NoHash);
    };
    let (hash, more) = first_piece(text, '$');
    if !is_end(more) {
        return Err(TextFault::Trailing);
    }
    Ok(YescryptPieces { params, salt, hash })
}

// Parameters with a salt, a hash and nothing else.
fn split_scrypt(pieces: Option<&str>) -> Result<ScryptPieces<'_>, TextFault>
    ensures { as_scrypt_fields result ≡ split_scrypt (pieces_left dollar pieces.entry) }
{
    let Some(text) = pieces else {
        return Err(TextFault::NoParams);
    };
    let (front, others) = first_piece(text, '$');
    let Some(text) = others else {
        return Err(TextFault::NoHash);
    };
    let (hash, more) = first_piece(text, '$');
    if !is_end(more) {
        return Err(TextFault::Trailing);
    }
    Ok(ScryptPieces { front, hash })
}

// The fields of a text `$y$`.
fn yescrypt_fields(text: &str) -> Result<YescryptPieces<'_>, TextFault>
    ensures { as_yescrypt_fields result ≡ yescrypt_fields (pieces_behind (codes "y") text.now) }
{
    match pieces_behind("y", text) {
        Err(fault) => Err(fault),
        Ok(pieces) => split_yescrypt(pieces),
    }
}

// The fields of a text `$7$`.
fn scrypt_fields(text: &str) -> Result<ScryptPieces<'_>, TextFault>
    ensures { as_scrypt_fields result ≡ scrypt_fields (pieces_behind (codes "7") text.now) }
{
    match pieces_behind("7", text) {
        Err(fault) => Err(fault),
        Ok(pieces) => split_scrypt(pieces),
    }
}

// What a text `$y$` means, by its salt and its hash.
fn yescrypt_by_salt(
    params: YescryptParams,
    salt: &[u8],
    hash: &[u8],
    counts: &mut Counts,
) -> Result<YescryptParts, TextFault>
    requires looks { counts.old.looks ≤ 2 ^ 62 }
    requires sames { counts.old.sames ≤ 2 ^ 62 }
    ensures meaning { as_yescrypt result ≡ yescrypt_by_salt params (salt_bytes salt.now) hash.now }
    ensures params { IfOk result (λ parts. parts.params ≡ params) }
    ensures salt { IfOk result (λ parts. length parts.salt ≤ 64) }
    ensures looks { OnOk result (counts.new.looks ≡ counts.old.looks + 44) }
    ensures sames { OnOk result (counts.new.sames ≡ counts.old.sames + 4) }
    ensures looks_stay { counts.old.looks ≤ counts.new.looks }
    ensures most_looks { counts.new.looks ≤ counts.old.looks + 44 }
    ensures sames_stay { counts.old.sames ≤ counts.new.sames }
    ensures most_sames { counts.new.sames ≤ counts.old.sames + 4 }
{
    let Some(salt) = salt_bytes(salt) else {
        return Err(TextFault::Salt);
    };
    let Some(hash) = hash_bytes(hash, counts) else {
        return Err(TextFault::Hash);
    };
    Ok(YescryptParts { params, salt, hash })
}

/// What a text `$y$` means, or its first fault. The hash is decoded last.
#[tactic(auto, unfolding(crate::specs::Text::yescrypt_text))]
pub(crate) fn yescrypt_text(text: &str, counts: &mut Counts) -> Result<YescryptParts, TextFault>
    requires looks { counts.old.looks ≤ 2 ^ 62 }
    requires sames { counts.old.sames ≤ 2 ^ 62 }
    ensures meaning { as_yescrypt result ≡ yescrypt_text text.now }
    ensures bounds { IfOk result (λ parts. in_bounds parts.params ≡ true) }
    ensures salt { IfOk result (λ parts. length parts.salt ≤ 64) }
    ensures looks { OnOk result (counts.new.looks ≡ counts.old.looks + 44) }
    ensures sames { OnOk result (counts.new.sames ≡ counts.old.sames + 4) }
    ensures looks_stay { counts.old.looks ≤ counts.new.looks }
    ensures most_looks { counts.new.looks ≤ counts.old.looks + 44 }
    ensures sames_stay { counts.old.sames ≤ counts.new.sames }
    ensures most_sames { counts.new.sames ≤ counts.old.sames + 4 }
{
    let fields = match yescrypt_fields(text) {
        Ok(fields) => fields,
        Err(fault) => return Err(fault),
    };
    let params = match read_yescrypt_params(fields.params.as_bytes()) {
        Ok(params) => params,
        Err(fault) => return Err(fault),
    };
    yescrypt_by_salt(
        params,
        fields.salt.as_bytes(),
        fields.hash.as_bytes(),
        counts,
    )
}

/// Whether a text is the salt of a text `$7$`: at most 86 characters of crypt's alphabet.
pub(crate) fn is_scrypt_salt(text: &[u8]) -> bool
    ensures value { result ≡ is_scrypt_salt text.now }
    ensures most { result ≡ true → length text.now ≤ 86 }
{
    text.len() <= 86 && are_crypt_characters(text)
}

// What a text `$7$` means, by its salt and its hash.
fn scrypt_by_salt<'a>(
    params: ScryptParams,
    salt: &'a [u8],
    hash: &[u8],
    counts: &mut Counts,
) -> Result<ScryptParts<'a>, TextFault>
    requires looks { counts.old.looks ≤ 2 ^ 62 }
    requires sames { counts.old.sames ≤ 2 ^ 62 }
    ensures meaning { as_scrypt result ≡ scrypt_by_salt params salt.now hash.now }
    ensures params { IfOk result (λ parts. parts.params ≡ params) }
    ensures salt { IfOk result (λ parts. length parts.salt.now ≤ 86) }
    ensures looks { OnOk result (counts.new.looks ≡ counts.old.looks + 44) }
    ensures sames { OnOk result (counts.new.sames ≡ counts.old.sames + 4) }
    ensures looks_stay { counts.old.looks ≤ counts.new.looks }
    ensures most_looks { counts.new.looks ≤ counts.old.looks + 44 }
    ensures sames_stay { counts.old.sames ≤ counts.new.sames }
    ensures most_sames { counts.new.sames ≤ counts.old.sames + 4 }
{
    if !is_scrypt_salt(salt) {
        return Err(TextFault::Salt);
    }
    let Some(hash) = hash_bytes(hash, counts) else {
        return Err(TextFault::Hash);
    };
    Ok(ScryptParts { params, salt, hash })
}

/// What a text `$7$` means, or its first fault. The hash is decoded last.
#[tactic(auto, unfolding(crate::specs::Text::scrypt_text))]
pub(crate) fn scrypt_text<'a>(
    text: &'a str,
    counts: &mut Counts,
) -> Result<ScryptParts<'a>, TextFault>
    requires looks { counts.old.looks ≤ 2 ^ 62 }
    requires sames { counts.old.sames ≤ 2 ^ 62 }
    ensures meaning { as_scrypt result ≡ scrypt_text text.now }
    ensures bounds { IfOk result (λ parts. scrypt_in_bounds parts.params ≡ true) }
    ensures salt { IfOk result (λ parts. length parts.salt.now ≤ 86) }
    ensures looks { OnOk result (counts.new.looks ≡ counts.old.looks + 44) }
    ensures sames { OnOk result (counts.new.sames ≡ counts.old.sames + 4) }
    ensures looks_stay { counts.old.looks ≤ counts.new.looks }
    ensures most_looks { counts.new.looks ≤ counts.old.looks + 44 }
    ensures sames_stay { counts.old.sames ≤ counts.new.sames }
    ensures most_sames { counts.new.sames ≤ counts.old.sames + 4 }
{
    let fields = match scrypt_fields(text) {
        Ok(fields) => fields,
        Err(fault) => return Err(fault),
    };
    let front = fields.front.as_bytes();
    let params = match read_scrypt_params(front) {
        Ok(params) => params,
        Err(fault) => return Err(fault),
    };
    scrypt_by_salt(params, &front[11..], fields.hash.as_bytes(), counts)
}
