//! The digest of a text, and the text of bcrypt beneath.

ghost use Rattle.std.specs.Prelude.{◌≡◌, ◌≤◌, ◌+◌, IfOk, IfSome, IsUtf8, length};
ghost use Rattle.pieces.specs.Characters.{dollar};
ghost use Rattle.pieces.specs.Pieces.{pieces_at, pieces_left};
ghost use Rattle.bcrypt_digest.specs.Text.{beneath, digest_parts, django, made_text, passlib, passlib_cost, passlib_form, passlib_hash, passlib_sized, wordpress};
ghost use Rattle.bcrypt_digest.specs.Views.{as_form, parameters_of};

use crate::Front;
use bcrypt_plain::BcryptFault;
use pieces::short_bytes::ShortBytes;
use pieces::{begins_with, behind, first_piece, is_end};

/// A digest, and the text of bcrypt beneath it: 60 bytes.
#[derive(Clone, Copy, Debug)]
pub(crate) struct DigestParts {
    pub front: Front,
    pub under: ShortBytes<60>,
}

/// What passlib's parameters say: the digest, the identifier of the text beneath, and the text of a cost.
#[derive(Clone, Copy, Debug)]
pub(crate) struct Form<'a> {
    pub front: Front,
    pub id: &'static str,
    pub cost: &'a str,
}

// A text of bcrypt as it is.
fn beneath(front: Front, text: &str) -> Result<DigestParts, BcryptFault>
    ensures parts { result ≡ beneath front text.now }
    ensures utf8 { IfOk result (λ p. IsUtf8 p.under) }
    ensures full { IfOk result (λ p. length p.under ≡ 60) }
{
    if text.len() != 60 {
        return Err(BcryptFault::Length);
    }
    Ok(DigestParts {
        front,
        under: ShortBytes::from_slice(text.as_bytes()),
    })
}

// What WordPress has after `$wp`.
fn wordpress(rest: &str) -> Result<DigestParts, BcryptFault>
    ensures parts { result ≡ wordpress rest.now }
    ensures utf8 { IfOk result (λ p. IsUtf8 p.under) }
    ensures full { IfOk result (λ p. length p.under ≡ 60) }
{
    if begins_with(rest, "$2y$") {
        beneath(Front::WordPress, rest)
    } else {
        Err(BcryptFault::WrongId)
    }
}

// What Django's texts have after the front that they get here.
fn django(rest: &str) -> Result<DigestParts, BcryptFault>
    ensures parts { result ≡ django rest.now }
    ensures utf8 { IfOk result (λ p. IsUtf8 p.under) }
    ensures full { IfOk result (λ p. length p.under ≡ 60) }
{
    if begins_with(rest, "$2") {
        beneath(Front::Hex, rest)
    } else {
        Err(BcryptFault::WrongId)
    }
}

// The digest, the identifier and the cost of parameters.
fn passlib_form(parameters: &str) -> Option<Form<'_>>
    ensures form { as_form result ≡ passlib_form parameters.now }
    ensures id { IfSome result (λ f. length f.id.now ≡ 2) }
{
    if let Some(cost) = behind(parameters, "v=2,t=2b,r=") {
        return Some(Form {
            front: Front::Salted,
            id: "2b",
            cost,
        });
    }
    if let Some(cost) = behind(parameters, "2b,") {
        return Some(Form {
            front: Front::Plain,
            id: "2b",
            cost,
        });
    }
    if let Some(cost) = behind(parameters, "2a,") {
        return Some(Form {
            front: Front::Plain,
            id: "2a",
            cost,
        });
    }
    None
}

// The cost that one or two digits write, without a zero in front.
fn passlib_cost(text: &[u8]) -> Option<u32>
    ensures cost { result ≡ passlib_cost text.now }
    ensures most { IfSome result (λ n. n ≤ 31) }
{
    match text {
        [d] if 52 <= *d && *d <= 57 => Some(*d as u32 - 48),
        [d, e] if 49 <= *d && *d <= 51 && 48 <= *e && *e <= 57 => {
            let cost = 10 * (*d as u32 - 48) + (*e as u32 - 48);
            if cost <= 31 { Some(cost) } else { None }
        }
        _ => None,
    }
}

// The text of bcrypt.
fn made_text(id: &str, cost: u32, salt: &str, hash: &str) -> ShortBytes<60>
    requires id { length id.now ≡ 2 }
    requires cost { cost ≤ 31 }
    requires salt { length salt.now ≡ 22 }
    requires hash { length hash.now ≡ 31 }
    ensures text { result ≡ made_text id.now cost salt.now hash.now }
    ensures utf8 { IsUtf8 result }
    ensures full { length result ≡ 60 }
{
    let mut text = ShortBytes::from_slice(b"$");
    text.push_all(id.as_bytes());
    text.push_all(b"$");
    text.push_all(&[48 + (cost / 10) as u8, 48 + (cost % 10) as u8]);
    text.push_all(b"$");
    text.push_all(salt.as_bytes());
    text.push_all(hash.as_bytes());
    text
}

// The text beneath, by the cost.
fn passlib_sized(form: Form<'_>, salt: &str, hash: &str) -> Result<DigestParts, BcryptFault>
    requires id { length form.id.now ≡ 2 }
    ensures parts { result ≡ passlib_sized (parameters_of form.entry) salt.now hash.now }
    ensures utf8 { IfOk result (λ p. IsUtf8 p.under) }
    ensures full { IfOk result (λ p. length p.under ≡ 60) }
{
    let Some(cost) = passlib_cost(form.cost.as_bytes()) else {
        return Err(BcryptFault::Cost);
    };
    if salt.len() != 22 || hash.len() != 31 {
        return Err(BcryptFault::Length);
    }
    Ok(DigestParts {
        front: form.front,
        under: made_text(form.id, cost, salt, hash),
    })
}

// By the pieces after the parameters: a salt, a hash and nothing else.
fn passlib_hash(form: Form<'_>, pieces: Option<&str>) -> Result<DigestParts, BcryptFault>
    requires id { length form.id.now ≡ 2 }
    ensures parts { result ≡ passlib_hash (parameters_of form.entry) (pieces_left dollar pieces.entry) }
    ensures utf8 { IfOk result (λ p. IsUtf8 p.under) }
    ensures full { IfOk result (λ p. length p.under ≡ 60) }
{
    let Some(text) = pieces else {
        return Err(BcryptFault::NoHash);
    };
    let (salt, others) = first_piece(text, '$');
    let Some(text) = others else {
        return Err(BcryptFault::NoHash);
    };
    let (hash, more) = first_piece(text, '$');
    if !is_end(more) {
        return Err(BcryptFault::Trailing);
    }
    passlib_sized(form, salt, hash)
}

// What passlib has after `$bcrypt-sha256$`.
fn passlib(rest: &str) -> Result<DigestParts, BcryptFault>
    ensures parts { result ≡ passlib (pieces_at dollar rest.now) }
    ensures utf8 { IfOk result (λ p. IsUtf8 p.under) }
    ensures full { IfOk result (λ p. length p.under ≡ 60) }
{
    let (parameters, pieces) = first_piece(rest, '$');
    match passlib_form(parameters) {
        Some(form) => passlib_hash(form, pieces),
        None => Err(BcryptFault::WrongId),
    }
}

/// The digest of a text and the text beneath, or the first fault.
#[tactic(auto, unfolding(crate::specs::Text::digest_parts))]
pub(crate) fn digest_parts(text: &str) -> Result<DigestParts, BcryptFault>
    ensures parts { result ≡ digest_parts text.now }
    ensures utf8 { IfOk result (λ p. IsUtf8 p.under) }
    ensures full { IfOk result (λ p. length p.under ≡ 60) }
{
    if let Some(rest) = behind(text, "$wp") {
        return wordpress(rest);
    }
    if let Some(rest) = behind(text, "$bcrypt-sha256-hex") {
        return django(rest);
    }
    if let Some(rest) = behind(text, "$bcrypt-sha256$") {
        return passlib(rest);
    }
    Err(BcryptFault::WrongId)
}
