//! Texts of Werkzeug.

ghost use Rattle.std.specs.Prelude.{◌≡◌};
ghost use Rattle.pieces.specs.Pieces.{pieces_at};
ghost use Rattle.foreign_text.specs.Fields.{in_three, scrypt_cost};
ghost use Rattle.foreign_text.specs.Views.{as_answer, as_three};
ghost use Rattle.foreign_text.specs.Werkzeug.{werkzeug, werkzeug_digest, werkzeug_fields, werkzeug_method, werkzeug_pbkdf2};
ghost use Rattle.foreign_text.specs.Werkzeug.{werkzeug_scrypt, werkzeug_unread};

use crate::answers::put_made;
use crate::fields::{Three, pbkdf2_cost, scrypt_cost, small_hex, three_at};
use crate::kdf::{Kdf, MadeText, Pbkdf2Hash, with_bytes};
use crate::{ForeignFault, Unread};
use pieces::{begins_with, behind, first_piece, is_end};

// N, r and p.
fn scrypt_fields(fields: Result<Three<'_>, ForeignFault>) -> Result<Kdf, ForeignFault>
    ensures { result ≡ in_three scrypt_cost (as_three fields.entry) }
{
    match fields {
        Ok(f) => scrypt_cost(f.first, f.second, f.third),
        Err(fault) => Err(fault),
    }
}

// What comes after `scrypt:`.
fn werkzeug_scrypt(rest: &str) -> Result<Kdf, ForeignFault>
    ensures { result ≡ werkzeug_scrypt rest.now }
{
    scrypt_fields(three_at(rest, ':'))
}

// What comes after `pbkdf2:sha1:`, `pbkdf2:sha256:` or `pbkdf2:sha512:`.
fn werkzeug_pbkdf2(hash: Pbkdf2Hash, rest: &str) -> Result<Kdf, ForeignFault>
    ensures { result ≡ werkzeug_pbkdf2 hash rest.now }
{
    let (rounds, more) = first_piece(rest, ':');
    if is_end(more) {
        pbkdf2_cost(hash, rounds)
    } else {
        Err(ForeignFault::Form)
    }
}

// The digest of a method, or another name.
fn werkzeug_digest(method: &str) -> ForeignFault
    ensures { result ≡ werkzeug_digest method.now }
{
    if begins_with(method, "sha1") {
        ForeignFault::Unread(Unread::Sha1)
    } else if begins_with(method, "sha") {
        ForeignFault::Unread(Unread::Sha2)
    } else if begins_with(method, "md5") {
        ForeignFault::Unread(Unread::Md5)
    } else if begins_with(method, "plain") {
        ForeignFault::Unread(Unread::Cleartext)
    } else {
        ForeignFault::Unread(Unread::Other)
    }
}

// The fault of a method that isn't read.
fn werkzeug_unread(method: &str) -> ForeignFault
    ensures { result ≡ werkzeug_unread method.now }
{
    if begins_with(method, "pbkdf2") || begins_with(method, "scrypt") {
        ForeignFault::Form
    } else {
        werkzeug_digest(method)
    }
}

// The derivation that a method names.
#[tactic(auto, unfolding(crate::specs::Werkzeug::werkzeug_method))]
fn werkzeug_method(method: &str) -> Result<Kdf, ForeignFault>
    ensures { result ≡ werkzeug_method method.now }
{
    if let Some(rest) = behind(method, "scrypt:") {
        return werkzeug_scrypt(rest);
    }
    if let Some(rest) = behind(method, "pbkdf2:sha256:") {
        return werkzeug_pbkdf2(Pbkdf2Hash::Sha256, rest);
    }
    if let Some(rest) = behind(method, "pbkdf2:sha512:") {
        return werkzeug_pbkdf2(Pbkdf2Hash::Sha512, rest);
    }
    if let Some(rest) = behind(method, "pbkdf2:sha1:") {
        return werkzeug_pbkdf2(Pbkdf2Hash::Sha1, rest);
    }
    Err(werkzeug_unread(method))
}

// A method, a salt and a key.
fn werkzeug_fields(fields: Result<Three<'_>, ForeignFault>) -> Result<MadeText, ForeignFault>
    ensures { result ≡ in_three werkzeug_fields (as_three fields.entry) }
{
    match fields {
        Ok(f) => with_bytes(
            werkzeug_method(f.first),
            f.second.as_bytes(),
            small_hex(f.third.as_bytes()),
        ),
        Err(fault) => Err(fault),
    }
}

/// The stored text of a text of Werkzeug.
#[tactic(auto, unfolding(crate::specs::Werkzeug::werkzeug))]
pub(crate) fn werkzeug<'a>(
    text: &'a str,
    made: &mut MadeText,
) -> Result<Option<&'a str>, ForeignFault>
    ensures { as_answer result made.new ≡ werkzeug text.now }
{
    put_made(werkzeug_fields(three_at(text, '$')), made)
}
