//! What converters answer.

ghost use Rattle.std.specs.Prelude.{◌≡◌, ℕ, List};
ghost use Rattle.foreign_text.specs.Answers.{as_it_is, stored_or_unread};
ghost use Rattle.foreign_text.specs.Encoded.{either_fields, either_pbkdf2, encoded_fields, encoded_pbkdf2};
ghost use Rattle.foreign_text.specs.Fields.{in_three};
ghost use Rattle.foreign_text.specs.Views.{as_answer, as_three};

use crate::fields::{Three, field_bytes, pbkdf2_cost, three_at};
use crate::kdf::{MadeText, Pbkdf2Hash, with_decoded};
use crate::{ForeignFault, Unread};
use base64ct::{Base64, Base64Pbkdf2, Encoding};
use pieces::{begins_with, ends_in};

/// A part of a foreign text, where it begins with `sign`.
pub fn as_it_is<'a>(sign: &str, rest: &'a str) -> Result<Option<&'a str>, ForeignFault>
    ensures answer { (made : List ℕ) → as_answer result made ≡ as_it_is sign.now rest.now }
{
    if begins_with(rest, sign) {
        Ok(Some(rest))
    } else {
        Err(ForeignFault::Form)
    }
}

/// A text that begins with `$`, which is a stored text already.
pub fn stored_or_unread(text: &str) -> Result<Option<&str>, ForeignFault>
    ensures answer { (made : List ℕ) → as_answer result made ≡ stored_or_unread text.now }
{
    if begins_with(text, "$") {
        Ok(Some(text))
    } else {
        Err(ForeignFault::Unread(Unread::Other))
    }
}

/// Puts a text that was made.
pub fn put_made<'a>(
    text: Result<MadeText, ForeignFault>,
    made: &mut MadeText,
) -> Result<Option<&'a str>, ForeignFault>
    ensures answer { as_answer result made.new ≡ text }
{
    match text {
        Ok(text) => {
            *made = text;
            Ok(None)
        }
        Err(fault) => Err(fault),
    }
}

/// Rounds, and a salt and a key in one alphabet.
pub(crate) fn encoded_fields<E: Encoding>(
    hash: Pbkdf2Hash,
    rounds: &str,
    salt: &str,
    key: &str,
) -> Result<MadeText, ForeignFault>
    ensures { result ≡ encoded_fields E.alphabet hash rounds.now salt.now key.now }
{
    with_decoded(
        pbkdf2_cost(hash, rounds),
        field_bytes::<E>(salt),
        field_bytes::<E>(key),
    )
}

// The same of fields that were cut.
fn encoded_three<E: Encoding>(
    hash: Pbkdf2Hash,
    fields: Result<Three<'_>, ForeignFault>,
) -> Result<MadeText, ForeignFault>
    ensures { result ≡ in_three (encoded_fields E.alphabet hash) (as_three fields.entry) }
{
    match fields {
        Ok(f) => encoded_fields::<E>(hash, f.first, f.second, f.third),
        Err(fault) => Err(fault),
    }
}

/// `ROUNDS$SALT$KEY` with salt and key in one alphabet.
pub(crate) fn encoded_pbkdf2<'a, E: Encoding>(
    hash: Pbkdf2Hash,
    rest: &'a str,
    made: &mut MadeText,
) -> Result<Option<&'a str>, ForeignFault>
    ensures { as_answer result made.new ≡ encoded_pbkdf2 E.alphabet hash rest.now }
{
    put_made(encoded_three::<E>(hash, three_at(rest, '$')), made)
}

// Salt and key with padding, where the key has some, or in the adapted alphabet without.
fn either_fields(
    hash: Pbkdf2Hash,
    rounds: &str,
    salt: &str,
    key: &str,
) -> Result<MadeText, ForeignFault>
    ensures { result ≡ either_fields hash rounds.now salt.now key.now }
{
    if ends_in(key, "=") {
        encoded_fields::<Base64>(hash, rounds, salt, key)
    } else {
        encoded_fields::<Base64Pbkdf2>(hash, rounds, salt, key)
    }
}

// The same of fields that were cut.
fn either_three(
    hash: Pbkdf2Hash,
    fields: Result<Three<'_>, ForeignFault>,
) -> Result<MadeText, ForeignFault>
    ensures { result ≡ in_three (either_fields hash) (as_three fields.entry) }
{
    match fields {
        Ok(f) => either_fields(hash, f.first, f.second, f.third),
        Err(fault) => Err(fault),
    }
}

/// `ROUNDS$SALT$KEY` in either of the two.
pub(crate) fn either_pbkdf2<'a>(
    hash: Pbkdf2Hash,
    rest: &'a str,
    made: &mut MadeText,
) -> Result<Option<&'a str>, ForeignFault>
    ensures { as_answer result made.new ≡ either_pbkdf2 hash rest.now }
{
    put_made(either_three(hash, three_at(rest, '$')), made)
}
