//! Texts of Mattermost.

ghost use Rattle.std.specs.Prelude.{◌≡◌, Ok, Some};
ghost use Rattle.foreign_text.specs.Fields.{in_three};
ghost use Rattle.foreign_text.specs.Mattermost.{mattermost, mattermost_fault, mattermost_fields, mattermost_numbers, mattermost_sized, size_field};
ghost use Rattle.foreign_text.specs.Views.{as_answer, as_three, as_two};

use crate::answers::put_made;
use crate::fields::{Three, Two, field_bytes, number_of, pbkdf2_cost, three_at, two_at};
use crate::kdf::{MadeText, Pbkdf2Hash, if_sized, is_size, with_decoded};
use crate::{ForeignFault, Unread};
use base64ct::Base64Unpadded;
use pieces::{begins_with, behind};

// The text of rounds, a salt and a key of a length that is said.
fn sized(
    hash: Pbkdf2Hash,
    rounds: &str,
    salt: &str,
    key: &str,
    size: &str,
) -> Result<MadeText, ForeignFault>
    ensures { result ≡ mattermost_sized hash rounds.now salt.now key.now (Ok size.now) }
{
    if_sized(
        is_size(number_of(size), field_bytes::<Base64Unpadded>(key)),
        with_decoded(
            pbkdf2_cost(hash, rounds),
            field_bytes::<Base64Unpadded>(salt),
            field_bytes::<Base64Unpadded>(key),
        ),
    )
}

// The same by the field of the length.
fn by_size(
    hash: Pbkdf2Hash,
    rounds: &str,
    salt: &str,
    key: &str,
    field: &str,
) -> Result<MadeText, ForeignFault>
    ensures { result ≡ mattermost_sized hash rounds.now salt.now key.now (size_field field.now) }
{
    match behind(field, "l=") {
        Some(size) => sized(hash, rounds, salt, key, size),
        None => Err(ForeignFault::Form),
    }
}

// The same by the field of the rounds and the length.
fn by_numbers(
    hash: Pbkdf2Hash,
    salt: &str,
    key: &str,
    numbers: Result<Two<'_>, ForeignFault>,
) -> Result<MadeText, ForeignFault>
    ensures { result ≡ mattermost_numbers hash salt.now key.now (as_two numbers.entry) }
{
    match numbers {
        Ok(f) => by_size(hash, f.first, salt, key, f.second),
        Err(fault) => Err(fault),
    }
}

// The text of three fields.
fn by_fields(
    hash: Pbkdf2Hash,
    fields: Result<Three<'_>, ForeignFault>,
) -> Result<MadeText, ForeignFault>
    ensures { result ≡ in_three (mattermost_fields hash) (as_three fields.entry) }
{
    match fields {
        Ok(f) => by_numbers(hash, f.second, f.third, two_at(f.first, ',')),
        Err(fault) => Err(fault),
    }
}

// The fault of what isn't read.
fn mattermost_fault(rest: &str) -> ForeignFault
    ensures { result ≡ mattermost_fault rest.now }
{
    if begins_with(rest, "SHA256,") || begins_with(rest, "SHA512,") {
        ForeignFault::Form
    } else {
        ForeignFault::Unread(Unread::Other)
    }
}

/// The stored text of what comes after `$pbkdf2$f=`.
#[tactic(auto, unfolding(crate::specs::Mattermost::mattermost))]
pub(crate) fn mattermost<'a>(
    rest: &str,
    made: &mut MadeText,
) -> Result<Option<&'a str>, ForeignFault>
    ensures { as_answer result made.new ≡ mattermost rest.now }
{
    if let Some(fields) = behind(rest, "SHA256,w=") {
        return put_made(by_fields(Pbkdf2Hash::Sha256, three_at(fields, '$')), made);
    }
    if let Some(fields) = behind(rest, "SHA512,w=") {
        return put_made(by_fields(Pbkdf2Hash::Sha512, three_at(fields, '$')), made);
    }
    Err(mattermost_fault(rest))
}
