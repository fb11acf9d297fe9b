//! Texts of Django's hashers.

ghost use Rattle.std.specs.Prelude.{◌≡◌};
ghost use Rattle.foreign_text.specs.Django.{django, django_digest_text, django_pbkdf2, django_pbkdf2_fields, django_scrypt, django_scrypt_fields};
ghost use Rattle.foreign_text.specs.Fields.{in_five, in_three};
ghost use Rattle.foreign_text.specs.Names.{django_unread};
ghost use Rattle.foreign_text.specs.Views.{as_answer, as_five, as_three};

use crate::answers::{as_it_is, put_made};
use crate::fields::{Five, Three, field_bytes, five_at, pbkdf2_cost, scrypt_cost, three_at};
use crate::kdf::{MadeText, Pbkdf2Hash, with_bytes};
use crate::{ForeignFault, Unread};
use base64ct::Base64;
use pieces::short_bytes::ShortBytes;
use pieces::{begins_with, behind};

// The scheme of a text that isn't read.
fn django_unread(text: &str) -> Unread
    ensures { result ≡ django_unread text.now }
{
    if begins_with(text, "sha1$") || begins_with(text, "unsalted_sha1$") {
        Unread::Sha1
    } else if begins_with(text, "md5$") || begins_with(text, "unsalted_md5$") {
        Unread::Md5
    } else if begins_with(text, "crypt$") {
        Unread::DesCrypt
    } else {
        Unread::Other
    }
}

// Rounds, a salt and a key.
fn pbkdf2_fields(
    hash: Pbkdf2Hash,
    fields: Result<Three<'_>, ForeignFault>,
) -> Result<MadeText, ForeignFault>
    ensures { result ≡ in_three (django_pbkdf2_fields hash) (as_three fields.entry) }
{
    match fields {
        Ok(f) => with_bytes(
            pbkdf2_cost(hash, f.first),
            f.second.as_bytes(),
            field_bytes::<Base64>(f.third),
        ),
        Err(fault) => Err(fault),
    }
}

// N, a salt, r, p and a key.
fn scrypt_fields(fields: Result<Five<'_>, ForeignFault>) -> Result<MadeText, ForeignFault>
    ensures { result ≡ in_five django_scrypt_fields (as_five fields.entry) }
{
    match fields {
        Ok(f) => with_bytes(
            scrypt_cost(f.first, f.others.first, f.others.second),
            f.second.as_bytes(),
            field_bytes::<Base64>(f.others.third),
        ),
        Err(fault) => Err(fault),
    }
}

// What comes after `pbkdf2_sha256$` or `pbkdf2_sha1$`.
fn django_pbkdf2<'a>(
    hash: Pbkdf2Hash,
    rest: &'a str,
    made: &mut MadeText,
) -> Result<Option<&'a str>, ForeignFault>
    ensures { as_answer result made.new ≡ django_pbkdf2 hash rest.now }
{
    put_made(pbkdf2_fields(hash, three_at(rest, '$')), made)
}

// What comes after `scrypt$`.
fn django_scrypt<'a>(rest: &'a str, made: &mut MadeText) -> Result<Option<&'a str>, ForeignFault>
    ensures { as_answer result made.new ≡ django_scrypt rest.now }
{
    put_made(scrypt_fields(five_at(rest, '$')), made)
}

// The text of bcrypt of a digest: our front in the place of the name.
fn digest_text(rest: &str) -> Result<MadeText, ForeignFault>
    ensures { result ≡ django_digest_text rest.now }
{
    if !begins_with(rest, "$2") || rest.len() != 60 {
        return Err(ForeignFault::Form);
    }
    let mut text = ShortBytes::from_slice(b"$bcrypt-sha256-hex");
    text.push_all(rest.as_bytes());
    Ok(text)
}

/// The stored text of a text of Django.
#[tactic(auto, unfolding(crate::specs::Django::django))]
pub(crate) fn django<'a>(
    text: &'a str,
    made: &mut MadeText,
) -> Result<Option<&'a str>, ForeignFault>
    ensures { as_answer result made.new ≡ django text.now }
{
    if let Some(rest) = behind(text, "pbkdf2_sha256$") {
        return django_pbkdf2(Pbkdf2Hash::Sha256, rest, made);
    }
    if let Some(rest) = behind(text, "pbkdf2_sha1$") {
        return django_pbkdf2(Pbkdf2Hash::Sha1, rest, made);
    }
    if let Some(rest) = behind(text, "scrypt$") {
        return django_scrypt(rest, made);
    }
    if let Some(rest) = behind(text, "argon2") {
        return as_it_is("$argon2", rest);
    }
    if let Some(rest) = behind(text, "bcrypt$") {
        return as_it_is("$2", rest);
    }
    if let Some(rest) = behind(text, "bcrypt_sha256$") {
        return put_made(digest_text(rest), made);
    }
    Err(ForeignFault::Unread(django_unread(text)))
}
