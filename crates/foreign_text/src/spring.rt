//! Texts of Spring Security.

ghost use Rattle.std.specs.Prelude.{◌≡◌, ◌≤◌, ◌++◌, ◌==◌, codes, length, if◌then◌else◌};
ghost use Rattle.foreign_text.specs.Fields.{in_three, small_hex};
ghost use Rattle.foreign_text.specs.Spring.{spring, spring_cost, spring_digest, spring_fields, spring_pbkdf2, spring_scrypt};
ghost use Rattle.foreign_text.specs.Spring.{spring_scrypt_fields, spring_unread, three_numbers};
ghost use Rattle.foreign_text.specs.Views.{as_answer, as_three};

use crate::answers::{as_it_is, put_made};
use crate::fields::{Three, field_bytes, small_hex, three_at};
use crate::kdf::{FieldBytes, Kdf, MadeText, Pbkdf2Hash, with_decoded};
use crate::ldap::behind_tag;
use crate::{ForeignFault, Unread};
use base64ct::Base64;
use pieces::short_bytes::ShortBytes;
use pieces::{begins_with, behind};

/// PBKDF2 of Spring Security 5.8.
const NEWER: Kdf = Kdf::Pbkdf2 {
    hash: Pbkdf2Hash::Sha256,
    rounds: 310_000,
};

/// PBKDF2 of Spring Security before.
const OLDER: Kdf = Kdf::Pbkdf2 {
    hash: Pbkdf2Hash::Sha1,
    rounds: 185_000,
};

// The cost that three bytes say.
fn three_numbers(bytes: Option<FieldBytes>) -> Result<Kdf, ForeignFault>
    ensures { result ≡ three_numbers bytes }
{
    let Some(bytes) = bytes else {
        return Err(ForeignFault::Cost);
    };
    match bytes.as_slice() {
        [ln, r, p] => Ok(Kdf::Scrypt {
            ln: *ln as u32,
            r: *r as u32,
            p: *p as u32,
        }),
        _ => Err(ForeignFault::Cost),
    }
}

// The digits with a zero before them, where there are five.
fn even_digits(cost: &str) -> Option<FieldBytes>
    ensures { result ≡ small_hex (if length cost.now == 5 then codes "0" ++ cost.now else cost.now) }
{
    if cost.len() != 5 {
        return small_hex(cost.as_bytes());
    }
    let mut digits = ShortBytes::<6>::from_slice(b"0");
    digits.push_all(cost.as_bytes());
    small_hex(digits.as_slice())
}

// The cost of scrypt.
fn spring_cost(cost: &str) -> Result<Kdf, ForeignFault>
    ensures { result ≡ spring_cost cost.now }
{
    if begins_with(cost, "0") {
        return Err(ForeignFault::Cost);
    }
    three_numbers(even_digits(cost))
}

// A cost, a salt and a key.
fn scrypt_fields(fields: Result<Three<'_>, ForeignFault>) -> Result<MadeText, ForeignFault>
    ensures { result ≡ in_three spring_scrypt_fields (as_three fields.entry) }
{
    match fields {
        Ok(f) => with_decoded(
            spring_cost(f.first),
            field_bytes::<Base64>(f.second),
            field_bytes::<Base64>(f.third),
        ),
        Err(fault) => Err(fault),
    }
}

// What comes after a tag of scrypt.
fn spring_scrypt<'a>(rest: &'a str, made: &mut MadeText) -> Result<Option<&'a str>, ForeignFault>
    ensures { as_answer result made.new ≡ spring_scrypt rest.now }
{
    match behind(rest, "$") {
        Some(fields) => put_made(scrypt_fields(three_at(fields, '$')), made),
        None => Err(ForeignFault::Form),
    }
}

// What comes after a tag of PBKDF2: so many digits of a salt, and those of a key.
fn pbkdf2_text(kdf: Kdf, size: usize, digits: &[u8]) -> Result<MadeText, ForeignFault>
    requires size { size ≤ 32 }
    ensures { result ≡ spring_pbkdf2 kdf size digits.now }
{
    if digits.len() != size + 64 {
        return Err(ForeignFault::Form);
    }
    let (salt, key) = digits.split_at(size);
    with_decoded(Ok(kdf), small_hex(salt), small_hex(key))
}

// The fault of a digest or of the password itself, or of another tag.
fn spring_digest(text: &str) -> ForeignFault
    ensures { result ≡ spring_digest text.now }
{
    if begins_with(text, "{SHA-1}") {
        ForeignFault::Unread(Unread::Sha1)
    } else if begins_with(text, "{SHA-256}") || begins_with(text, "{sha256}") {
        ForeignFault::Unread(Unread::Sha2)
    } else if begins_with(text, "{MD5}") {
        ForeignFault::Unread(Unread::Md5)
    } else if begins_with(text, "{noop}") {
        ForeignFault::Unread(Unread::Cleartext)
    } else {
        ForeignFault::Unread(Unread::Other)
    }
}

// The fault of a text that isn't read.
fn spring_unread(text: &str) -> ForeignFault
    ensures { result ≡ spring_unread text.now }
{
    if !begins_with(text, "{") {
        return ForeignFault::Form;
    }
    spring_digest(text)
}

/// The stored text of a text of Spring Security.
#[tactic(auto, unfolding(crate::specs::Spring::spring))]
pub(crate) fn spring<'a>(
    text: &'a str,
    made: &mut MadeText,
) -> Result<Option<&'a str>, ForeignFault>
    ensures { as_answer result made.new ≡ spring text.now }
{
    if let Some(rest) = behind_tag(text, "{BCRYPT}", "{bcrypt}") {
        return as_it_is("$2", rest);
    }
    if let Some(rest) = behind_tag(text, "{argon2@SpringSecurity_v5_8}", "{argon2}") {
        return as_it_is("$argon2", rest);
    }
    if let Some(rest) = behind_tag(text, "{scrypt@SpringSecurity_v5_8}", "{scrypt}") {
        return spring_scrypt(rest, made);
    }
    if let Some(rest) = behind(text, "{pbkdf2@SpringSecurity_v5_8}") {
        return put_made(pbkdf2_text(NEWER, 32, rest.as_bytes()), made);
    }
    if let Some(rest) = behind(text, "{pbkdf2}") {
        return put_made(pbkdf2_text(OLDER, 16, rest.as_bytes()), made);
    }
    Err(spring_unread(text))
}
