//! Texts of LDAP's `userPassword`.

ghost use Rattle.std.specs.Prelude.{◌≡◌, ℕ, List, Ok};
ghost use Rattle.std.specs.List.{list_any};
ghost use Rattle.pieces.specs.Pieces.{lent};
ghost use Rattle.foreign_text.specs.Ldap.{crypt_fault, is_colon, is_locked_crypt, ldap, ldap_aix, ldap_crypt, ldap_digests, ldap_made, ldif, whole_text};
ghost use Rattle.foreign_text.specs.Names.{behind_tag, is_tagged, ldap_digest, ldap_sha2, ldap_unread};
ghost use Rattle.foreign_text.specs.Views.{as_answer};

use crate::aix::{aix, behind_aix};
use crate::answers::{as_it_is, either_pbkdf2, put_made};
use crate::digests::{bare_field, digest_tags};
use crate::kdf::{MadeText, Pbkdf2Hash};
use crate::{ForeignFault, Unread};
use pieces::{begins_with, behind};
use salted_digest::DigestHash;

/// Whether a text begins with a tag, in capital or in small letters.
pub(crate) fn is_tagged(text: &str, capital: &str, small: &str) -> bool
    ensures { result ≡ is_tagged text.now capital.now small.now }
{
    begins_with(text, capital) || begins_with(text, small)
}

/// What comes after a tag.
pub(crate) fn behind_tag<'a>(text: &'a str, capital: &str, small: &str) -> Option<&'a str>
    ensures { lent result ≡ behind_tag text.now capital.now small.now }
{
    match behind(text, capital) {
        Some(rest) => Some(rest),
        None => behind(text, small),
    }
}

// The scheme of a digest by SHA-1 or MD5.
fn ldap_digest(text: &str) -> Unread
    ensures { result ≡ ldap_digest text.now }
{
    if is_tagged(text, "{SSHA}", "{ssha}") || is_tagged(text, "{SHA}", "{sha}") {
        Unread::Sha1
    } else if is_tagged(text, "{SMD5}", "{smd5}") || is_tagged(text, "{MD5}", "{md5}") {
        Unread::Md5
    } else {
        Unread::Other
    }
}

// The scheme of a digest.
fn ldap_sha2(text: &str) -> Unread
    ensures { result ≡ ldap_sha2 text.now }
{
    if is_tagged(text, "{SSHA256}", "{ssha256}")
        || is_tagged(text, "{SSHA384}", "{ssha384}")
        || is_tagged(text, "{SSHA512}", "{ssha512}")
        || is_tagged(text, "{SHA256}", "{sha256}")
        || is_tagged(text, "{SHA384}", "{sha384}")
        || is_tagged(text, "{SHA512}", "{sha512}")
    {
        Unread::Sha2
    } else {
        ldap_digest(text)
    }
}

/// The scheme of a text that isn't read.
pub(crate) fn ldap_unread(text: &str) -> Unread
    ensures { result ≡ ldap_unread text.now }
{
    if !begins_with(text, "{") || is_tagged(text, "{CLEARTEXT}", "{cleartext}") {
        return Unread::Cleartext;
    }
    ldap_sha2(text)
}

// Whether a text in the place of crypt(3)'s is of a locked account.
fn is_locked_crypt(rest: &str) -> bool
    ensures { result ≡ is_locked_crypt rest.now }
{
    begins_with(rest, "*") || begins_with(rest, "!") || rest.len() < 2
}

// What a text without a `$` in the place of crypt(3)'s is.
fn crypt_fault(rest: &str) -> ForeignFault
    ensures { result ≡ crypt_fault rest.now }
{
    if is_locked_crypt(rest) {
        ForeignFault::Locked
    } else {
        ForeignFault::Unread(Unread::DesCrypt)
    }
}

/// What crypt(3) takes.
pub(crate) fn ldap_crypt(rest: &str) -> Result<Option<&str>, ForeignFault>
    ensures { (made : List ℕ) → as_answer result made ≡ ldap_crypt rest.now }
{
    if begins_with(rest, "$") {
        Ok(Some(rest))
    } else {
        Err(crypt_fault(rest))
    }
}

// The text of a digest, where a text has the tag of one.
fn ldap_digests(text: &str) -> Option<Result<MadeText, ForeignFault>>
    ensures { result ≡ ldap_digests text.now }
{
    match behind_tag(text, "{MD5}", "{md5}") {
        Some(field) => Some(bare_field(DigestHash::Md5, field)),
        None => digest_tags(text),
    }
}

// The stored text of a digest, or why there is none of another text.
fn ldap_made<'a>(text: &str, made: &mut MadeText) -> Result<Option<&'a str>, ForeignFault>
    ensures { as_answer result made.new ≡ ldap_made text.now }
{
    match ldap_digests(text) {
        Some(digest) => put_made(digest, made),
        None => Err(ForeignFault::Unread(ldap_unread(text))),
    }
}

// The stored text of a text of AIX, or that of a digest.
fn ldap_aix<'a>(text: &str, made: &mut MadeText) -> Result<Option<&'a str>, ForeignFault>
    ensures { as_answer result made.new ≡ ldap_aix text.now }
{
    if let Some(rest) = behind_aix(text, "{ssha1}") {
        return aix(Pbkdf2Hash::Sha1, rest, made);
    }
    if let Some(rest) = behind_aix(text, "{ssha256}") {
        return aix(Pbkdf2Hash::Sha256, rest, made);
    }
    if let Some(rest) = behind_aix(text, "{ssha512}") {
        return aix(Pbkdf2Hash::Sha512, rest, made);
    }
    ldap_made(text, made)
}

/// The stored text of a text of LDAP.
#[tactic(auto, unfolding(crate::specs::Ldap::ldap))]
pub(crate) fn ldap<'a>(text: &'a str, made: &mut MadeText) -> Result<Option<&'a str>, ForeignFault>
    ensures { as_answer result made.new ≡ ldap text.now }
{
    if let Some(rest) = behind_tag(text, "{CRYPT}", "{crypt}") {
        return ldap_crypt(rest);
    }
    if let Some(rest) = behind_tag(text, "{ARGON2}", "{argon2}") {
        return as_it_is("$argon2", rest);
    }
    if let Some(rest) = behind_tag(text, "{BCRYPT}", "{bcrypt}") {
        return as_it_is("$2", rest);
    }
    if let Some(rest) = behind_tag(text, "{PBKDF2-SHA256}", "{pbkdf2-sha256}") {
        return either_pbkdf2(Pbkdf2Hash::Sha256, rest, made);
    }
    if let Some(rest) = behind_tag(text, "{PBKDF2-SHA512}", "{pbkdf2-sha512}") {
        return either_pbkdf2(Pbkdf2Hash::Sha512, rest, made);
    }
    if let Some(rest) = behind_tag(text, "{PBKDF2-SHA1}", "{pbkdf2-sha1}") {
        return either_pbkdf2(Pbkdf2Hash::Sha1, rest, made);
    }
    if let Some(rest) = behind_tag(text, "{PBKDF2}", "{pbkdf2}") {
        return either_pbkdf2(Pbkdf2Hash::Sha1, rest, made);
    }
    ldap_aix(text, made)
}

// A part of a text, which has no colon.
fn whole_part(part: &str) -> Result<Option<&str>, ForeignFault>
    ensures { (made : List ℕ) → as_answer result made ≡ whole_text (Ok part.now) }
{
    if has_colon(part.as_bytes()) {
        Err(ForeignFault::Form)
    } else {
        Ok(Some(part))
    }
}

// Whether a colon is among these bytes.
fn has_colon(bytes: &[u8]) -> bool
    ensures { result ≡ list_any is_colon bytes.now }
{
    bytes.iter().any(|b| *b == b':')
}

// A text that was made, which has no colon.
fn whole_made<'a>(made: &MadeText) -> Result<Option<&'a str>, ForeignFault>
    ensures { as_answer result made.now ≡ whole_text (Ok made.now) }
{
    if has_colon(made.as_slice()) {
        Err(ForeignFault::Form)
    } else {
        Ok(None)
    }
}

/// The stored text of a text of LDAP that is a value of bytes.
#[tactic(auto, unfolding(crate::specs::Ldap::ldif))]
pub(crate) fn ldif<'a>(text: &'a str, made: &mut MadeText) -> Result<Option<&'a str>, ForeignFault>
    ensures { as_answer result made.new ≡ ldif text.now }
{
    if begins_with(text, "$") {
        return whole_part(text);
    }
    match ldap(text, made) {
        Ok(Some(part)) => whole_part(part),
        Ok(None) => whole_made(made),
        Err(fault) => Err(fault),
    }
}
