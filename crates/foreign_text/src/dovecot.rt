//! Texts of Dovecot.

ghost use Rattle.std.specs.Prelude.{◌≡◌};
ghost use Rattle.foreign_text.specs.Dovecot.{dovecot, dovecot_digest, dovecot_digests, dovecot_fields, dovecot_made, dovecot_pbkdf2};
ghost use Rattle.foreign_text.specs.Dovecot.{dovecot_plain, dovecot_scram, dovecot_unread};
ghost use Rattle.foreign_text.specs.Views.{as_answer};
ghost use Rattle.std.specs.Prelude.{ℕ, List};

use crate::answers::{as_it_is, put_made};
use crate::digests::{bare_field, digest_tags};
use crate::fields::{four_at, pbkdf2_cost, small_hex, three_at};
use crate::kdf::{MadeText, Pbkdf2Hash, if_sized, is_size, with_bytes};
use crate::ldap::{behind_tag, is_tagged, ldap_crypt, ldap_unread};
use crate::scram::scram_fields;
use crate::{ForeignFault, Unread};
use pieces::behind;
use salted_digest::DigestHash;
use scram_plain::Preparation;

// The scheme of a text that keeps the password, or another.
fn dovecot_plain(text: &str) -> Unread
    ensures { result ≡ dovecot_plain text.now }
{
    if is_tagged(text, "{PLAIN}", "{plain}")
        || is_tagged(text, "{CLEAR}", "{clear}")
        || is_tagged(text, "{PLAIN-TRUNC}", "{plain-trunc}")
    {
        Unread::Cleartext
    } else {
        ldap_unread(text)
    }
}

// Another scheme of MD5, or another.
fn dovecot_digest(text: &str) -> Unread
    ensures { result ≡ dovecot_digest text.now }
{
    if is_tagged(text, "{PLAIN-MD5}", "{plain-md5}")
        || is_tagged(text, "{CRAM-MD5}", "{cram-md5}")
        || is_tagged(text, "{HMAC-MD5}", "{hmac-md5}")
        || is_tagged(text, "{DIGEST-MD5}", "{digest-md5}")
    {
        Unread::Md5
    } else {
        dovecot_plain(text)
    }
}

// The scheme of a text that isn't read.
fn dovecot_unread(text: &str) -> Unread
    ensures { result ≡ dovecot_unread text.now }
{
    if is_tagged(text, "{SCRAM-SHA-1}", "{scram-sha-1}") {
        Unread::Scram
    } else if is_tagged(text, "{DES-CRYPT}", "{des-crypt}") {
        Unread::DesCrypt
    } else {
        dovecot_digest(text)
    }
}

// The text of what follows the tag of SCRAM.
fn dovecot_scram(rest: &str) -> Result<MadeText, ForeignFault>
    ensures { result ≡ dovecot_scram rest.now }
{
    match four_at(rest, ',') {
        Ok(f) => scram_fields(
            Preparation::Raw,
            f.first,
            f.others.first,
            f.others.second,
            f.others.third,
        ),
        Err(fault) => Err(fault),
    }
}

// The text of a salt, rounds and a key of PBKDF2.
fn dovecot_fields(rest: &str) -> Result<MadeText, ForeignFault>
    ensures { result ≡ dovecot_fields rest.now }
{
    match three_at(rest, '$') {
        Ok(f) => if_sized(
            is_size(Some(20), small_hex(f.third.as_bytes())),
            with_bytes(
                pbkdf2_cost(Pbkdf2Hash::Sha1, f.second),
                f.first.as_bytes(),
                small_hex(f.third.as_bytes()),
            ),
        ),
        Err(fault) => Err(fault),
    }
}

// The text of what follows the tag of PBKDF2.
fn dovecot_pbkdf2(rest: &str) -> Result<MadeText, ForeignFault>
    ensures { result ≡ dovecot_pbkdf2 rest.now }
{
    match behind(rest, "$1$") {
        Some(fields) => dovecot_fields(fields),
        None => Err(ForeignFault::Form),
    }
}

// The text of a digest, where a text has the tag of one.
fn dovecot_digests(text: &str) -> Option<Result<MadeText, ForeignFault>>
    ensures { result ≡ dovecot_digests text.now }
{
    if let Some(field) = behind_tag(text, "{LDAP-MD5}", "{ldap-md5}") {
        return Some(bare_field(DigestHash::Md5, field));
    }
    if let Some(field) = behind_tag(text, "{SHA1}", "{sha1}") {
        return Some(bare_field(DigestHash::Sha1, field));
    }
    digest_tags(text)
}

// The stored text of a text of SCRAM or PBKDF2 or of a digest, or why there is none of another one.
fn dovecot_made<'a>(text: &'a str, made: &mut MadeText) -> Result<Option<&'a str>, ForeignFault>
    ensures { as_answer result made.new ≡ dovecot_made text.now }
{
    if let Some(rest) = behind_tag(text, "{SCRAM-SHA-256}", "{scram-sha-256}") {
        return put_made(dovecot_scram(rest), made);
    }
    if let Some(rest) = behind_tag(text, "{PBKDF2}", "{pbkdf2}") {
        return put_made(dovecot_pbkdf2(rest), made);
    }
    match dovecot_digests(text) {
        Some(digest) => put_made(digest, made),
        None => Err(ForeignFault::Unread(dovecot_unread(text))),
    }
}

/// The stored text of a text of Dovecot.
#[tactic(auto, unfolding(crate::specs::Dovecot::dovecot))]
pub(crate) fn dovecot<'a>(
    text: &'a str,
    made: &mut MadeText,
) -> Result<Option<&'a str>, ForeignFault>
    ensures { as_answer result made.new ≡ dovecot text.now }
{
    if let Some(rest) = behind_tag(text, "{SHA512-CRYPT}", "{sha512-crypt}") {
        return as_it_is("$6$", rest);
    }
    if let Some(rest) = behind_tag(text, "{SHA256-CRYPT}", "{sha256-crypt}") {
        return as_it_is("$5$", rest);
    }
    if let Some(rest) = behind_tag(text, "{MD5-CRYPT}", "{md5-crypt}") {
        return as_it_is("$1$", rest);
    }
    if let Some(rest) = behind_tag(text, "{BLF-CRYPT}", "{blf-crypt}") {
        return as_it_is("$2", rest);
    }
    if let Some(rest) = behind_tag(text, "{ARGON2I}", "{argon2i}") {
        return as_it_is("$argon2i$", rest);
    }
    if let Some(rest) = behind_tag(text, "{ARGON2ID}", "{argon2id}") {
        return as_it_is("$argon2id$", rest);
    }
    if let Some(rest) = behind_tag(text, "{CRYPT}", "{crypt}") {
        return ldap_crypt(rest);
    }
    dovecot_made(text, made)
}
