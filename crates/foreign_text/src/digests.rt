//! Digests of a password and a salt, in one field.

ghost use Rattle.std.specs.Prelude.{◌≡◌, ◌≤◌, ◌∷◌, length};
ghost use Rattle.base64ct.specs.Alphabets.{base64};
ghost use Rattle.base64ct.specs.Decoding.{decoding};
ghost use Rattle.pieces.specs.Characters.{dollar};
ghost use Rattle.salted_digest.specs.Text.{identifier};
ghost use Rattle.foreign_text.specs.Digests.{bare_bytes, bare_field, digest_tags, digest_text, salted_bytes, salted_field, salted_tags, with_digest};

use crate::ForeignFault;
use crate::kdf::MadeText;
use crate::ldap::behind_tag;
use crate::padded::push_field;
use base64ct::{Base64, Encoding};
use pieces::short_bytes::ShortBytes;
use salted_digest::DigestHash;

/// The most characters of a field: those of a digest of 64 bytes and a salt of 48.
const DIGEST_MAX: usize = 152;

// What the text of a digest begins with, before the salt.
fn digest_sign(hash: DigestHash) -> &'static str
    ensures text { result.now ≡ dollar ∷ identifier hash }
    ensures len { length result.now ≤ 8 }
{
    match hash {
        DigestHash::Md5 => "$smd5",
        DigestHash::Sha1 => "$ssha",
        DigestHash::Sha256 => "$ssha256",
        DigestHash::Sha512 => "$ssha512",
    }
}

// The text of a hash function, a salt and a digest.
fn digest_text(hash: DigestHash, salt: &[u8], digest: &[u8]) -> MadeText
    requires salt { length salt.now ≤ 48 }
    requires digest { length digest.now ≤ 64 }
    ensures { result ≡ digest_text hash salt.now digest.now }
{
    let mut text = ShortBytes::from_slice(digest_sign(hash).as_bytes());
    push_field::<64>(&mut text, salt);
    push_field::<88>(&mut text, digest);
    text
}

// The bytes whose encoding a field is.
fn decoded(field: &str) -> Option<ShortBytes<114>>
    requires few { length field.now ≤ 152 }
    ensures { result ≡ decoding base64 field.now }
{
    let mut room = [0; 114];
    match Base64::decode_into(field.as_bytes(), &mut room) {
        Ok(n) => Some(ShortBytes::from_slice(&room[..n])),
        Err(_) => None,
    }
}

// The text of a digest and its salt, or the fault of the salt's length.
fn with_digest(hash: DigestHash, digest: &[u8], salt: &[u8]) -> Result<MadeText, ForeignFault>
    requires digest { length digest.now ≤ 64 }
    ensures { result ≡ with_digest hash digest.now salt.now }
{
    if 1 <= salt.len() && salt.len() <= 48 {
        Ok(digest_text(hash, salt, digest))
    } else {
        Err(ForeignFault::SaltLength)
    }
}

// The text of bytes, the first of which are the digest.
fn salted_bytes(hash: DigestHash, bytes: Option<ShortBytes<114>>) -> Result<MadeText, ForeignFault>
    ensures { result ≡ salted_bytes hash bytes }
{
    let Some(bytes) = bytes else {
        return Err(ForeignFault::Hash);
    };
    let size = hash.size();
    if bytes.len() < size {
        return Err(ForeignFault::HashLength);
    }
    let (digest, salt) = bytes.as_slice().split_at(size);
    with_digest(hash, digest, salt)
}

// The text of a field of a salted digest.
#[tactic(auto, unfolding(crate::specs::Digests::salted_field))]
fn salted_field(hash: DigestHash, field: &str) -> Result<MadeText, ForeignFault>
    ensures { result ≡ salted_field hash field.now }
{
    if field.len() > DIGEST_MAX {
        return Err(ForeignFault::SaltLength);
    }
    salted_bytes(hash, decoded(field))
}

// The text of bytes that are the digest.
fn bare_bytes(hash: DigestHash, bytes: Option<ShortBytes<114>>) -> Result<MadeText, ForeignFault>
    ensures { result ≡ bare_bytes hash bytes }
{
    let Some(bytes) = bytes else {
        return Err(ForeignFault::Hash);
    };
    if bytes.len() == hash.size() {
        Ok(digest_text(hash, b"", bytes.as_slice()))
    } else {
        Err(ForeignFault::HashLength)
    }
}

/// The text of a field of a digest without a salt, or its first fault.
#[tactic(auto, unfolding(crate::specs::Digests::bare_field))]
pub(crate) fn bare_field(hash: DigestHash, field: &str) -> Result<MadeText, ForeignFault>
    ensures { result ≡ bare_field hash field.now }
{
    if field.len() > DIGEST_MAX {
        return Err(ForeignFault::HashLength);
    }
    bare_bytes(hash, decoded(field))
}

// The text of a salted digest, where a text has the tag of one.
fn salted_tags(text: &str) -> Option<Result<MadeText, ForeignFault>>
    ensures { result ≡ salted_tags text.now }
{
    if let Some(field) = behind_tag(text, "{SMD5}", "{smd5}") {
        return Some(salted_field(DigestHash::Md5, field));
    }
    if let Some(field) = behind_tag(text, "{SSHA}", "{ssha}") {
        return Some(salted_field(DigestHash::Sha1, field));
    }
    if let Some(field) = behind_tag(text, "{SSHA256}", "{ssha256}") {
        return Some(salted_field(DigestHash::Sha256, field));
    }
    if let Some(field) = behind_tag(text, "{SSHA512}", "{ssha512}") {
        return Some(salted_field(DigestHash::Sha512, field));
    }
    None
}

/// The text of a digest, where a text has a tag that LDAP and Dovecot have.
pub(crate) fn digest_tags(text: &str) -> Option<Result<MadeText, ForeignFault>>
    ensures { result ≡ digest_tags text.now }
{
    if let Some(field) = behind_tag(text, "{SHA}", "{sha}") {
        return Some(bare_field(DigestHash::Sha1, field));
    }
    if let Some(field) = behind_tag(text, "{SHA256}", "{sha256}") {
        return Some(bare_field(DigestHash::Sha256, field));
    }
    if let Some(field) = behind_tag(text, "{SHA512}", "{sha512}") {
        return Some(bare_field(DigestHash::Sha512, field));
    }
    salted_tags(text)
}
