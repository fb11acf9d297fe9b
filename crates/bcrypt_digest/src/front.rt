//! The digests in front of bcrypt.

ghost use Rattle.std.specs.Prelude.{◌≡◌, ◌≤◌, length, reverse};
ghost use Rattle.base64ct.specs.Alphabets.{base64};
ghost use Rattle.base64ct.specs.Encoding.{encoding};
ghost use Rattle.hex.specs.Hex.{encode_lower};
ghost use Rattle.sha2.specs.Sha256.{sha256};
ghost use Rattle.bcrypt_digest.specs.Front.{front_text, is_trimmed, trimmed, without_front};

use base64ct::{Base64, Encoding};
use hex::encode_to_slice;
use hmac_plain::{hmac_sha256, hmac_sha384};
use pieces::short_bytes::ShortBytes;
use sha2::{Digest, Sha256};

/// What is made of a password before bcrypt.
#[derive(Clone, Copy, Debug, PartialEq, Eq)]
pub enum Front {
    /// Django: the 64 hexadecimal digits of SHA-256, in small letters.
    Hex,
    /// passlib's version 1: SHA-256 in Base64 with padding, 44 characters.
    Plain,
    /// passlib's version 2: HMAC-SHA-256 in Base64 with padding, 44 characters. The key is the 22 characters of the salt.
    Salted,
    /// WordPress: HMAC-SHA-384 in Base64, 64 characters, of the password without the blanks at both ends. The key is
    /// `wp-sha384`.
    WordPress,
}

// Whether WordPress takes a character off the ends of a password.
fn is_trimmed(c: u8) -> bool
    ensures { result ≡ is_trimmed c }
{
    c == 32 || c == 9 || c == 10 || c == 13 || c == 0 || c == 11
}

// Without these characters at the front.
fn without_front(mut password: &[u8]) -> &[u8]
    ensures { result.now ≡ without_front password.now }
{
    while let [first, rest @ ..] = password
        && is_trimmed(*first)
    {
        password = rest;
    }
    password
}

// Without these characters at the end.
fn without_end(mut password: &[u8]) -> &[u8]
    ensures { result.now ≡ reverse (without_front (reverse password.now)) }
{
    while let [rest @ .., last] = password
        && is_trimmed(*last)
    {
        password = rest;
    }
    password
}

/// A password as WordPress hashes it: without blanks, tabs, line feeds, carriage returns, zero bytes and vertical tabs at both
/// ends, which are the characters of PHP's `trim`.
pub fn trimmed(password: &[u8]) -> &[u8]
    ensures text { result.now ≡ trimmed password.now }
{
    without_end(without_front(password))
}

// The digest of SHA-256.
fn digest_of(password: &[u8]) -> [u8; 32]
    ensures { result ≡ sha256 password.now }
{
    let mut hasher = Sha256::new();
    hasher.update(password);
    hasher.finalize()
}

// A digest by its hexadecimal digits.
fn hex_text(digest: &[u8; 32]) -> ShortBytes<64>
    ensures text { result ≡ encode_lower digest.now }
{
    let mut room = [0; 64];
    let _ = encode_to_slice(digest, &mut room);
    ShortBytes::from_slice(&room)
}

// A digest in Base64.
fn base64_text(digest: &[u8]) -> ShortBytes<64>
    requires short { length digest.now ≤ 48 }
    ensures text { result ≡ encoding base64 digest.now }
{
    let mut room = [0; 64];
    match Base64::encode_into(digest, &mut room) {
        Ok(n) => ShortBytes::from_slice(&room[..n]),
        Err(_) => unreachable!(),
    }
}

/// The text of a digest of a password: what bcrypt gets in its place. It has at most 64 characters, and no zero byte among
/// them. `salt` is the 22 characters of the salt, which `Salted` alone takes.
#[tactic(auto, unfolding(crate::specs::Front::front_text))]
pub fn front_text(front: Front, salt: &[u8], password: &[u8]) -> ShortBytes<64>
    ensures text { result ≡ front_text front salt.now password.now }
{
    match front {
        Front::Hex => hex_text(&digest_of(password)),
        Front::Plain => base64_text(&digest_of(password)),
        Front::Salted => base64_text(&hmac_sha256(salt, password)),
        Front::WordPress => base64_text(&hmac_sha384(b"wp-sha384", trimmed(password))),
    }
}
