//! The digest of a password and a salt.

ghost use Rattle.std.specs.Prelude.{◌≡◌, ◌++◌, length};
ghost use Rattle.md5.specs.Md5.{md5};
ghost use Rattle.sha1.specs.Sha1.{sha1};
ghost use Rattle.sha2.specs.Sha256.{sha256};
ghost use Rattle.sha2.specs.Sha512.{sha512};
ghost use Rattle.salted_digest.specs.Digest.{digest_size, salted_digest};

use crate::DigestHash;
use md5::{Digest as Md5Digest, Md5};
use pieces::short_bytes::ShortBytes;
use sha1::Sha1;
use sha2::{Digest, Sha256, Sha512};

// The digest of MD5.
fn md5_of(password: &[u8], salt: &[u8]) -> [u8; 16]
    ensures { result ≡ md5 (password.now ++ salt.now) }
{
    let mut hasher = Md5::new();
    hasher.update(password);
    hasher.update(salt);
    hasher.finalize()
}

// The digest of SHA-1.
fn sha1_of(password: &[u8], salt: &[u8]) -> [u8; 20]
    ensures { result ≡ sha1 (password.now ++ salt.now) }
{
    let mut hasher = Sha1::new();
    hasher.update(password);
    hasher.update(salt);
    hasher.finalize()
}

// The digest of SHA-256.
fn sha256_of(password: &[u8], salt: &[u8]) -> [u8; 32]
    ensures { result ≡ sha256 (password.now ++ salt.now) }
{
    let mut hasher = Sha256::new();
    hasher.update(password);
    hasher.update(salt);
    hasher.finalize()
}

// The digest of SHA-512.
fn sha512_of(password: &[u8], salt: &[u8]) -> [u8; 64]
    ensures { result ≡ sha512 (password.now ++ salt.now) }
{
    let mut hasher = Sha512::new();
    hasher.update(password);
    hasher.update(salt);
    hasher.finalize()
}

/// The digest of a password and a salt after it: 16, 20, 32 or 64 bytes. Password and salt may have any bytes and any length.
#[tactic(auto, unfolding(crate::specs::Digest::salted_digest))]
#[inline(never)]
pub fn salted_digest(hash: DigestHash, password: &[u8], salt: &[u8]) -> ShortBytes<64>
    ensures digest { result ≡ salted_digest hash password.now salt.now }
    ensures size { length result ≡ digest_size hash }
{
    match hash {
        DigestHash::Md5 => ShortBytes::from_slice(&md5_of(password, salt)),
        DigestHash::Sha1 => ShortBytes::from_slice(&sha1_of(password, salt)),
        DigestHash::Sha256 => ShortBytes::from_slice(&sha256_of(password, salt)),
        DigestHash::Sha512 => ShortBytes::from_slice(&sha512_of(password, salt)),
    }
}
