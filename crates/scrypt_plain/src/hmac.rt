//! HMAC-SHA-256 (RFC 2104), under the names that stood here before the crate `hmac_plain` did.

ghost use Rattle.std.specs.Prelude.{◌≡◌};
ghost use Rattle.scrypt_plain.specs.Hmac.{block_key, hmac};

pub use hmac_plain::HmacSha256;
use sha2::Sha256;

/// The key as one block: the key itself, or its digest where it has more than 64 bytes, filled with
/// zeros at the end.
pub fn block_key(key: &[u8]) -> [u8; 64]
    ensures { result ≡ block_key key.now }
{
    hmac_plain::block_key::<64, 32, Sha256>(key)
}

/// The code of a message under a key, both of any length.
pub fn hmac(key: &[u8], message: &[u8]) -> [u8; 32]
    ensures { result ≡ hmac key.now message.now }
{
    hmac_plain::hmac_sha256(key, message)
}
