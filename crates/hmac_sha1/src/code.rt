//! The code of a message under a key.

ghost use Rattle.std.specs.Prelude.{◌≡◌};
ghost use Rattle.hmac_sha1.specs.Hmac.{hmac_sha1};

use crate::Sha1Hasher;
use hmac_plain::Hmac;

/// HMAC over SHA-1.
pub type HmacSha1 = Hmac<64, 20, Sha1Hasher>;

/// HMAC-SHA-1 of a message under a key, both of any length.
pub fn hmac_sha1(key: &[u8], message: &[u8]) -> [u8; 20]
    ensures { result ≡ hmac_sha1 key.now message.now }
{
    let mut state = HmacSha1::new(key);
    state.update(message);
    state.finalize()
}
