//! md5-crypt, the old scheme of the stored texts `$1$salt$hash` and, as Apache's htpasswd writes it, `$apr1$salt$hash`:
//! its digest, its hash field, and the verdict on a password and the fields of such a text.
//!
//! Nothing here takes memory. MD5 is broken, and a thousand rounds of it are cheap: texts of this kind are read for
//! migration, and are not to be made.
#![tactic(auto)]

ghost use Rattle.std.specs.Prelude.{◌≡◌, ◌^◌, ◌<◌, length, take};
ghost use Rattle.md5_plain.specs.Digest.{md5_crypt_digest};

mod check;
mod digest;
mod error;
mod field;
pub mod laws;
mod magic;
mod turns;

pub use check::{are_md5_fields, md5_verdict};
pub use error::Md5Fault;
pub use field::{MAP_MD5, decode_md5, encode_md5};
use magic::magic_text;
pub use magic::{Magic, magic_of};

/// The bytes of a salt that count.
const SALT_LEN: usize = 8;

/// The rounds.
const ROUNDS: usize = 1_000;

// The part of a salt that counts.
fn used_salt(salt: &[u8]) -> &[u8]
    ensures { result.now ≡ take 8 salt.now }
{
    if salt.len() > SALT_LEN {
        &salt[..SALT_LEN]
    } else {
        salt
    }
}

/// The md5-crypt digest of a password and a salt, of which the first 8 bytes count, after 1,000 rounds.
///
/// Every password below 2^30 bytes is taken: then each message that is hashed has fewer than 2^61 bytes. The algorithm
/// is that of FreeBSD's crypt(3), by P.-H. Kamp, and with the other magic that of Apache's htpasswd.
#[tactic(auto, unfolding(crate::specs::Digest::md5_crypt_digest))]
pub fn md5_crypt(password: &[u8], salt: &[u8], magic: Magic) -> [u8; 16]
    requires short { length password.now < 2 ^ 30 }
    ensures digest { result ≡ md5_crypt_digest password.now salt.now magic }
{
    let salt = used_salt(salt);
    let a = digest::start_digest(magic_text(magic), password, salt);
    turns::after_rounds(&a, password, salt, ROUNDS)
}
