//! PBKDF2 (RFC 8018) with HMAC-SHA-256, HMAC-SHA-512 or HMAC-SHA-1: a key from a password and a salt, at a cost in time; and
//! [`Pbkdf2Plain`], which derives the keys of PHC records by it.
#![tactic(auto)]

ghost use Rattle.std.specs.Prelude.{◌≡◌, ◌≤◌, length};
ghost use Rattle.pbkdf2_key.specs.Pbkdf2.{pbkdf2_sha1, pbkdf2_sha256, pbkdf2_sha512};

mod derive;
pub mod laws;
mod prf;
mod profile;

use hmac_plain::{HmacSha256, HmacSha512};
use hmac_sha1::HmacSha1;
pub use profile::{Pbkdf2Hash, Pbkdf2Plain};

/// Writes the key of `out.len()` bytes (1 to 64) for a password and a salt, after so many rounds, into `out`.
///
/// PBKDF2 of RFC 8018, section 5.2, with HMAC-SHA-256. A round costs two compressions of SHA-256 for each 32 bytes of
/// the key. Password and salt may have any length. SHA-256 is defined for messages below 2^61 bytes, and no memory holds a longer one.
#[inline(never)]
pub fn pbkdf2_sha256(password: &[u8], salt: &[u8], rounds: u32, out: &mut [u8])
    requires rounds_least { 1 ≤ rounds }
    requires key_length_least { 1 ≤ length out.old }
    requires key_length_most { length out.old ≤ 64 }
    ensures key { out.new ≡ pbkdf2_sha256 password.now salt.now rounds (length out.old) }
{
    derive::fill::<32, HmacSha256>(password, salt, rounds, out);
}

/// The same with HMAC-SHA-512. A round costs two compressions of SHA-512, whatever the length of the key.
#[inline(never)]
pub fn pbkdf2_sha512(password: &[u8], salt: &[u8], rounds: u32, out: &mut [u8])
    requires rounds_least { 1 ≤ rounds }
    requires key_length_least { 1 ≤ length out.old }
    requires key_length_most { length out.old ≤ 64 }
    ensures key { out.new ≡ pbkdf2_sha512 password.now salt.now rounds (length out.old) }
{
    derive::fill::<64, HmacSha512>(password, salt, rounds, out);
}

/// The same with HMAC-SHA-1. A round costs two compressions of SHA-1 for each 20 bytes of the key, which is cheap for a guesser: keys
/// of this kind are derived for stored texts that wait for migration.
#[inline(never)]
pub fn pbkdf2_sha1(password: &[u8], salt: &[u8], rounds: u32, out: &mut [u8])
    requires rounds_least { 1 ≤ rounds }
    requires key_length_least { 1 ≤ length out.old }
    requires key_length_most { length out.old ≤ 64 }
    ensures key { out.new ≡ pbkdf2_sha1 password.now salt.now rounds (length out.old) }
{
    derive::fill::<20, HmacSha1>(password, salt, rounds, out);
}
