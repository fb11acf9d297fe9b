//! The check of a password against a stored text.

ghost use Rattle.std.specs.Prelude.{◌≡◌, IsUtf8, length};
ghost use Rattle.bcrypt_digest.specs.Check.{digest_answer, digest_cost, under_answer, under_cost};

use crate::front_text;
use crate::text::{DigestParts, digest_parts};
use bcrypt_plain::{BcryptError, BcryptFault, bcrypt_check, text_cost};
use pieces::text::text_of;

// The answer for a password and the text beneath.
fn under_answer(password: &str, parts: DigestParts) -> Result<(), BcryptError>
    requires utf8 { IsUtf8 parts.under }
    requires full { length parts.under ≡ 60 }
    ensures answer { result ≡ under_answer password.now parts }
{
    let under = parts.under.as_slice();
    let digest = front_text(parts.front, &under[7..29], password.as_bytes());
    let Some(digest) = text_of(digest.as_slice()) else {
        unreachable!()
    };
    let Some(under) = text_of(under) else {
        unreachable!()
    };
    bcrypt_check(digest, under)
}

// The cost of the text beneath.
fn under_cost(parts: DigestParts) -> Result<u32, BcryptFault>
    requires utf8 { IsUtf8 parts.under }
    ensures cost { result ≡ under_cost parts }
{
    match text_of(parts.under.as_slice()) {
        Some(under) => text_cost(under),
        None => unreachable!(),
    }
}

/// The cost that a valid text names: 4 to 31, the binary logarithm of the number of turns of bcrypt. Nothing is hashed.
///
/// # Errors
///
/// The first fault of the text, as [`digest_check`] has it.
#[tactic(auto, unfolding(crate::specs::Check::digest_cost))]
pub fn digest_cost(stored: &str) -> Result<u32, BcryptFault>
    ensures cost { result ≡ digest_cost stored.now }
{
    match digest_parts(stored) {
        Ok(parts) => under_cost(parts),
        Err(e) => Err(e),
    }
}

/// Checks a password against a text of bcrypt with a digest in front. All bytes of the password count.
///
/// # Errors
///
/// The first fault of the text: `WrongId` for a front, an identifier or parameters that are none of the four; for passlib's
/// texts `NoHash`, `Trailing`, and `Cost` for a cost that is no decimal of 4 to 31; `Length` for salt and hash of another
/// length, or for a text of bcrypt that doesn't have 60 bytes; then the first fault of the text of bcrypt beneath. `ZeroByte` never
/// comes: a digest as text has no zero byte. And else `HashMismatch` for another password.
#[inline(never)]
#[tactic(auto, unfolding(crate::specs::Check::digest_answer))]
pub fn digest_check(password: &str, stored: &str) -> Result<(), BcryptError>
    ensures answer { result ≡ digest_answer password.now stored.now }
{
    match digest_parts(stored) {
        Ok(parts) => under_answer(password, parts),
        Err(e) => Err(BcryptError::InvalidFormat(e)),
    }
}
