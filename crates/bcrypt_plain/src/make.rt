//! Texts that are made.

ghost use Rattle.std.specs.Prelude.{◌≡◌, ◌≤◌, Ok, Err, length, IsNone, MatchResult};
ghost use Rattle.rand_core.specs.Stream.{fill_bytes};
ghost use Rattle.bcrypt_plain.specs.Made.{bcrypt_text, made, make_fault, two_digits};

use crate::check::has_zero;
use crate::text::is_cost;
use crate::{MakeFault, bcrypt, encode_hash, encode_salt};
use pieces::short_bytes::ShortBytes;
use rand_core::Rng;

// A number of two digits.
fn two_digits(n: u32) -> [u8; 2]
    requires { n ≤ 99 }
    ensures { result ≡ two_digits n }
{
    [48 + (n / 10) as u8, 48 + (n % 10) as u8]
}

// The text for a cost.
fn text_for(password: &[u8], salt: &[u8; 16], cost: u32) -> ShortBytes<60>
    requires cost { cost ≤ 31 }
    ensures { result ≡ bcrypt_text password.now salt.now cost }
{
    let mut text = ShortBytes::from_slice(b"$2b$");
    text.push_all(&two_digits(cost));
    text.push_all(b"$");
    text.push_all(&encode_salt(salt));
    text.push_all(&encode_hash(&bcrypt(password, salt, cost)));
    text
}

// The first cause that no text is made.
fn make_fault(password: &[u8], cost: u32) -> Option<MakeFault>
    ensures fault { result ≡ make_fault password.now cost }
    ensures cost { IsNone result → cost ≤ 31 }
{
    if !is_cost(cost) {
        return Some(MakeFault::Cost);
    }
    if password.len() > 72 {
        return Some(MakeFault::PasswordTooLong);
    }
    if has_zero(password) {
        return Some(MakeFault::ZeroByte);
    }
    None
}

/// The text `$2b$cost$salt-and-hash` for a password, a salt and a cost: 60 characters.
///
/// # Errors
///
/// The first of [`MakeFault`]. The cut at 72 bytes that a check makes is none that a new text should rest on: who asks
/// for a text learns that the rest of the password would count for nothing.
#[tactic(auto, unfolding(crate::specs::Made::made))]
pub fn bcrypt_text(password: &[u8], salt: &[u8; 16], cost: u32) -> Result<ShortBytes<60>, MakeFault>
    ensures text { MatchResult result
        (λ text. made password.now salt.now cost ≡ Ok text)
        (λ e. made password.now salt.now cost ≡ Err e) }
{
    match make_fault(password, cost) {
        Some(e) => Err(e),
        None => Ok(text_for(password, salt, cost)),
    }
}

/// The text for a password and a cost, with a salt of the next 16 bytes of a generator.
///
/// # Errors
///
/// As [`bcrypt_text`]; the generator is then as it was.
#[tactic(auto, unfolding(crate::specs::Made::made))]
pub fn bcrypt_simple<R: Rng>(
    rng: &mut R,
    password: &[u8],
    cost: u32,
) -> Result<ShortBytes<60>, MakeFault>
    ensures text { MatchResult result
        (λ text. made password.now (fill_bytes 16 (R.stream rng.old)).0 cost ≡ Ok text)
        (λ e. made password.now (fill_bytes 16 (R.stream rng.old)).0 cost ≡ Err e) }
    ensures stream { MatchResult result
        (λ _. R.stream rng.new ≡ (fill_bytes 16 (R.stream rng.old)).1)
        (λ _. R.stream rng.new ≡ R.stream rng.old) }
{
    match make_fault(password, cost) {
        Some(e) => Err(e),
        None => {
            let mut salt = [0; 16];
            rng.fill_bytes(&mut salt);
            Ok(text_for(password, &salt, cost))
        }
    }
}
