//! The text by the scheme.

ghost use Rattle.std.specs.Prelude.{◌≡◌, ◌⊎◌, ◌≤◌, length, false, true, IfOk, IsOk};
ghost use Rattle.bcrypt_plain.specs.Check.{has_zero};
ghost use Rattle.bcrypt_plain.specs.Made as bcrypt;
ghost use Rattle.bcrypt_plain.specs.Text.{is_cost};
ghost use Rattle.yescrypt_plain.specs.Made.{yescrypt_hash_text};
ghost use Rattle.any_make.specs.Costs.{is_taken, needs_memory, password_length, salt_length, takes_zero};
ghost use Rattle.any_make.specs.Made.{hash_text};

use crate::MakeCost;
use crate::records::{argon2_text, pbkdf2_text, scrypt_text};
use crate::sha_texts::sha_text;
use bcrypt_plain::bcrypt_text;
use pieces::short_bytes::ShortBytes;
use std::alloc::{AllocError, Global};
use yescrypt_plain::{YescryptParams, yescrypt_text};

/// Room for every text: the longest, of SHA-512-crypt, has 123 bytes. It is the room that `yescrypt_plain` makes its texts in.
pub const TEXT_MAX: usize = 154;

// The text of bcrypt.
fn bcrypt_made(password: &[u8], salt: &[u8], cost: u32) -> ShortBytes<TEXT_MAX>
    requires cost { is_cost cost ≡ true }
    requires salt { length salt.now ≡ 16 }
    requires password { length password.now ≤ 72 }
    requires zero { has_zero password.now ≡ false }
    ensures { result ≡ bcrypt.bcrypt_text password.now salt.now cost }
{
    let mut bytes = [0; 16];
    bytes.copy_from_slice(salt);
    match bcrypt_text(password, &bytes, cost) {
        Ok(text) => ShortBytes::from_slice(text.as_slice()),
        Err(_) => unreachable!(),
    }
}

// The text of yescrypt.
fn yescrypt_made(
    alloc: Global,
    password: &[u8],
    salt: &[u8],
    cost: YescryptParams,
) -> Result<ShortBytes<TEXT_MAX>, AllocError>
    ensures text { IfOk result (λ text. text ≡ yescrypt_hash_text password.now salt.now cost) }
{
    match yescrypt_text(alloc, password, salt, cost) {
        Ok(text) => Ok(text),
        Err(_) => Err(AllocError),
    }
}

/// The text of a password, a cost and a salt of which one is made.
#[tactic(auto, unfolding(crate::specs::Made::hash_text))]
pub(crate) fn hash_text(
    alloc: Global,
    cost: MakeCost,
    password: &[u8],
    salt: &[u8],
) -> Result<ShortBytes<TEXT_MAX>, AllocError>
    requires cost { is_taken cost ≡ true }
    requires salt { length salt.now ≡ salt_length cost }
    requires password { length password.now ≤ password_length cost }
    requires zero { (takes_zero cost ≡ true) ⊎ (has_zero password.now ≡ false) }
    ensures text { IfOk result (λ text. text ≡ hash_text cost password.now salt.now) }
    ensures memory { needs_memory cost ≡ false → IsOk result }
{
    match cost {
        MakeCost::ShaCrypt(family, rounds) => Ok(sha_text(family, password, salt, rounds)),
        MakeCost::Scrypt(cost) => scrypt_text(alloc, cost, password, salt),
        MakeCost::Bcrypt(cost) => Ok(bcrypt_made(password, salt, cost)),
        MakeCost::Yescrypt(cost) => yescrypt_made(alloc, password, salt, cost),
        MakeCost::Argon2id(cost) => argon2_text(alloc, cost, password, salt),
        MakeCost::Pbkdf2(hash, rounds) => Ok(pbkdf2_text(hash, rounds, password, salt)),
    }
}
