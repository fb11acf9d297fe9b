//! The texts of SHA-crypt.

ghost use Rattle.std.specs.Prelude.{◌≡◌, ◌≤◌, length};
ghost use Rattle.sha_crypt.specs.Simple.{made_text};
ghost use Rattle.any_make.specs.Made.{salt_characters};

use crate::texts::TEXT_MAX;
use base64ct::{Base64ShaCrypt, Encoding};
use pieces::short_bytes::ShortBytes;
use sha_crypt::{Family, ROUNDS_DEFAULT, password_text};

// The characters of a salt.
fn salt_characters(salt: &[u8]) -> [u8; 16]
    requires { length salt.now ≡ 12 }
    ensures { result ≡ salt_characters salt.now }
{
    let mut text = [0; 16];
    let _ = Base64ShaCrypt::encode_into(salt, &mut text);
    text
}

/// The text of a family.
pub(crate) fn sha_text(
    family: Family,
    password: &[u8],
    salt: &[u8],
    rounds: u32,
) -> ShortBytes<TEXT_MAX>
    requires salt { length salt.now ≡ 12 }
    ensures { result ≡ made_text family password.now (salt_characters salt.now) rounds }
{
    let salt = salt_characters(salt);
    let rounds = rounds as usize;
    password_text(family, rounds != ROUNDS_DEFAULT, password, &salt, rounds)
}
