//! The text that an upgrade makes.

ghost use Rattle.std.specs.Prelude.{◌≡◌, ◌≤◌, length, string_bytes, IfOk};
ghost use Rattle.phc.specs.Encoded.{encoding};
ghost use Rattle.pw_file.specs.Limits.{text_max};
ghost use Rattle.pw_file.specs.Upgraded.{upgraded_text};
ghost use Rattle.phc_kdf.specs.Limits.{password_max};

use base64ct::{Base64Unpadded, Encoding};
use phc::SaltString;
use scrypt_plain::ScryptKept;
use std::alloc::{AllocError, Global};

// The encoding of a key of 32 bytes.
fn encoded<'a>(key: &[u8], room: &'a mut [u8]) -> &'a str
    requires key { length key.now ≡ 32 }
    requires room { 43 ≤ length room.old }
    ensures text { result.now ≡ encoding key.now }
{
    match Base64Unpadded::encode(key, room) {
        Ok(text) => text,
        Err(_) => "",
    }
}

/// The text that an upgrade makes.
pub(crate) fn upgraded_text(
    alloc: Global,
    kdf: &ScryptKept,
    password: &str,
    salt: &SaltString,
) -> Result<String, AllocError>
    requires short { length password.now ≤ password_max }
    ensures text { IfOk result (λ text. string_bytes text ≡ upgraded_text password.now salt.now) }
    ensures length { IfOk result (λ text. length (string_bytes text) ≤ text_max) }
{
    let mut key = [0; 32];
    kdf.scrypt_into(
        alloc,
        password.as_bytes(),
        salt.to_salt().as_bytes(),
        14,
        8,
        1,
        &mut key,
    )?;
    let mut room = [0; 43];
    let mut text = String::from_str(alloc, "$scrypt$ln=14,r=8,p=1$")?;
    text.push_str(salt.as_str())?;
    text.push_str("$")?;
    text.push_str(encoded(&key, &mut room))?;
    Ok(text)
}
