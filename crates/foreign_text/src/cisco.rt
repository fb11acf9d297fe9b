//! Texts of Cisco's IOS.

ghost use Rattle.std.specs.Prelude.{◌≡◌};
ghost use Rattle.std.specs.List.{list_all};
ghost use Rattle.foreign_text.specs.Cisco.{cisco, cisco_sized, cisco_type, is_crypt_byte, is_crypt_field};
ghost use Rattle.foreign_text.specs.Views.{as_answer};

use crate::ForeignFault;
use crate::answers::{put_made, stored_or_unread};
use crate::fields::field_bytes;
use crate::kdf::{Kdf, MadeText, Pbkdf2Hash, with_bytes};
use base64ct::Base64Crypt;
use pieces::{behind, first_piece, is_end};

/// Type 8: PBKDF2.
const TYPE_8: Kdf = Kdf::Pbkdf2 {
    hash: Pbkdf2Hash::Sha256,
    rounds: 20_000,
};

/// Type 9: scrypt.
const TYPE_9: Kdf = Kdf::Scrypt { ln: 14, r: 1, p: 1 };

fn is_crypt_byte(b: u8) -> bool
    ensures { result ≡ is_crypt_byte b }
{
    b.is_ascii_alphanumeric() || b == b'.' || b == b'/'
}

fn are_crypt(field: &[u8]) -> bool
    ensures { result ≡ list_all is_crypt_byte field.now }
{
    field.iter().all(|b| is_crypt_byte(*b))
}

// Whether a field is so many characters of crypt's alphabet.
fn is_crypt_field(n: usize, field: &str) -> bool
    ensures { result ≡ is_crypt_field n field.now }
{
    field.len() == n && are_crypt(field.as_bytes())
}

// The text of a salt and a key.
fn cisco_sized(kdf: Kdf, salt: &str, key: &str) -> Result<MadeText, ForeignFault>
    ensures { result ≡ cisco_sized kdf salt.now key.now }
{
    if is_crypt_field(14, salt) && is_crypt_field(43, key) {
        with_bytes(Ok(kdf), salt.as_bytes(), field_bytes::<Base64Crypt>(key))
    } else {
        Err(ForeignFault::Form)
    }
}

// What comes after `$8$` or `$9$`.
fn cisco_type(kdf: Kdf, rest: &str) -> Result<MadeText, ForeignFault>
    ensures { result ≡ cisco_type kdf rest.now }
{
    let (salt, others) = first_piece(rest, '$');
    let Some(others) = others else {
        return Err(ForeignFault::Form);
    };
    let (key, more) = first_piece(others, '$');
    if is_end(more) {
        cisco_sized(kdf, salt, key)
    } else {
        Err(ForeignFault::Form)
    }
}

/// The stored text of a text of Cisco's.
#[tactic(auto, unfolding(crate::specs::Cisco::cisco))]
pub(crate) fn cisco<'a>(text: &'a str, made: &mut MadeText) -> Result<Option<&'a str>, ForeignFault>
    ensures { as_answer result made.new ≡ cisco text.now }
{
    if let Some(rest) = behind(text, "$8$") {
        return put_made(cisco_type(TYPE_8, rest), made);
    }
    if let Some(rest) = behind(text, "$9$") {
        return put_made(cisco_type(TYPE_9, rest), made);
    }
    stored_or_unread(text)
}
