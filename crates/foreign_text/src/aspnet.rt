//! Texts of ASP.NET Core Identity.

ghost use Rattle.std.specs.Prelude.{◌≡◌, ◌≤◌, ◌+◌, length};
ghost use Rattle.foreign_text.specs.AspNet.{aspnet, aspnet_bytes, aspnet_hash, aspnet_sized, aspnet_v2, aspnet_v3, by_format, first_of, number_at};
ghost use Rattle.foreign_text.specs.Views.{as_answer};

use crate::ForeignFault;
use crate::answers::put_made;
use crate::fields::field_bytes;
use crate::kdf::{FieldBytes, Kdf, MadeText, Pbkdf2Hash, with_bytes};
use base64ct::Base64;
use pieces::short_bytes::ShortBytes;

// The number in four bytes.
fn number_at(bytes: &[u8], at: usize) -> u32
    requires room { at + 4 ≤ length bytes.now }
    requires short { length bytes.now ≤ 96 }
    ensures { result ≡ number_at bytes.now at }
{
    u32::from_be_bytes([bytes[at], bytes[at + 1], bytes[at + 2], bytes[at + 3]])
}

// The hash of a number.
fn aspnet_hash(prf: u32) -> Result<Pbkdf2Hash, ForeignFault>
    ensures { result ≡ aspnet_hash prf }
{
    if prf == 0 {
        Ok(Pbkdf2Hash::Sha1)
    } else if prf == 1 {
        Ok(Pbkdf2Hash::Sha256)
    } else if prf == 2 {
        Ok(Pbkdf2Hash::Sha512)
    } else {
        Err(ForeignFault::Form)
    }
}

// The text of rounds, and of a salt of so many bytes and a key.
fn aspnet_sized(
    hash: Pbkdf2Hash,
    rounds: u32,
    size: u32,
    rest: &[u8],
) -> Result<MadeText, ForeignFault>
    requires short { length rest.now ≤ 96 }
    ensures { result ≡ aspnet_sized hash rounds size rest.now }
{
    let size = size as usize;
    if size > rest.len() {
        return Err(ForeignFault::Form);
    }
    if rounds == 0 {
        return Err(ForeignFault::Rounds);
    }
    let (salt, key) = rest.split_at(size);
    let kdf = Kdf::Pbkdf2 { hash, rounds };
    with_bytes(Ok(kdf), salt, Some(ShortBytes::from_slice(key)))
}

// The text of the bytes of format 2.
fn aspnet_v2(bytes: &[u8]) -> Result<MadeText, ForeignFault>
    ensures { result ≡ aspnet_v2 bytes.now }
{
    if bytes.len() == 49 {
        aspnet_sized(Pbkdf2Hash::Sha1, 1_000, 16, &bytes[1..])
    } else {
        Err(ForeignFault::Form)
    }
}

// The text of the bytes of format 3.
fn aspnet_v3(bytes: &[u8]) -> Result<MadeText, ForeignFault>
    requires room { 13 ≤ length bytes.now }
    requires short { length bytes.now ≤ 96 }
    ensures { result ≡ aspnet_v3 bytes.now }
{
    match aspnet_hash(number_at(bytes, 1)) {
        Ok(hash) => aspnet_sized(hash, number_at(bytes, 5), number_at(bytes, 9), &bytes[13..]),
        Err(fault) => Err(fault),
    }
}

// The first byte.
fn first_of(bytes: &[u8]) -> Option<u8>
    ensures { result ≡ first_of bytes.now }
{
    match bytes.first() {
        Some(b) => Some(*b),
        None => None,
    }
}

// The text of bytes by the first of them.
fn by_format(format: Option<u8>, bytes: &[u8]) -> Result<MadeText, ForeignFault>
    requires short { length bytes.now ≤ 96 }
    ensures { result ≡ by_format format bytes.now }
{
    let Some(format) = format else {
        return Err(ForeignFault::Form);
    };
    if format == 0 {
        return aspnet_v2(bytes);
    }
    if format == 1 && 13 <= bytes.len() {
        aspnet_v3(bytes)
    } else {
        Err(ForeignFault::Form)
    }
}

// The text of the bytes that a text encodes.
fn aspnet_bytes(bytes: Option<FieldBytes>) -> Result<MadeText, ForeignFault>
    ensures { result ≡ aspnet_bytes bytes }
{
    match bytes {
        Some(bytes) => by_format(first_of(bytes.as_slice()), bytes.as_slice()),
        None => Err(ForeignFault::Form),
    }
}

/// The stored text of a text of ASP.NET Core Identity.
#[tactic(auto, unfolding(crate::specs::AspNet::aspnet))]
pub(crate) fn aspnet<'a>(text: &str, made: &mut MadeText) -> Result<Option<&'a str>, ForeignFault>
    ensures { as_answer result made.new ≡ aspnet text.now }
{
    put_made(aspnet_bytes(field_bytes::<Base64>(text)), made)
}
