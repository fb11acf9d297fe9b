//! The texts that are PHC records.

ghost use Rattle.std.specs.Prelude.{◌≡◌, ◌≤◌, ◌+◌, ◌++◌, codes, length, IfOk, true};
ghost use Rattle.std.specs.Fmt.{decimal};
ghost use Rattle.argon2_plain.specs.Bounds as argon2_bounds;
ghost use Rattle.phc.specs.Encoded.{encoding};
ghost use Rattle.phc.specs.Record.{record_text};
ghost use Rattle.scrypt_plain.specs.Bounds as scrypt_bounds;
ghost use Rattle.phc_kdf.specs.Limits.{password_max};
ghost use Rattle.any_make.specs.Records.{argon2_key, argon2_record, pbkdf2_key, pbkdf2_record, pbkdf2_start, scrypt_key, scrypt_record};

use crate::texts::TEXT_MAX;
use crate::{Argon2Cost, Pbkdf2Hash};
use argon2_plain::argon2;
use base64ct::{Base64Unpadded, Encoding};
use pbkdf2_key::{pbkdf2_sha256, pbkdf2_sha512};
use pieces::short_bytes::ShortBytes;
use scrypt_plain::scrypt;
use std::alloc::{AllocError, Global};
use yescrypt_plain::ScryptParams;

// Appends a number behind what names it.
fn push_number(text: &mut ShortBytes<TEXT_MAX>, name: &[u8], number: u32)
    requires room { length text.old + length name.now + 10 ≤ 154 }
    ensures appended { text.new ≡ text.old ++ name.now ++ decimal number }
    ensures len { length text.new ≤ length text.old + length name.now + 10 }
{
    text.push_all(name);
    text.push_decimal(number as u64);
}

// Appends the encoding of at most 32 bytes.
fn push_encoding(text: &mut ShortBytes<TEXT_MAX>, bytes: &[u8])
    requires few { length bytes.now ≤ 32 }
    requires room { length text.old + 43 ≤ 154 }
    ensures appended { text.new ≡ text.old ++ encoding bytes.now }
    ensures len { length text.new ≤ length text.old + 43 }
{
    let mut room = [0; 43];
    match Base64Unpadded::encode_into(bytes, &mut room) {
        Ok(n) => text.push_all(&room[..n]),
        Err(_) => unreachable!(),
    }
}

// A text with a salt and a key behind it.
fn with_fields(front: &ShortBytes<TEXT_MAX>, salt: &[u8], key: &[u8]) -> ShortBytes<TEXT_MAX>
    requires front { length front.now ≤ 66 }
    requires salt { length salt.now ≤ 32 }
    requires key { length key.now ≤ 32 }
    ensures { result ≡ front.now ++ codes "$" ++ encoding salt.now ++ codes "$" ++ encoding key.now }
{
    let mut text = *front;
    text.push_all(b"$");
    push_encoding(&mut text, salt);
    text.push_all(b"$");
    push_encoding(&mut text, key);
    text
}

// `$scrypt$ln=L,r=R,p=P`
fn scrypt_front(cost: ScryptParams) -> ShortBytes<TEXT_MAX>
    ensures text { result ≡ codes "$scrypt$ln=" ++ decimal cost.ln ++ codes ",r=" ++ decimal cost.r ++ codes ",p="
        ++ decimal cost.p }
    ensures len { length result ≤ 66 }
{
    let mut text = ShortBytes::new();
    push_number(&mut text, b"$scrypt$ln=", cost.ln);
    push_number(&mut text, b",r=", cost.r);
    push_number(&mut text, b",p=", cost.p);
    text
}

/// The text of scrypt.
pub(crate) fn scrypt_text(
    alloc: Global,
    cost: ScryptParams,
    password: &[u8],
    salt: &[u8],
) -> Result<ShortBytes<TEXT_MAX>, AllocError>
    requires cost { scrypt_bounds.in_bounds cost.ln cost.r cost.p ≡ true }
    requires password { length password.now ≤ password_max }
    requires salt { length salt.now ≡ 16 }
    ensures text { IfOk result (λ text. text
        ≡ record_text (scrypt_record cost salt.now (scrypt_key cost password.now salt.now))) }
{
    let mut key = [0; 32];
    scrypt(alloc, password, salt, cost.ln, cost.r, cost.p, &mut key)?;
    Ok(with_fields(&scrypt_front(cost), salt, &key))
}

// `$argon2id$v=19$m=M,t=T,p=P`
fn argon2_front(cost: Argon2Cost) -> ShortBytes<TEXT_MAX>
    ensures text { result ≡ codes "$argon2id$v=19$m=" ++ decimal cost.memory ++ codes ",t=" ++ decimal cost.passes
        ++ codes ",p=" ++ decimal cost.lanes }
    ensures len { length result ≤ 66 }
{
    let mut text = ShortBytes::new();
    push_number(&mut text, b"$argon2id$v=19$m=", cost.memory);
    push_number(&mut text, b",t=", cost.passes);
    push_number(&mut text, b",p=", cost.lanes);
    text
}

/// The text of Argon2id.
pub(crate) fn argon2_text(
    alloc: Global,
    cost: Argon2Cost,
    password: &[u8],
    salt: &[u8],
) -> Result<ShortBytes<TEXT_MAX>, AllocError>
    requires cost { argon2_bounds.in_bounds cost.passes cost.memory cost.lanes ≡ true }
    requires password { length password.now ≤ password_max }
    requires salt { length salt.now ≡ 16 }
    ensures text { IfOk result (λ text. text
        ≡ record_text (argon2_record cost salt.now (argon2_key cost password.now salt.now))) }
{
    let mut key = [0; 32];
    argon2(alloc, cost.params(), password, salt, &[], &[], &mut key)?;
    Ok(with_fields(&argon2_front(cost), salt, &key))
}

// What is before the rounds.
fn pbkdf2_start(hash: Pbkdf2Hash) -> &'static [u8]
    ensures text { result.now ≡ pbkdf2_start hash }
    ensures len { length result.now ≡ 17 }
{
    match hash {
        Pbkdf2Hash::Sha256 => b"$pbkdf2-sha256$i=",
        Pbkdf2Hash::Sha512 => b"$pbkdf2-sha512$i=",
    }
}

// `$pbkdf2-sha256$i=N,l=32` or `$pbkdf2-sha512$i=N,l=32`
fn pbkdf2_front(hash: Pbkdf2Hash, rounds: u32) -> ShortBytes<TEXT_MAX>
    ensures text { result ≡ pbkdf2_start hash ++ decimal rounds ++ codes ",l=32" }
    ensures len { length result ≤ 66 }
{
    let mut text = ShortBytes::new();
    push_number(&mut text, pbkdf2_start(hash), rounds);
    text.push_all(b",l=32");
    text
}

// The key of 32 bytes.
fn pbkdf2_key(hash: Pbkdf2Hash, rounds: u32, password: &[u8], salt: &[u8]) -> [u8; 32]
    requires least { 1 ≤ rounds }
    requires most { rounds ≤ 10000000 }
    requires password { length password.now ≤ password_max }
    requires salt { length salt.now ≡ 16 }
    ensures { result ≡ pbkdf2_key hash rounds password.now salt.now }
{
    let mut key = [0; 32];
    match hash {
        Pbkdf2Hash::Sha256 => pbkdf2_sha256(password, salt, rounds, &mut key),
        Pbkdf2Hash::Sha512 => pbkdf2_sha512(password, salt, rounds, &mut key),
    }
    key
}

/// The text of PBKDF2 with a hash function.
pub(crate) fn pbkdf2_text(
    hash: Pbkdf2Hash,
    rounds: u32,
    password: &[u8],
    salt: &[u8],
) -> ShortBytes<TEXT_MAX>
    requires least { 1 ≤ rounds }
    requires most { rounds ≤ 10000000 }
    requires password { length password.now ≤ password_max }
    requires salt { length salt.now ≡ 16 }
    ensures { result ≡ record_text (pbkdf2_record hash rounds salt.now (pbkdf2_key hash rounds password.now salt.now)) }
{
    let key = pbkdf2_key(hash, rounds, password, salt);
    with_fields(&pbkdf2_front(hash, rounds), salt, &key)
}
