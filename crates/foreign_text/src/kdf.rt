//! Key derivations, and the records that fields are read as.

ghost use Rattle.std.specs.Prelude.{◌≡◌, ◌≤◌, ◌+◌, ◌++◌, codes, length, Some};
ghost use Rattle.std.specs.Fmt.{decimal};
ghost use Rattle.phc.specs.Encoded.{encoding};
ghost use Rattle.foreign_text.specs.Records.{if_sized, is_size, made_text, with_kdf, with_key, with_salt};
ghost use Rattle.foreign_text.specs.Fronts.{front_text, pbkdf2_sign};

use crate::ForeignFault;
use base64ct::{Base64Unpadded, Encoding};
use phc::{Output, Salt};
use pieces::short_bytes::ShortBytes;

/// The most bytes of a text that is made: `$scrypt$ln=`, `,r=` and `,p=` with a number of 32 bits each, two `$`, and twice 86
/// characters.
pub const TEXT_MAX: usize = 221;

/// A text that is made: ASCII.
pub type MadeText = ShortBytes<TEXT_MAX>;

/// Bytes that a field writes.
pub type FieldBytes = ShortBytes<96>;

/// The hash of a text of PBKDF2: the one that its HMAC takes.
#[derive(Clone, Copy, Debug, PartialEq, Eq)]
pub enum Pbkdf2Hash {
    /// SHA-1.
    Sha1,
    /// SHA-256.
    Sha256,
    /// SHA-512.
    Sha512,
}

/// A key derivation with its cost.
#[derive(Clone, Copy, Debug, PartialEq, Eq)]
pub enum Kdf {
    /// PBKDF2.
    Pbkdf2 { hash: Pbkdf2Hash, rounds: u32 },
    /// scrypt; `ln` is the binary logarithm of N.
    Scrypt { ln: u32, r: u32, p: u32 },
}

// What the text of a record of PBKDF2 begins with, before the rounds.
fn pbkdf2_sign(hash: Pbkdf2Hash) -> &'static str
    ensures text { result.now ≡ pbkdf2_sign hash }
    ensures len { length result.now ≤ 17 }
{
    match hash {
        Pbkdf2Hash::Sha1 => "$pbkdf2-sha1$i=",
        Pbkdf2Hash::Sha256 => "$pbkdf2-sha256$i=",
        Pbkdf2Hash::Sha512 => "$pbkdf2-sha512$i=",
    }
}

// The text of a record of PBKDF2, up to the rounds.
fn pbkdf2_front(hash: Pbkdf2Hash, rounds: u32) -> MadeText
    ensures text { result ≡ pbkdf2_sign hash ++ decimal rounds }
    ensures len { length result ≤ 47 }
{
    let mut text = ShortBytes::from_slice(pbkdf2_sign(hash).as_bytes());
    text.push_decimal(rounds as u64);
    text
}

// Appends a sign and a number.
fn push_number(text: &mut MadeText, sign: &str, number: u32)
    requires few { length sign.now ≤ 11 }
    requires room { length text.old ≤ 100 }
    ensures appended { text.new ≡ text.old ++ sign.now ++ decimal number }
    ensures len { length text.new ≤ length text.old + length sign.now + 10 }
{
    text.push_all(sign.as_bytes());
    text.push_decimal(number as u64);
}

// The text of a record of scrypt, up to p.
fn scrypt_front(ln: u32, r: u32, p: u32) -> MadeText
    ensures text { result ≡ codes "$scrypt$ln=" ++ decimal ln ++ codes ",r=" ++ decimal r ++ codes ",p=" ++ decimal p }
    ensures len { length result ≤ 47 }
{
    let mut text = ShortBytes::new();
    push_number(&mut text, "$scrypt$ln=", ln);
    push_number(&mut text, ",r=", r);
    push_number(&mut text, ",p=", p);
    text
}

// The text of a record up to the cost.
fn front(kdf: Kdf) -> MadeText
    ensures text { result ≡ front_text kdf }
    ensures len { length result ≤ 47 }
{
    match kdf {
        Kdf::Pbkdf2 { hash, rounds } => pbkdf2_front(hash, rounds),
        Kdf::Scrypt { ln, r, p } => scrypt_front(ln, r, p),
    }
}

// Appends the encoding of at most 64 bytes.
fn push_encoding(text: &mut MadeText, bytes: &[u8])
    requires few { length bytes.now ≤ 64 }
    requires room { length text.old + 86 ≤ 221 }
    ensures appended { text.new ≡ text.old ++ encoding bytes.now }
    ensures len { length text.new ≤ length text.old + 86 }
{
    let mut room = [0; 86];
    match Base64Unpadded::encode_into(bytes, &mut room) {
        Ok(n) => text.push_all(&room[..n]),
        Err(_) => unreachable!(),
    }
}

// The text of the record.
fn made_text(kdf: Kdf, salt: Salt, key: Output) -> MadeText
    ensures { result ≡ made_text kdf salt key }
{
    let mut text = front(kdf);
    text.push_all(b"$");
    push_encoding(&mut text, salt.as_bytes());
    text.push_all(b"$");
    push_encoding(&mut text, key.as_bytes());
    text
}

// The text of a derivation, a salt and the bytes of a key, or its first fault.
fn with_key(kdf: Kdf, salt: Salt, key: Option<FieldBytes>) -> Result<MadeText, ForeignFault>
    ensures { result ≡ with_key kdf salt key }
{
    let Some(key) = key else {
        return Err(ForeignFault::Hash);
    };
    match Output::new(key.as_slice()) {
        Ok(key) => Ok(made_text(kdf, salt, key)),
        Err(_) => Err(ForeignFault::HashLength),
    }
}

// The text of a derivation, the bytes of a salt and those of a key, or the first fault of salt and key.
fn with_salt(kdf: Kdf, salt: &[u8], key: Option<FieldBytes>) -> Result<MadeText, ForeignFault>
    ensures { result ≡ with_salt kdf (Some salt.now) key }
{
    match Salt::new(salt) {
        Ok(salt) => with_key(kdf, salt, key),
        Err(_) => Err(ForeignFault::SaltLength),
    }
}

/// The text of a cost, the bytes of a salt and those of a key, or the first fault of these.
pub fn with_bytes(
    kdf: Result<Kdf, ForeignFault>,
    salt: &[u8],
    key: Option<FieldBytes>,
) -> Result<MadeText, ForeignFault>
    ensures text { result ≡ with_kdf kdf (Some salt.now) key }
{
    match kdf {
        Ok(kdf) => with_salt(kdf, salt, key),
        Err(fault) => Err(fault),
    }
}

/// The same, of a salt that is decoded too.
pub fn with_decoded(
    kdf: Result<Kdf, ForeignFault>,
    salt: Option<FieldBytes>,
    key: Option<FieldBytes>,
) -> Result<MadeText, ForeignFault>
    ensures text { result ≡ with_kdf kdf salt key }
{
    let kdf = match kdf {
        Ok(kdf) => kdf,
        Err(fault) => return Err(fault),
    };
    match salt {
        Some(salt) => with_salt(kdf, salt.as_slice(), key),
        None => Err(ForeignFault::Salt),
    }
}

/// Whether the number is the length of the key.
pub fn is_size(size: Option<u32>, key: Option<FieldBytes>) -> bool
    ensures size { result ≡ is_size size key }
{
    let Some(size) = size else {
        return false;
    };
    match key {
        Some(key) => size as usize == key.len(),
        None => false,
    }
}

/// A text whose key has the length that is said, or the fault that it has another.
pub fn if_sized(sized: bool, text: Result<MadeText, ForeignFault>) -> Result<MadeText, ForeignFault>
    ensures text { result ≡ if_sized sized text }
{
    if sized {
        return text;
    }
    match text {
        Ok(_) => Err(ForeignFault::HashLength),
        Err(fault) => Err(fault),
    }
}
