//! The salt and the keys that fields write.

ghost use Rattle.std.specs.Prelude.{◌≡◌, ◌≤◌, ◌+◌, ◌^◌, IfSome, OnOk, Some, length};
ghost use Rattle.scram_plain.specs.Text.{as_key, key_bytes, key_of, salt_of};

use crate::ScramFault;
use base64ct::{Base64, Counts, Encoding};
use pieces::short_bytes::ShortBytes;

/// The salt that a text writes, which isn't counted, as it is no secret.
pub(crate) fn salt_of(text: &[u8]) -> Result<ShortBytes<48>, ScramFault>
    ensures salt { result ≡ salt_of text.now }
{
    if text.is_empty() || 64 < text.len() {
        return Err(ScramFault::SaltLength);
    }
    let mut room = [0; 48];
    match Base64::decode_into(text, &mut room) {
        Ok(n) => Ok(ShortBytes::from_slice(&room[..n])),
        Err(_) => Err(ScramFault::SaltEncoding),
    }
}

// These bytes, where there are 32.
fn as_key(bytes: &[u8]) -> Option<[u8; 32]>
    ensures { result ≡ as_key (Some bytes.now) }
{
    if bytes.len() != 32 {
        return None;
    }
    let mut key = [0; 32];
    key.copy_from_slice(bytes);
    Some(key)
}

// The key that 44 characters write.
fn key_bytes(text: &[u8], counts: &mut Counts) -> Option<[u8; 32]>
    requires len { length text.now ≡ 44 }
    requires looks { counts.old.looks ≤ 2 ^ 62 + 44 }
    requires sames { counts.old.sames ≤ 2 ^ 62 + 4 }
    ensures key { result ≡ key_bytes text.now }
    ensures looks { IfSome result (λ _. counts.new.looks ≡ counts.old.looks + 44) }
    ensures sames { IfSome result (λ _. counts.new.sames ≡ counts.old.sames + 4) }
    ensures looks_stay { counts.old.looks ≤ counts.new.looks }
    ensures most_looks { counts.new.looks ≤ counts.old.looks + 44 }
    ensures sames_stay { counts.old.sames ≤ counts.new.sames }
    ensures most_sames { counts.new.sames ≤ counts.old.sames + 4 }
{
    let mut room = [0; 32];
    match counts.decode::<Base64>(text, &mut room) {
        Ok(decoded) => as_key(decoded),
        Err(_) => None,
    }
}

/// The key that a text writes, or one of two faults.
pub(crate) fn key_of(
    wrong_length: ScramFault,
    wrong_encoding: ScramFault,
    text: &[u8],
    counts: &mut Counts,
) -> Result<[u8; 32], ScramFault>
    requires looks { counts.old.looks ≤ 2 ^ 62 + 44 }
    requires sames { counts.old.sames ≤ 2 ^ 62 + 4 }
    ensures key { result ≡ key_of wrong_length wrong_encoding text.now }
    ensures looks { OnOk result (counts.new.looks ≡ counts.old.looks + 44) }
    ensures sames { OnOk result (counts.new.sames ≡ counts.old.sames + 4) }
    ensures looks_stay { counts.old.looks ≤ counts.new.looks }
    ensures most_looks { counts.new.looks ≤ counts.old.looks + 44 }
    ensures sames_stay { counts.old.sames ≤ counts.new.sames }
    ensures most_sames { counts.new.sames ≤ counts.old.sames + 4 }
{
    if text.len() != 44 {
        return Err(wrong_length);
    }
    match key_bytes(text, counts) {
        Some(key) => Ok(key),
        None => Err(wrong_encoding),
    }
}
