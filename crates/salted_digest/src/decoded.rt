//! The salt and the digest that fields write.

ghost use Rattle.std.specs.Prelude.{◌≡◌, ◌≤◌, ◌<◌, ◌+◌, ◌*◌, ◌/◌, ◌%◌, ◌^◌, IfOk, IfSome, OnOk, Some, length};
ghost use Rattle.salted_digest.specs.Text.{as_digest, characters_of, digest_of, salt_of, sized_bytes};

use crate::SaltedFault;
use base64ct::{Base64, Counts, Encoding};
use pieces::short_bytes::ShortBytes;

/// The salt that a text writes, which isn't counted, as it is no secret.
pub(crate) fn salt_of(text: &[u8]) -> Result<ShortBytes<48>, SaltedFault>
    ensures salt { result ≡ salt_of text.now }
{
    if 64 < text.len() {
        return Err(SaltedFault::SaltLength);
    }
    let mut room = [0; 48];
    match Base64::decode_into(text, &mut room) {
        Ok(n) => Ok(ShortBytes::from_slice(&room[..n])),
        Err(_) => Err(SaltedFault::SaltEncoding),
    }
}

// How many characters so many bytes have in Base64 with padding.
fn characters_of(size: usize) -> usize
    requires size { size ≤ 64 }
    ensures characters { result ≡ characters_of size }
{
    (size + 2) / 3 * 4
}

// These bytes, where there are so many.
fn as_digest(size: usize, bytes: &[u8]) -> Option<ShortBytes<64>>
    requires size { size ≤ 64 }
    ensures digest { result ≡ as_digest size (Some bytes.now) }
    ensures length { IfSome result (λ digest. length digest ≡ size) }
{
    if bytes.len() != size {
        return None;
    }
    Some(ShortBytes::from_slice(bytes))
}

// The bytes that a text writes, where there are as many as the room has place for. A number that 3 divides has no padding, and would be
// looked up otherwise.
fn bytes_in(
    room: &mut [u8],
    size: usize,
    text: &[u8],
    counts: &mut Counts,
) -> Option<ShortBytes<64>>
    requires size { size ≤ 64 }
    requires rest { 0 < size % 3 }
    requires room { length room.old ≡ size }
    requires len { length text.now ≡ characters_of size }
    requires looks { counts.old.looks ≤ 2 ^ 62 }
    requires sames { counts.old.sames ≤ 2 ^ 62 }
    ensures bytes { result ≡ sized_bytes size text.now }
    ensures length { IfSome result (λ digest. length digest ≡ size) }
    ensures looks { IfSome result (λ _. counts.new.looks ≡ counts.old.looks + characters_of size) }
    ensures sames { IfSome result (λ _. counts.new.sames ≡ counts.old.sames + 4) }
    ensures looks_stay { counts.old.looks ≤ counts.new.looks }
    ensures most_looks { counts.new.looks ≤ counts.old.looks + 88 }
    ensures sames_stay { counts.old.sames ≤ counts.new.sames }
    ensures most_sames { counts.new.sames ≤ counts.old.sames + 4 }
{
    match counts.decode::<Base64>(text, room) {
        Ok(decoded) => as_digest(size, decoded),
        Err(_) => None,
    }
}

// The bytes that a text writes, where there are so many.
fn sized_bytes(size: usize, text: &[u8], counts: &mut Counts) -> Option<ShortBytes<64>>
    requires size { size ≤ 64 }
    requires rest { 0 < size % 3 }
    requires len { length text.now ≡ characters_of size }
    requires looks { counts.old.looks ≤ 2 ^ 62 }
    requires sames { counts.old.sames ≤ 2 ^ 62 }
    ensures bytes { result ≡ sized_bytes size text.now }
    ensures length { IfSome result (λ digest. length digest ≡ size) }
    ensures looks { IfSome result (λ _. counts.new.looks ≡ counts.old.looks + characters_of size) }
    ensures sames { IfSome result (λ _. counts.new.sames ≡ counts.old.sames + 4) }
    ensures looks_stay { counts.old.looks ≤ counts.new.looks }
    ensures most_looks { counts.new.looks ≤ counts.old.looks + 88 }
    ensures sames_stay { counts.old.sames ≤ counts.new.sames }
    ensures most_sames { counts.new.sames ≤ counts.old.sames + 4 }
{
    let mut room = [0; 64];
    bytes_in(&mut room[..size], size, text, counts)
}

/// The digest of so many bytes that a text writes.
pub(crate) fn digest_of(
    size: usize,
    text: &[u8],
    counts: &mut Counts,
) -> Result<ShortBytes<64>, SaltedFault>
    requires size { size ≤ 64 }
    requires rest { 0 < size % 3 }
    requires looks { counts.old.looks ≤ 2 ^ 62 }
    requires sames { counts.old.sames ≤ 2 ^ 62 }
    ensures digest { result ≡ digest_of size text.now }
    ensures length { IfOk result (λ digest. length digest ≡ size) }
    ensures looks { OnOk result (counts.new.looks ≡ counts.old.looks + characters_of size) }
    ensures sames { OnOk result (counts.new.sames ≡ counts.old.sames + 4) }
    ensures looks_stay { counts.old.looks ≤ counts.new.looks }
    ensures most_looks { counts.new.looks ≤ counts.old.looks + 88 }
    ensures sames_stay { counts.old.sames ≤ counts.new.sames }
    ensures most_sames { counts.new.sames ≤ counts.old.sames + 4 }
{
    if text.len() != characters_of(size) {
        return Err(SaltedFault::HashLength);
    }
    match sized_bytes(size, text, counts) {
        Some(digest) => Ok(digest),
        None => Err(SaltedFault::HashEncoding),
    }
}
