//! Hash fields, for digests of any length whose bytes stand in the field in an order of their own: SHA-crypt's, and
//! those of other schemes that have the same field.

ghost use Rattle.std.specs.Prelude.{◌≡◌, ◌≤◌, ◌+◌, ◌*◌, ◌/◌, ◌^◌, ◌==◌, ℕ, List, OnSome, length, true, MatchResult};
ghost use Rattle.base64ct.specs.Encoding.{EachBelow, byte_count, unpadded_len};
ghost use Rattle.sha_crypt.specs.HashField.{are_places, field_bytes, hash_field, in_order, undoes, IsHashFieldOf};

use crate::DecodeError;
use base64ct::{Base64ShaCrypt, Counts, Encoding};

// Whether a text has the length of a hash field of `n` bytes.
fn has_field_length(text: &[u8], n: usize) -> bool
    ensures { result ≡ (byte_count (length text.now) == n) }
{
    3 * (text.len() / 4) + 3 * (text.len() % 4) / 4 == n
}

/// The `N` bytes whose encoding a text is, in the order in which they stand there.
pub fn field_bytes<const N: usize>(text: &[u8]) -> Option<[u8; N]>
    ensures bytes { result ≡ field_bytes N text.now }
{
    let mut bytes = [0; N];
    if !has_field_length(text, N) {
        return None;
    }
    match Base64ShaCrypt::decode_into(text, &mut bytes) {
        Ok(_) => Some(bytes),
        Err(_) => None,
    }
}

/// The `N` bytes whose encoding a text is, with its look-ups and comparisons counted.
pub(crate) fn counted_bytes<const N: usize>(text: &[u8], counts: &mut Counts) -> Option<[u8; N]>
    requires wide { 16 ≤ N }
    requires short { N ≤ 64 }
    requires looks { counts.old.looks ≤ 2 ^ 62 }
    requires sames { counts.old.sames ≤ 2 ^ 62 }
    ensures bytes { result ≡ field_bytes N text.now }
    ensures looks { OnSome result (counts.new.looks ≡ counts.old.looks + (4 * (unpadded_len N / 4) + 4)) }
    ensures sames { OnSome result (counts.new.sames ≡ counts.old.sames + 4) }
    ensures looks_stay { counts.old.looks ≤ counts.new.looks }
    ensures most_looks { counts.new.looks ≤ counts.old.looks + (4 * (unpadded_len N / 4) + 4) }
    ensures sames_stay { counts.old.sames ≤ counts.new.sames }
    ensures most_sames { counts.new.sames ≤ counts.old.sames + 4 }
{
    if !has_field_length(text, N) {
        return None;
    }
    let mut room = [0; N];
    let mut bytes = [0; N];
    match counts.decode::<Base64ShaCrypt>(text, &mut room) {
        Ok(decoded) => {
            bytes.copy_from_slice(decoded);
            Some(bytes)
        }
        Err(_) => None,
    }
}

// Writes the bytes of a digest in the order of these places.
fn put_in_order(places: &[u8], digest: &[u8], bytes: &mut [u8])
    requires places { are_places (length digest.now) places.now ≡ true }
    requires len { length bytes.old ≡ length places.now }
    ensures small { EachBelow 256 bytes.new }
    ensures value { bytes.new ≡ in_order places.now digest.now }
{
    'places: for k in 0..bytes.len() {
        bytes[k] = digest[places[k] as usize];
    }
}

/// The bytes of a digest in the order of these places.
pub fn in_order<const N: usize>(places: &[u8; N], digest: &[u8; N]) -> [u8; N]
    requires places { are_places N places.now ≡ true }
    ensures small { EachBelow 256 result }
    ensures value { result ≡ in_order places.now digest.now }
{
    let mut bytes = [0; N];
    put_in_order(places, digest, &mut bytes);
    bytes
}

/// The hash field of a digest, of `M` characters.
pub fn encode<const N: usize, const M: usize>(places: &[u8; N], digest: &[u8; N]) -> [u8; M]
    requires places { are_places N places.now ≡ true }
    requires len { unpadded_len N ≡ M }
    requires short { N ≤ 64 }
    ensures field { result ≡ hash_field places.now digest.now }
{
    let bytes = in_order(places, digest);
    let mut field = [0; M];
    let _ = Base64ShaCrypt::encode_into(&bytes, &mut field);
    field
}

/// The digest whose hash field a text is, where `back` tells at which place each of its bytes stands. `DecodeError`
/// where it is the field of none.
pub fn decode<const N: usize>(
    places: &[u8; N],
    back: &[u8; N],
    source: &[u8],
) -> Result<[u8; N], DecodeError>
    requires places { are_places N places.now ≡ true }
    requires back { are_places N back.now ≡ true }
    requires undoes { undoes N places.now back.now ≡ true }
    ensures found { MatchResult result
        (λ digest. IsHashFieldOf N places.now source.now digest)
        (λ _. (digest : List ℕ) → IsHashFieldOf N places.now source.now digest → ⊥) }
{
    match field_bytes::<N>(source) {
        Some(bytes) => Ok(in_order(back, &bytes)),
        None => Err(DecodeError),
    }
}
