//! Hash fields.

ghost use Rattle.std.specs.Prelude.{◌≡◌, ◌≤◌, ◌+◌, ◌^◌, ℕ, List, MatchOption, length, take};
ghost use Rattle.sha1_crypt.specs.Field.{IsSha1FieldOf, digest_of, placed_digest, sha1_field, with_first};
ghost use Rattle.sha_crypt.specs.HashField.{field_bytes};

use base64ct::{Base64ShaCrypt, Counts};
use sha_crypt::b64::{encode, in_order};

// Which byte of a digest, with its first byte again at the end, stands at each place of its hash field. The same places lead back.
const MAP_SHA1: [u8; 21] = [
    2, 1, 0, 5, 4, 3, 8, 7, 6, 11, 10, 9, 14, 13, 12, 17, 16, 15, 20, 19, 18,
];

// A digest, and its first byte again.
fn with_first(digest: &[u8; 20]) -> [u8; 21]
    ensures { result ≡ with_first digest.now }
{
    let mut written = [0; 21];
    written[..20].copy_from_slice(digest);
    written[20] = digest[0];
    written
}

/// The hash field of a digest: 28 characters.
pub fn encode_sha1(digest: &[u8; 20]) -> [u8; 28]
    ensures field { result ≡ sha1_field digest.now }
{
    encode::<21, 28>(&MAP_SHA1, &with_first(digest))
}

/// The 21 bytes that the characters of a hash field write, in the order in which they stand there.
pub(crate) fn counted_bytes(text: &[u8], counts: &mut Counts) -> Option<[u8; 21]>
    requires len { length text.now ≡ 28 }
    requires looks { counts.old.looks ≤ 2 ^ 62 }
    requires sames { counts.old.sames ≤ 2 ^ 62 }
    ensures bytes { result ≡ field_bytes 21 text.now }
    ensures looks { counts.new.looks ≡ counts.old.looks + 32 }
    ensures sames { counts.new.sames ≡ counts.old.sames + 4 }
{
    let mut room = [0; 21];
    let mut bytes = [0; 21];
    match counts.decode::<Base64ShaCrypt>(text, &mut room) {
        Ok(decoded) => {
            bytes.copy_from_slice(decoded);
            Some(bytes)
        }
        Err(_) => None,
    }
}

// The first 20 bytes.
fn first_twenty(written: &[u8; 21]) -> [u8; 20]
    ensures { result ≡ take 20 written.now }
{
    let mut digest = [0; 20];
    digest.copy_from_slice(&written[..20]);
    digest
}

/// The digest of 21 bytes in the order of a hash field, where the last of them is the digest's first byte again.
pub(crate) fn placed_digest(bytes: &[u8; 21], counts: &mut Counts) -> Option<[u8; 20]>
    requires sames { counts.old.sames ≤ 2 ^ 62 + 8 }
    ensures digest { result ≡ placed_digest bytes.now }
    ensures looks { counts.new.looks ≡ counts.old.looks }
    ensures sames { counts.new.sames ≡ counts.old.sames + 1 }
{
    let written = in_order(&MAP_SHA1, bytes);
    if bool::from(counts.same_bytes(&written[..1], &written[20..])) {
        Some(first_twenty(&written))
    } else {
        None
    }
}

/// The digest whose hash field `source` is. None where it is the field of no digest: another length than 28, a character outside of
/// the alphabet, or a last group that doesn't write the first byte again.
pub fn decode_sha1(source: &[u8]) -> Option<[u8; 20]>
    ensures found { MatchOption result
        ((digest : List ℕ) → IsSha1FieldOf source.now digest → ⊥)
        (λ digest. IsSha1FieldOf source.now digest) }
{
    if source.len() != 28 {
        return None;
    }
    let mut counts = Counts::new();
    match counted_bytes(source, &mut counts) {
        Some(bytes) => placed_digest(&bytes, &mut counts),
        None => None,
    }
}
