//! Hash fields.

ghost use Rattle.std.specs.Prelude.{◌≡◌, ◌≤◌, ◌+◌, ◌^◌, ℕ, List, MatchOption, OnSome, length};
ghost use Rattle.phpass_plain.specs.Field.{IsPhpassFieldOf, digest_of, phpass_field};
ghost use Rattle.sha_crypt.specs.HashField.{field_bytes};

use base64ct::{Base64ShaCrypt, Counts};
use sha_crypt::b64;

// Which byte of a digest stands at each place of its hash field: each at its own.
const MAP_PHPASS: [u8; 16] = [0, 1, 2, 3, 4, 5, 6, 7, 8, 9, 10, 11, 12, 13, 14, 15];

/// The hash field of a digest: 22 characters.
pub fn encode_phpass(digest: &[u8; 16]) -> [u8; 22]
    ensures field { result ≡ phpass_field digest.now }
{
    b64::encode::<16, 22>(&MAP_PHPASS, digest)
}

/// The 16 bytes that the characters of a hash field write, with its look-ups and comparisons counted.
pub(crate) fn counted_bytes(text: &[u8], counts: &mut Counts) -> Option<[u8; 16]>
    requires len { length text.now ≡ 22 }
    requires looks { counts.old.looks ≤ 2 ^ 62 }
    requires sames { counts.old.sames ≤ 2 ^ 62 }
    ensures bytes { result ≡ field_bytes 16 text.now }
    ensures looks { counts.new.looks ≡ counts.old.looks + 24 }
    ensures sames { counts.new.sames ≡ counts.old.sames + 4 }
{
    let mut room = [0; 16];
    let mut bytes = [0; 16];
    match counts.decode::<Base64ShaCrypt>(text, &mut room) {
        Ok(decoded) => {
            bytes.copy_from_slice(decoded);
            Some(bytes)
        }
        Err(_) => None,
    }
}

/// The digest of 16 bytes in the order of a hash field.
pub(crate) fn digest_of(bytes: &[u8; 16]) -> [u8; 16]
    ensures digest { result ≡ digest_of bytes.now }
{
    b64::in_order(&MAP_PHPASS, bytes)
}

/// The digest whose hash field `source` is. None where it is the field of no digest: another length than 22, a character outside of
/// the alphabet, or bits after the last byte that aren't zero.
pub fn decode_phpass(source: &[u8]) -> Option<[u8; 16]>
    ensures found { MatchOption result
        ((digest : List ℕ) → IsPhpassFieldOf source.now digest → ⊥)
        (λ digest. IsPhpassFieldOf source.now digest) }
{
    b64::decode::<16>(&MAP_PHPASS, &MAP_PHPASS, source).ok()
}
