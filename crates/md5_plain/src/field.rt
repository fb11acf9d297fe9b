//! Hash fields.

ghost use Rattle.std.specs.Prelude.{◌≡◌, ℕ, List, MatchOption};
ghost use Rattle.md5_plain.specs.Field.{IsFieldOf, md5_field};

use sha_crypt::b64;

/// Which byte of a digest stands at each place of its hash field.
pub const MAP_MD5: [u8; 16] = [12, 6, 0, 13, 7, 1, 14, 8, 2, 15, 9, 3, 5, 10, 4, 11];

// Where each byte of a digest stands in its hash field.
const BACK_MD5: [u8; 16] = [2, 5, 8, 11, 14, 12, 1, 4, 7, 10, 13, 15, 0, 3, 6, 9];

/// The hash field of a digest: 22 characters.
pub fn encode_md5(tag: &[u8; 16]) -> [u8; 22]
    ensures field { result ≡ md5_field tag.now }
{
    b64::encode::<16, 22>(&MAP_MD5, tag)
}

/// The digest whose hash field `source` is. None where it is the field of no digest: another length than 22, a
/// character outside of the alphabet, or bits behind the last byte that aren't zero.
pub fn decode_md5(source: &[u8]) -> Option<[u8; 16]>
    ensures found { MatchOption result
        ((digest : List ℕ) → IsFieldOf source.now digest → ⊥)
        (λ digest. IsFieldOf source.now digest) }
{
    b64::decode::<16>(&MAP_MD5, &BACK_MD5, source).ok()
}
