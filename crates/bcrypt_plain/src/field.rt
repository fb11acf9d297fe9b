//! Salts and hashes as text.

ghost use Rattle.std.specs.Prelude.{◌≡◌, ◌≤◌, ◌+◌, ◌*◌, ◌/◌, ◌^◌, ℕ, List, MatchOption, OnSome};
ghost use Rattle.base64ct.specs.Encoding.{unpadded_len};
ghost use Rattle.bcrypt_plain.specs.Field.{bcrypt_field, field_bytes, IsBcryptFieldOf};

use base64ct::{Base64Bcrypt, Counts, Encoding};

/// The 22 characters of a salt.
pub fn encode_salt(salt: &[u8; 16]) -> [u8; 22]
    ensures field { result ≡ bcrypt_field salt.now }
{
    let mut field = [0; 22];
    let _ = Base64Bcrypt::encode_into(salt, &mut field);
    field
}

/// The 31 characters of a hash.
pub fn encode_hash(hash: &[u8; 23]) -> [u8; 31]
    ensures field { result ≡ bcrypt_field hash.now }
{
    let mut field = [0; 31];
    let _ = Base64Bcrypt::encode_into(hash, &mut field);
    field
}

/// The `N` bytes whose characters, `len` in number, a text is, with its look-ups and comparisons counted.
pub(crate) fn counted_bytes<const N: usize>(
    len: usize,
    text: &[u8],
    counts: &mut Counts,
) -> Option<[u8; N]>
    requires len { unpadded_len N ≡ len }
    requires wide { 16 ≤ N }
    requires short { N ≤ 64 }
    requires looks { counts.old.looks ≤ 2 ^ 62 + 64 }
    requires sames { counts.old.sames ≤ 2 ^ 62 + 64 }
    ensures bytes { result ≡ field_bytes len text.now }
    ensures looks { OnSome result (counts.new.looks ≡ counts.old.looks + (4 * (len / 4) + 4)) }
    ensures sames { OnSome result (counts.new.sames ≡ counts.old.sames + 4) }
    ensures looks_stay { counts.old.looks ≤ counts.new.looks }
    ensures most_looks { counts.new.looks ≤ counts.old.looks + (4 * (len / 4) + 4) }
    ensures sames_stay { counts.old.sames ≤ counts.new.sames }
    ensures most_sames { counts.new.sames ≤ counts.old.sames + 4 }
{
    if text.len() != len {
        return None;
    }
    let mut room = [0; N];
    let mut bytes = [0; N];
    match counts.decode::<Base64Bcrypt>(text, &mut room) {
        Ok(decoded) => {
            bytes.copy_from_slice(decoded);
            Some(bytes)
        }
        Err(_) => None,
    }
}

/// The salt whose characters `source` is. None where it is those of no salt: another length than 22, a character outside
/// of the alphabet, or bits behind the last byte that aren't zero.
pub fn decode_salt(source: &[u8]) -> Option<[u8; 16]>
    ensures found { MatchOption result
        ((salt : List ℕ) → IsBcryptFieldOf 16 source.now salt → ⊥)
        (λ salt. IsBcryptFieldOf 16 source.now salt) }
{
    let mut counts = Counts::new();
    counted_bytes::<16>(22, source, &mut counts)
}

/// The hash whose characters `source` is. None where it is those of no hash: another length than 31, a character outside
/// of the alphabet, or bits behind the last byte that aren't zero.
pub fn decode_hash(source: &[u8]) -> Option<[u8; 23]>
    ensures found { MatchOption result
        ((hash : List ℕ) → IsBcryptFieldOf 23 source.now hash → ⊥)
        (λ hash. IsBcryptFieldOf 23 source.now hash) }
{
    let mut counts = Counts::new();
    counted_bytes::<23>(31, source, &mut counts)
}
