//! Salts and hashes as text.

ghost use Rattle.std.specs.Prelude.{◌≡◌, ◌≤◌, ◌+◌, ◌^◌, ◌++◌, IfSome, OnSome, length};
ghost use Rattle.yescrypt_plain.specs.Field.{crypt_field, hash_bytes, salt_bytes};

use base64ct::{Base64ShaCrypt, Counts, Encoding};
use pieces::short_bytes::ShortBytes;

/// The salt whose characters a text is. None where it is those of no 1 to 64 bytes.
pub(crate) fn salt_bytes(text: &[u8]) -> Option<ShortBytes<64>>
    ensures value { result ≡ salt_bytes text.now }
    ensures most { IfSome result (λ salt. length salt ≤ 64) }
{
    if text.len() > 86 {
        return None;
    }
    let mut bytes = [0u8; 64];
    match Base64ShaCrypt::decode(text, &mut bytes) {
        Ok(salt) if salt.len() > 0 => Some(ShortBytes::from_slice(salt)),
        _ => None,
    }
}

/// The hash whose characters a text is, with its look-ups and comparisons counted. None where it is those of no 32 bytes.
pub(crate) fn hash_bytes(text: &[u8], counts: &mut Counts) -> Option<[u8; 32]>
    requires looks { counts.old.looks ≤ 2 ^ 62 }
    requires sames { counts.old.sames ≤ 2 ^ 62 }
    ensures value { result ≡ hash_bytes text.now }
    ensures looks { OnSome result (counts.new.looks ≡ counts.old.looks + 44) }
    ensures sames { OnSome result (counts.new.sames ≡ counts.old.sames + 4) }
    ensures looks_stay { counts.old.looks ≤ counts.new.looks }
    ensures most_looks { counts.new.looks ≤ counts.old.looks + 44 }
    ensures sames_stay { counts.old.sames ≤ counts.new.sames }
    ensures most_sames { counts.new.sames ≤ counts.old.sames + 4 }
{
    if text.len() != 43 {
        return None;
    }
    let mut room = [0u8; 32];
    let mut bytes = [0u8; 32];
    match counts.decode::<Base64ShaCrypt>(text, &mut room) {
        Ok(decoded) => {
            bytes.copy_from_slice(decoded);
            Some(bytes)
        }
        Err(_) => None,
    }
}

/// The 43 characters of a hash.
pub(crate) fn hash_field(hash: &[u8; 32]) -> [u8; 43]
    ensures { result ≡ crypt_field hash.now }
{
    let mut field = [0u8; 43];
    let _ = Base64ShaCrypt::encode_into(hash, &mut field);
    field
}

/// Appends the characters of a salt, at most 86.
pub(crate) fn push_salt<const N: usize>(text: &mut ShortBytes<N>, salt: &[u8])
    requires most { length salt.now ≤ 64 }
    requires room { length text.old + 86 ≤ N }
    ensures appended { text.new ≡ text.old ++ crypt_field salt.now }
    ensures len { length text.new ≤ length text.old + 86 }
{
    let mut field = [0u8; 86];
    match Base64ShaCrypt::encode(salt, &mut field) {
        Ok(characters) => text.push_all(characters.as_bytes()),
        Err(_) => (),
    }
}
