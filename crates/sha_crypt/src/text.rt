//! Texts in fixed memory.

ghost use Rattle.std.specs.Prelude.{◌≡◌, ◌≤◌, ◌+◌, ◌++◌, length};
ghost use Rattle.sha_crypt.specs.Limits.{pw_size_sha512, salt_max_len, text_max};
ghost use Rattle.sha_crypt.specs.Records.{family_id, rounds_part, text_of_fields};
ghost use Rattle.sha_crypt.specs.Simple.{password_text};

use crate::digest::sha_crypt_digest;
use crate::{Family, encode_sha256, encode_sha512};
use pieces::short_bytes::ShortBytes;
use sha2::{Sha256, Sha512};

/// Room for the longest text: 28 bytes that name the rounds, 16 of salt, 86 of hash, the identifier and three `$`.
pub const TEXT_MAX: usize = 134;

/// The identifier of a family.
pub(crate) fn family_id(family: Family) -> &'static str
    ensures { result.now ≡ family_id family }
{
    match family {
        Family::Sha256 => "5",
        Family::Sha512 => "6",
    }
}

/// Appends what names the rounds, `rounds=N$`, where they are written: at most 28 bytes.
pub fn push_rounds<const N: usize>(text: &mut ShortBytes<N>, written: bool, rounds: usize)
    requires room { length text.old + 28 ≤ N }
    ensures appended { text.new ≡ text.old ++ rounds_part written rounds }
    ensures len { length text.new ≤ length text.old + 28 }
{
    if written {
        text.push_all(b"rounds=");
        text.push_decimal(rounds as u64);
        text.push_all(b"$");
    }
}

/// The text `$id$[rounds=N$]salt$hash` of these fields.
#[tactic(auto, unfolding(crate::specs::Records::record_text))]
pub(crate) fn text_of_fields<const N: usize>(
    family: Family,
    written: bool,
    rounds: usize,
    salt: &[u8],
    hash: &[u8],
) -> ShortBytes<N>
    requires salt { length salt.now ≤ salt_max_len }
    requires hash { length hash.now ≤ pw_size_sha512 }
    requires room { text_max ≤ N }
    ensures text { result ≡ text_of_fields family written rounds salt.now hash.now }
{
    let mut text = ShortBytes::new();
    text.push_all(b"$");
    text.push_all(family_id(family).as_bytes());
    text.push_all(b"$");
    push_rounds(&mut text, written, rounds);
    text.push_all(salt);
    text.push_all(b"$");
    text.push_all(hash);
    text
}

/// The text `$id$[rounds=N$]salt$hash` of a password, a salt and rounds, which are named or not as `written` says.
///
/// It takes no memory. The text is read again where the rounds are from 1,000 to 999,999,999, and 5,000 where they
/// aren't written, and the salt has no `$`.
pub fn password_text<const N: usize>(
    family: Family,
    written: bool,
    password: &[u8],
    salt: &[u8],
    rounds: usize,
) -> ShortBytes<N>
    requires salt { length salt.now ≤ salt_max_len }
    requires room { text_max ≤ N }
    ensures text { result ≡ password_text family written password.now salt.now rounds }
{
    match family {
        Family::Sha256 => {
            let hash = encode_sha256(&sha_crypt_digest::<32, Sha256>(password, salt, rounds));
            text_of_fields(family, written, rounds, salt, &hash)
        }
        Family::Sha512 => {
            let hash = encode_sha512(&sha_crypt_digest::<64, Sha512>(password, salt, rounds));
            text_of_fields(family, written, rounds, salt, &hash)
        }
    }
}
