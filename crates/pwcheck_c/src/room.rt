//! How many bytes a text will have, before anything is hashed for it: what the password decides of it, its hash, has always
//! one length.

ghost use Rattle.std.specs.Prelude.{◌≡◌, ◌≤◌, List, ℕ, length, true};
ghost use Rattle.std.specs.Fmt.{decimal};
ghost use Rattle.base64ct.specs.Encoding.{EachBelow, unpadded_len};
ghost use Rattle.sha_crypt.specs.Records.{family_scheme};
ghost use Rattle.sha_crypt.specs.Simple.{made_text};
ghost use Rattle.any_make.specs.Costs.{is_taken, salt_length};
ghost use Rattle.any_make.specs.Made.{hash_text};

use any_make::MakeCost;
use pieces::short_bytes::ShortBytes;
use sha_crypt::{Family, ROUNDS_DEFAULT};
use yescrypt_plain::yescrypt_params_text;

// The number of decimal digits.
fn digit_count(number: u32) -> usize
    ensures count { result ≡ length (decimal number) }
    ensures few { result ≤ 10 }
{
    let mut text: ShortBytes<10> = ShortBytes::new();
    text.push_decimal(number as u64);
    text.len()
}

// The length of the hash field of a family.
fn hash_len(family: Family) -> usize
    ensures { result ≡ unpadded_len (family_scheme family).size }
{
    match family {
        Family::Sha256 => 43,
        Family::Sha512 => 86,
    }
}

/// The length of a text of SHA-crypt whose salt has so many characters.
pub(crate) fn sha_text_len(family: Family, salt_len: usize, rounds: u32) -> usize
    requires salt { salt_len ≤ 16 }
    requires rounds { 1 ≤ rounds }
    ensures length { (password salt : List ℕ) → length salt ≡ salt_len → result ≡ length (made_text family password salt rounds) }
{
    // `$5$`, the salt, `$` and the hash, and between them `rounds=N$` where the rounds are written.
    let len = 4 + salt_len + hash_len(family);
    if rounds as usize == ROUNDS_DEFAULT {
        len
    } else {
        len + 8 + digit_count(rounds)
    }
}

/// The length of every text of a cost.
///
/// A salt of 16 bytes has 22 characters and a key of 32 has 43; the other characters that stand for no number are
/// those of `$argon2id$v=19$m=,t=,p=$$`, say.
pub(crate) fn text_len(cost: MakeCost) -> usize
    requires taken { is_taken cost ≡ true }
    ensures length { (password salt : List ℕ) → EachBelow 256 salt → length salt ≡ salt_length cost
        → result ≡ length (hash_text cost password salt) }
{
    match cost {
        MakeCost::ShaCrypt(family, rounds) => sha_text_len(family, 16, rounds),
        MakeCost::Scrypt(cost) => 84
            + digit_count(cost.ln)
            + digit_count(cost.r)
            + digit_count(cost.p),
        MakeCost::Bcrypt(_) => 60,
        MakeCost::Yescrypt(cost) => 70 + yescrypt_params_text(cost).len(),
        MakeCost::Argon2id(cost) => {
            90 + digit_count(cost.memory) + digit_count(cost.passes) + digit_count(cost.lanes)
        }
        MakeCost::Pbkdf2(_, rounds) => 89 + digit_count(rounds),
    }
}
