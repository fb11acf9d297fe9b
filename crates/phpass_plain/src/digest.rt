//! The digest.

ghost use Rattle.std.specs.Prelude.{◌≡◌, ◌≤◌, ◌^◌, ◌++◌};
ghost use Rattle.md5.specs.Md5.{md5};
ghost use Rattle.phpass_plain.specs.Digest.{phpass_digest};

use md5::{Digest, Md5};

// MD5 of two pieces, one after the other.
#[inline(always)]
fn digest_of_both(front: &[u8], back: &[u8]) -> [u8; 16]
    ensures { result ≡ md5 (front.now ++ back.now) }
{
    let mut hasher = Md5::new();
    hasher.update(front);
    hasher.update(back);
    hasher.finalize()
}

// The number of turns.
fn turn_count(cost: u32) -> u32
    requires { cost ≤ 30 }
    ensures { result ≡ 2 ^ cost }
{
    1 << cost
}

/// The digest of a password and a salt, whose number of turns is 2^`cost`. Password and salt may have any bytes and any length; in a
/// text the salt has 8.
///
/// The algorithm is that of the portable hashes of phpass (`crypt_private` of its PasswordHash.php), which WordPress and phpBB have
/// too.
#[tactic(auto, unfolding(crate::specs::Digest::phpass_digest))]
#[inline(never)]
pub fn phpass(password: &[u8], salt: &[u8], cost: u32) -> [u8; 16]
    requires cost { cost ≤ 30 }
    ensures digest { result ≡ phpass_digest password.now salt.now cost }
{
    let mut digest = digest_of_both(salt, password);
    'turns: for turn in 0..turn_count(cost) {
        digest = digest_of_both(&digest, password);
    }
    digest
}
