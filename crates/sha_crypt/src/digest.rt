//! The digest, under any hash function.

ghost use Rattle.std.specs.Prelude.{◌≡◌, ℕ, ◌+◌, ◌<◌, ◌≤◌, List, ◌++◌, length, take};
ghost use Rattle.sha_crypt.specs.Digest.{by_digits, copies, repeated_to, sha_crypt_digest, start_digest, whole_salt_digest};
ghost use Rattle.sha_crypt.specs.Limits.{salt_max_len};

use crate::SALT_MAX_LEN;
use crate::hasher::Hasher;
use crate::turns::after_rounds;

// Feeds `piece` `count` times.
fn feed_copies<const N: usize, H: Hasher<N>>(hasher: &mut H, piece: &[u8], count: usize)
    ensures { (m : List ℕ) → H.holds hasher.old m → H.holds hasher.new (m ++ copies count piece.now) }
{
    'copies: for i in 0..count {
        hasher.feed(piece);
    }
}

/// Feeds `digest` repeated and cut to `len` bytes.
pub(crate) fn feed_repeated<const N: usize, H: Hasher<N>>(
    hasher: &mut H,
    digest: &[u8; N],
    len: usize,
)
    requires { 0 < N }
    ensures { (m : List ℕ) → H.holds hasher.old m → H.holds hasher.new (m ++ repeated_to len digest.now) }
{
    feed_copies(hasher, digest, len / N);
    hasher.feed(&digest[..len % N]);
}

// Feeds `digest` for each binary digit 1 of `number` and `password` for each 0, the lowest first.
fn feed_by_digits<const N: usize, H: Hasher<N>>(
    hasher: &mut H,
    number: usize,
    digest: &[u8; N],
    password: &[u8],
)
    ensures { (m : List ℕ) → H.holds hasher.old m
        → H.holds hasher.new (m ++ by_digits number digest.now password.now) }
{
    let mut left = number;
    'digits: while left > 0 {
        if left % 2 == 1 {
            hasher.feed(digest);
        } else {
            hasher.feed(password);
        }
        left /= 2;
    }
}

// The part of a salt that counts.
fn used_salt(salt: &[u8]) -> &[u8]
    ensures value { result.now ≡ take salt_max_len salt.now }
    ensures short { length result.now ≤ salt_max_len }
{
    if salt.len() > SALT_MAX_LEN {
        &salt[..SALT_MAX_LEN]
    } else {
        salt
    }
}

// The digest of `piece` taken `count` times.
fn digest_of_copies<const N: usize, H: Hasher<N>>(piece: &[u8], count: usize) -> [u8; N]
    ensures { result ≡ H.hash (copies count piece.now) }
{
    let mut hasher = H::start();
    feed_copies(&mut hasher, piece, count);
    hasher.finish()
}

// The digest that the rounds begin with.
fn start_digest<const N: usize, H: Hasher<N>>(password: &[u8], salt: &[u8]) -> [u8; N]
    requires { 0 < N }
    ensures { result ≡ start_digest H.hash password.now salt.now }
{
    let mut hasher = H::start();
    hasher.feed(password);
    hasher.feed(salt);
    hasher.feed(password);
    let digest = hasher.finish();

    let mut hasher = H::start();
    hasher.feed(password);
    hasher.feed(salt);
    feed_repeated(&mut hasher, &digest, password.len());
    feed_by_digits(&mut hasher, password.len(), &digest, password);
    hasher.finish()
}

/// The digest of a password and a salt of at most `N` bytes after these rounds. Each byte of the salt counts.
pub(crate) fn whole_salt_digest<const N: usize, H: Hasher<N>>(
    password: &[u8],
    salt: &[u8],
    rounds: usize,
) -> [u8; N]
    requires wide { 0 < N }
    requires salt { length salt.now ≤ N }
    ensures { result ≡ whole_salt_digest H.hash password.now salt.now rounds }
{
    let a = start_digest::<N, H>(password, salt);
    let dp = digest_of_copies::<N, H>(password, password.len());
    let ds = digest_of_copies::<N, H>(salt, 16 + a[0] as usize);
    let s = &ds[..salt.len()];
    after_rounds::<N, H>(&a, &dp, password.len(), s, rounds)
}

/// The digest of a password and a salt, of which the first 16 bytes count, after these rounds.
#[tactic(auto, unfolding(crate::specs::Digest::sha_crypt_digest))]
pub(crate) fn sha_crypt_digest<const N: usize, H: Hasher<N>>(
    password: &[u8],
    salt: &[u8],
    rounds: usize,
) -> [u8; N]
    requires { 16 ≤ N }
    ensures { result ≡ sha_crypt_digest H.hash password.now salt.now rounds }
{
    whole_salt_digest::<N, H>(password, used_salt(salt), rounds)
}
