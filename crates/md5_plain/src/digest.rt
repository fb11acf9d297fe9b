//! The digest that the rounds begin with.

ghost use Rattle.std.specs.Prelude.{◌≡◌, ℕ, List, ◌++◌, take};
ghost use Rattle.md5.specs.Md5.{Holds};
ghost use Rattle.sha_crypt.specs.Digest.{copies, repeated_to};
ghost use Rattle.md5_plain.specs.Digest.{by_digits, start_digest};

use md5::{Digest, Md5};

// Feeds `piece` `count` times.
fn feed_copies(hasher: &mut Md5, piece: &[u8], count: usize)
    ensures { (m : List ℕ) → Holds hasher.old m → Holds hasher.new (m ++ copies count piece.now) }
{
    'copies: for i in 0..count {
        hasher.update(piece);
    }
}

// Feeds `digest` repeated and cut to `len` bytes.
fn feed_repeated(hasher: &mut Md5, digest: &[u8; 16], len: usize)
    ensures { (m : List ℕ) → Holds hasher.old m → Holds hasher.new (m ++ repeated_to len digest.now) }
{
    feed_copies(hasher, digest, len / 16);
    hasher.update(&digest[..len % 16]);
}

// The first byte, if there is one.
fn first_byte(password: &[u8]) -> &[u8]
    ensures { result.now ≡ take 1 password.now }
{
    if password.len() > 1 {
        &password[..1]
    } else {
        password
    }
}

// Feeds a zero byte for each binary digit 1 of `number` and the password's first byte for each 0, the lowest first.
fn feed_by_digits(hasher: &mut Md5, number: usize, password: &[u8])
    ensures { (m : List ℕ) → Holds hasher.old m → Holds hasher.new (m ++ by_digits number password.now) }
{
    let first = first_byte(password);
    let mut left = number;
    'digits: while left > 0 {
        if left % 2 == 1 {
            hasher.update(&[0]);
        } else {
            hasher.update(first);
        }
        left /= 2;
    }
}

/// The digest that the rounds begin with.
pub(crate) fn start_digest(magic: &[u8], password: &[u8], salt: &[u8]) -> [u8; 16]
    ensures { result ≡ start_digest magic.now password.now salt.now }
{
    let mut hasher = Md5::new();
    hasher.update(password);
    hasher.update(salt);
    hasher.update(password);
    let digest = hasher.finalize();

    let mut hasher = Md5::new();
    hasher.update(password);
    hasher.update(magic);
    hasher.update(salt);
    feed_repeated(&mut hasher, &digest, password.len());
    feed_by_digits(&mut hasher, password.len(), password);
    hasher.finalize()
}
