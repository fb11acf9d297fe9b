//! The code of a message under a key.

ghost use Rattle.std.specs.Prelude.{◌≡◌, ℕ, ◌-◌, ◌≤◌, ◌++◌, List, [], length, replicate};
ghost use Rattle.word_lists.specs.Lists.{xor_bytes};
ghost use Rattle.hmac_plain.specs.Hmac.{block_key, hmac, hmac_sha256, hmac_sha384, hmac_sha512};
ghost use Rattle.hmac_plain.specs.Held.{HoldsHmac};

use crate::HashFunction;
use sha2::{Sha256, Sha384, Sha512};
use std::alloc::AllocError;
use word_lists::xor_bytes;

// The bytes, filled with zeros to a block.
fn filled_block<const B: usize>(text: &[u8]) -> [u8; B]
    requires { length text.now ≤ B }
    ensures { result ≡ text.now ++ replicate (B - length text.now) 0 }
{
    let mut block = [0u8; B];
    block[..text.len()].copy_from_slice(text);
    block
}

// The digest of a message.
fn digest_of<const B: usize, const N: usize, H: HashFunction<B, N>>(text: &[u8]) -> [u8; N]
    ensures { result ≡ H.hash text.now }
{
    let mut hasher = H::start();
    hasher.feed(text);
    hasher.finish()
}

/// The key as one block: the key itself, or its digest where it has more bytes than a block, filled with zeros at the
/// end.
pub fn block_key<const B: usize, const N: usize, H: HashFunction<B, N>>(key: &[u8]) -> [u8; B]
    ensures { result ≡ block_key H.hash B key.now }
{
    if key.len() > B {
        let digest = digest_of::<B, N, H>(key);
        filled_block(&digest)
    } else {
        filled_block(key)
    }
}

// A hasher that has taken in the exclusive or of the block and of `pad` repeated.
fn padded_hasher<const B: usize, const N: usize, H: HashFunction<B, N>>(
    block: &[u8; B],
    pad: u8,
) -> H
    ensures { H.holds result (xor_bytes block.now (replicate B pad)) }
{
    let mut padded = *block;
    xor_bytes(&mut padded, &[pad; B]);
    let mut hasher = H::start();
    hasher.feed(&padded);
    hasher
}

/// A message under a key, to which more can be added. A clone goes its own way, so that a key, or the beginning of a
/// message, is taken in once for many messages.
#[derive(Drop)]
pub struct Hmac<const B: usize, const N: usize, H> {
    inner: H,
    outer: H,
}

/// HMAC over SHA-256.
pub type HmacSha256 = Hmac<64, 32, Sha256>;

/// HMAC over SHA-384.
pub type HmacSha384 = Hmac<128, 48, Sha384>;

/// HMAC over SHA-512.
pub type HmacSha512 = Hmac<128, 64, Sha512>;

impl<const B: usize, const N: usize, H: HashFunction<B, N>> Hmac<B, N, H> {
    /// The empty message under the key, which may have any length.
    pub fn new(key: &[u8]) -> Self
        ensures { HoldsHmac H.hash B H.holds result key.now [] }
    {
        let block = block_key::<B, N, H>(key);
        Hmac {
            inner: padded_hasher::<B, N, H>(&block, 0x36),
            outer: padded_hasher::<B, N, H>(&block, 0x5c),
        }
    }

    /// Adds `piece` at the end of the message.
    #[inline(always)]
    pub fn update(&mut self, piece: &[u8])
        ensures { (key text : List ℕ) → HoldsHmac H.hash B H.holds self.old key text
            → HoldsHmac H.hash B H.holds self.new key (text ++ piece.now) }
    {
        self.inner.feed(piece);
    }

    /// The code of the message.
    #[inline(always)]
    pub fn finalize(self) -> [u8; N]
        ensures { (key text : List ℕ) → HoldsHmac H.hash B H.holds self key text → result ≡ hmac H.hash B key text }
    {
        let Hmac { inner, mut outer } = self;
        let digest = inner.finish();
        outer.feed(&digest);
        outer.finish()
    }

    /// Another of the same message.
    #[inline(always)]
    pub fn copy(&self) -> Self
        ensures { (key text : List ℕ) → HoldsHmac H.hash B H.holds self.now key text
            → HoldsHmac H.hash B H.holds result key text }
    {
        Hmac {
            inner: self.inner.copy(),
            outer: self.outer.copy(),
        }
    }
}

impl<const B: usize, const N: usize, H: Clone + Drop> Clone for Hmac<B, N, H> {
    ghost is_clone = { λ x y. H.is_clone x.inner y.inner × H.is_clone x.outer y.outer };

    ghost is_infallible = { λ s. H.is_infallible s.inner × H.is_infallible s.outer };

    fn clone(&self) -> Result<Self, AllocError> {
        Ok(Hmac {
            inner: self.inner.clone()?,
            outer: self.outer.clone()?,
        })
    }
}

/// HMAC-SHA-256 of a message under a key, both of any length.
pub fn hmac_sha256(key: &[u8], message: &[u8]) -> [u8; 32]
    ensures { result ≡ hmac_sha256 key.now message.now }
{
    let mut state = HmacSha256::new(key);
    state.update(message);
    state.finalize()
}

/// HMAC-SHA-384 of a message under a key, both of any length.
pub fn hmac_sha384(key: &[u8], message: &[u8]) -> [u8; 48]
    ensures { result ≡ hmac_sha384 key.now message.now }
{
    let mut state = HmacSha384::new(key);
    state.update(message);
    state.finalize()
}

/// HMAC-SHA-512 of a message under a key, both of any length.
pub fn hmac_sha512(key: &[u8], message: &[u8]) -> [u8; 64]
    ensures { result ≡ hmac_sha512 key.now message.now }
{
    let mut state = HmacSha512::new(key);
    state.update(message);
    state.finalize()
}
