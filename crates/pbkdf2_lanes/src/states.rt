//! The states of SHA-256 after the first block of a message.

ghost use Rattle.std.specs.Prelude.{◌≡◌, ℕ, ◌+◌, ◌<◌, ◌≤◌, replicate, slice_index};
ghost use Rattle.sha2.specs.Sha256.{compress, first_words, initial_hash_256, sha256, word_at};
ghost use Rattle.hmac_plain.specs.Hmac.{block_key};
ghost use Rattle.word_lists.specs.Lists.{xor_bytes};
ghost use Rattle.sha2_lanes.specs.Lanes.{state, words};

use crate::vectors::splat;
use hmac_plain::block_key;
use sha2::Sha256;
use sha2_lanes::compress_lanes;
use std::simd::u32x8;
use word_lists::xor_bytes;

// The initial hash value in each lane.
fn initial() -> [u32x8; 8]
    ensures { (j : ℕ) → j < 8 → state j result ≡ initial_hash_256 }
{
    let a = splat(0x6a09_e667);
    let b = splat(0xbb67_ae85);
    let c = splat(0x3c6e_f372);
    let d = splat(0xa54f_f53a);
    let e = splat(0x510e_527f);
    let f = splat(0x9b05_688c);
    let g = splat(0x1f83_d9ab);
    let h = splat(0x5be0_cd19);
    [a, b, c, d, e, f, g, h]
}

// The word at byte `i` of a block, in each lane.
fn word(block: &[u8; 64], i: usize) -> u32x8
    requires { i + 4 ≤ 64 }
    ensures { (j : ℕ) → j < 8 → slice_index result j ≡ word_at block.now i }
{
    splat(u32::from_be_bytes([block[i], block[i + 1], block[i + 2], block[i + 3]]))
}

// The words of a block, in each lane.
fn block_words(block: &[u8; 64]) -> [u32x8; 16]
    ensures { (j : ℕ) → j < 8 → words j result ≡ first_words block.now 16 }
{
    let a = word(block, 0);
    let b = word(block, 4);
    let c = word(block, 8);
    let d = word(block, 12);
    let e = word(block, 16);
    let f = word(block, 20);
    let g = word(block, 24);
    let h = word(block, 28);
    let i = word(block, 32);
    let j = word(block, 36);
    let k = word(block, 40);
    let l = word(block, 44);
    let m = word(block, 48);
    let n = word(block, 52);
    let o = word(block, 56);
    let p = word(block, 60);
    [a, b, c, d, e, f, g, h, i, j, k, l, m, n, o, p]
}

// The key as one block, each byte of which `pad` has changed.
fn padded_key(password: &[u8], pad: u8) -> [u8; 64]
    ensures { result ≡ xor_bytes (block_key sha256 64 password.now) (replicate 64 pad) }
{
    let mut block = block_key::<64, 32, Sha256>(password);
    xor_bytes(&mut block, &[pad; 64]);
    block
}

// The state after the key's block, in each lane.
pub(crate) fn keyed_states(password: &[u8], pad: u8) -> [u32x8; 8]
    ensures { (j : ℕ) → j < 8
        → state j result ≡ compress initial_hash_256 (xor_bytes (block_key sha256 64 password.now) (replicate 64 pad)) }
{
    let block = padded_key(password, pad);
    compress_lanes(initial(), block_words(&block))
}
