//! The rounds of PBKDF2 over HMAC-SHA-256, in eight lanes.

ghost use Rattle.std.specs.Prelude.{◌≡◌, ℕ, ◌<◌, ◌≤◌, ◌++◌, List, length};
ghost use Rattle.sha2.specs.Sha256.{compress, digest_bytes, first_words, initial_hash_256, padding, sha256};
ghost use Rattle.word_lists.specs.Lists.{xor_bytes};
ghost use Rattle.hmac_plain.specs.Hmac.{block_key, hmac_sha256, ipad, opad};
ghost use Rattle.pbkdf2_key.specs.Pbkdf2.{output_block, u};
ghost use Rattle.sha2_lanes.specs.Lanes.{state, words};

use crate::vectors::{exclusive, known, splat};
use sha2_lanes::compress_lanes;
use std::simd::u32x8;

// A digest that comes after one block, with the padding after it: the words of the message's last block.
#[inline(always)]
fn filled(s: [u32x8; 8]) -> [u32x8; 16]
    ensures { (j : ℕ) → j < 8 → words j result ≡ first_words (digest_bytes (state j s) 8 ++ padding 96) 16 }
{
    let a = known(s[0]);
    let b = known(s[1]);
    let c = known(s[2]);
    let d = known(s[3]);
    let e = known(s[4]);
    let f = known(s[5]);
    let g = known(s[6]);
    let h = known(s[7]);
    let one = splat(0x8000_0000);
    let zero = splat(0);
    let size = splat(768);
    [
        a, b, c, d, e, f, g, h, one, zero, zero, zero, zero, zero, zero, size,
    ]
}

// SHA-256 of a block, which `before` has taken in, and a digest after it.
#[inline(always)]
fn digest_after(before: [u32x8; 8], s: [u32x8; 8]) -> [u32x8; 8]
    ensures { (j : ℕ) (p : List ℕ) → j < 8 → length p ≡ 64 → state j before ≡ compress initial_hash_256 p
        → digest_bytes (state j result) 8 ≡ sha256 (p ++ digest_bytes (state j s) 8) }
{
    compress_lanes(before, filled(s))
}

// The code of a code.
#[inline(always)]
fn code_of(inner: [u32x8; 8], outer: [u32x8; 8], code: [u32x8; 8]) -> [u32x8; 8]
    ensures { (j : ℕ) (p q : List ℕ) → j < 8 → length p ≡ 64 → length q ≡ 64
        → state j inner ≡ compress initial_hash_256 p → state j outer ≡ compress initial_hash_256 q
        → digest_bytes (state j result) 8 ≡ sha256 (q ++ sha256 (p ++ digest_bytes (state j code) 8)) }
{
    let middle = digest_after(inner, code);
    digest_after(outer, middle)
}

// The exclusive or of codes.
#[inline(always)]
fn sums(s: [u32x8; 8], v: [u32x8; 8]) -> [u32x8; 8]
    ensures { (j : ℕ) → j < 8 → digest_bytes (state j result) 8
        ≡ xor_bytes (digest_bytes (state j s) 8) (digest_bytes (state j v) 8) }
{
    let a = exclusive(s[0], v[0]);
    let b = exclusive(s[1], v[1]);
    let c = exclusive(s[2], v[2]);
    let d = exclusive(s[3], v[3]);
    let e = exclusive(s[4], v[4]);
    let f = exclusive(s[5], v[5]);
    let g = exclusive(s[6], v[6]);
    let h = exclusive(s[7], v[7]);
    [a, b, c, d, e, f, g, h]
}

// The exclusive or of the codes of all rounds: in each lane the first block of PBKDF2, from the state after the password's
// inner block, the one after the outer block, and the first code.
pub(crate) fn rounds_lanes(
    inner: [u32x8; 8],
    outer: [u32x8; 8],
    first: [u32x8; 8],
    rounds: u32,
) -> [u32x8; 8]
    requires { 1 ≤ rounds }
    ensures { (j : ℕ) (password salt : List ℕ) → j < 8
        → state j inner ≡ compress initial_hash_256 (xor_bytes (block_key sha256 64 password) (ipad 64))
        → state j outer ≡ compress initial_hash_256 (xor_bytes (block_key sha256 64 password) (opad 64))
        → digest_bytes (state j first) 8 ≡ u hmac_sha256 password salt 1 1
        → digest_bytes (state j result) 8 ≡ output_block hmac_sha256 32 password salt 1 rounds }
{
    let mut code = first;
    let mut sum = first;
    'turns: for round in 1..rounds {
        let next = code_of(inner, outer, code);
        let more = sums(sum, next);
        code = next;
        sum = more;
    }
    sum
}
