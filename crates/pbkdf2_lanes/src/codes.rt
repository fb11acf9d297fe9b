//! Codes of 32 bytes, as bytes and as words in lanes.

ghost use Rattle.std.specs.Prelude.{◌≡◌, ℕ, ◌<◌, slice_index};
ghost use Rattle.std.specs.Int.{w32, to_be_bytes};
ghost use Rattle.sha2.specs.Sha256.{digest_bytes};
ghost use Rattle.word_lists.specs.Lists.{piece};
ghost use Rattle.pbkdf2_key.specs.Pbkdf2.{u};
ghost use Rattle.hmac_plain.specs.Hmac.{hmac_sha256};
ghost use Rattle.sha2_lanes.specs.Lanes.{lane_at, state};

use crate::vectors::splat;
use hmac_plain::HmacSha256;
use std::simd::u32x8;

// The first code of the first block of PBKDF2.
pub(crate) fn first_code(password: &[u8], salt: &[u8]) -> [u8; 32]
    ensures { result ≡ u hmac_sha256 password.now salt.now 1 1 }
{
    let mut message = HmacSha256::new(password);
    message.update(salt);
    message.update(&1u32.to_be_bytes());
    message.finalize()
}

// Word `k` of a code.
fn word(code: &[u8; 32], k: usize) -> u32
    requires { k < 8 }
    ensures { to_be_bytes w32 result ≡ piece 4 code.now k }
{
    let mut bytes = [0u8; 4];
    bytes.copy_from_slice(&code[4 * k..4 * k + 4]);
    u32::from_be_bytes(bytes)
}

// Word `k` of a code in each lane.
fn word_in_lanes(code: &[u8; 32], k: usize) -> u32x8
    requires { k < 8 }
    ensures { (j : ℕ) → j < 8 → to_be_bytes w32 (slice_index result j) ≡ piece 4 code.now k }
{
    splat(word(code, k))
}

// The code's words, in each lane.
pub(crate) fn code_in_lanes(code: &[u8; 32]) -> [u32x8; 8]
    ensures { (j : ℕ) → j < 8 → digest_bytes (state j result) 8 ≡ code.now }
{
    let a = word_in_lanes(code, 0);
    let b = word_in_lanes(code, 1);
    let c = word_in_lanes(code, 2);
    let d = word_in_lanes(code, 3);
    let e = word_in_lanes(code, 4);
    let f = word_in_lanes(code, 5);
    let g = word_in_lanes(code, 6);
    let h = word_in_lanes(code, 7);
    [a, b, c, d, e, f, g, h]
}

// Word `k` of the lane's code.
fn lane_word(s: &[u32x8; 8], k: usize, lane: usize) -> u32
    requires word { k < 8 }
    requires lane { lane < 8 }
    ensures { result ≡ slice_index (state lane s.now) k }
{
    s[k].to_array()[lane]
}

// The bytes of the lane's code.
pub(crate) fn lane_bytes(s: &[u32x8; 8], lane: usize) -> [u8; 32]
    requires { lane < 8 }
    ensures { result ≡ digest_bytes (state lane s.now) 8 }
{
    let mut out = [0u8; 32];
    'words: for i in 0..8usize {
        let word = lane_word(s, i, lane);
        out[4 * i..4 * i + 4].copy_from_slice(&word.to_be_bytes());
    }
    out
}
