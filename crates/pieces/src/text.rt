//! Bytes as text.

ghost use Rattle.std.specs.Prelude.{◌≡◌, ◌+◌, ◌≤◌, ◌<◌, ℕ, IsTrue, MatchOption, length, slice_index};
ghost use Rattle.std.specs.Str.{IsAscii, IsUtf8};

use std::simd::prelude::*;

// Whether the 16 bytes from `i` on are ASCII.
#[inline(always)]
fn is_ascii_from(bytes: &[u8], i: usize) -> bool
    requires room { i + 16 ≤ length bytes.now }
    ensures ascii { IsTrue result → (k : ℕ) → i ≤ k → k < i + 16 → slice_index bytes.now k < 128 }
{
    u8x16::from_slice(&bytes[i..])
        .simd_ge(u8x16::splat(128))
        .to_bitmask()
        == 0
}

// Whether all bytes are ASCII, sixteen a step.
fn is_ascii(bytes: &[u8]) -> bool
    ensures ascii { IsTrue result → IsAscii bytes.now }
{
    if bytes.len() < 16 {
        return bytes.is_ascii();
    }
    let last = bytes.len() - 16;
    let mut i = 0;
    while i < last {
        if !is_ascii_from(bytes, i) {
            return false;
        }
        i += 16;
    }
    // The last 16 bytes, of which some were tested.
    is_ascii_from(bytes, last)
}

/// The text that bytes are, where they are UTF-8. Most texts are ASCII, which is seen sixteen bytes a step.
pub fn text_of(bytes: &[u8]) -> Option<&str>
    ensures text { MatchOption result (¬ (IsUtf8 bytes.now)) (λ text. (text.now ≡ bytes.now) × IsUtf8 bytes.now) }
{
    if is_ascii(bytes) {
        return Some(unsafe { str::from_utf8_unchecked(bytes) });
    }
    match str::from_utf8(bytes) {
        Ok(text) => Some(text),
        Err(_) => None,
    }
}
