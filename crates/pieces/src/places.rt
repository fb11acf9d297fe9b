//! The first place of a byte, sixteen bytes a step.

ghost use Rattle.std.specs.Prelude.{◌≡◌, ◌≢◌, ◌+◌, ◌≤◌, ◌<◌, ℕ, MatchOption, length, slice_index};
ghost use Rattle.std.specs.Int.{bit_at};
ghost use Rattle.pieces.specs.Places.{IsFirstPlace, IsLastPlace, LacksBetween, Marks};

use std::simd::prelude::*;

// Bit k tells whether byte `i + k` is `wanted`.
#[inline(always)]
fn marks(bytes: &[u8], i: usize, wanted: u8) -> u64
    requires room { i + 16 ≤ length bytes.now }
    ensures marks { Marks wanted bytes.now i result }
{
    u8x16::from_slice(&bytes[i..])
        .simd_eq(u8x16::splat(wanted))
        .to_bitmask()
}

// The lowest bit that is set.
#[inline(always)]
fn lowest(m: u64) -> usize
    requires some { m ≢ 0 }
    ensures set { bit_at m result ≡ 1 }
    ensures below { (k : ℕ) → k < result → bit_at m k ≡ 0 }
    ensures bound { result < 64 }
{
    m.trailing_zeros() as usize
}

// The first place in a short text.
#[inline(always)]
fn first_by_one(bytes: &[u8], wanted: u8) -> Option<usize>
    ensures place { IsFirstPlace wanted bytes.now result }
{
    let mut i = 0;
    while i < bytes.len() {
        if bytes[i] == wanted {
            return Some(i);
        }
        i += 1;
    }
    None
}

/// The first place of `wanted`, counted from 0, or none where it doesn't stand among these bytes.
///
/// It is inlined, since most pieces of a stored text are shorter than a call. How long it takes tells how far it
/// looked, so it isn't for secret bytes.
#[inline(always)]
pub fn first_place(bytes: &[u8], wanted: u8) -> Option<usize>
    ensures place { IsFirstPlace wanted bytes.now result }
{
    if bytes.len() < 16 {
        return first_by_one(bytes, wanted);
    }
    let last = bytes.len() - 16;
    let mut i = 0;
    while i < last {
        let here = marks(bytes, i, wanted);
        if here != 0 {
            return Some(i + lowest(here));
        }
        i += 16;
    }
    // The last 16 bytes; those of them that were tested aren't wanted.
    let here = marks(bytes, last, wanted);
    if here == 0 {
        return None;
    }
    Some(last + lowest(here))
}

// The first place of `wanted` from `from` on.
#[inline(always)]
fn place_from(bytes: &[u8], from: usize, wanted: u8) -> Option<usize>
    requires within { from ≤ length bytes.now }
    ensures place { MatchOption result (LacksBetween wanted bytes.now from (length bytes.now)) (λ at. (from ≤ at) × (at < length bytes.now)
        × LacksBetween wanted bytes.now from at × (slice_index bytes.now at ≡ wanted)) }
{
    match first_place(&bytes[from..], wanted) {
        Some(at) => Some(from + at),
        None => None,
    }
}

/// The last place of `wanted`, counted from 0, or none where it doesn't stand among these bytes.
///
/// As [`first_place`] it isn't for secret bytes.
pub fn last_place(bytes: &[u8], wanted: u8) -> Option<usize>
    ensures place { IsLastPlace wanted bytes.now result }
{
    let mut last = None;
    let mut from = 0;
    'places: while let Some(at) = place_from(bytes, from, wanted) {
        last = Some(at);
        from = at + 1;
    }
    last
}
