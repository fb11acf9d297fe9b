//! Vectors of eight words, lane by lane.

ghost use Rattle.std.specs.Prelude.{◌≡◌, ◌≢◌, ℕ, ◌<◌, ◌^◌, bit_xor, slice_index};
ghost use Rattle.sha2_lanes.specs.Lanes.{state};
ghost use Rattle.pbkdf2_lanes.specs.Held.{state_at};

use std::simd::u32x8;

// One word in each lane.
#[inline(always)]
pub(crate) fn splat(k: u32) -> u32x8
    ensures { (j : ℕ) → j < 8 → slice_index result j ≡ k }
{
    u32x8::splat(k)
}

// What the type says of a vector: each lane is a word.
#[inline(always)]
pub(crate) fn known(x: u32x8) -> u32x8
    ensures same { result ≡ x }
    ensures fit { (j : ℕ) → j < 8 → slice_index x j < 2 ^ 32 }
{
    x
}

// The exclusive or of words.
#[inline(always)]
pub(crate) fn exclusive(x: u32x8, y: u32x8) -> u32x8
    ensures { (j : ℕ) → j < 8 → slice_index result j ≡ bit_xor (slice_index x j) (slice_index y j) }
{
    x ^ y
}

// `old` with `new` in one lane.
fn replaced(old: u32x8, new: u32x8, lane: usize) -> u32x8
    requires { lane < 8 }
    ensures here { slice_index result lane ≡ slice_index new lane }
    ensures others { (j : ℕ) → j ≢ lane → slice_index result j ≡ slice_index old j }
{
    let mut lanes = old.to_array();
    lanes[lane] = new.to_array()[lane];
    u32x8::from_array(lanes)
}

/// Eight states, of which each has eight words: one in each lane.
#[derive(Drop)]
pub(crate) struct EightStates {
    a: u32x8,
    b: u32x8,
    c: u32x8,
    d: u32x8,
    e: u32x8,
    f: u32x8,
    g: u32x8,
    h: u32x8,
}

impl EightStates {
    // Eight states of zeros.
    pub(crate) fn zeros() -> EightStates {
        let zero = u32x8::splat(0);
        EightStates {
            a: zero,
            b: zero,
            c: zero,
            d: zero,
            e: zero,
            f: zero,
            g: zero,
            h: zero,
        }
    }
}

// The states `old`, with the one of `new` in one lane.
pub(crate) fn with_lane(old: &EightStates, new: [u32x8; 8], lane: usize) -> EightStates
    requires { lane < 8 }
    ensures here { state_at result lane ≡ state lane new }
    ensures others { (j : ℕ) → j ≢ lane → state_at result j ≡ state_at old.now j }
{
    let a = replaced(old.a, new[0], lane);
    let b = replaced(old.b, new[1], lane);
    let c = replaced(old.c, new[2], lane);
    let d = replaced(old.d, new[3], lane);
    let e = replaced(old.e, new[4], lane);
    let f = replaced(old.f, new[5], lane);
    let g = replaced(old.g, new[6], lane);
    let h = replaced(old.h, new[7], lane);
    EightStates {
        a,
        b,
        c,
        d,
        e,
        f,
        g,
        h,
    }
}

// The vectors of the states.
#[inline(always)]
pub(crate) fn loaded(s: &EightStates) -> [u32x8; 8]
    ensures { (j : ℕ) → state j result ≡ state_at s.now j }
{
    [s.a, s.b, s.c, s.d, s.e, s.f, s.g, s.h]
}
