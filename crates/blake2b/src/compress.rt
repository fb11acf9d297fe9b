//! The compression function F (RFC 7693, section 3.2).

ghost use Rattle.std.specs.Prelude.{◌≡◌, ℕ, ◌+◌, ◌*◌, ◌^◌, ◌<◌, List, length};
ghost use Rattle.blake2b.specs.Words.{words};
ghost use Rattle.blake2b.specs.Blake2b.{compress, half_mix, local_words, mix, round, rounds};

use crate::words::read_words;

// IV[0] to IV[7].
pub(crate) const IV: [u64; 8] = [
    0x6a09e667f3bcc908,
    0xbb67ae8584caa73b,
    0x3c6ef372fe94f82b,
    0xa54ff53a5f1d36f1,
    0x510e527fade682d1,
    0x9b05688c2b3e6c1f,
    0x1f83d9abfb41bd6b,
    0x5be0cd19137e2179,
];

// Half of the function G, on four of the words.
#[inline(always)]
#[tactic(auto, unfolding(crate::specs::Blake2b::half_mix))]
fn half_mix(v: &mut [u64; 16], a: usize, b: usize, c: usize, d: usize, x: u64, n: u32, k: u32)
    requires a { a < 16 }
    requires b { b < 16 }
    requires c { c < 16 }
    requires d { d < 16 }
    ensures { v.new ≡ half_mix a b c d x n k v.old }
{
    v[a] = v[a].wrapping_add(v[b]).wrapping_add(x);
    v[d] = (v[d] ^ v[a]).rotate_right(n);
    v[c] = v[c].wrapping_add(v[d]);
    v[b] = (v[b] ^ v[c]).rotate_right(k);
}

// The function G.
#[inline(always)]
#[tactic(auto, unfolding(crate::specs::Blake2b::mix))]
fn mix(v: &mut [u64; 16], a: usize, b: usize, c: usize, d: usize, x: u64, y: u64)
    requires a { a < 16 }
    requires b { b < 16 }
    requires c { c < 16 }
    requires d { d < 16 }
    ensures { v.new ≡ mix a b c d x y v.old }
{
    half_mix(v, a, b, c, d, x, 32, 24);
    half_mix(v, a, b, c, d, y, 16, 63);
}

// A round, on the words of the message in its order.
#[inline(always)]
fn round(v: &mut [u64; 16], x: [u64; 16])
    ensures { v.new ≡ round x v.old }
{
    mix(v, 0, 4, 8, 12, x[0], x[1]);
    mix(v, 1, 5, 9, 13, x[2], x[3]);
    mix(v, 2, 6, 10, 14, x[4], x[5]);
    mix(v, 3, 7, 11, 15, x[6], x[7]);
    mix(v, 0, 5, 10, 15, x[8], x[9]);
    mix(v, 1, 6, 11, 12, x[10], x[11]);
    mix(v, 2, 7, 8, 13, x[12], x[13]);
    mix(v, 3, 4, 9, 14, x[14], x[15]);
}

// The rounds 0 to 3.
#[inline(always)]
fn first_rounds(v: &mut [u64; 16], m: &[u64; 16])
    ensures { v.new ≡ rounds 4 m.now v.old }
{
    round(
        v,
        [
            m[0], m[1], m[2], m[3], m[4], m[5], m[6], m[7], m[8], m[9], m[10], m[11], m[12], m[13],
            m[14], m[15],
        ],
    );
    round(
        v,
        [
            m[14], m[10], m[4], m[8], m[9], m[15], m[13], m[6], m[1], m[12], m[0], m[2], m[11],
            m[7], m[5], m[3],
        ],
    );
    round(
        v,
        [
            m[11], m[8], m[12], m[0], m[5], m[2], m[15], m[13], m[10], m[14], m[3], m[6], m[7],
            m[1], m[9], m[4],
        ],
    );
    round(
        v,
        [
            m[7], m[9], m[3], m[1], m[13], m[12], m[11], m[14], m[2], m[6], m[5], m[10], m[4],
            m[0], m[15], m[8],
        ],
    );
}

// The rounds 4 to 7, behind these.
#[inline(always)]
fn middle_rounds(v: &mut [u64; 16], m: &[u64; 16])
    ensures { (before : List ℕ) → v.old ≡ rounds 4 m.now before → v.new ≡ rounds 8 m.now before }
{
    round(
        v,
        [
            m[9], m[0], m[5], m[7], m[2], m[4], m[10], m[15], m[14], m[1], m[11], m[12], m[6],
            m[8], m[3], m[13],
        ],
    );
    round(
        v,
        [
            m[2], m[12], m[6], m[10], m[0], m[11], m[8], m[3], m[4], m[13], m[7], m[5], m[15],
            m[14], m[1], m[9],
        ],
    );
    round(
        v,
        [
            m[12], m[5], m[1], m[15], m[14], m[13], m[4], m[10], m[0], m[7], m[6], m[3], m[9],
            m[2], m[8], m[11],
        ],
    );
    round(
        v,
        [
            m[13], m[11], m[7], m[14], m[12], m[1], m[3], m[9], m[5], m[0], m[15], m[4], m[8],
            m[6], m[2], m[10],
        ],
    );
}

// The rounds 8 to 11, behind these.
#[inline(always)]
fn last_rounds(v: &mut [u64; 16], m: &[u64; 16])
    ensures { (before : List ℕ) → v.old ≡ rounds 8 m.now before → v.new ≡ rounds 12 m.now before }
{
    round(
        v,
        [
            m[6], m[15], m[14], m[9], m[11], m[3], m[0], m[8], m[12], m[2], m[13], m[7], m[1],
            m[4], m[10], m[5],
        ],
    );
    round(
        v,
        [
            m[10], m[2], m[8], m[4], m[7], m[6], m[1], m[5], m[15], m[11], m[9], m[14], m[3],
            m[12], m[13], m[0],
        ],
    );
    round(
        v,
        [
            m[0], m[1], m[2], m[3], m[4], m[5], m[6], m[7], m[8], m[9], m[10], m[11], m[12], m[13],
            m[14], m[15],
        ],
    );
    round(
        v,
        [
            m[14], m[10], m[4], m[8], m[9], m[15], m[13], m[6], m[1], m[12], m[0], m[2], m[11],
            m[7], m[5], m[3],
        ],
    );
}

// The twelve rounds.
#[inline(always)]
fn rounds(v: &mut [u64; 16], m: &[u64; 16])
    ensures { v.new ≡ rounds 12 m.now v.old }
{
    first_rounds(v, m);
    middle_rounds(v, m);
    last_rounds(v, m);
}

// v[0] to v[15] before the rounds.
#[inline(always)]
fn local_words(h: &[u64; 8], low: u64, high: u64, is_last: bool) -> [u64; 16]
    ensures { result ≡ local_words h.now (low + 2 ^ 64 * high) is_last }
{
    let flag = if is_last { !IV[6] } else { IV[6] };
    [
        h[0],
        h[1],
        h[2],
        h[3],
        h[4],
        h[5],
        h[6],
        h[7],
        IV[0],
        IV[1],
        IV[2],
        IV[3],
        IV[4] ^ low,
        IV[5] ^ high,
        flag,
        IV[7],
    ]
}

/// The function F, on 128 bytes of the message, with the number `t` of bytes up to their end.
pub(crate) fn compress(h: &mut [u64; 8], block: &[u8], t: u128, is_last: bool)
    requires { length block.now ≡ 128 }
    ensures { h.new ≡ compress h.old (words 16 block.now) t is_last }
{
    let mut m = [0; 16];
    read_words(block, &mut m);
    let low = (t % (1 << 64)) as u64;
    let high = (t / (1 << 64)) as u64;
    let mut v = local_words(h, low, high, is_last);
    rounds(&mut v, &m);
    *h = [
        h[0] ^ v[0] ^ v[8],
        h[1] ^ v[1] ^ v[9],
        h[2] ^ v[2] ^ v[10],
        h[3] ^ v[3] ^ v[11],
        h[4] ^ v[4] ^ v[12],
        h[5] ^ v[5] ^ v[13],
        h[6] ^ v[6] ^ v[14],
        h[7] ^ v[7] ^ v[15],
    ];
}
