//! The kernel: Salsa20/8 (RFC 7914, section 3) on four vectors of four words. How a block lies in
//! vectors and in the table is known here alone.

ghost use Rattle.std.specs.Prelude.{◌≡◌, ℕ, ◌-◌, ◌%◌, ◌^◌, ◌<◌, [], ◌∷◌, length, bit_xor, slice_index};
ghost use Rattle.scrypt_plain.specs.Bytes.{bytes, little_endian};
ghost use Rattle.word_lists.specs.Lists.{xor_bytes};
ghost use Rattle.scrypt_plain.specs.Scrypt.{column_round, row_round, salsa20_2, salsa20_8};
ghost use Rattle.word_lists.specs.Sums.{add32};
ghost use Rattle.scrypt_plain.specs.Layout.{lane_bytes, block_bytes, lane_words, quarter_words, xor_rotated};

use std::simd::u32x4;

/// A block of 64 bytes. Its words 0, 5, 10, 15 are in `a`, 4, 9, 14, 3 in `b`, 8, 13, 2, 7 in `c` and
/// 12, 1, 6, 11 in `d`.
#[derive(Drop)]
pub(crate) struct Block {
    a: u32x4,
    b: u32x4,
    c: u32x4,
    d: u32x4,
}

// to ^ R(x + y, n), lane by lane.
#[inline(always)]
fn xor_rotated(to: u32x4, x: u32x4, y: u32x4, n: u32) -> u32x4
    requires { (0 < n) × (n < 32) }
    ensures { (j : ℕ) → j < 4
        → slice_index result j ≡ xor_rotated (slice_index to j) (slice_index x j) (slice_index y j) n }
{
    let sum = x + y;
    to ^ ((sum << u32x4::splat(n)) | (sum >> u32x4::splat(32 - n)))
}

#[inline(always)]
fn quarter_rounds(a: u32x4, b: u32x4, c: u32x4, d: u32x4) -> Block
    ensures { (j : ℕ) → j < 4
        → (slice_index result.a j, slice_index result.b j, slice_index result.c j, slice_index result.d j)
        ≡ quarter_words (slice_index a j) (slice_index b j) (slice_index c j) (slice_index d j) }
{
    let b = xor_rotated(b, a, d, 7);
    let c = xor_rotated(c, b, a, 9);
    let d = xor_rotated(d, c, b, 13);
    let a = xor_rotated(a, d, c, 18);
    Block { a, b, c, d }
}

#[inline(always)]
fn right1(v: u32x4) -> u32x4
    ensures { result ≡ slice_index v 3 ∷ slice_index v 0 ∷ slice_index v 1 ∷ slice_index v 2 ∷ [] }
{
    v.rotate_elements_right::<1>()
}

#[inline(always)]
fn right2(v: u32x4) -> u32x4
    ensures { result ≡ slice_index v 2 ∷ slice_index v 3 ∷ slice_index v 0 ∷ slice_index v 1 ∷ [] }
{
    v.rotate_elements_right::<2>()
}

#[inline(always)]
fn right3(v: u32x4) -> u32x4
    ensures { result ≡ slice_index v 1 ∷ slice_index v 2 ∷ slice_index v 3 ∷ slice_index v 0 ∷ [] }
{
    v.rotate_elements_right::<3>()
}

#[inline(always)]
fn double_round(a: u32x4, b: u32x4, c: u32x4, d: u32x4) -> Block
    ensures { lane_words result.a result.b result.c result.d ≡ row_round (column_round (lane_words a b c d)) }
{
    let x = quarter_rounds(a, b, c, d);
    let y = quarter_rounds(x.a, right3(x.d), right2(x.c), right1(x.b));
    Block {
        a: y.a,
        b: right3(y.d),
        c: right2(y.c),
        d: right1(y.b),
    }
}

#[inline(always)]
fn add(x: u32x4, y: u32x4) -> u32x4
    ensures { (j : ℕ) → j < 4 → slice_index result j ≡ add32 (slice_index x j) (slice_index y j) }
{
    x + y
}

#[inline(always)]
fn xor(x: u32x4, y: u32x4) -> u32x4
    ensures { (j : ℕ) → j < 4 → slice_index result j ≡ bit_xor (slice_index x j) (slice_index y j) }
{
    x ^ y
}

#[inline(always)]
fn salsa20_8(a: u32x4, b: u32x4, c: u32x4, d: u32x4) -> Block
    ensures { lane_bytes result ≡ salsa20_8 (bytes (lane_words a b c d)) }
{
    let mut x = Block { a, b, c, d };
    'rounds: for _i in 0..4u32 {
        x = double_round(x.a, x.b, x.c, x.d);
    }
    Block {
        a: add(x.a, a),
        b: add(x.b, b),
        c: add(x.c, c),
        d: add(x.d, d),
    }
}

/// The block that sixteen words of the table stand for.
#[inline(always)]
pub(crate) fn load(words: &[u32]) -> Block
    requires { length words.now ≡ 16 }
    ensures { lane_bytes result ≡ block_bytes words.now }
{
    Block {
        a: u32x4::from_slice(&words[0..]),
        b: u32x4::from_slice(&words[4..]),
        c: u32x4::from_slice(&words[8..]),
        d: u32x4::from_slice(&words[12..]),
    }
}

#[inline(always)]
fn store_lanes(words: &mut [u32], a: u32x4, b: u32x4, c: u32x4, d: u32x4)
    requires { length words.old ≡ 16 }
    ensures { block_bytes words.new ≡ bytes (lane_words a b c d) }
{
    a.copy_to_slice(&mut words[0..]);
    b.copy_to_slice(&mut words[4..]);
    c.copy_to_slice(&mut words[8..]);
    d.copy_to_slice(&mut words[12..]);
}

/// Writes the block into sixteen words of the table.
#[inline(always)]
pub(crate) fn store(words: &mut [u32], x: &Block)
    requires { length words.old ≡ 16 }
    ensures { block_bytes words.new ≡ lane_bytes x.now }
{
    store_lanes(words, x.a, x.b, x.c, x.d);
}

#[inline(always)]
fn xor_blocks(x: &Block, y: &Block) -> Block
    ensures { lane_bytes result ≡ xor_bytes (lane_bytes x.now) (lane_bytes y.now) }
{
    Block {
        a: xor(x.a, y.a),
        b: xor(x.b, y.b),
        c: xor(x.c, y.c),
        d: xor(x.d, y.d),
    }
}

/// The exclusive or of two blocks of the table.
#[inline(always)]
pub(crate) fn load_xor(words: &[u32], other: &[u32]) -> Block
    requires words { length words.now ≡ 16 }
    requires other { length other.now ≡ 16 }
    ensures { lane_bytes result ≡ xor_bytes (block_bytes words.now) (block_bytes other.now) }
{
    xor_blocks(&load(words), &load(other))
}

/// Salsa20/8 of the exclusive or of both.
#[inline(always)]
pub(crate) fn mix(x: &Block, y: &Block) -> Block
    ensures { lane_bytes result ≡ salsa20_8 (xor_bytes (lane_bytes x.now) (lane_bytes y.now)) }
{
    let t = xor_blocks(x, y);
    salsa20_8(t.a, t.b, t.c, t.d)
}

/// The lowest 32 bits of a block of the table as a number.
pub(crate) fn low_word(words: &[u32]) -> u32
    requires { length words.now ≡ 16 }
    ensures { result ≡ little_endian (block_bytes words.now) % 2 ^ 32 }
{
    words[0]
}

/// Writes sixteen words in their order as a block of the table.
pub(crate) fn to_table_order(from: &[u32], to: &mut [u32])
    requires from { length from.now ≡ 16 }
    requires to { length to.old ≡ 16 }
    ensures { block_bytes to.new ≡ bytes from.now }
{
    let block = [
        from[0], from[5], from[10], from[15], from[4], from[9], from[14], from[3], from[8],
        from[13], from[2], from[7], from[12], from[1], from[6], from[11],
    ];
    to.copy_from_slice(&block);
}

/// Writes a block of the table as sixteen words in their order.
pub(crate) fn from_table_order(from: &[u32], to: &mut [u32])
    requires from { length from.now ≡ 16 }
    requires to { length to.old ≡ 16 }
    ensures { bytes to.new ≡ block_bytes from.now }
{
    let block = [
        from[0], from[13], from[10], from[7], from[4], from[1], from[14], from[11], from[8],
        from[5], from[2], from[15], from[12], from[9], from[6], from[3],
    ];
    to.copy_from_slice(&block);
}

#[inline(always)]
fn salsa20_2_lanes(a: u32x4, b: u32x4, c: u32x4, d: u32x4) -> Block
    ensures { lane_bytes result ≡ salsa20_2 (bytes (lane_words a b c d)) }
{
    let x = double_round(a, b, c, d);
    Block {
        a: add(x.a, a),
        b: add(x.b, b),
        c: add(x.c, c),
        d: add(x.d, d),
    }
}

/// Salsa20/2 of a block of the table.
pub fn salsa20_2(words: &mut [u32])
    requires { length words.old ≡ 16 }
    ensures { block_bytes words.new ≡ salsa20_2 (block_bytes words.old) }
{
    let x = load(words);
    let y = salsa20_2_lanes(x.a, x.b, x.c, x.d);
    store(words, &y);
}
