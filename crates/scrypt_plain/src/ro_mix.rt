//! scryptROMix (RFC 7914, section 5), over a table of rows.

ghost use Rattle.std.specs.Prelude.{◌≡◌, ℕ, ◌+◌, ◌*◌, ◌%◌, ◌^◌, ◌<◌, ◌≤◌, length};
ghost use Rattle.scrypt_plain.specs.Bytes.{bytes};
ghost use Rattle.scrypt_plain.specs.Scrypt.{block_mix, concat_below, integerify, part, ro_mix, ro_mix_step, table_row};
ghost use Rattle.scrypt_plain.specs.Layout.{row_bytes};
ghost use Rattle.word_lists.specs.Lists.{piece};

use crate::block_mix::{block_mix, block_mix_xor};
use crate::salsa;

/// Words in their order as a row of `count` blocks of the table.
pub fn write_row(from: &[u32], to: &mut [u32], count: usize)
    requires from { length from.now ≡ 16 * count }
    requires to { length to.old ≡ 16 * count }
    ensures { row_bytes count to.new ≡ bytes from.now }
{
    'copies: for i in 0..count {
        salsa::to_table_order(&from[16 * i..16 * i + 16], &mut to[16 * i..16 * i + 16]);
    }
}

/// A row of `count` blocks of the table as words in their order.
pub fn read_row(from: &[u32], to: &mut [u32], count: usize)
    requires from { length from.now ≡ 16 * count }
    requires to { length to.old ≡ 16 * count }
    ensures { bytes to.new ≡ row_bytes count from.now }
{
    'copies: for i in 0..count {
        salsa::from_table_order(&from[16 * i..16 * i + 16], &mut to[16 * i..16 * i + 16]);
    }
}

// Row `i + 1` of the table from row `i`.
fn next_row(table: &mut [u32], r: usize, i: usize)
    requires some_blocks { 1 ≤ r }
    requires room { 32 * r * i + 64 * r ≤ length table.old }
    ensures next { row_bytes (2 * r) (piece (32 * r) table.new (i + 1))
        ≡ block_mix r (row_bytes (2 * r) (piece (32 * r) table.old i)) }
    ensures others { (k : ℕ) → k ≤ i → piece (32 * r) table.new k ≡ piece (32 * r) table.old k }
{
    let row = 32 * r;
    let (done, rest) = table.split_at_mut(row * i + row);
    block_mix(&done[row * i..], &mut rest[..row], r);
}

/// The rows after the first.
pub fn fill_table(table: &mut [u32], r: usize, n: usize)
    requires some_blocks { 1 ≤ r }
    requires rows { 1 ≤ n }
    requires room { length table.old ≡ 32 * r * n }
    ensures { (k : ℕ) → k < n → row_bytes (2 * r) (piece (32 * r) table.new k)
        ≡ table_row r (row_bytes (2 * r) (piece (32 * r) table.old 0)) k }
{
    'rows: for i in 0..n - 1 {
        next_row(table, r, i);
    }
}

// j = Integerify(X) mod N.
fn row_index(x: &[u32], r: usize, ln: u32) -> usize
    requires some_blocks { 1 ≤ r }
    requires x { length x.now ≡ 32 * r }
    requires ln { ln ≤ 32 }
    ensures { result ≡ integerify r (row_bytes (2 * r) x.now) % 2 ^ ln }
{
    salsa::low_word(&x[32 * r - 16..]) as usize % (1 << ln)
}

// A turn of step 3, from `x` to `y`.
fn one_step(table: &[u32], x: &[u32], y: &mut [u32], r: usize, ln: u32)
    requires some_blocks { 1 ≤ r }
    requires ln { ln ≤ 32 }
    requires table { length table.now ≡ 32 * r * 2 ^ ln }
    requires x { length x.now ≡ 32 * r }
    requires y { length y.old ≡ 32 * r }
    ensures { row_bytes (2 * r) y.new
        ≡ ro_mix_step r (2 ^ ln) (λ k. row_bytes (2 * r) (piece (32 * r) table.now k)) (row_bytes (2 * r) x.now) }
{
    let row = 32 * r;
    let j = row_index(x, r, ln);
    let with = &table[row * j..row * j + row];
    // A word of each block is read first, so that the whole row is on its way from memory at once: the mixing
    // alone would wait for one block after the other. `y` takes the words, which keeps the reads in the program.
    let mut seen = with[row - 16] | with[row - 1];
    'blocks: for i in 0..2 * r {
        seen |= with[16 * i];
    }
    y[0] = seen;
    block_mix_xor(x, with, y, r);
}

// Two turns of step 3: `x` to `y`, and `y` to `x`.
fn two_steps(table: &[u32], x: &mut [u32], y: &mut [u32], r: usize, ln: u32)
    requires some_blocks { 1 ≤ r }
    requires ln { ln ≤ 32 }
    requires table { length table.now ≡ 32 * r * 2 ^ ln }
    requires x { length x.old ≡ 32 * r }
    requires y { length y.old ≡ 32 * r }
    ensures { row_bytes (2 * r) x.new
        ≡ ro_mix_step r (2 ^ ln) (λ k. row_bytes (2 * r) (piece (32 * r) table.now k))
        (ro_mix_step r (2 ^ ln) (λ k. row_bytes (2 * r) (piece (32 * r) table.now k)) (row_bytes (2 * r) x.old)) }
{
    one_step(table, x, y, r, ln);
    one_step(table, y, x, r, ln);
}

/// scryptROMix of `part`, with a table of 2^ln rows and two rows more. What they hold makes no difference.
pub(crate) fn ro_mix(
    part: &mut [u32],
    table: &mut [u32],
    x: &mut [u32],
    y: &mut [u32],
    r: usize,
    ln: u32,
)
    requires some_blocks { 1 ≤ r }
    requires ln { (1 ≤ ln) × (ln ≤ 32) }
    requires part { length part.old ≡ 32 * r }
    requires table { length table.old ≡ 32 * r * 2 ^ ln }
    requires x { length x.old ≡ 32 * r }
    requires y { length y.old ≡ 32 * r }
    ensures { bytes part.new ≡ ro_mix r (2 ^ ln) (bytes part.old) }
{
    let row = 32 * r;
    let n = 1usize << ln;
    write_row(part, &mut table[..row], 2 * r);
    fill_table(table, r, n);
    block_mix(&table[row * (n - 1)..], x, r);
    'turns: for _turn in 0..n / 2 {
        two_steps(table, x, y, r, ln);
    }
    read_row(x, part, 2 * r);
}

/// scryptROMix of each of the `count` parts.
pub fn mix_parts(
    parts: &mut [u32],
    table: &mut [u32],
    x: &mut [u32],
    y: &mut [u32],
    r: usize,
    ln: u32,
    count: usize,
)
    requires some_blocks { 1 ≤ r }
    requires ln { (1 ≤ ln) × (ln ≤ 32) }
    requires parts { length parts.old ≡ 32 * r * count }
    requires table { length table.old ≡ 32 * r * 2 ^ ln }
    requires x { length x.old ≡ 32 * r }
    requires y { length y.old ≡ 32 * r }
    ensures { bytes parts.new ≡ concat_below count (λ i. ro_mix r (2 ^ ln) (part r (bytes parts.old) i)) }
{
    let row = 32 * r;
    'parts: for i in 0..count {
        ro_mix(&mut parts[row * i..row * i + row], table, x, y, r, ln);
    }
}
