//! scryptBlockMix (RFC 7914, section 4), from one row of the table to another.

ghost use Rattle.std.specs.Prelude.{◌≡◌, ◌*◌, ◌≤◌, length};
ghost use Rattle.word_lists.specs.Lists.{xor_bytes};
ghost use Rattle.scrypt_plain.specs.Scrypt.{block_mix};
ghost use Rattle.scrypt_plain.specs.Layout.{row_bytes};

use crate::salsa;

/// scryptBlockMix of a row into the next.
pub fn block_mix(row: &[u32], next: &mut [u32], r: usize)
    requires some_blocks { 1 ≤ r }
    requires row { length row.now ≡ 32 * r }
    requires next { length next.old ≡ 32 * r }
    ensures { row_bytes (2 * r) next.new ≡ block_mix r (row_bytes (2 * r) row.now) }
{
    let mut x = salsa::load(&row[32 * r - 16..]);
    'pairs: for i in 0..r {
        x = salsa::mix(&x, &salsa::load(&row[32 * i..32 * i + 16]));
        salsa::store(&mut next[16 * i..16 * i + 16], &x);
        x = salsa::mix(&x, &salsa::load(&row[32 * i + 16..32 * i + 32]));
        salsa::store(&mut next[16 * (r + i)..16 * (r + i) + 16], &x);
    }
}

/// scryptBlockMix of the exclusive or of the rows `from` and `with` into the row `to`.
pub(crate) fn block_mix_xor(from: &[u32], with: &[u32], to: &mut [u32], r: usize)
    requires some_blocks { 1 ≤ r }
    requires from { length from.now ≡ 32 * r }
    requires with { length with.now ≡ 32 * r }
    requires to { length to.old ≡ 32 * r }
    ensures { row_bytes (2 * r) to.new
        ≡ block_mix r (xor_bytes (row_bytes (2 * r) from.now) (row_bytes (2 * r) with.now)) }
{
    let mut x = salsa::load_xor(&from[32 * r - 16..], &with[32 * r - 16..]);
    'pairs: for i in 0..r {
        let even = 32 * i;
        x = salsa::mix(
            &x,
            &salsa::load_xor(&from[even..even + 16], &with[even..even + 16]),
        );
        salsa::store(&mut to[16 * i..16 * i + 16], &x);
        let odd = 32 * i + 16;
        x = salsa::mix(
            &x,
            &salsa::load_xor(&from[odd..odd + 16], &with[odd..odd + 16]),
        );
        salsa::store(&mut to[16 * (r + i)..16 * (r + i) + 16], &x);
    }
}
