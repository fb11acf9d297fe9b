//! Texts of fields without a fault, seen sixteen bytes a step.

ghost use Rattle.std.specs.Prelude.{◌≡◌, ◌+◌, ◌≤◌, IsTrue, None, length};
ghost use Rattle.pieces.specs.Pieces.{pieces_at};
ghost use Rattle.mcf.specs.Clean.{AreGood};
ghost use Rattle.mcf.specs.Grammar.{first_field_fault};
ghost use Rattle.pieces.specs.Characters.{dollar};

use crate::fields::is_field_byte;
use std::simd::prelude::*;

// Whether each of the 16 bytes from `i` on is a byte of a field, or a `$` before another byte than `$`.
#[inline(always)]
fn are_good(bytes: &[u8], i: usize) -> bool
    requires room { i + 17 ≤ length bytes.now }
    ensures good { IsTrue result → AreGood bytes.now i (i + 16) }
{
    let here = u8x16::from_slice(&bytes[i..]);
    let next = u8x16::from_slice(&bytes[i + 1..]);
    // `+,-./` and the digits follow each other.
    let sign_or_digit = (here - u8x16::splat(b'+')).simd_lt(u8x16::splat(15));
    let letter = ((here | u8x16::splat(0x20)) - u8x16::splat(b'a')).simd_lt(u8x16::splat(26));
    let equals = here.simd_eq(u8x16::splat(b'='));
    let cut = here.simd_eq(u8x16::splat(b'$')) & next.simd_ne(u8x16::splat(b'$'));
    (sign_or_digit | letter | equals | cut).to_bitmask() == 0xffff
}

/// Whether the fields of a text are seen to have no fault. Those of a text of at most 16 bytes aren't.
///
/// Neither an end nor a branch hangs on a byte of a field but the first and the last: the steps are those of the length.
pub(crate) fn are_fields(bytes: &[u8]) -> bool
    ensures fault { IsTrue result → first_field_fault (pieces_at dollar bytes.now) ≡ None }
{
    if bytes.len() < 17 {
        return false;
    }
    let last = bytes.len() - 17;
    let ends = is_field_byte(bytes[0]) & is_field_byte(bytes[last + 16]);
    let mut all = are_good(bytes, last) & ends;
    let mut i = 0;
    while i < last {
        let here = are_good(bytes, i);
        all = all & here;
        i += 16;
    }
    all
}
