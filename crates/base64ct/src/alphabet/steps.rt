//! The masked steps from a character to its value and back, on words of 16 bits.

ghost use Rattle.std.specs.Prelude.{◌≡◌, ◌%◌, [], ◌∷◌, ℕ};
ghost use Rattle.std.specs.Int.{w16, cast_unsigned};
ghost use Rattle.base64ct.specs.Steps.{decode_step, encode_from, in_range, at_one, past_value, past_sum, word_add};

// What the step of a range adds for `c`: `c` and an offset where the range has it, and else 0.
#[inline(always)]
pub(crate) fn range_step(c: u8, first: u8, last: u8, offset: i16) -> i16
    ensures { cast_unsigned w16 result ≡ decode_step c (in_range first last (cast_unsigned w16 offset)) }
{
    let c = c as i16;
    let within = (first as i16).wrapping_sub(1).wrapping_sub(c) & c.wrapping_sub(last as i16 + 1);
    within >> 8 & c.wrapping_add(offset)
}

// What the step of one character adds for `c`: a value where it is that character, and else 0.
#[inline(always)]
pub(crate) fn one_step(c: u8, one: u8, value: i16) -> i16
    ensures { cast_unsigned w16 result ≡ decode_step c (at_one one (cast_unsigned w16 value)) }
{
    let c = c as i16;
    let same = (one as i16).wrapping_sub(1).wrapping_sub(c) & c.wrapping_sub(one as i16 + 1);
    same >> 8 & value
}

// The sum that the steps from `value` to its character begin with.
#[inline(always)]
pub(crate) fn first_sum(value: u8, base: u8) -> i16
    ensures { cast_unsigned w16 result ≡ word_add value base }
{
    (value as i16).wrapping_add(base as i16)
}

// A sum, and `n` more where `bound` is below the value.
#[inline(always)]
pub(crate) fn add_past_value(sum: i16, value: u8, bound: u8, n: i16) -> i16
    ensures { cast_unsigned w16 result ≡ encode_from (cast_unsigned w16 sum) value (past_value bound (cast_unsigned w16 n) ∷ []) }
{
    sum.wrapping_add((bound as i16).wrapping_sub(value as i16) >> 8 & n)
}

// A sum, and `n` more where `bound` is below the sum.
#[inline(always)]
pub(crate) fn add_past_sum(sum: i16, bound: u8, n: i16) -> i16
    ensures { (v : ℕ) → cast_unsigned w16 result ≡ encode_from (cast_unsigned w16 sum) v (past_sum bound (cast_unsigned w16 n) ∷ []) }
{
    sum.wrapping_add((bound as i16).wrapping_sub(sum) >> 8 & n)
}

// The low byte of a sum.
#[inline(always)]
pub(crate) fn low_byte(sum: i16) -> u8
    ensures { result ≡ cast_unsigned w16 sum % 256 }
{
    (sum & 255) as u8
}
