//! Encoding.

ghost use Rattle.std.specs.Prelude.{◌≡◌, ◌<◌, ◌≤◌, ◌+◌, ◌++◌, length, map, drop};
ghost use Rattle.base64ct.specs.Encoding.{character, encoding, groups, unpadded_encoding, unpadded_len, longest_input, EachBelow};

use crate::alphabet::Alphabet;
use crate::blocks::values;

// Writes the values of `src` at the front of `dst`, and tells how many they are.
fn spread<A: Alphabet>(src: &[u8], dst: &mut [u8]) -> usize
    requires { unpadded_len (length src.now) ≤ length dst.old }
    ensures len { result ≡ unpadded_len (length src.now) }
    ensures written { dst.new ≡ groups A.alphabet.low_first src.now ++ drop result dst.old }
{
    let blocks = src.len() / 3;
    'whole: for block in 0..blocks {
        let i = 3 * block;
        let o = 4 * block;
        dst[o..o + 4].copy_from_slice(&values::<A>(src[i], src[i + 1], src[i + 2]));
    }
    let i = 3 * blocks;
    let o = 4 * blocks;
    match src.len() % 3 {
        1 => {
            dst[o..o + 2].copy_from_slice(&values::<A>(src[i], 0, 0)[..2]);
            o + 2
        }
        2 => {
            dst[o..o + 3].copy_from_slice(&values::<A>(src[i], src[i + 1], 0)[..3]);
            o + 3
        }
        _ => o,
    }
}

// Puts its character in the place of each value.
fn encode_values<A: Alphabet>(values: &mut [u8])
    requires { EachBelow 64 values.old }
    ensures { values.new ≡ map (character A.alphabet) values.old }
{
    'value: for j in 0..values.len() {
        values[j] = A::encode_6bits(values[j]);
    }
}

// Writes the characters of `src` at the front of `dst`, and tells how many they are.
pub(crate) fn encode_unpadded<A: Alphabet>(src: &[u8], dst: &mut [u8]) -> usize
    requires { unpadded_len (length src.now) ≤ length dst.old }
    ensures len { result ≡ unpadded_len (length src.now) }
    ensures written { dst.new ≡ unpadded_encoding A.alphabet src.now ++ drop result dst.old }
{
    let count = spread::<A>(src, dst);
    encode_values::<A>(&mut dst[..count]);
    count
}

// How many characters the encoding of `src` has, and how many `=` behind them.
pub(crate) fn encoding_lens<A: Alphabet>(src: &[u8]) -> (usize, usize)
    requires { length src.now ≤ longest_input }
    ensures characters { result.0 ≡ unpadded_len (length src.now) }
    ensures whole { result.0 + result.1 ≡ length (encoding A.alphabet src.now) }
    ensures few { result.1 < 4 }
{
    let count = (4 * src.len() + 2) / 3;
    let padding = if A::padded() { (4 - count % 4) % 4 } else { 0 };
    (count, padding)
}

// Writes the encoding of `src`, of `count` characters and `padding` `=`, at the front of `dst`.
pub(crate) fn encode_padded<A: Alphabet>(src: &[u8], dst: &mut [u8], count: usize, padding: usize)
    requires characters { count ≡ unpadded_len (length src.now) }
    requires whole { count + padding ≡ length (encoding A.alphabet src.now) }
    requires room { count + padding ≤ length dst.old }
    ensures { dst.new ≡ encoding A.alphabet src.now ++ drop (count + padding) dst.old }
{
    encode_unpadded::<A>(src, dst);
    dst[count..count + padding].fill(b'=');
}
