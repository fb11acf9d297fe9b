//! Decoding.

ghost use Rattle.std.specs.Prelude.{◌≡◌, ◌<◌, ◌≤◌, ◌-◌, ◌==◌, List, ℕ, length, take, drop, count_by, true};
ghost use Rattle.base64ct.specs.Encoding.{unpadded_encoding, byte_count, equals_sign, padding_len, decoded_len, EachBelow};

use crate::alphabet::Alphabet;
use crate::blocks::{decode_block, encode_block, put_three};

// The bytes of a last block of less than four characters, and a number that is 0 exactly where the
// block is the characters of these bytes.
fn read_last<A: Alphabet>(rest: &[u8]) -> ([u8; 3], u8)
    requires { length rest.now < 4 }
    ensures len { length result.0 ≡ 3 }
    ensures read { result.1 ≡ 0 → unpadded_encoding A.alphabet (take (byte_count (length rest.now)) result.0) ≡ rest.now }
    ensures accepted { (bytes : List ℕ) → EachBelow 256 bytes → unpadded_encoding A.alphabet bytes ≡ rest.now → result.1 ≡ 0 }
{
    let zero = A::encode_6bits(0);
    match *rest {
        [] => ([0; 3], 0),
        [c, d] => {
            let (bytes, fault) = decode_block::<A>(c, d, zero, zero);
            let again = encode_block::<A>(bytes[0], 0, 0);
            (bytes, fault | (again[0] ^ c) | (again[1] ^ d))
        }
        [c, d, e] => {
            let (bytes, fault) = decode_block::<A>(c, d, e, zero);
            let again = encode_block::<A>(bytes[0], bytes[1], 0);
            (
                bytes,
                fault | (again[0] ^ c) | (again[1] ^ d) | (again[2] ^ e),
            )
        }
        _ => ([0; 3], 1),
    }
}

// Reads `src` as the characters of bytes into the front of `dst`, and tells whether it is such.
pub(crate) fn decode_unpadded<A: Alphabet>(src: &[u8], dst: &mut [u8]) -> bool
    requires { byte_count (length src.now) ≤ length dst.old }
    ensures read { result ≡ true → unpadded_encoding A.alphabet (take (byte_count (length src.now)) dst.new) ≡ src.now }
    ensures accepted { (bytes : List ℕ) → EachBelow 256 bytes → unpadded_encoding A.alphabet bytes ≡ src.now → result ≡ true }
    ensures rest { drop (byte_count (length src.now)) dst.new ≡ drop (byte_count (length src.now)) dst.old }
{
    let blocks = src.len() / 4;
    let mut fault = 0;
    'whole: for block in 0..blocks {
        let i = 4 * block;
        let o = 3 * block;
        let (bytes, wrong) = decode_block::<A>(src[i], src[i + 1], src[i + 2], src[i + 3]);
        put_three(&mut dst[o..o + 3], bytes);
        fault |= wrong;
    }
    let o = 3 * blocks;
    let count = src.len() % 4 * 3 / 4;
    let (bytes, wrong) = read_last::<A>(&src[4 * blocks..]);
    dst[o..o + count].copy_from_slice(&bytes[..count]);
    fault | wrong == 0
}

// The number of `=` among the last two bytes.
pub(crate) fn count_padding(src: &[u8]) -> usize
    ensures { result ≡ count_by (λ c. c == equals_sign) (drop (length src.now - 2) src.now) }
{
    match *src {
        [.., c, d] => usize::from(c == b'=') + usize::from(d == b'='),
        [c] => usize::from(c == b'='),
        [] => 0,
    }
}

// How many bytes at the end are padding.
pub(crate) fn padding_of<A: Alphabet>(src: &[u8]) -> usize
    ensures count { result ≡ padding_len A.alphabet src.now }
    ensures few { result ≤ length src.now }
{
    if A::padded() { count_padding(src) } else { 0 }
}

// How many bytes `count` characters stand for.
pub(crate) fn bytes_of(count: usize) -> usize
    ensures { result ≡ byte_count count }
{
    3 * (count / 4) + 3 * (count % 4) / 4
}

// How many bytes `src` stands for without its padding.
pub(crate) fn count_bytes<A: Alphabet>(src: &[u8]) -> usize
    ensures { result ≡ decoded_len A.alphabet src.now }
{
    bytes_of(src.len() - padding_of::<A>(src))
}
