//! Decoding within one buffer.

ghost use Rattle.std.specs.Prelude.{◌≡◌, ◌≢◌, ◌<◌, ◌≤◌, ◌%◌, List, ℕ, length, take, true, MatchResult, IfOk};
ghost use Rattle.base64ct.specs.Encoding.{byte_count, EachBelow, AreCharacters, Reads, IsLenient};

use crate::InvalidEncodingError;
use crate::alphabet::Alphabet;
use crate::blocks::{decode_block, put_three};
use crate::decode::{bytes_of, padding_of};

// The bytes of a last block of less than four characters, whatever bits are left over, and a number
// that is 0 exactly where it does not have one character and all of it is characters.
fn read_rest<A: Alphabet>(rest: &[u8]) -> ([u8; 3], u8)
    requires { length rest.now < 4 }
    ensures len { length result.0 ≡ 3 }
    ensures read { result.1 ≡ 0 → ((values : List ℕ) × Reads A.alphabet rest.now values (take (byte_count (length rest.now)) result.0)) }
    ensures accepted { length rest.now ≢ 1 → AreCharacters A.alphabet rest.now → result.1 ≡ 0 }
{
    let zero = A::encode_6bits(0);
    match *rest {
        [] => ([0; 3], 0),
        [c, d] => decode_block::<A>(c, d, zero, zero),
        [c, d, e] => decode_block::<A>(c, d, e, zero),
        _ => ([0; 3], 1),
    }
}

// Reads the first `count` bytes of `buf` as characters, into its front, and tells whether they are such.
pub(crate) fn read_in_place<A: Alphabet>(buf: &mut [u8], count: usize) -> bool
    requires { count ≤ length buf.old }
    ensures read { result ≡ true → ((values : List ℕ) × Reads A.alphabet (take count buf.old) values (take (byte_count count) buf.new)) }
    ensures accepted { count % 4 ≢ 1 → AreCharacters A.alphabet (take count buf.old) → result ≡ true }
{
    let blocks = count / 4;
    let mut fault = 0;
    'whole: for block in 0..blocks {
        let i = 4 * block;
        let o = 3 * block;
        let (bytes, wrong) = decode_block::<A>(buf[i], buf[i + 1], buf[i + 2], buf[i + 3]);
        put_three(&mut buf[o..o + 3], bytes);
        fault |= wrong;
    }
    let o = 3 * blocks;
    let rest = count % 4 * 3 / 4;
    let (bytes, wrong) = read_rest::<A>(&buf[4 * blocks..count]);
    buf[o..o + rest].copy_from_slice(&bytes[..rest]);
    fault | wrong == 0
}

// Decodes a lenient text within its buffer, and tells how many bytes there are.
pub(crate) fn decode_within<A: Alphabet>(buf: &mut [u8]) -> Result<usize, InvalidEncodingError>
    ensures fits { IfOk result (λ n. n ≤ length buf.new) }
    ensures answer { MatchResult result (λ n. IsLenient A.alphabet buf.old (take n buf.new))
        (λ _. (b : List ℕ) → IsLenient A.alphabet buf.old b → ⊥) }
{
    if A::padded() && buf.len() % 4 != 0 {
        return Err(InvalidEncodingError);
    }
    let count = buf.len() - padding_of::<A>(buf);
    if read_in_place::<A>(buf, count) {
        Ok(bytes_of(count))
    } else {
        Err(InvalidEncodingError)
    }
}
