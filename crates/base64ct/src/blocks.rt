//! Blocks of three bytes and four characters.

ghost use Rattle.std.specs.Prelude.{◌≡◌, ◌↔◌, ◌<◌, ◌≤◌, ◌+◌, ◌*◌, [], ◌∷◌, true, false, length, MatchOption};
ghost use Rattle.base64ct.specs.Encoding.{groups, whole_bytes, unpadded_encoding, value_of, AreCharacters, EachBelow};

use crate::alphabet::Alphabet;

// The values of three bytes, the high bits first.
#[inline(always)]
pub(crate) fn values_high(a: u8, b: u8, c: u8) -> [u8; 4]
    ensures values { result ≡ groups false (a ∷ b ∷ c ∷ []) }
    ensures small { EachBelow 64 result }
{
    let n = u32::from(a) << 16 | u32::from(b) << 8 | u32::from(c);
    (n >> 18 | (n >> 12 & 63) << 8 | (n >> 6 & 63) << 16 | (n & 63) << 24).to_le_bytes()
}

// The values of three bytes, the low bits first.
#[inline(always)]
pub(crate) fn values_low(a: u8, b: u8, c: u8) -> [u8; 4]
    ensures values { result ≡ groups true (a ∷ b ∷ c ∷ []) }
    ensures small { EachBelow 64 result }
{
    let n = u32::from(c) << 16 | u32::from(b) << 8 | u32::from(a);
    (n & 63 | (n >> 6 & 63) << 8 | (n >> 12 & 63) << 16 | (n >> 18) << 24).to_le_bytes()
}

// The bytes of four values, the high bits first.
#[inline(always)]
pub(crate) fn bytes_high(v: u8, w: u8, x: u8, y: u8) -> [u8; 3]
    requires v { v < 64 }
    requires w { w < 64 }
    requires x { x < 64 }
    requires y { y < 64 }
    ensures { result ≡ whole_bytes false (v ∷ w ∷ x ∷ y ∷ []) }
{
    [v << 2 | w >> 4, w << 4 | x >> 2, x << 6 | y]
}

// The bytes of four values, the low bits first.
#[inline(always)]
pub(crate) fn bytes_low(v: u8, w: u8, x: u8, y: u8) -> [u8; 3]
    requires v { v < 64 }
    requires w { w < 64 }
    requires x { x < 64 }
    requires y { y < 64 }
    ensures { result ≡ whole_bytes true (v ∷ w ∷ x ∷ y ∷ []) }
{
    [v | w << 6, w >> 2 | x << 4, x >> 4 | y << 2]
}

// The number of four values, the first highest.
#[inline(always)]
fn join_values(v: u8, w: u8, x: u8, y: u8) -> u32
    requires v { v < 64 }
    requires w { w < 64 }
    requires x { x < 64 }
    requires y { y < 64 }
    ensures { result ≡ v * 262144 + w * 4096 + x * 64 + y }
{
    u32::from(v) << 18 | u32::from(w) << 12 | u32::from(x) << 6 | u32::from(y)
}

// As `bytes_high`, by one number: LLVM makes vectors of a few blocks of these, which it doesn't of single bytes.
#[inline(always)]
pub(crate) fn joined_high(v: u8, w: u8, x: u8, y: u8) -> [u8; 3]
    requires v { v < 64 }
    requires w { w < 64 }
    requires x { x < 64 }
    requires y { y < 64 }
    ensures { result ≡ whole_bytes false (v ∷ w ∷ x ∷ y ∷ []) }
{
    let n = join_values(v, w, x, y);
    [(n >> 16 & 255) as u8, (n >> 8 & 255) as u8, (n & 255) as u8]
}

// As `bytes_low`, by one number.
#[inline(always)]
pub(crate) fn joined_low(v: u8, w: u8, x: u8, y: u8) -> [u8; 3]
    requires v { v < 64 }
    requires w { w < 64 }
    requires x { x < 64 }
    requires y { y < 64 }
    ensures { result ≡ whole_bytes true (v ∷ w ∷ x ∷ y ∷ []) }
{
    let n = join_values(y, x, w, v);
    [(n & 255) as u8, (n >> 8 & 255) as u8, (n >> 16 & 255) as u8]
}

// The values of three bytes.
#[inline(always)]
pub(crate) fn values<A: Alphabet>(a: u8, b: u8, c: u8) -> [u8; 4]
    ensures values { result ≡ groups A.alphabet.low_first (a ∷ b ∷ c ∷ []) }
    ensures small { EachBelow 64 result }
{
    if A::low_first() {
        values_low(a, b, c)
    } else {
        values_high(a, b, c)
    }
}

/// The characters of three bytes.
#[inline(always)]
pub(crate) fn encode_block<A: Alphabet>(a: u8, b: u8, c: u8) -> [u8; 4]
    ensures { result ≡ unpadded_encoding A.alphabet (a ∷ b ∷ c ∷ []) }
{
    let values = values::<A>(a, b, c);
    [
        A::encode_6bits(values[0]),
        A::encode_6bits(values[1]),
        A::encode_6bits(values[2]),
        A::encode_6bits(values[3]),
    ]
}

// The value of `c`, or a number of at least 64 where it is no character.
#[inline(always)]
fn value_byte<A: Alphabet>(c: u8) -> u8
    ensures { MatchOption (value_of A.alphabet c) (64 ≤ result) (λ v. result ≡ v) }
{
    (A::decode_6bits(c) & 255) as u8
}

// Puts three bytes, one by one: LLVM makes vectors of the loops around it, which it doesn't of a copy of three.
#[inline(always)]
pub(crate) fn put_three(to: &mut [u8], bytes: [u8; 3])
    requires { length to.old ≡ 3 }
    ensures after { to.new ≡ bytes }
{
    to[0] = bytes[0];
    to[1] = bytes[1];
    to[2] = bytes[2];
}

/// The bytes of four characters, and a number that is 0 exactly where all four are characters.
#[inline(always)]
pub(crate) fn decode_block<A: Alphabet>(c: u8, d: u8, e: u8, f: u8) -> ([u8; 3], u8)
    ensures fault { (result.1 ≡ 0) ↔ AreCharacters A.alphabet (c ∷ d ∷ e ∷ f ∷ []) }
    ensures len { length result.0 ≡ 3 }
    ensures small { EachBelow 256 result.0 }
    ensures bytes { result.1 ≡ 0 → unpadded_encoding A.alphabet result.0 ≡ c ∷ d ∷ e ∷ f ∷ [] }
{
    let v = value_byte::<A>(c);
    let w = value_byte::<A>(d);
    let x = value_byte::<A>(e);
    let y = value_byte::<A>(f);
    let fault = (v | w | x | y) >> 6;
    let (v, w, x, y) = (v & 63, w & 63, x & 63, y & 63);
    let bytes = if A::low_first() {
        bytes_low(v, w, x, y)
    } else {
        bytes_high(v, w, x, y)
    };
    (bytes, fault)
}
