//! Decoding by a table of characters and a test of two bytes, which count how often they are asked.

ghost use Rattle.std.specs.Prelude.{◌≡◌, ◌≢◌, ◌↔◌, ◌<◌, ◌≤◌, ◌+◌, ◌*◌, ◌/◌, ◌%◌, ◌^◌, ◌==◌, ◌&&◌, ◌++◌, ◌-◌, [], ◌∷◌, ℕ, List, Ok, Err, Some, None, true, length, take, drop, replicate, slice_index, position, MatchOption, MatchResult, IfOk, pos, negsuc, cond};
ghost use Rattle.std.specs.Cmp.Lexicographic.{pointwise};
ghost use Rattle.base64ct.specs.Encoding.{character, unpadded_encoding, byte_count, encoding, padding_len, decoded_len, AreCharacters, EachBelow, Reads, IsLenient};
ghost use Rattle.base64ct.specs.Decoding.{decoding};
ghost use Rattle.base64ct.specs.Answers.{OnMisaligned, OnNoRoom, OnReadable, OnRoom, IsNoEncoding};
ghost use Rattle.base64ct.specs.Tables.{is_table, shaped, filled, Passes};
ghost use Rattle.base64ct.specs.Counts.{look_count, comparison_count, spell_count};

use crate::Error;
use crate::blocks::{joined_high, joined_low, put_three, values_high, values_low};
use crate::decode::{bytes_of, count_padding};
use subtle::{Choice, SameByte};

/// How texts are made of the characters of a [`CodeTable`].
#[derive(Clone, Copy, Debug, PartialEq, Eq, Drop)]
pub struct Shape {
    /// Whether `=` fills a text up to a multiple of four characters.
    pub padded: bool,
    /// Whether the low bits of each byte are taken first.
    pub low_first: bool,
}

/// A table of 64 characters that counts how often it is asked.
pub trait CodeTable {
    /// Its characters, the first that of the value 0.
    ghost characters: { Self → List ℕ };

    /// How often a character was looked up.
    ghost looks: { Self → ℕ };

    /// How often the character of a value was asked.
    ghost spells: { Self → ℕ };

    /// The value of `c`, or -1 where it is no character.
    fn look(&mut self, c: u8) -> i16
        requires { looks self.old < 2 ^ 63 }
        ensures value { MatchOption (position (λ x. x == c) (characters self.old)) (result ≡ negsuc 0) (λ v. result ≡ pos v) }
        ensures looks { looks self.new ≡ looks self.old + 1 }
        ensures spells { spells self.new ≡ spells self.old }
        ensures characters { characters self.new ≡ characters self.old };

    /// The character of `v`.
    fn spell(&mut self, v: u8) -> u8
        requires value { v < 64 }
        requires spells { spells self.old < 2 ^ 63 }
        ensures character { result ≡ slice_index (characters self.old) v }
        ensures spells { spells self.new ≡ spells self.old + 1 }
        ensures looks { looks self.new ≡ looks self.old }
        ensures characters { characters self.new ≡ characters self.old };

    /// The characters are 64 different ones, and `=` is none of them.
    ghost lawful: { (t : Self) → is_table (characters t) ≡ true };
}

// The value of `c`, or a number of at least 64 where it is no character.
#[inline(always)]
fn table_value<T: CodeTable>(table: &mut T, c: u8) -> u8
    requires { T.looks table.old < 2 ^ 63 }
    ensures value { MatchOption (position (λ x. x == c) (T.characters table.old)) (64 ≤ result) (λ v. result ≡ v) }
    ensures looks { T.looks table.new ≡ T.looks table.old + 1 }
    ensures spells { T.spells table.new ≡ T.spells table.old }
    ensures characters { T.characters table.new ≡ T.characters table.old }
{
    (table.look(c) & 255) as u8
}

// The bytes of four characters, and a number that is 0 exactly where all four are characters.
#[inline(always)]
fn decode_four<T: CodeTable>(
    table: &mut T,
    shape: Shape,
    c: u8,
    d: u8,
    e: u8,
    f: u8,
) -> ([u8; 3], u8)
    requires { T.looks table.old + 4 ≤ 2 ^ 63 }
    ensures fault { (result.1 ≡ 0) ↔ AreCharacters (shaped (T.characters table.old) shape) (c ∷ d ∷ e ∷ f ∷ []) }
    ensures len { length result.0 ≡ 3 }
    ensures small { EachBelow 256 result.0 }
    ensures bytes { result.1 ≡ 0 → unpadded_encoding (shaped (T.characters table.old) shape) result.0 ≡ c ∷ d ∷ e ∷ f ∷ [] }
    ensures looks { T.looks table.new ≡ T.looks table.old + 4 }
    ensures spells { T.spells table.new ≡ T.spells table.old }
    ensures characters { T.characters table.new ≡ T.characters table.old }
{
    let v = table_value(table, c);
    let w = table_value(table, d);
    let x = table_value(table, e);
    let y = table_value(table, f);
    let fault = (v | w | x | y) >> 6;
    let (v, w, x, y) = (v & 63, w & 63, x & 63, y & 63);
    let bytes = if shape.low_first {
        joined_low(v, w, x, y)
    } else {
        joined_high(v, w, x, y)
    };
    (bytes, fault)
}

// The characters of three bytes.
#[inline(always)]
fn encode_four<T: CodeTable>(table: &mut T, shape: Shape, a: u8, b: u8, c: u8) -> [u8; 4]
    requires { T.spells table.old + 4 ≤ 2 ^ 63 }
    ensures written { result ≡ unpadded_encoding (shaped (T.characters table.old) shape) (a ∷ b ∷ c ∷ []) }
    ensures looks { T.looks table.new ≡ T.looks table.old }
    ensures spells { T.spells table.new ≡ T.spells table.old + 4 }
    ensures characters { T.characters table.new ≡ T.characters table.old }
{
    let values = if shape.low_first {
        values_low(a, b, c)
    } else {
        values_high(a, b, c)
    };
    [
        table.spell(values[0]),
        table.spell(values[1]),
        table.spell(values[2]),
        table.spell(values[3]),
    ]
}

// The bytes of a last block of less than four characters, filled up, and a number that is 0 exactly
// where the block does not have one character and all of it is characters.
#[inline(always)]
fn read_filled<T: CodeTable>(table: &mut T, shape: Shape, zero: u8, rest: &[u8]) -> ([u8; 3], u8)
    requires short { length rest.now < 4 }
    requires looks { T.looks table.old + 4 ≤ 2 ^ 63 }
    requires zero { zero ≡ slice_index (T.characters table.old) 0 }
    ensures len { length result.0 ≡ 3 }
    ensures read { result.1 ≡ 0 → ((values : List ℕ) × Reads (shaped (T.characters table.old) shape) rest.now values (take (byte_count (length rest.now)) result.0)) }
    ensures accepted { length rest.now ≢ 1 → AreCharacters (shaped (T.characters table.old) shape) rest.now → result.1 ≡ 0 }
    ensures looks { T.looks table.new ≡ T.looks table.old + 4 }
    ensures spells { T.spells table.new ≡ T.spells table.old }
    ensures characters { T.characters table.new ≡ T.characters table.old }
{
    match *rest {
        [] => decode_four(table, shape, zero, zero, zero, zero),
        [c, d] => decode_four(table, shape, c, d, zero, zero),
        [c, d, e] => decode_four(table, shape, c, d, e, zero),
        _ => {
            let (bytes, _) = decode_four(table, shape, rest[0], zero, zero, zero);
            (bytes, 1)
        }
    }
}

// Reads the blocks of `src` that stand in whole pairs, so that LLVM makes vectors of eight characters, and gives a
// number that is 0 exactly where they are characters.
#[inline(always)]
fn read_pairs<T: CodeTable>(table: &mut T, shape: Shape, src: &[u8], dst: &mut [u8]) -> u8
    requires room { byte_count (length src.now) ≤ length dst.old }
    requires looks { T.looks table.old + length src.now ≤ 2 ^ 63 }
    ensures read { result ≡ 0 → unpadded_encoding (shaped (T.characters table.old) shape) (take (3 * (2 * (length src.now / 8))) dst.new) ≡ take (4 * (2 * (length src.now / 8))) src.now }
    ensures accepted { AreCharacters (shaped (T.characters table.old) shape) src.now → result ≡ 0 }
    ensures rest { drop (3 * (2 * (length src.now / 8))) dst.new ≡ drop (3 * (2 * (length src.now / 8))) dst.old }
    ensures looks { T.looks table.new ≡ T.looks table.old + 4 * (2 * (length src.now / 8)) }
    ensures spells { T.spells table.new ≡ T.spells table.old }
    ensures characters { T.characters table.new ≡ T.characters table.old }
{
    let mut fault = 0;
    'pairs: for pair in 0..src.len() / 8 {
        let first = 2 * pair;
        let i = 4 * first;
        let (bytes, first_fault) = decode_four(
            table,
            shape,
            src[i],
            src[i + 1],
            src[i + 2],
            src[i + 3],
        );
        let second = first + 1;
        let i = 4 * second;
        let (next_bytes, second_fault) = decode_four(
            table,
            shape,
            src[i],
            src[i + 1],
            src[i + 2],
            src[i + 3],
        );
        put_three(&mut dst[3 * first..3 * first + 3], bytes);
        put_three(&mut dst[3 * second..3 * second + 3], next_bytes);
        fault = fault | first_fault | second_fault;
    }
    fault
}

// Reads `src` as characters into the front of `dst`, and gives a number that is 0 exactly where they are such.
#[inline(always)]
fn read_stem<T: CodeTable>(table: &mut T, shape: Shape, zero: u8, src: &[u8], dst: &mut [u8]) -> u8
    requires room { byte_count (length src.now) ≤ length dst.old }
    requires looks { T.looks table.old + length src.now + 4 ≤ 2 ^ 63 }
    requires zero { zero ≡ slice_index (T.characters table.old) 0 }
    ensures read { result ≡ 0 → ((values : List ℕ) × Reads (shaped (T.characters table.old) shape) src.now values (take (byte_count (length src.now)) dst.new)) }
    ensures accepted { length src.now % 4 ≢ 1 → AreCharacters (shaped (T.characters table.old) shape) src.now → result ≡ 0 }
    ensures bytes { EachBelow 256 dst.new }
    ensures rest { drop (byte_count (length src.now)) dst.new ≡ drop (byte_count (length src.now)) dst.old }
    ensures looks { T.looks table.new ≡ T.looks table.old + (4 * (length src.now / 4) + 4) }
    ensures spells { T.spells table.new ≡ T.spells table.old }
    ensures characters { T.characters table.new ≡ T.characters table.old }
{
    let blocks = src.len() / 4;
    let mut fault = read_pairs(table, shape, src, dst);
    'whole: for block in 2 * (src.len() / 8)..blocks {
        let i = 4 * block;
        let o = 3 * block;
        let (bytes, wrong) = decode_four(table, shape, src[i], src[i + 1], src[i + 2], src[i + 3]);
        put_three(&mut dst[o..o + 3], bytes);
        fault |= wrong;
    }
    let o = 3 * blocks;
    let count = src.len() % 4 * 3 / 4;
    let (bytes, wrong) = read_filled(table, shape, zero, &src[4 * blocks..]);
    dst[o..o + count].copy_from_slice(&bytes[..count]);
    fault | wrong
}

// The characters of a block, filled up to four with the character of 0.
#[inline(always)]
fn fill_characters(last: &[u8], zero: u8) -> [u8; 4]
    requires some { 1 ≤ length last.now }
    requires few { length last.now ≤ 4 }
    ensures { result ≡ last.now ++ replicate (4 - length last.now) zero }
{
    match *last {
        [p, q, r, s] => [p, q, r, s],
        [p, q, r] => [p, q, r, zero],
        [p, q] => [p, q, zero, zero],
        _ => [last[0], zero, zero, zero],
    }
}

// The bytes of a block, filled up to three with zeros.
#[inline(always)]
fn fill_bytes(bytes: &[u8]) -> [u8; 3]
    requires { length bytes.now ≤ 3 }
    ensures { result ≡ bytes.now ++ replicate (3 - length bytes.now) 0 }
{
    match *bytes {
        [a, b, c] => [a, b, c],
        [a, b] => [a, b, 0],
        [a] => [a, 0, 0],
        _ => [0, 0, 0],
    }
}

// Whether the characters of a last block are related to those of its bytes, both filled up to four.
#[inline(always)]
fn compare_last<T: CodeTable, C: SameByte>(
    table: &mut T,
    cmp: &mut C,
    shape: Shape,
    zero: u8,
    last: &[u8],
    bytes: &[u8],
) -> Choice
    requires some { 1 ≤ length last.now }
    requires few { length last.now ≤ 4 }
    requires bytes { length bytes.now ≡ 3 * length last.now / 4 }
    requires spells { T.spells table.old + 4 ≤ 2 ^ 63 }
    requires sames { C.count cmp.old + 4 ≤ 2 ^ 63 }
    requires zero { zero ≡ slice_index (T.characters table.old) 0 }
    ensures answer { length last.now ≢ 1 → let a = shaped (T.characters table.old) shape in result ≡ pointwise C.related (filled a last.now) (filled a (unpadded_encoding a bytes.now)) }
    ensures sames { C.count cmp.new ≡ C.count cmp.old + 4 }
    ensures looks { T.looks table.new ≡ T.looks table.old }
    ensures spells { T.spells table.new ≡ T.spells table.old + 4 }
    ensures characters { T.characters table.new ≡ T.characters table.old }
{
    let block = fill_characters(last, zero);
    let whole = fill_bytes(bytes);
    let again = encode_four(table, shape, whole[0], whole[1], whole[2]);
    let first = cmp.same(block[0], again[0]);
    let second = cmp.same(block[1], again[1]);
    let third = cmp.same(block[2], again[2]);
    let fourth = cmp.same(block[3], again[3]);
    first & second & third & fourth
}

// How many bytes at the end are padding.
#[inline(always)]
fn padding_under(shape: Shape, src: &[u8]) -> usize
    ensures count { result ≡ padding_len (shaped [] shape) src.now }
    ensures few { result ≤ length src.now }
{
    if shape.padded { count_padding(src) } else { 0 }
}

// Whether the last block of `stem` is related to that of its bytes; of no characters none is compared.
#[inline(always)]
fn compare_stem<T: CodeTable, C: SameByte>(
    table: &mut T,
    cmp: &mut C,
    shape: Shape,
    zero: u8,
    stem: &[u8],
    bytes: &[u8],
) -> Choice
    requires bytes { length bytes.now ≡ byte_count (length stem.now) }
    requires spells { T.spells table.old + 4 ≤ 2 ^ 63 }
    requires sames { C.count cmp.old + 4 ≤ 2 ^ 63 }
    requires zero { zero ≡ slice_index (T.characters table.old) 0 }
    ensures answer { length stem.now ≢ 0 → length stem.now % 4 ≢ 1
        → let a = shaped (T.characters table.old) shape in
        result ≡ pointwise C.related (filled a (drop (4 * ((length stem.now - 1) / 4)) stem.now))
        (filled a (unpadded_encoding a (drop (3 * ((length stem.now - 1) / 4)) bytes.now))) }
    ensures empty { length stem.now ≡ 0 → result ≡ true }
    ensures sames { C.count cmp.new ≡ C.count cmp.old + cond (length stem.now == 0) 0 4 }
    ensures looks { T.looks table.new ≡ T.looks table.old }
    ensures spells { T.spells table.new ≡ T.spells table.old + cond (length stem.now == 0) 0 4 }
    ensures characters { T.characters table.new ≡ T.characters table.old }
{
    if stem.is_empty() {
        return Choice::from_u8(1);
    }
    let fours = (stem.len() - 1) / 4;
    compare_last(
        table,
        cmp,
        shape,
        zero,
        &stem[4 * fours..],
        &bytes[3 * fours..],
    )
}

// Whether `fault` is 0 and the comparison passed. Both are looked at as one number, so that no branch tells
// which of the two it was.
#[inline(always)]
fn is_faultless(fault: u8, passed: Choice) -> bool
    ensures { result ≡ ((fault == 0) && passed) }
{
    let differs = !passed;
    fault | differs.unwrap_u8() == 0
}

/// Decodes `src` into the front of `dst` by the characters of `table`, and tells how many bytes there
/// are.
///
/// The refusals before reading are those of [`Encoding::decode`](crate::Encoding::decode). Then the text
/// is read whatever bits are left over at its end, and its last block of four characters, filled up by
/// the character of 0, is compared by `cmp` with the encoding of its bytes: so where `cmp` is equality
/// the answer is that of `decode`. How often `table` and `cmp` are asked is told by the lengths of the
/// text and the buffer and by how many `=` stand at the end of a padded text, and not by other characters.
pub fn decode_with_into<T: CodeTable, C: SameByte>(
    table: &mut T,
    cmp: &mut C,
    shape: Shape,
    src: &[u8],
    dst: &mut [u8],
) -> Result<usize, Error>
    requires looks { T.looks table.old + length src.now + 5 ≤ 2 ^ 63 }
    requires spells { T.spells table.old + length src.now + 5 ≤ 2 ^ 63 }
    requires sames { C.count cmp.old + length src.now + 5 ≤ 2 ^ 63 }
    ensures misaligned { let a = shaped (T.characters table.old) shape in
        OnMisaligned a src.now ((result ≡ Err Error.InvalidEncoding) × (dst.new ≡ dst.old)) }
    ensures no_room { let a = shaped (T.characters table.old) shape in
        OnNoRoom a src.now (length dst.old) ((result ≡ Err Error.InvalidLength) × (dst.new ≡ dst.old)) }
    ensures answer { let a = shaped (T.characters table.old) shape in
        OnReadable a src.now (length dst.old)
        (MatchResult result
        (λ n. (n ≡ decoded_len a src.now) × IsLenient a src.now (take n dst.new) × Passes C.related a src.now (take n dst.new))
        (λ e. (e ≡ Error.InvalidEncoding)
        × ((b : List ℕ) → IsLenient a src.now b → Passes C.related a src.now b → ⊥))) }
    ensures equal { let a = shaped (T.characters table.old) shape in ((x y : ℕ) → C.related x y ≡ (x == y))
        → OnReadable a src.now (length dst.old)
        (MatchResult result
        (λ n. src.now ≡ encoding a (take n dst.new))
        (λ e. (e ≡ Error.InvalidEncoding) × IsNoEncoding a src.now)) }
    ensures decoded { let a = shaped (T.characters table.old) shape in ((x y : ℕ) → C.related x y ≡ (x == y))
        → OnRoom a src.now (length dst.old)
        (MatchResult result
        (λ n. decoding a src.now ≡ Some (take n dst.new))
        (λ e. (e ≡ Error.InvalidEncoding) × (decoding a src.now ≡ None))) }
    ensures fits { IfOk result (λ n. n ≤ length dst.old) }
    ensures rest { let n = decoded_len (shaped (T.characters table.old) shape) src.now in
        drop n dst.new ≡ drop n dst.old }
    ensures looks { let a = shaped (T.characters table.old) shape in
        T.looks table.new ≡ T.looks table.old + look_count a src.now (length dst.old) }
    ensures sames { let a = shaped (T.characters table.old) shape in
        C.count cmp.new ≡ C.count cmp.old + comparison_count a src.now (length dst.old) }
    ensures spells { let a = shaped (T.characters table.old) shape in
        T.spells table.new ≡ T.spells table.old + spell_count a src.now (length dst.old) }
    ensures characters { T.characters table.new ≡ T.characters table.old }
{
    if shape.padded && src.len() % 4 != 0 {
        return Err(Error::InvalidEncoding);
    }
    let padding = padding_under(shape, src);
    let stem = &src[..src.len() - padding];
    let len = bytes_of(stem.len());
    if dst.len() < len {
        return Err(Error::InvalidLength);
    }
    let zero = table.spell(0);
    let fault = read_stem(table, shape, zero, stem, dst);
    let passed = compare_stem(table, cmp, shape, zero, stem, &dst[..len]);
    if is_faultless(fault, passed) {
        Ok(len)
    } else {
        Err(Error::InvalidEncoding)
    }
}
