//! What decoding and comparing count.

ghost use Rattle.std.specs.Prelude.{◌≡◌, ◌<◌, ◌≤◌, ◌+◌, ◌^◌, ◌==◌, ℕ, List, Ok, Err, Some, None, length, cond, MatchResult};
ghost use Rattle.std.specs.Cmp.Lexicographic.{pointwise};
ghost use Rattle.base64ct.specs.Encoding.{encoding, IsLenient};
ghost use Rattle.base64ct.specs.Decoding.{decoding};
ghost use Rattle.base64ct.specs.Answers.{OnMisaligned, OnNoRoom, OnReadable, OnRoom, IsNoEncoding};
ghost use Rattle.base64ct.specs.Tables.{shaped, Passes};
ghost use Rattle.base64ct.specs.Counts.{look_count, comparison_count, spell_count};

use crate::{CodeTable, Encoding, Error, Shape, decode_with_into};
use std::marker::{Model, PhantomData};
use subtle::{Choice, Counting, SameByte, eq_with};

/// Decodes as [`decode_with_into`], and gives the bytes. What `dst` holds then is told by the clauses of that twin alone.
pub fn decode_with<'d, T: CodeTable, C: SameByte>(
    table: &mut T,
    cmp: &mut C,
    shape: Shape,
    src: &[u8],
    dst: &'d mut [u8],
) -> Result<&'d [u8], Error>
    requires looks { T.looks table.old + length src.now + 5 ≤ 2 ^ 63 }
    requires spells { T.spells table.old + length src.now + 5 ≤ 2 ^ 63 }
    requires sames { C.count cmp.old + length src.now + 5 ≤ 2 ^ 63 }
    ensures misaligned { let a = shaped (T.characters table.old) shape in
        OnMisaligned a src.now (result ≡ Err Error.InvalidEncoding) }
    ensures no_room { let a = shaped (T.characters table.old) shape in
        OnNoRoom a src.now (length dst.old) (result ≡ Err Error.InvalidLength) }
    ensures answer { let a = shaped (T.characters table.old) shape in
        OnReadable a src.now (length dst.old)
        (MatchResult result
        (λ b. IsLenient a src.now b.now × Passes C.related a src.now b.now)
        (λ e. (e ≡ Error.InvalidEncoding)
        × ((b : List ℕ) → IsLenient a src.now b → Passes C.related a src.now b → ⊥))) }
    ensures equal { let a = shaped (T.characters table.old) shape in ((x y : ℕ) → C.related x y ≡ (x == y))
        → OnReadable a src.now (length dst.old)
        (MatchResult result
        (λ b. src.now ≡ encoding a b.now)
        (λ e. (e ≡ Error.InvalidEncoding) × IsNoEncoding a src.now)) }
    ensures decoded { let a = shaped (T.characters table.old) shape in ((x y : ℕ) → C.related x y ≡ (x == y))
        → OnRoom a src.now (length dst.old)
        (MatchResult result
        (λ b. decoding a src.now ≡ Some b.now)
        (λ e. (e ≡ Error.InvalidEncoding) × (decoding a src.now ≡ None))) }
    ensures looks { let a = shaped (T.characters table.old) shape in
        T.looks table.new ≡ T.looks table.old + look_count a src.now (length dst.old) }
    ensures sames { let a = shaped (T.characters table.old) shape in
        C.count cmp.new ≡ C.count cmp.old + comparison_count a src.now (length dst.old) }
    ensures spells { let a = shaped (T.characters table.old) shape in
        T.spells table.new ≡ T.spells table.old + spell_count a src.now (length dst.old) }
    ensures characters { T.characters table.new ≡ T.characters table.old }
{
    let n = decode_with_into(table, cmp, shape, src, dst)?;
    Ok(&dst[..n])
}

/// The table of a type's characters.
#[derive(Clone, Debug, Drop)]
pub struct Counted<E: Encoding> {
    look_count: u64,
    spell_count: u64,
    alphabet: PhantomData<E>,
}

impl<E: Encoding> Model for Counted<E> {
    ghost use Rattle.base64ct.specs.Counts.{TableCounts};

    ghost Value = { TableCounts };

    ghost view = { λ c. record { looks = c.look_count; spells = c.spell_count } };
}

impl<E: Encoding> Counted<E> {
    /// A table that was not asked yet.
    pub fn new() -> Self
        ensures looks { result.looks ≡ 0 }
        ensures spells { result.spells ≡ 0 }
    {
        Counted {
            look_count: 0,
            spell_count: 0,
            alphabet: PhantomData,
        }
    }

    /// How often a character was looked up.
    pub fn looks(&self) -> u64
        ensures { result ≡ self.now.looks }
    {
        self.look_count
    }

    /// How often the character of a value was asked.
    pub fn spells(&self) -> u64
        ensures { result ≡ self.now.spells }
    {
        self.spell_count
    }
}

impl<E: Encoding> CodeTable for Counted<E> {
    ghost characters = { λ _. E.alphabet.characters };

    ghost looks = { λ c. c.looks };

    ghost spells = { λ c. c.spells };

    ghost lawful = { λ _. E.lawful };

    fn look(&mut self, c: u8) -> i16 {
        self.look_count += 1;
        E::decode_6bits(c)
    }

    fn spell(&mut self, v: u8) -> u8 {
        self.spell_count += 1;
        E::encode_6bits(v)
    }
}

/// How often characters were looked up and bytes were compared, over several calls.
///
/// [`Counts::decode`] and [`Counts::same_bytes`] alone raise the two numbers.
#[derive(Clone, Debug, Drop)]
pub struct Counts {
    looks: u64,
    sames: u64,
}

impl Model for Counts {
    ghost use Rattle.base64ct.specs.Counts.{Counters};

    ghost Value = { Counters };

    ghost view = { λ c. record { looks = c.looks; sames = c.sames } };

    ghost inverse = { λ c. record { looks = c.looks; sames = c.sames } };
}

impl Counts {
    /// Both numbers are 0.
    pub fn new() -> Counts
        ensures looks { result.looks ≡ 0 }
        ensures sames { result.sames ≡ 0 }
    {
        Counts { looks: 0, sames: 0 }
    }

    /// The look-ups.
    pub fn looks(&self) -> u64
        ensures { result ≡ self.now.looks }
    {
        self.looks
    }

    /// The comparisons.
    pub fn sames(&self) -> u64
        ensures { result ≡ self.now.sames }
    {
        self.sames
    }

    /// Whether the lists are equal. Lists of one length are compared to their end.
    pub fn same_bytes(&mut self, a: &[u8], b: &[u8]) -> Choice
        requires { self.old.sames + length a.now ≤ 2 ^ 63 }
        ensures answer { result ≡ pointwise ◌==◌ a.now b.now }
        ensures sames { self.new.sames ≡ self.old.sames + cond (length a.now == length b.now) (length a.now) 0 }
        ensures looks { self.new.looks ≡ self.old.looks }
    {
        let mut c = Counting::new();
        let answer = eq_with(&mut c, a, b);
        self.sames += c.count();
        answer
    }

    /// Answers as [`Encoding::decode`] of `E`, by [`decode_with`] with a table and a test of its own. No clause tells what
    /// `dst` holds then.
    pub fn decode<'d, E: Encoding>(
        &mut self,
        src: &[u8],
        dst: &'d mut [u8],
    ) -> Result<&'d [u8], Error>
        requires looks { self.old.looks + length src.now + 5 ≤ 2 ^ 63 }
        requires sames { self.old.sames + length src.now + 5 ≤ 2 ^ 63 }
        ensures misaligned { OnMisaligned E.alphabet src.now (result ≡ Err Error.InvalidEncoding) }
        ensures no_room { OnNoRoom E.alphabet src.now (length dst.old) (result ≡ Err Error.InvalidLength) }
        ensures answer { OnReadable E.alphabet src.now (length dst.old)
            (MatchResult result (λ b. src.now ≡ encoding E.alphabet b.now)
            (λ e. (e ≡ Error.InvalidEncoding) × IsNoEncoding E.alphabet src.now)) }
        ensures decoded { OnRoom E.alphabet src.now (length dst.old)
            (MatchResult result (λ b. decoding E.alphabet src.now ≡ Some b.now)
            (λ e. (e ≡ Error.InvalidEncoding) × (decoding E.alphabet src.now ≡ None))) }
        ensures looks { self.new.looks ≡ self.old.looks + look_count E.alphabet src.now (length dst.old) }
        ensures sames { self.new.sames ≡ self.old.sames + comparison_count E.alphabet src.now (length dst.old) }
    {
        let mut table = Counted::<E>::new();
        let mut cmp = Counting::new();
        let shape = Shape {
            padded: E::padded(),
            low_first: E::low_first(),
        };
        let answer = decode_with(&mut table, &mut cmp, shape, src, dst);
        self.looks += table.looks();
        self.sames += cmp.count();
        answer
    }
}
