//! Laws over the definitions.

ghost use Rattle.std.specs.Prelude.{◌≡◌, ◌↔◌, ◌<◌, ◌+◌, ◌*◌, ◌/◌, ◌==◌, ◌++◌, List, ℕ, Option, Some, None, Result, length, position, slice_index, true, false};
ghost use Rattle.base64ct.specs.Blocks.{blocks, IsEncoding, AreGood};
ghost use Rattle.base64ct.specs.Decoding.{decoding};
ghost use Rattle.base64ct.specs.Answers.{IsNoEncoding};
ghost use Rattle.base64ct.specs.Encoding.{Alphabet, encoding, is_alphabet, EachBelow, IsLenient, character, value_of};
ghost use Rattle.std.specs.List.{concat};
ghost use Rattle.base64ct.specs.Blocks.{decoded};
ghost use Rattle.base64ct.specs.Wrapping.{layout, StandsInLines, HoldsOnlyEnds};
ghost use Rattle.base64ct.specs.Encoders.{Encoded};
ghost use Rattle.base64ct.specs.Decoders.{Decoded, left, IsOpened};
ghost use Rattle.base64ct.specs.Runs.{EncodeRun, DecodeRun, slices, IsWide};
ghost use Rattle.base64ct.specs.declared.errors.Error.{Error};
ghost use Rattle.base64ct.specs.Steps.{decoded_by, encoded_by, word_of};

use crate::{CodeTable, Encoding};

/// Two lists of bytes with one encoding are equal.
pub fn encoding_once()
    ensures { (a : Alphabet) (b c : List ℕ) → is_alphabet a ≡ true → EachBelow 256 b → EachBelow 256 c
        → encoding a b ≡ encoding a c → b ≡ c }
{}

/// The decoding of a text is some bytes exactly where the text is their encoding, and none exactly where it
/// is the encoding of no bytes.
pub fn decoding_tells()
    ensures some { (a : Alphabet) (t b : List ℕ) → is_alphabet a ≡ true
        → (decoding a t ≡ Some b) ↔ (EachBelow 256 b × (t ≡ encoding a b)) }
    ensures none { (a : Alphabet) (t : List ℕ) → is_alphabet a ≡ true
        → (decoding a t ≡ None) ↔ IsNoEncoding a t }
{}

/// A text is an encoding exactly where all its blocks are good.
pub fn encoding_by_blocks()
    ensures { (a : Alphabet) (t : List ℕ) → is_alphabet a ≡ true → IsEncoding a t ↔ AreGood a (blocks t) }
{}

/// A lenient text is read as one list of bytes.
pub fn lenient_once()
    ensures { (a : Alphabet) (t b c : List ℕ) → is_alphabet a ≡ true → IsLenient a t b → IsLenient a t c → b ≡ c }
{}

/// The encoding of n bytes has `4 * ceil(n / 3)` characters where it is padded, and `ceil(4 * n / 3)`
/// where not.
pub fn encoding_length()
    ensures padded { (a : Alphabet) (b : List ℕ) → EachBelow 256 b → a.padded ≡ true
        → length (encoding a b) ≡ 4 * ((length b + 2) / 3) }
    ensures unpadded { (a : Alphabet) (b : List ℕ) → EachBelow 256 b → a.padded ≡ false
        → length (encoding a b) ≡ (4 * length b + 2) / 3 }
{}

/// The decoding steps give the value of `c`, or -1 where it is no character.
pub fn decode_steps<E: Encoding>(c: u8)
    ensures { decoded_by E.steps c ≡ word_of (value_of E.alphabet c) }
{
    let _ = c;
}

/// The encoding steps give the character of the value `v`.
pub fn encode_steps<E: Encoding>(v: u8)
    requires { v < 64 }
    ensures { encoded_by E.steps v ≡ character E.alphabet v }
{
    let _ = v;
}

/// A table that spells a value and looks that character up finds the value.
pub fn look_spell<T: CodeTable>()
    ensures { (t : T) (v : ℕ) → v < 64
        → position (λ x. x == slice_index (T.characters t) v) (T.characters t) ≡ Some v }
{}

/// After calls of `encode` that were accepted, the bytes so far are those before them and their inputs,
/// joined; the lines and the length of the buffer stay.
pub fn encoded_in_parts()
    ensures { (a : Alphabet) (old new : Encoded) (inputs : List (List ℕ)) → EncodeRun a old inputs new
        → (new.bytes ≡ old.bytes ++ concat inputs) × (new.format ≡ old.format) × (new.room ≡ old.room) }
{}

/// A text that stands in lines, and whose characters are the encoding of some bytes, is taken apart as
/// these characters, and its decoded whole is the bytes.
pub fn opened_in_lines<E: Encoding>()
    ensures { (text t b : List ℕ) (width : Option ℕ) → IsWide width → StandsInLines text width t → EachBelow 256 b → t ≡ encoding E.alphabet b
        → (HoldsOnlyEnds text → ⊥) × IsOpened E.alphabet (layout text width) t × (decoded E.alphabet t ≡ b) }
{}

/// Over such a text calls of `decode` give consecutive slices of the bytes, whatever their lengths are;
/// only where more is asked than is left they refuse.
pub fn decoded_in_parts<E: Encoding>()
    ensures { (text t b : List ℕ) (width : Option ℕ) → IsWide width → StandsInLines text width t → EachBelow 256 b → t ≡ encoding E.alphabet b
        → (d new : Decoded) (lengths : List ℕ) (answers : List (Result (List ℕ) Error)) → IsOpened E.alphabet (layout text width) d.text → d.read ≡ 0
        → DecodeRun E.alphabet d lengths answers new → answers ≡ slices b lengths }
{}

/// A decoder can be read to its end on such texts alone.
pub fn decoded_to_end<E: Encoding>()
    ensures { (text : List ℕ) (width : Option ℕ) → IsWide width
        → (d new : Decoded) (lengths : List ℕ) (answers : List (Result (List ℕ) Error)) → IsOpened E.alphabet (layout text width) d.text → d.read ≡ 0
        → DecodeRun E.alphabet d lengths answers new → length (left E.alphabet new) ≡ 0
        → StandsInLines text width d.text × IsEncoding E.alphabet d.text }
{}
