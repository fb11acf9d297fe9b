//! Encoding and decoding of whole texts.

ghost use Rattle.std.specs.Prelude.{◌≡◌, ◌↔◌, ◌⊎◌, ◌<◌, ◌≤◌, ◌++◌, ℕ, List, Ok, Err, Some, None, length, take, drop, IsErr, IfOk, OnErr, MatchResult, string_bytes};
ghost use Rattle.std.specs.Borrow.{sem, Array, u8 as byte};
ghost use Rattle.std.specs.Io.BufRead.{Rests};
ghost use Rattle.base64ct.specs.Encoding.{encoding, decoded_len, longest_input, IsLenient};
ghost use Rattle.base64ct.specs.Decoding.{decoding};
ghost use Rattle.base64ct.specs.Answers.{OnMisaligned, OnNoRoom, OnReadable, OnRoom, IsNoEncoding};

use crate::alphabet::Alphabet;
use crate::decode::{bytes_of, count_bytes, decode_unpadded, padding_of};
use crate::encode::{encode_padded, encoding_lens};
use crate::in_place::decode_within;
use crate::lent::{fill_decoded, fill_encoded, finish_decoded, finish_encoded};
use crate::{DecodeVecError, Error, InvalidEncodingError, InvalidLengthError};
use std::alloc::{AllocError, Global};

/// An alphabet in which bytes are encoded as text (RFC 4648, sections 3 to 5).
///
/// The bits of the bytes are taken in groups of six, the last group filled up with zeros, and each group
/// becomes one character. No body here branches on a character or a byte, or reads a table at a place that
/// one of them names; a text is looked at as a whole, at its end.
pub trait Encoding: Copy + Alphabet {
    /// Decodes `src` into the front of `dst`, and gives that part.
    ///
    /// It refuses in this order:
    /// 1. `InvalidEncoding`, where the alphabet is padded and the length of `src` is no multiple of 4;
    /// 2. `InvalidLength`, where `dst` is shorter than the bytes that `src` stands for without its padding;
    /// 3. `InvalidEncoding`, where `src` is the encoding of no bytes: a character is outside the alphabet,
    ///    bits that are left over are not zero, the padding is wrong, or one character stands alone.
    ///
    /// After 1 and 2 `dst` is unchanged; after 3 its first bytes, as many as `src` stands for, are not
    /// stated. What stands behind them never changes.
    final fn decode<'d>(src: &[u8], dst: &'d mut [u8]) -> Result<&'d [u8], Error>
        ensures* buffer { sem 𝓛 (Rests (Array byte 0) dst.entry (λ new.
            (drop (decoded_len Self.alphabet src.now) new ≡ drop (decoded_len Self.alphabet src.now) dst.old)
            × OnMisaligned Self.alphabet src.now (new ≡ dst.old)
            × OnNoRoom Self.alphabet src.now (length dst.old) (new ≡ dst.old)
            × IfOk result (λ b. b.now ≡ take (length b.now) new))) }
        ensures misaligned { OnMisaligned Self.alphabet src.now (result ≡ Err Error.InvalidEncoding) }
        ensures no_room { OnNoRoom Self.alphabet src.now (length dst.old) (result ≡ Err Error.InvalidLength) }
        ensures answer { OnReadable Self.alphabet src.now (length dst.old)
            (MatchResult result (λ b. src.now ≡ encoding Self.alphabet b.now)
            (λ e. (e ≡ Error.InvalidEncoding) × IsNoEncoding Self.alphabet src.now)) }
        ensures decoded { OnRoom Self.alphabet src.now (length dst.old)
            (MatchResult result (λ b. decoding Self.alphabet src.now ≡ Some b.now)
            (λ e. (e ≡ Error.InvalidEncoding) × (decoding Self.alphabet src.now ≡ None))) }
    {
        finish_decoded(fill_decoded::<Self>(src, dst))
    }

    /// Decodes as [`decode`](Encoding::decode), and tells how many bytes there are. Its clauses on `dst`
    /// serve callers that read their buffer again.
    final fn decode_into(src: &[u8], dst: &mut [u8]) -> Result<usize, Error>
        ensures misaligned { OnMisaligned Self.alphabet src.now
            ((result ≡ Err Error.InvalidEncoding) × (dst.new ≡ dst.old)) }
        ensures no_room { OnNoRoom Self.alphabet src.now (length dst.old)
            ((result ≡ Err Error.InvalidLength) × (dst.new ≡ dst.old)) }
        ensures answer { OnReadable Self.alphabet src.now (length dst.old)
            (MatchResult result
            (λ n. (n ≡ decoded_len Self.alphabet src.now) × (src.now ≡ encoding Self.alphabet (take n dst.new)))
            (λ e. (e ≡ Error.InvalidEncoding) × IsNoEncoding Self.alphabet src.now)) }
        ensures decoded { OnRoom Self.alphabet src.now (length dst.old)
            (MatchResult result
            (λ n. (n ≡ decoded_len Self.alphabet src.now) × (n ≤ length dst.old)
            × (decoding Self.alphabet src.now ≡ Some (take n dst.new)))
            (λ e. (e ≡ Error.InvalidEncoding) × (decoding Self.alphabet src.now ≡ None))) }
        ensures rest { drop (decoded_len Self.alphabet src.now) dst.new
            ≡ drop (decoded_len Self.alphabet src.now) dst.old }
    {
        if Self::padded() && src.len() % 4 != 0 {
            return Err(Error::InvalidEncoding);
        }
        let padding = padding_of::<Self>(src);
        let stem = &src[..src.len() - padding];
        let len = bytes_of(stem.len());
        if dst.len() < len {
            return Err(Error::InvalidLength);
        }
        if decode_unpadded::<Self>(stem, dst) {
            Ok(len)
        } else {
            Err(Error::InvalidEncoding)
        }
    }

    /// Decodes the text in `buf` within it, whatever bits are left over at its end, and gives the bytes. All
    /// characters have to be in the alphabet, no one may stand alone, and the padding has to be exact. No
    /// clause tells what `buf` holds then; a test compares its front.
    final fn decode_in_place(buf: &mut [u8]) -> Result<&[u8], InvalidEncodingError>
        ensures { MatchResult result (λ b. IsLenient Self.alphabet buf.old b.now)
            (λ _. (b : List ℕ) → IsLenient Self.alphabet buf.old b → ⊥) }
    {
        let n = decode_within::<Self>(buf)?;
        Ok(&buf[..n])
    }

    /// The bytes whose encoding `input` is, in a new vector. `OutOfMemory` may come in place of them.
    final fn decode_vec(alloc: Global, input: &str) -> Result<Vec<u8>, DecodeVecError>
        ensures answer { MatchResult result (λ b. input.now ≡ encoding Self.alphabet b.items)
            (λ e. e ≡ DecodeVecError.InvalidEncoding
            → IsNoEncoding Self.alphabet input.now) }
        ensures decoded { MatchResult result (λ b. decoding Self.alphabet input.now ≡ Some b.items)
            (λ e. e ≡ DecodeVecError.InvalidEncoding → decoding Self.alphabet input.now ≡ None) }
    {
        let src = input.as_bytes();
        let mut out = vec![in alloc; 0u8; count_bytes::<Self>(src)]?;
        match Self::decode_into(src, &mut out) {
            Ok(_) => Ok(out),
            Err(_) => Err(DecodeVecError::InvalidEncoding),
        }
    }

    /// Writes the encoding of `src` at the front of `dst`, and gives that part. It refuses where `dst` is
    /// too short, or where `src` has more than `usize::MAX / 4` bytes; then `dst` is unchanged.
    final fn encode<'a>(src: &[u8], dst: &'a mut [u8]) -> Result<&'a str, InvalidLengthError>
        ensures* buffer { sem 𝓛 (Rests (Array byte 0) dst.entry (λ new.
            IfOk result (λ t. new ≡ t.now ++ drop (length t.now) dst.old) × OnErr result (new ≡ dst.old))) }
        ensures refused { IsErr result
            ↔ ((longest_input < length src.now) ⊎ (length dst.old < length (encoding Self.alphabet src.now))) }
        ensures written { IfOk result (λ t. t.now ≡ encoding Self.alphabet src.now) }
    {
        finish_encoded(fill_encoded::<Self>(src, dst))
    }

    /// Encodes as [`encode`](Encoding::encode), and tells the length of the text. Its clauses on `dst`
    /// serve callers that read their buffer again.
    final fn encode_into(src: &[u8], dst: &mut [u8]) -> Result<usize, InvalidLengthError>
        ensures refused { IsErr result
            ↔ ((longest_input < length src.now) ⊎ (length dst.old < length (encoding Self.alphabet src.now))) }
        ensures written { IfOk result (λ n. (n ≡ length (encoding Self.alphabet src.now)) × (n ≤ length dst.old)
            × (dst.new ≡ encoding Self.alphabet src.now ++ drop n dst.old)) }
        ensures unchanged { OnErr result (dst.new ≡ dst.old) }
    {
        if src.len() > usize::MAX / 4 {
            return Err(InvalidLengthError);
        }
        let (count, padding) = encoding_lens::<Self>(src);
        if dst.len() < count + padding {
            return Err(InvalidLengthError);
        }
        encode_padded::<Self>(src, dst, count, padding);
        Ok(count + padding)
    }

    /// The encoding of `input`, of at most `usize::MAX / 4` bytes, in a new string.
    final fn encode_string(alloc: Global, input: &[u8]) -> Result<String, AllocError>
        requires { length input.now ≤ longest_input }
        ensures { IfOk result (λ t. string_bytes t ≡ encoding Self.alphabet input.now) }
    {
        let (count, padding) = encoding_lens::<Self>(input);
        let mut out = vec![in alloc; 0u8; count + padding]?;
        encode_padded::<Self>(input, &mut out, count, padding);
        Ok(unsafe { String::from_utf8_unchecked(out) })
    }

    /// The length of the encoding of `bytes`, or 0 for more than `usize::MAX / 4` bytes.
    final fn encoded_len(bytes: &[u8]) -> usize
        ensures short { length bytes.now ≤ longest_input → result ≡ length (encoding Self.alphabet bytes.now) }
        ensures long { longest_input < length bytes.now → result ≡ 0 }
    {
        if bytes.len() > usize::MAX / 4 {
            return 0;
        }
        let (count, padding) = encoding_lens::<Self>(bytes);
        count + padding
    }
}
