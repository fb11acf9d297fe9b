//! Decoding in parts.

ghost use Rattle.std.specs.Prelude.{◌≡◌, ◌<◌, ◌≤◌, ◌+◌, ◌-◌, ◌++◌, ◌⊎◌, ◌↔◌, ℕ, List, length, take, drop, replicate, min, Ok, Err, IsOk, IfOk, OnOk, OnErr, IfErr, IsTrue, MatchResult, None, Some};
ghost use Rattle.std.specs.Io.{ReadsAtMost};
ghost use Rattle.std.specs.Io.KnownBytes.{Consumes, ReadConsumes};
ghost use Rattle.std.specs.IoError.{error_kind};
ghost use Rattle.std.specs.declared.io.ErrorKind.TheVariants.{InvalidData};
ghost use Rattle.base64ct.specs.Blocks.{decoded, size_of, AskedAreGood};
ghost use Rattle.base64ct.specs.Wrapping.{layout, without_end, HoldsOnlyEnds};
ghost use Rattle.base64ct.specs.Decoders.{left, IsOpened, IsDecoded};
ghost use Rattle.base64ct.specs.Runs.{IsPart, part_of};
ghost use Rattle.std.specs.Borrow.{sem, Array, u8 as byte};
ghost use Rattle.std.specs.Io.BufRead.{Rests};
ghost use Rattle.base64ct.specs.Lent.{byte_vec};

use crate::cursor::{fill_from, measure};
use crate::lent::{Filled, finish_decoded};
use crate::{DecodeVecError, Encoding, Error};
use std::alloc::AllocError;
use std::io;
use std::io::Read;
use std::marker::{Model, PhantomData};

// The length of `input` without the one line ending at its end.
fn body_len(input: &[u8]) -> usize
    ensures within { result ≤ length input.now }
    ensures body { take result input.now ≡ without_end input.now }
{
    let n = input.len();
    if n == 0 {
        return 0;
    }
    let last = input[n - 1];
    if last == b'\r' {
        return n - 1;
    }
    if last != b'\n' {
        return n;
    }
    if n == 1 {
        return 0;
    }
    if input[n - 2] == b'\r' {
        return n - 2;
    }
    n - 1
}

// Appends `more` zeros, and tells where they begin.
fn lengthen(buf: &mut Vec<u8>, more: usize) -> Result<usize, AllocError>
    ensures { MatchResult result (λ n. (n ≡ length buf.old.items) × (buf.new.items ≡ buf.old.items ++ replicate more 0))
        (λ _. buf.new.items ≡ buf.old.items) }
{
    let start = buf.len();
    match start.checked_add(more) {
        Some(end) => match buf.resize(end, 0) {
            Ok(()) => Ok(start),
            Err(e) => Err(e),
        },
        None => Err(AllocError),
    }
}

/// Gives the bytes of a text in parts; the text stands in one line, or in lines of one width with any
/// line endings.
///
/// The text is taken apart by position: a carriage return or line feed within a line is a character
/// outside every alphabet. Of a block that a part ends in, the rest of the bytes is kept for the next.
#[derive(Drop)]
pub struct Decoder<'i, E: Encoding> {
    body: &'i [u8],
    width: usize,
    at: usize,
    room: usize,
    kept: [u8; 3],
    size: usize,
    read: usize,
    encoding: PhantomData<E>,
}

impl<'i, E: Encoding> Model for Decoder<'i, E> {
    ghost use Rattle.base64ct.specs.Decoders.{Decoded};

    ghost Value = { Decoded };

    ghost use Rattle.base64ct.specs.Wrapping.{characters_from};
    ghost use Rattle.base64ct.specs.Decoders.{text_or_nil, Upholds};

    ghost view = { λ d. record { text = text_or_nil (characters_from d.width d.width d.body.now); read = d.read } };

    ghost invariant = { λ d. Upholds E.alphabet d.width d.body.now (text_or_nil (characters_from d.width d.width d.body.now)) d.kept d.at d.room d.size d.read };
}

impl<'i, E: Encoding> Clone for Decoder<'i, E> {
    ghost use Rattle.std.specs.Prelude.{⊤};

    ghost is_clone = { λ d e. e ≡ d };

    ghost is_infallible = { λ _. ⊤ };

    fn clone(&self) -> Result<Self, AllocError> {
        Ok(Decoder {
            body: self.body,
            width: self.width,
            at: self.at,
            room: self.room,
            kept: self.kept,
            size: self.size,
            read: self.read,
            encoding: PhantomData,
        })
    }
}

impl<'i, E: Encoding> Decoder<'i, E> {
    /// A decoder of a text in lines of `line_width` characters. It refuses in this order:
    /// 1. `InvalidLength`, where `input` is empty or holds only line endings, or the width is below 4;
    /// 2. `InvalidEncoding`, where `input` is not in such lines, or its last block is no encoding.
    pub fn new_wrapped(input: &'i [u8], line_width: usize) -> Result<Self, Error>
        ensures no_text { HoldsOnlyEnds input.now ⊎ (line_width < 4) → result ≡ Err Error.InvalidLength }
        ensures answer { (HoldsOnlyEnds input.now → ⊥) → 4 ≤ line_width → MatchResult result
            (λ d. (d.read ≡ 0) × IsOpened E.alphabet (layout input.now (Some line_width)) d.text)
            (λ e. (e ≡ Error.InvalidEncoding) × ((t : List ℕ) → IsOpened E.alphabet (layout input.now (Some line_width)) t → ⊥)) }
    {
        if line_width < 4 || input.iter().all(|c| *c == b'\r' || *c == b'\n') {
            return Err(Error::InvalidLength);
        }
        let body = &input[..body_len(input)];
        if body.len() == 0 {
            // It doesn't come: an input that isn't only line endings has a body.
            return Err(Error::InvalidLength);
        }
        match measure::<E>(body, line_width) {
            Some(size) => Ok(Decoder {
                body,
                width: line_width,
                at: 0,
                room: line_width,
                kept: [0; 3],
                size,
                read: 0,
                encoding: PhantomData,
            }),
            None => Err(Error::InvalidEncoding),
        }
    }

    /// A decoder of a text in one line. It refuses in this order:
    /// 1. `InvalidLength`, where `input` is empty or holds only line endings;
    /// 2. `InvalidEncoding`, where the last block of its line is no encoding.
    pub fn new(input: &'i [u8]) -> Result<Self, Error>
        ensures no_text { HoldsOnlyEnds input.now → result ≡ Err Error.InvalidLength }
        ensures answer { (HoldsOnlyEnds input.now → ⊥) → MatchResult result
            (λ d. (d.read ≡ 0) × IsOpened E.alphabet (layout input.now None) d.text)
            (λ e. (e ≡ Error.InvalidEncoding) × ((t : List ℕ) → IsOpened E.alphabet (layout input.now None) t → ⊥)) }
    {
        Self::new_wrapped(input, usize::MAX)
    }

    /// How many bytes are left.
    pub fn remaining_len(&self) -> usize
        ensures left { result ≡ length (left E.alphabet self.now) }
        ensures size { result ≡ size_of E.alphabet self.now.text - self.now.read }
    {
        self.size - self.read
    }

    /// Whether nothing is left.
    pub fn is_finished(&self) -> bool
        ensures { IsTrue result ↔ (length (left E.alphabet self.now) ≡ 0) }
    {
        self.remaining_len() == 0
    }

    // Fills `out` with the next bytes.
    fn fill_part<'o>(&mut self, out: &'o mut [u8]) -> Filled<'o, Error>
        ensures same { result.dst.ghost_name ≡ out.entry.ghost_name }
        ensures whole { IfOk result.outcome (λ n. n ≡ length result.dst.now) }
        ensures told { IsPart E.alphabet self.old (length out.old) (part_of result.outcome result.dst.now) self.new }
    {
        match self.decode_into(out) {
            Ok(()) => {
                let len = out.len();
                Filled {
                    dst: out,
                    outcome: Ok(len),
                }
            }
            Err(e) => Filled {
                dst: out,
                outcome: Err(e),
            },
        }
    }

    /// Fills `out` with the next bytes. It refuses in this order, and then the decoder is as it was and
    /// the bytes of `out` are not stated:
    /// 1. `InvalidLength`, where `out` is longer than what is left;
    /// 2. `InvalidEncoding`, where a block before the last, of which a byte is asked, is no characters.
    pub fn decode<'o>(&mut self, out: &'o mut [u8]) -> Result<&'o [u8], Error>
        ensures* buffer { sem 𝓛 (Rests (Array byte 0) out.entry (λ new. IfOk result (λ b. new ≡ b.now))) }
        ensures too_long { length (left E.alphabet self.old) < length out.old → (result ≡ Err Error.InvalidLength) × (self.new ≡ self.old) }
        ensures answer { length out.old ≤ length (left E.alphabet self.old) → MatchResult result
            (λ b. IsDecoded E.alphabet self.old self.new (length out.old) b.now)
            (λ e. (e ≡ Error.InvalidEncoding) × (AskedAreGood E.alphabet self.old.text self.old.read (length out.old) → ⊥) × (self.new ≡ self.old)) }
    {
        finish_decoded(self.fill_part(out))
    }

    /// Decodes as [`decode`](Decoder::decode). Its clauses on `out` serve callers that read their buffer
    /// again.
    pub fn decode_into(&mut self, out: &mut [u8]) -> Result<(), Error>
        ensures too_long { length (left E.alphabet self.old) < length out.old → (result ≡ Err Error.InvalidLength) × (self.new ≡ self.old) }
        ensures answer { length out.old ≤ length (left E.alphabet self.old) → MatchResult result
            (λ _. IsDecoded E.alphabet self.old self.new (length out.old) out.new)
            (λ e. (e ≡ Error.InvalidEncoding) × (AskedAreGood E.alphabet self.old.text self.old.read (length out.old) → ⊥) × (self.new ≡ self.old)) }
        ensures part { IsPart E.alphabet self.old (length out.old) (part_of result out.new) self.new }
    {
        if self.size - self.read < out.len() {
            return Err(Error::InvalidLength);
        }
        let n = out.len();
        let kept = self.kept;
        match fill_from::<E>(
            self.body, self.width, self.at, self.room, kept, self.read, out,
        ) {
            Some(found) => {
                let (at, room, block) = found;
                self.at = at;
                self.room = room;
                self.kept = block;
                self.read += n;
                Ok(())
            }
            None => Err(Error::InvalidEncoding),
        }
    }

    // `decode_to_end` with the vector first, where the borrow checker proves what a lender ends as.
    fn append_rest<'o>(buf: &'o mut Vec<u8>, decoder: &mut Self) -> Result<&'o [u8], DecodeVecError>
        ensures* buffer { sem 𝓛 (Rests byte_vec buf.entry (λ new.
            IfOk result (λ b. new.items ≡ buf.old.items ++ b.now) × OnErr result (new.items ≡ buf.old.items))) }
        ensures answer { MatchResult result
            (λ b. IsDecoded E.alphabet decoder.old decoder.new (length (left E.alphabet decoder.old)) b.now)
            (λ e. (e ≡ DecodeVecError.InvalidEncoding
            → AskedAreGood E.alphabet decoder.old.text decoder.old.read (length (left E.alphabet decoder.old)) → ⊥)
            × (decoder.new ≡ decoder.old)) }
    {
        match decoder.decode_rest(buf) {
            Ok(start) => Ok(&buf[start..]),
            Err(e) => Err(e),
        }
    }

    /// Appends all that is left to `buf`, and gives that part. After a refusal the decoder and the
    /// vector are as they were.
    pub fn decode_to_end<'o>(&mut self, buf: &'o mut Vec<u8>) -> Result<&'o [u8], DecodeVecError>
        ensures* buffer { sem 𝓛 (Rests byte_vec buf.entry (λ new.
            IfOk result (λ b. new.items ≡ buf.old.items ++ b.now) × OnErr result (new.items ≡ buf.old.items))) }
        ensures answer { MatchResult result
            (λ b. IsDecoded E.alphabet self.old self.new (length (left E.alphabet self.old)) b.now)
            (λ e. (e ≡ DecodeVecError.InvalidEncoding → AskedAreGood E.alphabet self.old.text self.old.read (length (left E.alphabet self.old)) → ⊥) × (self.new ≡ self.old)) }
    {
        Self::append_rest(buf, self)
    }

    /// Appends all that is left to `buf`, and tells where it begins. Its clauses on `buf` serve callers
    /// that read their vector again.
    pub fn decode_rest(&mut self, buf: &mut Vec<u8>) -> Result<usize, DecodeVecError>
        ensures answer { MatchResult result
            (λ n. (n ≡ length buf.old.items) × (buf.new.items ≡ buf.old.items ++ left E.alphabet self.old)
            × IsDecoded E.alphabet self.old self.new (length (left E.alphabet self.old)) (drop n buf.new.items))
            (λ e. (e ≡ DecodeVecError.InvalidEncoding → AskedAreGood E.alphabet self.old.text self.old.read (length (left E.alphabet self.old)) → ⊥)
            × (self.new ≡ self.old) × (buf.new.items ≡ buf.old.items)) }
    {
        let start = match lengthen(buf, self.remaining_len()) {
            Ok(start) => start,
            Err(e) => return Err(DecodeVecError::from(e)),
        };
        match self.decode_into(&mut buf[start..]) {
            Ok(()) => Ok(start),
            Err(_) => {
                buf.truncate(start);
                Err(DecodeVecError::InvalidEncoding)
            }
        }
    }
}

/// `read` takes as many bytes as `buf` has room for, or all that are left where these are fewer;
/// `read_exact` is [`decode`](Decoder::decode). An error has the kind `InvalidData`, and then the decoder
/// is as it was.
impl<'i, E: Encoding> Read for Decoder<'i, E> {
    ghost remaining = { λ d. Some (left E.alphabet d) };

    fn read(&mut self, buf: &mut [u8]) -> io::Result<usize>
        ensures bound { ReadsAtMost result buf.new }
        ensures bytes { ReadConsumes (Some (left E.alphabet self.old)) (Some (left E.alphabet self.new)) result buf.new }
        ensures answer { let n = min (length buf.old) (length (left E.alphabet self.old)) in MatchResult result
            (λ count. (count ≡ n) × (buf.new ≡ take n (left E.alphabet self.old) ++ drop n buf.old) × IsDecoded E.alphabet self.old self.new n (take n buf.new))
            (λ e. (error_kind e ≡ InvalidData) × (AskedAreGood E.alphabet self.old.text self.old.read n → ⊥) × (self.new ≡ self.old)) }
    {
        let n = buf.len().min(self.remaining_len());
        match self.decode_into(&mut buf[..n]) {
            Ok(()) => Ok(n),
            Err(e) => Err(io::Error::from(e)),
        }
    }

    fn read_exact(&mut self, buf: &mut [u8]) -> io::Result<()>
        ensures bytes { OnOk result (Consumes (Some (left E.alphabet self.old)) (Some (left E.alphabet self.new)) buf.new) }
        ensures too_long { length (left E.alphabet self.old) < length buf.old → IfErr result (λ e. error_kind e ≡ InvalidData) × (IsOk result → ⊥) × (self.new ≡ self.old) }
        ensures answer { length buf.old ≤ length (left E.alphabet self.old) → MatchResult result
            (λ _. IsDecoded E.alphabet self.old self.new (length buf.old) buf.new)
            (λ e. (error_kind e ≡ InvalidData) × (AskedAreGood E.alphabet self.old.text self.old.read (length buf.old) → ⊥) × (self.new ≡ self.old)) }
    {
        match self.decode_into(buf) {
            Ok(()) => Ok(()),
            Err(e) => Err(io::Error::from(e)),
        }
    }
}
