//! The fields of a password hash, each behind a `$`.

ghost use Rattle.std.specs.Prelude.{◌≡◌, ◌⊎◌, ◌<◌, ◌≤◌, ℕ, List, None, Some, Err, IfOk, IfErr, MatchResult, length, ⊤};
ghost use Rattle.std.specs.Result.{result_err};
ghost use Rattle.std.specs.List.{list_all};
ghost use Rattle.pieces.specs.Pieces.{pieces_left};
ghost use Rattle.mcf.specs.Grammar.{field_fault, first_field_fault, is_field_byte};
ghost use Rattle.pieces.specs.Characters.{dollar};

use crate::clean::are_fields;
use crate::{Base64, Error, Result};
use base64ct::DecodeVecError;
use pieces::first_piece;
use std::alloc::{AllocError, Global};
use std::fmt;

/// The character before the identifier and before each field.
pub const DELIMITER: char = '$';

/// The fields that are left of a password hash, in their order.
#[derive(Debug, Drop)]
pub struct Fields<'a> {
    pub(crate) rest: Option<&'a str>,
    ghost valid: { first_field_fault (pieces_left dollar rest) ≡ None },
}

impl Clone for Fields<'_> {
    ghost use Rattle.mcf.specs.Views.{fields_left};

    ghost is_clone = { λ a b. fields_left b ≡ fields_left a };

    ghost is_infallible = { λ _. ⊤ };

    fn clone(&self) -> std::result::Result<Self, AllocError> {
        Ok(Fields { rest: self.rest })
    }
}

impl<'a> Iterator for Fields<'a> {
    ghost use Rattle.std.specs.Iterator.{YieldsFirstBy, item_count};
    ghost use Rattle.mcf.specs.Views.{field_text, fields_left};

    type Item = Field<'a>;

    ghost next_gives = { YieldsFirstBy field_text fields_left };

    ghost remaining = { item_count fields_left };

    fn next(&mut self) -> Option<Field<'a>> {
        let text = self.rest?;
        let (field, rest) = first_piece(text, DELIMITER);
        self.rest = rest;
        Some(Field { text: field })
    }
}

/// One field: a nonempty text of `A-Z`, `a-z`, `0-9` and `./+=,-`.
///
/// Two fields are equal, and are ordered, as their texts are.
#[derive(Clone, Copy, Debug, PartialEq, Eq, PartialOrd, Ord, Drop)]
pub struct Field<'a> {
    text: &'a str,
    ghost valid: { field_fault text.now ≡ None },
}

impl<'a> Field<'a> {
    ghost use Rattle.base64ct.specs.Decoding.{decoding};
    ghost use Rattle.base64ct.specs.Encoding.{encoding, decoded_len};
    ghost use Rattle.base64ct.specs.Answers.{OnRoom, IsNoEncoding};
    ghost use Rattle.base64ct.specs.declared.errors.Error.TheVariants.{InvalidEncoding, InvalidLength};
    ghost use Rattle.mcf.specs.Alphabets.{alphabet_of};
    ghost use Rattle.mcf.specs.Views.{field_text};

    /// The field that `s` is. It refuses by `FieldInvalid` where `s` is empty, and by `EncodingInvalid`
    /// where it has another character.
    pub fn new(s: &'a str) -> Result<Field<'a>>
        ensures text { IfOk result (λ f. field_text f ≡ s.now) }
        ensures fault { result_err result ≡ field_fault s.now }
    {
        match fault_of_field(s.as_bytes()) {
            Some(e) => Err(e),
            None => Ok(Field { text: s }),
        }
    }

    /// The text, as it was lent.
    pub fn as_str(self) -> &'a str
        ensures text { result.now ≡ field_text self.entry }
        ensures valid { field_fault result.now ≡ None }
    {
        self.text
    }

    /// Decodes the field into the front of `out`, and gives that part.
    ///
    /// It refuses, as `Base64(e)`, by the cause `e` of [`Base64::decode`].
    pub fn decode_base64_into<'o>(
        self,
        base64_variant: Base64,
        out: &'o mut [u8],
    ) -> Result<&'o [u8]>
        ensures no_room { length out.old
            < decoded_len (alphabet_of base64_variant) (field_text self.entry)
            → result ≡ Err (Error.Base64 InvalidLength) }
        ensures answer { OnRoom (alphabet_of base64_variant) (field_text self.entry) (length out.old)
            (MatchResult result
            (λ b. field_text self.entry ≡ encoding (alphabet_of base64_variant) b.now)
            (λ e. (e ≡ Error.Base64 InvalidEncoding)
            × IsNoEncoding (alphabet_of base64_variant) (field_text self.entry))) }
        ensures decoded { OnRoom (alphabet_of base64_variant) (field_text self.entry) (length out.old)
            (MatchResult result
            (λ b. decoding (alphabet_of base64_variant) (field_text self.entry) ≡ Some b.now)
            (λ e. (e ≡ Error.Base64 InvalidEncoding)
            × (decoding (alphabet_of base64_variant) (field_text self.entry) ≡ None))) }
    {
        match base64_variant.decode(self.text.as_bytes(), out) {
            Ok(bytes) => Ok(bytes),
            Err(e) => Err(Error::Base64(e)),
        }
    }

    /// The bytes whose encoding the field is, in a new vector. `OutOfMemory` may come in place of them.
    pub fn decode_base64(self, alloc: Global, base64_variant: Base64) -> Result<Vec<u8>>
        ensures faults { IfErr result (λ e. (e ≡ Error.Base64 InvalidEncoding)
            ⊎ (e ≡ Error.OutOfMemory)) }
        ensures answer { MatchResult result
            (λ b. field_text self.entry ≡ encoding (alphabet_of base64_variant) b.items)
            (λ e. e ≡ Error.Base64 InvalidEncoding
            → IsNoEncoding (alphabet_of base64_variant) (field_text self.entry)) }
        ensures decoded { MatchResult result
            (λ b. decoding (alphabet_of base64_variant) (field_text self.entry) ≡ Some b.items)
            (λ e. e ≡ Error.Base64 InvalidEncoding
            → decoding (alphabet_of base64_variant) (field_text self.entry) ≡ None) }
    {
        match base64_variant.decode_vec(alloc, self.text) {
            Ok(bytes) => Ok(bytes),
            Err(DecodeVecError::InvalidEncoding) => Err(Error::Base64(
                base64ct::Error::InvalidEncoding,
            )),
            Err(DecodeVecError::OutOfMemory) => Err(Error::OutOfMemory),
        }
    }
}

impl fmt::Display for Field<'_> {
    ghost use Rattle.mcf.specs.Views.{field_text};

    ghost output = { λ f. Some (field_text f) };

    fn fmt<W: fmt::Write>(&self, f: &mut fmt::Formatter<W>) -> fmt::Result {
        f.write_str(self.text)
    }
}

/// The fault of the first field that has one, among those of a text, where there is one.
pub(crate) fn fault_of_fields(fields: Option<&str>) -> Option<Error>
    ensures { result ≡ first_field_fault (pieces_left dollar fields.entry) }
{
    match fields {
        Some(text) if are_fields(text.as_bytes()) => None,
        _ => first_fault(fields),
    }
}

// The fault of the first field that has one, field by field.
fn first_fault(fields: Option<&str>) -> Option<Error>
    ensures { result ≡ first_field_fault (pieces_left dollar fields.entry) }
{
    let mut rest = fields;
    'fields: while let Some(text) = rest {
        let (field, others) = first_piece(text, DELIMITER);
        let fault = fault_of_field(field.as_bytes());
        if fault.is_some() {
            return fault;
        }
        rest = others;
    }
    None
}

/// The fault of one field, if it has one.
pub(crate) fn fault_of_field(field: &[u8]) -> Option<Error>
    ensures { result ≡ field_fault field.now }
{
    if field.is_empty() {
        return Some(Error::FieldInvalid);
    }
    if has_field_bytes(field) {
        None
    } else {
        Some(Error::EncodingInvalid)
    }
}

fn has_field_bytes(bytes: &[u8]) -> bool
    ensures { result ≡ list_all is_field_byte bytes.now }
{
    // Neither an early end nor a branch by a byte: the steps are those of the length alone.
    let mut all = true;
    let mut i = 0;
    while i < bytes.len() {
        let here = is_field_byte(bytes[i]);
        all = all & here;
        i += 1;
    }
    all
}

// By arithmetic, with no look-up and no branch by the byte.
#[inline(always)]
#[tactic(auto, using(crate::proofs::FieldBytes::ranges_tell))]
pub(crate) fn is_field_byte(b: u8) -> bool
    ensures { result ≡ is_field_byte b }
{
    // `+,-./` and the digits follow each other.
    let sign_or_digit = b.wrapping_sub(b'+') < 15;
    let letter = (b | 0x20).wrapping_sub(b'a') < 26;
    sign_or_digit | letter | (b == b'=')
}
