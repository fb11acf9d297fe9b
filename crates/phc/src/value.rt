//! Values of parameters, and the numbers that they write.

ghost use Rattle.std.specs.Prelude.{◌≡◌, ◌≢◌, ◌<◌, ◌≤◌, ℕ, List, None, Some, Err, IfOk, MatchResult, is_some, length, true};
ghost use Rattle.std.specs.Char.{is_ascii_digit};
ghost use Rattle.std.specs.List.{list_all};
ghost use Rattle.std.specs.Option.{ok_or};
ghost use Rattle.std.specs.Result.{result_err};
ghost use Rattle.phc.specs.Grammar.{decimal_value, has_value_bytes, is_value_byte, value_fault};
ghost use Rattle.pieces.specs.Numbers.{is_plain_number};
ghost use Rattle.pieces.specs.Lists.{is_empty};

use crate::{Error, Result};
use base64ct::{Base64Unpadded, Encoding};
use pieces::begins_with;
use pieces::short_bytes::ShortBytes;
use std::fmt;

/// A whole number below 2^32, as a parameter writes it: digits without a leading zero, or `0` alone.
pub type Decimal = u32;

/// The value of a parameter: 0 to 64 characters of `A-Z`, `a-z`, `0-9` and `/+.-`.
///
/// Two values are equal, are ordered and are hashed as their texts are.
#[derive(Clone, Copy, Debug, PartialEq, Eq, PartialOrd, Ord, Hash, Drop)]
pub struct Value<'a> {
    text: &'a str,
    ghost valid: { value_fault text.now ≡ None },
}

impl<'a> Value<'a> {
    ghost use Rattle.base64ct.specs.Encoding.{EachBelow, byte_count};
    ghost use Rattle.base64ct.specs.declared.errors.Error.TheVariants.{InvalidEncoding, InvalidLength};
    ghost use Rattle.phc.specs.Encoded.{decoding, encoding};
    ghost use Rattle.phc.specs.ValueViews.{value_text};

    /// The most characters.
    pub const MAX_LENGTH: usize = 64;

    /// The most bytes whose encoding is a value.
    pub(crate) const MAX_BYTES: usize = 48;

    /// The value that `input` is. It refuses by `ParamValueTooLong` where `input` has more than 64 bytes,
    /// else by `ParamValueInvalid` where it has another character.
    pub fn new(input: &'a str) -> Result<Value<'a>>
        ensures text { IfOk result (λ v. value_text v ≡ input.now) }
        ensures fault { result_err result ≡ value_fault input.now }
    {
        if input.len() > Self::MAX_LENGTH {
            return Err(Error::ParamValueTooLong);
        }
        if !has_value_bytes(input.as_bytes()) {
            return Err(Error::ParamValueInvalid);
        }
        Ok(Value { text: input })
    }

    /// The value that `text` is, which must be one.
    pub(crate) fn new_unwrap(text: &'a str) -> Value<'a>
        requires { value_fault text.now ≡ None }
        ensures text { value_text result ≡ text.now }
    {
        Value { text }
    }

    /// The value of these digits.
    pub(crate) fn of_digits(digits: &'a ShortBytes<10>) -> Value<'a>
        requires { list_all is_ascii_digit digits.now ≡ true }
        ensures text { value_text result ≡ digits.now }
    {
        Value {
            text: unsafe { str::from_utf8_unchecked(digits.as_slice()) },
        }
    }

    /// The text, as it was lent.
    pub fn as_str(&self) -> &'a str
        ensures text { result.now ≡ value_text self.now }
        ensures valid { value_fault result.now ≡ None }
    {
        self.text
    }

    /// The bytes of the text.
    pub fn as_bytes(&self) -> &'a [u8]
        ensures bytes { result.now ≡ value_text self.now }
    {
        self.text.as_bytes()
    }

    /// The number of characters.
    pub fn len(&self) -> usize
        ensures length { result ≡ length (value_text self.now) }
    {
        self.text.len()
    }

    /// Whether there is no character.
    pub fn is_empty(&self) -> bool
        ensures empty { result ≡ is_empty (value_text self.now) }
    {
        self.text.is_empty()
    }

    /// The number that the value writes. It refuses by `ParamValueInvalid` where the value is empty, has
    /// another character than a digit or a leading zero, or writes a number of 2^32 or more.
    pub fn decimal(&self) -> Result<Decimal>
        ensures number { result ≡ ok_or (decimal_value (value_text self.now)) Error.ParamValueInvalid }
    {
        match decimal(self.text) {
            Some(number) => Ok(number),
            None => Err(Error::ParamValueInvalid),
        }
    }

    /// Whether the value writes a number.
    pub fn is_decimal(&self) -> bool
        ensures number { result ≡ is_some (decimal_value (value_text self.now)) }
    {
        decimal(self.text).is_some()
    }

    /// Decodes the value, as Base64 without padding, into the front of `buf`, and gives that part.
    ///
    /// It refuses by `Base64(InvalidLength)` where `buf` is shorter than the bytes that the value stands
    /// for, else by `Base64(InvalidEncoding)` where the value is the encoding of no bytes.
    pub fn b64_decode<'b>(&self, buf: &'b mut [u8]) -> Result<&'b [u8]>
        ensures no_room { length buf.old < byte_count (length (value_text self.now))
            → result ≡ Err (Error.Base64 InvalidLength) }
        ensures answer { byte_count (length (value_text self.now)) ≤ length buf.old → MatchResult result
            (λ b. value_text self.now ≡ encoding b.now)
            (λ e. (e ≡ Error.Base64 InvalidEncoding)
            × ((b : List ℕ) → EachBelow 256 b → encoding b ≢ value_text self.now)) }
        ensures decoded { byte_count (length (value_text self.now)) ≤ length buf.old → MatchResult result
            (λ b. decoding (value_text self.now) ≡ Some b.now)
            (λ e. (e ≡ Error.Base64 InvalidEncoding) × (decoding (value_text self.now) ≡ None)) }
    {
        match Base64Unpadded::decode(self.text.as_bytes(), buf) {
            Ok(bytes) => Ok(bytes),
            Err(e) => Err(Error::Base64(e)),
        }
    }
}

impl fmt::Display for Value<'_> {
    ghost use Rattle.phc.specs.ValueViews.{value_text};

    ghost output = { λ v. Some (value_text v) };

    fn fmt<W: fmt::Write>(&self, f: &mut fmt::Formatter<W>) -> fmt::Result {
        f.write_str(self.text)
    }
}

fn is_value_byte(b: u8) -> bool
    ensures { result ≡ is_value_byte b }
{
    // `-`, `.` and `/` stand before the digits.
    b.is_ascii_alphabetic() || (b'-' <= b && b <= b'9') || b == b'+'
}

/// Whether a text has characters of values alone.
pub(crate) fn has_value_bytes(bytes: &[u8]) -> bool
    ensures { result ≡ has_value_bytes bytes.now }
{
    bytes.iter().all(|b| is_value_byte(*b))
}

fn has_digits(bytes: &[u8]) -> bool
    ensures { result ≡ list_all is_ascii_digit bytes.now }
{
    bytes.iter().all(|b| b.is_ascii_digit())
}

// Whether a text is one digit or more, without a leading zero.
fn is_plain_number(s: &str) -> bool
    ensures { result ≡ is_plain_number s.now }
{
    has_digits(s.as_bytes()) && !(1 < s.len() && begins_with(s, "0")) && !s.is_empty()
}

/// The number that a text writes.
pub(crate) fn decimal(s: &str) -> Option<Decimal>
    ensures { result ≡ decimal_value s.now }
{
    if !is_plain_number(s) {
        return None;
    }
    match s.parse::<u32>() {
        Ok(number) => Some(number),
        Err(_) => None,
    }
}
