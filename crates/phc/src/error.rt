//! Why a text is refused.

ghost use Rattle.std.specs.Prelude.{◌≡◌, Some};
ghost use Rattle.base64ct.specs.declared.errors.Error.TheVariants.{InvalidLength};
ghost use Rattle.phc.specs.Texts.{error_text, string_error_text};
ghost use Rattle.phc.specs.declared.error.Error.TheVariants.{Base64};

use std::cmp::Ordering;
use std::{error, fmt, result};

/// Why a text, or a part of a record, is refused.
#[derive(Clone, Copy, Debug, PartialEq, Eq, Drop)]
pub enum Error {
    /// A salt or a hash is the encoding of no bytes, or there is no room for one.
    Base64(base64ct::Error),
    /// The text does not begin with `$`.
    MissingField,
    /// An output has too few or too many bytes: `expected` is the bound.
    OutputSize {
        /// Where the size stands beside the bound.
        provided: Ordering,
        /// The fewest bytes under `Less`, the most under `Greater`.
        expected: usize,
    },
    /// A parameter of this name stands already.
    ParamNameDuplicated,
    /// A name has no character, more than 32, or another one than `a-z`, `0-9` and `-`.
    ParamNameInvalid,
    /// A value has a wrong character, is missing, or is no decimal where one is wanted.
    ParamValueInvalid,
    /// A value has more than 64 characters.
    ParamValueTooLong,
    /// The parameters have more than 127 characters.
    ParamsMaxExceeded,
    /// A salt has fewer than 8 bytes, or 11 characters.
    SaltTooShort,
    /// A salt has more than 48 bytes, or 64 characters.
    SaltTooLong,
    /// A field follows the hash.
    TrailingData,
}

/// A result with this error.
pub type Result<T> = result::Result<T, Error>;

impl fmt::Display for Error {
    ghost output = { λ e. Some (error_text e) };

    fn fmt<W: fmt::Write>(&self, f: &mut fmt::Formatter<W>) -> fmt::Result {
        match self {
            Error::Base64(e) => fmt::Display::fmt(e, f),
            Error::MissingField => f.write_str("password hash string missing field"),
            Error::OutputSize { provided, expected } => {
                let expected = *expected;
                match provided {
                    Ordering::Less => write!(
                        f,
                        "output size too short, expected at least {expected} bytes"
                    ),
                    Ordering::Equal => write!(
                        f,
                        "output size unexpected, expected {expected} bytes"
                    ),
                    Ordering::Greater => write!(
                        f,
                        "output size too long, expected at most {expected} bytes"
                    ),
                }
            }
            Error::ParamNameDuplicated => f.write_str("duplicate parameter"),
            Error::ParamNameInvalid => f.write_str("invalid parameter name"),
            Error::ParamValueInvalid => f.write_str("invalid parameter value"),
            Error::ParamValueTooLong => f.write_str("parameter value too long"),
            Error::ParamsMaxExceeded => f.write_str("maximum number of parameters reached"),
            Error::SaltTooShort => f.write_str("salt too short (minimum 8 bytes)"),
            Error::SaltTooLong => f.write_str("salt too long (maximum 48 bytes)"),
            Error::TrailingData => f.write_str("password hash has unexpected trailing characters"),
        }
    }
}

impl error::Error for Error {}

impl From<base64ct::Error> for Error {
    ghost from_gives = { λ b e. e ≡ Base64 b };

    fn from(e: base64ct::Error) -> Error {
        Error::Base64(e)
    }
}

impl From<base64ct::InvalidLengthError> for Error {
    ghost from_gives = { λ _ e. e ≡ Base64 InvalidLength };

    fn from(_e: base64ct::InvalidLengthError) -> Error {
        Error::Base64(base64ct::Error::InvalidLength)
    }
}

/// Why a [`PasswordHashString`](crate::PasswordHashString) is not made of a text.
#[derive(Clone, Debug, PartialEq, Eq, Drop)]
pub enum PhcStringError {
    /// The text is no record.
    Phc(Error),
    /// There was no memory.
    OutOfMemory,
}

impl fmt::Display for PhcStringError {
    ghost output = { λ e. Some (string_error_text e) };

    fn fmt<W: fmt::Write>(&self, f: &mut fmt::Formatter<W>) -> fmt::Result {
        match self {
            PhcStringError::Phc(e) => fmt::Display::fmt(e, f),
            PhcStringError::OutOfMemory => f.write_str("out of memory"),
        }
    }
}

impl error::Error for PhcStringError {}
