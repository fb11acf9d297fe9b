//! Why a text or a buffer is refused.

ghost use Rattle.std.specs.Prelude.{◌≡◌, Some, codes};
ghost use Rattle.std.specs.IoError.{error_kind};
ghost use Rattle.std.specs.declared.io.ErrorKind.TheVariants.{InvalidData};
ghost use Rattle.base64ct.specs.Texts.{error_text, decode_vec_text};
ghost use Rattle.base64ct.specs.declared.errors.Error.TheVariants.{InvalidEncoding, InvalidLength};
ghost use Rattle.base64ct.specs.declared.errors.DecodeVecError.TheVariants.{OutOfMemory};

use std::alloc::AllocError;
use std::{error, fmt, io};

/// Why a text is not decoded, or bytes are not encoded.
#[derive(Clone, Copy, Debug, PartialEq, Eq, Drop)]
pub enum Error {
    /// The text is the encoding of no bytes.
    InvalidEncoding = 1,
    /// The buffer is too short, or the input too long; of a `Decoder` or an `Encoder` also: there is no text,
    /// the width is below 4, or more is asked than is left.
    InvalidLength = 2,
}

/// The text is the encoding of no bytes.
#[derive(Clone, Copy, Debug, PartialEq, Eq, Drop)]
pub struct InvalidEncodingError;

/// The buffer is too short, or the input too long.
#[derive(Clone, Copy, Debug, PartialEq, Eq, Drop)]
pub struct InvalidLengthError;

/// Why a text is not decoded into a vector.
#[derive(Clone, Copy, Debug, PartialEq, Eq, Drop)]
pub enum DecodeVecError {
    /// The text is the encoding of no bytes.
    InvalidEncoding = 1,
    /// There was no memory.
    OutOfMemory = 2,
}

impl fmt::Display for Error {
    ghost output = { λ e. Some (error_text e) };

    fn fmt<W: fmt::Write>(&self, f: &mut fmt::Formatter<W>) -> fmt::Result {
        match self {
            Error::InvalidEncoding => f.write_str("invalid Base64 encoding"),
            Error::InvalidLength => f.write_str("invalid Base64 length"),
        }
    }
}

impl fmt::Display for InvalidEncodingError {
    ghost output = { λ _. Some (codes "invalid Base64 encoding") };

    fn fmt<W: fmt::Write>(&self, f: &mut fmt::Formatter<W>) -> fmt::Result {
        f.write_str("invalid Base64 encoding")
    }
}

impl fmt::Display for InvalidLengthError {
    ghost output = { λ _. Some (codes "invalid Base64 length") };

    fn fmt<W: fmt::Write>(&self, f: &mut fmt::Formatter<W>) -> fmt::Result {
        f.write_str("invalid Base64 length")
    }
}

impl fmt::Display for DecodeVecError {
    ghost output = { λ e. Some (decode_vec_text e) };

    fn fmt<W: fmt::Write>(&self, f: &mut fmt::Formatter<W>) -> fmt::Result {
        match self {
            DecodeVecError::InvalidEncoding => f.write_str("invalid Base64 encoding"),
            DecodeVecError::OutOfMemory => f.write_str("out of memory"),
        }
    }
}

impl error::Error for Error {}

impl error::Error for InvalidEncodingError {}

impl error::Error for InvalidLengthError {}

impl error::Error for DecodeVecError {}

impl From<InvalidEncodingError> for Error {
    ghost from_gives = { λ _ r. r ≡ InvalidEncoding };

    fn from(_e: InvalidEncodingError) -> Error {
        Error::InvalidEncoding
    }
}

impl From<InvalidLengthError> for Error {
    ghost from_gives = { λ _ r. r ≡ InvalidLength };

    fn from(_e: InvalidLengthError) -> Error {
        Error::InvalidLength
    }
}

impl From<AllocError> for DecodeVecError {
    ghost from_gives = { λ _ r. r ≡ OutOfMemory };

    fn from(_e: AllocError) -> DecodeVecError {
        DecodeVecError::OutOfMemory
    }
}

impl From<Error> for io::Error {
    ghost from_gives = { λ _ r. error_kind r ≡ InvalidData };

    fn from(_e: Error) -> io::Error {
        io::Error::from(io::ErrorKind::InvalidData)
    }
}
