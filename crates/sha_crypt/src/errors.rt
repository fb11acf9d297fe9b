//! Why parameters or a text are refused.

ghost use Rattle.std.specs.Prelude.{◌≡◌, Some};
ghost use Rattle.sha_crypt.specs.declared.errors.CheckError.TheVariants.{InvalidFormat};
ghost use Rattle.sha_crypt.specs.declared.errors.FormatFault.TheVariants.{Base64};
ghost use Rattle.sha_crypt.specs.Texts.{fault_text};

use std::fmt;

/// Why no parameters, or no text, were made.
#[derive(Clone, Debug, PartialEq, Eq, Drop)]
pub enum CryptError {
    /// The rounds are outside 1,000 to 999,999,999.
    RoundsError = 1,
    /// There was no memory for the text.
    OutOfMemory,
}

/// Why a check of a password did not pass.
#[derive(Clone, Debug, PartialEq, Eq, Drop)]
pub enum CheckError {
    /// The stored text isn't in the format.
    InvalidFormat(FormatFault),
    /// The rounds are out of range.
    Crypt(CryptError),
    /// The hash field is that of another digest.
    HashMismatch,
}

/// The text is the hash field of no digest.
#[derive(Clone, Debug, PartialEq, Eq, Drop)]
pub struct DecodeError;

/// What is wrong with the format of a stored text, cut at every `$`.
#[derive(Clone, Debug, PartialEq, Eq, Drop)]
pub enum FormatFault {
    /// The first piece isn't empty.
    NoDollar,
    /// The second piece is missing or isn't the identifier of the family.
    WrongId(Family),
    /// No third piece.
    NoFields,
    /// A piece that names the rounds, and none behind it.
    NoSalt,
    /// What names the rounds isn't a plain decimal below 2^64: digits, without a leading zero unless it is `0` alone.
    RoundsNotNumber,
    /// No piece follows the salt.
    NoHash,
    /// A piece follows the hash.
    Trailing,
    /// The salt has more than 16 bytes.
    SaltTooLong,
    /// The last piece is the hash field of no digest.
    Base64,
}

/// One of the two families.
#[derive(Clone, Copy, Debug, PartialEq, Eq)]
pub enum Family {
    /// SHA-256-crypt, with the identifier `5`.
    Sha256,
    /// SHA-512-crypt, with the identifier `6`.
    Sha512,
}

impl fmt::Display for FormatFault {
    ghost output = { λ e. Some (fault_text e) };

    fn fmt<W: fmt::Write>(&self, f: &mut fmt::Formatter<W>) -> fmt::Result {
        match self {
            FormatFault::NoDollar => f.write_str("Should start with '$"),
            FormatFault::WrongId(Family::Sha256) => f.write_str(
                "does not contain SHA256 identifier: '$5$'",
            ),
            FormatFault::WrongId(Family::Sha512) => f.write_str(
                "does not contain SHA512 identifier: '$6$'",
            ),
            FormatFault::NoFields => f.write_str(
                "Does not contain a rounds or salt nor hash string",
            ),
            FormatFault::NoSalt => f.write_str("Does not contain a salt nor hash string"),
            FormatFault::RoundsNotNumber => f.write_str("rounds= specifier need to be a number"),
            FormatFault::NoHash => f.write_str("Does not contain a hash string"),
            FormatFault::Trailing => f.write_str("Trailing characters present"),
            FormatFault::SaltTooLong => f.write_str("salt too long (maximum 16 bytes)"),
            FormatFault::Base64 => f.write_str("invalid B64"),
        }
    }
}

impl From<DecodeError> for CheckError {
    ghost from_gives = { λ _ e. e ≡ InvalidFormat Base64 };

    fn from(_: DecodeError) -> CheckError {
        CheckError::InvalidFormat(FormatFault::Base64)
    }
}
