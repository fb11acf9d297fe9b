//! Why a text gets no verdict.

/// What is wrong with a stored text: the first fault in this order.
#[derive(Clone, Copy, Debug, PartialEq, Eq)]
pub enum MysqlFault {
    /// The text doesn't begin with `$mysql$A$`.
    WrongId,
    /// No `*` follows the rounds.
    NoSalt,
    /// No `*` follows the salt.
    NoHash,
    /// A `*` follows the hash.
    Trailing,
    /// The thousands of the rounds aren't three hexadecimal digits with capital letters, from `005` to `FFF`.
    Rounds,
    /// The salt doesn't have 40 digits.
    SaltLength,
    /// A byte of the salt is none of `0-9A-F`.
    SaltDigit,
    /// The hash doesn't have 86 digits.
    HashLength,
    /// A byte of the hash is none of `0-9A-F`.
    HashDigit,
    /// The 43 characters that the hash writes are those of no digest.
    HashField,
}
