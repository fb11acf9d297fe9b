//! Why a text gets no verdict.

/// What is wrong with a stored text, cut at every `$`: the first fault in this order.
#[derive(Clone, Copy, Debug, PartialEq, Eq)]
pub enum SaltedFault {
    /// The first piece isn't empty.
    NoDollar,
    /// The second piece is missing, or is none of `smd5`, `ssha`, `ssha256` and `ssha512`.
    WrongId,
    /// No piece follows the identifier.
    NoSalt,
    /// No piece follows the salt.
    NoHash,
    /// A piece follows the hash.
    Trailing,
    /// The text of the salt has more than 64 characters, which 48 bytes have in Base64.
    SaltLength,
    /// The text of the salt is no Base64 with padding.
    SaltEncoding,
    /// The text of the hash doesn't have as many characters as a digest has in Base64: 24, 28, 44 or 88.
    HashLength,
    /// The text of the hash is no Base64 of a digest with padding.
    HashEncoding,
}
