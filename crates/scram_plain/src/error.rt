//! Why a password and a text get no verdict.

/// What is wrong with a stored text, cut at every `$`, and last with a password: the first fault in this order.
#[derive(Clone, Copy, Debug, PartialEq, Eq)]
pub enum ScramFault {
    /// The first piece isn't empty.
    NoDollar,
    /// The second piece is missing, or is neither `scram-sha-256` nor `scram-sha-256-raw`.
    WrongId,
    /// No piece follows the identifier.
    NoRounds,
    /// No piece follows the rounds.
    NoSalt,
    /// No piece follows the salt.
    NoStoredKey,
    /// No piece follows the stored key.
    NoServerKey,
    /// A piece follows the server key.
    Trailing,
    /// The rounds aren't a decimal of 1 to 4,294,967,295 without a zero in front.
    Rounds,
    /// The text of the salt doesn't have 1 to 64 characters, as 1 to 48 bytes have in Base64.
    SaltLength,
    /// The text of the salt is no Base64 with padding.
    SaltEncoding,
    /// The text of the stored key doesn't have 44 characters, as 32 bytes have in Base64.
    StoredKeyLength,
    /// The text of the stored key is no Base64 of 32 bytes with padding.
    StoredKeyEncoding,
    /// The text of the server key doesn't have 44 characters.
    ServerKeyLength,
    /// The text of the server key is no Base64 of 32 bytes with padding.
    ServerKeyEncoding,
    /// The text has no other fault and is one with SASLprep, and the password has a byte above 127. SASLprep may change such a password by
    /// the tables of Unicode 3.2, which aren't here.
    NotAscii,
}
