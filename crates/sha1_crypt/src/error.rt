//! Why a text of sha1-crypt gets no verdict.

/// What is wrong with a stored text, cut at every `$`: the first fault in this order.
#[derive(Clone, Copy, Debug, PartialEq, Eq)]
pub enum Sha1Fault {
    /// The first piece isn't empty.
    NoDollar,
    /// The second piece is missing, or isn't `sha1`.
    WrongId,
    /// No piece follows the identifier.
    NoRounds,
    /// No piece follows the rounds.
    NoSalt,
    /// No piece follows the salt.
    NoHash,
    /// A piece follows the hash.
    Trailing,
    /// The rounds aren't a decimal of 1 to 4,294,967,295 without a zero in front.
    Rounds,
    /// The salt doesn't have 1 to 64 bytes.
    SaltLength,
    /// A byte of the salt is none of `./0-9A-Za-z`.
    SaltCharacter,
    /// The hash doesn't have 28 bytes.
    HashLength,
    /// A byte of the hash is none of `./0-9A-Za-z`.
    HashCharacter,
    /// The last group of the hash doesn't write the digest's first byte again, so that the hash is that of no digest.
    FirstByte,
}
