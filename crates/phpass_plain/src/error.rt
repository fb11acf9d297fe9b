//! Why a text of phpass gets no verdict.

/// What is wrong with a stored text, whose parts have fixed places: the first fault in this order.
#[derive(Clone, Copy, Debug, PartialEq, Eq)]
pub enum PhpassFault {
    /// The text doesn't begin with `$`.
    NoDollar,
    /// The text begins with neither `$P$` nor `$H$`.
    WrongId,
    /// The text doesn't have 34 bytes.
    Length,
    /// The byte after the identifier is none of `5` to `9` and `A` to `S`, which write 7 to 30.
    Cost,
    /// A byte of the salt is none of `./0-9A-Za-z`.
    SaltCharacter,
    /// A byte of the hash is none of `./0-9A-Za-z`.
    HashCharacter,
    /// The last character of the hash has bits after the last byte that aren't zero, so that the hash is that of no digest.
    SpareBits,
}
