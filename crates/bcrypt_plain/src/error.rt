//! Why a check does not pass, and why no text is made.

/// Why a check of a password did not pass: the first cause in this order.
#[derive(Clone, Copy, Debug, PartialEq, Eq)]
pub enum BcryptError {
    /// The stored text is not in the format.
    InvalidFormat(BcryptFault),
    /// The text is valid, and the password has a zero byte.
    ZeroByte,
    /// The hash is that of another password.
    HashMismatch,
}

/// What is wrong with the format of a stored text, cut at every `$`: the first fault in this order.
#[derive(Clone, Copy, Debug, PartialEq, Eq)]
pub enum BcryptFault {
    /// The first piece isn't empty.
    NoDollar,
    /// The second piece is missing, or is no identifier of bcrypt's.
    WrongId,
    /// The identifier is `2` or `2x`: texts of versions with a fault, which are not checked.
    Obsolete,
    /// No piece stands behind the identifier.
    NoCost,
    /// No piece follows the cost.
    NoHash,
    /// A piece follows the hash.
    Trailing,
    /// The cost is not one of `04` to `31`, by two digits.
    Cost,
    /// The last piece doesn't have 53 bytes.
    Length,
    /// One of the 53 is none of `./0-9A-Za-z`.
    Character,
    /// The bits that are left over in the last character of the salt or of the hash are not zero.
    SpareBits,
}

/// Why no text is made: the first cause in this order.
#[derive(Clone, Copy, Debug, PartialEq, Eq)]
pub enum MakeFault {
    /// The cost is not one of 4 to 31.
    Cost,
    /// The password has more than 72 bytes, of which bcrypt would leave out the rest.
    PasswordTooLong,
    /// The password has a zero byte.
    ZeroByte,
}
