//! Why a check does not pass, and why no text is made.

/// Why a check of a password did not pass: the first cause in this order.
#[derive(Clone, Copy, Debug, PartialEq, Eq)]
pub enum CheckError {
    /// The stored text is not in the format, or asks for what is not taken.
    InvalidFormat(TextFault),
    /// The text is valid, and the password has more than 4,096 bytes.
    PasswordTooLong,
    /// The text is valid, and memory for the table is refused.
    OutOfMemory,
    /// The hash is that of another password.
    HashMismatch,
}

/// What is wrong with a stored text, cut at every `$`: the first fault in this order.
#[derive(Clone, Copy, Debug, PartialEq, Eq)]
pub enum TextFault {
    /// The first piece isn't empty.
    NoDollar,
    /// The second piece is missing, or is not the identifier.
    WrongId,
    /// No piece stands behind the identifier.
    NoParams,
    /// No piece follows the parameters of a text `$y$`.
    NoSalt,
    /// The hash is missing.
    NoHash,
    /// A piece follows the hash.
    Trailing,
    /// The parameters are not numbers in their one spelling.
    Params,
    /// The flavor of a text `$y$` is not `j`.
    Flavor,
    /// A text `$y$` has a parallelism p above 1.
    Parallelism,
    /// A text `$y$` names upgrades g.
    Upgrades,
    /// A text `$y$` names a ROM.
    Rom,
    /// The table has more than 2^30 bytes; or, in a text `$y$`, a row has 2^26 or more.
    Memory,
    /// Another cost is not taken: fewer than 4 rows, or a time t above 1,024; in a text `$7$`, r = 0, p = 0 or above 1,024,
    /// r * p above 131,072, or N not below 2^(16 * r).
    Cost,
    /// The salt of a text `$y$` is not the encoding of 1 to 64 bytes; that of a text `$7$` has more than 86 bytes,
    /// or one that is none of `./0-9A-Za-z`.
    Salt,
    /// The hash is not the encoding of 32 bytes.
    Hash,
}

/// Why no text is made: the first cause in this order.
#[derive(Clone, Copy, Debug, PartialEq, Eq)]
pub enum MakeError {
    /// The costs are not taken.
    Cost,
    /// The salt is empty or too long, or, for a text `$7$`, has a byte that is none of `./0-9A-Za-z`.
    Salt,
    /// The password has more than 4,096 bytes.
    PasswordTooLong,
    /// Memory for the table is refused.
    OutOfMemory,
}
