//! Why a text of md5-crypt gets no verdict.

/// A fault of an md5-crypt text, the first in this order.
#[derive(Clone, Copy, Debug, PartialEq, Eq)]
pub enum Md5Fault {
    /// No field stands behind the identifier.
    NoSalt,
    /// No field follows the salt.
    NoHash,
    /// A field follows the hash.
    Trailing,
    /// The salt has more than 8 bytes.
    SaltTooLong,
    /// The last field is the hash field of no digest.
    Base64,
}
