//! Why no text is made, and why a name is no scheme's.

/// Why no text is made: the first cause in this order.
#[derive(Clone, Copy, Debug, PartialEq, Eq)]
pub enum MakeFault {
    /// The scheme does not take the cost ([`MakeCost::is_taken`](crate::MakeCost::is_taken)).
    Cost,
    /// The salt has not as many bytes as [`MakeCost::salt_length`](crate::MakeCost::salt_length) tells.
    Salt,
    /// The password has more than 4,096 bytes; for bcrypt, of which no more count, more than 72.
    PasswordTooLong,
    /// The password is not UTF-8.
    NotUtf8,
    /// The password has a zero byte, where crypt(3), whose scheme this is, takes it to end.
    ZeroByte,
    /// A table for the key is refused.
    OutOfMemory,
    /// The buffer has fewer bytes than the text.
    BufferShort,
}

/// Why a name stands for no scheme of which texts are made.
#[derive(Clone, Copy, Debug, PartialEq, Eq)]
pub enum NameFault {
    /// Texts of the scheme are weak whatever they ask for.
    Weak,
    /// No scheme has the name, or none of its texts are made.
    Unknown,
}
