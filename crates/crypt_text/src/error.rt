//! Why there is no text.

/// The cause.
#[derive(Clone, Copy, Debug, Drop, PartialEq, Eq)]
pub enum CryptError {
    /// The phrase has 512 bytes or more; or the setting is one of `$7$` or `$y$` of 340 bytes or more. `ERANGE` in C.
    TooLong,
    /// The setting is none: it has a byte that no setting has, its method is not known here, or the method refuses it.
    /// `EINVAL` in C.
    Setting,
    /// Memory is wanting for scrypt or yescrypt. `ENOMEM` in C.
    OutOfMemory,
}
