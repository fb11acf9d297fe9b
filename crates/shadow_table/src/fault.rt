//! Why a text isn't taken.

/// The first cause.
#[derive(Clone, Copy, Debug, PartialEq, Eq)]
pub enum FieldFault {
    /// A byte isn't printable ASCII, or is a colon.
    Byte,
}
