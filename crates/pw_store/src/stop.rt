//! Why no further line is answered.

/// Why no further line is answered.
#[derive(Clone, Copy, Debug, PartialEq, Eq)]
pub enum Stop {
    /// The source has ended.
    End,
    /// A read failed.
    ReadFault,
    /// A write of replies failed.
    WriteFault,
    /// The source holds more bytes than may be read.
    Budget,
    /// Memory is wanting for the next line.
    NoMemory,
}
