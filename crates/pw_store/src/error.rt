//! Why a call is refused.

use pw_file::FileError;

/// The first cause, in this order. The faults of texts and of verdicts are those of the policy.
#[derive(Clone, Copy, Debug, PartialEq, Eq)]
pub enum StoreError<T, V> {
    /// A write failed, in this call or before it. No further change is taken.
    DiskFault,
    /// The table refuses, or memory is wanting.
    Table(FileError<T, V>),
    /// The file has no room for a further line.
    FileFull,
}
