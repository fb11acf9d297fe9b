//! Why a call of a device fails.

use std::io;

/// Why a call failed.
#[derive(Clone, Copy, Debug)]
pub enum DeviceFault {
    /// The system refused a call.
    Io(io::Error),
    /// The file's name leads to another file, or to none.
    Moved,
    /// Another process makes the file, or has made it since it was looked for.
    InUse,
    /// What has the new file's name isn't what a run that was ended has left there, and stays.
    NameTaken,
    /// Others than its owner have rights on the file. Where an access control list gives them, no call here can copy it.
    Shared,
}

impl From<io::Error> for DeviceFault {
    fn from(error: io::Error) -> DeviceFault {
        DeviceFault::Io(error)
    }
}
