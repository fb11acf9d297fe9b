//! The lock on a file, which belongs to the open file and not to its name.

use std::fs::{self, File, TryLockError};
use std::io;
use std::os::fd::AsRawFd;
use std::os::unix::fs::MetadataExt;

/// How often a file is looked for anew whose name another process has given or taken meanwhile.
pub(crate) const MOST_TRIES: u32 = 64;

/// Who holds the lock on a file.
#[derive(Clone, Copy, Debug, PartialEq, Eq)]
pub(crate) enum Holder {
    Own,
    Other,
}

/// Takes the lock on a file, where no other open file has it. The kernel gives it back when the file is closed, also by a
/// kill.
pub(crate) fn lock(file: &File) -> io::Result<Holder> {
    match file.try_lock() {
        Ok(()) => Ok(Holder::Own),
        Err(TryLockError::WouldBlock) => Ok(Holder::Other),
        Err(TryLockError::Error(error)) => Err(error),
    }
}

/// Which file it is, whatever its names are.
#[derive(Clone, Copy, Debug, PartialEq, Eq)]
pub(crate) struct FileId {
    pub dev: u64,
    pub ino: u64,
}

/// Which file an open one is. That stays as long as it is open.
pub(crate) fn id_of(file: &File) -> io::Result<FileId> {
    let here = file.metadata()?;
    Ok(FileId {
        dev: here.dev(),
        ino: here.ino(),
    })
}

/// Whether this file is the one that has the name now.
pub(crate) fn has_name(rt: &HostRuntime, id: FileId, name: &str) -> io::Result<bool> {
    match fs::symlink_metadata(rt, name) {
        Ok(there) => Ok(there.dev() == id.dev && there.ino() == id.ino),
        Err(error) if error.kind() == io::ErrorKind::NotFound => Ok(false),
        Err(error) => Err(error),
    }
}

/// The same of an open file.
pub(crate) fn is_named(rt: &HostRuntime, file: &File, name: &str) -> io::Result<bool> {
    has_name(rt, id_of(file)?, name)
}

/// Whether the file has taken the place of standard input, output or error, which was closed. What the program says would
/// be written into it.
pub fn is_standard(file: &File) -> bool {
    file.as_raw_fd() < 3
}
