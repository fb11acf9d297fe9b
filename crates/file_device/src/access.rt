//! The owner, the group and the mode of a file.

use std::fs::File;
use std::io;
use std::os::unix::fs::{MetadataExt, fchown};

/// The rights of the group and of all others, in a mode.
const OF_OTHERS: u32 = 0o077;

/// Whether others than its owner have rights on the file: the group, all others, or whom an access control list names.
///
/// Such a list gives nobody more than the group's rights in the mode, which are its mask.
pub(crate) fn is_shared(file: &File) -> io::Result<bool> {
    Ok(file.metadata()?.mode() & OF_OTHERS != 0)
}

/// Gives a file the owner, the group and the mode of another.
pub(crate) fn copy_access(from: &File, to: &File) -> io::Result<()> {
    let (old, new) = (from.metadata()?, to.metadata()?);
    if old.uid() != new.uid() || old.gid() != new.gid() {
        fchown(to, Some(old.uid()), Some(old.gid()))?;
    }
    to.set_permissions(old.permissions())
}
