//! How a file is opened: found by its name, locked, synced and read.

ghost use Rattle.std.specs.Prelude.{◌≡◌, true, IfOk};
ghost use Rattle.file_device.specs.Calls.{faults, is_renewed, seen};

use crate::access::is_shared;
use crate::device::{FileDevice, OPENED, Place, WROTE};
use crate::locking::{Holder, MOST_TRIES, id_of, is_named, is_standard, lock};
use crate::record::Record;
use std::alloc::{AllocError, Global};
use std::fs::{self, File, OpenOptions};
use std::io;
use std::os::unix::fs::FileExt;
use std::path::Path;

/// The most bytes of a file that is read: those that a run writes at most, and a group behind them.
const LENGTH_MAX: u64 = (1 << 28) + (1 << 15);

/// The most bytes at the end of a file that a run whose sync failed may have left in the system's memory alone.
const TAIL_MAX: usize = 1 << 15;

/// Why a file isn't opened.
#[derive(Clone, Copy, Debug)]
pub enum OpenFault {
    /// Another process has it open.
    InUse,
    /// What has the name isn't a file, but a folder, a link or the like; or no file can have the name.
    NotAFile,
    /// It has more bytes than a run can have written.
    TooLong,
    /// Standard input, output or error is closed, so that the file would take its place.
    NoStandardStream,
    /// The system refused a call.
    Io(io::Error),
    /// Memory is wanting.
    OutOfMemory,
}

impl From<io::Error> for OpenFault {
    fn from(error: io::Error) -> OpenFault {
        OpenFault::Io(error)
    }
}

impl From<AllocError> for OpenFault {
    fn from(_error: AllocError) -> OpenFault {
        OpenFault::OutOfMemory
    }
}

/// A file that was opened, with its bytes.
#[derive(Drop)]
pub struct Opened<'a> {
    pub device: FileDevice<'a>,
    pub bytes: Vec<u8>,
    /// Whether there is a file at the name. One that isn't there has no bytes.
    pub is_there: bool,
    /// Whether others than its owner may read or write it.
    pub is_shared: bool,
}

// The name of the file that is to replace one of this name: beside it, and one that nobody gives.
fn new_name_of(alloc: Global, folder: &str, last: &str) -> Result<String, AllocError> {
    if folder.is_empty() {
        format!(in alloc; ".{last}.pwstore-new")
    } else {
        format!(in alloc; "{folder}/.{last}.pwstore-new")
    }
}

// The names of a file and of the one that is to replace it, and their folder.
fn place_of(rt: &HostRuntime, name: &str) -> Result<Place, OpenFault> {
    let path = Path::new(name);
    // A name that ends with a slash is a folder's.
    let last = match path.file_name() {
        Some(last) if name.ends_with(last) => last,
        _ => return Err(OpenFault::NotAFile),
    };
    let parent = match path.parent() {
        Some(parent) => parent.as_str(),
        None => "",
    };
    let folder = fs::open(rt, if parent.is_empty() { "." } else { parent })?;
    if is_standard(&folder) {
        return Err(OpenFault::NoStandardStream);
    }
    Ok(Place {
        name: String::from_str(rt.alloc(), name)?,
        new_name: new_name_of(rt.alloc(), parent, last)?,
        folder,
    })
}

// Opens and locks the file, where there is one.
fn open_once(rt: &HostRuntime, name: &str) -> Result<Option<File>, OpenFault> {
    match fs::symlink_metadata(rt, name) {
        Ok(found) if found.is_file() => {}
        Ok(_) => return Err(OpenFault::NotAFile),
        Err(error) if error.kind() == io::ErrorKind::NotFound => return Ok(None),
        Err(error) => return Err(error.into()),
    }
    let file = OpenOptions::new().read(true).write(true).open(rt, name)?;
    if is_standard(&file) {
        return Err(OpenFault::NoStandardStream);
    }
    match lock(&file)? {
        Holder::Own => Ok(Some(file)),
        Holder::Other => Err(OpenFault::InUse),
    }
}

// Opens and locks the file that has the name, where there is one. One that was replaced meanwhile is opened anew.
fn open_locked(rt: &HostRuntime, name: &str) -> Result<Option<File>, OpenFault> {
    for _ in 0..MOST_TRIES {
        match open_once(rt, name)? {
            None => return Ok(None),
            Some(file) => {
                if is_named(rt, &file, name)? {
                    return Ok(Some(file));
                }
            }
        }
    }
    Err(OpenFault::InUse)
}

// The bytes of a file, which is synced first, so that a power cut takes none of them back.
fn read_synced(rt: &HostRuntime, file: &File, folder: &File) -> Result<Vec<u8>, OpenFault> {
    file.sync_all()?;
    folder.sync_all()?;
    let length = file.metadata()?.len();
    if length > LENGTH_MAX {
        return Err(OpenFault::TooLong);
    }
    let mut bytes = Vec::from_elem(rt.alloc(), 0, length as usize)?;
    file.read_exact_at(bytes.as_mut_slice(), 0)?;
    Ok(bytes)
}

// Writes the last bytes of a file again, as a read gave them, so that the next sync puts them on the disk: behind a sync that
// failed the system may have them in its memory alone, and takes them for written.
fn renew(file: &File, bytes: &[u8]) -> io::Result<Record>
    ensures seen { IfOk result (λ noted. seen noted.calls ≡ bytes.now) }
    ensures healthy { IfOk result (λ noted. faults noted.calls ≡ 0) }
    ensures renewed { IfOk result (λ noted. is_renewed noted.calls ≡ true) }
{
    let opened = Record::noted(&Record::new(), &[OPENED, 1, 0], bytes);
    let at = bytes.len().saturating_sub(TAIL_MAX);
    let tail = &bytes[at..];
    file.write_all_at(tail, at as u64)?;
    Ok(Record::noted(&opened, &[WROTE, 1, at as u64], tail))
}

// The bytes of a file, if there is one, and what was done with it.
fn read_renewed(
    rt: &HostRuntime,
    file: &Option<File>,
    folder: &File,
) -> Result<(Vec<u8>, Record), OpenFault>
    ensures seen { IfOk result (λ found. found.0.items ≡ seen found.1.calls) }
    ensures healthy { IfOk result (λ found. faults found.1.calls ≡ 0) }
    ensures renewed { IfOk result (λ found. is_renewed found.1.calls ≡ true) }
{
    let Some(file) = file else {
        return Ok((Vec::new(rt.alloc()), Record::new()));
    };
    let bytes = read_synced(rt, file, folder)?;
    let record = renew(file, &bytes)?;
    Ok((bytes, record))
}

/// Opens the file of a name as a device, and reads it. It waits for no other process.
///
/// A file that isn't there is none: its device has no bytes, and a replacement makes it.
pub fn open<'a>(rt: &'a HostRuntime, name: &str) -> Result<Opened<'a>, OpenFault>
    ensures bytes { IfOk result (λ opened. opened.bytes.items ≡ seen opened.device.record.calls) }
{
    let place = place_of(rt, name)?;
    let file = open_locked(rt, name)?;
    let (bytes, record) = read_renewed(rt, &file, &place.folder)?;
    let (id, shared) = match &file {
        Some(file) => (Some(id_of(file)?), is_shared(file)?),
        None => (None, false),
    };
    Ok(Opened {
        is_there: file.is_some(),
        is_shared: shared,
        device: FileDevice {
            rt,
            place,
            file,
            id,
            unsynced: 0,
            looked: None,
            replacement: None,
            is_renamed: false,
            cause: None,
            record,
        },
        bytes,
    })
}
