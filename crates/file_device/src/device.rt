//! A file of the system as a device: each call makes one call of the system, or a few, and then notes what was done.

ghost use Rattle.std.specs.Prelude.{◌≡◌, ◌≤◌, ◌∷◌, true, is_ok, length, OnOk};
ghost use Rattle.std.specs.Option.{ForNone};
ghost use Rattle.file_device.specs.Calls.{call_by, faults, is_renewed};

use crate::fault::DeviceFault;
use crate::locking::{FileId, has_name};
use crate::record::Record;
use crate::replacing::{new_replacement, take_away};
use line_io::Failed;
use line_log::Device;
use std::fs::{self, File};
use std::io;
use std::os::unix::fs::FileExt;
use std::time::{Duration, Instant};

/// For how many milliseconds a look at the name holds: it costs a tenth of a change and more on a fast disk, which takes many
/// changes in this time.
const LOOK_HOLDS: u64 = 1;

// The kinds of calls, as specs/Calls numbers them.
pub(crate) const OPENED: u64 = 0;

pub(crate) const WROTE: u64 = 1;

const CUT: u64 = 2;

const SYNCED: u64 = 3;

const BEGAN: u64 = 4;

const ADDED: u64 = 5;

const SYNCED_NEW: u64 = 6;

const REPLACED: u64 = 7;

/// Where a file is: its name, the name of a file that is to replace it, and the folder of both.
#[derive(Drop)]
pub(crate) struct Place {
    pub name: String,
    pub new_name: String,
    pub folder: File,
}

/// A file that is to replace another, which file it is, and how many bytes were added to it.
#[derive(Drop)]
pub(crate) struct Replacement {
    pub file: File,
    pub id: FileId,
    pub len: u64,
}

/// A file of the system, which no other process has open as a device.
///
/// What its contracts say of bytes is what is argued from the calls that were made: no memory holds it, and no read
/// gives it.
///
/// Once a call has failed no sync is made any more, and each fails: the system gives up what it couldn't put on the disk,
/// and a sync behind that one answers as if all were there.
#[derive(Drop)]
pub struct FileDevice<'a> {
    pub(crate) rt: &'a HostRuntime,
    pub(crate) place: Place,
    /// The file, if there is one.
    pub(crate) file: Option<File>,
    /// Which file it is, if there is one.
    pub(crate) id: Option<FileId>,
    /// How many writes weren't synced yet.
    pub(crate) unsynced: u8,
    /// When the name was looked up last, since the opening.
    pub(crate) looked: Option<Instant>,
    pub(crate) replacement: Option<Replacement>,
    /// Whether the folder's new entry isn't synced yet.
    pub(crate) is_renamed: bool,
    /// Why the first call that failed did so.
    pub(crate) cause: Option<DeviceFault>,
    pub(crate) record: Record,
    pub(crate) ghost healthy: { ForNone cause (faults record.calls ≡ 0) },
    pub(crate) ghost renewed: { is_renewed record.calls ≡ true },
}

// Why there is nothing to call.
fn no_file() -> DeviceFault {
    DeviceFault::Io(io::ErrorKind::NotFound.into())
}

fn write_file(file: &Option<File>, at: usize, bytes: &[u8]) -> Result<(), DeviceFault> {
    match file {
        Some(file) => Ok(file.write_all_at(bytes, at as u64)?),
        None => Err(no_file()),
    }
}

fn cut_file(file: &Option<File>, len: usize) -> Result<(), DeviceFault> {
    match file {
        Some(file) => Ok(file.set_len(len as u64)?),
        None => Err(no_file()),
    }
}

fn sync(file: &Option<File>) -> Result<(), DeviceFault> {
    match file {
        Some(file) => Ok(file.sync_data()?),
        None => Err(no_file()),
    }
}

// Looks whether the name leads to the file: where it does no more, what the file has would be lost with it.
fn look_up(rt: &HostRuntime, id: Option<FileId>, name: &str) -> Result<(), DeviceFault> {
    match id {
        Some(id) if has_name(rt, id, name)? => Ok(()),
        Some(_) => Err(DeviceFault::Moved),
        None => Err(no_file()),
    }
}

// The same, where the last look doesn't hold any more; and when the last look was.
fn looked_up(
    rt: &HostRuntime,
    last: Option<Instant>,
    id: Option<FileId>,
    name: &str,
) -> Result<Option<Instant>, DeviceFault> {
    let now = Instant::now(rt)?;
    match last {
        Some(last) if now.duration_since(last) < Duration::from_millis(LOOK_HOLDS) => {
            Ok(Some(last))
        }
        _ => {
            look_up(rt, id, name)?;
            Ok(Some(now))
        }
    }
}

fn add(replacement: &mut Option<Replacement>, bytes: &[u8]) -> Result<(), DeviceFault> {
    match replacement {
        Some(replacement) => {
            replacement.file.write_all_at(bytes, replacement.len)?;
            replacement.len = replacement.len.saturating_add(bytes.len() as u64);
            Ok(())
        }
        None => Err(no_file()),
    }
}

fn sync_new(replacement: &Option<Replacement>) -> Result<(), DeviceFault> {
    match replacement {
        Some(replacement) => Ok(replacement.file.sync_all()?),
        None => Err(no_file()),
    }
}

// Gives the file that is to replace another its name.
fn rename(
    rt: &HostRuntime,
    place: &Place,
    replacement: &Option<Replacement>,
) -> Result<(), DeviceFault> {
    let Some(replacement) = replacement else {
        return Err(no_file());
    };
    let new_name = place.new_name.as_str();
    look_up(rt, Some(replacement.id), new_name)?;
    fs::rename(rt, new_name, place.name.as_str())?;
    Ok(())
}

// Takes away a file that was to replace another, after a call has failed.
fn give_up(rt: &HostRuntime, place: &Place, replacement: Option<Replacement>) {
    if let Some(replacement) = replacement {
        take_away(rt, &replacement.file, place.new_name.as_str());
    }
}

impl FileDevice<'_> {
    /// Why the first call that failed did so.
    pub fn cause(&self) -> Option<DeviceFault> {
        self.cause
    }

    /// The name of the file that is to replace this one.
    pub fn new_name(&self) -> &str {
        self.place.new_name.as_str()
    }

    // Notes a call and whether it was done. Where it wasn't, no file replaces this one any more.
    fn note(
        &mut self,
        kind: u64,
        done: Result<(), DeviceFault>,
        at: usize,
        bytes: &[u8],
    ) -> Result<(), Failed>
        requires kind { 1 ≤ kind }
        ensures call { self.new.record.calls ≡ call_by kind (is_ok done) at bytes.now ∷ self.old.record.calls }
        ensures result { is_ok result ≡ is_ok done }
    {
        match done {
            Ok(()) => {
                self.record = Record::noted(&self.record, &[kind, 1, at as u64], bytes);
                Ok(())
            }
            Err(fault) => {
                self.record = Record::noted(&self.record, &[kind, 0, at as u64], bytes);
                self.cause = Some(self.cause.unwrap_or(fault));
                give_up(self.rt, &self.place, self.replacement.take());
                Err(Failed)
            }
        }
    }

    // Syncs the file, and before it the folder, where the file's name is a new one.
    fn sync_file(&mut self) -> Result<(), DeviceFault>
        ensures calls { self.new.record.calls ≡ self.old.record.calls }
        ensures healthy { OnOk result (faults self.old.record.calls ≡ 0) }
    {
        if let Some(cause) = self.cause {
            return Err(cause);
        }
        if self.is_renamed {
            self.place.folder.sync_all()?;
        }
        sync(&self.file)?;
        // Two writes stage a group, and one opens it: the name is looked up before it is opened.
        if self.unsynced > 1 {
            self.looked = looked_up(self.rt, self.looked, self.id, self.place.name.as_str())?;
        }
        self.unsynced = 0;
        self.is_renamed = false;
        Ok(())
    }

    // Syncs the file that is to replace this one.
    fn sync_made(&self) -> Result<(), DeviceFault>
        ensures healthy { OnOk result (faults self.now.record.calls ≡ 0) }
    {
        match self.cause {
            Some(cause) => Err(cause),
            None => sync_new(&self.replacement),
        }
    }

    // Begins a file that is to replace this one.
    fn make_replacement(&mut self) -> Result<(), DeviceFault>
        ensures calls { self.new.record.calls ≡ self.old.record.calls }
    {
        let replacement = new_replacement(self.rt, &self.place, &self.file)?;
        self.replacement = Some(replacement);
        Ok(())
    }

    // Puts that file in the place of this one.
    fn take_replacement(&mut self) -> Result<(), DeviceFault>
        ensures calls { self.new.record.calls ≡ self.old.record.calls }
    {
        rename(self.rt, &self.place, &self.replacement)?;
        if let Some(replacement) = self.replacement.take() {
            self.id = Some(replacement.id);
            self.file = Some(replacement.file);
        }
        self.is_renamed = true;
        Ok(())
    }
}

impl Device for FileDevice<'_> {
    ghost use Rattle.std.specs.Prelude.{length};
    ghost use Rattle.file_device.specs.Calls.{LeftSince, MayHold, MayLeave, faults, replacement, seen};
    ghost use Rattle.file_device.specs.Moments.{counts_now, only_now};

    ghost seen = { λ d. seen d.record.calls };

    ghost may_leave = { λ d c. MayLeave d.record.calls c };

    ghost moment = { λ d. length d.record.calls };

    ghost left_since = { λ d t c. LeftSince d.record.calls t c };

    ghost faults = { λ d. faults d.record.calls };

    ghost replacement = { λ d. replacement d.record.calls };

    ghost replacement_may_hold = { λ d c. MayHold d.record.calls c };

    ghost counts_now = { λ d t c. counts_now d.record.calls t c };

    ghost only_now = { λ d c. only_now d.record.calls c };

    fn write_at(&mut self, at: usize, bytes: &[u8]) -> Result<(), Failed> {
        let done = write_file(&self.file, at, bytes);
        self.unsynced = self.unsynced.saturating_add(1);
        self.note(WROTE, done, at, bytes)
    }

    fn cut(&mut self, len: usize) -> Result<(), Failed> {
        let done = cut_file(&self.file, len);
        self.note(CUT, done, len, &[])
    }

    fn sync(&mut self) -> Result<(), Failed> {
        let done = self.sync_file();
        self.note(SYNCED, done, 0, &[])
    }

    fn begin_replacement(&mut self) -> Result<(), Failed> {
        let done = self.make_replacement();
        self.note(BEGAN, done, 0, &[])
    }

    fn append_replacement(&mut self, bytes: &[u8]) -> Result<(), Failed> {
        let done = add(&mut self.replacement, bytes);
        self.note(ADDED, done, 0, bytes)
    }

    fn sync_replacement(&mut self) -> Result<(), Failed> {
        let done = self.sync_made();
        self.note(SYNCED_NEW, done, 0, &[])
    }

    fn replace(&mut self) -> Result<(), Failed> {
        let done = self.take_replacement();
        self.note(REPLACED, done, 0, &[])
    }
}
