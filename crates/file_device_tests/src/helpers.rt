//! Places of a test's own, and files of lines there.

ghost use Rattle.std.specs.Prelude.{true, IfSome};
ghost use Rattle.file_device.specs.Calls.{MayLeave, seen};
ghost use Rattle.line_log.specs.Log.{IsSettled};

use file_device::{DeviceFault, FileDevice, Opened, open};
use line_log::{FILE_MAX, LineLog, Taker, create, is_group, recover};
use std::alloc::AllocError;
use std::hash::{BuildHasher, RandomState};
use std::os::unix::fs::PermissionsExt;
use std::{fs, io};

pub const NONE: &[u8] = b"#pwstore 1\n#";

pub const GROUP: &[u8] = b"set\tbob\t$1$a$b\nset\tann\t$6\n";

pub const TWO: &[u8] = b"#pwstore 1\nset\tbob\t$1$a$b\nset\tann\t$6\n#";

/// A folder of a test's own, with nothing in it at first, the name of a file there, that of the new file beside it, and one
/// more name.
#[derive(Drop)]
pub struct Place {
    pub folder: String,
    pub name: String,
    pub new_name: String,
    pub other: String,
}

fn made(rt: &HostRuntime) -> io::Result<Place> {
    let key = RandomState::new(rt)?.hash_one(&0u8);
    let folder = format!(in rt.alloc(); "/tmp/file_device_{key:x}")?;
    fs::create_dir(rt, folder.as_str())?;
    Ok(Place {
        name: format!(in rt.alloc(); "{}/table", folder.as_str())?,
        new_name: format!(in rt.alloc(); "{}/.table.pwstore-new", folder.as_str())?,
        other: format!(in rt.alloc(); "{}/table.new", folder.as_str())?,
        folder,
    })
}

/// A new place.
pub fn new_place(rt: &HostRuntime) -> Option<Place> {
    made(rt).ok()
}

/// Takes the place away.
pub fn clear(rt: &HostRuntime, place: Place) -> bool {
    fs::remove_dir_all(rt, place.folder.as_str()).is_ok()
}

/// Writes a file with this mode.
pub fn write_as(rt: &HostRuntime, name: &str, bytes: &[u8], mode: u32) -> bool {
    fs::write(rt, name, bytes).is_ok()
        && fs::set_permissions(rt, name, PermissionsExt::from_mode(mode)).is_ok()
}

/// Writes a file that is its owner's alone.
pub fn write(rt: &HostRuntime, name: &str, bytes: &[u8]) -> bool {
    write_as(rt, name, bytes, 0o600)
}

/// Whether a file has these bytes.
pub fn has(rt: &HostRuntime, name: &str, bytes: &[u8]) -> bool {
    match fs::read(rt, name) {
        Ok(found) => found.as_slice() == bytes,
        Err(_) => false,
    }
}

/// Whether nothing has the name.
pub fn is_free(rt: &HostRuntime, name: &str) -> bool {
    fs::symlink_metadata(rt, name).is_err()
}

/// What takes every line.
#[derive(Drop)]
struct Every;

impl Taker for Every {
    ghost takes = { λ _ _. true };

    ghost after = { λ s _. s };

    fn take(&mut self, _line: &[u8]) -> Result<bool, AllocError> {
        Ok(true)
    }
}

/// Opens a file as a device.
pub fn opened<'a>(rt: &'a HostRuntime, name: &str) -> Option<FileDevice<'a>> {
    match open(rt, name) {
        Ok(Opened { device, .. }) => Some(device),
        Err(_) => None,
    }
}

/// Opens a file that is there, or makes one of no lines.
pub fn log<'a>(rt: &'a HostRuntime, name: &str) -> Option<LineLog<FileDevice<'a>>>
    ensures settled { IfSome result (λ log.
        IsSettled (λ d. seen d.record.calls) (λ d c. MayLeave d.record.calls c) log) }
{
    let Ok(
        Opened {
            mut device,
            bytes,
            is_there,
            is_shared: _,
        },
    ) = open(rt, name)
    else {
        return None;
    };
    let end = if is_there {
        recover(&mut device, &bytes, &mut Every).ok()?
    } else {
        create(&mut device, b"").ok()?
    };
    Some(LineLog { device, end })
}

/// Whether a file is opened, or made.
pub fn opens(rt: &HostRuntime, name: &str) -> bool {
    log(rt, name).is_some()
}

/// Adds a group, and tells whether it was added.
pub fn put(log: &mut LineLog<FileDevice<'_>>, group: &[u8]) -> bool
    requires settled { IsSettled (λ d. seen d.record.calls) (λ d c. MayLeave d.record.calls c) log.old }
{
    is_group(group) && log.has_room(group.len()) && log.put(group).is_ok()
}

/// Makes the file anew, and tells whether it was made.
pub fn rewrite(log: &mut LineLog<FileDevice<'_>>, group: &[u8]) -> bool
    requires settled { IsSettled (λ d. seen d.record.calls) (λ d c. MayLeave d.record.calls c) log.old }
{
    is_group(group) && group.len() <= FILE_MAX && log.rewrite(group).is_ok()
}

/// Makes a file of no lines by a device, and gives the cause where it isn't made.
pub fn made_by(device: &mut FileDevice<'_>) -> Option<DeviceFault> {
    let _ = create(device, b"");
    device.cause()
}

/// Opens a file, makes it anew, and gives the cause where it isn't made.
pub fn rewritten(rt: &HostRuntime, name: &str, group: &[u8]) -> Result<(), Option<DeviceFault>> {
    let Some(mut log) = log(rt, name) else {
        return Err(None);
    };
    if rewrite(&mut log, group) {
        Ok(())
    } else {
        Err(log.device.cause())
    }
}

/// Lines of so many bytes each.
pub fn lines_of(rt: &HostRuntime, lens: &[usize]) -> Option<Vec<u8>> {
    let mut lines = Vec::new(rt.alloc());
    for len in lens {
        add_line(&mut lines, *len).ok()?;
    }
    Some(lines)
}

/// A file of these lines.
pub fn file_of(rt: &HostRuntime, lens: &[usize]) -> Option<Vec<u8>> {
    let lines = lines_of(rt, lens)?;
    let mut file = b"#pwstore 1\n".to_vec(rt.alloc()).ok()?;
    file.extend_from_slice(&lines).ok()?;
    file.push(b'#').ok()?;
    Some(file)
}

// Adds a line of so many bytes.
fn add_line(file: &mut Vec<u8>, len: usize) -> Result<(), AllocError> {
    let end = file.len().saturating_add(len.saturating_sub(2));
    file.extend_from_slice(b"set\tlong\t")?;
    file.resize(end, b'x')?;
    file.extend_from_slice(b"y\n")?;
    Ok(())
}
