//! Files that crashes leave, and files that no run can have left.

use crate::helpers::{EMPTY, ONE, becomes, count_outcomes, memory, recovered};
use line_log::{MemoryDevice, OpenError};
use pw_file::StoredTexts;
use pw_store::{create, recover};
use scrypt_plain::ScryptKept;
use std::alloc::{AllocError, Global};
use std::process::Abort;

// What a crash can leave of the file of one line, while a group is added and while its end is repaired.
const ENDS: &[&[u8]] = &[
    b"#pwstore 1\nset\tann\t$5\n",
    b"#pwstore 1\nset\tann\t$5\ns",
    b"#pwstore 1\nset\tann\t$5\n\n",
    b"#pwstore 1\nset\tann\t$5\n#et\tbob",
    b"#pwstore 1\nset\tann\t$5\n#et\tbob\t$1$a$b\n#",
    b"#pwstore 1\nset\tann\t$5\n\0et\tbob\t$1$a$b\nset\tann\t$6\n#",
    b"#pwstore 1\nset\tann\t$5\n\0\0\0\0\0\0\0\0\0\0",
];

// A constant is written out in each function that names it, so only this one does.
fn ends() -> &'static [&'static [u8]] {
    ENDS
}

#[test]
fn ends_are_repaired(rt: HostRuntime) {
    for (i, end) in ends().iter().enumerate() {
        assert!(rt; becomes(rt.alloc(), end, ONE), "of {i}");
    }
}

// What recovery of a file is refused for, and its device then. The device's call of the number `failing` fails.
fn refused(rt: &impl Abort, alloc: Global, file: &[u8], failing: u64) -> (OpenError, MemoryDevice) {
    let Some((mut device, bytes)) = memory(alloc, file, failing) else {
        panic!(rt; "want of memory")
    };
    let kept = ScryptKept::new(alloc);
    match recover::<MemoryDevice, StoredTexts>(alloc, kept, &mut device, &bytes) {
        Err(e) => (e, device),
        Ok(_) => panic!(rt; "it is refused"),
    }
}

// A call of recovery fails, and a file of each crash then is recovered.
fn fails_and_recovers(rt: &impl Abort, alloc: Global, i: usize, end: &[u8], failing: u64) {
    let (error, device) = refused(rt, alloc, end, failing);
    assert!(rt; error == OpenError::Failed, "of {i} at {failing}");
    assert!(rt;
        count_outcomes(alloc, &device, ONE, ONE) == (84, 0, 0),
        "of {i} at {failing}"
    );
}

#[test]
fn recovery_through_crashes(rt: HostRuntime) {
    for (i, end) in ends().iter().enumerate() {
        for failing in 0..5 {
            fails_and_recovers(&rt, rt.alloc(), i, end, failing);
        }
    }
}

// Files that no run can have left, and why. No key is derived for a line that isn't a `set`.
const REFUSED: &[(&[u8], OpenError)] = &[
    (b"", OpenError::NoHeader),
    (b"#pwstore 2\n#", OpenError::NoHeader),
    (b"#pwstore 1\nset\tann", OpenError::BadEnd(11)),
    (b"#pwstore 1\nset\tann\n#", OpenError::BadLine(11)),
    (
        b"#pwstore 1\nset\tann\t$5\nset\tAnn\t$5\n#",
        OpenError::BadLine(22),
    ),
    (
        b"#pwstore 1\nset\tann\t$5\nset\tbob\t$\n#",
        OpenError::BadLine(22),
    ),
    (
        b"#pwstore 1\nset\tann\t$5\nset\tbob\t\xff\n#",
        OpenError::BadLine(22),
    ),
    (b"#pwstore 1\nset\tann\t$5\ns\n#", OpenError::BadLine(22)),
    // The users of this policy aren't taken away.
    (
        b"#pwstore 1\nset\tann\t$5\nset\tann\n#",
        OpenError::BadLine(22),
    ),
    (
        b"#pwstore 1\nset\tann\t$5\nset\tbob\t$5\nset",
        OpenError::BadEnd(33),
    ),
];

// A file is refused, and stays as it was.
fn is_refused(rt: &impl Abort, alloc: Global, i: usize, file: &[u8], error: OpenError) {
    let (found, device) = refused(rt, alloc, file, 1_000);
    assert!(rt; found == error, "of {i}");
    assert!(rt; device.number() == 0, "of {i}");
    assert!(rt; device.bytes() == file, "of {i}");
}

#[test]
fn files_are_refused_by_name(rt: HostRuntime) {
    for (i, (file, error)) in REFUSED.iter().enumerate() {
        is_refused(&rt, rt.alloc(), i, file, *error);
    }
}

// A file of one line of so many bytes.
fn long_line(alloc: Global, count: usize) -> Result<Vec<u8>, AllocError> {
    let mut file = b"#pwstore 1\nset\tann\t$".to_vec(alloc)?;
    file.resize(count.saturating_add(11), b'5')?;
    file.extend_from_slice(b"\n#")?;
    Ok(file)
}

#[test]
fn a_long_line_is_refused(rt: HostRuntime) {
    let file = long_line(rt.alloc(), 8_193).expect(&rt, "want of memory");
    match recovered(rt.alloc(), &file) {
        Err(e) => assert!(rt; e == OpenError::BadLine(11)),
        Ok(_) => panic!(rt; "it is refused"),
    }
}

// The length of the table and the end of the lines of a new file, or nothing where a call of its device fails.
fn created(alloc: Global, device: &mut MemoryDevice) -> Option<(usize, usize)> {
    match create::<MemoryDevice, StoredTexts>(alloc, ScryptKept::new(alloc), device) {
        Ok((table, end)) => Some((table.len(), end)),
        Err(_) => None,
    }
}

// The same of a device whose call of the number `failing` fails, and whose bytes then are those of an empty file only where
// `is_written` says so.
fn made(rt: &impl Abort, alloc: Global, failing: u64, is_written: bool) -> Option<(usize, usize)> {
    let Some((mut device, _)) = memory(alloc, b"", failing) else {
        panic!(rt; "want of memory")
    };
    let made = created(alloc, &mut device);
    assert!(rt; (device.bytes() == EMPTY) == is_written, "at {failing}");
    made
}

#[test]
fn a_file_is_made(rt: HostRuntime) {
    for failing in 0..7 {
        let is_made = made(&rt, rt.alloc(), failing, failing > 5).is_some();
        assert!(rt; !is_made, "at {failing}");
    }
    assert!(rt; made(&rt, rt.alloc(), 7, true) == Some((0, 11)));
}
