//! Files that are made, written, read, locked and moved.

use crate::helpers::{
    GROUP, NONE, TWO, clear, file_of, has, is_free, lines_of, log, new_place, opened, opens, put,
    rewrite, write, write_as,
};
use file_device::{DeviceFault, OpenFault, open};
use line_log::Device;
use std::fs::{self, OpenOptions};
use std::io;
use std::os::unix::fs::{MetadataExt, symlink};

const TORN: &[u8] = b"#pwstore 1\nset\tann\t$6\n#et\tbob\t$1$a";

const ONE: &[u8] = b"#pwstore 1\nset\tann\t$6\n#";

#[test]
fn a_file_is_made(rt: HostRuntime) {
    let Some(place) = new_place(&rt) else {
        panic!(rt; "no folder is made")
    };
    let name = place.name.as_str();
    assert!(rt; opens(&rt, name));
    assert!(rt; has(&rt, name, NONE));
    match fs::metadata(&rt, name) {
        Ok(found) => assert!(rt; found.mode() & 0o777 == 0o600),
        Err(_) => panic!(rt; "it is there"),
    }
    assert!(rt; clear(&rt, place));
}

#[test]
fn a_file_grows(rt: HostRuntime) {
    let Some(place) = new_place(&rt) else {
        panic!(rt; "no folder is made")
    };
    let name = place.name.as_str();
    assert!(rt; write(&rt, name, NONE));
    let Some(mut grown) = log(&rt, name) else {
        panic!(rt; "it is opened")
    };
    assert!(rt; put(&mut grown, GROUP) && grown.device.cause().is_none());
    assert!(rt; has(&rt, name, TWO));
    drop(grown);
    match log(&rt, name) {
        Some(again) => assert!(rt; again.end == 37),
        None => panic!(rt; "it is opened"),
    }
    assert!(rt; clear(&rt, place));
}

#[test]
fn long_files_and_long_groups(rt: HostRuntime) {
    let Some(place) = new_place(&rt) else {
        panic!(rt; "no folder is made")
    };
    let name = place.name.as_str();
    let (Some(before), Some(group), Some(after)) = (
        file_of(&rt, &[15_000, 15_000, 15_000, 15_000]),
        lines_of(&rt, &[3_000]),
        file_of(&rt, &[15_000, 15_000, 15_000, 15_000, 3_000]),
    ) else {
        panic!(rt; "memory is wanting")
    };
    assert!(rt; after.len() == 63_012 && write(&rt, name, &before));
    let Some(mut grown) = log(&rt, name) else {
        panic!(rt; "it is opened")
    };
    assert!(rt; grown.end == 60_011 && put(&mut grown, &group));
    drop(grown);
    assert!(rt; has(&rt, name, &after));
    match open(&rt, name) {
        Ok(opened) => assert!(rt; opened.bytes.as_slice() == after.as_slice()),
        Err(_) => panic!(rt; "it is opened"),
    }
    assert!(rt; clear(&rt, place));
}

#[test]
fn a_torn_end_is_cut_off(rt: HostRuntime) {
    let Some(place) = new_place(&rt) else {
        panic!(rt; "no folder is made")
    };
    assert!(rt; write(&rt, place.name.as_str(), TORN));
    assert!(rt; opens(&rt, place.name.as_str()));
    assert!(rt; has(&rt, place.name.as_str(), ONE));
    assert!(rt; clear(&rt, place));
}

#[test]
fn one_process_at_a_time(rt: HostRuntime) {
    let Some(place) = new_place(&rt) else {
        panic!(rt; "no folder is made")
    };
    let name = place.name.as_str();
    let Some(mut first) = log(&rt, name) else {
        panic!(rt; "it is opened")
    };
    assert!(rt; matches!(open(&rt, name), Err(OpenFault::InUse)));
    // The lock goes with the name.
    assert!(rt; rewrite(&mut first, GROUP) && matches!(open(&rt, name), Err(OpenFault::InUse)));
    drop(first);
    assert!(rt; open(&rt, name).is_ok());
    assert!(rt; clear(&rt, place));
}

#[test]
fn files_that_others_may_read(rt: HostRuntime) {
    let Some(place) = new_place(&rt) else {
        panic!(rt; "no folder is made")
    };
    let name = place.name.as_str();
    for (mode, shared) in [(0o600, false), (0o604, true), (0o640, true), (0o610, true)] {
        assert!(rt; write_as(&rt, name, TWO, mode));
        match open(&rt, name) {
            Ok(opened) => assert!(rt; opened.is_shared == shared && opened.is_there, "{mode:o}"),
            Err(_) => panic!(rt; "it is opened"),
        }
    }
    assert!(rt; clear(&rt, place));
}

#[test]
fn a_file_that_was_moved_takes_no_change(rt: HostRuntime) {
    let Some(place) = new_place(&rt) else {
        panic!(rt; "no folder is made")
    };
    let name = place.name.as_str();
    let far = place.other.as_str();
    assert!(rt; write(&rt, name, ONE));
    let Some(mut moved) = log(&rt, name) else {
        panic!(rt; "it is opened")
    };
    assert!(rt; fs::rename(&rt, name, far).is_ok());
    // What has the name now isn't the file that is open.
    assert!(rt; write(&rt, name, ONE));
    assert!(rt; !put(&mut moved, GROUP) && has(&rt, name, ONE));
    assert!(rt; matches!(moved.device.cause(), Some(DeviceFault::Moved)));
    drop(moved);
    // The group that was staged isn't one.
    assert!(rt; opens(&rt, far));
    assert!(rt; has(&rt, far, ONE));
    assert!(rt; clear(&rt, place));
}

#[test]
fn what_is_no_file_is_refused(rt: HostRuntime) {
    let Some(place) = new_place(&rt) else {
        panic!(rt; "no folder is made")
    };
    assert!(rt; symlink(&rt, place.name.as_str(), place.other.as_str()).is_ok());
    for other in [
        place.folder.as_str(),
        place.other.as_str(),
        "/tmp/file_device_not_there/",
        "file_device_not_there/",
        "file_device_not_there/.",
        "",
        "..",
        "/",
    ] {
        assert!(rt;
            matches!(open(&rt, other), Err(OpenFault::NotAFile)),
            "{other}"
        );
    }
    assert!(rt; clear(&rt, place));
}

#[test]
fn what_cannot_be_read_is_refused(rt: HostRuntime) {
    let Some(place) = new_place(&rt) else {
        panic!(rt; "no folder is made")
    };
    let name = place.name.as_str();
    match open(&rt, "/tmp/file_device_not_there/not/there") {
        Err(OpenFault::Io(error)) => assert!(rt; error.kind() == io::ErrorKind::NotFound),
        _ => panic!(rt; "there is no such folder"),
    }
    assert!(rt; write(&rt, name, NONE));
    match OpenOptions::new().write(true).open(&rt, name) {
        Ok(long) => assert!(rt; long.set_len((1 << 28) + (1 << 15) + 1).is_ok()),
        Err(_) => panic!(rt; "it is opened"),
    }
    assert!(rt; matches!(open(&rt, name), Err(OpenFault::TooLong)));
    assert!(rt; clear(&rt, place));
}

#[test]
fn no_sync_is_made_once_a_call_has_failed(rt: HostRuntime) {
    let Some(place) = new_place(&rt) else {
        panic!(rt; "no folder is made")
    };
    assert!(rt; write(&rt, place.name.as_str(), TWO));
    let Some(mut device) = opened(&rt, place.name.as_str()) else {
        panic!(rt; "it is opened")
    };
    assert!(rt; device.sync().is_ok() && device.append_replacement(b"#").is_err());
    assert!(rt; device.sync().is_err() && device.begin_replacement().is_ok());
    assert!(rt; device.sync_replacement().is_err() && device.replace().is_err());
    // The first cause stays, and the new file is taken away.
    match device.cause() {
        Some(DeviceFault::Io(error)) => assert!(rt; error.kind() == io::ErrorKind::NotFound),
        _ => panic!(rt; "it tells another cause"),
    }
    assert!(rt; is_free(&rt, place.new_name.as_str()));
    assert!(rt; clear(&rt, place));
}
