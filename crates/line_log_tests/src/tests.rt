//! Groups added, ends repaired, files made anew and refused.

use crate::helpers::{
    GROUP, NONE_FAILS, ONE, THREE, becomes, count_outcomes, is_refused, log_of, memory, put,
    tally_of,
};
use line_log::{FILE_MAX, GROUP_MAX, LineLog, OpenError, create, is_group, recover};

#[test]
fn a_group_is_added_whole(rt: HostRuntime) {
    let Some(mut log) = log_of(rt.alloc(), NONE_FAILS) else {
        panic!(rt; "it is opened")
    };
    assert!(rt; put(&mut log, GROUP) && log.device.bytes() == THREE);
    // The sync of recovery, three writes and two syncs.
    assert!(rt; log.device.number() == 6);
    // All outcomes have the group.
    assert!(rt; count_outcomes(rt.alloc(), &log.device, ONE, THREE) == (0, 120, 0));
}

#[test]
fn a_long_group_takes_two_syncs_too(rt: HostRuntime) {
    let Some(mut log) = log_of(rt.alloc(), NONE_FAILS) else {
        panic!(rt; "it is opened")
    };
    let mut group = Vec::new(rt.alloc());
    assert!(rt; group.resize(GROUP_MAX - 1, b's').is_ok() && group.push(b'\n').is_ok());
    assert!(rt; put(&mut log, &group) && log.device.number() == 6);
    assert!(rt; log.device.bytes().len() == 23 + GROUP_MAX);
}

#[test]
fn a_crash_leaves_all_of_a_group_or_none(rt: HostRuntime) {
    let mut all = (0u64, 0u64);
    for failing in 1..6 {
        let Some(mut log) = log_of(rt.alloc(), failing) else {
            panic!(rt; "it is opened")
        };
        // Nothing is tried again.
        assert!(rt; !put(&mut log, GROUP) && log.device.number() == failing.saturating_add(1));
        let (before, after, neither) = count_outcomes(rt.alloc(), &log.device, ONE, THREE);
        // Before the gate is written none has the group.
        assert!(rt; neither == 0 && (failing > 3 || after == 0), "at {failing}");
        all = (all.0.saturating_add(before), all.1.saturating_add(after));
    }
    assert!(rt; all.0 > 0 && all.1 > 0);
}

// What a crash can leave of the file of one line, while a group is added and while its end is repaired; with the zeros of a
// cut that isn't done too.
const ENDS: [&[u8]; 8] = [
    b"#pwstore 1\nset\tann\t$5\n",
    b"#pwstore 1\nset\tann\t$5\ns",
    b"#pwstore 1\nset\tann\t$5\n\n",
    b"#pwstore 1\nset\tann\t$5\n#et\tbob",
    b"#pwstore 1\nset\tann\t$5\n#et\tbob\t$1$a$b\n#",
    b"#pwstore 1\nset\tann\t$5\n\0et\tbob\t$1$a$b\nset\tann\t$6\n#",
    b"#pwstore 1\nset\tann\t$5\n\0\0\0\0\0\0\0\0\0\0",
    b"#pwstore 1\nset\tann\t$5\n#et\0\0\0\0\0\0\nset\tann\t$6\n\0",
];

#[test]
fn an_end_is_repaired(rt: HostRuntime) {
    for (i, end) in ENDS.iter().enumerate() {
        assert!(rt; becomes(rt.alloc(), end, ONE), "of {i}");
    }
}

#[test]
fn an_end_is_repaired_through_crashes(rt: HostRuntime) {
    for (i, end) in ENDS.iter().enumerate() {
        for failing in 0..5 {
            let Some(mut device) = memory(rt.alloc(), end, failing) else {
                panic!(rt; "memory is wanting")
            };
            let mut tally = tally_of(100);
            assert!(rt; recover(&mut device, end, &mut tally) == Err(OpenError::Failed));
            assert!(rt; tally.count == 1 && tally.last == 10 && device.number() == failing + 1);
            // Each file that it may leave stands for the same line.
            assert!(rt;
                count_outcomes(rt.alloc(), &device, ONE, ONE) == (120, 0, 0),
                "of {i} at {failing}"
            );
        }
    }
}

#[test]
fn a_file_at_rest_is_synced_and_not_written(rt: HostRuntime) {
    for (failing, answer) in [(NONE_FAILS, Ok(48)), (0, Err(OpenError::Failed))] {
        let Some(mut device) = memory(rt.alloc(), THREE, failing) else {
            panic!(rt; "memory is wanting")
        };
        let mut tally = tally_of(3);
        assert!(rt; recover(&mut device, THREE, &mut tally) == answer);
        assert!(rt; device.number() == 1 && tally.count == 3);
    }
}

// Files that no run can have left, and why.
const REFUSED: [(&[u8], OpenError); 8] = [
    (b"", OpenError::NoHeader),
    (b"#pwstore 1", OpenError::NoHeader),
    (b"#pwstore 2\n#", OpenError::NoHeader),
    (b"set\tann\t$5\n#", OpenError::NoHeader),
    (b"#pwstore 1\nse", OpenError::BadEnd(11)),
    (b"#pwstore 1\nset\tann\t$5\nset\tbob", OpenError::BadEnd(22)),
    (b"#pwstore 1\nsa\nsb\nsc\n#", OpenError::BadLine(17)),
    (b"#pwstore 1\nsa\nsb\nsc\nsd\nse", OpenError::BadLine(17)),
];

#[test]
fn files_are_refused_by_name(rt: HostRuntime) {
    for (i, (file, error)) in REFUSED.iter().enumerate() {
        let Some(mut device) = memory(rt.alloc(), file, NONE_FAILS) else {
            panic!(rt; "memory is wanting")
        };
        assert!(rt;
            recover(&mut device, file, &mut tally_of(2)) == Err(*error),
            "of {i}"
        );
        assert!(rt; device.number() == 0 && device.bytes() == *file);
    }
}

#[test]
fn an_end_has_the_length_of_a_group(rt: HostRuntime) {
    let mut file = Vec::new(rt.alloc());
    assert!(rt; file.extend_from_slice(b"#pwstore 1\n").is_ok());
    assert!(rt; file.resize(11 + GROUP_MAX + 1, b'#').is_ok());
    assert!(rt; becomes(rt.alloc(), &file, b"#pwstore 1\n#"));
    assert!(rt; file.push(b'#').is_ok() && is_refused(rt.alloc(), &file, OpenError::BadEnd(11)));
}

const LINES: &[u8] = b"set\tann\t$5\nset\tbob\t$1$a$b\nset\tann\t$6\n";

#[test]
fn a_file_is_made_anew(rt: HostRuntime) {
    let Some(mut log) = log_of(rt.alloc(), NONE_FAILS) else {
        panic!(rt; "it is opened")
    };
    assert!(rt; is_group(LINES) && log.rewrite(LINES).is_ok() && log.device.bytes() == THREE);
    assert!(rt; count_outcomes(rt.alloc(), &log.device, ONE, THREE) == (0, 120, 0));
}

#[test]
fn a_rewrite_leaves_the_old_file_or_the_new_one(rt: HostRuntime) {
    let mut replaced = 0u64;
    for failing in 1..8 {
        let Some(mut log) = log_of(rt.alloc(), failing) else {
            panic!(rt; "it is opened")
        };
        assert!(rt;
            is_group(LINES) && log.rewrite(LINES).is_err(),
            "at {failing}"
        );
        assert!(rt; log.device.number() == failing.saturating_add(1));
        let (_, after, neither) = count_outcomes(rt.alloc(), &log.device, ONE, THREE);
        assert!(rt; neither == 0, "at {failing}");
        replaced = replaced.saturating_add(after);
    }
    assert!(rt; replaced > 0);
}

#[test]
fn a_file_is_made(rt: HostRuntime) {
    let Some(mut device) = memory(rt.alloc(), b"", NONE_FAILS) else {
        panic!(rt; "memory is wanting")
    };
    let lines = b"set\tann\t$5\n";
    assert!(rt; is_group(lines) && create(&mut device, lines) == Ok(22) && device.bytes() == ONE);
    let log = LineLog { device, end: 22 };
    assert!(rt; log.has_room(FILE_MAX - 22) && !log.has_room(FILE_MAX - 21));
}

const NO_GROUPS: [&[u8]; 7] = [
    b"", b"s", b"#\n", b"sa\nb\n", b"sa\n\n", b"sa\nsb", b"\nsa\n",
];

#[test]
fn groups(rt: HostRuntime) {
    assert!(rt; is_group(GROUP));
    for (i, text) in NO_GROUPS.iter().enumerate() {
        assert!(rt; !is_group(text), "of {i}");
    }
    let mut long = Vec::new(rt.alloc());
    assert!(rt;
        long.resize(GROUP_MAX - 1, b's').is_ok() && long.push(b'\n').is_ok() && is_group(&long)
    );
    assert!(rt; long.pop() == Some(b'\n') && long.push(b's').is_ok() && long.push(b'\n').is_ok());
    assert!(rt; !is_group(&long));
}
