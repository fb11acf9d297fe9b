//! Changes that stand together in an input: one group of the file, there whole or not at all.

use crate::helpers::{NONE_FAILS, ONE, store_of};
use crate::steps::{CHANGED_ROWS, ONE_ROWS, Step, crashed, played, ran};
use std::alloc::Global;

const INPUT: &[u8] = b"set\tbob\t$1$x$y\nset\tann\t$6\nset\tbob\t$1$a$b\n";

const GROUPED: &[u8] =
    b"#pwstore 1\nset\tann\t$5\nset\tbob\t$1$x$y\nset\tann\t$6\nset\tbob\t$1$a$b\n#";

// The sync of recovery, and two syncs for three changes.
const WHOLE: &[Step] = &[
    Step::Run(INPUT, 0, b"ok\nok\nok\n"),
    Step::Rows(CHANGED_ROWS),
    Step::Bytes(GROUPED),
    Step::Calls(6),
    Step::Crashes(ONE, GROUPED, (0, 84, 0)),
];

#[test]
fn a_group_is_there_whole(rt: HostRuntime) {
    played(&rt, rt.alloc(), ONE, NONE_FAILS, WHOLE);
}

const TAKEN_BACK: &[Step] = &[
    Step::Run(INPUT, 7, b"disk-fault\ndisk-fault\ndisk-fault\n"),
    Step::Rows(ONE_ROWS),
    Step::NoCallAfter,
];

#[test]
fn a_group_is_taken_back_whole(rt: HostRuntime) {
    for failing in 1..6 {
        let (_, after, neither) = crashed(&rt, rt.alloc(), ONE, failing, TAKEN_BACK, GROUPED);
        assert!(rt; neither == 0, "at {failing}");
        assert!(rt; failing > 3 || after == 0, "at {failing}");
    }
}

// Changes of so many bytes of text each.
fn changes_of(alloc: Global, lens: &[usize]) -> Option<Vec<u8>> {
    let mut input = Vec::new(alloc);
    for len in lens {
        input.extend_from_slice(b"set\tann\t$5$").ok()?;
        input.resize(input.len().saturating_add(*len), b'x').ok()?;
        input.push(b'\n').ok()?;
    }
    Some(input)
}

// How many calls a device has after a run over these changes, and how many bytes its file has.
fn calls_of(alloc: Global, input: &[u8]) -> Option<(u64, usize)> {
    let mut store = store_of(alloc, ONE, NONE_FAILS)?;
    let mut room = [0; 64];
    if ran(&mut store, input, &mut room)?.0 != 0 {
        return None;
    }
    Some((store.device().number(), store.device().bytes().len()))
}

// The lengths of texts, and the bytes of the file.
const LONG: &[(&[usize], usize)] = &[
    (&[100, 200, 300], 659),
    (&[1_000, 900, 800, 1_000, 900, 800, 1_000], 6_507),
];

#[test]
fn long_groups_take_two_syncs_too(rt: HostRuntime) {
    for (lens, bytes) in LONG {
        let Some(input) = changes_of(rt.alloc(), lens) else {
            panic!(rt; "want of memory")
        };
        // The sync of recovery, and five calls for a group, whatever bytes it has.
        assert!(rt;
            calls_of(rt.alloc(), &input) == Some((6, *bytes)),
            "{bytes}"
        );
    }
}
