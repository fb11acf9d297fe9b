//! Single changes, and what crashes and faults leave of them.

use crate::helpers::{CHANGED, CheckFault, EMPTY, Fault, NONE_FAILS, ONE, TWO, TestStore};
use crate::steps::{CHANGED_ROWS, ONE_ROWS, Step, TWO_ROWS, crashed, played};
use pw_file::FileError;
use pw_store::{StoreError, laws};
use stored_check::{McfFault, ShaFault, ShaFormat, StoredError};

// The key of SHA-crypt for `Hello world!`.
const HELLO: &str = "$5$saltstring$5B8vYYiY.CVt1RlTTf8KbXBH3hsxY/GNooZaBBGWEc5";

// The same as the text of a user, in a file.
const HELLO_FILE: &[u8] =
    b"#pwstore 1\nset\tann\t$5$saltstring$5B8vYYiY.CVt1RlTTf8KbXBH3hsxY/GNooZaBBGWEc5\n#";

// A constant is written out in each function that names it, so only this one does.
fn hello_file() -> &'static [u8] {
    HELLO_FILE
}

const COMPACT: &[u8] = b"#pwstore 1\nset\tann\t$6\nset\tbob\t$1$a$b\n#";

const DISK_FAULT: Option<Fault> = Some(StoreError::DiskFault);

const DELIMITER: CheckFault = FileError::BadText(McfFault::DelimiterInvalid);

// Recovery asks for one sync, and a change for three writes and two syncs.
const CHANGE: &[Step] = &[
    Step::Rows(ONE_ROWS),
    Step::Set("bob", "$1$a$b", None),
    Step::Bytes(TWO),
    Step::Calls(6),
    Step::Crashes(ONE, TWO, (0, 84, 0)),
    Step::Set("ann", "$6", None),
    Step::Rows(CHANGED_ROWS),
    Step::Bytes(CHANGED),
    Step::Takes(true),
];

#[test]
fn a_change_is_on_the_disk(rt: HostRuntime) {
    played(&rt, rt.alloc(), ONE, NONE_FAILS, CHANGE);
}

const REFUSALS: &[Step] = &[
    Step::SetLong(
        "bob",
        1_025,
        Some(StoreError::Table(FileError::TextTooLong)),
    ),
    Step::Set("bob", "$1$", Some(StoreError::Table(DELIMITER))),
    Step::Upgrade("bob", "x", Err(StoreError::Table(FileError::NoUser))),
    Step::Check("bob", "x", Err(FileError::NoUser)),
    Step::Rows(ONE_ROWS),
    Step::Takes(true),
    Step::Calls(1),
];

#[test]
fn refusals_leave_the_file(rt: HostRuntime) {
    played(&rt, rt.alloc(), ONE, NONE_FAILS, REFUSALS);
}

const CHANGE_TAKEN_BACK: &[Step] = &[
    Step::Set("bob", "$1$a$b", DISK_FAULT),
    Step::Rows(ONE_ROWS),
    Step::Takes(false),
];

#[test]
fn a_fault_takes_the_change_back(rt: HostRuntime) {
    let mut all = (0u64, 0u64);
    for failing in 1..6 {
        // Each file that a crash may leave has the change or doesn't, and has none of it before the gate is opened.
        let (before, after, neither) = crashed(
            &rt,
            rt.alloc(),
            ONE,
            failing,
            CHANGE_TAKEN_BACK,
            TWO,
        );
        assert!(rt; neither == 0, "at {failing}");
        assert!(rt; failing > 3 || after == 0, "at {failing}");
        all = (all.0.saturating_add(before), all.1.saturating_add(after));
    }
    assert!(rt; all.0 > 0 && all.1 > 0);
}

const NO_SECOND_TRY: &[Step] = &[
    Step::Set("ann", "$6", DISK_FAULT),
    Step::Set("bob", "no text", DISK_FAULT),
    Step::Upgrade("ann", "x", Err(StoreError::DiskFault)),
    Step::Compact(DISK_FAULT),
    Step::NoCallAfter,
];

#[test]
fn nothing_is_tried_again(rt: HostRuntime) {
    for failing in 1..6 {
        played(&rt, rt.alloc(), TWO, failing, NO_SECOND_TRY);
    }
}

// Checks are still answered.
const TEXT_PUT_BACK: &[Step] = &[
    Step::Set("ann", "$6", DISK_FAULT),
    Step::Rows(TWO_ROWS),
    Step::Check(
        "ann",
        "x",
        Err(FileError::Check(StoredError::Sha(ShaFault::InvalidFormat(ShaFormat::NoFields)))),
    ),
];

#[test]
fn a_changed_text_is_put_back(rt: HostRuntime) {
    for failing in 1..6 {
        let counts = crashed(&rt, rt.alloc(), TWO, failing, TEXT_PUT_BACK, CHANGED);
        assert!(rt; counts.2 == 0, "at {failing}");
    }
}

const UPGRADED: &[Step] = &[
    Step::Check("ann", "Hello world", Ok(false)),
    Step::Upgrade("ann", "Hello world", Ok(false)),
    Step::Calls(1),
    Step::Upgrade("ann", "Hello world!", Ok(true)),
    Step::Calls(6),
    Step::Begins("ann", "$scrypt$ln=14,r=8,p=1$abcdabcdabc$", 77),
];

#[test]
fn checks_and_upgrades(rt: HostRuntime) {
    played(&rt, rt.alloc(), hello_file(), NONE_FAILS, UPGRADED);
}

// Whether a store has the one row of another.
fn is_same(again: &TestStore, store: &TestStore) -> bool {
    again.len() == 1 && again.row(0) == store.row(0)
}

const HELLO_UPGRADED: &[Step] = &[Step::Upgrade("ann", "Hello world!", Ok(true))];

const HELLO_MATCHES: &[Step] = &[Step::Check("ann", "Hello world!", Ok(true))];

#[test]
fn an_upgrade_is_there_after_a_restart(rt: HostRuntime) {
    let store = played(&rt, rt.alloc(), hello_file(), NONE_FAILS, HELLO_UPGRADED);
    let file = store.device().bytes();
    let again = played(&rt, rt.alloc(), file, NONE_FAILS, HELLO_MATCHES);
    assert!(rt; is_same(&again, &store));
}

const UPGRADE_TAKEN_BACK: &[Step] = &[
    Step::Upgrade("ann", "Hello world!", Err(StoreError::DiskFault)),
    Step::Rows(&[("ann", HELLO)]),
    Step::Calls(6),
    Step::Check("ann", "Hello world!", Ok(true)),
];

#[test]
fn a_fault_takes_an_upgrade_back(rt: HostRuntime) {
    played(&rt, rt.alloc(), hello_file(), 5, UPGRADE_TAKEN_BACK);
}

// Changes go on after the lines of the new file.
const COMPACTED: &[Step] = &[
    Step::Compact(None),
    Step::Rows(CHANGED_ROWS),
    Step::Bytes(COMPACT),
    Step::Crashes(CHANGED, COMPACT, (0, 84, 0)),
    Step::Set("ann", "$5", None),
    Step::Bytes(b"#pwstore 1\nset\tann\t$6\nset\tbob\t$1$a$b\nset\tann\t$5\n#"),
];

#[test]
fn compaction(rt: HostRuntime) {
    played(&rt, rt.alloc(), CHANGED, NONE_FAILS, COMPACTED);
}

const NOT_COMPACTED: &[Step] = &[
    Step::Compact(DISK_FAULT),
    Step::Rows(CHANGED_ROWS),
    Step::Set("ann", "$5", DISK_FAULT),
    Step::NoCallAfter,
];

#[test]
fn a_compaction_that_fails_changes_no_text(rt: HostRuntime) {
    let mut replaced = 0u64;
    for failing in 1..8 {
        let (_, after, neither) = crashed(
            &rt,
            rt.alloc(),
            CHANGED,
            failing,
            NOT_COMPACTED,
            COMPACT,
        );
        assert!(rt; neither == 0, "at {failing}");
        replaced = replaced.saturating_add(after);
    }
    assert!(rt; replaced > 0);
}

const FIRST_USER: &[Step] = &[
    Step::Rows(&[]),
    Step::Set("ann", "$5", None),
    Step::Bytes(ONE),
];

#[test]
fn an_empty_file_takes_a_user(rt: HostRuntime) {
    played(&rt, rt.alloc(), EMPTY, NONE_FAILS, FIRST_USER);
}

#[test]
fn laws_are_calls(_rt: HostRuntime) {
    laws::file_content::<pw_file::StoredTexts>();
    laws::judged_by_last::<pw_file::StoredTexts>();
}
