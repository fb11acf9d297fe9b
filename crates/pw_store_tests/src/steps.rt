//! Calls of a store, and looks at it, as rows of a test.

ghost use Rattle.std.specs.Prelude.{◌≡◌};
ghost use Rattle.pw_file.specs.StoredTexts.{stored_texts};
ghost use Rattle.pw_store.specs.Stored.{IsSound};

use crate::helpers::{CheckFault, Fault, TestStore, count_outcomes, store_of, user};
use line_io::{MemorySink, MemorySource};
use line_log::{Device, MemoryDevice};
use pw_store::run_store;
use std::alloc::Global;
use std::process::Abort;

/// A call and its answer, or what is found at a look.
pub enum Step {
    /// A user's name, a text, and a refusal.
    Set(&'static str, &'static str, Option<Fault>),
    /// A user's name, how many letters the text has, and a refusal.
    SetLong(&'static str, usize, Option<Fault>),
    /// A user's name, a password, and the answer.
    Check(&'static str, &'static str, Result<bool, CheckFault>),
    /// A user's name, a password, and the answer, with one salt.
    Upgrade(&'static str, &'static str, Result<bool, Fault>),
    Compact(Option<Fault>),
    /// The bytes of an input, the status, and what is written.
    Run(&'static [u8], u8, &'static [u8]),
    /// Whether changes are taken.
    Takes(bool),
    /// The names and the texts of all users.
    Rows(&'static [(&'static str, &'static str)]),
    /// The only user's name, the front of the text, and the text's length.
    Begins(&'static str, &'static str, usize),
    /// The bytes of the file.
    Bytes(&'static [u8]),
    /// How many calls the device has had.
    Calls(u64),
    /// The device has had no call after the one that failed.
    NoCallAfter,
    /// Two files, and how many files that a crash leaves recovery makes into each, and into neither.
    Crashes(&'static [u8], &'static [u8], (u64, u64, u64)),
}

/// The rows of the file `ONE`.
pub const ONE_ROWS: &[(&str, &str)] = &[("ann", "$5")];

/// The rows of the file `TWO`.
pub const TWO_ROWS: &[(&str, &str)] = &[("ann", "$5"), ("bob", "$1$a$b")];

/// The rows of the file `CHANGED`.
pub const CHANGED_ROWS: &[(&str, &str)] = &[("ann", "$6"), ("bob", "$1$a$b")];

fn sets(store: &mut TestStore, name: &str, text: &str, fault: Option<Fault>) -> bool
    requires sound { IsSound stored_texts ⟦<MemoryDevice as Device>⟧.seen ⟦<MemoryDevice as Device>⟧.may_leave store.old }
    ensures sound { IsSound stored_texts ⟦<MemoryDevice as Device>⟧.seen ⟦<MemoryDevice as Device>⟧.may_leave store.new }
{
    match user(name) {
        Some(user) => store.set(&user, text).err() == fault,
        None => false,
    }
}

fn sets_long(store: &mut TestStore, name: &str, count: usize, fault: Option<Fault>) -> bool
    requires sound { IsSound stored_texts ⟦<MemoryDevice as Device>⟧.seen ⟦<MemoryDevice as Device>⟧.may_leave store.old }
    ensures sound { IsSound stored_texts ⟦<MemoryDevice as Device>⟧.seen ⟦<MemoryDevice as Device>⟧.may_leave store.new }
{
    let letters = [b'$'; 2_000];
    match str::from_utf8(&letters[..count.min(2_000)]) {
        Ok(text) => sets(store, name, text, fault),
        Err(_) => false,
    }
}

fn checks(store: &TestStore, name: &str, password: &str, answer: Result<bool, CheckFault>) -> bool {
    match user(name) {
        Some(user) => store.check(&user, password) == answer,
        None => false,
    }
}

fn upgrades(store: &mut TestStore, name: &str, password: &str, answer: Result<bool, Fault>) -> bool
    requires sound { IsSound stored_texts ⟦<MemoryDevice as Device>⟧.seen ⟦<MemoryDevice as Device>⟧.may_leave store.old }
    ensures sound { IsSound stored_texts ⟦<MemoryDevice as Device>⟧.seen ⟦<MemoryDevice as Device>⟧.may_leave store.new }
{
    match user(name) {
        Some(user) => store.upgrade(&user, password, "abcdabcdabc") == answer,
        None => false,
    }
}

/// The status of a run over an input, and how many bytes are written. None where the store takes no changes.
pub fn ran(store: &mut TestStore, input: &[u8], room: &mut [u8]) -> Option<(u8, usize)>
    requires sound { IsSound stored_texts ⟦<MemoryDevice as Device>⟧.seen ⟦<MemoryDevice as Device>⟧.may_leave store.old }
    ensures sound { IsSound stored_texts ⟦<MemoryDevice as Device>⟧.seen ⟦<MemoryDevice as Device>⟧.may_leave store.new }
{
    if !store.takes_changes() {
        return None;
    }
    let mut source = MemorySource::new(input, 100_000, &[]);
    let mut sink = MemorySink::new(room, 64, &[]);
    let status = run_store(store, &mut source, &mut sink, 100_000);
    Some((status, sink.bytes().len()))
}

fn runs(store: &mut TestStore, input: &[u8], status: u8, output: &[u8]) -> bool
    requires sound { IsSound stored_texts ⟦<MemoryDevice as Device>⟧.seen ⟦<MemoryDevice as Device>⟧.may_leave store.old }
    ensures sound { IsSound stored_texts ⟦<MemoryDevice as Device>⟧.seen ⟦<MemoryDevice as Device>⟧.may_leave store.new }
{
    let mut room = [0; 64];
    let ended = ran(store, input, &mut room);
    ended == Some((status, output.len())) && room.starts_with(output)
}

// Whether the user at a place has this name and this text.
fn is_row(store: &TestStore, i: usize, row: &(&str, &str)) -> bool {
    match store.row(i) {
        Some((user, found)) => user.as_str() == row.0 && found == row.1,
        None => false,
    }
}

fn has_rows(store: &TestStore, rows: &[(&str, &str)]) -> bool {
    for (i, row) in rows.iter().enumerate() {
        if !is_row(store, i, row) {
            return false;
        }
    }
    store.len() == rows.len()
}

fn begins(store: &TestStore, name: &str, front: &str, length: usize) -> bool {
    match store.row(0) {
        Some((user, text)) => {
            user.as_str() == name && text.starts_with(front) && text.len() == length
        }
        None => false,
    }
}

// Whether a look at a store finds this.
fn is_found(alloc: Global, failing: u64, store: &TestStore, step: &Step) -> bool {
    let device = store.device();
    match *step {
        Step::Takes(takes) => store.takes_changes() == takes,
        Step::Rows(rows) => has_rows(store, rows),
        Step::Begins(name, front, length) => store.len() == 1 && begins(store, name, front, length),
        Step::Bytes(bytes) => device.bytes() == bytes,
        Step::Calls(calls) => device.number() == calls,
        Step::NoCallAfter => device.number() == failing.saturating_add(1),
        Step::Crashes(before, after, counts) => {
            count_outcomes(alloc, device, before, after) == counts
        }
        _ => false,
    }
}

// Whether a call has this answer, or a look finds this.
fn is_met(alloc: Global, failing: u64, store: &mut TestStore, step: &Step) -> bool
    requires sound { IsSound stored_texts ⟦<MemoryDevice as Device>⟧.seen ⟦<MemoryDevice as Device>⟧.may_leave store.old }
    ensures sound { IsSound stored_texts ⟦<MemoryDevice as Device>⟧.seen ⟦<MemoryDevice as Device>⟧.may_leave store.new }
{
    match *step {
        Step::Set(name, text, fault) => sets(store, name, text, fault),
        Step::SetLong(name, count, fault) => sets_long(store, name, count, fault),
        Step::Check(name, password, answer) => checks(store, name, password, answer),
        Step::Upgrade(name, password, answer) => upgrades(store, name, password, answer),
        Step::Compact(fault) => store.compact().err() == fault,
        Step::Run(input, status, output) => runs(store, input, status, output),
        _ => is_found(alloc, failing, store, step),
    }
}

// Takes the steps one by one.
fn play(rt: &impl Abort, alloc: Global, failing: u64, store: &mut TestStore, steps: &[Step])
    requires sound { IsSound stored_texts ⟦<MemoryDevice as Device>⟧.seen ⟦<MemoryDevice as Device>⟧.may_leave store.old }
{
    for (i, step) in steps.iter().enumerate() {
        assert!(rt;
            is_met(alloc, failing, store, step),
            "step {i} at {failing}"
        );
    }
}

/// Opens a file whose call of the number `failing` fails, and takes the steps one by one.
pub fn played(
    rt: &impl Abort,
    alloc: Global,
    file: &[u8],
    failing: u64,
    steps: &[Step],
) -> TestStore {
    let Some(mut store) = store_of(alloc, file, failing) else {
        panic!(rt; "it is opened")
    };
    play(rt, alloc, failing, &mut store, steps);
    store
}

/// The same, and how many files that a crash then leaves recovery makes into each of two, and into neither.
pub fn crashed(
    rt: &impl Abort,
    alloc: Global,
    file: &[u8],
    failing: u64,
    steps: &[Step],
    after: &[u8],
) -> (u64, u64, u64) {
    let store = played(rt, alloc, file, failing, steps);
    count_outcomes(alloc, store.device(), file, after)
}
