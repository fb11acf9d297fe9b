//! The table of a file of the system: what of a program over it reaches files and streams.

ghost use Rattle.std.specs.Prelude.{◌≡◌, ◌≢◌, ◌≤◌, ◌⊎◌, true, IfErr, IfOk};
ghost use Rattle.shadow_table.specs.AnyTexts.{any_texts};
ghost use Rattle.file_device.specs.Calls.{MayLeave, seen};
ghost use Rattle.pw_store.specs.Stored.{IsSound, takes_changes};
ghost use Rattle.store_run.specs.Statuses.{IsTableStatus, failed_status, unopened_status, untaken_status};

use crate::export::export_users;
use crate::messages::{Failure, Speaker, StreamFaults};
use crate::noted::Noted;
use crate::status::{BAD_FILE, IN_USE, NO_FILE, NO_NEW_FILE};
use crate::table::{Untaken, compact, serve, store_of};
use file_device::{DeviceFault, FileDevice, OpenFault, Opened, open};
use line_io::{StdSink, StdSource};
use line_log::OpenError;
use line_program::status::{ALL_GOOD, NO_MEMORY, OVER_MAX, READ_FAULT, WRITE_FAULT};
use pw_store::{DISK_FAULT, Store};
use shadow_table::{AnyTexts, PLAIN_RULES, TableRuled, TableRules};
use std::io;
use std::marker::Brand;

/// What standard input is called in messages.
pub(crate) const STANDARD_INPUT: &str = "standard input";

// The status of a file that isn't opened.
fn unopened(fault: OpenFault) -> u8
    ensures status { result ≡ unopened_status fault }
    ensures statuses { IsTableStatus result }
{
    match fault {
        OpenFault::InUse => IN_USE,
        OpenFault::TooLong => BAD_FILE,
        OpenFault::OutOfMemory => NO_MEMORY,
        OpenFault::NotAFile | OpenFault::NoStandardStream | OpenFault::Io(_) => NO_FILE,
    }
}

// The status of a call of the file that failed.
fn failed(cause: Option<DeviceFault>) -> u8
    ensures status { result ≡ failed_status cause }
    ensures statuses { IsTableStatus result }
{
    match cause {
        Some(DeviceFault::InUse) => IN_USE,
        Some(DeviceFault::NameTaken | DeviceFault::Shared) => NO_NEW_FILE,
        Some(DeviceFault::Io(_) | DeviceFault::Moved) | None => DISK_FAULT,
    }
}

// The status of a file that isn't taken.
fn untaken(cause: Option<DeviceFault>, error: OpenError) -> u8
    ensures status { result ≡ untaken_status cause error }
    ensures statuses { IsTableStatus result }
{
    match error {
        OpenError::NoHeader | OpenError::BadLine(_) | OpenError::BadEnd(_) => BAD_FILE,
        OpenError::Failed => failed(cause),
        OpenError::OutOfMemory => NO_MEMORY,
    }
}

// The store of an opened file, or the status.
fn store_in<'a, T: TableRuled>(
    rt: &'a HostRuntime,
    speaker: &Speaker<'_>,
    rules: TableRules,
    opened: Opened<'a>,
) -> Result<Store<FileDevice<'a>, AnyTexts<T>>, u8>
    requires rules { rules ≡ T.rules }
    requires bytes { opened.bytes.items ≡ seen opened.device.record.calls }
    ensures takes { IfOk result (λ store. takes_changes store ≡ true) }
    ensures sound { IfOk result (λ store. IsSound (any_texts T.rules) (λ d. seen d.record.calls) (λ d c. MayLeave d.record.calls c) store) }
    ensures untaken { IfErr result (λ status. IsTableStatus status) }
{
    let is_there = opened.is_there;
    match store_of(rt.alloc(), rules, opened.device, opened.bytes, is_there) {
        Ok(store) => Ok(store),
        Err(Untaken { device, error }) => {
            speaker.say_untaken(rt, is_there, error, Failure::of(&device));
            Err(untaken(device.cause(), error))
        }
    }
}

/// Says why a run ended before the end of its input, or that a write of the file failed. Where the reader of a pipe has gone, only the
/// file is spoken of.
pub fn tell(
    rt: &impl Eprint,
    speaker: &Speaker<'_>,
    status: u8,
    streams: StreamFaults<'_>,
    takes: bool,
    failure: Failure<'_>,
) {
    match status {
        READ_FAULT => speaker.say_read(rt, streams.name, streams.input),
        WRITE_FAULT => speaker.say_write(rt, streams.output),
        NO_MEMORY => speaker.say(rt, "out of memory for a line"),
        OVER_MAX => speaker.say_of(rt, streams.name, "it has more than 2^40 bytes"),
        _ => {}
    }
    if !takes {
        speaker.say_failed(rt, failure, "changes are answered disk-fault since then");
    }
}

// Answers the commands of standard input over a store.
fn serve_store<'a, T: TableRuled>(
    rt: &'a HostRuntime,
    speaker: &Speaker<'_>,
    store: Store<FileDevice<'a>, AnyTexts<T>>,
) -> u8
    requires open { takes_changes store ≡ true }
    requires sound { IsSound (any_texts T.rules) (λ d. seen d.record.calls) (λ d c. MayLeave d.record.calls c) store }
    ensures statuses { (result ≤ 7) × (result ≢ 2) }
{
    let mut store = store;
    let mut reader = Noted::new(rt.reader());
    let mut writer = Noted::new(io::writer(rt));
    let mut source = StdSource::new(&mut reader);
    let mut sink = StdSink::new(&mut writer);
    let status = serve(&mut store, &mut source, &mut sink);
    let streams = StreamFaults {
        name: STANDARD_INPUT,
        input: reader.fault(),
        output: writer.fault(),
    };
    tell(
        rt,
        speaker,
        status,
        streams,
        store.takes_changes(),
        Failure::of(store.device()),
    );
    status
}

/// The store of a file that is opened, or the status. Where the file isn't there it is made, or that is said.
pub(crate) fn store_at<'a, T: TableRuled>(
    rt: &'a HostRuntime,
    speaker: &Speaker<'_>,
    rules: TableRules,
    is_made: bool,
) -> Result<Store<FileDevice<'a>, AnyTexts<T>>, u8>
    requires rules { rules ≡ T.rules }
    ensures takes { IfOk result (λ store. takes_changes store ≡ true) }
    ensures sound { IfOk result (λ store. IsSound (any_texts T.rules) (λ d. seen d.record.calls) (λ d c. MayLeave d.record.calls c) store) }
    ensures unopened { IfErr result (λ status. IsTableStatus status) }
{
    match open(rt, speaker.file) {
        Ok(opened) => {
            if !opened.is_there && !is_made {
                speaker.say_at(rt, "there is no such file");
                return Err(NO_FILE);
            }
            speaker.say_shared(rt, opened.is_shared);
            store_in(rt, speaker, rules, opened)
        }
        Err(fault) => {
            speaker.say_unopened(rt, fault);
            Err(unopened(fault))
        }
    }
}

// `serve_file` by rules that the type has.
fn serve_at<T: TableRuled>(rt: &HostRuntime, speaker: &Speaker<'_>, rules: TableRules) -> u8
    requires rules { rules ≡ T.rules }
    ensures statuses { IsTableStatus result }
{
    match store_at::<T>(rt, speaker, rules, true) {
        Ok(store) => serve_store(rt, speaker, store),
        Err(status) => status,
    }
}

/// Answers the commands of standard input by these rules over the table of a file, which is made where it isn't there, and gives the
/// status: that of [`serve`]; or 65, 66, 73 or 75, and 5 or 7, where the file isn't opened, made or taken. What is said on
/// standard error begins with the name of the program.
pub fn serve_file(rt: &HostRuntime, program: &str, file: &str, rules: TableRules) -> u8
    ensures statuses { IsTableStatus result }
{
    let speaker = Speaker { program, file };
    serve_at::<Brand>(rt, &speaker, rules)
}

// Writes the file of a store anew.
fn compact_store<'a, T: TableRuled>(
    rt: &'a HostRuntime,
    speaker: &Speaker<'_>,
    store: Store<FileDevice<'a>, AnyTexts<T>>,
) -> u8
    requires open { takes_changes store ≡ true }
    requires sound { IsSound (any_texts T.rules) (λ d. seen d.record.calls) (λ d c. MayLeave d.record.calls c) store }
    ensures statuses { IsTableStatus result }
{
    let mut store = store;
    match compact(&mut store) {
        DISK_FAULT => {
            speaker.say_failed(rt, Failure::of(store.device()), "it isn't written anew");
            failed(store.device().cause())
        }
        NO_MEMORY => {
            speaker.say(rt, "out of memory for the new file");
            NO_MEMORY
        }
        BAD_FILE => {
            speaker.say_at(
                rt,
                "its users have more bytes than a file may have: it isn't written anew",
            );
            BAD_FILE
        }
        _ => ALL_GOOD,
    }
}

/// Writes a file anew, a line for each user, and gives the status: that of [`compact`], and 73 where the new file isn't made;
/// or as [`serve_file`] where the file isn't opened or taken, and 66 where there is none. What is said on standard error begins with the name of the program.
pub fn compact_file(rt: &HostRuntime, program: &str, file: &str) -> u8
    ensures statuses { IsTableStatus result }
{
    let speaker = Speaker { program, file };
    match store_at::<Brand>(rt, &speaker, PLAIN_RULES, false) {
        Ok(store) => compact_store(rt, &speaker, store),
        Err(status) => status,
    }
}

// Writes the users of a store to standard output.
fn export_store<'a, T: TableRuled>(
    rt: &'a HostRuntime,
    speaker: &Speaker<'_>,
    store: &Store<FileDevice<'a>, AnyTexts<T>>,
) -> u8
    ensures statuses { (result ≡ 0) ⊎ (result ≡ 4) }
{
    let mut writer = Noted::new(io::writer(rt));
    let mut sink = StdSink::new(&mut writer);
    let status = export_users(store, &mut sink);
    if status == WRITE_FAULT {
        speaker.say_write(rt, writer.fault());
    }
    status
}

/// Writes the users of a file with their texts to standard output, and gives the status: that of [`export_users`]; or as
/// [`compact_file`] where the file isn't opened or taken. What is said on standard error begins with the name of the program.
pub fn export_file(rt: &HostRuntime, program: &str, file: &str) -> u8
    ensures statuses { IsTableStatus result }
{
    let speaker = Speaker { program, file };
    match store_at::<Brand>(rt, &speaker, PLAIN_RULES, false) {
        Ok(store) => export_store(rt, &speaker, &store),
        Err(status) => status,
    }
}
