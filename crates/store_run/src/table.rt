//! What a program does over any device: the table of its file, the commands on it, the file made anew.

ghost use Rattle.std.specs.Prelude.{◌≡◌, ◌≢◌, ◌⊎◌, ◌<◌, ◌≤◌, ◌^◌, [], ℕ, List, false, true, length, Some, IfErr, IfOk, IfSome, OnSome};
ghost use Rattle.std.specs.Io.KnownBytes.{Appends};
ghost use Rattle.std.specs.List.{flat_map};
ghost use Rattle.shadow_table.specs.AnyTexts.{any_texts};
ghost use Rattle.line_io.specs.Devices.{WhereTold};
ghost use Rattle.line_io.specs.Lines.{lines};
ghost use Rattle.line_log.specs.Device.{LeavesOnly};
ghost use Rattle.line_log.specs.Log.{Stands, file_max, recovered};
ghost use Rattle.line_log.specs.Taker.{is_refusal};
ghost use Rattle.pieces.specs.FaultCounts.{HasRisen};
ghost use Rattle.pw_file.specs.History.{Rows};
ghost use Rattle.pw_file.specs.Replies.{row_line};
ghost use Rattle.pw_store.specs.Run.{IsLeftBy, StoreOutcome};
ghost use Rattle.pw_store.specs.Store.{StandsFor, recovered_rows, store_fault};
ghost use Rattle.pw_store.specs.Stored.{IsSound, device_of, lines_of_rows, rows_of, size_of, takes_changes};
ghost use Rattle.set_lines.specs.Sets.{set_text};

use crate::status::BAD_FILE;
use line_io::{Failed, INPUT_MAX, Sink, Source};
use line_log::{Device, OpenError};
use line_program::status::{ALL_GOOD, NO_MEMORY};
use pw_store::{DISK_FAULT, Store, StoreError, create, recover, run_store};
use set_lines::SetLines;
use shadow_table::{AnyKept, AnyTexts, TableRuled, TableRules};
use std::alloc::Global;

/// A device whose file wasn't taken, and why.
#[derive(Drop)]
pub struct Untaken<D: Device + Drop> {
    pub device: D,
    pub error: OpenError,
}

// The store of a file that is there.
fn store_there<T: TableRuled, D: Device + Drop>(
    alloc: Global,
    rules: TableRules,
    device: D,
    bytes: &[u8],
) -> Result<Store<D, AnyTexts<T>>, Untaken<D>>
    requires rules { rules ≡ T.rules }
    requires bytes { bytes.now ≡ D.seen device }
    ensures rows { IfOk result (λ store. recovered_rows (any_texts T.rules) (D.seen device) ≡ Some (rows_of store)) }
    ensures takes { IfOk result (λ store. takes_changes store ≡ true) }
    ensures sound { IfOk result (λ store. IsSound (any_texts T.rules) D.seen D.may_leave store) }
    ensures same { IfOk result (λ store. recovered (D.seen (device_of store)) ≡ recovered (D.seen device)) }
    ensures untaken { IfErr result (λ e. is_refusal e.error ≡ true → store_fault (any_texts T.rules) (D.seen device) ≡ Some e.error) }
    ensures unchanged { IfErr result (λ e. is_refusal e.error ≡ true → e.device ≡ device) }
    ensures accepted { (rows : Rows) → StandsFor (any_texts T.rules) rows (D.seen device) → IfErr result (λ e. is_refusal e.error ≡ false) }
    ensures failed { IfErr result (λ e. e.error ≡ OpenError.Failed → HasRisen (D.faults device) (D.faults e.device)) }
    ensures any_moment { IfOk result (λ store. LeavesOnly D.moment D.left_since device (device_of store)
        (λ c. D.may_leave device c ⊎ Stands (recovered (D.seen device)) c)) }
    ensures any_moment_untaken { IfErr result (λ e. LeavesOnly D.moment D.left_since device e.device
        (λ c. D.may_leave device c ⊎ Stands (recovered (D.seen device)) c)) }
{
    let mut device = device;
    match recover(alloc, AnyKept::new(alloc, rules), &mut device, bytes) {
        Ok((table, end)) => Ok(Store::new(alloc, device, table, end)),
        Err(error) => Err(Untaken { device, error }),
    }
}

// The store of a file that is made.
fn store_made<T: TableRuled, D: Device + Drop>(
    alloc: Global,
    rules: TableRules,
    device: D,
) -> Result<Store<D, AnyTexts<T>>, Untaken<D>>
    requires rules { rules ≡ T.rules }
    ensures rows { IfOk result (λ store. rows_of store ≡ []) }
    ensures takes { IfOk result (λ store. takes_changes store ≡ true) }
    ensures sound { IfOk result (λ store. IsSound (any_texts T.rules) D.seen D.may_leave store) }
    ensures same { IfOk result (λ store. recovered_rows (any_texts T.rules) (D.seen (device_of store)) ≡ Some []) }
    ensures cause { IfErr result (λ e. e.error ≡ OpenError.Failed) }
    ensures failed { IfErr result (λ e. HasRisen (D.faults device) (D.faults e.device)) }
    ensures any_moment { IfOk result (λ store. LeavesOnly D.moment D.left_since device (device_of store)
        (λ c. D.may_leave device c ⊎ StandsFor (any_texts T.rules) [] c)) }
    ensures any_moment_untaken { IfErr result (λ e. LeavesOnly D.moment D.left_since device e.device
        (λ c. D.may_leave device c ⊎ StandsFor (any_texts T.rules) [] c)) }
{
    let mut device = device;
    match create(alloc, AnyKept::new(alloc, rules), &mut device) {
        Ok((table, end)) => Ok(Store::new(alloc, device, table, end)),
        Err(Failed) => Err(Untaken {
            device,
            error: OpenError::Failed,
        }),
    }
}

/// The store of a device by these rules, whose file has these bytes; where there is none, a file of no users is made.
pub fn store_of<T: TableRuled, D: Device + Drop>(
    alloc: Global,
    rules: TableRules,
    device: D,
    bytes: Vec<u8>,
    is_there: bool,
) -> Result<Store<D, AnyTexts<T>>, Untaken<D>>
    requires rules { rules ≡ T.rules }
    requires bytes { bytes.items ≡ D.seen device }
    ensures rows { is_there ≡ true → IfOk result (λ store. recovered_rows (any_texts T.rules) (D.seen device) ≡ Some (rows_of store)) }
    ensures made { is_there ≡ false → IfOk result (λ store. rows_of store ≡ []) }
    ensures takes { IfOk result (λ store. takes_changes store ≡ true) }
    ensures sound { IfOk result (λ store. IsSound (any_texts T.rules) D.seen D.may_leave store) }

    // The file of the store has the lines of the file that was there, or none.
    ensures same { is_there ≡ true → IfOk result (λ store. recovered (D.seen (device_of store)) ≡ recovered (D.seen device)) }
    ensures empty { is_there ≡ false → IfOk result (λ store. recovered_rows (any_texts T.rules) (D.seen (device_of store)) ≡ Some []) }

    // A file that is there is refused exactly by its first fault, and isn't changed; what a run can have left isn't refused.
    ensures untaken { is_there ≡ true → IfErr result (λ e. is_refusal e.error ≡ true → store_fault (any_texts T.rules) (D.seen device) ≡ Some e.error) }
    ensures unchanged { is_there ≡ true → IfErr result (λ e. is_refusal e.error ≡ true → e.device ≡ device) }
    ensures accepted { is_there ≡ true → (rows : Rows) → StandsFor (any_texts T.rules) rows (D.seen device) → IfErr result (λ e. is_refusal e.error ≡ false) }
    ensures unmade { is_there ≡ false → IfErr result (λ e. e.error ≡ OpenError.Failed) }
    ensures failed { IfErr result (λ e. e.error ≡ OpenError.Failed → HasRisen (D.faults device) (D.faults e.device)) }

    // A crash at any moment leaves what it might have left before the call, or the same lines; or a file with no users.
    ensures any_moment { is_there ≡ true → IfOk result (λ store. LeavesOnly D.moment D.left_since device (device_of store)
        (λ c. D.may_leave device c ⊎ Stands (recovered (D.seen device)) c)) }
    ensures any_moment_untaken { is_there ≡ true → IfErr result (λ e. LeavesOnly D.moment D.left_since device e.device
        (λ c. D.may_leave device c ⊎ Stands (recovered (D.seen device)) c)) }
    ensures any_moment_made { is_there ≡ false → IfOk result (λ store. LeavesOnly D.moment D.left_since device (device_of store)
        (λ c. D.may_leave device c ⊎ StandsFor (any_texts T.rules) [] c)) }
    ensures any_moment_unmade { is_there ≡ false → IfErr result (λ e. LeavesOnly D.moment D.left_since device e.device
        (λ c. D.may_leave device c ⊎ StandsFor (any_texts T.rules) [] c)) }
{
    if is_there {
        store_there(alloc, rules, device, &bytes)
    } else {
        store_made(alloc, rules, device)
    }
}

/// Answers the commands of a source of at most 2^40 bytes over a store, and gives the status.
pub fn serve<T: TableRuled, D: Device, S: Source, K: Sink>(
    store: &mut Store<D, AnyTexts<T>>,
    source: &mut S,
    sink: &mut K,
) -> u8
    requires open { takes_changes store.old ≡ true }
    requires sound { IsSound (any_texts T.rules) D.seen D.may_leave store.old }
    ensures statuses { (result ≤ 7) × (result ≢ 2) }
    ensures read_fault { result ≡ 3 → HasRisen (S.faults source.old) (S.faults source.new) }
    ensures write_fault { result ≡ 4 → HasRisen (K.faults sink.old) (K.faults sink.new) }
    ensures disk_fault { takes_changes store.new ≡ false → HasRisen (D.faults (device_of store.old)) (D.faults (device_of store.new)) }
    ensures outcome { WhereTold (S.left source.old) (S.left source.new) (K.written sink.old) (K.written sink.new)
        (λ held taken added. StoreOutcome (any_texts T.rules) (rows_of store.old) (size_of store.old) (takes_changes store.new)
        (D.may_leave (device_of store.new)) result (2 ^ 40) held taken added) }
    ensures any_moment { IfSome (S.left source.old) (λ held. LeavesOnly D.moment D.left_since (device_of store.old) (device_of store.new)
        (IsLeftBy (any_texts T.rules) (rows_of store.old) (size_of store.old) (lines held))) }
{
    run_store(store, source, sink, INPUT_MAX)
}

/// Sets the texts of the lines of users and texts that a source of at most 2^40 bytes has, each for its line's user, and gives the
/// status: the replies are those to the commands that [`SetLines`] makes of the lines.
pub fn import_users<T: TableRuled, D: Device, S: Source + Drop, K: Sink>(
    store: &mut Store<D, AnyTexts<T>>,
    source: S,
    sink: &mut K,
) -> u8
    requires open { takes_changes store.old ≡ true }
    requires sound { IsSound (any_texts T.rules) D.seen D.may_leave store.old }
    ensures statuses { (result ≤ 7) × (result ≢ 2) }
    ensures write_fault { result ≡ 4 → HasRisen (K.faults sink.old) (K.faults sink.new) }
    ensures disk_fault { takes_changes store.new ≡ false → HasRisen (D.faults (device_of store.old)) (D.faults (device_of store.new)) }
    ensures outcome { IfSome (S.left source) (λ held. OnSome (K.written sink.old) ((taken : List ℕ) × (added : List ℕ)
        × Appends (K.written sink.old) (K.written sink.new) added
        × StoreOutcome (any_texts T.rules) (rows_of store.old) (size_of store.old) (takes_changes store.new)
        (D.may_leave (device_of store.new)) result (2 ^ 40) (set_text held) taken added)) }
    ensures any_moment { IfSome (S.left source) (λ held. LeavesOnly D.moment D.left_since (device_of store.old) (device_of store.new)
        (IsLeftBy (any_texts T.rules) (rows_of store.old) (size_of store.old) (lines (set_text held)))) }
{
    let mut source = SetLines::new(source);
    serve(store, &mut source, sink)
}

/// Writes the file anew, a line for each user, and gives the status: 0, 5 where memory is wanting, 7, or 65 where the lines
/// have more than 2^28 bytes, which no run has left.
pub fn compact<T: TableRuled, D: Device>(store: &mut Store<D, AnyTexts<T>>) -> u8
    requires open { takes_changes store.old ≡ true }
    requires sound { IsSound (any_texts T.rules) D.seen D.may_leave store.old }
    ensures statuses { (result ≡ 0) ⊎ ((result ≡ 5) ⊎ ((result ≡ 7) ⊎ (result ≡ 65))) }
    ensures too_long { result ≡ 65 → file_max < length (flat_map row_line (rows_of store.old)) }
    ensures lines { result ≡ 0 → recovered (D.seen (device_of store.new)) ≡ lines_of_rows (rows_of store.old) }
    ensures disk_fault { result ≡ 7 → HasRisen (D.faults (device_of store.old)) (D.faults (device_of store.new)) }
    ensures any_moment { LeavesOnly D.moment D.left_since (device_of store.old) (device_of store.new) (StandsFor (any_texts T.rules) (rows_of store.old)) }
{
    match store.compact() {
        Ok(()) => ALL_GOOD,
        Err(StoreError::DiskFault) => DISK_FAULT,
        Err(StoreError::FileFull) => BAD_FILE,
        Err(_) => NO_MEMORY,
    }
}
