//! The table of a file.

ghost use Rattle.std.specs.Prelude.{◌≡◌, ◌⊎◌, List, ℕ, None, Some, true, false, [], IfErr, IfOk, IsErrOf, OnErr, OnOk};
ghost use Rattle.pieces.specs.FaultCounts.{HasRisen};
ghost use Rattle.line_log.specs.Device.{LeavesOnly};
ghost use Rattle.line_log.specs.Log.{IsSettled, Stands, recovered};
ghost use Rattle.line_log.specs.Taker.{is_refusal};
ghost use Rattle.pw_file.specs.History.{IsContentOf, Rows};
ghost use Rattle.pw_store.specs.Store.{StandsFor, recovered_rows, store_fault, taken};

use crate::Loading;
use line_log::{Device, Failed, OpenError};
use pw_file::{Policy, Table};
use std::alloc::Global;

/// Reads the table of a file that a crash may have left, whose bytes are these, and repairs the file's end. It may crash
/// too. It gives the table, whose verdicts use what is kept, and the place of the closed byte.
///
/// A file that no run can have left is refused by name, and isn't changed.
pub fn recover<D: Device, P: Policy>(
    alloc: Global,
    kept: P::Kept,
    device: &mut D,
    bytes: &[u8],
) -> Result<(Table<P>, usize), OpenError>
    requires bytes { bytes.now ≡ D.seen device.old }

    // The table is that of the file, and the file is at rest, all of it on the disk.
    ensures rows { IfOk result (λ found. recovered_rows P.policy (D.seen device.old) ≡ Some found.0) }
    ensures content { IfOk result (λ found. IsContentOf P.policy (taken (recovered (D.seen device.old))) found.0) }
    ensures settled { IfOk result (λ found. IsSettled D.seen D.may_leave (record { device = device.new; end = found.1 })) }
    ensures same { OnOk result (recovered (D.seen device.new) ≡ recovered (D.seen device.old)) }
    ensures stands { IfOk result (λ found. recovered_rows P.policy (D.seen device.new) ≡ Some found.0) }

    // What a run can have left isn't refused.
    ensures accepted { (rows : Rows) → StandsFor P.policy rows (D.seen device.old) → IfErr result (λ e. is_refusal e ≡ false) }

    // A crash at any moment leaves what it might have left before the call, or the same lines.
    ensures any_moment { LeavesOnly D.moment D.left_since device.old device.new
        (λ c. D.may_leave device.old c ⊎ Stands (recovered (D.seen device.old)) c) }

    // A file is refused exactly by its first fault, and isn't changed.
    ensures ok { OnOk result (store_fault P.policy (D.seen device.old) ≡ None) }
    ensures err { IfErr result (λ e. is_refusal e ≡ true → store_fault P.policy (D.seen device.old) ≡ Some e) }
    ensures refused { IfErr result (λ e. is_refusal e ≡ true → device.new ≡ device.old) }
    ensures failed { IsErrOf result OpenError.Failed → HasRisen (D.faults device.old) (D.faults device.new) }
{
    let mut loading = Loading {
        table: Table::new(alloc, kept),
    };
    match line_log::recover(device, bytes, &mut loading) {
        Ok(end) => Ok((loading.table, end)),
        Err(e) => Err(e),
    }
}

/// Makes a file with no users in the place of the device's file, if there is one. It gives the table and the place of the
/// closed byte, as [`recover`] does.
pub fn create<D: Device, P: Policy>(
    alloc: Global,
    kept: P::Kept,
    device: &mut D,
) -> Result<(Table<P>, usize), Failed>
    ensures rows { IfOk result (λ found. found.0 ≡ []) }
    ensures same { OnOk result (recovered_rows P.policy (D.seen device.new) ≡ Some []) }
    ensures settled { IfOk result (λ found. IsSettled D.seen D.may_leave (record { device = device.new; end = found.1 })) }

    // A crash at any moment leaves what it might have left before the call, or a file with no users.
    ensures any_moment { LeavesOnly D.moment D.left_since device.old device.new
        (λ c. D.may_leave device.old c ⊎ StandsFor P.policy [] c) }

    ensures failed { OnErr result (HasRisen (D.faults device.old) (D.faults device.new)) }
{
    match line_log::create(device, b"") {
        Ok(end) => Ok((Table::new(alloc, kept), end)),
        Err(Failed) => Err(Failed),
    }
}
