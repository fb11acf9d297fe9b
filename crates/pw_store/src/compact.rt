//! A file made anew, of one line for each user.

ghost use Rattle.std.specs.Prelude.{◌≡◌, ◌⊎◌, ◌&&◌, ◌<◌, ◌≤◌, ◌++◌, ℕ, List, false, true, length, slice_get, None, Some, Err, Ok, not, IfOk, OnOk};
ghost use Rattle.std.specs.List.{flat_map};
ghost use Rattle.pieces.specs.FaultCounts.{HasRisen};
ghost use Rattle.line_log.specs.Device.{LeavesOnly};
ghost use Rattle.line_log.specs.Log.{file_max, recovered};
ghost use Rattle.pw_file.specs.Replies.{row_line};
ghost use Rattle.pw_store.specs.Store.{StandsFor};
ghost use Rattle.pw_store.specs.Stored.{IsSound, device_of, is_disk_fault, lines_of_rows, rows_of, takes_changes};

use crate::{Store, StoreError};
use line_log::{Device, FILE_MAX, Failed};
use pw_file::{FileError, Policy, Table, line_of_row};
use std::alloc::{AllocError, Global};

// Adds the line of the user at a place.
fn push_row<P: Policy>(table: &Table<P>, i: usize, lines: &mut Vec<u8>) -> Result<(), AllocError>
    ensures none { slice_get table.now i ≡ None → lines.new.items ≡ lines.old.items }
    ensures some { (row : List ℕ × List ℕ) → slice_get table.now i ≡ Some row → OnOk result (lines.new.items ≡ lines.old.items ++ row_line row) }
{
    match table.row(i) {
        Some((user, text)) => {
            let line = line_of_row(&user, text);
            lines.extend_from_slice(line.as_slice())?;
            Ok(())
        }
        None => Ok(()),
    }
}

// The line of each user.
fn all_lines<P: Policy>(alloc: Global, table: &Table<P>) -> Result<Vec<u8>, AllocError>
    ensures lines { IfOk result (λ lines. lines.items ≡ flat_map row_line table.now) }
    ensures few { OnOk result (length table.now ≤ P.policy.users_max) }
{
    let mut lines = Vec::new(alloc);
    for i in 0..table.len() {
        push_row(table, i, &mut lines)?;
    }
    Ok(lines)
}

impl<D: Device, P: Policy> Store<D, P> {
    /// Writes a file of one line for each user in the place of the one that is there. The content is the same.
    ///
    /// After a fault of a write no further change is taken. The file is full where the lines have more than 2^28 bytes:
    /// no run has left such lines.
    pub fn compact(&mut self) -> Result<(), StoreError<P::TextFault, P::VerdictFault>>
        requires sound { IsSound P.policy D.seen D.may_leave self.old }
        ensures answer { (result ≡ Ok tt) ⊎ ((result ≡ Err (StoreError.Table FileError.OutOfMemory))
            ⊎ (((result ≡ Err StoreError.FileFull) × (file_max < length (flat_map row_line (rows_of self.old))))
            ⊎ ((result ≡ Err StoreError.DiskFault) × ((takes_changes self.old ≡ false)
            ⊎ HasRisen (D.faults (device_of self.old)) (D.faults (device_of self.new)))))) }
        ensures open { result ≡ Ok tt → takes_changes self.old ≡ true }
        ensures lines { result ≡ Ok tt → recovered (D.seen (device_of self.new)) ≡ lines_of_rows (rows_of self.old) }
        ensures rows { rows_of self.new ≡ rows_of self.old }
        ensures takes { takes_changes self.new ≡ takes_changes self.old && not (is_disk_fault result) }
        ensures sound { IsSound P.policy D.seen D.may_leave self.new }

        // A crash at any moment of the call leaves a file of the same content.
        ensures any_moment { takes_changes self.old ≡ true → LeavesOnly D.moment D.left_since (device_of self.old) (device_of self.new)
            (StandsFor P.policy (rows_of self.old)) }

        // Where no change is taken the device isn't called.
        ensures closed { takes_changes self.old ≡ false → device_of self.new ≡ device_of self.old }
    {
        if !self.is_open {
            return Err(StoreError::DiskFault);
        }
        let Ok(lines) = all_lines(self.alloc, &self.table) else {
            return Err(StoreError::Table(FileError::OutOfMemory));
        };
        if lines.len() > FILE_MAX {
            return Err(StoreError::FileFull);
        }
        match self.log.rewrite(lines.as_slice()) {
            Ok(()) => Ok(()),
            Err(Failed) => {
                self.is_open = false;
                Err(StoreError::DiskFault)
            }
        }
    }
}
