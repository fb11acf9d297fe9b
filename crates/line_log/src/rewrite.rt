//! New files, in the place of those that are there.

ghost use Rattle.std.specs.Prelude.{◌≡◌, ◌⊎◌, ◌≤◌, List, ℕ, length, IfOk, OnErr, OnOk};
ghost use Rattle.pieces.specs.FaultCounts.{HasRisen};
ghost use Rattle.line_log.specs.Device.{LeavesOnly, Only};
ghost use Rattle.line_log.specs.Log.{AreWhole, IsSettled, Stands, at_rest, file_max, open_lines, recovered};

use crate::log::HEADER;
use crate::{Device, Failed, LineLog};

/// Makes a file of these lines, each with its line feed, in the place of the device's file, if there is one, and gives
/// the place of its closed byte: a [`LineLog`] of the device and this place is settled.
pub fn create<D: Device>(device: &mut D, lines: &[u8]) -> Result<usize, Failed>
    requires whole { AreWhole lines.now }
    requires short { length lines.now ≤ file_max }
    ensures settled { IfOk result (λ end. IsSettled D.seen D.may_leave (record { device = device.new; end = end })) }
    ensures lines { OnOk result (recovered (D.seen device.new) ≡ open_lines lines.now) }

    // A crash at any moment leaves what it might have left before the call, or these lines.
    ensures any_moment { LeavesOnly D.moment D.left_since device.old device.new
        (λ c. D.may_leave device.old c ⊎ Stands (open_lines lines.now) c) }

    ensures failed { OnErr result (HasRisen (D.faults device.old) (D.faults device.new)) }
{
    write_replacement(device, lines)?;
    put_in_place(device)?;
    Ok(HEADER.len() + lines.len())
}

// Writes a replacement of these lines, and syncs it.
fn write_replacement<D: Device>(device: &mut D, lines: &[u8]) -> Result<(), Failed>
    requires whole { AreWhole lines.now }
    ensures replacement { OnOk result (D.replacement device.new ≡ at_rest (open_lines lines.now)) }
    ensures durable { OnOk result (Only (D.replacement device.new) (D.replacement_may_hold device.new)) }
    ensures crash { (c : List ℕ) → D.may_leave device.new c → D.may_leave device.old c }
    ensures any_moment { LeavesOnly D.moment D.left_since device.old device.new (D.may_leave device.old) }
    ensures count { D.faults device.old ≤ D.faults device.new }
    ensures failed { OnErr result (HasRisen (D.faults device.old) (D.faults device.new)) }
{
    device.begin_replacement()?;
    device.append_replacement(HEADER)?;
    device.append_replacement(lines)?;
    device.append_replacement(b"#")?;
    device.sync_replacement()?;
    Ok(())
}

// Puts the replacement, which is on the disk, in the place of the file, and syncs that.
fn put_in_place<D: Device>(device: &mut D) -> Result<(), Failed>
    requires synced { Only (D.replacement device.old) (D.replacement_may_hold device.old) }
    ensures replaced { OnOk result (D.seen device.new ≡ D.replacement device.old) }
    ensures durable { OnOk result (Only (D.seen device.new) (D.may_leave device.new)) }
    ensures any_moment { LeavesOnly D.moment D.left_since device.old device.new
        (λ c. D.may_leave device.old c ⊎ (c ≡ D.replacement device.old)) }
    ensures count { D.faults device.old ≤ D.faults device.new }
    ensures failed { OnErr result (HasRisen (D.faults device.old) (D.faults device.new)) }
{
    device.replace()?;
    device.sync()?;
    Ok(())
}

impl<D: Device> LineLog<D> {
    /// Makes a new file of these lines, each with its line feed, in the place of the one that is there.
    /// At `Err`, the file has to be opened again.
    pub fn rewrite(&mut self, lines: &[u8]) -> Result<(), Failed>
        requires settled { IsSettled D.seen D.may_leave self.old }
        requires whole { AreWhole lines.now }
        requires short { length lines.now ≤ file_max }

        ensures accepted { OnOk result (IsSettled D.seen D.may_leave self.new) }
        ensures lines { OnOk result (recovered (D.seen self.new.device) ≡ open_lines lines.now) }

        // A crash at any moment of the call leaves the lines from before it, or the new ones.
        ensures any_moment { LeavesOnly D.moment D.left_since self.old.device self.new.device
            (λ c. Stands (recovered (D.seen self.old.device)) c ⊎ Stands (open_lines lines.now) c) }

        ensures failed { OnErr result (HasRisen (D.faults self.old.device) (D.faults self.new.device)) }
    {
        self.end = create(&mut self.device, lines)?;
        Ok(())
    }
}
