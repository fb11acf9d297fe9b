//! Lines, each on the disk before it is answered.
//!
//! A line counts where its first byte is `s` and a line feed ends it. A closed byte, `#`, stands behind the last one, on
//! the disk before anything is written behind it.

ghost use Rattle.std.specs.Prelude.{◌≡◌, ◌⊎◌, ◌+◌, ◌<◌, ◌≤◌, ◌++◌, ◌∷◌, [], List, ℕ, drop, length, nat_le, Ok, IfOk, OnErr, OnOk};
ghost use Rattle.pieces.specs.FaultCounts.{HasRisen};
ghost use Rattle.line_log.specs.Device.{Holds, LeavesOnly, Only};
ghost use Rattle.line_log.specs.Log.{AreWhole, IsBeforeOrAfter, IsGroup, IsSettled, Stands, at_rest, file_max, group_max, header, open_lines, recovered, written};
ghost use Rattle.line_log.specs.Staged.{TornFrom, staged};

use crate::{Device, Failed};

/// The most bytes of lines that are added at once.
pub const GROUP_MAX: usize = 16_384;

/// The most bytes of a file that lines are added to.
pub const FILE_MAX: usize = 1 << 28;

/// The first line of each file, with its line feed.
pub const HEADER: &[u8] = b"#pwstore 1\n";

/// A file of lines. Its end is the place of the closed byte.
#[derive(Drop)]
pub struct LineLog<D: Device> {
    pub device: D,
    pub end: usize,
}

impl<D: Device> LineLog<D> {
    /// Whether so many bytes of lines may be added.
    pub fn has_room(&self, len: usize) -> bool
        ensures room { result ≡ nat_le (self.now.end + len) file_max }
    {
        self.end <= FILE_MAX && len <= FILE_MAX - self.end
    }

    /// Adds lines, each with its line feed. At `Ok` they are accepted: from then on each crash leaves a file that has
    /// them. At `Err`, the file has to be opened again.
    ///
    /// It takes two syncs, whatever the number of lines.
    pub fn put(&mut self, group: &[u8]) -> Result<(), Failed>
        requires settled { IsSettled D.seen D.may_leave self.old }
        requires group { IsGroup group.now }
        requires room { self.old.end + length group.now ≤ file_max }

        ensures accepted { OnOk result (IsSettled D.seen D.may_leave self.new) }
        ensures lines { OnOk result (recovered (D.seen self.new.device) ≡ recovered (D.seen self.old.device) ++ open_lines group.now) }

        // A crash at any moment of the call leaves the lines from before it, with all of the new ones or none of them.
        ensures any_moment { LeavesOnly D.moment D.left_since self.old.device self.new.device
            (IsBeforeOrAfter (recovered (D.seen self.old.device)) (open_lines group.now)) }

        // It doesn't give up by itself.
        ensures count { D.faults self.old.device ≤ D.faults self.new.device }
        ensures failed { OnErr result (HasRisen (D.faults self.old.device) (D.faults self.new.device)) }
    {
        stage(&mut self.device, self.end, group)?;
        open_staged(&mut self.device, self.end, group)?;
        self.end += group.len();
        Ok(())
    }
}

// Writes, and then syncs.
fn write_synced<D: Device>(device: &mut D, at: usize, bytes: &[u8]) -> Result<(), Failed>
    requires within { at ≤ length (D.seen device.old) }
    ensures written { OnOk result (Holds (D.seen device.old) at bytes.now (D.seen device.new)) }
    ensures durable { OnOk result (Only (D.seen device.new) (D.may_leave device.new)) }
    ensures any_moment { LeavesOnly D.moment D.left_since device.old device.new
        (λ c. D.may_leave device.old c ⊎ TornFrom at (length bytes.now) (D.may_leave device.old) c) }
    ensures count { D.faults device.old ≤ D.faults device.new }
    ensures failed { OnErr result (HasRisen (D.faults device.old) (D.faults device.new)) }
{
    device.write_at(at, bytes)?;
    device.sync()?;
    Ok(())
}

// Writes a group behind the closed byte of a file at rest. None of its lines counts yet.
fn stage<D: Device>(device: &mut D, end: usize, group: &[u8]) -> Result<(), Failed>
    requires file { D.seen device.old ≡ at_rest (recovered (D.seen device.old)) }
    requires place { end ≡ length (written (recovered (D.seen device.old))) }
    requires durable { Only (D.seen device.old) (D.may_leave device.old) }
    requires group { IsGroup group.now }
    requires room { end + length group.now ≤ file_max }
    ensures staged { OnOk result (D.seen device.new ≡ staged (recovered (D.seen device.old)) group.now) }
    ensures durable { OnOk result (Only (D.seen device.new) (D.may_leave device.new)) }
    ensures any_moment { LeavesOnly D.moment D.left_since device.old device.new (Stands (recovered (D.seen device.old))) }
    ensures count { D.faults device.old ≤ D.faults device.new }
    ensures failed { OnErr result (HasRisen (D.faults device.old) (D.faults device.new)) }
{
    device.write_at(end + 1, &group[1..])?;
    write_synced(device, end + group.len(), b"#")?;
    Ok(())
}

// Opens a group that was staged, so that its lines count.
fn open_staged<D: Device>(device: &mut D, end: usize, group: &[u8]) -> Result<(), Failed>
    requires file { D.seen device.old ≡ staged (recovered (D.seen device.old)) group.now }
    requires place { end ≡ length (written (recovered (D.seen device.old))) }
    requires durable { Only (D.seen device.old) (D.may_leave device.old) }
    requires group { IsGroup group.now }
    ensures opened { OnOk result (D.seen device.new ≡ at_rest (recovered (D.seen device.old) ++ open_lines group.now)) }
    ensures durable { OnOk result (Only (D.seen device.new) (D.may_leave device.new)) }
    ensures any_moment { LeavesOnly D.moment D.left_since device.old device.new
        (IsBeforeOrAfter (recovered (D.seen device.old)) (open_lines group.now)) }
    ensures count { D.faults device.old ≤ D.faults device.new }
    ensures failed { OnErr result (HasRisen (D.faults device.old) (D.faults device.new)) }
{
    write_synced(device, end, b"s")?;
    Ok(())
}

/// Repairs the end of a file that a crash may have left, whose lines end at a place.
pub(crate) fn repair<D: Device>(device: &mut D, end: usize) -> Result<(), Failed>
    requires left { Stands (recovered (D.seen device.old)) (D.seen device.old) }
    requires place { end ≡ length (written (recovered (D.seen device.old))) }
    requires durable { Only (D.seen device.old) (D.may_leave device.old) }
    ensures at_rest { OnOk result (D.seen device.new ≡ at_rest (recovered (D.seen device.old))) }
    ensures durable { OnOk result (Only (D.seen device.new) (D.may_leave device.new)) }
    // A crash at any moment leaves the same lines.
    ensures any_moment { LeavesOnly D.moment D.left_since device.old device.new (Stands (recovered (D.seen device.old))) }
    ensures count { D.faults device.old ≤ D.faults device.new }
    ensures failed { OnErr result (HasRisen (D.faults device.old) (D.faults device.new)) }
{
    device.cut(end)?;
    // The cut has to be on the disk first: behind a byte that is torn open, what was there would count.
    device.sync()?;
    write_synced(device, end, b"#")?;
    Ok(())
}
