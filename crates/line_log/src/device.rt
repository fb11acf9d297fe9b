//! What a device is: a file, what it reads as, and what a crash may leave of it.

ghost use Rattle.std.specs.Prelude.{◌≡◌, ◌⊎◌, ◌≤◌, ◌++◌, [], List, ℕ, length, take, OnErr, OnOk};
ghost use Rattle.pieces.specs.FaultCounts.{HasRisen};
ghost use Rattle.line_log.specs.Device.{Cut, Elapses, Follows, Holds, Only, Torn};

use line_io::Failed;

/// A file, and one more that is to replace it.
///
/// A crash is a power cut, or the end of the process whatever its cause. What it may leave of the file is known at each
/// moment, and so is what a crash at some moment since an earlier one might have left: a contract speaks of a crash
/// during a call by that. After `Failed` nothing is said of the bytes of the file but what a crash may leave.
///
/// What a read gives is among what a crash may leave, after each call if it was before it (`leaves`): so no clause that says
/// what such a file has is empty.
pub trait Device {
    /// The bytes that a read of the file gives.
    ghost seen: { Self → List ℕ };

    /// What a crash at this moment may leave of the file.
    ghost may_leave: { Self → List ℕ → Type 0 };

    /// The moment, as a number that doesn't fall.
    ghost moment: { Self → ℕ };

    /// What a crash at some moment from that one on might have left, during a call or between two.
    ghost left_since: { Self → ℕ → List ℕ → Type 0 };

    /// The count of faults.
    ghost faults: { Self → ℕ };

    /// The bytes of the file that is to replace this one.
    ghost replacement: { Self → List ℕ };

    /// What a crash at this moment may leave of that file.
    ghost replacement_may_hold: { Self → List ℕ → Type 0 };

    /// Writes over what is there, and past the end. Until a sync, a crash may leave any bytes in the range.
    fn write_at(&mut self, at: usize, bytes: &[u8]) -> Result<(), Failed>
        requires within { at ≤ length (seen self.old) }
        ensures written { OnOk result (Holds (seen self.old) at bytes.now (seen self.new)) }
        ensures crash { Follows (Torn at (length bytes.now)) (may_leave self.old) (may_leave self.new) }
        ensures leaves { may_leave self.old (seen self.old) → may_leave self.new (seen self.new) }
        ensures time { Elapses (moment self.old) (moment self.new) (left_since self.old) (left_since self.new) (may_leave self.new) }
        ensures count { faults self.old ≤ faults self.new }
        ensures cause { OnErr result (HasRisen (faults self.old) (faults self.new)) };

    /// Cuts a file that is on the disk to a length. Until a sync, a crash may leave a longer part of it, with zeros in it.
    fn cut(&mut self, len: usize) -> Result<(), Failed>
        requires within { len ≤ length (seen self.old) }
        requires durable { Only (seen self.old) (may_leave self.old) }
        ensures cut { OnOk result (seen self.new ≡ take len (seen self.old)) }
        ensures crash { Follows (Cut len) (may_leave self.old) (may_leave self.new) }
        ensures leaves { may_leave self.old (seen self.old) → may_leave self.new (seen self.new) }
        ensures time { Elapses (moment self.old) (moment self.new) (left_since self.old) (left_since self.new) (may_leave self.new) }
        ensures count { faults self.old ≤ faults self.new }
        ensures cause { OnErr result (HasRisen (faults self.old) (faults self.new)) };

    /// After it, a crash leaves what a read gives.
    ///
    /// After a call that failed none succeeds, or the device has to know otherwise that all is on the disk: a system may
    /// give up what it couldn't write, and answer the next sync as if it had written it.
    fn sync(&mut self) -> Result<(), Failed>
        ensures durable { OnOk result (Only (seen self.old) (may_leave self.new)) }
        ensures seen { seen self.new ≡ seen self.old }
        ensures crash { (c : List ℕ) → may_leave self.new c → may_leave self.old c }
        ensures leaves { may_leave self.old (seen self.old) → may_leave self.new (seen self.new) }
        ensures time { Elapses (moment self.old) (moment self.new) (left_since self.old) (left_since self.new) (may_leave self.new) }
        ensures count { faults self.old ≤ faults self.new }
        ensures cause { OnErr result (HasRisen (faults self.old) (faults self.new)) };

    /// Begins a replacement, with no bytes.
    fn begin_replacement(&mut self) -> Result<(), Failed>
        ensures begun { OnOk result (replacement self.new ≡ []) }
        ensures seen { seen self.new ≡ seen self.old }
        ensures crash { (c : List ℕ) → may_leave self.new c → may_leave self.old c }
        ensures leaves { may_leave self.old (seen self.old) → may_leave self.new (seen self.new) }
        ensures time { Elapses (moment self.old) (moment self.new) (left_since self.old) (left_since self.new) (may_leave self.new) }
        ensures count { faults self.old ≤ faults self.new }
        ensures cause { OnErr result (HasRisen (faults self.old) (faults self.new)) };

    /// Adds bytes to the replacement.
    fn append_replacement(&mut self, bytes: &[u8]) -> Result<(), Failed>
        ensures appended { OnOk result (replacement self.new ≡ replacement self.old ++ bytes.now) }
        ensures seen { seen self.new ≡ seen self.old }
        ensures crash { (c : List ℕ) → may_leave self.new c → may_leave self.old c }
        ensures leaves { may_leave self.old (seen self.old) → may_leave self.new (seen self.new) }
        ensures time { Elapses (moment self.old) (moment self.new) (left_since self.old) (left_since self.new) (may_leave self.new) }
        ensures count { faults self.old ≤ faults self.new }
        ensures cause { OnErr result (HasRisen (faults self.old) (faults self.new)) };

    /// After it, a crash leaves of the replacement the bytes that were added.
    fn sync_replacement(&mut self) -> Result<(), Failed>
        ensures durable { OnOk result (Only (replacement self.old) (replacement_may_hold self.new)) }
        ensures replacement { replacement self.new ≡ replacement self.old }
        ensures seen { seen self.new ≡ seen self.old }
        ensures crash { (c : List ℕ) → may_leave self.new c → may_leave self.old c }
        ensures leaves { may_leave self.old (seen self.old) → may_leave self.new (seen self.new) }
        ensures time { Elapses (moment self.old) (moment self.new) (left_since self.old) (left_since self.new) (may_leave self.new) }
        ensures count { faults self.old ≤ faults self.new }
        ensures cause { OnErr result (HasRisen (faults self.old) (faults self.new)) };

    /// Puts the replacement in the place of the file. Until a sync, a crash may leave either.
    fn replace(&mut self) -> Result<(), Failed>
        ensures replaced { OnOk result (seen self.new ≡ replacement self.old) }
        ensures crash { (c : List ℕ) → may_leave self.new c → may_leave self.old c ⊎ replacement_may_hold self.old c }
        ensures leaves { may_leave self.old (seen self.old) → may_leave self.new (seen self.new) }
        ensures time { Elapses (moment self.old) (moment self.new) (left_since self.old) (left_since self.new) (may_leave self.new) }
        ensures count { faults self.old ≤ faults self.new }
        ensures cause { OnErr result (HasRisen (faults self.old) (faults self.new)) };

    /// This moment is one of those since an earlier one.
    ghost counts_now: { (file : Self) (t : ℕ) (c : List ℕ) → t ≤ moment file → may_leave file c → left_since file t c };

    /// Since this moment there is no other.
    ghost only_now: { (file : Self) (c : List ℕ) → left_since file (moment file) c → may_leave file c };
}
