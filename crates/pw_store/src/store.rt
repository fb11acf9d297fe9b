//! A table of users and their stored texts in a file.

ghost use Rattle.std.specs.Prelude.{◌≡◌, ◌⊎◌, ◌+◌, ◌≤◌, ◌&&◌, ◌++◌, ◌∷◌, [], false, true, length, Err, Ok, Some, is_ok, not, slice_get, OnErr, OnOk};
ghost use Rattle.std.specs.Option.{option_map};
ghost use Rattle.pieces.specs.FaultCounts.{HasRisen};
ghost use Rattle.line_log.specs.Device.{LeavesOnly};
ghost use Rattle.line_log.specs.Log.{IsSettled, group_max};
ghost use Rattle.pw_file.specs.Answers.{IsAnswer, check_answer, check_may_lack, set_answer, upgrade_answer, upgrade_may_lack};
ghost use Rattle.pw_file.specs.Calls.{with_text, without};
ghost use Rattle.pw_file.specs.History.{History, IsContentOf, text_in};
ghost use Rattle.pw_file.specs.Limits.{text_max};
ghost use Rattle.pw_file.specs.Replies.{row_line};
ghost use Rattle.pw_store.specs.Staged.{IsStaged, lines_of, rows_in, undo_of};
ghost use Rattle.pw_store.specs.Store.{StandsFor, recovered_rows};
ghost use Rattle.pw_store.specs.Stored.{IsSound, IsStored, after_store_remove, after_store_set, after_store_upgrade, device_of, is_disk_fault, is_unwritten_set, is_unwritten_upgrade, removal_text, rows_after_store_remove, rows_after_store_set, rows_after_store_upgrade, rows_of, size_after_store_remove, size_after_store_set, size_after_store_upgrade, size_of, stored_remove, stored_set, stored_upgrade, takes_changes};

use crate::StoreError;
use crate::group::Group;
use line_log::{Device, Failed, LineLog};
use pieces::short_bytes::ShortBytes;
use pw_file::{FileError, Policy, ROW_LINE_MAX, Table, UserName, line_of_row};
use std::alloc::Global;

// The most bytes of a line that takes a user away: `set`, a tab, a name of 64 bytes, a line feed.
const REMOVAL_MAX: usize = 69;

// The line of the file that takes a user away, with its line feed.
fn line_of_removal<P: Policy>(user: &UserName<P>) -> ShortBytes<REMOVAL_MAX>
    ensures line { result ≡ removal_text user.now }
{
    let name = user.as_bytes();
    let mut line = ShortBytes::new();
    line.push_all(b"set\t");
    line.push_all(name);
    line.push_all(b"\n");
    line
}

/// Users and their stored texts, each change of which is on the disk before it is answered.
///
/// After a fault of a write it takes no further change, and still answers checks: it has to be opened again.
#[derive(Drop)]
pub struct Store<D: Device, P: Policy> {
    pub(crate) log: LineLog<D>,
    pub(crate) table: Table<P>,
    pub(crate) is_open: bool,
    pub(crate) alloc: Global,
}

impl<D: Device, P: Policy> Store<D, P> {
    /// The table of a file and the place of its closed byte, as [`recover`](crate::recover) or [`create`](crate::create)
    /// gave them for this device.
    pub fn new(alloc: Global, device: D, table: Table<P>, end: usize) -> Store<D, P>
        requires settled { IsSettled D.seen D.may_leave (record { device = device; end = end }) }
        requires rows { recovered_rows P.policy (D.seen device) ≡ Some table }
        ensures rows { rows_of result ≡ table }
        ensures device { device_of result ≡ device }
        ensures size { size_of result ≡ end }
        ensures takes { takes_changes result ≡ true }
        ensures sound { IsSound P.policy D.seen D.may_leave result }
    {
        Store {
            log: LineLog { device, end },
            table,
            is_open: true,
            alloc,
        }
    }

    /// Whether no write has failed so far.
    pub fn takes_changes(&self) -> bool
        ensures { result ≡ takes_changes self.now }
    {
        self.is_open
    }

    /// The device.
    pub fn device(&self) -> &D
        ensures { result.now ≡ device_of self.now }
    {
        &self.log.device
    }

    /// How many users there are.
    pub fn len(&self) -> usize
        ensures { result ≡ length (rows_of self.now) }
    {
        self.table.len()
    }

    /// The user at a place and its text, by the order in which the users came.
    pub fn row(&self, i: usize) -> Option<(UserName<P>, &str)>
        ensures { option_map (λ row. (row.0, row.1.now)) result ≡ slice_get (rows_of self.now) i }
    {
        self.table.row(i)
    }

    /// Whether the user's text matches the password.
    pub fn check(
        &self,
        user: &UserName<P>,
        password: &str,
    ) -> Result<bool, FileError<P::TextFault, P::VerdictFault>>
        ensures answer { IsAnswer
            (check_answer P.policy (text_in (rows_of self.now) user.now) password.now)
            (check_may_lack P.policy (text_in (rows_of self.now) user.now) password.now)
            result }
    {
        self.table.check(user, password)
    }

    /// Puts a change into the table, and its line into the group.
    pub(crate) fn stage(
        &mut self,
        group: &mut Group<P>,
        user: &UserName<P>,
        text: &str,
    ) -> Result<(), StoreError<P::TextFault, P::VerdictFault>>
        requires room { length (lines_of group.old) + ROW_LINE_MAX ≤ group_max }
        ensures answer { (result ≡ stored_set P.policy (takes_changes self.old) (rows_of self.old)
            (size_of self.old + length (lines_of group.old)) user.now text.now)
            ⊎ ((result ≡ Err (StoreError.Table FileError.OutOfMemory))
            × (is_ok (set_answer P.policy (text_in (rows_of self.old) user.now) (length (rows_of self.old)) text.now) ≡ true)) }
        ensures rows { OnOk result (rows_of self.new ≡ with_text (rows_of self.old) user.now text.now) }
        ensures lines { OnOk result (lines_of group.new ≡ lines_of group.old ++ row_line (user.now, text.now)) }
        ensures more { OnOk result (length (undo_of group.new) ≡ length (undo_of group.old) + 1) }
        ensures as_many { OnErr result (length (undo_of group.new) ≡ length (undo_of group.old)) }
        ensures same_rows { OnErr result (rows_of self.new ≡ rows_of self.old) }
        ensures same_lines { OnErr result (lines_of group.new ≡ lines_of group.old) }
        ensures log { self.new.log ≡ self.old.log }
        ensures takes { takes_changes self.new ≡ takes_changes self.old }
        ensures staged { IsStaged P.policy D.seen D.may_leave self.old.log (lines_of group.old) (undo_of group.old) (rows_of self.old)
            → IsStaged P.policy D.seen D.may_leave self.new.log (lines_of group.new) (undo_of group.new) (rows_of self.new) }
    {
        if !self.is_open {
            return Err(StoreError::DiskFault);
        }
        let replaced = match self.table.exchange(user, text) {
            Ok(replaced) => replaced,
            Err(e) => return Err(StoreError::Table(e)),
        };
        // That the name is one of the policy, which the prover has from this call.
        let _name = user.as_str();
        let line = line_of_row(user, text);
        if !self.log.has_room(group.lines.len() + line.len()) {
            self.table.put_back(replaced);
            return Err(StoreError::FileFull);
        }
        match group.push(replaced, line.as_slice()) {
            Ok(()) => Ok(()),
            Err(replaced) => {
                self.table.put_back(replaced);
                Err(StoreError::Table(FileError::OutOfMemory))
            }
        }
    }

    /// Puts the lines of the group into the file, all of them or none. Where a write fails the changes are taken back.
    pub(crate) fn settle(&mut self, group: &mut Group<P>) -> Result<(), Failed>
        requires staged { takes_changes self.old ≡ true
            → IsStaged P.policy D.seen D.may_leave self.old.log (lines_of group.old) (undo_of group.old) (rows_of self.old) }
        requires closed { takes_changes self.old ≡ false → lines_of group.old ≡ [] }
        ensures done { OnOk result (rows_of self.new ≡ rows_of self.old) }
        ensures size { takes_changes self.old ≡ true → OnOk result (size_of self.new ≡ size_of self.old + length (lines_of group.old)) }
        ensures takes { takes_changes self.new ≡ takes_changes self.old && is_ok result }
        ensures sound { IsSound P.policy D.seen D.may_leave self.new }
        ensures back { OnErr result (rows_of self.new ≡ rows_in P.policy (D.seen (device_of self.old))) }
        ensures failed { OnErr result (HasRisen (D.faults (device_of self.old)) (D.faults (device_of self.new))) }
        ensures some { lines_of group.old ≡ [] → is_ok result ≡ true }
        ensures lines { lines_of group.new ≡ [] }
        ensures undo { undo_of group.new ≡ [] }
        ensures count { D.faults (device_of self.old) ≤ D.faults (device_of self.new) }
        ensures any_moment { takes_changes self.old ≡ true → LeavesOnly D.moment D.left_since (device_of self.old) (device_of self.new)
            (λ c. StandsFor P.policy (rows_in P.policy (D.seen (device_of self.old))) c ⊎ StandsFor P.policy (rows_of self.old) c) }
        ensures closed { takes_changes self.old ≡ false → self.new.log ≡ self.old.log }
    {
        if group.lines.is_empty() {
            group.clear();
            return Ok(());
        }
        match self.log.put(group.lines.as_slice()) {
            Ok(()) => {
                group.clear();
                Ok(())
            }
            Err(Failed) => {
                group.take_back(&mut self.table);
                self.is_open = false;
                Err(Failed)
            }
        }
    }

    /// Makes this the user's text, in the place of the one before. A new user goes last.
    ///
    /// At `Ok` it is on the disk. After any refusal the content is as before; after a fault of a write no further change
    /// is taken.
    pub fn set(
        &mut self,
        user: &UserName<P>,
        text: &str,
    ) -> Result<(), StoreError<P::TextFault, P::VerdictFault>>
        requires sound { IsSound P.policy D.seen D.may_leave self.old }
        ensures answer { IsStored
            (stored_set P.policy (takes_changes self.old) (rows_of self.old) (size_of self.old) user.now text.now)
            (is_ok (set_answer P.policy (text_in (rows_of self.old) user.now) (length (rows_of self.old)) text.now))
            (Ok tt) (D.faults (device_of self.old)) (D.faults (device_of self.new)) result }
        ensures rows { rows_of self.new ≡ rows_after_store_set (rows_of self.old) user.now text.now result }
        ensures content { (h : History) → IsContentOf P.policy h (rows_of self.old)
            → IsContentOf P.policy (after_store_set h user.now text.now result) (rows_of self.new) }
        ensures size { takes_changes self.new ≡ true → size_of self.new ≡ size_after_store_set (size_of self.old) user.now text.now result }
        ensures takes { takes_changes self.new ≡ takes_changes self.old && not (is_disk_fault result) }
        ensures sound { IsSound P.policy D.seen D.may_leave self.new }
        ensures count { D.faults (device_of self.old) ≤ D.faults (device_of self.new) }

        // A crash at any moment of the call leaves a file of the content before it, or of the content with the change.
        ensures any_moment { takes_changes self.old ≡ true → LeavesOnly D.moment D.left_since (device_of self.old) (device_of self.new)
            (λ c. StandsFor P.policy (rows_of self.old) c ⊎ StandsFor P.policy (with_text (rows_of self.old) user.now text.now) c) }

        // Where no change is taken the device isn't called, and for a refusal it isn't either.
        ensures closed { takes_changes self.old ≡ false → device_of self.new ≡ device_of self.old }
        ensures unwritten { is_unwritten_set result ≡ true → device_of self.new ≡ device_of self.old }
    {
        // That the name is one of the policy, which the prover has from this call.
        let _name = user.as_str();
        let mut group: Group<P> = Group::new(self.alloc);
        match self.stage(&mut group, user, text) {
            Ok(()) => {}
            Err(e) => return Err(e),
        }
        match self.settle(&mut group) {
            Ok(()) => Ok(()),
            Err(Failed) => Err(StoreError::DiskFault),
        }
    }

    /// Takes the user away. The last user takes its place.
    ///
    /// At `Ok` that is on the disk. After any refusal the content is as before; after a fault of a write no further change
    /// is taken. It takes no memory.
    pub fn remove(
        &mut self,
        user: &UserName<P>,
    ) -> Result<(), StoreError<P::TextFault, P::VerdictFault>>
        requires takes { P.policy.takes_remove ≡ true }
        requires sound { IsSound P.policy D.seen D.may_leave self.old }
        ensures answer { IsStored
            (stored_remove P.policy (takes_changes self.old) (rows_of self.old) (size_of self.old) user.now)
            false (Ok tt) (D.faults (device_of self.old)) (D.faults (device_of self.new)) result }
        ensures rows { rows_of self.new ≡ rows_after_store_remove (rows_of self.old) user.now result }
        ensures content { (h : History) → IsContentOf P.policy h (rows_of self.old)
            → IsContentOf P.policy (after_store_remove h user.now result) (rows_of self.new) }
        ensures size { takes_changes self.new ≡ true → size_of self.new ≡ size_after_store_remove (size_of self.old) user.now result }
        ensures takes { takes_changes self.new ≡ takes_changes self.old && not (is_disk_fault result) }
        ensures sound { IsSound P.policy D.seen D.may_leave self.new }
        ensures count { D.faults (device_of self.old) ≤ D.faults (device_of self.new) }
        ensures any_moment { takes_changes self.old ≡ true → LeavesOnly D.moment D.left_since (device_of self.old) (device_of self.new)
            (λ c. StandsFor P.policy (rows_of self.old) c ⊎ StandsFor P.policy (without (rows_of self.old) user.now) c) }
        ensures closed { takes_changes self.old ≡ false → device_of self.new ≡ device_of self.old }
        ensures unwritten { is_unwritten_set result ≡ true → device_of self.new ≡ device_of self.old }
    {
        if !self.is_open {
            return Err(StoreError::DiskFault);
        }
        // That the name is one of the policy, which the prover has from this call.
        let _name = user.as_str();
        if self.table.get(user).is_none() {
            return Err(StoreError::Table(FileError::NoUser));
        }
        let line = line_of_removal(user);
        if !self.log.has_room(line.len()) {
            return Err(StoreError::FileFull);
        }
        match self.log.put(line.as_slice()) {
            Ok(()) => {
                let _ = self.table.remove(user);
                Ok(())
            }
            Err(Failed) => {
                self.is_open = false;
                Err(StoreError::DiskFault)
            }
        }
    }

    /// Checks as [`check`](Store::check). Where the text matches, the user's text is from then on the one that the policy makes of
    /// the password and the salt, unless the policy leaves the text as it is: `FileError::Kept` says that.
    pub fn upgrade(
        &mut self,
        user: &UserName<P>,
        password: &str,
        salt: &str,
    ) -> Result<bool, StoreError<P::TextFault, P::VerdictFault>>
        requires sound { IsSound P.policy D.seen D.may_leave self.old }
        ensures answer { IsStored
            (stored_upgrade P.policy (takes_changes self.old) (rows_of self.old) (size_of self.old) user.now password.now salt.now)
            (upgrade_may_lack P.policy (text_in (rows_of self.old) user.now) password.now salt.now)
            (Ok true) (D.faults (device_of self.old)) (D.faults (device_of self.new)) result }
        ensures rows { rows_of self.new ≡ rows_after_store_upgrade P.policy (rows_of self.old) user.now password.now salt.now result }
        ensures content { (h : History) → IsContentOf P.policy h (rows_of self.old)
            → IsContentOf P.policy (after_store_upgrade h user.now password.now salt.now result) (rows_of self.new) }
        ensures size { takes_changes self.new ≡ true
            → size_of self.new ≡ size_after_store_upgrade P.policy (size_of self.old) user.now password.now salt.now result }
        ensures takes { takes_changes self.new ≡ takes_changes self.old && not (is_disk_fault result) }
        ensures sound { IsSound P.policy D.seen D.may_leave self.new }
        ensures count { D.faults (device_of self.old) ≤ D.faults (device_of self.new) }
        ensures any_moment { takes_changes self.old ≡ true → LeavesOnly D.moment D.left_since (device_of self.old) (device_of self.new)
            (λ c. StandsFor P.policy (rows_of self.old) c
            ⊎ StandsFor P.policy (with_text (rows_of self.old) user.now (P.policy.fresh password.now salt.now)) c) }
        ensures closed { takes_changes self.old ≡ false → device_of self.new ≡ device_of self.old }
        ensures unwritten { is_unwritten_upgrade result ≡ true → device_of self.new ≡ device_of self.old }
    {
        if !self.is_open {
            return Err(StoreError::DiskFault);
        }
        // That the name is one of the policy, which the prover has from this call.
        let _name = user.as_str();
        match self.table.renewed(user, password, salt) {
            Ok(Some(text)) => match self.set(user, &text) {
                Ok(()) => Ok(true),
                Err(e) => Err(e),
            },
            Ok(None) => Ok(false),
            Err(e) => Err(StoreError::Table(e)),
        }
    }
}
