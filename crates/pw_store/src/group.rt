//! Changes that are in the table and not yet in the file.

ghost use Rattle.std.specs.Prelude.{◌≡◌, ◌+◌, ◌<◌, ◌≤◌, ◌++◌, ◌∷◌, [], false, length, true, IfErr, OnErr, OnOk};
ghost use Rattle.line_log.specs.Log.{group_max};
ghost use Rattle.pw_file.specs.History.{Rows};
ghost use Rattle.pw_store.specs.Staged.{Undoes, lines_of, undo_of};

use line_log::GROUP_MAX;
use pw_file::{Policy, ROW_LINE_MAX, Replaced, Table};
use std::alloc::Global;

/// Changes that are in the table and not yet in the file: their lines, and what takes them back.
#[derive(Drop)]
pub(crate) struct Group<P: Policy> {
    pub lines: Vec<u8>,
    pub undo: Vec<Replaced<P>>,
}

impl<P: Policy> Group<P> {
    /// No changes.
    pub fn new(alloc: Global) -> Group<P>
        ensures lines { lines_of result ≡ [] }
        ensures undo { undo_of result ≡ [] }
    {
        Group {
            lines: Vec::new(alloc),
            undo: Vec::new(alloc),
        }
    }

    /// How many changes there are.
    pub fn count(&self) -> usize
        ensures count { result ≡ length (undo_of self.now) }
    {
        self.undo.len()
    }

    /// Whether there is room for one change more, whatever it is.
    pub fn has_room(&self) -> bool
        ensures room { result ≡ true → length (lines_of self.now) + ROW_LINE_MAX ≤ group_max }
        ensures full { result ≡ false → group_max < length (lines_of self.now) + ROW_LINE_MAX }
    {
        self.lines.len() <= GROUP_MAX - ROW_LINE_MAX
    }

    /// Adds a change that is in the table. Where memory is wanting, what takes it back is given back.
    pub fn push(&mut self, replaced: Replaced<P>, line: &[u8]) -> Result<(), Replaced<P>>
        ensures lines { OnOk result (lines_of self.new ≡ lines_of self.old ++ line.now) }
        ensures undo { OnOk result (undo_of self.new ≡ undo_of self.old ++ replaced ∷ []) }
        ensures back { IfErr result (λ back. back ≡ replaced) }
        ensures same_lines { OnErr result (lines_of self.new ≡ lines_of self.old) }
        ensures same_undo { OnErr result (undo_of self.new ≡ undo_of self.old) }
    {
        let len = self.lines.len();
        match self.lines.extend_from_slice(line) {
            Ok(()) => {}
            Err(_) => return Err(replaced),
        }
        match self.undo.push(replaced) {
            Ok(()) => Ok(()),
            Err(e) => {
                self.lines.truncate(len);
                Err(e.value)
            }
        }
    }

    /// Forgets the changes, which are in the file.
    pub fn clear(&mut self)
        ensures lines { lines_of self.new ≡ [] }
        ensures undo { undo_of self.new ≡ [] }
    {
        self.lines.clear();
        self.undo.clear();
    }

    /// Takes the changes back, the last one first.
    pub fn take_back(&mut self, table: &mut Table<P>)
        ensures back { (rows : Rows) → Undoes rows (undo_of self.old) table.old → table.new ≡ rows }
        ensures lines { lines_of self.new ≡ [] }
        ensures undo { undo_of self.new ≡ [] }
    {
        self.lines.clear();
        while let Some(replaced) = self.undo.pop() {
            table.put_back(replaced);
        }
    }
}
