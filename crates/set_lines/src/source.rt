//! A source of commands.

ghost use Rattle.std.specs.Prelude.{◌≡◌, ◌⊎◌, ◌≤◌, ◌<◌, ◌^◌, [], List, ℕ, false, is_err, length, true, IfOk, OnErr, OnOk, if◌then◌else◌};
ghost use Rattle.std.specs.Option.{option_map};
ghost use Rattle.std.specs.Io.{ReadsAtMost};
ghost use Rattle.std.specs.Io.KnownBytes.{Consumes, IsAtEnd, Keeps, ReadConsumes};
ghost use Rattle.line_filter.specs.Steps.{TakesMost};
ghost use Rattle.pieces.specs.FaultCounts.{HasRisen, one_more};
ghost use Rattle.set_lines.specs.Sets.{set_text};
ghost use Rattle.set_lines.specs.Steps.{shown, waiting};

use crate::sets::Sets;
use line_io::{Failed, Source};

// The bytes of one read. With the four bytes more of each line they are commonly a group of `line_log`.
const PIECE: usize = 14_336;

// Takes a piece of a source, and tells whether it has ended.
fn take_piece<S: Source>(sets: &mut Sets, source: &mut S) -> Result<bool, Failed>
    requires given { waiting sets.old ≡ [] }
    ensures left { Keeps (option_map (shown sets.old) (S.left source.old)) (option_map (shown sets.new) (S.left source.new)) }
    ensures end { IfOk result (λ ended. ended ≡ true → waiting sets.new ≡ [] →
        IsAtEnd (option_map (shown sets.new) (S.left source.new))) }
    ensures taken { IfOk result (λ ended. ended ≡ false → (bytes : List ℕ) × Consumes (S.left source.old) (S.left source.new) bytes
        × (0 < length bytes)) }
    ensures count { S.faults source.old ≤ S.faults source.new }
    ensures cause { OnErr result (HasRisen (S.faults source.old) (S.faults source.new)) }
{
    sets.clear();
    let mut piece = [0; PIECE];
    let count = source.read(&mut piece)?;
    if count == 0 {
        sets.end();
        return Ok(true);
    }
    sets.pour(&piece[..count]);
    Ok(false)
}

// Takes pieces of a source until some bytes are ready or it has ended.
fn fill<S: Source>(sets: &mut Sets, source: &mut S) -> Result<(), Failed>
    ensures left { Keeps (option_map (shown sets.old) (S.left source.old)) (option_map (shown sets.new) (S.left source.new)) }
    ensures end { OnOk result (waiting sets.new ≡ [] → IsAtEnd (option_map (shown sets.new) (S.left source.new))) }
    ensures count { S.faults source.old ≤ S.faults source.new }
    ensures cause { OnErr result (HasRisen (S.faults source.old) (S.faults source.new) ⊎ TakesMost (S.left source.old) (S.left source.new)) }
{
    for _ in 0..u64::MAX {
        if !sets.waiting().is_empty() {
            return Ok(());
        }
        if take_piece(sets, source)? {
            return Ok(());
        }
    }
    Err(Failed)
}

// Gives the next bytes of the commands.
fn read_sets<S: Source>(sets: &mut Sets, source: &mut S, buf: &mut [u8]) -> Result<usize, Failed>
    ensures bound { ReadsAtMost result buf.new }
    ensures bytes { ReadConsumes (option_map (shown sets.old) (S.left source.old))
        (option_map (shown sets.new) (S.left source.new)) result buf.new }
    ensures count { S.faults source.old ≤ S.faults source.new }
    ensures cause { OnErr result (HasRisen (S.faults source.old) (S.faults source.new) ⊎ TakesMost (S.left source.old) (S.left source.new)) }
{
    fill(sets, source)?;
    Ok(sets.give_into(buf))
}

/// A source of the commands that set the texts of the lines of users and texts which another source gives.
///
/// What was read and not yet given is kept in some 72,000 bytes held in place.
#[derive(Drop)]
pub struct SetLines<S: Source + Drop> {
    source: S,
    sets: Sets,
    faults: u64,
}

impl<S: Source + Drop> SetLines<S> {
    ghost use Rattle.set_lines.specs.Views.{faults_of, set_left, source_of};

    /// A source of the commands of what the other one has left, with no fault counted.
    pub fn new(source: S) -> SetLines<S>
        ensures left { set_left S.left result ≡ option_map set_text (S.left source) }
        ensures source { source_of result ≡ source }
        ensures faults { faults_of result ≡ 0 }
    {
        SetLines {
            source,
            sets: Sets::new(),
            faults: 0,
        }
    }

    /// The other source.
    pub fn source(&self) -> &S
        ensures source { result.now ≡ source_of self.now }
    {
        &self.source
    }
}

impl<S: Source + Drop> Source for SetLines<S> {
    ghost use Rattle.set_lines.specs.Views.{faults_of, set_left, source_of};

    ghost left = { λ l. set_left S.left l };

    ghost faults = { λ l. faults_of l };

    fn read(&mut self, buf: &mut [u8]) -> Result<usize, Failed>
        ensures bound { ReadsAtMost result buf.new }
        ensures bytes { ReadConsumes (set_left S.left self.old) (set_left S.left self.new) result buf.new }
        ensures count { faults_of self.old ≤ faults_of self.new }
        ensures cause { OnErr result (HasRisen (faults_of self.old) (faults_of self.new)) }

        // The count rises by one in a call that fails, and only there.
        ensures faults { faults_of self.new ≡ (if is_err result then one_more (faults_of self.old) else faults_of self.old) }

        // It fails where the other source does, and else only after 2^64 - 1 bytes in one call that give none.
        ensures source { OnErr result (HasRisen (S.faults (source_of self.old)) (S.faults (source_of self.new))
            ⊎ TakesMost (S.left (source_of self.old)) (S.left (source_of self.new))) }
    {
        match read_sets(&mut self.sets, &mut self.source, buf) {
            Ok(count) => Ok(count),
            Err(Failed) => {
                self.faults = self.faults.saturating_add(1);
                Err(Failed)
            }
        }
    }
}
