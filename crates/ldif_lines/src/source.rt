//! A source of the lines of a dump.

ghost use Rattle.std.specs.Prelude.{◌≡◌, ◌⊎◌, ◌≤◌, ◌<◌, ◌^◌, [], List, ℕ, false, is_err, length, true, IfOk, OnErr, OnOk, if◌then◌else◌};
ghost use Rattle.std.specs.Option.{option_map};
ghost use Rattle.std.specs.Io.{ReadsAtMost};
ghost use Rattle.std.specs.Io.KnownBytes.{Consumes, IsAtEnd, Keeps, ReadConsumes};
ghost use Rattle.pieces.specs.FaultCounts.{HasRisen, one_more};
ghost use Rattle.line_filter.specs.Steps.{TakesMost};
ghost use Rattle.ldif_lines.specs.Steps.{pending, shown_by, waiting};

use crate::reader::{PIECE, Reader};
use line_io::{Failed, Source};

/// What the bytes of a file are.
#[derive(Clone, Copy, Debug, PartialEq, Eq)]
pub enum FileForm {
    /// Lines.
    Lines,
    /// A dump of a directory in LDIF.
    Ldif,
}

// Takes a piece of a source, and answers whether it has ended.
fn take_piece<S: Source>(reader: &mut Reader, source: &mut S) -> Result<bool, Failed>
    requires given { waiting reader.old.dump ≡ [] }
    requires none { pending reader.old ≡ [] }
    ensures left { Keeps (option_map (shown_by reader.old) (S.left source.old)) (option_map (shown_by reader.new) (S.left source.new)) }
    ensures all { OnOk result (waiting reader.new.dump ≡ [] → pending reader.new ≡ []) }
    ensures end { IfOk result (λ ended. ended ≡ true → waiting reader.new.dump ≡ [] →
        IsAtEnd (option_map (shown_by reader.new) (S.left source.new))) }
    ensures taken { IfOk result (λ ended. ended ≡ false → (bytes : List ℕ) × Consumes (S.left source.old) (S.left source.new) bytes
        × (0 < length bytes)) }
    ensures count { S.faults source.old ≤ S.faults source.new }
    ensures cause { OnErr result (HasRisen (S.faults source.old) (S.faults source.new)) }
{
    let mut piece = [0; PIECE];
    let count = source.read(&mut piece)?;
    if count == 0 {
        reader.end();
        return Ok(true);
    }
    reader.take(&piece[..count]);
    Ok(false)
}

// Takes pieces of a source until some bytes are ready or it has ended.
fn fill<S: Source>(reader: &mut Reader, source: &mut S) -> Result<(), Failed>
    requires given { waiting reader.old.dump ≡ [] → pending reader.old ≡ [] }
    ensures left { Keeps (option_map (shown_by reader.old) (S.left source.old)) (option_map (shown_by reader.new) (S.left source.new)) }
    ensures end { OnOk result (waiting reader.new.dump ≡ [] → IsAtEnd (option_map (shown_by reader.new) (S.left source.new))) }
    ensures count { S.faults source.old ≤ S.faults source.new }
    ensures cause { OnErr result (HasRisen (S.faults source.old) (S.faults source.new) ⊎ TakesMost (S.left source.old) (S.left source.new)) }
{
    for _ in 0..u64::MAX {
        if !reader.is_given() {
            return Ok(());
        }
        if take_piece(reader, source)? {
            return Ok(());
        }
    }
    Err(Failed)
}

// Takes what was read and pieces of a source until some bytes are ready or it has ended.
fn prepare<S: Source>(reader: &mut Reader, source: &mut S) -> Result<(), Failed>
    ensures left { Keeps (option_map (shown_by reader.old) (S.left source.old)) (option_map (shown_by reader.new) (S.left source.new)) }
    ensures end { OnOk result (waiting reader.new.dump ≡ [] → IsAtEnd (option_map (shown_by reader.new) (S.left source.new))) }
    ensures count { S.faults source.old ≤ S.faults source.new }
    ensures cause { OnErr result (HasRisen (S.faults source.old) (S.faults source.new) ⊎ TakesMost (S.left source.old) (S.left source.new)) }
{
    if !reader.is_given() {
        return Ok(());
    }
    reader.refill();
    fill(reader, source)
}

// Gives the next bytes of the lines.
fn read_lines<S: Source>(
    reader: &mut Reader,
    source: &mut S,
    buf: &mut [u8],
) -> Result<usize, Failed>
    ensures bound { ReadsAtMost result buf.new }
    ensures bytes { ReadConsumes (option_map (shown_by reader.old) (S.left source.old))
        (option_map (shown_by reader.new) (S.left source.new)) result buf.new }
    ensures count { S.faults source.old ≤ S.faults source.new }
    ensures cause { OnErr result (HasRisen (S.faults source.old) (S.faults source.new) ⊎ TakesMost (S.left source.old) (S.left source.new)) }
{
    prepare(reader, source)?;
    Ok(reader.give_into(buf))
}

/// A source of the lines of users and texts of a dump that another source gives, or of lines as they are.
///
/// The other one gives the dump without carriage returns before its line feeds, as `line_filter::Filtered` does. What was read and not
/// yet given is kept in some 110,000 bytes held in place.
#[derive(Drop)]
pub struct LdifLines<S: Source + Drop> {
    source: S,
    form: FileForm,
    reader: Reader,
    faults: u64,
}

impl<S: Source + Drop> LdifLines<S> {
    ghost use Rattle.ldif_lines.specs.Views.{faults_of, ldif_left, read_as, source_of};

    /// A source of the lines of what the other one has left, with no fault counted.
    pub fn new(form: FileForm, source: S) -> LdifLines<S>
        ensures left { ldif_left S.left result ≡ read_as form (S.left source) }
        ensures source { source_of result ≡ source }
        ensures faults { faults_of result ≡ 0 }
    {
        LdifLines {
            source,
            form,
            reader: Reader::new(),
            faults: 0,
        }
    }

    /// The other source.
    pub fn source(&self) -> &S
        ensures source { result.now ≡ source_of self.now }
    {
        &self.source
    }

    // Reads without a count of faults.
    fn read_once(&mut self, buf: &mut [u8]) -> Result<usize, Failed>
        ensures bound { ReadsAtMost result buf.new }
        ensures bytes { ReadConsumes (ldif_left S.left self.old) (ldif_left S.left self.new) result buf.new }
        ensures cause { OnErr result (HasRisen (S.faults (source_of self.old)) (S.faults (source_of self.new))
            ⊎ TakesMost (S.left (source_of self.old)) (S.left (source_of self.new))) }
        ensures faults { faults_of self.new ≡ faults_of self.old }
    {
        match self.form {
            FileForm::Lines => self.source.read(buf),
            FileForm::Ldif => read_lines(&mut self.reader, &mut self.source, buf),
        }
    }
}

impl<S: Source + Drop> Source for LdifLines<S> {
    ghost use Rattle.ldif_lines.specs.Views.{faults_of, ldif_left, source_of};

    ghost left = { λ l. ldif_left S.left l };

    ghost faults = { λ l. faults_of l };

    fn read(&mut self, buf: &mut [u8]) -> Result<usize, Failed>
        ensures bound { ReadsAtMost result buf.new }
        ensures bytes { ReadConsumes (ldif_left S.left self.old) (ldif_left S.left self.new) result buf.new }
        ensures count { faults_of self.old ≤ faults_of self.new }
        ensures cause { OnErr result (HasRisen (faults_of self.old) (faults_of self.new)) }

        // The count rises by one in a call that fails, and only there.
        ensures faults { faults_of self.new ≡ (if is_err result then one_more (faults_of self.old) else faults_of self.old) }

        // It fails where the other source does, and else only after 2^64 - 1 bytes in one call that give no line.
        ensures source { OnErr result (HasRisen (S.faults (source_of self.old)) (S.faults (source_of self.new))
            ⊎ TakesMost (S.left (source_of self.old)) (S.left (source_of self.new))) }
    {
        match self.read_once(buf) {
            Ok(count) => Ok(count),
            Err(Failed) => {
                self.faults = self.faults.saturating_add(1);
                Err(Failed)
            }
        }
    }
}
