//! A source of the bytes that are meant.

ghost use Rattle.std.specs.Prelude.{◌≡◌, ◌⊎◌, ◌≤◌, ◌<◌, ◌^◌, [], List, ℕ, false, is_err, length, true, IfOk, OnErr, OnOk, if◌then◌else◌};
ghost use Rattle.std.specs.Option.{option_map};
ghost use Rattle.std.specs.Io.{ReadsAtMost};
ghost use Rattle.std.specs.Io.KnownBytes.{Consumes, IsAtEnd, Keeps, ReadConsumes};
ghost use Rattle.pieces.specs.FaultCounts.{HasRisen, one_more};
ghost use Rattle.line_filter.specs.Forms.{meant};
ghost use Rattle.line_filter.specs.Steps.{TakesMost, shown, waiting};

use crate::forms::LineForms;
use crate::sieve::Sieve;
use line_io::{Failed, Source};

// The bytes of one read.
const PIECE: usize = 8_192;

// Takes a piece of a source, and tells whether it has ended.
fn take_piece<S: Source>(sieve: &mut Sieve, source: &mut S) -> Result<bool, Failed>
    requires given { waiting sieve.old ≡ [] }
    ensures forms { sieve.new.forms ≡ sieve.old.forms }
    ensures left { Keeps (option_map (shown sieve.old) (S.left source.old)) (option_map (shown sieve.new) (S.left source.new)) }
    ensures end { IfOk result (λ ended. ended ≡ true → waiting sieve.new ≡ [] →
        IsAtEnd (option_map (shown sieve.new) (S.left source.new))) }
    ensures taken { IfOk result (λ ended. ended ≡ false → (bytes : List ℕ) × Consumes (S.left source.old) (S.left source.new) bytes
        × (0 < length bytes)) }
    ensures count { S.faults source.old ≤ S.faults source.new }
    ensures cause { OnErr result (HasRisen (S.faults source.old) (S.faults source.new)) }
{
    sieve.clear();
    let mut piece = [0; PIECE];
    let count = source.read(&mut piece)?;
    if count == 0 {
        sieve.end();
        return Ok(true);
    }
    sieve.pour(&piece[..count]);
    Ok(false)
}

// Takes pieces of a source until some bytes are ready or it has ended.
fn fill<S: Source>(sieve: &mut Sieve, source: &mut S) -> Result<(), Failed>
    ensures forms { sieve.new.forms ≡ sieve.old.forms }
    ensures left { Keeps (option_map (shown sieve.old) (S.left source.old)) (option_map (shown sieve.new) (S.left source.new)) }
    ensures end { OnOk result (waiting sieve.new ≡ [] → IsAtEnd (option_map (shown sieve.new) (S.left source.new))) }
    ensures count { S.faults source.old ≤ S.faults source.new }
    ensures cause { OnErr result (HasRisen (S.faults source.old) (S.faults source.new) ⊎ TakesMost (S.left source.old) (S.left source.new)) }
{
    for _ in 0..u64::MAX {
        if !sieve.waiting().is_empty() {
            return Ok(());
        }
        if take_piece(sieve, source)? {
            return Ok(());
        }
    }
    Err(Failed)
}

// Gives the next bytes that are meant.
fn read_meant<S: Source>(sieve: &mut Sieve, source: &mut S, buf: &mut [u8]) -> Result<usize, Failed>
    ensures forms { sieve.new.forms ≡ sieve.old.forms }
    ensures bound { ReadsAtMost result buf.new }
    ensures bytes { ReadConsumes (option_map (shown sieve.old) (S.left source.old))
        (option_map (shown sieve.new) (S.left source.new)) result buf.new }
    ensures count { S.faults source.old ≤ S.faults source.new }
    ensures cause { OnErr result (HasRisen (S.faults source.old) (S.faults source.new) ⊎ TakesMost (S.left source.old) (S.left source.new)) }
{
    fill(sieve, source)?;
    Ok(sieve.give_into(buf))
}

/// A source of the bytes of another, without those that are left out.
///
/// It keeps what it has read and not yet given in 8,195 bytes held in place, and reads the other source where none is ready.
#[derive(Drop)]
pub struct Filtered<S: Source + Drop> {
    source: S,
    sieve: Sieve,
    faults: u64,
}

impl<S: Source + Drop> Filtered<S> {
    ghost use Rattle.line_filter.specs.Views.{faults_of, filtered_left, source_of};

    /// A source of what the other one has left, with no fault counted.
    pub fn new(forms: LineForms, source: S) -> Filtered<S>
        ensures left { filtered_left S.left result ≡ option_map (meant forms) (S.left source) }
        ensures source { source_of result ≡ source }
        ensures faults { faults_of result ≡ 0 }
    {
        Filtered {
            source,
            sieve: Sieve::new(forms),
            faults: 0,
        }
    }

    /// The other source.
    pub fn source(&self) -> &S
        ensures source { result.now ≡ source_of self.now }
    {
        &self.source
    }

    // Reads without a count of faults.
    fn read_once(&mut self, buf: &mut [u8]) -> Result<usize, Failed>
        ensures bound { ReadsAtMost result buf.new }
        ensures bytes { ReadConsumes (filtered_left S.left self.old) (filtered_left S.left self.new) result buf.new }
        ensures cause { OnErr result (HasRisen (S.faults (source_of self.old)) (S.faults (source_of self.new))
            ⊎ TakesMost (S.left (source_of self.old)) (S.left (source_of self.new))) }
        ensures faults { faults_of self.new ≡ faults_of self.old }
    {
        if self.sieve.forms.is_plain() {
            return self.source.read(buf);
        }
        read_meant(&mut self.sieve, &mut self.source, buf)
    }
}

impl<S: Source + Drop> Source for Filtered<S> {
    ghost use Rattle.line_filter.specs.Views.{faults_of, filtered_left, source_of};

    ghost left = { λ f. filtered_left S.left f };

    ghost faults = { λ f. faults_of f };

    fn read(&mut self, buf: &mut [u8]) -> Result<usize, Failed>
        ensures bound { ReadsAtMost result buf.new }
        ensures bytes { ReadConsumes (filtered_left S.left self.old) (filtered_left S.left self.new) result buf.new }
        ensures count { faults_of self.old ≤ faults_of self.new }
        ensures cause { OnErr result (HasRisen (faults_of self.old) (faults_of self.new)) }

        // The count rises by one in a call that fails, and only there.
        ensures faults { faults_of self.new ≡ (if is_err result then one_more (faults_of self.old) else faults_of self.old) }

        // It fails where the other source does, and else only after 2^64 - 1 bytes in one call that are left out.
        ensures source { OnErr result (HasRisen (S.faults (source_of self.old)) (S.faults (source_of self.new))
            ⊎ TakesMost (S.left (source_of self.old)) (S.left (source_of self.new))) }
    {
        match self.read_once(buf) {
            Ok(count) => Ok(count),
            Err(Failed) => {
                self.faults = self.faults.saturating_add(1);
                Err(Failed)
            }
        }
    }
}
