//! A source of lines in the places of others.

ghost use Rattle.std.specs.Prelude.{◌≡◌, ◌⊎◌, ◌≤◌, ◌<◌, ◌^◌, [], List, ℕ, false, is_err, length, true, IfOk, OnErr, OnOk, if◌then◌else◌};
ghost use Rattle.std.specs.Option.{option_map};
ghost use Rattle.std.specs.Io.{ReadsAtMost};
ghost use Rattle.std.specs.Io.KnownBytes.{Consumes, IsAtEnd, Keeps, ReadConsumes};
ghost use Rattle.pieces.specs.FaultCounts.{HasRisen, one_more};
ghost use Rattle.line_filter.specs.Mapped.{mapped_text};
ghost use Rattle.line_filter.specs.MappedSteps.{mapped_shown, pending_of, waiting_of};
ghost use Rattle.line_filter.specs.Steps.{TakesMost};

use crate::mapping::{LineRule, Mapping, PIECE};
use line_io::{Failed, Source};

// Takes a piece of a source, and answers whether it has ended.
fn take_piece<R: LineRule, S: Source>(
    rule: &R,
    mapping: &mut Mapping,
    source: &mut S,
) -> Result<bool, Failed>
    requires given { waiting_of mapping.old ≡ [] }
    requires none { pending_of mapping.old ≡ [] }
    ensures left { Keeps (option_map (mapped_shown (R.rule rule.now) mapping.old) (S.left source.old))
        (option_map (mapped_shown (R.rule rule.now) mapping.new) (S.left source.new)) }
    ensures all { OnOk result (waiting_of mapping.new ≡ [] → pending_of mapping.new ≡ []) }
    ensures end { IfOk result (λ ended. ended ≡ true → waiting_of mapping.new ≡ [] →
        IsAtEnd (option_map (mapped_shown (R.rule rule.now) mapping.new) (S.left source.new))) }
    ensures taken { IfOk result (λ ended. ended ≡ false → (bytes : List ℕ) × Consumes (S.left source.old) (S.left source.new) bytes
        × (0 < length bytes)) }
    ensures count { S.faults source.old ≤ S.faults source.new }
    ensures cause { OnErr result (HasRisen (S.faults source.old) (S.faults source.new)) }
{
    let mut piece = [0; PIECE];
    let count = source.read(&mut piece)?;
    if count == 0 {
        mapping.end(rule);
        return Ok(true);
    }
    mapping.take(rule, &piece[..count]);
    Ok(false)
}

// Takes pieces of a source until some bytes are ready or it has ended.
fn fill_mapped<R: LineRule, S: Source>(
    rule: &R,
    mapping: &mut Mapping,
    source: &mut S,
) -> Result<(), Failed>
    requires given { waiting_of mapping.old ≡ [] → pending_of mapping.old ≡ [] }
    ensures left { Keeps (option_map (mapped_shown (R.rule rule.now) mapping.old) (S.left source.old))
        (option_map (mapped_shown (R.rule rule.now) mapping.new) (S.left source.new)) }
    ensures end { OnOk result (waiting_of mapping.new ≡ [] →
        IsAtEnd (option_map (mapped_shown (R.rule rule.now) mapping.new) (S.left source.new))) }
    ensures count { S.faults source.old ≤ S.faults source.new }
    ensures cause { OnErr result (HasRisen (S.faults source.old) (S.faults source.new) ⊎ TakesMost (S.left source.old) (S.left source.new)) }
{
    for _ in 0..u64::MAX {
        if !mapping.is_given() {
            return Ok(());
        }
        if take_piece(rule, mapping, source)? {
            return Ok(());
        }
    }
    Err(Failed)
}

// Takes what was read and pieces of a source until some bytes are ready or it has ended.
fn prepare<R: LineRule, S: Source>(
    rule: &R,
    mapping: &mut Mapping,
    source: &mut S,
) -> Result<(), Failed>
    ensures left { Keeps (option_map (mapped_shown (R.rule rule.now) mapping.old) (S.left source.old))
        (option_map (mapped_shown (R.rule rule.now) mapping.new) (S.left source.new)) }
    ensures end { OnOk result (waiting_of mapping.new ≡ [] →
        IsAtEnd (option_map (mapped_shown (R.rule rule.now) mapping.new) (S.left source.new))) }
    ensures count { S.faults source.old ≤ S.faults source.new }
    ensures cause { OnErr result (HasRisen (S.faults source.old) (S.faults source.new) ⊎ TakesMost (S.left source.old) (S.left source.new)) }
{
    if !mapping.is_given() {
        return Ok(());
    }
    mapping.refill(rule);
    fill_mapped(rule, mapping, source)
}

// Gives the next bytes of the lines.
fn read_mapped<R: LineRule, S: Source>(
    rule: &R,
    mapping: &mut Mapping,
    source: &mut S,
    buf: &mut [u8],
) -> Result<usize, Failed>
    ensures bound { ReadsAtMost result buf.new }
    ensures bytes { ReadConsumes (option_map (mapped_shown (R.rule rule.now) mapping.old) (S.left source.old))
        (option_map (mapped_shown (R.rule rule.now) mapping.new) (S.left source.new)) result buf.new }
    ensures count { S.faults source.old ≤ S.faults source.new }
    ensures cause { OnErr result (HasRisen (S.faults source.old) (S.faults source.new) ⊎ TakesMost (S.left source.old) (S.left source.new)) }
{
    prepare(rule, mapping, source)?;
    Ok(mapping.give_into(buf))
}

/// A source of the lines that a rule puts in the places of those of another source. A line of more than 8,192 bytes gives an empty one.
///
/// What was read and not yet given is kept in some 50,000 bytes held in place. Lines that one read of the other source gives are
/// given together, as far as they have room.
#[derive(Drop)]
pub struct MappedLines<R: LineRule + Drop, S: Source + Drop> {
    rule: R,
    source: S,
    mapping: Mapping,
    faults: u64,
}

impl<R: LineRule + Drop, S: Source + Drop> MappedLines<R, S> {
    ghost use Rattle.line_filter.specs.MappedSteps.{mapped_faults, mapped_left, mapped_source};

    /// A source of the lines in the places of those that the other one has left, with no fault counted.
    pub fn new(rule: R, source: S) -> MappedLines<R, S>
        ensures left { mapped_left R.rule S.left result ≡ option_map (mapped_text (R.rule rule)) (S.left source) }
        ensures source { mapped_source result ≡ source }
        ensures faults { mapped_faults result ≡ 0 }
    {
        MappedLines {
            rule,
            source,
            mapping: Mapping::new(),
            faults: 0,
        }
    }

    /// The other source.
    pub fn source(&self) -> &S
        ensures source { result.now ≡ mapped_source self.now }
    {
        &self.source
    }
}

impl<R: LineRule + Drop, S: Source + Drop> Source for MappedLines<R, S> {
    ghost use Rattle.line_filter.specs.MappedSteps.{mapped_faults, mapped_left, mapped_source};

    ghost left = { λ l. mapped_left R.rule S.left l };

    ghost faults = { λ l. mapped_faults l };

    fn read(&mut self, buf: &mut [u8]) -> Result<usize, Failed>
        ensures bound { ReadsAtMost result buf.new }
        ensures bytes { ReadConsumes (mapped_left R.rule S.left self.old) (mapped_left R.rule S.left self.new) result buf.new }
        ensures count { mapped_faults self.old ≤ mapped_faults self.new }
        ensures cause { OnErr result (HasRisen (mapped_faults self.old) (mapped_faults self.new)) }

        // The count rises by one in a call that fails, and only there.
        ensures faults { mapped_faults self.new ≡ (if is_err result then one_more (mapped_faults self.old) else mapped_faults self.old) }

        // It fails where the other source does, and else only after 2^64 - 1 bytes in one call that give no line.
        ensures source { OnErr result (HasRisen (S.faults (mapped_source self.old)) (S.faults (mapped_source self.new))
            ⊎ TakesMost (S.left (mapped_source self.old)) (S.left (mapped_source self.new))) }
    {
        match read_mapped(&self.rule, &mut self.mapping, &mut self.source, buf) {
            Ok(count) => Ok(count),
            Err(Failed) => {
                self.faults = self.faults.saturating_add(1);
                Err(Failed)
            }
        }
    }
}
