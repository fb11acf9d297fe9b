//! A file in memory, of which a crash may leave each write in part.

ghost use Rattle.std.specs.Prelude.{◌≡◌, ◌≤◌, ◌++◌, ◌∷◌, [], ℕ, List, length, true, OnErr, OnOk, IfOk};
ghost use Rattle.pieces.specs.FaultCounts.{HasRisen};
ghost use Rattle.line_log.specs.Device.{Holds};
ghost use Rattle.line_log.specs.declared.memory.Call.TheVariants.{CutTo, Replace, Sync, Write};

use crate::{Device, Failed};
use std::alloc::{AllocError, Global};

/// What was done to the file.
#[derive(Drop)]
enum Call {
    /// These bytes were written at a place.
    Write { at: usize, bytes: Vec<u8> },
    /// It was cut to a length.
    CutTo { len: usize },
    /// It was synced with these bytes.
    Sync { bytes: Vec<u8> },
    /// It was replaced by a file of these bytes, which was synced before or wasn't.
    Replace { bytes: Vec<u8>, is_synced: bool },
}

/// A file in memory.
///
/// It keeps all calls, so that what a crash at any moment might have left is known: of each write since the last sync any
/// bytes in its range, of a replacement that wasn't synced anything. Its calls are numbered from 0, and the one of a
/// number that is given fails, as does each for which memory is wanting.
#[derive(Drop)]
pub struct MemoryDevice {
    alloc: Global,
    start: Vec<u8>,
    calls: Vec<Call>,
    bytes: Vec<u8>,
    replacement: Vec<u8>,
    is_replacement_synced: bool,
    failing: u64,
    number: u64,
    faults: u64,
}

impl MemoryDevice {
    ghost use Rattle.line_log.specs.MemoryBytes.{device_bytes, device_number};

    /// A file with these bytes, all of them on the disk. Its call of the number `failing` will fail.
    pub fn new(alloc: Global, start: Vec<u8>, failing: u64) -> Result<MemoryDevice, AllocError>
        ensures bytes { IfOk result (λ device. device_bytes device ≡ start.items) }
        ensures leaves { IfOk result (λ device. ⟦<MemoryDevice as Device>⟧.may_leave device (⟦<MemoryDevice as Device>⟧.seen device)) }
    {
        Ok(MemoryDevice {
            alloc,
            bytes: start.to_vec(alloc)?,
            start,
            calls: Vec::new(alloc),
            replacement: Vec::new(alloc),
            is_replacement_synced: false,
            failing,
            number: 0,
            faults: 0,
        })
    }

    /// The bytes that a read gives.
    pub fn bytes(&self) -> &[u8]
        ensures bytes { result.now ≡ device_bytes self.now }
    {
        &self.bytes
    }

    /// How many calls there were, those that failed among them.
    pub fn number(&self) -> u64
        ensures number { result ≡ device_number self.now }
    {
        self.number
    }

    /// One of the files that a crash now may leave, of the calls since the last sync that didn't fail: `whole` of them
    /// are on the disk, and of the next one, where it is a write, `part` bytes, behind which its range has `filler`.
    pub fn outcome(
        &self,
        alloc: Global,
        whole: usize,
        part: usize,
        filler: Option<u8>,
    ) -> Result<Vec<u8>, AllocError> {
        let synced = synced_calls(&self.calls);
        let mut file = match synced.last() {
            Some(Call::Sync { bytes }) => bytes.to_vec(alloc)?,
            _ => self.start.to_vec(alloc)?,
        };
        let calls = &self.calls[synced.len()..];
        for call in &calls[..whole.min(calls.len())] {
            file = call.on(alloc, &file)?;
        }
        match calls.get(whole) {
            Some(Call::Write { at, bytes }) => torn(alloc, &file, *at, bytes, part, filler),
            _ => Ok(file),
        }
    }
}

// The calls up to the last sync.
fn synced_calls(calls: &[Call]) -> &[Call]
    ensures bound { length result.now ≤ length calls.now }
{
    let mut n = calls.len();
    while n > 0 {
        if matches!(calls[n - 1], Call::Sync { .. }) {
            break;
        }
        n -= 1;
    }
    &calls[..n]
}

impl Call {
    // The file after the call, where all of it is on the disk.
    fn on(&self, alloc: Global, file: &[u8]) -> Result<Vec<u8>, AllocError> {
        match self {
            Call::Write { at, bytes } => spliced(alloc, file, (*at).min(file.len()), bytes),
            Call::CutTo { len } => file[..(*len).min(file.len())].to_vec(alloc),
            Call::Sync { .. } => file.to_vec(alloc),
            Call::Replace { bytes, .. } => bytes.to_vec(alloc),
        }
    }
}

// The file after a write of which `part` bytes are on the disk, and in the rest of its range the filler, if there is one.
fn torn(
    alloc: Global,
    file: &[u8],
    at: usize,
    bytes: &[u8],
    part: usize,
    filler: Option<u8>,
) -> Result<Vec<u8>, AllocError> {
    let mut written = bytes[..part.min(bytes.len())].to_vec(alloc)?;
    if let Some(filler) = filler {
        written.resize(bytes.len(), filler)?;
    }
    spliced(alloc, file, at.min(file.len()), &written)
}

// The bytes with others written over them at a place.
fn spliced(alloc: Global, old: &[u8], at: usize, bytes: &[u8]) -> Result<Vec<u8>, AllocError>
    requires within { at ≤ length old.now }
    ensures holds { IfOk result (λ new. Holds old.now at bytes.now new.items) }
{
    let mut new = old[..at].to_vec(alloc)?;
    new.extend_from_slice(bytes)?;
    if bytes.len() < old.len() - at {
        new.extend_from_slice(&old[at + bytes.len()..])?;
    }
    Ok(new)
}

// Counts a call, and a fault where it is the one that is to fail.
fn fails(number: &mut u64, failing: u64, faults: &mut u64) -> bool
    ensures count { faults.old ≤ faults.new }
    ensures risen { result ≡ true → HasRisen faults.old faults.new }
{
    let here = *number;
    *number = here.saturating_add(1);
    if here == failing {
        *faults = faults.saturating_add(1);
        true
    } else {
        false
    }
}

// Counts a fault.
fn fault(faults: &mut u64) -> Failed
    ensures risen { HasRisen faults.old faults.new }
    ensures count { faults.old ≤ faults.new }
{
    *faults = faults.saturating_add(1);
    Failed
}

// Keeps a write among the calls.
fn note_write(
    alloc: Global,
    calls: &mut Vec<Call>,
    at: usize,
    bytes: &[u8],
) -> Result<(), AllocError>
    ensures call { OnOk result ((copy : _) × (copy.items ≡ bytes.now) × (calls.new.items ≡ calls.old.items ++ Write at copy ∷ [])) }
    ensures err { OnErr result (calls.new.items ≡ calls.old.items) }
{
    let bytes = bytes.to_vec(alloc)?;
    calls.push(Call::Write { at, bytes })?;
    Ok(())
}

// Keeps a cut among the calls.
fn note_cut(calls: &mut Vec<Call>, len: usize) -> Result<(), AllocError>
    ensures call { OnOk result (calls.new.items ≡ calls.old.items ++ CutTo len ∷ []) }
    ensures err { OnErr result (calls.new.items ≡ calls.old.items) }
{
    calls.push(Call::CutTo { len })?;
    Ok(())
}

// Keeps a sync among the calls.
fn note_sync(alloc: Global, calls: &mut Vec<Call>, bytes: &[u8]) -> Result<(), AllocError>
    ensures call { OnOk result ((copy : _) × (copy.items ≡ bytes.now) × (calls.new.items ≡ calls.old.items ++ Sync copy ∷ [])) }
    ensures err { OnErr result (calls.new.items ≡ calls.old.items) }
{
    let bytes = bytes.to_vec(alloc)?;
    calls.push(Call::Sync { bytes })?;
    Ok(())
}

// Keeps a replacement among the calls.
fn note_replace(
    alloc: Global,
    calls: &mut Vec<Call>,
    bytes: &[u8],
    is_synced: bool,
) -> Result<(), AllocError>
    ensures call { OnOk result ((copy : _) × (copy.items ≡ bytes.now) × (calls.new.items ≡ calls.old.items ++ Replace copy is_synced ∷ [])) }
    ensures err { OnErr result (calls.new.items ≡ calls.old.items) }
{
    let bytes = bytes.to_vec(alloc)?;
    calls.push(Call::Replace { bytes, is_synced })?;
    Ok(())
}

impl Device for MemoryDevice {
    ghost use Rattle.line_log.specs.Memory.{After, MayHold, Since, Start, after_counts, only_after};

    ghost seen = { λ m. m.bytes.items };

    ghost may_leave = { λ m c. After (Start m) m.calls.items c };

    ghost moment = { λ m. length m.calls.items };

    ghost left_since = { λ m t c. Since (Start m) m.calls.items t c };

    ghost faults = { λ m. m.faults };

    ghost replacement = { λ m. m.replacement.items };

    ghost replacement_may_hold = { λ m c. MayHold m.is_replacement_synced m.replacement.items c };

    ghost counts_now = { λ m t c le now. after_counts (Start m) m.calls.items t c le now };

    ghost only_now = { λ m c since. only_after (Start m) m.calls.items c since };

    // One that fails may have written some of the bytes.
    fn write_at(&mut self, at: usize, bytes: &[u8]) -> Result<(), Failed> {
        let failed = fails(&mut self.number, self.failing, &mut self.faults);
        let Ok(next) = spliced(self.alloc, &self.bytes, at, bytes) else {
            return Err(fault(&mut self.faults));
        };
        match note_write(self.alloc, &mut self.calls, at, bytes) {
            Ok(()) => {}
            Err(_) => return Err(fault(&mut self.faults)),
        }
        if failed {
            return Err(Failed);
        }
        self.bytes = next;
        Ok(())
    }

    fn cut(&mut self, len: usize) -> Result<(), Failed> {
        let failed = fails(&mut self.number, self.failing, &mut self.faults);
        match note_cut(&mut self.calls, len) {
            Ok(()) => {}
            Err(_) => return Err(fault(&mut self.faults)),
        }
        if failed {
            return Err(Failed);
        }
        self.bytes.truncate(len);
        Ok(())
    }

    fn sync(&mut self) -> Result<(), Failed> {
        if fails(&mut self.number, self.failing, &mut self.faults) {
            return Err(Failed);
        }
        match note_sync(self.alloc, &mut self.calls, &self.bytes) {
            Ok(()) => Ok(()),
            Err(_) => Err(fault(&mut self.faults)),
        }
    }

    fn begin_replacement(&mut self) -> Result<(), Failed> {
        if fails(&mut self.number, self.failing, &mut self.faults) {
            return Err(Failed);
        }
        self.is_replacement_synced = false;
        self.replacement.clear();
        Ok(())
    }

    fn append_replacement(&mut self, bytes: &[u8]) -> Result<(), Failed> {
        if fails(&mut self.number, self.failing, &mut self.faults) {
            return Err(Failed);
        }
        self.is_replacement_synced = false;
        match self.replacement.extend_from_slice(bytes) {
            Ok(()) => Ok(()),
            Err(_) => Err(fault(&mut self.faults)),
        }
    }

    fn sync_replacement(&mut self) -> Result<(), Failed> {
        if fails(&mut self.number, self.failing, &mut self.faults) {
            return Err(Failed);
        }
        self.is_replacement_synced = true;
        Ok(())
    }

    // One that fails may have put it there.
    fn replace(&mut self) -> Result<(), Failed> {
        let failed = fails(&mut self.number, self.failing, &mut self.faults);
        let Ok(next) = self.replacement.to_vec(self.alloc) else {
            return Err(fault(&mut self.faults));
        };
        match note_replace(
            self.alloc,
            &mut self.calls,
            &self.replacement,
            self.is_replacement_synced,
        ) {
            Ok(()) => {}
            Err(_) => return Err(fault(&mut self.faults)),
        }
        if failed {
            return Err(Failed);
        }
        self.bytes = next;
        Ok(())
    }
}
