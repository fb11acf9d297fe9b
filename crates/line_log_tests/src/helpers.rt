//! What takes lines, files in memory, and what recovery makes of what a crash leaves.

ghost use Rattle.std.specs.Prelude.{◌+◌, ◌≡◌, ℕ, List, length, nat_lt, IfSome};
ghost use Rattle.line_log.specs.Log.{IsSettled};
ghost use Rattle.line_log.specs.MemoryBytes.{device_bytes};

use line_log::{Device, LineLog, MemoryDevice, OpenError, Taker, is_group, recover};
use std::alloc::{AllocError, Global};

/// Counts lines, takes at most so many, and keeps the length of the last one.
#[derive(Drop)]
pub struct Tally {
    pub count: u64,
    pub most: u64,
    pub last: usize,
}

/// No line yet.
pub fn tally_of(most: u64) -> Tally {
    Tally {
        count: 0,
        most,
        last: 0,
    }
}

impl Taker for Tally {
    ghost takes = { λ s line. nat_lt s.count s.most };

    ghost after = { λ s line. record { count = s.count + 1; most = s.most; last = length line } };

    fn take(&mut self, line: &[u8]) -> Result<bool, AllocError> {
        if self.count >= self.most {
            return Ok(false);
        }
        self.count += 1;
        self.last = line.len();
        Ok(true)
    }
}

pub const ONE: &[u8] = b"#pwstore 1\nset\tann\t$5\n#";

pub const THREE: &[u8] = b"#pwstore 1\nset\tann\t$5\nset\tbob\t$1$a$b\nset\tann\t$6\n#";

pub const GROUP: &[u8] = b"set\tbob\t$1$a$b\nset\tann\t$6\n";

/// The number of a call that never comes.
pub const NONE_FAILS: u64 = 1_000_000;

// The bytes in which a torn write is filled up behind what is there: none, the gate, the closed byte.
const FILLERS: [Option<u8>; 3] = [None, Some(b's'), Some(b'#')];

/// A file in memory, whose call of the number `failing` fails.
pub fn memory(alloc: Global, file: &[u8], failing: u64) -> Option<MemoryDevice>
    ensures bytes { IfSome result (λ device. device_bytes device ≡ file.now) }
{
    MemoryDevice::new(alloc, file.to_vec(alloc).ok()?, failing).ok()
}

/// A log of the file `ONE`. The call of recovery has the number 0.
pub fn log_of(alloc: Global, failing: u64) -> Option<LineLog<MemoryDevice>>
    ensures settled { IfSome result (λ log. IsSettled ⟦<MemoryDevice as Device>⟧.seen ⟦<MemoryDevice as Device>⟧.may_leave log) }
{
    let mut device = memory(alloc, ONE, failing)?;
    let end = recover(&mut device, ONE, &mut tally_of(100)).ok()?;
    Some(LineLog { device, end })
}

/// Adds a group, and tells whether it was added.
pub fn put(log: &mut LineLog<MemoryDevice>, group: &[u8]) -> bool
    requires settled { IsSettled ⟦<MemoryDevice as Device>⟧.seen ⟦<MemoryDevice as Device>⟧.may_leave log.old }
{
    is_group(group) && log.has_room(group.len()) && log.put(group).is_ok()
}

// What recovery makes of a file.
fn recovered(alloc: Global, file: &[u8]) -> Result<Vec<u8>, OpenError> {
    let Some(mut device) = memory(alloc, file, NONE_FAILS) else {
        return Err(OpenError::OutOfMemory);
    };
    recover(&mut device, file, &mut tally_of(100))?;
    match device.bytes().to_vec(alloc) {
        Ok(bytes) => Ok(bytes),
        Err(_) => Err(OpenError::OutOfMemory),
    }
}

/// Whether recovery makes a file into this one.
pub fn becomes(alloc: Global, file: &[u8], wanted: &[u8]) -> bool {
    match recovered(alloc, file) {
        Ok(file) => file.as_slice() == wanted,
        Err(_) => false,
    }
}

/// Whether recovery refuses a file for this.
pub fn is_refused(alloc: Global, file: &[u8], wanted: OpenError) -> bool {
    match recovered(alloc, file) {
        Ok(_) => false,
        Err(e) => e == wanted,
    }
}

// 0 where recovery makes a file that a crash may leave into the first, 1 into the second, 2 for any other.
fn outcome_of(
    alloc: Global,
    device: &MemoryDevice,
    at: (usize, usize, Option<u8>),
    before: &[u8],
    after: &[u8],
) -> usize {
    let Ok(file) = device.outcome(alloc, at.0, at.1, at.2) else {
        return 2;
    };
    match recovered(alloc, &file) {
        Ok(file) if file.as_slice() == before => 0,
        Ok(file) if file.as_slice() == after => 1,
        _ => 2,
    }
}

/// How many of the 120 files that a crash now may leave recovery makes into each of two, and how many into neither.
pub fn count_outcomes(
    alloc: Global,
    device: &MemoryDevice,
    before: &[u8],
    after: &[u8],
) -> (u64, u64, u64) {
    let mut counts = [0u64; 3];
    for whole in 0..4 {
        for part in [0, 1, 2, 13, 14, 15, 16, 24, 25, 26] {
            for filler in FILLERS {
                let kind = outcome_of(alloc, device, (whole, part, filler), before, after);
                if let Some(count) = counts.get_mut(kind) {
                    *count = count.saturating_add(1);
                }
            }
        }
    }
    (counts[0], counts[1], counts[2])
}
