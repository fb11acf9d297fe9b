//! Files in memory, their stores, and what crashes leave of them.

ghost use Rattle.std.specs.Prelude.{◌≡◌, true, IfOk, IfSome};
ghost use Rattle.line_log.specs.MemoryBytes.{device_bytes};
ghost use Rattle.pw_file.specs.StoredTexts.{stored_texts};
ghost use Rattle.pw_store.specs.Stored.{IsSound, takes_changes};

use line_log::{Device, MemoryDevice, OpenError};
use pw_file::{FileError, StoredTexts, UserName};
use pw_store::{Store, StoreError, recover};
use scrypt_plain::ScryptKept;
use std::alloc::Global;
use stored_check::{McfFault, StoredError};

pub type TestStore = Store<MemoryDevice, StoredTexts>;

pub type CheckFault = FileError<McfFault, StoredError>;

pub type Fault = StoreError<McfFault, StoredError>;

pub const EMPTY: &[u8] = b"#pwstore 1\n#";

pub const ONE: &[u8] = b"#pwstore 1\nset\tann\t$5\n#";

pub const TWO: &[u8] = b"#pwstore 1\nset\tann\t$5\nset\tbob\t$1$a$b\n#";

/// Of two users, one of which was changed.
pub const CHANGED: &[u8] = b"#pwstore 1\nset\tann\t$5\nset\tbob\t$1$a$b\nset\tann\t$6\n#";

/// The number of a call that never comes.
pub const NONE_FAILS: u64 = 1_000_000;

// The bytes in which a torn write is filled up behind what is there: none, the gate, the closed byte.
const FILLERS: [Option<u8>; 3] = [None, Some(b's'), Some(b'#')];

// The store of a device, whose bytes these are.
fn opened<D: Device + Drop>(
    alloc: Global,
    device: D,
    bytes: &[u8],
) -> Result<Store<D, StoredTexts>, OpenError>
    requires bytes { bytes.now ≡ D.seen device }
    ensures takes { IfOk result (λ store. takes_changes store ≡ true) }
    ensures sound { IfOk result (λ store. IsSound stored_texts D.seen D.may_leave store) }
{
    let mut device = device;
    match recover(alloc, ScryptKept::new(alloc), &mut device, bytes) {
        Ok((table, end)) => Ok(Store::new(alloc, device, table, end)),
        Err(e) => Err(e),
    }
}

/// A file in memory, whose call of the number `failing` fails, and its bytes.
pub fn memory(alloc: Global, file: &[u8], failing: u64) -> Option<(MemoryDevice, Vec<u8>)>
    ensures bytes { IfSome result (λ made. made.1.items ≡ device_bytes made.0) }
{
    let device = MemoryDevice::new(alloc, file.to_vec(alloc).ok()?, failing).ok()?;
    let bytes = device.bytes().to_vec(alloc).ok()?;
    Some((device, bytes))
}

/// The store of a file in memory. The call of recovery has the number 0.
pub fn store_of(alloc: Global, file: &[u8], failing: u64) -> Option<TestStore>
    ensures takes { IfSome result (λ store. takes_changes store ≡ true) }
    ensures sound { IfSome result (λ store. IsSound stored_texts ⟦<MemoryDevice as Device>⟧.seen ⟦<MemoryDevice as Device>⟧.may_leave store) }
{
    let (device, bytes) = memory(alloc, file, failing)?;
    opened(alloc, device, &bytes).ok()
}

/// A user of a name.
pub fn user(name: &str) -> Option<UserName<StoredTexts>> {
    UserName::new(name)
}

/// What recovery makes of a file.
pub fn recovered(alloc: Global, file: &[u8]) -> Result<Vec<u8>, OpenError> {
    let Some((device, bytes)) = memory(alloc, file, NONE_FAILS) else {
        return Err(OpenError::OutOfMemory);
    };
    let store = opened(alloc, device, &bytes)?;
    match store.device().bytes().to_vec(alloc) {
        Ok(bytes) => Ok(bytes),
        Err(_) => Err(OpenError::OutOfMemory),
    }
}

/// Whether recovery makes a file into this one.
pub fn becomes(alloc: Global, file: &[u8], wanted: &[u8]) -> bool {
    match recovered(alloc, file) {
        Ok(file) => file.as_slice() == wanted,
        Err(_) => false,
    }
}

// 0 where recovery makes a file that a crash may leave into the first, 1 into the second, 2 for any other.
fn outcome_of(
    alloc: Global,
    device: &MemoryDevice,
    at: (usize, usize, Option<u8>),
    before: &[u8],
    after: &[u8],
) -> usize {
    let Ok(file) = device.outcome(alloc, at.0, at.1, at.2) else {
        return 2;
    };
    match recovered(alloc, &file) {
        Ok(file) if file.as_slice() == before => 0,
        Ok(file) if file.as_slice() == after => 1,
        _ => 2,
    }
}

/// How many of the 84 files that a crash now may leave recovery makes into each of two, and how many into neither.
pub fn count_outcomes(
    alloc: Global,
    device: &MemoryDevice,
    before: &[u8],
    after: &[u8],
) -> (u64, u64, u64) {
    let mut counts = [0u64; 3];
    for whole in 0..4 {
        for part in [0, 1, 2, 10, 11, 12, 30] {
            for filler in FILLERS {
                let kind = outcome_of(alloc, device, (whole, part, filler), before, after);
                if let Some(count) = counts.get_mut(kind) {
                    *count = count.saturating_add(1);
                }
            }
        }
    }
    (counts[0], counts[1], counts[2])
}
