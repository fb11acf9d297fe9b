//! Files in memory and their stores.

ghost use Rattle.std.specs.Prelude.{◌≡◌, true, IfSome};
ghost use Rattle.shadow_table.specs.AnyTexts.{any_texts};
ghost use Rattle.shadow_table.specs.Plain.{plain_rules};
ghost use Rattle.line_log.specs.MemoryBytes.{device_bytes};
ghost use Rattle.pw_store.specs.Stored.{IsSound, takes_changes};

use line_log::{Device, MemoryDevice};
use pw_store::Store;
use shadow_table::{AnyTexts, PLAIN_RULES, TableRuled, TableRules};
use std::alloc::Global;
use std::marker::Brand;
use store_run::store_of;

pub const EMPTY: &[u8] = b"#pwstore 1\n#";

pub const ANN: &[u8] = b"#pwstore 1\nset\tann\t*\n#";

pub const TWO: &[u8] = b"#pwstore 1\nset\tann\t*\nset\tbob\t$5\n#";

pub const THREE: &[u8] = b"#pwstore 1\nset\tann\t*\nset\tbob\t$5\nset\tann\t!\n#";

/// The file `THREE`, made anew.
pub const ANEW: &[u8] = b"#pwstore 1\nset\tann\t!\nset\tbob\t$5\n#";

/// The file `TWO`, after `ann` was taken away.
pub const GONE: &[u8] = b"#pwstore 1\nset\tann\t*\nset\tbob\t$5\nset\tann\n#";

/// The number of a call that never comes: the sync of recovery is 0, and a group has three writes and two syncs.
pub const NONE_FAILS: u64 = 1_000;

/// A file in memory, whose call of the number `failing` fails, and its bytes.
pub fn memory(alloc: Global, file: &[u8], failing: u64) -> Option<(MemoryDevice, Vec<u8>)>
    ensures bytes { IfSome result (λ made. made.1.items ≡ device_bytes made.0) }
{
    let device = MemoryDevice::new(alloc, file.to_vec(alloc).ok()?, failing).ok()?;
    let bytes = device.bytes().to_vec(alloc).ok()?;
    Some((device, bytes))
}

/// The store of a file that is there, by these rules.
pub fn opened_by<T: TableRuled>(
    alloc: Global,
    rules: TableRules,
    file: &[u8],
    failing: u64,
) -> Option<Store<MemoryDevice, AnyTexts<T>>>
    requires rules { rules ≡ T.rules }
    ensures takes { IfSome result (λ store. takes_changes store ≡ true) }
    ensures sound { IfSome result (λ store. IsSound (any_texts T.rules) ⟦<MemoryDevice as Device>⟧.seen ⟦<MemoryDevice as Device>⟧.may_leave store) }
{
    let (device, bytes) = memory(alloc, file, failing)?;
    store_of(alloc, rules, device, bytes, true).ok()
}

/// The same by the rules where nothing else is said.
pub fn opened(
    alloc: Global,
    file: &[u8],
    failing: u64,
) -> Option<Store<MemoryDevice, AnyTexts<Brand>>>
    ensures takes { IfSome result (λ store. takes_changes store ≡ true) }
    ensures sound { IfSome result (λ store. IsSound (any_texts plain_rules) ⟦<MemoryDevice as Device>⟧.seen ⟦<MemoryDevice as Device>⟧.may_leave store) }
{
    opened_by::<Brand>(alloc, PLAIN_RULES, file, failing)
}

// Whether recovery makes a file into one of these.
fn becomes_one(alloc: Global, file: &[u8], wanted: [&[u8]; 2]) -> bool {
    match opened(alloc, file, NONE_FAILS) {
        Some(store) => {
            let found = store.device().bytes();
            found == wanted[0] || found == wanted[1]
        }
        None => false,
    }
}

/// Whether recovery makes each of the 84 files that a crash now may leave into one of two.
pub fn leaves_one(alloc: Global, device: &MemoryDevice, wanted: [&[u8]; 2]) -> bool {
    for whole in 0..4 {
        for part in [0, 1, 2, 7, 8, 9, 30] {
            for filler in [None, Some(b's'), Some(b'#')] {
                match device.outcome(alloc, whole, part, filler) {
                    Ok(file) if becomes_one(alloc, &file, wanted) => {}
                    _ => return false,
                }
            }
        }
    }
    true
}
