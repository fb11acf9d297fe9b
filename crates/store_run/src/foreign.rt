//! The users of a file of another maker, set in a table.

ghost use Rattle.std.specs.Prelude.{◌≡◌, ◌≢◌, ◌≤◌, ◌^◌, ℕ, List, false, true, IfSome, OnSome};
ghost use Rattle.std.specs.Io.KnownBytes.{Appends};
ghost use Rattle.shadow_table.specs.AnyTexts.{any_texts};
ghost use Rattle.foreign_lines.specs.Converting.{converted_line};
ghost use Rattle.line_filter.specs.Mapped.{mapped_text};
ghost use Rattle.line_io.specs.Lines.{lines};
ghost use Rattle.line_log.specs.Device.{LeavesOnly};
ghost use Rattle.pieces.specs.FaultCounts.{HasRisen};
ghost use Rattle.pw_store.specs.Run.{IsLeftBy, StoreOutcome};
ghost use Rattle.pw_store.specs.Stored.{IsSound, device_of, rows_of, size_of, takes_changes};
ghost use Rattle.set_lines.specs.Sets.{set_text};

use crate::table::import_users;
use application_texts::Maker;
use foreign_lines::ConvertedTexts;
use line_filter::MappedLines;
use line_io::{Sink, Source};
use line_log::Device;
use pw_store::Store;
use shadow_table::{AnyTexts, TableRuled};

/// Sets the texts of the lines of users and texts of a maker that a source has, each converted, for its line's user, and gives the status:
/// that of [`import_users`] for the lines that [`ConvertedTexts`] gives. A line whose text isn't converted sets nothing.
pub fn import_foreign<T: TableRuled, D: Device, S: Source + Drop, K: Sink>(
    store: &mut Store<D, AnyTexts<T>>,
    foreign: Maker,
    source: S,
    sink: &mut K,
) -> u8
    requires open { takes_changes store.old ≡ true }
    requires sound { IsSound (any_texts T.rules) D.seen D.may_leave store.old }
    ensures statuses { (result ≤ 7) × (result ≢ 2) }
    ensures write_fault { result ≡ 4 → HasRisen (K.faults sink.old) (K.faults sink.new) }
    ensures disk_fault { takes_changes store.new ≡ false → HasRisen (D.faults (device_of store.old)) (D.faults (device_of store.new)) }
    ensures outcome { IfSome (S.left source) (λ held. OnSome (K.written sink.old) ((taken : List ℕ) × (added : List ℕ)
        × Appends (K.written sink.old) (K.written sink.new) added
        × StoreOutcome (any_texts T.rules) (rows_of store.old) (size_of store.old) (takes_changes store.new)
        (D.may_leave (device_of store.new)) result (2 ^ 40) (set_text (mapped_text (converted_line foreign) held)) taken added)) }
    ensures any_moment { IfSome (S.left source) (λ held. LeavesOnly D.moment D.left_since (device_of store.old) (device_of store.new)
        (IsLeftBy (any_texts T.rules) (rows_of store.old) (size_of store.old) (lines (set_text (mapped_text (converted_line foreign) held))))) }
{
    import_users(
        store,
        MappedLines::new(ConvertedTexts { foreign }, source),
        sink,
    )
}
