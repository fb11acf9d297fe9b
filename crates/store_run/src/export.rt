//! The table as lines of a shadow or htpasswd file.

ghost use Rattle.std.specs.Prelude.{◌≡◌, ◌⊎◌, ℕ, List, [], None, Some, slice_get};
ghost use Rattle.std.specs.Io.KnownBytes.{Appends};
ghost use Rattle.line_io.specs.Devices.{AppendsPrefix};
ghost use Rattle.line_io.specs.Output.{Puts};
ghost use Rattle.pieces.specs.FaultCounts.{HasRisen};
ghost use Rattle.pw_store.specs.Stored.{rows_of};
ghost use Rattle.store_run.specs.Export.{export_line, export_text};

use line_io::{OutputBuffer, Sink};
use line_log::Device;
use line_program::status::{ALL_GOOD, WRITE_FAULT};
use pw_file::UserName;
use pw_store::Store;
use shadow_table::{AnyTexts, TableRuled};

// Puts the line of a user.
fn put_line<T: TableRuled, K: Sink>(
    user: &UserName<AnyTexts<T>>,
    text: &str,
    out: &mut OutputBuffer,
    sink: &mut K,
)
    ensures puts { Puts (K.written sink.old) (K.written sink.new) (K.faults sink.old) (K.faults sink.new) out.old out.new
        (export_line (user.now, text.now)) }
{
    out.put(sink, user.as_bytes());
    out.put(sink, b":");
    out.put_line(sink, text.as_bytes());
}

// Puts the line of the user at a place, where there is one.
fn put_row<T: TableRuled, D: Device, K: Sink>(
    store: &Store<D, AnyTexts<T>>,
    i: usize,
    out: &mut OutputBuffer,
    sink: &mut K,
)
    ensures some { (row : List ℕ × List ℕ) → slice_get (rows_of store.now) i ≡ Some row
        → Puts (K.written sink.old) (K.written sink.new) (K.faults sink.old) (K.faults sink.new) out.old out.new (export_line row) }
{
    match store.row(i) {
        Some((user, text)) => put_line(&user, text, out, sink),
        None => {}
    }
}

// Puts the line of each user.
fn put_lines<T: TableRuled, D: Device, K: Sink>(
    store: &Store<D, AnyTexts<T>>,
    out: &mut OutputBuffer,
    sink: &mut K,
)
    ensures puts { Puts (K.written sink.old) (K.written sink.new) (K.faults sink.old) (K.faults sink.new) out.old out.new
        (export_text (rows_of store.now)) }
{
    for i in 0..store.len() {
        put_row(store, i, out, sink);
    }
}

/// Writes each user with its text, as a line of a shadow or htpasswd file, in the order of `list`, and gives the status: 0; or 4
/// where a write failed, and the beginning of the lines was written.
pub fn export_users<T: TableRuled, D: Device, K: Sink>(
    store: &Store<D, AnyTexts<T>>,
    sink: &mut K,
) -> u8
    ensures statuses { (result ≡ 0) ⊎ (result ≡ 4) }
    ensures all { result ≡ 0 → Appends (K.written sink.old) (K.written sink.new) (export_text (rows_of store.now)) }
    ensures beginning { AppendsPrefix (K.written sink.old) (K.written sink.new) (export_text (rows_of store.now)) }
    ensures write_fault { result ≡ 4 → HasRisen (K.faults sink.old) (K.faults sink.new) }
{
    let mut out = OutputBuffer::new();
    put_lines(store, &mut out, sink);
    out.flush(sink);
    if out.has_failed() {
        return WRITE_FAULT;
    }
    ALL_GOOD
}
