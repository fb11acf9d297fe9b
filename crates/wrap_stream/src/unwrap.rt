//! Unwrapping between a source and a sink.

ghost use Rattle.std.specs.Prelude.{◌≡◌, ◌≢◌, ◌≤◌, ◌^◌, ◌⊎◌, true, false};
ghost use Rattle.line_io.specs.Devices.{AppendsPrefix, WhereTold};
ghost use Rattle.pieces.specs.FaultCounts.{HasRisen};
ghost use Rattle.std.specs.Io.KnownBytes.{Appends};
ghost use Rattle.wrap_stream.specs.Outcomes.{UnwrapOutcome};
ghost use Rattle.wrap_stream.specs.Reading.{begins_block, end_bytes, is_complete};
ghost use Rattle.wrap_stream.specs.Turns.{state_of};

use crate::reader::{Reader, last_bytes, read_text};
use crate::status::{BAD_TEXT, DONE, OVER_MAX, READ_FAULT, WRITE_FAULT};
use line_io::{Failed, Sink, Source, write_all};

/// Writes the bytes whose encoding in lines of `width` characters the source holds, at most `max` bytes, and gives the
/// status.
pub(crate) fn unwrap_all<S: Source, K: Sink>(
    width: usize,
    source: &mut S,
    sink: &mut K,
    max: u64,
) -> u8
    requires width { 4 ≤ width }
    requires max { max ≤ 2 ^ 40 }
    ensures statuses { (result ≤ 7) × (result ≢ 1) × (result ≢ 2) × (result ≢ 5) }
    ensures read_fault { result ≡ 3 → HasRisen (S.faults source.old) (S.faults source.new) }
    ensures write_fault { result ≡ 4 → HasRisen (K.faults sink.old) (K.faults sink.new) }
    ensures outcome { WhereTold (S.left source.old) (S.left source.new) (K.written sink.old) (K.written sink.new)
        (λ held taken added. UnwrapOutcome width result max held taken added) }
{
    let mut input = [0; 16_384];
    let mut output = [0; 12_296];
    let mut reader = Reader::new(width);
    let mut taken = 0u64;
    'reads: loop {
        let count = match source.read(&mut input) {
            Ok(count) => count,
            Err(Failed) => return READ_FAULT,
        };
        if count == 0 {
            return end(&reader, sink);
        }
        let left = max - taken;
        if count as u64 > left {
            let (last, len) = read_text(reader, width, &input[..left as usize], &mut output);
            match write_all(sink, &output[..len]) {
                Ok(()) => {}
                Err(Failed) => return WRITE_FAULT,
            }
            return if last.is_stuck() { BAD_TEXT } else { OVER_MAX };
        }
        let (next, len) = read_text(reader, width, &input[..count], &mut output);
        reader = next;
        match write_all(sink, &output[..len]) {
            Ok(()) => {}
            Err(Failed) => return WRITE_FAULT,
        }
        if reader.is_stuck() {
            return BAD_TEXT;
        }
        taken += count as u64;
    }
}

// Writes the last bytes of the text that ends where `reader` stands, and gives the status.
fn end<K: Sink>(reader: &Reader, sink: &mut K) -> u8
    requires few { reader.now.count ≤ 4 }
    requires begins { begins_block (state_of reader.now).block ≡ true }
    ensures statuses { (result ≡ 0) ⊎ (result ≡ 4) ⊎ (result ≡ 7) }
    ensures done { result ≡ 0 → (is_complete (state_of reader.now).block ≡ true)
        × Appends (K.written sink.old) (K.written sink.new) (end_bytes (state_of reader.now)) }
    ensures cut { result ≡ 4 → (is_complete (state_of reader.now).block ≡ true)
        × AppendsPrefix (K.written sink.old) (K.written sink.new) (end_bytes (state_of reader.now)) }
    ensures cause { result ≡ 4 → HasRisen (K.faults sink.old) (K.faults sink.new) }
    ensures missing { result ≡ 7 → (is_complete (state_of reader.now).block ≡ false) × (sink.new ≡ sink.old) }
{
    let mut bytes = [0; 3];
    match last_bytes(reader, &mut bytes) {
        None => BAD_TEXT,
        Some(len) => match write_all(sink, &bytes[..len]) {
            Ok(()) => DONE,
            Err(Failed) => WRITE_FAULT,
        },
    }
}
