//! Inputs wrapped and unwrapped.

ghost use Rattle.std.specs.Prelude.{◌≡◌, ◌≢◌, ◌≤◌, ◌<◌, ◌^◌, [], ◌∷◌, ℕ, List, length, min, IfOk, MatchResult};
ghost use Rattle.line_io.specs.Devices.{WhereTold};
ghost use Rattle.pieces.specs.FaultCounts.{HasRisen};
ghost use Rattle.base64ct.specs.Encoding.{encoding};
ghost use Rattle.base64ct.specs.Alphabets.{base64};
ghost use Rattle.base64ct.specs.Wrapping.{wrap};
ghost use Rattle.pwcheck_run.specs.Streams.{longest_kept, Wraps, Unwraps, KeptOutcome};

use crate::input::{Stop, read_all};
use base64ct::{Base64, DecodeVecError, Decoder, Encoder, Encoding, LineEnding};
use line_io::{Failed, Sink, Source, write_all};
use line_program::status::{ALL_GOOD, NO_MEMORY, OVER_MAX, READ_FAULT, WRITE_FAULT};
use std::alloc::{AllocError, Global};

/// The status where the input is no encoding in lines.
const NO_TEXT: u8 = 7;

/// The most bytes of an input that is kept whole.
const LONGEST_KEPT: u64 = 1_048_576;

// The status where an input isn't there whole.
fn stopped(stop: Stop) -> u8
    ensures failed { result ≡ 3 → stop ≡ Stop.Failed }
    ensures budget { result ≡ 6 → stop ≡ Stop.Budget }
    ensures statuses { (3 ≤ result) × (result ≤ 6) × (result ≢ 4) }
{
    match stop {
        Stop::Failed => READ_FAULT,
        Stop::Budget => OVER_MAX,
        Stop::NoMemory => NO_MEMORY,
    }
}

// A buffer for the encoding of `input`, which isn't empty, in lines of `width` characters.
fn room_for(alloc: Global, input: &[u8], width: usize) -> Result<Vec<u8>, AllocError>
    requires width { 4 ≤ width }
    requires some { 0 < length input.now }
    requires short { length input.now ≤ longest_kept }
    ensures room { IfOk result (λ text. length text.items ≡ length (wrap (encoding base64 input.now) width (10 ∷ []))) }
{
    let count = Base64::encoded_len(input);
    vec![in alloc; 0u8; count + (count - 1) / width]
}

// The encoding of `input`, which isn't empty, in lines of `width` characters, in a buffer that it fills.
fn wrapped<'o>(input: &[u8], text: &'o mut [u8], width: usize) -> &'o str
    requires width { 4 ≤ width }
    requires some { 0 < length input.now }
    requires room { length text.old ≡ length (wrap (encoding base64 input.now) width (10 ∷ [])) }
    ensures text { Wraps width input.now result.now }
{
    let mut encoder = match Encoder::<Base64>::new_wrapped(text, width, LineEnding::LF) {
        Ok(encoder) => encoder,
        Err(_) => unreachable!(),
    };
    match encoder.encode(input) {
        Ok(()) => match encoder.finish() {
            Ok(text) => text,
            Err(_) => unreachable!(),
        },
        Err(_) => unreachable!(),
    }
}

// The bytes whose encoding stands in `input` in lines of `width` characters.
fn unwrapped(alloc: Global, input: &[u8], width: usize) -> Result<Vec<u8>, DecodeVecError>
    requires width { 4 ≤ width }
    ensures { MatchResult result (λ bytes. Unwraps width input.now bytes.items)
        (λ e. e ≡ DecodeVecError.InvalidEncoding → (output : List ℕ) → Unwraps width input.now output → ⊥) }
{
    let mut bytes = Vec::new(alloc);
    if input.len() == 0 {
        return Ok(bytes);
    }
    let mut decoder = match Decoder::<Base64>::new_wrapped(input, width) {
        Ok(decoder) => decoder,
        Err(_) => return Err(DecodeVecError::InvalidEncoding),
    };
    match decoder.decode_rest(&mut bytes) {
        Ok(_) => Ok(bytes),
        Err(e) => Err(e),
    }
}

/// Writes the padded encoding of all that the source holds in lines of `width` characters, with a line feed
/// between two. Nothing is written before all is read.
pub fn wrap_input<S: Source, K: Sink>(
    alloc: Global,
    width: usize,
    source: &mut S,
    sink: &mut K,
    max: u64,
) -> u8
    requires width { 4 ≤ width }
    requires max { max ≤ 2 ^ 40 }
    ensures statuses { (result ≤ 6) × (result ≢ 1) × (result ≢ 2) }
    ensures read_fault { result ≡ 3 → HasRisen (S.faults source.old) (S.faults source.new) }
    ensures write_fault { result ≡ 4 → HasRisen (K.faults sink.old) (K.faults sink.new) }
    ensures outcome { WhereTold (S.left source.old) (S.left source.new) (K.written sink.old) (K.written sink.new)
        (λ held taken added. KeptOutcome (Wraps width) result (min max longest_kept) held taken added) }
{
    let input = match read_all(alloc, source, max.min(LONGEST_KEPT) as usize) {
        Ok(input) => input,
        Err(stop) => return stopped(stop),
    };
    if input.len() == 0 {
        return ALL_GOOD;
    }
    let mut text = match room_for(alloc, &input, width) {
        Ok(text) => text,
        Err(_) => return NO_MEMORY,
    };
    match write_all(sink, wrapped(&input, &mut text, width).as_bytes()) {
        Ok(()) => ALL_GOOD,
        Err(Failed) => WRITE_FAULT,
    }
}

/// Writes the bytes whose padded encoding the source holds in lines of `width` characters, with any line endings.
/// Nothing is written before all is read.
pub fn unwrap_input<S: Source, K: Sink>(
    alloc: Global,
    width: usize,
    source: &mut S,
    sink: &mut K,
    max: u64,
) -> u8
    requires width { 4 ≤ width }
    requires max { max ≤ 2 ^ 40 }
    ensures statuses { (result ≤ 7) × (result ≢ 1) × (result ≢ 2) }
    ensures read_fault { result ≡ 3 → HasRisen (S.faults source.old) (S.faults source.new) }
    ensures write_fault { result ≡ 4 → HasRisen (K.faults sink.old) (K.faults sink.new) }
    ensures outcome { WhereTold (S.left source.old) (S.left source.new) (K.written sink.old) (K.written sink.new)
        (λ held taken added. KeptOutcome (Unwraps width) result (min max longest_kept) held taken added) }
{
    let input = match read_all(alloc, source, max.min(LONGEST_KEPT) as usize) {
        Ok(input) => input,
        Err(stop) => return stopped(stop),
    };
    let bytes = match unwrapped(alloc, &input, width) {
        Ok(bytes) => bytes,
        Err(DecodeVecError::InvalidEncoding) => return NO_TEXT,
        Err(DecodeVecError::OutOfMemory) => return NO_MEMORY,
    };
    match write_all(sink, &bytes) {
        Ok(()) => ALL_GOOD,
        Err(Failed) => WRITE_FAULT,
    }
}
