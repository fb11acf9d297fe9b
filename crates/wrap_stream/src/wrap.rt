//! Wrapping between a source and a sink.

ghost use Rattle.std.specs.Prelude.{◌≡◌, ◌≢◌, ◌<◌, ◌≤◌, ◌+◌, ◌-◌, ◌*◌, ◌^◌, [], ◌∷◌, drop, length, take, IfOk, MatchResult, OnErr};
ghost use Rattle.std.specs.Io.KnownBytes.{Consumes, IsAtEnd, Keeps};
ghost use Rattle.base64ct.specs.Alphabets.{base64};
ghost use Rattle.base64ct.specs.Encoding.{encoding, EachBelow};
ghost use Rattle.line_io.specs.Devices.{WhereTold};
ghost use Rattle.pieces.specs.FaultCounts.{HasRisen};
ghost use Rattle.wrap_stream.specs.Outcomes.{WrapOutcome};
ghost use Rattle.base64ct.specs.Encoders.{room_after, wrap_from};

use crate::lines::put_lines;
use crate::status::{DONE, OVER_MAX, READ_FAULT, WRITE_FAULT};
use base64ct::{Base64, Encoding};
use line_io::{Failed, Sink, Source, write_all};

// Reads behind the first `start` bytes of `buf`.
fn read_behind<S: Source>(source: &mut S, buf: &mut [u8], start: usize) -> Result<usize, Failed>
    requires { start < length buf.old }
    ensures small { EachBelow 256 buf.new }
    ensures kept { take start buf.new ≡ take start buf.old }
    ensures bound { IfOk result (λ n. start + n ≤ length buf.new) }
    ensures bytes { MatchResult result (λ n. Consumes (S.left source.old) (S.left source.new) (take n (drop start buf.new))
        × (n ≡ 0 → IsAtEnd (S.left source.new))) (λ _. Keeps (S.left source.old) (S.left source.new)) }
    ensures count { S.faults source.old ≤ S.faults source.new }
    ensures cause { OnErr result (HasRisen (S.faults source.old) (S.faults source.new)) }
{
    source.read(&mut buf[start..])
}

// Writes the encoding of `input` at the front of `out` in lines, where the first line takes `room` characters. It tells
// how many bytes these are, and how many more characters the last line takes.
fn put_encoding(
    input: &[u8],
    chars: &mut [u8],
    out: &mut [u8],
    width: usize,
    room: usize,
) -> (usize, usize)
    requires width { 4 ≤ width }
    requires line { room ≤ width }
    requires small { length input.now ≤ 65536 }
    requires chars { 4 * length input.now + 8 ≤ 3 * length chars.old }
    requires fits { 5 * length chars.old + 4 ≤ 4 * length out.old }
    ensures within { result.0 ≤ length out.new }
    ensures put { take result.0 out.new ≡ wrap_from width (10 ∷ []) room (encoding base64 input.now) }
    ensures line { (result.1 ≡ room_after width room (length (encoding base64 input.now))) × (result.1 ≤ width) }
{
    match Base64::encode_into(input, chars) {
        Ok(n) => put_lines(&chars[..n], out, width, room),
        Err(_) => (0, room),
    }
}

// Moves the bytes from `whole` up to `total`, at most two, to the front of `buf`, and tells how many they are.
fn keep_rest(buf: &mut [u8], whole: usize, total: usize) -> usize
    requires order { whole ≤ total }
    requires few { total ≤ whole + 2 }
    requires within { total ≤ length buf.old }
    ensures rest { take result buf.new ≡ drop whole (take total buf.old) }
    ensures count { result ≡ total - whole }
{
    let rest = total - whole;
    if rest == 0 {
        return 0;
    }
    let first = buf[whole];
    if rest == 1 {
        buf[0] = first;
        return 1;
    }
    let second = buf[whole + 1];
    buf[0] = first;
    buf[1] = second;
    2
}

/// Writes the encoding of what the source holds, at most `max` bytes, in lines of `width` characters, and gives the status.
pub(crate) fn wrap_all<S: Source, K: Sink>(
    width: usize,
    source: &mut S,
    sink: &mut K,
    max: u64,
) -> u8
    requires width { 4 ≤ width }
    requires max { max ≤ 2 ^ 40 }
    ensures statuses { (result ≤ 6) × (result ≢ 1) × (result ≢ 2) × (result ≢ 5) }
    ensures read_fault { result ≡ 3 → HasRisen (S.faults source.old) (S.faults source.new) }
    ensures write_fault { result ≡ 4 → HasRisen (K.faults sink.old) (K.faults sink.new) }
    ensures outcome { WhereTold (S.left source.old) (S.left source.new) (K.written sink.old) (K.written sink.new)
        (λ held taken added. WrapOutcome width result max held taken added) }
{
    let mut input = [0; 12_288];
    let mut chars = [0; 16_392];
    let mut output = [0; 20_496];
    let mut waiting = 0;
    let mut room = width;
    let mut taken = 0u64;
    'reads: loop {
        let count = match read_behind(source, &mut input, waiting) {
            Ok(count) => count,
            Err(Failed) => return READ_FAULT,
        };
        if count == 0 {
            let (len, _) = put_encoding(&input[..waiting], &mut chars, &mut output, width, room);
            return match write_all(sink, &output[..len]) {
                Ok(()) => DONE,
                Err(Failed) => WRITE_FAULT,
            };
        }
        let left = max - taken;
        if count as u64 > left {
            let whole = (waiting + left as usize) / 3 * 3;
            let (len, _) = put_encoding(&input[..whole], &mut chars, &mut output, width, room);
            return match write_all(sink, &output[..len]) {
                Ok(()) => OVER_MAX,
                Err(Failed) => WRITE_FAULT,
            };
        }
        let total = waiting + count;
        let whole = total / 3 * 3;
        let (len, more) = put_encoding(&input[..whole], &mut chars, &mut output, width, room);
        match write_all(sink, &output[..len]) {
            Ok(()) => {}
            Err(Failed) => return WRITE_FAULT,
        }
        waiting = keep_rest(&mut input, whole, total);
        room = more;
        taken += count as u64;
    }
}
