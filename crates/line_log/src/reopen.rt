//! Recovery into what takes the lines.

ghost use Rattle.std.specs.Prelude.{◌≡◌, ◌⊎◌, ◌<◌, ◌≤◌, ◌+◌, ◌^◌, ◌++◌, ◌∷◌, [], ℕ, Bool, List, None, Some, Err, length, drop, true, false, is_some, IfErr, IfOk, IfSome, OnErr, OnOk, IsErrOf};
ghost use Rattle.pieces.specs.FaultCounts.{HasRisen};
ghost use Rattle.line_log.specs.Device.{LeavesOnly, Only};
ghost use Rattle.line_log.specs.Log.{IsEnd, IsSettled, Stands, at_rest, header, is_end, joined, open_lines, recovered, written};
ghost use Rattle.line_log.specs.Taker.{after_all, file_fault, is_refusal, text_fault};

use crate::log::{HEADER, repair};
use crate::{Device, first_line, is_end};
use std::alloc::AllocError;

/// What takes the lines of a file, one by one.
pub trait Taker {
    /// Whether a line is taken.
    ghost takes: { Self → List ℕ → Bool };

    /// What is left after it.
    ghost after: { Self → List ℕ → Self };

    /// Takes a line, or says that it isn't taken.
    fn take(&mut self, line: &[u8]) -> Result<bool, AllocError>
        ensures taken { IfOk result (λ taken. taken ≡ takes self.old line.now) }
        ensures after { IfOk result (λ taken. taken ≡ true → self.new ≡ after self.old line.now) };
}

/// Why a file isn't opened.
#[derive(Clone, Copy, Debug, PartialEq, Eq)]
pub enum OpenError {
    /// The file doesn't begin with the header line.
    NoHeader,
    /// The line that begins at this byte of the file isn't taken.
    BadLine(usize),
    /// What stands behind the lines, from this byte of the file on, isn't what a run can have left.
    BadEnd(usize),
    /// The device failed.
    Failed,
    /// Memory is wanting.
    OutOfMemory,
}

// What stands behind the header line.
fn after_header(bytes: &[u8]) -> Option<&[u8]>
    ensures some { IfSome result (λ text. bytes.now ≡ header ++ text.now) }
    ensures none { result ≡ None → (text : List ℕ) → bytes.now ≡ header ++ text → ⊥ }
{
    match bytes {
        [35, 112, 119, 115, 116, 111, 114, 101, 32, 49, 10, text @ ..] => Some(text),
        _ => None,
    }
}

// Whether this is the closed byte alone.
fn is_closed_byte(end: &[u8]) -> bool
    ensures closed { result ≡ true → end.now ≡ 35 ∷ [] }
{
    matches!(end, [35])
}

// Has the lines of a text taken, and gives their length.
fn take_lines<T: Taker>(state: &mut T, text: &[u8]) -> Result<usize, OpenError>
    requires short { length text.now + 11 < 2 ^ 64 }
    ensures all { OnOk result (after_all T.takes T.after state.old (open_lines text.now) ≡ Some state.new) }
    ensures bound { IfOk result (λ len. len ≤ length text.now) }
    ensures parts { IfOk result (λ len. text.now ≡ joined (open_lines text.now) ++ drop len text.now) }
    ensures end { IfOk result (λ len. is_end (drop len text.now) ≡ true) }
    ensures ok { OnOk result (text_fault T.takes T.after state.old text.now ≡ None) }
    ensures err { IfErr result (λ e. is_refusal e ≡ true → text_fault T.takes T.after state.old text.now ≡ Some e) }
    ensures not_failed { IsErrOf result OpenError.Failed → ⊥ }
{
    let mut rest = text;
    while let Some((line, after)) = first_line(rest) {
        match state.take(line) {
            Ok(true) => {}
            Ok(false) => return Err(OpenError::BadLine(HEADER.len() + (text.len() - rest.len()))),
            Err(_) => return Err(OpenError::OutOfMemory),
        }
        rest = after;
    }
    let len = text.len() - rest.len();
    if is_end(rest) {
        Ok(len)
    } else {
        Err(OpenError::BadEnd(HEADER.len() + len))
    }
}

// Syncs a file that a crash may have left, whose lines end at a place, and repairs its end.
fn settle<D: Device>(device: &mut D, end: usize, is_at_rest: bool) -> Result<(), OpenError>
    requires left { Stands (recovered (D.seen device.old)) (D.seen device.old) }
    requires place { end ≡ length (written (recovered (D.seen device.old))) }
    requires rest { is_at_rest ≡ true → D.seen device.old ≡ at_rest (recovered (D.seen device.old)) }
    ensures at_rest { OnOk result (D.seen device.new ≡ at_rest (recovered (D.seen device.old))) }
    ensures durable { OnOk result (Only (D.seen device.new) (D.may_leave device.new)) }
    ensures any_moment { LeavesOnly D.moment D.left_since device.old device.new
        (λ c. D.may_leave device.old c ⊎ Stands (recovered (D.seen device.old)) c) }
    ensures failed { OnErr result (HasRisen (D.faults device.old) (D.faults device.new)) }
    ensures cause { IfErr result (λ e. e ≡ OpenError.Failed) }
{
    if device.sync().is_err() {
        return Err(OpenError::Failed);
    }
    if is_at_rest {
        return Ok(());
    }
    match repair(device, end) {
        Ok(()) => Ok(()),
        Err(_) => Err(OpenError::Failed),
    }
}

/// Reads the lines of a file that a crash may have left, whose bytes are these, into what takes them, and repairs the
/// file's end. It may crash too. It gives the place of the closed byte: a [`LineLog`](crate::LineLog) of the device and
/// this place is settled.
///
/// It syncs before it answers, since a file that a process that was killed has left may read otherwise than a power cut
/// would leave it. A file that no run can have left is refused by name.
pub fn recover<D: Device, T: Taker>(
    device: &mut D,
    bytes: &[u8],
    state: &mut T,
) -> Result<usize, OpenError>
    requires bytes { bytes.now ≡ D.seen device.old }

    ensures all { OnOk result (after_all T.takes T.after state.old (recovered (D.seen device.old)) ≡ Some state.new) }
    ensures settled { IfOk result (λ end. IsSettled D.seen D.may_leave (record { device = device.new; end = end })) }
    ensures same { OnOk result (recovered (D.seen device.new) ≡ recovered (D.seen device.old)) }

    // A crash at any moment leaves what it might have left before the call, or the same lines.
    ensures any_moment { LeavesOnly D.moment D.left_since device.old device.new
        (λ c. D.may_leave device.old c ⊎ Stands (recovered (D.seen device.old)) c) }

    // A file is refused exactly by its first fault, and isn't changed.
    ensures ok { OnOk result (file_fault T.takes T.after state.old (D.seen device.old) ≡ None) }
    ensures err { IfErr result (λ e. is_refusal e ≡ true → file_fault T.takes T.after state.old (D.seen device.old) ≡ Some e) }
    ensures refused { IfErr result (λ e. is_refusal e ≡ true → device.new ≡ device.old) }

    // What a run can have left isn't refused, where its lines are taken.
    ensures accepted { Stands (recovered (D.seen device.old)) (D.seen device.old)
        → is_some (after_all T.takes T.after state.old (recovered (D.seen device.old))) ≡ true
        → IfErr result (λ e. is_refusal e ≡ false) }

    ensures failed { IsErrOf result OpenError.Failed → HasRisen (D.faults device.old) (D.faults device.new) }
{
    let Some(text) = after_header(bytes) else {
        return Err(OpenError::NoHeader);
    };
    let len = match take_lines(state, text) {
        Ok(len) => len,
        Err(e) => return Err(e),
    };
    let end = HEADER.len() + len;
    match settle(device, end, is_closed_byte(&text[len..])) {
        Ok(()) => Ok(end),
        Err(e) => Err(e),
    }
}
