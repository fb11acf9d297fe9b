//! What brings stored texts to their normal form, line by line.

ghost use Rattle.std.specs.Prelude.{◌≡◌, ◌≤◌, ◌++◌, drop, length, take};
ghost use Rattle.stored_check.specs.Normal.{normal};
ghost use Rattle.pwcheck_run.specs.Normalize.{normal_line};
ghost use Rattle.line_io.specs.Limits.{line_max};

use line_io::{OutputBuffer, Sink};
use line_program::Responder;
use pieces::text::text_of;
use std::alloc::AllocError;
use stored_check::write_normal;

/// The most bytes of a line, and one for its line feed.
const ROOM: usize = 8_193;

// Copies a line to the front of `out`, and tells its length.
fn copy_line(line: &[u8], out: &mut [u8]) -> usize
    requires { length line.now ≤ length out.old }
    ensures length { result ≡ length line.now }
    ensures written { out.new ≡ line.now ++ drop result out.old }
{
    out[..line.len()].copy_from_slice(line);
    line.len()
}

// Writes the normal text of a line at the front of `out`, and tells its length. A line that is no text stays.
fn write_line(line: &[u8], out: &mut [u8]) -> usize
    requires { length line.now ≤ length out.old }
    ensures length { result ≡ length (normal line.now) }
    ensures fits { result ≤ length line.now }
    ensures written { out.new ≡ normal line.now ++ drop result out.old }
{
    match text_of(line) {
        Some(text) => write_normal(text, out),
        None => copy_line(line, out),
    }
}

// What is written for a line of at most 8,192 bytes, at the front of `out`.
fn normal_line<'o>(line: &[u8], out: &'o mut [u8; ROOM]) -> &'o [u8]
    requires { length line.now ≤ line_max }
    ensures { result.now ≡ normal_line line.now }
{
    let out = &mut out[..];
    let n = write_line(line, out);
    out[n] = b'\n';
    &out[..n + 1]
}

/// What brings the lines of a file of stored texts to their normal form, each by itself.
#[derive(Clone, Copy, Debug)]
pub struct Normalizer;

impl Responder for Normalizer {
    ghost use Rattle.pwcheck_run.specs.NormalState.{normalizer_rules};

    ghost rules = { normalizer_rules };

    fn answer<K: Sink>(
        &mut self,
        line: &[u8],
        out: &mut OutputBuffer,
        sink: &mut K,
    ) -> Result<bool, AllocError> {
        out.put(sink, normal_line(line, &mut [0; ROOM]));
        Ok(true)
    }

    fn answer_long<K: Sink>(&mut self, out: &mut OutputBuffer, sink: &mut K) -> bool {
        out.put(sink, b"toolong\n");
        false
    }
}
