//! Bytes on their way to a sink.

ghost use Rattle.std.specs.Prelude.{◌≡◌, ◌≤◌, ◌<◌, ◌+◌, ◌++◌, ◌∷◌, [], false, true, length};
ghost use Rattle.line_io.specs.declared.output.TheConstants.{CAPACITY};

use crate::write::write_all;
use crate::{Failed, Sink};

/// The bytes that the buffer holds.
const CAPACITY: usize = 16_384;

/// Bytes for one sink, which are gathered in 16,384 bytes held in place.
///
/// They are written where the buffer is full, and at [`OutputBuffer::flush`]. A piece that fits isn't cut.
/// After a write failed nothing more is written, and [`OutputBuffer::has_failed`] tells. All calls are to be
/// given the same sink.
#[derive(Debug, Drop)]
pub struct OutputBuffer {
    bytes: [u8; CAPACITY],
    len: usize,
    failed: bool,
    ghost within: { len ≤ 16384 },
}

impl OutputBuffer {
    ghost use Rattle.line_io.specs.Output.{Puts, has_failed, waiting};

    /// Nothing waits.
    #[tactic(auto, unfolding(crate::specs::Output::waiting))]
    pub fn new() -> OutputBuffer
        ensures none { waiting result ≡ [] }
        ensures unfailed { has_failed result ≡ false }
    {
        OutputBuffer {
            bytes: [0; CAPACITY],
            len: 0,
            failed: false,
        }
    }

    /// Whether a write failed.
    pub fn has_failed(&self) -> bool
        ensures failed { result ≡ has_failed self.now }
    {
        self.failed
    }

    #[tactic(auto, unfolding(crate::specs::Output::waiting))]
    fn waiting(&self) -> &[u8]
        ensures value { result.now ≡ waiting self.now }
        ensures within { length result.now ≤ CAPACITY }
    {
        &self.bytes[..self.len]
    }

    // Forgets what waits, as it was written.
    #[tactic(auto, unfolding(crate::specs::Output::waiting))]
    fn clear(&mut self)
        ensures none { waiting self.new ≡ [] }
        ensures same { has_failed self.new ≡ has_failed self.old }
    {
        self.len = 0;
    }

    // Marks that a write failed.
    fn fail(&mut self)
        ensures failed { has_failed self.new ≡ true }
    {
        self.failed = true;
    }

    // Keeps a piece behind what waits.
    #[tactic(auto, unfolding(crate::specs::Output::waiting))]
    fn keep(&mut self, piece: &[u8])
        requires room { length (waiting self.old) + length piece.now ≤ CAPACITY }
        ensures kept { waiting self.new ≡ waiting self.old ++ piece.now }
        ensures same { has_failed self.new ≡ has_failed self.old }
    {
        let start = self.len;
        let end = start + piece.len();
        let bytes = &mut self.bytes[..];
        bytes[start..end].copy_from_slice(piece);
        self.len = end;
    }

    // Writes a piece where nothing waits.
    fn write<K: Sink>(&mut self, sink: &mut K, piece: &[u8])
        requires none { waiting self.old ≡ [] }
        requires unfailed { has_failed self.old ≡ false }
        ensures puts { Puts (K.written sink.old) (K.written sink.new) (K.faults sink.old) (K.faults sink.new) self.old self.new piece.now }
    {
        match write_all(sink, piece) {
            Ok(()) => {}
            Err(Failed) => self.fail(),
        }
    }

    /// Writes all that waits.
    pub fn flush<K: Sink>(&mut self, sink: &mut K)
        ensures puts { Puts (K.written sink.old) (K.written sink.new) (K.faults sink.old) (K.faults sink.new) self.old self.new [] }
        ensures none { has_failed self.new ≡ false → waiting self.new ≡ [] }
    {
        if self.failed {
            return;
        }
        match write_all(sink, self.waiting()) {
            Ok(()) => self.clear(),
            Err(Failed) => self.fail(),
        }
    }

    /// Puts a piece behind what waits.
    pub fn put<K: Sink>(&mut self, sink: &mut K, piece: &[u8])
        ensures puts { Puts (K.written sink.old) (K.written sink.new) (K.faults sink.old) (K.faults sink.new) self.old self.new piece.now }
    {
        if self.failed {
            return;
        }
        if piece.len() <= CAPACITY - self.waiting().len() {
            self.keep(piece);
            return;
        }
        self.flush(sink);
        if self.failed {
            return;
        }
        if piece.len() <= CAPACITY {
            self.keep(piece);
        } else {
            self.write(sink, piece);
        }
    }

    // Keeps a line behind what waits.
    fn keep_line(&mut self, line: &[u8])
        requires room { length (waiting self.old) + length line.now < CAPACITY }
        ensures kept { waiting self.new ≡ waiting self.old ++ line.now ++ 10 ∷ [] }
        ensures same { has_failed self.new ≡ has_failed self.old }
    {
        self.keep(line);
        self.keep(b"\n");
    }

    /// Puts a line and its line feed behind what waits.
    pub fn put_line<K: Sink>(&mut self, sink: &mut K, line: &[u8])
        ensures puts { Puts (K.written sink.old) (K.written sink.new) (K.faults sink.old) (K.faults sink.new) self.old self.new (line.now ++ 10 ∷ []) }
    {
        if !self.failed && line.len() < CAPACITY - self.waiting().len() {
            self.keep_line(line);
            return;
        }
        self.put(sink, line);
        self.put(sink, b"\n");
    }
}
