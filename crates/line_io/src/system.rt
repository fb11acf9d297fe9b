// The edge over the system's reader and writer.
ghost use Rattle.std.specs.Prelude.{◌≡◌, ◌≤◌, ◌<◌, None, take, is_err, IfOk, OnErr, if◌then◌else◌};
ghost use Rattle.std.specs.Io.{ReadsAtMost, WritesAtMost};
ghost use Rattle.std.specs.Io.KnownBytes.{Appends, Keeps, ReadConsumes, WriteAppends};
ghost use Rattle.line_io.specs.Devices.{WritesSome};
ghost use Rattle.pieces.specs.FaultCounts.{HasRisen, one_more};

use crate::{Failed, Sink, Source};
use std::io::{ErrorKind, Read, Write};

/// How often a call that was interrupted is tried in all.
const MOST_TRIES: u32 = 65_536;

/// A source over a reader. It tells no bytes.
///
/// A read that the system interrupted is no fault: it is tried again. Only the 65,536th interruption
/// in one call is answered as a fault, so that each call ends.
#[derive(Debug, Drop)]
pub struct StdSource<R: Read + Drop> {
    reader: R,
    faults: u64,
}

impl<R: Read + Drop> StdSource<R> {
    ghost use Rattle.line_io.specs.System.{reader_of, read_faults};

    /// A source of all that the reader gives from now on, with no fault counted.
    ///
    /// It asks for as many bytes as a call has room for and keeps none, so a reader that gathers bytes gains nothing.
    pub fn new(reader: R) -> StdSource<R>
        ensures reader { reader_of result ≡ reader }
        ensures faults { read_faults result ≡ 0 }
    {
        StdSource { reader, faults: 0 }
    }
}

impl<R: Read + Drop> Source for StdSource<R> {
    ghost use Rattle.line_io.specs.System.{reader_of, read_faults};

    ghost left = { λ _. None };

    ghost faults = { λ s. read_faults s };

    fn read(&mut self, buf: &mut [u8]) -> Result<usize, Failed>
        ensures bound { ReadsAtMost result buf.new }
        ensures bytes { ReadConsumes None None result buf.new }
        ensures count { read_faults self.old ≤ read_faults self.new }
        ensures cause { OnErr result (HasRisen (read_faults self.old) (read_faults self.new)) }

        // The count rises by one in a call that fails, and only there.
        ensures faults { read_faults self.new ≡
            (if is_err result then one_more (read_faults self.old) else read_faults self.old) }

        // What a reader that tells its bytes has left.
        ensures reader { ReadConsumes (R.remaining (reader_of self.old)) (R.remaining (reader_of self.new)) result buf.new }
    {
        match read_once(&mut self.reader, buf) {
            Ok(count) => Ok(count),
            Err(Failed) => {
                self.faults = self.faults.saturating_add(1);
                Err(Failed)
            }
        }
    }
}

/// Reads once, and again after an interruption.
fn read_once<R: Read>(reader: &mut R, buf: &mut [u8]) -> Result<usize, Failed>
    ensures bound { ReadsAtMost result buf.new }
    ensures bytes { ReadConsumes (R.remaining reader.old) (R.remaining reader.new) result buf.new }
{
    for _ in 0..MOST_TRIES {
        match reader.read(buf) {
            Ok(count) => return Ok(count),
            Err(error) if error.kind() == ErrorKind::Interrupted => {}
            Err(_) => return Err(Failed),
        }
    }
    Err(Failed)
}

/// A sink over a writer. It flushes in each write, and tells no bytes.
///
/// A write or a flush that the system interrupted is no fault: it is tried again. Only the 65,536th
/// interruption of the write, or of the flush, in one call is answered as a fault, so that each call
/// ends. A write of no byte of a nonempty piece is a fault.
#[derive(Debug, Drop)]
pub struct StdSink<W: Write + Drop> {
    writer: W,
    faults: u64,
}

impl<W: Write + Drop> StdSink<W> {
    ghost use Rattle.line_io.specs.System.{writer_of, write_faults};

    /// A sink that hands each write on to the writer, with no fault counted.
    ///
    /// It gathers nothing; [`OutputBuffer`](crate::OutputBuffer) does that before it.
    pub fn new(writer: W) -> StdSink<W>
        ensures writer { writer_of result ≡ writer }
        ensures faults { write_faults result ≡ 0 }
    {
        StdSink { writer, faults: 0 }
    }
}

/// Writes once, and again after an interruption.
fn write_once<W: Write>(writer: &mut W, piece: &[u8]) -> Result<usize, Failed>
    ensures bound { WritesAtMost result piece.now }
    ensures some { WritesSome result piece.now }
    ensures bytes { WriteAppends (W.contents writer.old) (W.contents writer.new) result piece.now }
{
    for _ in 0..MOST_TRIES {
        match writer.write(piece) {
            Ok(0) if !piece.is_empty() => return Err(Failed),
            Ok(count) => return Ok(count),
            Err(error) if error.kind() == ErrorKind::Interrupted => {}
            Err(_) => return Err(Failed),
        }
    }
    Err(Failed)
}

/// Flushes once, and again after an interruption.
fn flush_once<W: Write>(writer: &mut W) -> Result<(), Failed>
    ensures bytes { Keeps (W.contents writer.old) (W.contents writer.new) }
{
    for _ in 0..MOST_TRIES {
        match writer.flush() {
            Ok(()) => return Ok(()),
            Err(error) if error.kind() == ErrorKind::Interrupted => {}
            Err(_) => return Err(Failed),
        }
    }
    Err(Failed)
}

impl<W: Write + Drop> Sink for StdSink<W> {
    ghost use Rattle.line_io.specs.System.{writer_of, write_faults};

    ghost written = { λ _. None };

    ghost faults = { λ s. write_faults s };

    fn write(&mut self, piece: &[u8]) -> Result<usize, Failed>
        ensures bound { WritesAtMost result piece.now }
        ensures some { WritesSome result piece.now }
        ensures bytes { WriteAppends None None result piece.now }
        ensures count { write_faults self.old ≤ write_faults self.new }
        ensures cause { OnErr result (HasRisen (write_faults self.old) (write_faults self.new)) }

        // The count rises by one in a call that fails, and only there.
        ensures faults { write_faults self.new ≡
            (if is_err result then one_more (write_faults self.old) else write_faults self.old) }

        // What a writer that tells its bytes has got.
        ensures writer { IfOk result (λ n.
            Appends (W.contents (writer_of self.old)) (W.contents (writer_of self.new)) (take n piece.now)) }
    {
        if let Ok(count) = write_once(&mut self.writer, piece) {
            if flush_once(&mut self.writer).is_ok() {
                return Ok(count);
            }
        }
        self.faults = self.faults.saturating_add(1);
        Err(Failed)
    }
}
