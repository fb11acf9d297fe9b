//! Sources and a sink that tell what they were asked: which answers were written at a read, and how often was read.

ghost use Rattle.std.specs.Prelude.{None};

use line_io::{Failed, MemorySource, Sink, Source};
use std::cell::Cell;

/// A source that gives one piece at a read, and looks how many lines were answered before it.
#[derive(Drop)]
pub struct Questions<'a> {
    pieces: &'a [&'a [u8]],
    at: usize,
    asked: usize,
    answered: &'a Cell<usize>,
    early: bool,
}

impl<'a> Questions<'a> {
    /// A source of these pieces.
    pub fn new(pieces: &'a [&'a [u8]], answered: &'a Cell<usize>) -> Questions<'a> {
        Questions {
            pieces,
            at: 0,
            asked: 0,
            answered,
            early: false,
        }
    }

    /// Whether a read came while a line that was given had no answer.
    pub fn is_early(&self) -> bool {
        self.early
    }
}

impl<'a> Source for Questions<'a> {
    ghost left = { λ _. None };

    ghost faults = { λ _. 0 };

    fn read(&mut self, buf: &mut [u8]) -> Result<usize, Failed> {
        if self.answered.get() < self.asked {
            self.early = true;
        }
        if self.at >= self.pieces.len() {
            return Ok(0);
        }
        let piece = self.pieces[self.at];
        self.at += 1;
        let count = piece.len().min(buf.len());
        buf[..count].copy_from_slice(&piece[..count]);
        self.asked = self.asked.saturating_add(feeds(piece));
        Ok(count)
    }
}

/// A source in memory that counts its reads.
#[derive(Drop)]
pub struct Counted<'a> {
    source: MemorySource<'a>,
    reads: usize,
}

impl<'a> Counted<'a> {
    /// No read yet.
    pub fn new(source: MemorySource<'a>) -> Counted<'a> {
        Counted { source, reads: 0 }
    }

    /// The reads.
    pub fn reads(&self) -> usize {
        self.reads
    }
}

impl<'a> Source for Counted<'a> {
    ghost use Rattle.std.specs.Prelude.{Some};
    ghost use Rattle.line_io.specs.Memory.{source_faults, source_left};

    ghost left = { λ s. Some (source_left s.source) };

    ghost faults = { λ s. source_faults s.source };

    fn read(&mut self, buf: &mut [u8]) -> Result<usize, Failed> {
        self.reads = self.reads.saturating_add(1);
        self.source.read(buf)
    }
}

/// A sink that counts its writes, and the lines that they answer.
#[derive(Drop)]
pub struct Answers<'a> {
    answered: &'a Cell<usize>,
    writes: usize,
}

impl<'a> Answers<'a> {
    /// No write yet.
    pub fn new(answered: &'a Cell<usize>) -> Answers<'a> {
        Answers {
            answered,
            writes: 0,
        }
    }

    /// The writes of one byte or more.
    pub fn writes(&self) -> usize {
        self.writes
    }
}

impl<'a> Sink for Answers<'a> {
    ghost written = { λ _. None };

    ghost faults = { λ _. 0 };

    fn write(&mut self, piece: &[u8]) -> Result<usize, Failed> {
        if !piece.is_empty() {
            self.writes = self.writes.saturating_add(1);
        }
        self.answered
            .set(self.answered.get().saturating_add(feeds(piece)));
        Ok(piece.len())
    }
}

// The line feeds of a piece.
fn feeds(piece: &[u8]) -> usize {
    let mut count = 0usize;
    for byte in piece {
        if *byte == b'\n' {
            count = count.saturating_add(1);
        }
    }
    count
}
