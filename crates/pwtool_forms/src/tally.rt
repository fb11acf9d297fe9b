//! How many answers are written, by their words, and why a write failed.

use std::io;
use std::io::{ErrorKind, Write};
use std::simd::prelude::*;

/// How many lines were written, by what they end in.
#[derive(Clone, Copy, Debug, PartialEq, Eq)]
pub struct Counts {
    pub matches: u64,
    pub mismatches: u64,
    pub others: u64,
}

impl Counts {
    /// No line.
    pub fn none() -> Counts {
        Counts {
            matches: 0,
            mismatches: 0,
            others: 0,
        }
    }

    /// How many lines there are.
    pub fn lines(&self) -> u64 {
        self.matches
            .saturating_add(self.mismatches)
            .saturating_add(self.others)
    }

    // Counts a line before whose end these eight bytes are, the last one lowest.
    fn add(&mut self, recent: u64) {
        if recent == MISMATCH {
            self.mismatches = self.mismatches.saturating_add(1);
        } else if recent % (1 << 40) == MATCH {
            self.matches = self.matches.saturating_add(1);
        } else {
            self.others = self.others.saturating_add(1);
        }
    }
}

// The bytes of `match` and of `mismatch`, the last one lowest. No other answer ends in either, and neither has a line feed.
const MATCH: u64 = 0x6d_61_74_63_68;

const MISMATCH: u64 = 0x6d_69_73_6d_61_74_63_68;

// The last eight bytes after those in `recent` and then `piece`, the last one lowest.
fn recent_after(recent: u64, piece: &[u8]) -> u64 {
    let last = piece.get(piece.len().saturating_sub(8)..).unwrap_or(piece);
    match <[u8; 8]>::try_from(last) {
        Ok(eight) => u64::from_be_bytes(eight),
        Err(_) => {
            let mut recent = recent;
            for b in last {
                recent = (recent << 8) | (*b as u64);
            }
            recent
        }
    }
}

// A bit for each line feed among sixteen bytes, the first one lowest.
#[inline(always)]
fn ends_of(block: &[u8]) -> u64 {
    if block.len() < 16 {
        return 0;
    }
    u8x16::from_slice(block)
        .simd_eq(u8x16::splat(b'\n'))
        .to_bitmask()
}

/// A writer that keeps why the last write failed.
#[derive(Drop)]
pub struct Noted<W: Write + Drop> {
    writer: W,
    fault: Option<ErrorKind>,
}

impl<W: Write + Drop> Noted<W> {
    /// A writer of which no write has failed.
    pub fn new(writer: W) -> Noted<W> {
        Noted {
            writer,
            fault: None,
        }
    }

    /// Why the last write failed, if one did.
    pub fn fault(&self) -> Option<ErrorKind> {
        self.fault
    }
}

impl<W: Write + Drop> Write for Noted<W> {
    fn write(&mut self, piece: &[u8]) -> io::Result<usize> {
        match self.writer.write(piece) {
            Ok(count) => Ok(count),
            Err(error) => {
                self.fault = Some(error.kind());
                Err(error)
            }
        }
    }

    fn flush(&mut self) -> io::Result<()> {
        match self.writer.flush() {
            Ok(()) => Ok(()),
            Err(error) => {
                self.fault = Some(error.kind());
                Err(error)
            }
        }
    }
}

/// A writer that counts the lines which go through it by the words that they end in.
#[derive(Drop)]
pub struct Tally<W: Write + Drop> {
    writer: Noted<W>,
    counts: Counts,
    recent: u64,
}

impl<W: Write + Drop> Tally<W> {
    /// What counts the lines for this writer.
    pub fn new(writer: W) -> Tally<W> {
        Tally {
            writer: Noted::new(writer),
            counts: Counts::none(),
            recent: 0,
        }
    }

    /// The lines that were written so far.
    pub fn counts(&self) -> Counts {
        self.counts
    }

    /// Why the last write failed, if one did.
    pub fn fault(&self) -> Option<ErrorKind> {
        self.writer.fault()
    }

    // Counts the line that ends at a place in the piece.
    fn count_at(&mut self, piece: &[u8], end: usize) {
        let line = piece.get(..end).unwrap_or(piece);
        self.counts.add(recent_after(self.recent, line));
    }

    // Counts the lines that end in sixteen bytes of the piece, of which the first is at a place.
    fn count_block(&mut self, piece: &[u8], at: usize, ends: u64) {
        let mut left = ends;
        for _ in 0..ends.count_ones() {
            self.count_at(piece, at.saturating_add(left.trailing_zeros() as usize));
            left &= left.wrapping_sub(1);
        }
    }

    // Counts the lines that end in the last bytes of the piece, of which the first is at a place.
    fn count_rest(&mut self, piece: &[u8], at: usize, rest: &[u8]) {
        let mut end = at;
        for b in rest {
            if *b == b'\n' {
                self.count_at(piece, end);
            }
            end = end.saturating_add(1);
        }
    }

    // Counts the lines that end in these bytes.
    fn count(&mut self, piece: &[u8]) {
        let blocks = piece.chunks_exact(16);
        let rest = blocks.remainder();
        let mut at: usize = 0;
        for block in blocks {
            self.count_block(piece, at, ends_of(block));
            at = at.saturating_add(16);
        }
        self.count_rest(piece, at, rest);
        self.recent = recent_after(self.recent, piece);
    }
}

impl<W: Write + Drop> Write for Tally<W> {
    fn write(&mut self, piece: &[u8]) -> io::Result<usize> {
        let count = self.writer.write(piece)?;
        self.count(&piece[..count]);
        Ok(count)
    }

    fn flush(&mut self) -> io::Result<()> {
        self.writer.flush()
    }
}
