//! That lines are counted as they are written, be it in pieces of whatever length.

use pwtool_forms::tally::{Counts, Tally};
use std::cell::Cell;
use std::io;
use std::io::Write;
use std::test::Fail;

// A writer that takes at most so many bytes of a piece.
#[derive(Drop)]
struct Narrow<'a> {
    most: usize,
    taken: &'a Cell<usize>,
    flushes: &'a Cell<usize>,
}

impl<'a> Write for Narrow<'a> {
    fn write(&mut self, piece: &[u8]) -> io::Result<usize> {
        let count = piece.len().min(self.most);
        self.taken.set(self.taken.get().saturating_add(count));
        Ok(count)
    }

    fn flush(&mut self) -> io::Result<()> {
        self.flushes.set(self.flushes.get().saturating_add(1));
        Ok(())
    }
}

// The counts of these lines through a tally whose writer takes at most so many bytes of a piece, and that the writer gets each byte and flush.
fn tallied(most: usize) -> Option<Counts> {
    let (taken, flushes) = (Cell::new(0), Cell::new(0));
    let mut tally = Tally::new(Narrow {
        most,
        taken: &taken,
        flushes: &flushes,
    });
    let mut left: &[u8] =
        b"match\nann\tmismatch\nmatch\nmatch\ntoo-costly\nmismatch\nmatc\nh\nbob\tmatch\nmat";
    for _ in 0..100 {
        let count = tally.write(left).ok()?;
        left = left.get(count..)?;
    }
    tally.flush().ok()?;
    if left.is_empty() && taken.get() == 71 && flushes.get() == 1 {
        Some(tally.counts())
    } else {
        None
    }
}

#[test]
fn lines_through_a_tally(rt: HostRuntime) -> Result<(), Fail> {
    let counts = Counts {
        matches: 4,
        mismatches: 2,
        others: 3,
    };
    for most in [1, 3, 7, 16, 17, 33, 71] {
        assert!(rt; tallied(most) == Some(counts), "{most} bytes of a piece");
    }
    Ok(())
}
