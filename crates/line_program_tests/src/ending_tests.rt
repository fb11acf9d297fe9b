//! A program whose last text depends on its lines.

use line_io::{MemorySink, MemorySource, OutputBuffer, Sink};
use line_program::{Ending, Responder, run_ended, run_state_lines};
use std::alloc::AllocError;
use std::marker::Model;

// Whether there was a line.
#[derive(Drop)]
struct Seen {
    any: bool,
}

impl Model for Seen {
    ghost use Rattle.std.specs.Prelude.{Bool};

    ghost Value = { Bool };

    ghost view = { λ s. s.any };
}

impl Responder for Seen {
    ghost use Rattle.line_program_tests.specs.Toys.{seen_rules};

    ghost rules = { seen_rules };

    fn answer<K: Sink>(
        &mut self,
        _line: &[u8],
        out: &mut OutputBuffer,
        sink: &mut K,
    ) -> Result<bool, AllocError> {
        out.put(sink, b".");
        self.any = true;
        Ok(true)
    }

    fn answer_long<K: Sink>(&mut self, out: &mut OutputBuffer, sink: &mut K) -> bool {
        out.put(sink, b".");
        self.any = true;
        true
    }
}

impl Ending for Seen {
    ghost use Rattle.line_program_tests.specs.Toys.{seen_ending};

    ghost ending = { seen_ending };

    fn put_ending<K: Sink>(&self, out: &mut OutputBuffer, sink: &mut K) {
        out.put(sink, if self.any { b"some" } else { b"none" });
    }
}

// An input, the reads and the writes that fail, the most bytes, the output and the status.
const ROWS: [(&[u8], &[u64], &[u64], u64, &[u8], u8); 8] = [
    (b"", &[], &[], 100, b"none", 0),
    (b"\n", &[], &[], 100, b".some", 0),
    (b"a\nb\nc", &[], &[], 100, b"...some", 0),
    (b"a\nb\nc", &[2], &[], 100, b"..", 3),
    (b"a\nb\nc", &[], &[], 3, b".", 6),
    (b"a\nb\nc", &[], &[0], 100, b"", 4),
    (b"a\nb\nc", &[], &[1], 100, b"..", 4),
    (b"a\nb\nc", &[], &[2], 100, b"...", 4),
];

#[test]
fn endings(rt: HostRuntime) {
    for (input, reads, writes, max, output, status) in ROWS {
        let mut room = [0; 16];
        let mut source = MemorySource::new(input, 4, reads);
        let mut sink = MemorySink::new(&mut room, 16, writes);
        let mut seen = Seen { any: false };
        let got = run_ended(&mut seen, &mut source, &mut sink, max);
        assert!(rt; got == status, "{output:?}");
        assert!(rt; sink.bytes() == output);
    }
}

#[test]
fn states(rt: HostRuntime) {
    for (input, any) in [(b"".as_slice(), false), (b"x", true)] {
        let mut room = [0; 16];
        let mut source = MemorySource::new(input, 4, &[]);
        let mut sink = MemorySink::new(&mut room, 16, &[]);
        let mut seen = Seen { any: false };
        let got = run_state_lines(&mut seen, &mut source, &mut sink, 100);
        assert!(rt; got == 0);
        assert!(rt; seen.any == any);
    }
}
