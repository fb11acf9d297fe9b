//! Two programs, worked inputs, and when replies are written.

mod echo;
mod notes;
mod turns;

use echo::run_echo;
use line_io::{MemorySink, MemorySource};
use line_program::{PasswordCheck, PlainLines, cut_at_last_tab, run_plain};
use notes::run_notes;
use std::alloc::AllocError;
use std::cell::Cell;
use turns::{Answers, Counted, Questions};

#[test]
fn kept_and_listed(rt: HostRuntime) {
    for step in [1, 3, 1_000] {
        let mut room = [0; 128];
        let mut source = MemorySource::new(b"a\nlist\n\nbc\nlist\nlist", step, &[]);
        let mut sink = MemorySink::new(&mut room, 5, &[]);
        let status = run_notes(rt.alloc(), &mut source, &mut sink, 1_000);
        assert!(rt; status == 0);
        assert!(rt; sink.bytes() == b"ok\na\nok\nok\na\n\nbc\na\n\nbc\n".as_slice());
    }
}

#[test]
fn a_listing_longer_than_the_buffer(rt: HostRuntime) {
    let mut input = [b'a'; 24_008];
    input[8_000] = b'\n';
    input[16_001] = b'\n';
    input[24_002] = b'\n';
    input[24_003] = b'l';
    input[24_004] = b'i';
    input[24_005] = b's';
    input[24_006] = b't';
    input[24_007] = b'\n';
    let mut room = [0; 24_100];
    let mut source = MemorySource::new(&input, 16_384, &[]);
    let mut sink = MemorySink::new(&mut room, 10_000, &[]);
    let status = run_notes(rt.alloc(), &mut source, &mut sink, 100_000);
    assert!(rt; status == 0);
    // Three replies, and the three lines.
    assert!(rt; sink.bytes().len() == 9 + 24_003);
    assert!(rt; sink.bytes().starts_with(b"ok\nok\nok\naaa"));
    assert!(rt; sink.bytes().ends_with(b"aaa\n"));
}

#[test]
fn statuses(rt: HostRuntime) {
    // An input, the reads and writes that fail at two bytes each, the bytes that count, the status and the output.
    let rows: [(&[u8], &[u64], &[u64], u64, u8, &[u8]); 6] = [
        (b"", &[], &[], 9, 0, b""),
        (b"a\nb\n", &[], &[], 9, 0, b"a\nb\n"),
        (b"a\nb\n", &[1], &[], 9, 3, b"a\n"),
        (b"abc\nd\n", &[], &[1], 9, 4, b"ab"),
        (b"a\nb\n", &[], &[], 3, 6, b"a\n"),
        (b"a\nb", &[], &[], 3, 0, b"a\nb\n"),
    ];
    for (input, reads, writes, max, status, output) in rows {
        let mut room = [0; 16];
        let mut source = MemorySource::new(input, 2, reads);
        let mut sink = MemorySink::new(&mut room, 2, writes);
        assert!(rt; max <= 9);
        assert!(rt; run_echo(&mut source, &mut sink, max) == status);
        assert!(rt; sink.bytes() == output);
    }
}

#[test]
fn a_line_that_is_too_long(rt: HostRuntime) {
    let mut input = [b'a'; 8_195];
    input[8_193] = b'\n';
    let mut room = [0; 16];
    let mut source = MemorySource::new(&input, 1_000, &[]);
    let mut sink = MemorySink::new(&mut room, 16, &[]);
    assert!(rt; run_echo(&mut source, &mut sink, 10_000) == 1);
    assert!(rt; sink.bytes() == b"toolong\na\n".as_slice());
}

// What is given at each read, and the writes: a short reply is put in two pieces, and the replies to the lines of one
// read are one write.
const TURNS: [(&[&[u8]], usize); 2] = [
    (&[b"one\n", b"\n", b"three\n"], 3),
    (&[b"one\ntwo\nthree\n"], 1),
];

#[test]
fn answered_before_the_next_read(rt: HostRuntime) {
    for (lines, writes) in TURNS {
        let answered = Cell::new(0);
        let mut source = Questions::new(lines, &answered);
        let mut sink = Answers::new(&answered);
        assert!(rt; run_echo(&mut source, &mut sink, 100) == 0);
        assert!(rt; !source.is_early());
        assert!(rt; answered.get() == 3);
        assert!(rt; sink.writes() == writes);
    }
}

// What a source gives at two bytes a read, the reads and the writes that fail, the bytes that count, the status and the
// reads: behind the event that ends a run the source is not asked again.
const ENDS: [(&[u8], &[u64], &[u64], u64, u8, usize); 6] = [
    (b"a\nb\nc\n", &[], &[], 9, 0, 4),
    (b"a\nb\nc\n", &[], &[0], 9, 4, 1),
    (b"a\nb\nc\n", &[], &[1], 9, 4, 2),
    (b"a\nb\nc\n", &[1], &[], 9, 3, 2),
    (b"a\nb\nc\n", &[], &[], 3, 6, 2),
    (b"abcdef\n", &[], &[], 3, 6, 2),
];

#[test]
fn not_read_behind_the_end_of_a_run(rt: HostRuntime) {
    for (input, reads, writes, max, status, asked) in ENDS {
        let mut room = [0; 16];
        let mut source = Counted::new(MemorySource::new(input, 2, reads));
        let mut sink = MemorySink::new(&mut room, 16, writes);
        assert!(rt; max <= 9);
        assert!(rt; run_echo(&mut source, &mut sink, max) == status);
        assert!(rt; source.reads() == asked);
    }
    // The first line wants memory, and the second is never read.
    let mut room = [0; 16];
    let mut source = Counted::new(MemorySource::new(b"a\tb\nc\td\n", 4, &[]));
    let mut sink = MemorySink::new(&mut room, 16, &[]);
    let mut lines = PlainLines { check: Poor };
    assert!(rt; run_plain(&mut lines, &mut source, &mut sink, 100) == 5);
    assert!(rt; source.reads() == 1);
    assert!(rt; sink.bytes() == b"".as_slice());
}

/// A check by which a password matches the stored text that is the same.
#[derive(Clone, Copy, Debug)]
struct Same;

impl PasswordCheck for Same {
    ghost use Rattle.line_program_tests.specs.Toys.{same_verdict, same_lacks};

    ghost verdict = { same_verdict };

    ghost may_lack = { same_lacks };

    fn check(&self, password: &str, stored: &str) -> Result<Option<bool>, AllocError> {
        if stored.is_empty() {
            return Ok(None);
        }
        Ok(Some(password == stored))
    }
}

/// A check that never finds memory.
#[derive(Clone, Copy, Debug)]
struct Poor;

impl PasswordCheck for Poor {
    ghost use Rattle.line_program_tests.specs.Toys.{always_lacks, same_verdict};

    ghost verdict = { same_verdict };

    ghost may_lack = { always_lacks };

    fn check(&self, _password: &str, _stored: &str) -> Result<Option<bool>, AllocError> {
        Err(AllocError)
    }
}

// A line, its word and the status.
const PLAIN: [(&[u8], &[u8], u8); 7] = [
    (b"a\ta\n", b"match\n", 0),
    (b"a\tb\n", b"mismatch\n", 1),
    (b"a\t\n", b"invalid\n", 1),
    (b"a\n", b"invalid\n", 1),
    (b"b\tb\tb", b"mismatch\n", 1),
    (b"\xff\t\xff\n", b"invalid\n", 1),
    (b"", b"", 0),
];

#[test]
fn plain_lines(rt: HostRuntime) {
    for (line, word, status) in PLAIN {
        let mut room = [0; 16];
        let mut source = MemorySource::new(line, 3, &[]);
        let mut sink = MemorySink::new(&mut room, 16, &[]);
        let mut lines = PlainLines { check: Same };
        assert!(rt; run_plain(&mut lines, &mut source, &mut sink, 100) == status);
        assert!(rt; sink.bytes() == word);
    }
}

// The lines of one read and the writes: one behind each line with a verdict, and one for all others.
const FLUSHES: [(&[u8], usize); 3] = [(b"a\ta\nb\tc\n", 2), (b"a\nb\n", 1), (b"a\na\ta\nb\n", 2)];

#[test]
fn written_behind_a_verdict(rt: HostRuntime) {
    for (piece, writes) in FLUSHES {
        let pieces = [piece];
        let answered = Cell::new(0);
        let mut source = Questions::new(&pieces, &answered);
        let mut sink = Answers::new(&answered);
        let mut lines = PlainLines { check: Same };
        assert!(rt; run_plain(&mut lines, &mut source, &mut sink, 100) == 1);
        assert!(rt; sink.writes() == writes);
    }
}

#[test]
fn cut_at_tabs(rt: HostRuntime) {
    assert!(rt; cut_at_last_tab("a\tb\tc") == Some(("a\tb", "c")));
    assert!(rt; cut_at_last_tab("\t") == Some(("", "")));
    assert!(rt; cut_at_last_tab("abc") == None);
}
