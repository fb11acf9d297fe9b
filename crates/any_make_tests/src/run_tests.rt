//! The run over the first line of a source: its text, what is read of it, and how it ends.

use crate::tests::{SHA_SALT, read_front};
use any_make::{MakeCost, MakeEnd, MakeFault, run_make};
use line_io::{MemorySink, MemorySource, Source};
use std::alloc::Global;
use std::process::Abort;

// The texts of `secret` and of no bytes, by libxcrypt, as in the table.
const SECRET: &[u8] = b"$2b$04$..CA.uOD/eaGAOmJB.yMBu4AbFLftUBUHQbseIwAiOGKsNRgByuEG\n";

const NONE: &[u8] = b"$2b$04$......................w74bL5gU7LSJClZClCa.Pkz14aTv/XO\n";

const FIRST_SALT: &[u8] = b"\x00\x01\x02\x03\x04\x05\x06\x07\x08\x09\x0a\x0b\x0c\x0d\x0e\x0f";

// What a source gives, the salt, whether a line without a byte is a password, the end, and what is written.
struct FirstLine {
    input: &'static [u8],
    salt: &'static [u8],
    takes_empty: bool,
    end: MakeEnd,
    output: &'static [u8],
}

const FIRST_LINES: &[FirstLine] = &[
    FirstLine {
        input: b"secret\nother\n",
        salt: FIRST_SALT,
        takes_empty: false,
        end: MakeEnd::Made,
        output: SECRET,
    },
    FirstLine {
        input: b"secret\nother\n",
        salt: FIRST_SALT,
        takes_empty: true,
        end: MakeEnd::Made,
        output: SECRET,
    },
    FirstLine {
        input: b"secret",
        salt: FIRST_SALT,
        takes_empty: false,
        end: MakeEnd::Made,
        output: SECRET,
    },
    FirstLine {
        input: b"\n",
        salt: &[0; 16],
        takes_empty: true,
        end: MakeEnd::Made,
        output: NONE,
    },
    FirstLine {
        input: b"\n",
        salt: &[0; 16],
        takes_empty: false,
        end: MakeEnd::EmptyLine,
        output: b"",
    },
    FirstLine {
        input: b"\nsecret\n",
        salt: FIRST_SALT,
        takes_empty: false,
        end: MakeEnd::EmptyLine,
        output: b"",
    },
    FirstLine {
        input: b"",
        salt: FIRST_SALT,
        takes_empty: true,
        end: MakeEnd::NoLine,
        output: b"",
    },
    FirstLine {
        input: b"\xff\n",
        salt: FIRST_SALT,
        takes_empty: false,
        end: MakeEnd::Refused(MakeFault::NotUtf8),
        output: b"",
    },
    FirstLine {
        input: b"a\0\nb\n",
        salt: FIRST_SALT,
        takes_empty: false,
        end: MakeEnd::Refused(MakeFault::ZeroByte),
        output: b"",
    },
    FirstLine {
        input: b"secret\n",
        salt: SHA_SALT,
        takes_empty: true,
        end: MakeEnd::Refused(MakeFault::Salt),
        output: b"",
    },
    FirstLine {
        input: &[b'a'; 8_193],
        salt: FIRST_SALT,
        takes_empty: false,
        end: MakeEnd::LongLine,
        output: b"",
    },
];

fn first_line_rows() -> &'static [FirstLine] {
    FIRST_LINES
}

// How the run over the first line of a source ends, with bcrypt and the first salt.
fn ended(alloc: Global, source: &mut MemorySource<'_>, sink: &mut MemorySink<'_>) -> MakeEnd {
    run_make(alloc, MakeCost::Bcrypt(4), FIRST_SALT, false, source, sink)
}

fn first_line(rt: &impl Abort, alloc: Global, i: usize, row: &FirstLine, chunk: usize) {
    let mut room = [0; 100];
    let mut source = MemorySource::new(row.input, chunk.max(1), &[]);
    let mut sink = MemorySink::new(&mut room, chunk.max(1), &[]);
    let cost = MakeCost::Bcrypt(4);
    let got = run_make(
        alloc,
        cost,
        row.salt,
        row.takes_empty,
        &mut source,
        &mut sink,
    );
    assert!(rt; got == row.end, "row {i} by {chunk}");
    assert!(rt; sink.bytes() == row.output, "row {i} by {chunk}");
}

#[test]
fn first_lines(rt: HostRuntime) {
    for (i, row) in first_line_rows().iter().enumerate() {
        first_line(&rt, rt.alloc(), i, row, 1);
        first_line(&rt, rt.alloc(), i, row, 5);
        first_line(&rt, rt.alloc(), i, row, 10_000);
    }
}

// How many bytes a source still gives.
fn count_left(source: &mut MemorySource<'_>) -> usize {
    let mut buffer = [0; 1_000];
    let mut left: usize = 0;
    for _ in 0..100_000 {
        match source.read(&mut buffer) {
            Ok(0) | Err(_) => return left,
            Ok(count) => left = left.saturating_add(count),
        }
    }
    left
}

const TOO_LONG: MakeEnd = MakeEnd::Refused(MakeFault::PasswordTooLong);

// Few bytes of a source are taken, however long its first line is. What it gives at a read, the place of its first line feed, how
// many bytes of it are taken, and the end.
const TAKEN: &[(usize, usize, usize, MakeEnd)] = &[
    (1, 6, 7, MakeEnd::Made),
    (5, 6, 10, MakeEnd::Made),
    (20_000, 6, 8_194, MakeEnd::Made),
    (1, 8_192, 8_193, TOO_LONG),
    (20_000, 8_192, 8_194, TOO_LONG),
    (1, 8_193, 8_194, MakeEnd::LongLine),
    (20_000, 8_193, 8_194, MakeEnd::LongLine),
    (5, 19_999, 8_194, MakeEnd::LongLine),
    (20_000, 19_999, 8_194, MakeEnd::LongLine),
];

// How the run over these bytes ends, and how many of them are taken.
fn taken(alloc: Global, bytes: &[u8], step: usize) -> (MakeEnd, usize) {
    let mut room = [0; 100];
    let mut source = MemorySource::new(bytes, step.max(1), &[]);
    let mut sink = MemorySink::new(&mut room, 100, &[]);
    let end = ended(alloc, &mut source, &mut sink);
    (end, bytes.len().saturating_sub(count_left(&mut source)))
}

fn are_taken(rt: &impl Abort, alloc: Global, row: &(usize, usize, usize, MakeEnd)) {
    let (step, feed, count, end) = *row;
    let mut bytes = [b'a'; 20_000];
    if let Some(b) = bytes.get_mut(feed) {
        *b = b'\n';
    }
    let (got, taken) = taken(alloc, &bytes, step);
    assert!(rt; got == end, "{step}, {feed}");
    assert!(rt; taken == count, "{step}, {feed}");
}

#[test]
fn what_is_taken(rt: HostRuntime) {
    for row in TAKEN {
        are_taken(&rt, rt.alloc(), row);
    }
}

// A line that the source ends has as many bytes at most as one that a line feed ends.
const LAST_LINES: &[(usize, MakeEnd)] = &[
    (8_192, TOO_LONG),
    (8_193, MakeEnd::LongLine),
    (8_194, MakeEnd::LongLine),
];

#[test]
fn last_lines(rt: HostRuntime) {
    let bytes = [b'a'; 8_194];
    for (length, end) in LAST_LINES {
        let line = read_front(&bytes, *length);
        assert!(rt; taken(rt.alloc(), line, 1).0 == *end, "{length}");
        assert!(rt; taken(rt.alloc(), line, 10_000).0 == *end, "{length}");
    }
}

// A name, the reads and the writes that fail, what is written, and the end.
const DEVICES: &[(&str, &[u64], &[u64], &str, MakeEnd)] = &[
    ("a read", &[1], &[], "", MakeEnd::ReadFault),
    ("the first write", &[], &[0], "", MakeEnd::WriteFault),
    (
        "the second write",
        &[],
        &[1],
        "$2b$04$",
        MakeEnd::WriteFault,
    ),
];

#[test]
fn failing_devices(rt: HostRuntime) {
    for (name, bad_reads, bad_writes, output, end) in DEVICES {
        let mut room = [0; 100];
        let mut source = MemorySource::new(b"secret\n", 3, bad_reads);
        let mut sink = MemorySink::new(&mut room, 7, bad_writes);
        assert!(rt; ended(rt.alloc(), &mut source, &mut sink) == *end, "{name}");
        assert!(rt; sink.bytes() == output.as_bytes(), "{name}");
    }
}
