ghost use Rattle.std.specs.Prelude.{◌≤◌, ◌<◌, ◌^◌};

use line_io::{
    Failed, Line, LineBuffer, MemorySink, MemorySource, OutputBuffer, Sink, Source, StdSink,
    StdSource, write_all,
};
use std::alloc::Global;
use std::io::{self, ErrorKind, Read, Write};
use std::process::Abort;
use std::test::Fail;

const STEPS: [usize; 3] = [1, 7, 16_384];

/// Runs of a byte: the byte and how often it stands.
fn text(alloc: Global, runs: &[(u8, usize)]) -> Result<Vec<u8>, Fail> {
    let mut text = Vec::new(alloc);
    for (byte, count) in runs {
        for _ in 0..*count {
            text.push(*byte)?;
        }
    }
    Ok(text)
}

/// Compares the answers on a new buffer, up to the last one.
fn expect_answers<R: Abort>(
    rt: &R,
    text: &[u8],
    step: usize,
    failing: &[u64],
    max: u64,
    expected: &[Line],
)
    requires some { 0 < step }
    requires within { max ≤ 2 ^ 40 }
{
    let mut source = MemorySource::new(text, step, failing);
    let mut buffer = LineBuffer::new(max);
    for want in expected {
        let answer = buffer.next_line(&mut source);
        assert!(rt; answer == *want, "step {step}, max {max}");
        match answer {
            Line::Whole(_) | Line::TooLong => {}
            Line::End | Line::Failed | Line::Budget => return,
        }
    }
}

#[test]
fn lines_by_length(rt: HostRuntime) -> Result<(), Fail> {
    const MAX: u64 = 1 << 40;
    let rows: [(&[(u8, usize)], &[Line]); 9] = [
        (&[], &[Line::End]),
        (
            &[(b'\n', 2), (b'a', 1)],
            &[Line::Whole(0), Line::Whole(0), Line::Whole(1), Line::End],
        ),
        (
            &[(b'a', 8_192), (b'\n', 1), (b'b', 2)],
            &[Line::Whole(8_192), Line::Whole(2), Line::End],
        ),
        (&[(b'a', 8_192)], &[Line::Whole(8_192), Line::End]),
        (
            &[(b'a', 8_193), (b'\n', 1), (b'b', 2)],
            &[Line::TooLong, Line::Whole(2), Line::End],
        ),
        (&[(b'a', 8_193)], &[Line::TooLong, Line::End]),
        (
            &[
                (b'a', 3),
                (b'\n', 1),
                (b'b', 20_000),
                (b'\n', 1),
                (b'c', 4),
                (b'\n', 1),
            ],
            &[Line::Whole(3), Line::TooLong, Line::Whole(4), Line::End],
        ),
        (
            &[
                (b'a', 8_000),
                (b'\n', 1),
                (b'b', 8_192),
                (b'\n', 1),
                (b'c', 8_192),
            ],
            &[
                Line::Whole(8_000),
                Line::Whole(8_192),
                Line::Whole(8_192),
                Line::End,
            ],
        ),
        (
            &[(b'a', 16_385), (b'\n', 2)],
            &[Line::TooLong, Line::Whole(0), Line::End],
        ),
    ];
    for (runs, expected) in rows {
        let text = text(rt.alloc(), runs)?;
        for step in STEPS {
            assert!(rt; step > 0);
            expect_answers(&rt, text.as_slice(), step, &[], MAX, expected);
        }
    }
    Ok(())
}

#[test]
fn budgets_and_faults(rt: HostRuntime) {
    // A text, the calls that fail at step 1, the bytes that count, the answers.
    let rows: [(&[u8], &[u64], u64, &[Line]); 11] = [
        (
            b"ab\ncd\n",
            &[],
            6,
            &[Line::Whole(2), Line::Whole(2), Line::End],
        ),
        (b"ab\ncd\n", &[], 5, &[Line::Whole(2), Line::Budget]),
        (b"ab\ncd\n", &[], 3, &[Line::Whole(2), Line::Budget]),
        (b"ab\ncd\n", &[], 2, &[Line::Budget]),
        (b"ab", &[], 2, &[Line::Whole(2), Line::End]),
        (b"ab", &[], 1, &[Line::Budget]),
        (b"", &[], 0, &[Line::End]),
        (b"a", &[], 0, &[Line::Budget]),
        (b"ab\ncd", &[0], 9, &[Line::Failed]),
        // A read that comes before the line is answered would fail.
        (b"ab\ncd", &[3], 9, &[Line::Whole(2), Line::Failed]),
        // After the end nothing is read.
        (b"ab", &[3], 9, &[Line::Whole(2), Line::End]),
    ];
    for (text, failing, max, expected) in rows {
        assert!(rt; max <= 9);
        expect_answers(&rt, text, 1, failing, max, expected);
    }
}

#[test]
fn lines_as_they_stand(rt: HostRuntime) {
    let mut source = MemorySource::new(b"one\r\n\n\xff\ntwo", 2, &[]);
    let mut buffer = LineBuffer::new(100);
    assert!(rt; buffer.line() == b"".as_slice());
    let rows: [(Line, &[u8]); 5] = [
        (Line::Whole(4), b"one\r"),
        (Line::Whole(0), b""),
        (Line::Whole(1), b"\xff"),
        (Line::Whole(3), b"two"),
        (Line::End, b""),
    ];
    for row in rows {
        let answer = buffer.next_line(&mut source);
        assert!(rt; answer == row.0, "{row:?}");
        assert!(rt; buffer.line() == row.1, "{row:?}");
        if answer == Line::End {
            return;
        }
    }
}

#[test]
fn memory_reads(rt: HostRuntime) {
    let mut source = MemorySource::new(b"abcdefgh", 5, &[1]);
    let mut buf = [0; 7];
    assert!(rt; source.read(&mut buf[..3]) == Ok(3));
    assert!(rt; source.read(&mut buf[3..]) == Err(Failed));
    assert!(rt; source.read(&mut buf[3..]) == Ok(4));
    assert!(rt; buf == *b"abcdefg");
    assert!(rt; source.read(&mut buf) == Ok(1));
    assert!(rt; source.read(&mut buf) == Ok(0));
}

#[test]
fn memory_writes(rt: HostRuntime) {
    let mut room = [0; 4];
    let mut sink = MemorySink::new(&mut room, 3, &[1]);
    assert!(rt; sink.write(b"abcd") == Ok(3));
    assert!(rt; sink.write(b"d") == Err(Failed));
    assert!(rt; sink.write(b"de") == Ok(1));
    assert!(rt; sink.write(b"e") == Err(Failed));
    assert!(rt; sink.write(b"") == Ok(0));
    assert!(rt; sink.bytes() == b"abcd".as_slice());
}

/// Some interruptions, then some faults, and then it goes well.
#[derive(Clone, Copy, Debug)]
struct Script {
    interrupts: u32,
    faults: u32,
}

impl Script {
    fn next(&mut self) -> io::Result<()> {
        if self.interrupts > 0 {
            self.interrupts -= 1;
            return Err(io::Error::from(ErrorKind::Interrupted));
        }
        if self.faults > 0 {
            self.faults -= 1;
            return Err(io::Error::from(ErrorKind::BrokenPipe));
        }
        Ok(())
    }
}

/// A reader and a writer that follow scripts, for at most `count` bytes at a call.
#[derive(Drop)]
struct Scripted {
    count: usize,
    bytes: Script,
    flush: Script,
}

impl Read for Scripted {
    fn read(&mut self, buf: &mut [u8]) -> io::Result<usize> {
        self.bytes.next()?;
        Ok(self.count.min(buf.len()))
    }
}

impl Write for Scripted {
    fn write(&mut self, buf: &[u8]) -> io::Result<usize> {
        self.bytes.next()?;
        Ok(self.count.min(buf.len()))
    }

    fn flush(&mut self) -> io::Result<()> {
        self.flush.next()
    }
}

const WELL: Script = Script {
    interrupts: 0,
    faults: 0,
};

const FAULT: Script = Script {
    interrupts: 1,
    faults: 1,
};

// So many interruptions, and no fault.
fn well(interrupts: u32) -> Script {
    Script {
        interrupts,
        faults: 0,
    }
}

// Interruptions are tried again, faults are not: behind one fault the next call goes well, and only the next.
#[test]
fn system_reads_are_tried_again(rt: HostRuntime) {
    let mut buf = [0; 4];
    // The bytes that a call gives, the script, and the answers of two reads.
    for (count, bytes, first, second) in [
        (3, WELL, Ok(3), Ok(3)),
        (9, well(2), Ok(4), Ok(4)),
        (3, FAULT, Err(Failed), Ok(3)),
        (3, well(65_535), Ok(3), Ok(3)),
        (3, well(65_536), Err(Failed), Ok(3)),
    ] {
        let mut source = StdSource::new(Scripted {
            count,
            bytes,
            flush: WELL,
        });
        assert!(rt; source.read(&mut buf) == first, "{bytes:?}");
        assert!(rt; source.read(&mut buf) == second, "{bytes:?}");
    }
}

// The same for a write and its flush.
#[test]
fn system_writes_are_tried_again(rt: HostRuntime) {
    for (count, bytes, flush, first, second) in [
        (3, WELL, WELL, Ok(3), Ok(3)),
        (9, well(2), well(3), Ok(4), Ok(4)),
        (3, FAULT, WELL, Err(Failed), Ok(3)),
        (3, WELL, FAULT, Err(Failed), Ok(3)),
        (0, WELL, WELL, Err(Failed), Err(Failed)),
        (3, well(65_535), well(65_535), Ok(3), Ok(3)),
        (3, well(65_536), WELL, Err(Failed), Ok(3)),
        (3, WELL, well(65_536), Err(Failed), Ok(3)),
    ] {
        let mut sink = StdSink::new(Scripted {
            count,
            bytes,
            flush,
        });
        assert!(rt; sink.write(b"abcd") == first, "{bytes:?} {flush:?}");
        assert!(rt; sink.write(b"abcd") == second, "{bytes:?} {flush:?}");
    }
}

#[test]
fn system_bytes(rt: HostRuntime) -> Result<(), Fail> {
    let mut source = StdSource::new(b"one\ntwo".as_slice());
    let mut buffer = LineBuffer::new(100);
    let mut written = Vec::new(rt.alloc());
    let mut sink = StdSink::new(&mut written);
    assert!(rt; buffer.next_line(&mut source) == Line::Whole(3));
    assert!(rt; sink.write(buffer.line()) == Ok(3));
    assert!(rt; sink.write(b"") == Ok(0));
    assert!(rt; written.as_slice() == b"one".as_slice());
    Ok(())
}

#[test]
fn lines_that_are_pending(rt: HostRuntime) {
    let mut source = MemorySource::new(b"ab\ncd\nef", 8, &[]);
    let mut buffer = LineBuffer::new(100);
    assert!(rt; buffer.next_pending() == None);
    assert!(rt; buffer.next_line(&mut source) == Line::Whole(2));
    assert!(rt; buffer.next_pending() == Some(Line::Whole(2)));
    assert!(rt; buffer.line() == b"cd".as_slice());
    assert!(rt; buffer.next_pending() == None);
    assert!(rt; buffer.next_line(&mut source) == Line::Whole(2));
    assert!(rt; buffer.line() == b"ef".as_slice());
    assert!(rt; buffer.next_line(&mut source) == Line::End);
}

#[test]
fn pending_bytes_that_do_not_count(rt: HostRuntime) {
    // Of these bytes five count.
    let mut source = MemorySource::new(b"ab\ncd\n", 8, &[]);
    let mut buffer = LineBuffer::new(5);
    assert!(rt; buffer.next_line(&mut source) == Line::Whole(2));
    assert!(rt; buffer.next_pending() == None);
    assert!(rt; buffer.next_line(&mut source) == Line::Budget);
}

#[test]
fn pieces_are_written_whole(rt: HostRuntime) {
    let mut room = [0; 16];
    let mut sink = MemorySink::new(&mut room, 3, &[4]);
    assert!(rt; write_all(&mut sink, b"abcdefg") == Ok(()));
    assert!(rt; write_all(&mut sink, b"") == Ok(()));
    assert!(rt; write_all(&mut sink, b"hijklmn") == Err(Failed));
    assert!(rt; sink.bytes() == b"abcdefghij".as_slice());
}

// A sink's bytes of a write, the write that fails, whether the pieces are lines, the pieces, what is written at a
// flush, and what is written once a byte more was put and flushed.
const GATHERED: [(usize, &[u64], bool, &[&[u8]], &[u8], &[u8]); 3] = [
    (
        64,
        &[],
        false,
        &[b"match\n", b"mismatch\n"],
        b"match\nmismatch\n",
        b"match\nmismatch\nx",
    ),
    (64, &[], true, &[b"match", b""], b"match\n\n", b"match\n\nx"),
    // Behind a failed write nothing is written.
    (4, &[1], false, &[b"match\n"], b"matc", b"matc"),
];

#[test]
fn gathered_until_a_flush(rt: HostRuntime) {
    for (step, failing, are_lines, pieces, flushed, more) in GATHERED {
        assert!(rt; step > 0);
        let mut room = [0; 64];
        let mut sink = MemorySink::new(&mut room, step, failing);
        let mut out = OutputBuffer::new();
        for piece in pieces {
            if are_lines {
                out.put_line(&mut sink, piece);
            } else {
                out.put(&mut sink, piece);
            }
        }
        assert!(rt; sink.bytes() == b"".as_slice(), "{step} {are_lines}");
        out.flush(&mut sink);
        assert!(rt; sink.bytes() == flushed, "{step} {are_lines}");
        assert!(rt;
            out.has_failed() == (failing.len() > 0),
            "{step} {are_lines}"
        );
        out.put(&mut sink, b"x");
        out.flush(&mut sink);
        assert!(rt; sink.bytes() == more, "{step} {are_lines}");
    }
}

#[test]
fn pieces_longer_than_the_buffer(rt: HostRuntime) {
    let piece = [b'a'; 16_385];
    let mut room = [0; 32_800];
    let mut sink = MemorySink::new(&mut room, 10_000, &[]);
    let mut out = OutputBuffer::new();
    out.put(&mut sink, b"b");
    out.put(&mut sink, &piece[..16_384]);
    assert!(rt; sink.bytes() == b"b".as_slice());
    out.put(&mut sink, &piece);
    assert!(rt; sink.bytes().len() == 32_770);
    out.flush(&mut sink);
    assert!(rt; sink.bytes().len() == 32_770);
}

#[test]
fn a_line_as_long_as_the_buffer(rt: HostRuntime) {
    let mut room = [0; 16_400];
    let mut sink = MemorySink::new(&mut room, 16_400, &[]);
    let mut out = OutputBuffer::new();
    out.put_line(&mut sink, &[b'a'; 16_384]);
    assert!(rt; sink.bytes().len() == 16_384);
    out.flush(&mut sink);
    assert!(rt; sink.bytes().len() == 16_385);
    assert!(rt; sink.bytes().last() == Some(&b'\n'));
}
