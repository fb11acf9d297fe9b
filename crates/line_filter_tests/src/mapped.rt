//! Lines in the places of others, in pieces of every size.

use line_filter::{LineRule, MappedLines};
use line_io::{Failed, LINE_MAX, MemorySource, Source};
use pieces::short_bytes::ShortBytes;
use std::test::Fail;

// Each line in its own place.
#[derive(Drop)]
struct Same;

impl LineRule for Same {
    ghost rule = { λ _ line. line };

    fn line(&self, line: &[u8]) -> ShortBytes<LINE_MAX> {
        ShortBytes::from_slice(line)
    }
}

// The bytes of a source, in reads of at most so many; whether it came to its end.
fn all_of<S: Source>(source: &mut S, room: usize, out: &mut Vec<u8>) -> Result<bool, Fail> {
    let mut buf = [0; 9_000];
    for _ in 0..60_000 {
        match source.read(&mut buf[..room.min(9_000)]) {
            Ok(0) => return Ok(true),
            Ok(count) => {
                for b in &buf[..count.min(9_000)] {
                    out.push(*b)?;
                }
            }
            Err(Failed) => return Ok(false),
        }
    }
    Ok(false)
}

const TEXTS: [(&[u8], &[u8]); 7] = [
    (b"", b""),
    (b"ann", b"ann\n"),
    (b"ann\n", b"ann\n"),
    (b"\n", b"\n"),
    (b"\n\nann\n\nbob", b"\n\nann\n\nbob\n"),
    (b"a\r\n\0\n\xFF\n", b"a\r\n\0\n\xFF\n"),
    (b"ann\n\n", b"ann\n\n"),
];

#[test]
fn lines_in_pieces(rt: HostRuntime) -> Result<(), Fail> {
    for (text, given) in TEXTS {
        for (step, room) in [(1, 7), (2, 1), (5, 64), (999, 3)] {
            let mut source = MappedLines::new(Same, MemorySource::new(text, step, &[]));
            let mut out = Vec::new(rt.alloc());
            assert!(rt; all_of(&mut source, room, &mut out)?, "{step}, {room}");
            assert!(rt; out.as_slice() == given, "{text:?}: {step}, {room}");
        }
    }
    Ok(())
}

// Adds a line of so many bytes.
fn push_line(out: &mut Vec<u8>, byte: u8, count: usize) -> Result<(), Fail> {
    for _ in 0..count {
        out.push(byte)?;
    }
    out.push(b'\n')?;
    Ok(())
}

// A line of 8,192 bytes is one; one of more gives an empty one, wherever it stands.
#[test]
fn long_lines(rt: HostRuntime) -> Result<(), Fail> {
    let mut text = Vec::new(rt.alloc());
    let mut given = Vec::new(rt.alloc());
    for count in [8_192, 8_193, 3, 20_000, 8_194, 0] {
        push_line(&mut text, b'a', count)?;
        push_line(&mut given, b'a', if count > 8_192 { 0 } else { count })?;
    }
    for _ in 0..8_193 {
        text.push(b'b')?;
    }
    given.push(b'\n')?;
    for (step, room) in [(1_000, 9_000), (8_192, 500), (50_000, 9_000)] {
        let mut source = MappedLines::new(Same, MemorySource::new(&text, step, &[]));
        let mut out = Vec::new(rt.alloc());
        assert!(rt; all_of(&mut source, room, &mut out)?, "{step}, {room}");
        assert!(rt; out.as_slice() == given.as_slice(), "{step}, {room}");
    }
    Ok(())
}

// Each read that fails is a failed read here, and no byte is lost by it.
#[test]
fn reads_that_fail(rt: HostRuntime) -> Result<(), Fail> {
    for (failing, before) in [
        (0u64, b"".as_slice()),
        (1, b""),
        (2, b"ann:*\n"),
        (3, b"ann:*\n"),
    ] {
        let fails = [failing];
        let mut source = MappedLines::new(Same, MemorySource::new(b"ann:*\nbob:!", 4, &fails));
        let mut out = Vec::new(rt.alloc());
        assert!(rt; !all_of(&mut source, 64, &mut out)?, "at {failing}");
        assert!(rt; out.as_slice() == before, "at {failing}");
        assert!(rt; all_of(&mut source, 64, &mut out)?, "after {failing}");
        assert!(rt;
            out.as_slice() == b"ann:*\nbob:!\n".as_slice(),
            "after {failing}"
        );
    }
    Ok(())
}

// What a read gives has all lines of one read of the other source: what sets texts takes them as one group.
#[test]
fn lines_of_one_read(rt: HostRuntime) {
    let mut source = MappedLines::new(Same, MemorySource::new(b"ann:*\nbob:!\ncarl:*\n", 64, &[]));
    let mut buf = [0; 64];
    assert!(rt; source.read(&mut buf) == Ok(19));
    assert!(rt; &buf[..19] == b"ann:*\nbob:!\ncarl:*\n".as_slice());
}
