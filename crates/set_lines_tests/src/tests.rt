//! What lines give, in pieces of every size.

use line_io::{Failed, MemorySource, Source};
use set_lines::SetLines;
use std::test::Fail;

// Lines of users and texts, and the commands that they give.
const LINES: [(&[u8], &[u8]); 18] = [
    (b"", b""),
    (b"ann:$5\n", b"set\tann\t$5\n"),
    (b"ann:$5", b"set\tann\t$5\n"),
    // The text ends at the next colon: of shadow(5), passwd(5), and with an empty text.
    (
        b"ann:$6$x$y:19000:0:99999:7:::\nbob:!:1::\ncarl::\n",
        b"set\tann\t$6$x$y\nset\tbob\t!\nset\tcarl\t\n",
    ),
    (b"ann:*", b"set\tann\t*\n"),
    (b"ann:", b"set\tann\t\n"),
    (b"ann::", b"set\tann\t\n"),
    (b"ann:a:b:c\n:", b"set\tann\ta\nset\t\t\n"),
    // No colon, so no text: commands are none here either.
    (b"ann\n", b"set\tann\n"),
    (b"ann", b"set\tann\n"),
    (b"\n\nlist\n", b"set\t\nset\t\nset\tlist\n"),
    // A tab before the first colon is written as a colon, and one after it stays.
    (b"set\tann\t*\n", b"set\tset:ann:*\n"),
    (
        b"a\tb:*\na:b\tc:d\te\n\t:\t:\t\n",
        b"set\ta:b\t*\nset\ta\tb\tc\nset\t:\t\t\n",
    ),
    (b"a\t", b"set\ta:\n"),
    // Carriage returns, zero bytes and bytes that are no UTF-8 stay.
    (
        b"ann:x\r\n\r\n\0:\xFF\n",
        b"set\tann\tx\r\nset\t\r\nset\t\0\t\xFF\n",
    ),
    (b"Zo\xC3\xAB:$1$a$b:x", b"set\tZo\xC3\xAB\t$1$a$b\n"),
    (b" a b :x y \n", b"set\t a b \tx y \n"),
    (b"#ann:x\n# c\n", b"set\t#ann\tx\nset\t# c\n"),
];

// The bytes of a source, in reads of at most so many; whether it came to its end.
fn all_of<S: Source>(source: &mut S, room: usize, out: &mut Vec<u8>) -> Result<bool, Fail> {
    let mut buf = [0; 64];
    for _ in 0..20_000 {
        match source.read(&mut buf[..room.min(64)]) {
            Ok(0) => return Ok(true),
            Ok(count) => {
                for b in &buf[..count.min(64)] {
                    out.push(*b)?;
                }
            }
            Err(Failed) => return Ok(false),
        }
    }
    Ok(false)
}

#[test]
fn lines_in_pieces(rt: HostRuntime) -> Result<(), Fail> {
    for (lines, given) in LINES {
        for (step, room) in [(1, 7), (2, 1), (5, 64), (999, 3)] {
            let mut source = SetLines::new(MemorySource::new(lines, step, &[]));
            let mut out = Vec::new(rt.alloc());
            assert!(rt; all_of(&mut source, room, &mut out)?, "{step}, {room}");
            assert!(rt; out.as_slice() == given, "{lines:?}: {step}, {room}");
        }
    }
    Ok(())
}

// More bytes than one read takes, of which the last line has the most.
#[test]
fn a_line_longer_than_a_piece(rt: HostRuntime) -> Result<(), Fail> {
    let mut lines = Vec::new(rt.alloc());
    let mut given = Vec::new(rt.alloc());
    for b in b"ann:x\nbob:" {
        lines.push(*b)?;
    }
    for b in b"set\tann\tx\nset\tbob\t" {
        given.push(*b)?;
    }
    for _ in 0..15_000 {
        lines.push(b'y')?;
        given.push(b'y')?;
    }
    for b in b":z\ncarl:!" {
        lines.push(*b)?;
    }
    for b in b"\nset\tcarl\t!\n" {
        given.push(*b)?;
    }
    let mut source = SetLines::new(MemorySource::new(&lines, 20_000, &[]));
    let mut out = Vec::new(rt.alloc());
    assert!(rt; all_of(&mut source, 64, &mut out)?);
    assert!(rt; out.as_slice() == given.as_slice());
    Ok(())
}

// Each read that fails is a failed read here, and no byte is lost by it.
#[test]
fn reads_that_fail(rt: HostRuntime) -> Result<(), Fail> {
    for (failing, before) in [
        (0u64, b"".as_slice()),
        (1, b"set\tann\t"),
        (2, b"set\tann\t*\nset\tbo"),
        (3, b"set\tann\t*\nset\tbob\t!"),
    ] {
        let fails = [failing];
        let mut source = SetLines::new(MemorySource::new(b"ann:*\nbob:!", 4, &fails));
        let mut out = Vec::new(rt.alloc());
        assert!(rt; !all_of(&mut source, 64, &mut out)?, "at {failing}");
        assert!(rt; out.as_slice() == before, "at {failing}");
        assert!(rt; all_of(&mut source, 64, &mut out)?, "after {failing}");
        assert!(rt;
            out.as_slice() == b"set\tann\t*\nset\tbob\t!\n".as_slice(),
            "after {failing}"
        );
    }
    Ok(())
}
