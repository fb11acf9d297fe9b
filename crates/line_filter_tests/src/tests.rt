//! What is given of a text, in pieces of every size, and what is met in it.

use line_filter::{Filtered, LineForms, Met, Noticed, passed_message};
use line_io::{Failed, MemorySource, Source};
use std::test::Fail;

const PLAIN: LineForms = LineForms::PLAIN;

const CRLF: LineForms = LineForms {
    crlf: true,
    htpasswd: false,
};

const HTPASSWD: LineForms = LineForms {
    crlf: false,
    htpasswd: true,
};

const BOTH: LineForms = LineForms {
    crlf: true,
    htpasswd: true,
};

// The forms, a text, and what is given of it.
const TEXTS: [(LineForms, &[u8], &[u8]); 34] = [
    (
        PLAIN,
        b"\xEF\xBB\xBFa\r\n#b\n\n",
        b"\xEF\xBB\xBFa\r\n#b\n\n",
    ),
    (CRLF, b"", b""),
    (CRLF, b"a\r\nb\r\n", b"a\nb\n"),
    (CRLF, b"a\r\nb", b"a\nb"),
    (CRLF, b"a\nb\r\n", b"a\nb\n"),
    (CRLF, b"a\r\r\nb\r\n", b"a\r\nb\n"),
    (CRLF, b"a\rb\r\n\rc\n", b"a\rb\n\rc\n"),
    (CRLF, b"a\r\nb\r", b"a\nb\r"),
    (CRLF, b"\r\n\r\n\n", b"\n\n\n"),
    (CRLF, b"\r", b"\r"),
    (CRLF, b"\r\r", b"\r\r"),
    (CRLF, b"#a\r\n\r\n", b"#a\n\n"),
    (CRLF, b"\xEF\xBB\xBFa\r\nb\n", b"a\nb\n"),
    (CRLF, b"\xEF\xBB\xBF", b""),
    (CRLF, b"\xEF\xBB\xBF\r\n", b"\n"),
    (CRLF, b"\xEF\xBB\xBF\xEF\xBB\xBFa", b"\xEF\xBB\xBFa"),
    (CRLF, b"a\n\xEF\xBB\xBFb\n", b"a\n\xEF\xBB\xBFb\n"),
    (CRLF, b"\xEF", b"\xEF"),
    (CRLF, b"\xEF\xBB", b"\xEF\xBB"),
    (CRLF, b"\xEF\r\n", b"\xEF\n"),
    (CRLF, b"\xEF\xBB\r\n", b"\xEF\xBB\n"),
    (CRLF, b"\xEF\xBB\xBE\r\n", b"\xEF\xBB\xBE\n"),
    (CRLF, b"\xEF\xEF\xBB\xBF\n", b"\xEF\xEF\xBB\xBF\n"),
    (HTPASSWD, b"", b""),
    (HTPASSWD, b"#a\nb\n\nc\n", b"b\nc\n"),
    (HTPASSWD, b"\n\n#a\n#\n", b""),
    (HTPASSWD, b"a#b\n #c\n", b"a#b\n #c\n"),
    (HTPASSWD, b"a\n#b", b"a\n"),
    (HTPASSWD, b"a\nb", b"a\nb"),
    (HTPASSWD, b"\r\n#a\r\nb\r\n", b"\r\nb\r\n"),
    (HTPASSWD, b"\xEF\xBB\xBF#a\n", b"\xEF\xBB\xBF#a\n"),
    (BOTH, b"\xEF\xBB\xBF#a\r\n\r\nb\r\n\r", b"b\n\r"),
    (BOTH, b"#a\r\nb\r\n#c\r", b"b\n"),
    (BOTH, b"\r\r\n#\r\r\nb\r", b"\r\nb\r"),
];

// The bytes of a source, in reads of at most so many.
fn all_of<S: Source>(source: &mut S, room: usize, out: &mut Vec<u8>) -> Result<bool, Fail> {
    let mut buf = [0; 8];
    for _ in 0..100 {
        match source.read(&mut buf[..room.min(8)]) {
            Ok(0) => return Ok(true),
            Ok(count) => {
                for b in &buf[..count.min(8)] {
                    out.push(*b)?;
                }
            }
            Err(Failed) => return Ok(false),
        }
    }
    Ok(false)
}

#[test]
fn texts_in_pieces(rt: HostRuntime) -> Result<(), Fail> {
    for (forms, text, given) in TEXTS {
        for step in 1..5 {
            for room in 1..4 {
                let mut source = Filtered::new(forms, MemorySource::new(text, step, &[]));
                let mut out = Vec::new(rt.alloc());
                assert!(rt; all_of(&mut source, room, &mut out)?, "{text:?}");
                assert!(rt; out.as_slice() == given, "{text:?}, {step}, {room}");
            }
        }
    }
    Ok(())
}

// A text, the lines that end with a carriage return, whether it begins with a mark, and what is said.
const METS: [(&[u8], u64, bool, &[u8]); 11] = [
    (b"", 0, false, b""),
    (b"a\nb\n", 0, false, b""),
    (b"a\r\nb\n", 1, false, b"1 line ends with a carriage return"),
    (
        b"a\r\nb\r\r\n\r\nc\r",
        3,
        false,
        b"3 lines end with a carriage return",
    ),
    (b"\r\rb\r", 0, false, b""),
    (
        b"\xEF\xBB\xBFa\n",
        0,
        true,
        b"the first line begins with a byte order mark",
    ),
    (
        b"\xEF\xBB\xBF\r\n",
        1,
        true,
        b"the first line begins with a byte order mark, 1 line ends with a carriage return",
    ),
    (b"\xEF\xBB", 0, false, b""),
    (b"\xEF\xBB\xBEa", 0, false, b""),
    (b"a\xEF\xBB\xBF\n", 0, false, b""),
    (
        b"\xEF\xEF\xBB\xBF\r\n",
        1,
        false,
        b"1 line ends with a carriage return",
    ),
];

#[test]
fn what_is_met(rt: HostRuntime) -> Result<(), Fail> {
    for (text, returns, has_mark, words) in METS {
        for step in 1..5 {
            let mut source = Noticed::new(MemorySource::new(text, step, &[]));
            let mut out = Vec::new(rt.alloc());
            assert!(rt; all_of(&mut source, 7, &mut out)?, "{text:?}");
            assert!(rt; out.as_slice() == text, "{text:?}");
            let met = source.met();
            assert!(rt; met == Met { returns, has_mark }, "{text:?}: {met:?}");
            assert!(rt; met.message().as_slice() == words, "{text:?}");
        }
    }
    Ok(())
}

// A text, the lines of it that are empty or begin with `#`, and what is said.
const PASSED: &[(&[u8], u64, &[u8])] = &[
    (b"", 0, b""),
    (b"ann:x\nbob:#y\n", 0, b""),
    (b"\n", 1, b"1 line is empty or begins with #"),
    (b"#", 1, b"1 line is empty or begins with #"),
    (
        b"# a\n\nann:x\n\n\n##\nb#\n",
        5,
        b"5 lines are empty or begin with #",
    ),
    (b"\r\n #\n\t\n", 0, b""),
    (
        b"ann:0123456789abcdef0123456789abcdef\n#bob:0123456789abcdef\ncarl:x",
        1,
        b"1 line is empty or begins with #",
    ),
    (
        b"ann:0123456789abcdef0123456789abcdef\n\n",
        1,
        b"1 line is empty or begins with #",
    ),
    (
        b"0123456789abcde\n\n123456789abcde\n#0123456789abcdef\n\n",
        3,
        b"3 lines are empty or begin with #",
    ),
    (
        b"0123456789abcde\n0123456789abcde\n#",
        1,
        b"1 line is empty or begins with #",
    ),
];

// In reads of these many bytes at most.
const STEPS: &[usize] = &[1, 2, 16, 17, 100];

#[test]
fn lines_that_are_passed_over(rt: HostRuntime) -> Result<(), Fail> {
    for (text, count, words) in PASSED {
        for step in STEPS {
            let mut source = Noticed::new(MemorySource::new(text, *step, &[]));
            let mut out = Vec::new(rt.alloc());
            assert!(rt; all_of(&mut source, 100, &mut out)?, "{text:?}");
            assert!(rt; source.passed_over() == *count, "{text:?}");
        }
        assert!(rt; passed_message(*count).as_slice() == *words, "{text:?}");
    }
    Ok(())
}

#[test]
fn reads_that_fail(rt: HostRuntime) -> Result<(), Fail> {
    for forms in [PLAIN, BOTH] {
        let mut source = Filtered::new(
            forms,
            Noticed::new(MemorySource::new(b"a\r\n#b\nc\r\n", 2, &[1, 2])),
        );
        let mut out = Vec::new(rt.alloc());
        assert!(rt; !all_of(&mut source, 8, &mut out)?);
        let given: &[u8] = if forms == PLAIN { b"a\r" } else { b"a" };
        assert!(rt; out.as_slice() == given, "{forms:?}");
        assert!(rt; !all_of(&mut source, 8, &mut out)?);
        assert!(rt; all_of(&mut source, 8, &mut out)?);
        let given: &[u8] = if forms == PLAIN {
            b"a\r\n#b\nc\r\n"
        } else {
            b"a\nc\n"
        };
        assert!(rt; out.as_slice() == given, "{forms:?}");
        assert!(rt; source.source().met().returns == 2);
    }
    Ok(())
}
