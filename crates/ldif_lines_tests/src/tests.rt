//! What dumps give, in pieces of every size.

use ldif_lines::{FileForm, LdifLines};
use line_io::{Failed, MemorySource, Source};
use std::test::Fail;

// A dump, and the lines of users and texts that it gives. The texts in Base64 were made by base64(1).
const DUMPS: [(&[u8], &[u8]); 41] = [
    (b"", b""),
    (b"\n\n\n", b""),
    (b"dn: uid=a\nuid: a\nuserPassword: x\n", b"a:x\n"),
    (b"dn: uid=a\nuid: a\nuserPassword: x", b"a:x\n"),
    (b"dn: uid=a\nuid: a\nuserPassword: x\n\n", b"a:x\n"),
    // The password before the name, and all in Base64.
    (b"dn: uid=a\nuserPassword: x\nuid: a\n", b"a:x\n"),
    (
        b"dn:: dWlkPWE=\nuserPassword:: eA==\nuid:: w6TDtg==\n",
        b"\xC3\xA4\xC3\xB6:x\n",
    ),
    // Entries after one another, and what is between them.
    (
        b"version: 1\n\ndn: 1\nuid: a\nuserPassword: x\n\n\n\ndn: 2\nuserPassword: y\nuid: b\n",
        b"a:x\nb:y\n",
    ),
    (
        b"version: 1\ndn: 1\nuid: a\nuserPassword: x\ndn: 2\nuserPassword: y\nuid: b\n",
        b"a:x\nb:y\n",
    ),
    (
        b"# c\ndn: 1\n# uid: c\nuid: a\n#userPassword: c\nuserPassword: x\n",
        b"a:x\n",
    ),
    // A comment goes on too.
    (b"dn: 1\nuid: a\n# c\n userPassword: x\n", b""),
    // Several texts, several names, and none.
    (
        b"dn: 1\nuserPassword: x\nuid: a\nuid: b\nuserPassword: y\nuserPassword: z\n",
        b"a:x\na:y\na:z\n",
    ),
    (b"dn: 1\nuid: a\ncn: x\n", b""),
    (b"dn: cn=r,dc=d\ncn: r\nuserPassword: x\n", b"cn=r,dc=d:x\n"),
    (b"cn: r\nuserPassword: x\n", b"\t:x\n"),
    // The next entry doesn't get the name or the text of the one before.
    (
        b"dn: 1\nuid: a\n\nuserPassword: x\n\ndn: 3\nuid: c\n",
        b"\t:x\n",
    ),
    (
        b"dn: 1\nuserPassword: x\n\nuid: b\n\nuserPassword: z\nuid: c\n",
        b"1:x\nc:z\n",
    ),
    // Names of attributes.
    (b"DN: 1\nUID: a\nUSERPASSWORD: x\n", b"a:x\n"),
    (
        b"dn: 1\nuid;lang-de: a\nuserPassword;x-old: x\nuserPassword;a;b:: eQ==\n",
        b"a:x\na:y\n",
    ),
    (
        b"dn: 1\nuid: a\nuserPasswords: x\nuserPasswor: y\n userPassword: z\nuidNumber: 7\nuid Number: 8\n",
        b"",
    ),
    (
        b"dn: 1\nuid: a\nuserPassword\nuserPassword;x\n",
        b"a:\xFF\n",
    ),
    // Folded lines.
    (
        b"dn: 1\nuid: a\nuserPassword: {CRYPT}$6$\n salt$\n hash\n",
        b"a:{CRYPT}$6$salt$hash\n",
    ),
    (
        b"dn: 1\nu\n id: a\nuserPassword:: e0NSWVBUfSQ2JHN\n hbHQkaGFzaA==\n",
        b"a:{CRYPT}$6$salt$hash\n",
    ),
    (b"dn: 1\nuid: a\nuserPassword: x\n  y\n \n z\n", b"a:x yz\n"),
    (b"dn: 1\nuid: a\nuserPassword: x\n ", b"a:x\n"),
    // An empty line doesn't go on.
    (
        b"dn: 1\nuid: a\nuserPassword: x\n\n uid: b\nuserPassword: y\n",
        b"a:x\n\t:y\n",
    ),
    (b" dn: 1\nuid: a\nuserPassword: x\n", b"a:x\n"),
    // Spaces before a value, and at its end.
    (
        b"dn:1\nuid:a\nuserPassword:   x  \nuserPassword::   eQ==\nuserPassword:\nuserPassword: \n",
        b"a:x  \na:y\na:\na:\n",
    ),
    (
        b"dn: 1\nuid: a\nuserPassword::\nuserPassword:\tx\n",
        b"a:\na:\tx\n",
    ),
    // What isn't there: an address, and no Base64.
    (
        b"dn: 1\nuid: a\nuserPassword:< file:///etc/x\nuserPassword:: eA=\nuserPassword:: eA==x\n",
        b"a:\xFF\na:\xFF\na:\xFF\n",
    ),
    (b"dn: 1\nuid:: eA=\nuserPassword: x\n", b"\t:x\n"),
    (
        b"dn: 1\nuid:< file:///x\nuid: a\nuserPassword: x\n",
        b"\t:x\n",
    ),
    (b"dn:: eA=\nuserPassword: x\n", b"\t:x\n"),
    // Values that no line has: a line feed in a text, a colon, a tab or a line feed in a name.
    (
        b"dn: 1\nuid: a\nuserPassword:: eAp5\nuserPassword: z\n",
        b"a:\xFF\na:z\n",
    ),
    (
        b"dn: 1\nuid: a\nuserPassword: x:y\nuserPassword:: eDp5\n",
        b"a:x:y\na:x:y\n",
    ),
    (b"dn: 1\nuid: a:b\nuserPassword: x\n", b"\t:x\n"),
    (b"dn: 1\nuid:: YQli\nuserPassword: x\n", b"\t:x\n"),
    (b"dn: 1\nuid:: YQpi\nuserPassword: x\n", b"\t:x\n"),
    (b"dn: 1:2\nuserPassword: x\n", b"\t:x\n"),
    (b"dn: 1\nuid:\nuserPassword: x\n", b":x\n"),
    // Bytes that are no text.
    (b"dn: 1\nuid: a\nuserPassword:: AP8N\n", b"a:\x00\xFF\r\n"),
];

// The bytes of a source, in reads of at most so many; whether it came to its end.
fn all_of<S: Source>(source: &mut S, room: usize, out: &mut Vec<u8>) -> Result<bool, Fail> {
    let mut buf = [0; 64];
    for _ in 0..20_000 {
        match source.read(&mut buf[..room.min(64)]) {
            Ok(0) => return Ok(true),
            Ok(count) => {
                for b in &buf[..count.min(64)] {
                    out.push(*b)?;
                }
            }
            Err(Failed) => return Ok(false),
        }
    }
    Ok(false)
}

#[test]
fn dumps_in_pieces(rt: HostRuntime) -> Result<(), Fail> {
    for (dump, given) in DUMPS {
        for (step, room) in [(1, 7), (2, 1), (5, 64), (999, 3)] {
            let mut source = LdifLines::new(FileForm::Ldif, MemorySource::new(dump, step, &[]));
            let mut out = Vec::new(rt.alloc());
            assert!(rt; all_of(&mut source, room, &mut out)?, "{dump:?}");
            assert!(rt;
                out.as_slice() == given,
                "{dump:?}: {out:?}, {step}, {room}"
            );
        }
    }
    Ok(())
}

// Pushes so many of a byte.
fn push_many(dump: &mut Vec<u8>, b: u8, count: usize) -> Result<(), Fail> {
    for _ in 0..count {
        dump.push(b)?;
    }
    Ok(())
}

fn push_bytes(dump: &mut Vec<u8>, bytes: &[u8]) -> Result<(), Fail> {
    for b in bytes {
        dump.push(*b)?;
    }
    Ok(())
}

// The bytes and the lines that a dump gives with a text of so many bytes, and a short entry after that.
fn sizes_with(rt: &HostRuntime, front: &[u8], count: usize) -> Result<(usize, usize), Fail> {
    let mut dump = Vec::new(rt.alloc());
    push_bytes(&mut dump, front)?;
    push_many(&mut dump, b'A', count)?;
    push_bytes(&mut dump, b"\n\nuid: b\nuserPassword: y\n")?;
    let mut source = LdifLines::new(
        FileForm::Ldif,
        MemorySource::new(dump.as_slice(), 4_096, &[]),
    );
    let mut out = Vec::new(rt.alloc());
    if !all_of(&mut source, 64, &mut out)? {
        return Ok((0, 0));
    }
    let mut lines: usize = 0;
    for b in &out {
        if *b == b'\n' {
            lines = lines.saturating_add(1);
        }
    }
    Ok((out.len(), lines))
}

// How a text begins, how many bytes more it has, and how many bytes and lines the dump gives; `b:y` is always the last one.
const SIZES: [(&[u8], usize, usize, usize); 9] = [
    (b"uid: a\nuserPassword: ", 16_381, 12_281, 2),
    (
        b"uid: a\nuserPassword: x\nuserPassword: ",
        12_274,
        12_285,
        3,
    ),
    (b"uid: a\nuserPassword: x\nuserPassword: ", 4, 15, 3),
    (
        b"uid: a\nuserPassword: x\nuserPassword: z\nuserPassword: ",
        8_192,
        8_207,
        4,
    ),
    // 12,288 bytes of a line count: 14 of the name, and 12,274 of the text.
    (b"uid: a\nuserPassword: ", 12_274, 12_281, 2),
    (b"uid: a\nuserPassword: ", 99_999, 12_281, 2),
    // Base64 of 9,204 bytes, and of more than count, whose end is lost.
    (b"uid: a\nuserPassword:: ", 12_272, 9_211, 2),
    (b"uid: a\nuserPassword:: ", 12_280, 8, 2),
    (b"uid: a\ndescription: ", 99_999, 4, 1),
];

#[test]
fn long_dumps(rt: HostRuntime) -> Result<(), Fail> {
    for (front, count, bytes, lines) in SIZES {
        let given = sizes_with(&rt, front, count)?;
        assert!(rt; given == (bytes, lines), "{front:?}, {count}: {given:?}");
    }
    Ok(())
}

// An entry whose lines have as many bytes as fit, and one byte more.
#[test]
fn full_entries(rt: HostRuntime) -> Result<(), Fail> {
    for (count, bytes) in [(8_184, 16_384 + 4), (8_185, 8_194 + 4)] {
        let mut dump = Vec::new(rt.alloc());
        push_bytes(&mut dump, b"userPassword: ")?;
        push_many(&mut dump, b'x', 8_189)?;
        push_bytes(&mut dump, b"\nuid: a\nuserPassword: 12\nuserPassword: ")?;
        push_many(&mut dump, b'y', count)?;
        push_bytes(&mut dump, b"\n\nuid: b\nuserPassword: y\n")?;
        let mut source = LdifLines::new(
            FileForm::Ldif,
            MemorySource::new(dump.as_slice(), 4_096, &[]),
        );
        let mut out = Vec::new(rt.alloc());
        assert!(rt; all_of(&mut source, 64, &mut out)?, "{count}");
        assert!(rt; out.len() == bytes, "{count}: {}", out.len());
        assert!(rt; out.as_slice().ends_with(b"\nb:y\n"), "{count}");
    }
    Ok(())
}

#[test]
fn reads_that_fail(rt: HostRuntime) -> Result<(), Fail> {
    let dump = b"dn: 1\nuid: a\nuserPassword: x\n\nuid: b\nuserPassword: y\n";
    let mut source = LdifLines::new(FileForm::Ldif, MemorySource::new(dump, 16, &[1, 2]));
    let mut out = Vec::new(rt.alloc());
    assert!(rt; !all_of(&mut source, 8, &mut out)?);
    assert!(rt; !all_of(&mut source, 8, &mut out)?);
    assert!(rt; out.is_empty());
    assert!(rt; all_of(&mut source, 8, &mut out)?);
    assert!(rt; out.as_slice() == b"a:x\nb:y\n".as_slice());
    Ok(())
}

#[test]
fn lines_as_they_are(rt: HostRuntime) -> Result<(), Fail> {
    let text = b"uid: a\nuserPassword: x\n\n y\n";
    let mut source = LdifLines::new(FileForm::Lines, MemorySource::new(text, 5, &[]));
    let mut out = Vec::new(rt.alloc());
    assert!(rt; all_of(&mut source, 7, &mut out)?);
    assert!(rt; out.as_slice() == text.as_slice());
    Ok(())
}
