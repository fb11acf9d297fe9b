//! Cut lines, and tables of passwords.

use line_io::{MemorySink, MemorySource, OutputBuffer};
use shadow_fields::{
    Loading, LoadingWanted, Passwords, cut_field, cut_user, is_locked, load_passwords, load_wanted,
    put_user,
};
use std::hash::RandomState;
use std::test::Fail;

#[test]
fn users_of_lines(rt: HostRuntime) {
    let rows: [(&[u8], Option<(&[u8], &[u8])>); 7] = [
        (b"ann:secret", Some((b"ann", b"secret"))),
        (b"ann:a:b\tc", Some((b"ann", b"a:b\tc"))),
        (b":secret", Some((b"", b"secret"))),
        (b"ann:", Some((b"ann", b""))),
        (b"ann", None),
        (b"", None),
        (b"a\tnn:secret", None),
    ];
    for (line, cut) in rows {
        assert!(rt; cut_user(line) == cut, "{line:?}");
    }
    assert!(rt; cut_field(b"$6$x:19000:0:99999:7:::") == b"$6$x".as_slice());
    assert!(rt; cut_field(b"*") == b"*".as_slice());
}

#[test]
fn locked_texts(rt: HostRuntime) {
    let rows: [(&[u8], bool); 15] = [
        (b"!", true),
        (b"!$6$x$y", true),
        (b"*", true),
        (b"*LK*", true),
        (b"$6$!*", false),
        (b"*NP*", true),
        (b"!!", true),
        // MySQL's PASSWORD('secret'), with small letters too; a digit fewer, one more, and none.
        (b"*14E65567ABDB5135D0CFD9A70B3032C179A49EE7", false),
        (b"*14e65567abdb5135d0cfd9a70b3032c179a49ee7", false),
        (b"*14E65567ABDB5135D0CFD9A70B3032C179A49EE", true),
        (b"*14E65567ABDB5135D0CFD9A70B3032C179A49EE70", true),
        (b"*14E65567ABDB5135D0CFD9A70B3032C179A49EEG", true),
        (b"!14E65567ABDB5135D0CFD9A70B3032C179A49EE7", true),
        (b"14E65567ABDB5135D0CFD9A70B3032C179A49EE7", false),
        (b"", false),
    ];
    for (text, locked) in rows {
        assert!(rt; is_locked(text) == locked, "{text:?}");
    }
}

#[test]
fn a_word_behind_its_user(rt: HostRuntime) {
    let mut room = [0; 32];
    let mut sink = MemorySink::new(&mut room, 32, &[]);
    let mut out = OutputBuffer::new();
    put_user(&mut out, &mut sink, b"ann", "match");
    out.flush(&mut sink);
    assert!(rt; sink.bytes() == b"ann\tmatch\n".as_slice());
}

#[test]
fn the_last_line_counts(rt: HostRuntime) -> Result<(), Fail> {
    let input = b"ann:one\nbob:two\nann:three:four\nnobody\n:five\nbob:".as_slice();
    let mut room = [0; 1];
    let mut sink = MemorySink::new(&mut room, 1, &[0]);
    let mut source = MemorySource::new(input, 5, &[]);
    let mut loading = Loading {
        passwords: Passwords::new(rt.alloc(), RandomState::new(&rt)?),
    };
    assert!(rt; load_passwords(&mut loading, &mut source, &mut sink, 100) == 1);
    let rows: [(&[u8], Option<&[u8]>); 5] = [
        (b"ann", Some(b"three:four")),
        (b"bob", Some(b"")),
        (b"", Some(b"five")),
        (b"nobody", None),
        (b"an", None),
    ];
    for (user, password) in rows {
        assert!(rt; loading.passwords.get(user) == password, "{user:?}");
    }
    assert!(rt; loading.passwords.len() == 3);
    Ok(())
}

#[test]
fn statuses(rt: HostRuntime) -> Result<(), Fail> {
    let rows: [(&[u8], &[u64], u64, u8); 5] = [
        (b"", &[], 10, 0),
        (b"a:b\nc:d\n", &[], 10, 0),
        (b"a:b\nc\n", &[], 10, 1),
        (b"a:b\nc:d\n", &[1], 10, 3),
        (b"a:b\nc:d\n", &[], 7, 6),
    ];
    for (input, failing, max, status) in rows {
        let mut room = [0; 1];
        let mut sink = MemorySink::new(&mut room, 1, &[]);
        let mut source = MemorySource::new(input, 3, failing);
        let mut loading = Loading {
            passwords: Passwords::new(rt.alloc(), RandomState::new(&rt)?),
        };
        let got = load_passwords(&mut loading, &mut source, &mut sink, max);
        assert!(rt; got == status, "{input:?}");
    }
    Ok(())
}

#[test]
fn wanted_users_alone(rt: HostRuntime) -> Result<(), Fail> {
    let mut users = Passwords::new(rt.alloc(), RandomState::new(&rt)?);
    users.put(b"ann", b"")?;
    users.put(b"eve", b"x")?;
    assert!(rt; users.has(b"ann"));
    assert!(rt; !users.has(b"bob"));
    let mut loading = LoadingWanted {
        passwords: Passwords::new(rt.alloc(), RandomState::new(&rt)?),
        users,
    };
    let input = b"ann:one\nbob:two\nann:three:four\nnobody\n:five\nbob:".as_slice();
    let mut room = [0; 1];
    let mut sink = MemorySink::new(&mut room, 1, &[0]);
    let mut source = MemorySource::new(input, 5, &[]);
    assert!(rt; load_wanted(&mut loading, &mut source, &mut sink, 100) == 1);
    let rows: [(&[u8], Option<&[u8]>); 5] = [
        (b"ann", Some(b"three:four")),
        (b"bob", None),
        (b"eve", None),
        (b"", None),
        (b"nobody", None),
    ];
    for (user, password) in rows {
        assert!(rt; loading.passwords.get(user) == password, "{user:?}");
    }
    assert!(rt; loading.passwords.len() == 1);
    Ok(())
}

#[test]
fn statuses_of_wanted_users(rt: HostRuntime) -> Result<(), Fail> {
    let rows: [(&[u8], &[u64], u64, u8); 5] = [
        (b"", &[], 10, 0),
        (b"a:b\nc:d\n", &[], 10, 0),
        (b"a:b\nc\n", &[], 10, 1),
        (b"a:b\nc:d\n", &[1], 10, 3),
        (b"a:b\nc:d\n", &[], 7, 6),
    ];
    for (input, failing, max, status) in rows {
        let mut users = Passwords::new(rt.alloc(), RandomState::new(&rt)?);
        users.put(b"a", b"")?;
        let mut loading = LoadingWanted {
            passwords: Passwords::new(rt.alloc(), RandomState::new(&rt)?),
            users,
        };
        let mut room = [0; 1];
        let mut sink = MemorySink::new(&mut room, 1, &[]);
        let mut source = MemorySource::new(input, 3, failing);
        let got = load_wanted(&mut loading, &mut source, &mut sink, max);
        assert!(rt; got == status, "{input:?}");
    }
    Ok(())
}
