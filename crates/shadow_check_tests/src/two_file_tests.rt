//! A small shadow file beside a great file of passwords, and users without a text. The texts are openssl's, of the password
//! `secret`.

use line_io::{MemorySink, MemorySource};
use shadow_check::{JoinEnd, TextJoin, run_join_fewer, run_no_text};
use std::hash::RandomState;
use std::test::Fail;

const TEXTS: &[u8] = b"root:!:19000:0:99999:7:::\n\
    ann:$1$abcdefgh$cHJi5PXp/ki/ktXzqlk6I1:19000:0:99999:7:::\n\
    carl:$1$abcdefgh$cHJi5PXp/ki/ktXzqlk6I1:\n\
    empty::19000:0\n\
    nobody\n\
    ann:$1$abcdefgh$dHJi5PXp/ki/ktXzqlk6I1\n";

const PASSWORDS: &[u8] =
    b"eve:secret\nann:Secret\nbob:secret\nann:secret\nnobody\nempty:\nroot:x\nbob:two\n";

#[test]
fn each_user_by_the_passwords_that_are_needed(rt: HostRuntime) -> Result<(), Fail> {
    let mut room = [0; 200];
    let mut users = MemorySource::new(TEXTS, 9, &[]);
    let mut passwords = MemorySource::new(PASSWORDS, 11, &[]);
    let mut texts = MemorySource::new(TEXTS, 50, &[]);
    let mut sink = MemorySink::new(&mut room, 7, &[]);
    let joining = TextJoin {
        alloc: rt.alloc(),
        limits: None,
    };
    let end = run_join_fewer(
        rt.alloc(),
        RandomState::new(&rt)?,
        &joining,
        &mut users,
        &mut passwords,
        &mut texts,
        &mut sink,
        1_000,
    );
    assert!(rt; end == Ok(JoinEnd::Texts(1)));
    assert!(rt;
        sink.bytes()
            == b"root\tlocked\nann\tmatch\ncarl\tno-password\nempty\tempty\nbadline\nann\tmismatch\n".as_slice()
    );
    Ok(())
}

#[test]
fn a_user_who_came_between_the_readings_has_no_password(rt: HostRuntime) -> Result<(), Fail> {
    let mut room = [0; 64];
    let mut users = MemorySource::new(b"bob:*\n", 9, &[]);
    let mut passwords = MemorySource::new(b"ann:secret\nbob:secret\n", 11, &[]);
    let mut texts = MemorySource::new(
        b"ann:$1$abcdefgh$cHJi5PXp/ki/ktXzqlk6I1\nbob:$1$abcdefgh$cHJi5PXp/ki/ktXzqlk6I1\n",
        50,
        &[],
    );
    let mut sink = MemorySink::new(&mut room, 64, &[]);
    let joining = TextJoin {
        alloc: rt.alloc(),
        limits: None,
    };
    let end = run_join_fewer(
        rt.alloc(),
        RandomState::new(&rt)?,
        &joining,
        &mut users,
        &mut passwords,
        &mut texts,
        &mut sink,
        1_000,
    );
    assert!(rt; end == Ok(JoinEnd::Texts(1)));
    assert!(rt; sink.bytes() == b"ann\tno-password\nbob\tmatch\n".as_slice());
    Ok(())
}

// The reads of users, of passwords and of texts and the writes that fail, the most bytes, the output and the end.
type ThreeFiles = (
    &'static [u64],
    &'static [u64],
    &'static [u64],
    &'static [u64],
    u64,
    &'static [u8],
    Result<JoinEnd, u8>,
);

const THREE_FILES: [ThreeFiles; 7] = [
    (
        &[],
        &[],
        &[],
        &[],
        100,
        b"ann\tmatch\n",
        Ok(JoinEnd::Texts(0)),
    ),
    (&[1], &[], &[], &[], 100, b"", Err(3)),
    (&[], &[1], &[], &[], 100, b"", Ok(JoinEnd::Passwords(3))),
    (&[], &[], &[1], &[], 100, b"", Ok(JoinEnd::Texts(3))),
    (&[], &[], &[], &[0], 100, b"", Ok(JoinEnd::Texts(4))),
    (&[], &[], &[], &[], 10, b"", Err(6)),
    (&[], &[], &[], &[], 42, b"", Ok(JoinEnd::Passwords(6))),
];

#[test]
fn ends_of_three_files(rt: HostRuntime) -> Result<(), Fail> {
    for (bad_users, bad_passwords, bad_texts, bad_writes, max, output, wanted) in THREE_FILES {
        let text = b"ann:$1$abcdefgh$cHJi5PXp/ki/ktXzqlk6I1\n".as_slice();
        let mut room = [0; 40];
        let mut users = MemorySource::new(text, 8, bad_users);
        let mut passwords = MemorySource::new(
            b"ann:secret\nbob:a password that no text has\n",
            8,
            bad_passwords,
        );
        let mut texts = MemorySource::new(text, 30, bad_texts);
        let mut sink = MemorySink::new(&mut room, 40, bad_writes);
        let joining = TextJoin {
            alloc: rt.alloc(),
            limits: None,
        };
        let end = run_join_fewer(
            rt.alloc(),
            RandomState::new(&rt)?,
            &joining,
            &mut users,
            &mut passwords,
            &mut texts,
            &mut sink,
            max,
        );
        assert!(rt; end == wanted, "{end:?}, and not {wanted:?}");
        assert!(rt; sink.bytes() == output, "{wanted:?}");
    }
    Ok(())
}

#[test]
fn users_without_a_text(rt: HostRuntime) -> Result<(), Fail> {
    let mut room = [0; 100];
    let mut passwords = MemorySource::new(PASSWORDS, 11, &[]);
    let mut texts = MemorySource::new(TEXTS, 50, &[]);
    let mut sink = MemorySink::new(&mut room, 7, &[]);
    let keys = RandomState::new(&rt)?;
    let end = run_no_text(
        rt.alloc(),
        keys,
        &mut texts,
        &mut passwords,
        &mut sink,
        1_000,
    );
    assert!(rt; end == JoinEnd::Passwords(1));
    assert!(rt; sink.bytes() == b"eve\tno-text\nbob\tno-text\nbadline\nbob\tno-text\n".as_slice());
    Ok(())
}

#[test]
fn ends_of_users_without_a_text(rt: HostRuntime) -> Result<(), Fail> {
    let rows: [(&[u64], &[u64], &[u64], u64, &[u8], JoinEnd); 7] = [
        (&[], &[], &[], 100, b"bob\tno-text\n", JoinEnd::Passwords(1)),
        (&[1], &[], &[], 100, b"", JoinEnd::Texts(3)),
        (
            &[],
            &[2],
            &[],
            100,
            b"bob\tno-text\n",
            JoinEnd::Passwords(3),
        ),
        (&[], &[], &[0], 100, b"", JoinEnd::Passwords(4)),
        (&[], &[], &[], 5, b"", JoinEnd::Texts(6)),
        (&[], &[], &[], 6, b"bob\tno-text\n", JoinEnd::Passwords(6)),
        (&[], &[], &[], 17, b"bob\tno-text\n", JoinEnd::Passwords(1)),
    ];
    for (bad_texts, bad_passwords, bad_writes, max, output, wanted) in rows {
        let mut room = [0; 40];
        let mut texts = MemorySource::new(b"ann:*\n", 3, bad_texts);
        let mut passwords = MemorySource::new(b"bob:x\nann:secret\n", 6, bad_passwords);
        let mut sink = MemorySink::new(&mut room, 40, bad_writes);
        let keys = RandomState::new(&rt)?;
        let end = run_no_text(rt.alloc(), keys, &mut texts, &mut passwords, &mut sink, max);
        assert!(rt; end == wanted, "{end:?}, and not {wanted:?}");
        assert!(rt; sink.bytes() == output, "{wanted:?}");
    }
    Ok(())
}

#[test]
fn all_users_have_a_text(rt: HostRuntime) -> Result<(), Fail> {
    let mut room = [0; 4];
    let mut texts = MemorySource::new(b"ann:*\n", 3, &[]);
    let mut passwords = MemorySource::new(b"ann:x\nann:secret\n", 6, &[]);
    let mut sink = MemorySink::new(&mut room, 4, &[0]);
    let keys = RandomState::new(&rt)?;
    let end = run_no_text(rt.alloc(), keys, &mut texts, &mut passwords, &mut sink, 100);
    assert!(rt; end == JoinEnd::Passwords(0));
    Ok(())
}
