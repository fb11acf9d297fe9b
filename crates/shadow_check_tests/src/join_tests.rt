//! A shadow file beside passwords. The texts are openssl's, of the password `secret`.

use any_check::{Costs, NO_COSTS, SchemeCosts};
use line_io::{MemorySink, MemorySource};
use shadow_check::{JoinEnd, TextJoin, run_join};
use std::hash::RandomState;
use std::test::Fail;

// The least bound of each scheme but for SHA-crypt's rounds.
fn rounds_below(most: u64) -> SchemeCosts {
    SchemeCosts {
        sha_crypt: Costs {
            rounds: most,
            ..NO_COSTS
        },
        bcrypt: Costs {
            cost: 4,
            ..NO_COSTS
        },
        yescrypt: Costs {
            ln: 2,
            r: 1,
            t: 0,
            ..NO_COSTS
        },
        pbkdf2_sha256: Costs {
            rounds: 1,
            ..NO_COSTS
        },
        pbkdf2_sha512: Costs {
            rounds: 1,
            ..NO_COSTS
        },
        scrypt: Costs {
            ln: 1,
            r: 1,
            p: 1,
            ..NO_COSTS
        },
        argon2: Costs {
            m: 8,
            t: 1,
            p: 1,
            ..NO_COSTS
        },
    }
}

const PASSWORDS: &[u8] =
    b"ann:Secret\nbob:secret\nann:secret\neve:secret\nnobody\n:secret\n\xff:secret\n\
    bytes:\xff\nempty:\nlocked:secret\nroot:secret\nstar:secret\ncol:se:cret\nsha:secret\n";

const TEXTS: &[u8] = b"root:!:19000:0:99999:7:::\n\
    ann:$1$abcdefgh$cHJi5PXp/ki/ktXzqlk6I1:19000:0:99999:7:::\n\
    bob:$1$abcdefgh$dHJi5PXp/ki/ktXzqlk6I1\n\
    carl:$1$abcdefgh$cHJi5PXp/ki/ktXzqlk6I1:\n\
    locked:!$1$abcdefgh$cHJi5PXp/ki/ktXzqlk6I1::::::\n\
    star:*:::\n\
    empty::19000:0\n\
    eve:x:0:0\n\
    bytes:$1$abcdefgh$cHJi5PXp/ki/ktXzqlk6I1\n\
    :$1$abcdefgh$cHJi5PXp/ki/ktXzqlk6I1\n\
    \xff:$1$abcdefgh$cHJi5PXp/ki/ktXzqlk6I1:\xff\n\
    ann:$1$abcdefgh:rest\n\
    nobody\n\
    \n\
    ann:\xff\n\
    col:$1$abcdefgh$cHJi5PXp/ki/ktXzqlk6I1\n\
    sha:$5$abcdefgh$gruCpC7VkOTspMQTTSAR8mtlO9Upms.fwqE5y16JVM.:::";

const WORDS: &[u8] =
    b"root\tlocked\nann\tmatch\nbob\tmismatch\ncarl\tno-password\nlocked\tlocked\nstar\tlocked\n\
    empty\tempty\neve\tno-scheme\nbytes\tbadline\n\tmatch\n\xff\tmatch\nann\tmd5-format\nbadline\nbadline\nann\tbadline\n\
    col\tmismatch\n";

#[test]
fn each_user_by_the_last_password(rt: HostRuntime) -> Result<(), Fail> {
    for (limits, last) in [
        (None, b"sha\tmatch\n".as_slice()),
        (Some(rounds_below(5_000)), b"sha\tmatch\n"),
        (Some(rounds_below(4_999)), b"sha\ttoo-costly\n"),
    ] {
        let mut room = [0; 400];
        let mut passwords = MemorySource::new(PASSWORDS, 11, &[]);
        let mut texts = MemorySource::new(TEXTS, 50, &[]);
        let mut sink = MemorySink::new(&mut room, 7, &[]);
        let keys = RandomState::new(&rt)?;
        let joining = TextJoin {
            alloc: rt.alloc(),
            limits,
        };
        let end = run_join(
            rt.alloc(),
            keys,
            &joining,
            &mut passwords,
            &mut texts,
            &mut sink,
            1_000,
        );
        assert!(rt; end == JoinEnd::Texts(1), "{limits:?}");
        assert!(rt;
            sink.bytes().strip_prefix(WORDS) == Some(last),
            "{limits:?}"
        );
    }
    Ok(())
}

// The reads of passwords, of texts and the writes that fail, the most bytes, the output and the end.
const ENDS: [(&[u64], &[u64], &[u64], u64, &[u8], JoinEnd); 6] = [
    (&[], &[], &[], 100, b"ann\tmatch\n", JoinEnd::Texts(0)),
    (&[1], &[], &[], 100, b"", JoinEnd::Passwords(3)),
    (&[], &[1], &[], 100, b"", JoinEnd::Texts(3)),
    (&[], &[], &[0], 100, b"", JoinEnd::Texts(4)),
    (&[], &[], &[], 10, b"", JoinEnd::Passwords(6)),
    (&[], &[], &[], 11, b"", JoinEnd::Texts(6)),
];

#[test]
fn ends(rt: HostRuntime) -> Result<(), Fail> {
    for (bad_passwords, bad_texts, bad_writes, max, output, wanted) in ENDS {
        let mut room = [0; 40];
        let mut passwords = MemorySource::new(b"ann:secret\n", 8, bad_passwords);
        let mut texts = MemorySource::new(
            b"ann:$1$abcdefgh$cHJi5PXp/ki/ktXzqlk6I1\n",
            30,
            bad_texts,
        );
        let mut sink = MemorySink::new(&mut room, 40, bad_writes);
        let joining = TextJoin {
            alloc: rt.alloc(),
            limits: None,
        };
        let end = run_join(
            rt.alloc(),
            RandomState::new(&rt)?,
            &joining,
            &mut passwords,
            &mut texts,
            &mut sink,
            max,
        );
        assert!(rt; end == wanted, "{end:?}, and not {wanted:?}");
        assert!(rt; sink.bytes() == output, "{wanted:?}");
    }
    Ok(())
}

// Texts, the writes that fail, the output and the end. A user with a verdict is written at once, so that the second write comes
// after the first user. Users without a verdict wait.
const WRITES: [(&[u8], &[u64], &[u8], JoinEnd); 3] = [
    (
        TWO_TEXTS,
        &[],
        b"ann\tmatch\nbob\tmismatch\n",
        JoinEnd::Texts(1),
    ),
    (TWO_TEXTS, &[1], b"ann\tmatch\n", JoinEnd::Texts(4)),
    (
        b"ann:*\nbob:!\n",
        &[1],
        b"ann\tlocked\nbob\tlocked\n",
        JoinEnd::Texts(1),
    ),
];

const TWO_TEXTS: &[u8] = b"ann:$1$abcdefgh$cHJi5PXp/ki/ktXzqlk6I1\n\
    bob:$1$abcdefgh$cHJi5PXp/ki/ktXzqlk6I1\n";

#[test]
fn joined_users_written_after_a_verdict(rt: HostRuntime) -> Result<(), Fail> {
    for (held, failing, output, wanted) in WRITES {
        let mut room = [0; 40];
        let mut passwords = MemorySource::new(b"ann:secret\nbob:Secret\n", 1_000, &[]);
        let mut texts = MemorySource::new(held, 1_000, &[]);
        let mut sink = MemorySink::new(&mut room, 1_000, failing);
        let joining = TextJoin {
            alloc: rt.alloc(),
            limits: None,
        };
        let end = run_join(
            rt.alloc(),
            RandomState::new(&rt)?,
            &joining,
            &mut passwords,
            &mut texts,
            &mut sink,
            1_000,
        );
        assert!(rt; end == wanted, "{end:?}, and not {wanted:?}");
        assert!(rt; sink.bytes() == output, "{wanted:?}");
    }
    Ok(())
}
