//! Each form over sources and sinks in memory, which have ample memory: the answer and the whole output. The texts are
//! openssl's, of the password `secret`.

use any_check::{Costs, NO_COSTS, SchemeCosts};
use line_io::{MemorySink, MemorySource};
use pwtool_forms::{check_lines, check_users, join_fewer, join_files, survey_lines, tell_no_text};
use shadow_check::JoinEnd;
use shadow_survey::{Format, RECOMMENDED_LEAST, SurveyLines};
use std::hash::RandomState;
use std::test::Fail;

// The least bound of each scheme.
const LIMITS: SchemeCosts = SchemeCosts {
    sha_crypt: Costs {
        rounds: 1_000,
        ..NO_COSTS
    },
    bcrypt: Costs {
        cost: 4,
        ..NO_COSTS
    },
    yescrypt: Costs {
        ln: 2,
        r: 1,
        t: 0,
        ..NO_COSTS
    },
    pbkdf2_sha256: Costs {
        rounds: 1,
        ..NO_COSTS
    },
    pbkdf2_sha512: Costs {
        rounds: 1,
        ..NO_COSTS
    },
    scrypt: Costs {
        ln: 1,
        r: 1,
        p: 1,
        ..NO_COSTS
    },
    argon2: Costs {
        m: 8,
        t: 1,
        p: 1,
        ..NO_COSTS
    },
};

const LINES: &[u8] = b"secret\t$1$abcdefgh$cHJi5PXp/ki/ktXzqlk6I1\n\
    secret\t$5$abcdefgh$gruCpC7VkOTspMQTTSAR8mtlO9Upms.fwqE5y16JVM.\n";

const USERS: &[u8] = b"ann:secret\t$1$abcdefgh$cHJi5PXp/ki/ktXzqlk6I1\n\
    eve:secret\t$5$abcdefgh$gruCpC7VkOTspMQTTSAR8mtlO9Upms.fwqE5y16JVM.\n";

const TEXTS: &[u8] = b"root:!:19000:0:99999:7:::\n\
    ann:$1$abcdefgh$cHJi5PXp/ki/ktXzqlk6I1:19000:0:99999:7:::\n\
    eve:$5$abcdefgh$gruCpC7VkOTspMQTTSAR8mtlO9Upms.fwqE5y16JVM.\n";

const PASSWORDS: &[u8] = b"bob:secret\nann:secret\neve:secret\n";

// Whether lines begin with a user, the bound, what is written for the two lines, and the status.
const BOUNDS: [(bool, Option<SchemeCosts>, &[u8], u8); 4] = [
    (false, None, b"match\nmatch\n", 0),
    (false, Some(LIMITS), b"match\ntoo-costly\n", 1),
    (true, None, b"ann\tmatch\neve\tmatch\n", 0),
    (true, Some(LIMITS), b"ann\tmatch\neve\ttoo-costly\n", 1),
];

#[test]
fn lines_with_and_without_users(rt: HostRuntime) {
    for (has_users, limits, output, wanted) in BOUNDS {
        let mut room = [0; 64];
        let mut source = MemorySource::new(if has_users { USERS } else { LINES }, 30, &[]);
        let mut sink = MemorySink::new(&mut room, 9, &[]);
        let status = if has_users {
            check_users(rt.alloc(), limits, &mut source, &mut sink)
        } else {
            check_lines(rt.alloc(), limits, &mut source, &mut sink)
        };
        assert!(rt;
            status == wanted,
            "users {has_users}, status {wanted}: {status}"
        );
        assert!(rt;
            sink.bytes() == output,
            "users {has_users}, status {wanted}"
        );
    }
}

const ROWS: &[u8] = b"root\t-\t-\tlocked\n\
    ann\tmd5-crypt\t-\tweak: md5-crypt\n\
    eve\tsha256-crypt\trounds=5000\tweak: 5000 rounds\n\n\
    1\tmd5-crypt weak\n1\tsha256-crypt weak\n1\tlocked\n";

#[test]
fn rows_of_a_survey(rt: HostRuntime) {
    let mut room = [0; 256];
    let mut source = MemorySource::new(TEXTS, 30, &[]);
    let mut sink = MemorySink::new(&mut room, 9, &[]);
    let mut lines = SurveyLines::new(RECOMMENDED_LEAST, Format::Tabs);
    assert!(rt; survey_lines(&mut lines, &mut source, &mut sink) == 1);
    assert!(rt; sink.bytes() == ROWS);
}

// The bound, and what is written for the users of the texts.
const JOINED: [(Option<SchemeCosts>, &[u8]); 2] = [
    (None, b"root\tlocked\nann\tmatch\neve\tmatch\n"),
    (Some(LIMITS), b"root\tlocked\nann\tmatch\neve\ttoo-costly\n"),
];

#[test]
fn users_of_two_files(rt: HostRuntime) -> Result<(), Fail> {
    for (limits, output) in JOINED {
        let mut room = [0; 64];
        let keys = RandomState::new(&rt)?;
        let mut passwords = MemorySource::new(PASSWORDS, 5, &[]);
        let mut texts = MemorySource::new(TEXTS, 30, &[]);
        let mut sink = MemorySink::new(&mut room, 9, &[]);
        let end = join_files(
            rt.alloc(),
            keys,
            limits,
            &mut passwords,
            &mut texts,
            &mut sink,
        );
        assert!(rt; end == JoinEnd::Texts(1), "{limits:?}");
        assert!(rt; sink.bytes() == output, "{limits:?}");
    }
    Ok(())
}

#[test]
fn users_of_a_small_and_a_great_file(rt: HostRuntime) -> Result<(), Fail> {
    for (limits, output) in JOINED {
        let mut room = [0; 64];
        let keys = RandomState::new(&rt)?;
        let mut users = MemorySource::new(TEXTS, 30, &[]);
        let mut passwords = MemorySource::new(PASSWORDS, 5, &[]);
        let mut texts = MemorySource::new(TEXTS, 40, &[]);
        let mut sink = MemorySink::new(&mut room, 9, &[]);
        let end = join_fewer(
            rt.alloc(),
            keys,
            limits,
            &mut users,
            &mut passwords,
            &mut texts,
            &mut sink,
        );
        assert!(rt; end == Ok(JoinEnd::Texts(1)), "{limits:?}");
        assert!(rt; sink.bytes() == output, "{limits:?}");
    }
    Ok(())
}

#[test]
fn passwords_without_a_text(rt: HostRuntime) -> Result<(), Fail> {
    let mut room = [0; 64];
    let keys = RandomState::new(&rt)?;
    let mut texts = MemorySource::new(TEXTS, 30, &[]);
    let mut passwords = MemorySource::new(PASSWORDS, 5, &[]);
    let mut sink = MemorySink::new(&mut room, 9, &[]);
    let end = tell_no_text(rt.alloc(), keys, &mut texts, &mut passwords, &mut sink);
    assert!(rt; end == JoinEnd::Passwords(1));
    assert!(rt; sink.bytes() == b"bob\tno-text\n".as_slice());
    Ok(())
}
