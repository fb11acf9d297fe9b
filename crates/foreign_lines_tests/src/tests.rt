//! Lines of foreign texts. The texts are Django's and passlib's, of the password `secret`.

use any_check::{Costs, NO_COSTS, SchemeCosts};
use application_texts::{Application, Maker};
use foreign_lines::{
    ForeignJoin, ForeignLines, LineForm, run_foreign, run_foreign_survey, run_foreign_users,
};
use foreign_text::Foreign;
use line_io::{MemorySink, MemorySource};
use shadow_check::{JoinEnd, run_join, run_join_fewer};
use shadow_survey::{Format, LeastCosts, RECOMMENDED_LEAST, SurveyLines};
use std::hash::RandomState;
use std::test::Fail;

// The bounds that each text below reaches, but for that on PBKDF2.
fn rounds_below(most: u64) -> SchemeCosts {
    SchemeCosts {
        sha_crypt: Costs {
            rounds: 5_000,
            ..NO_COSTS
        },
        bcrypt: Costs {
            cost: 4,
            ..NO_COSTS
        },
        yescrypt: Costs {
            ln: 2,
            r: 1,
            t: 0,
            ..NO_COSTS
        },
        pbkdf2_sha256: Costs {
            rounds: most,
            ..NO_COSTS
        },
        pbkdf2_sha512: Costs {
            rounds: most,
            ..NO_COSTS
        },
        scrypt: Costs {
            ln: 1,
            r: 1,
            p: 1,
            ..NO_COSTS
        },
        argon2: Costs {
            m: 64,
            t: 1,
            p: 1,
            ..NO_COSTS
        },
    }
}

const DJANGO: &[u8] =
    b"secret\tpbkdf2_sha256$1000$abcdefgh$GHUbOYNfzc/1XP2MWJxQ0OB83AthJA5LJEJcJ6ahzFY=\n\
    Secret\tpbkdf2_sha256$1000$abcdefgh$GHUbOYNfzc/1XP2MWJxQ0OB83AthJA5LJEJcJ6ahzFY=\n\
    secret\tpbkdf2_sha256$1001$abcdefgh$GHUbOYNfzc/1XP2MWJxQ0OB83AthJA5LJEJcJ6ahzFY=\n\
    secret\tpbkdf2_sha256$1000$abcdefgi$GHUbOYNfzc/1XP2MWJxQ0OB83AthJA5LJEJcJ6ahzFY=\n\
    secret\targon2$argon2id$v=19$m=64,t=1,p=1$c2FsdHNhbHRzYWx0$AC+v+iUUNjKqIQVBDjpkAw\n\
    secret\tbcrypt$$2b$04$abcdefghijklmnopqrstuu2r9OfJnfCsdneAXAGHnS4UpFFP8WIrW\n\
    secret\tbcrypt_sha256$$2b$04$abcdefghijklmnopqrstuuraR8y8jUb0UMmCc9fwl/YxKZSpSs52u\n\
    secret\tbcrypt_sha256$$2b$04$abcdefghijklmnopqrstuu2r9OfJnfCsdneAXAGHnS4UpFFP8WIrW\n\
    secret\tbcrypt_sha256$2b$04$abcdefghijklmnopqrstuu2r9OfJnfCsdneAXAGHnS4UpFFP8WIrW\n\
    secret\tpbkdf2_sha256$1000$seasalt$GHUbOYNfzc/1XP2MWJxQ0OB83AthJA5LJEJcJ6ahzFY=\n\
    \xff\tbcrypt_sha256$x\n\
    no tab\n\
    secret\t\n";

const DJANGO_WORDS: &[u8] =
    b"match\nmismatch\nmismatch\nmismatch\nmatch\nmatch\nmatch\nmismatch\nforeign-form\n\
    foreign-salt-length\nbadline\nbadline\nunsupported-scheme\n";

#[test]
fn lines_of_django(rt: HostRuntime) {
    let mut room = [0; 256];
    let mut source = MemorySource::new(DJANGO, 7, &[]);
    let mut sink = MemorySink::new(&mut room, 256, &[]);
    let status = run_foreign(
        rt.alloc(),
        Maker::Foreign(Foreign::Django),
        None,
        &mut source,
        &mut sink,
        10_000,
    );
    assert!(rt; status == 1);
    assert!(rt; sink.bytes() == DJANGO_WORDS);
}

// Only the first of the two texts is of more rounds than the bound allows.
#[test]
fn a_bound_on_cost(rt: HostRuntime) {
    let input =
        b"secret\t$pbkdf2-sha256$7$YWJjZGVmZ2g$oNzBqFb03A.goX/CUpviOBd1EZ5cZP30Ade7.vnhkhM\n";
    for (most, word, status) in [(6, b"too-costly\n".as_slice(), 1), (7, b"match\n", 0)] {
        let mut room = [0; 32];
        let mut source = MemorySource::new(input, 100, &[]);
        let mut sink = MemorySink::new(&mut room, 32, &[]);
        let limits = Some(rounds_below(most));
        let got = run_foreign(
            rt.alloc(),
            Maker::Foreign(Foreign::Passlib),
            limits,
            &mut source,
            &mut sink,
            10_000,
        );
        assert!(rt; got == status, "{most}: {got}");
        assert!(rt; sink.bytes() == word, "{most}");
    }
}

#[test]
fn lines_with_users(rt: HostRuntime) {
    let input =
        b"ann:secret\t{PBKDF2-SHA256}7$YWJjZGVmZ2g$oNzBqFb03A.goX/CUpviOBd1EZ5cZP30Ade7.vnhkhM\n\
        ben:secret\t{PBKDF2-SHA512}7$YWJjZGVmZ2g$QB4lyLY5MDmsMNUCYLZH2QEGr5FThdP3MvCnw5io4OWVGbSwILJD5krweRfPTiM/CyBlm7LPbnoEaD1M06jb3Q\n\
        ida:secret\t{PBKDF2-SHA512}7$YWJjZGVmZ2g$oNzBqFb03A.goX/CUpviOBd1EZ5cZP30Ade7.vnhkhM\n\
        bob:se:cret\t{CRYPT}$1$abcdefgh$cHJi5PXp/ki/ktXzqlk6I1\n\
        eve:secret\t{SSHA}L6MqW/E8Zcy4RBscEiQc50a14apW39jw\n\
        gus:secret\t{SSHA384}x\n\
        x\ty:secret\t{SSHA}x\n\
        carl:secret\t{CRYPT}ud03EAGigf5FA\n\
        zoe\n";
    let mut room = [0; 256];
    let mut source = MemorySource::new(input, 100, &[]);
    let mut sink = MemorySink::new(&mut room, 256, &[]);
    let status = run_foreign_users(
        rt.alloc(),
        Maker::Foreign(Foreign::Ldap),
        None,
        &mut source,
        &mut sink,
        10_000,
    );
    assert!(rt; status == 1);
    let words =
        b"ann\tmatch\nben\tmatch\nida\tmismatch\nbob\tmismatch\neve\tmatch\ngus\tunsupported-sha2\nbadline\ncarl\tunsupported-des-crypt\nbadline\n";
    assert!(rt; sink.bytes() == words.as_slice());
}

const PASSWORDS: &[u8] = b"ann:secret\nbob:Secret\neve:secret\nfay:secret\nlocked:secret\n";

const TEXTS: &[u8] =
    b"ann:{CRYPT}$5$rounds=1000$abcdefgh$XIppta5rT8zJUu4vAOKQXrwq9uY4Ijlz6VjyOmkx5i4:1:2\n\
    bob:{CRYPT}$1$abcdefgh$cHJi5PXp/ki/ktXzqlk6I1\n\
    carl:{CRYPT}$1$abcdefgh$cHJi5PXp/ki/ktXzqlk6I1:\n\
    eve:{PBKDF2-SHA1}10000$h9mAzwQsCiX/7tzWQTaCog$.3mAlciCR4Ycj85TV6YGTM43khc:\n\
    fay::\n\
    locked:{CRYPT}!$1$abcdefgh$cHJi5PXp/ki/ktXzqlk6I1:\n\
    clear:!{SSHA}x\n\
    nobody:{SSHA384}x\n\
    \n";

const JOINED: &[u8] = b"ann\tmatch\nbob\tmismatch\ncarl\tno-password\neve\tmatch\nfay\tempty\n\
    locked\tlocked\nclear\tunsupported-cleartext\nnobody\tunsupported-sha2\nbadline\n";

#[test]
fn users_beside_passwords(rt: HostRuntime) -> Result<(), Fail> {
    let mut room = [0; 256];
    let mut passwords = MemorySource::new(PASSWORDS, 9, &[]);
    let mut texts = MemorySource::new(TEXTS, 9, &[]);
    let mut sink = MemorySink::new(&mut room, 256, &[]);
    let joining = ForeignJoin {
        alloc: rt.alloc(),
        foreign: Maker::Foreign(Foreign::Ldap),
        limits: None,
    };
    let end = run_join(
        rt.alloc(),
        RandomState::new(&rt)?,
        &joining,
        &mut passwords,
        &mut texts,
        &mut sink,
        10_000,
    );
    assert!(rt; end == JoinEnd::Texts(1));
    assert!(rt; sink.bytes() == JOINED);
    Ok(())
}

#[test]
fn users_read_first(rt: HostRuntime) -> Result<(), Fail> {
    let mut room = [0; 256];
    let mut users = MemorySource::new(TEXTS, 100, &[]);
    let mut passwords = MemorySource::new(PASSWORDS, 9, &[]);
    let mut texts = MemorySource::new(TEXTS, 9, &[]);
    let mut sink = MemorySink::new(&mut room, 256, &[]);
    let joining = ForeignJoin {
        alloc: rt.alloc(),
        foreign: Maker::Foreign(Foreign::Ldap),
        limits: None,
    };
    let end = run_join_fewer(
        rt.alloc(),
        RandomState::new(&rt)?,
        &joining,
        &mut users,
        &mut passwords,
        &mut texts,
        &mut sink,
        10_000,
    );
    assert!(rt; end == Ok(JoinEnd::Texts(1)));
    assert!(rt; sink.bytes() == JOINED);
    Ok(())
}

// A user's text goes on to the end of the line where the maker's texts have colons. The keys are hashlib's.
const WITH_COLONS: [(Maker, &[u8], &[u8]); 10] = [
    (
        Maker::Foreign(Foreign::Werkzeug),
        b"ann:pbkdf2:sha256:7$saltsalt$fdd683fab6b91733300fb18384a4ceff79246d4f1aaa54fd81b44ff5eedb1ed7\nbob:pbkdf2:sha256:7$saltsalt$fdd683fab6b91733300fb18384a4ceff79246d4f1aaa54fd81b44ff5eedb1ed7\n",
        b"ann\tmatch\nbob\tmismatch\n",
    ),
    (
        Maker::Foreign(Foreign::MediaWiki),
        b"ann::pbkdf2:sha512:9:64:c2FsdHNhbHQ=:6vUzTVFOdRhVTzjL1KkVCWtTaLGCIYFWDfDJDjaW4EiFUeq8jAZ/a3Ef74LY0iVECU0Sp22oEkAzuq5+C9jFJg==\nbob::pbkdf2:sha512:9:64:c2FsdHNhbHQ=:6vUzTVFOdRhVTzjL1KkVCWtTaLGCIYFWDfDJDjaW4EiFUeq8jAZ/a3Ef74LY0iVECU0Sp22oEkAzuq5+C9jFJg==:\n",
        b"ann\tmatch\nbob\tforeign-form\n",
    ),
    (
        Maker::Foreign(Foreign::Mosquitto),
        b"ann:secret:pbkdf2\n",
        b"ann\tunsupported-scheme\n",
    ),
    // A text of LDAP ends at a colon; in a line of a dump in LDIF it doesn't.
    (
        Maker::Foreign(Foreign::Ldap),
        b"ann:{CRYPT}$1$abcdefgh$cHJi5PXp/ki/ktXzqlk6I1:x\nbob:{CRYPT}*\n",
        b"ann\tmatch\nbob\tlocked\n",
    ),
    (
        Maker::Foreign(Foreign::Ldif),
        b"ann:{CRYPT}$1$abcdefgh$cHJi5PXp/ki/ktXzqlk6I1:x\nbob:{crypt}x\neve:*geh:eim\n",
        b"ann\tforeign-form\nbob\tlocked\neve\tunsupported-cleartext\n",
    ),
    (
        Maker::Application(Application::Jenkins),
        b"ann:$PBKDF2$HMACSHA512:7:73616c7473616c74$8deaeac1a56ee60cd648ef4d5c023c1949249428f1633fe3a6981e2cc023a15cdaea3d27af41cb3bf9ebc3fb16fd7b2f58ccb358955b0bda3d367fa3b0c39c67\nbob:$PBKDF2$HMACSHA512:7:73616c7473616c74$8deaeac1a56ee60cd648ef4d5c023c1949249428f1633fe3a6981e2cc023a15cdaea3d27af41cb3bf9ebc3fb16fd7b2f58ccb358955b0bda3d367fa3b0c39c67\neve:#jbcrypt:$6$x\n",
        b"ann\tmatch\nbob\tmismatch\neve\tforeign-form\n",
    ),
    (
        Maker::Application(Application::CouchDb),
        b"ann:-pbkdf2-sha256,fdd683fab6b91733300fb18384a4ceff79246d4f1aaa54fd81b44ff5eedb1ed7,saltsalt,7:x\nbob:-pbkdf2-sha256,fdd683fab6b91733300fb18384a4ceff79246d4f1aaa54fd81b44ff5eedb1ed7,saltsalt,7\neve:*secret\n",
        b"ann\tmatch\nbob\tmismatch\neve\tunsupported-cleartext\n",
    ),
    (
        Maker::Application(Application::Grafana),
        b"ann:00:x\nbob:00\n",
        b"ann\tforeign-salt-length\nbob\tforeign-form\n",
    ),
    (
        Maker::Application(Application::MySql),
        b"ann:*2470C0C06DEE42FD1618BB99005ADCA2EC9D1E19\nbob:244124:x\n",
        b"ann\tunsupported-sha1\nbob\tforeign-form\n",
    ),
    (
        Maker::Application(Application::Gitea),
        b"ann:pbkdf2$7$32:3fdf0ad2b32fccca5795b91dd7e36a96c2ae5ca86352879964c4482d5b738efc:saltsaltsa\nbob:pbkdf2$7$32:3fdf0ad2b32fccca5795b91dd7e36a96c2ae5ca86352879964c4482d5b738efc:saltsaltsa\neve:argon2:00:x\n",
        b"ann\tmatch\nbob\tmismatch\neve\tunsupported-scheme\n",
    ),
];

#[test]
fn texts_with_colons(rt: HostRuntime) -> Result<(), Fail> {
    for (foreign, lines, answers) in WITH_COLONS {
        let mut room = [0; 64];
        let mut passwords = MemorySource::new(PASSWORDS, 9, &[]);
        let mut texts = MemorySource::new(lines, 9, &[]);
        let mut sink = MemorySink::new(&mut room, 64, &[]);
        let joining = ForeignJoin {
            alloc: rt.alloc(),
            foreign,
            limits: None,
        };
        let end = run_join(
            rt.alloc(),
            RandomState::new(&rt)?,
            &joining,
            &mut passwords,
            &mut texts,
            &mut sink,
            10_000,
        );
        assert!(rt; end == JoinEnd::Texts(1));
        assert!(rt; sink.bytes() == answers);
    }
    Ok(())
}

// The recommended least, but for SHA-crypt with SHA-256.
const LEAST: LeastCosts = LeastCosts {
    sha256_rounds: 1_000,
    ..RECOMMENDED_LEAST
};

#[test]
fn rows_of_a_survey(rt: HostRuntime) {
    let mut room = [0; 512];
    let mut source = MemorySource::new(TEXTS, 50, &[]);
    let mut sink = MemorySink::new(&mut room, 512, &[]);
    let mut lines = ForeignLines {
        foreign: Maker::Foreign(Foreign::Ldap),
        form: LineForm::Surveyed,
        inner: SurveyLines::new(LEAST, Format::Tabs),
    };
    let status = run_foreign_survey(&mut lines, &mut source, &mut sink, 10_000);
    assert!(rt; status == 1);
    let rows = b"ann\tsha256-crypt\trounds=1000\tok\n\
        bob\tmd5-crypt\t-\tweak: md5-crypt\n\
        carl\tmd5-crypt\t-\tweak: md5-crypt\n\
        eve\tpbkdf2-sha1\trounds=10000\tweak: pbkdf2-sha1\n\
        fay\t-\t-\tempty\n\
        locked\t-\t-\tlocked\n\
        clear\t-\t-\tunsupported: clear text\n\
        nobody\t-\t-\tunsupported: sha2\n\
        \t-\t-\tbadline\n\
        \n\
        2\tmd5-crypt weak\n\
        1\tsha256-crypt ok\n\
        1\tpbkdf2-sha1 weak\n\
        1\tunsupported: sha2\n\
        1\tunsupported: clear text\n\
        1\tempty\n\
        1\tlocked\n\
        1\tbadline\n";
    assert!(rt; sink.bytes() == rows.as_slice());
}

// A line of 8,192 bytes whose converted text would make it longer, one of more, and one that is short again.
#[test]
fn long_lines(rt: HostRuntime) {
    let mut input = [b'a'; 8_192 + 8_194 + 2];
    let tail = b"\tpbkdf2_sha256$1000$abcdefgh$GHUbOYNfzc/1XP2MWJxQ0OB83AthJA5LJEJcJ6ahzFY=\n";
    let start = 8_193 - tail.len();
    input[start..8_193].copy_from_slice(tail);
    input[16_386] = b'\n';
    input[16_387] = b'\n';
    let mut room = [0; 64];
    let mut source = MemorySource::new(&input, 5_000, &[]);
    let mut sink = MemorySink::new(&mut room, 64, &[]);
    let status = run_foreign(
        rt.alloc(),
        Maker::Foreign(Foreign::Django),
        None,
        &mut source,
        &mut sink,
        100_000,
    );
    assert!(rt; status == 1);
    assert!(rt; sink.bytes() == b"toolong\ntoolong\nbadline\n".as_slice());
}
