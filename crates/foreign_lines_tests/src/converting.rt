//! Lines of users and foreign texts as what sets texts gets them. The keys are hashlib's, as in `tests`.

use application_texts::{Application, Maker};
use foreign_lines::{ConvertedTexts, MAKERS, maker_named};
use foreign_text::Foreign;
use line_filter::MappedLines;
use line_io::{Failed, MemorySource, Source};
use std::test::Fail;

// Lines of a maker, and the lines that are given for them.
const LINES: [(Maker, &[u8], &[u8]); 12] = [
    // A line that has no text, or one that isn't converted, gives an empty one; no field after the text is kept.
    (
        Maker::Foreign(Foreign::Django),
        b"ann:pbkdf2_sha256$1000$abcdefgh$GHUbOYNfzc/1XP2MWJxQ0OB83AthJA5LJEJcJ6ahzFY=\n\
        bob:bcrypt$$2b$04$abcdefghijklmnopqrstuu2r9OfJnfCsdneAXAGHnS4UpFFP8WIrW:1:2\n\
        carl:!abc\ndora:\neve:sha1$abc$def\nfay:pbkdf2_sha256$1000$seasalt$GHUbOYNfzc/1XP2MWJxQ0OB83AthJA5LJEJcJ6ahzFY=\n\
        gus\nh\ti:$5$x$y\n\nida:$6$abcdefgh$xyz:17\njo:\xff\nk\xffl:$1$a$b",
        b"ann:$pbkdf2-sha256$i=1000$YWJjZGVmZ2g$GHUbOYNfzc/1XP2MWJxQ0OB83AthJA5LJEJcJ6ahzFY\n\
        bob:$2b$04$abcdefghijklmnopqrstuu2r9OfJnfCsdneAXAGHnS4UpFFP8WIrW\n\
        carl:!abc\ndora:\n\n\n\
        \n\n\nida:$6$abcdefgh$xyz\n\nk\xffl:$1$a$b\n",
    ),
    // The text goes on to the line's end where the maker's texts have colons, and a stored text has none.
    (
        Maker::Foreign(Foreign::Werkzeug),
        b"ann:pbkdf2:sha256:7$saltsalt$fdd683fab6b91733300fb18384a4ceff79246d4f1aaa54fd81b44ff5eedb1ed7\n\
        bob:$5$a$b:1\ncarl:*:1\ndora:pbkdf2:sha1:7$saltsalt$fdd683fab6b91733300fb18384a4ceff79246d4f\neve:$5$a$b\n",
        b"ann:$pbkdf2-sha256$i=7$c2FsdHNhbHQ$/daD+ra5FzMwD7GDhKTO/3kkbU8aqlT9gbRP9e7bHtc\n\ncarl:*:1\ndora:$pbkdf2-sha1$i=7$c2FsdHNhbHQ$/daD+ra5FzMwD7GDhKTO/3kkbU8\neve:$5$a$b\n",
    ),
    // Without a tag a text is the password itself, also one that begins with `*`.
    (
        Maker::Foreign(Foreign::Ldap),
        b"ann:{PBKDF2-SHA256}7$YWJjZGVmZ2g$oNzBqFb03A.goX/CUpviOBd1EZ5cZP30Ade7.vnhkhM\n\
        bob:{CRYPT}$1$abcdefgh$cHJi5PXp/ki/ktXzqlk6I1\ncarl:{CRYPT}!x\ndora:*secret\neve:{SSHA}x\n",
        b"ann:$pbkdf2-sha256$i=7$YWJjZGVmZ2g$oNzBqFb03A+goX/CUpviOBd1EZ5cZP30Ade7+vnhkhM\n\
        bob:$1$abcdefgh$cHJi5PXp/ki/ktXzqlk6I1\ncarl:!\n\n\n",
    ),
    (
        Maker::Foreign(Foreign::Ldif),
        b"ann:{CRYPT}$1$abcdefgh$cHJi5PXp/ki/ktXzqlk6I1:x\nbob:{crypt}*\neve:*geh:eim\n",
        b"\nbob:!\n\n",
    ),
    (
        Maker::Foreign(Foreign::Dovecot),
        b"ann:{BLF-CRYPT}$2y$04$abcdefghijklmnopqrstuu2r9OfJnfCsdneAXAGHnS4UpFFP8WIrW:500:500::/home/ann\nbob:{PLAIN}x\n",
        b"ann:$2y$04$abcdefghijklmnopqrstuu2r9OfJnfCsdneAXAGHnS4UpFFP8WIrW\n\n",
    ),
    (
        Maker::Foreign(Foreign::Spring),
        b"ann:{bcrypt}$2a$04$abcdefghijklmnopqrstuu2r9OfJnfCsdneAXAGHnS4UpFFP8WIrW\nbob:{noop}x\n",
        b"ann:$2a$04$abcdefghijklmnopqrstuu2r9OfJnfCsdneAXAGHnS4UpFFP8WIrW\n\n",
    ),
    (
        Maker::Foreign(Foreign::Passlib),
        b"ann:$pbkdf2-sha256$7$YWJjZGVmZ2g$oNzBqFb03A.goX/CUpviOBd1EZ5cZP30Ade7.vnhkhM\n",
        b"ann:$pbkdf2-sha256$i=7$YWJjZGVmZ2g$oNzBqFb03A+goX/CUpviOBd1EZ5cZP30Ade7+vnhkhM\n",
    ),
    (
        Maker::Application(Application::Jenkins),
        b"ann:#jbcrypt:$2a$04$abcdefghijklmnopqrstuu2r9OfJnfCsdneAXAGHnS4UpFFP8WIrW\nbob:#jbcrypt:x\ncarl:*:1\n",
        b"ann:$2a$04$abcdefghijklmnopqrstuu2r9OfJnfCsdneAXAGHnS4UpFFP8WIrW\n\ncarl:*:1\n",
    ),
    (
        Maker::Application(Application::HomeAssistant),
        b"ann:JDJiJDA0JGFiY2RlZmdoaWprbG1ub3BxcnN0dXUycjlPZkpuZkNzZG5lQVhBR0huUzRVcEZGUDhXSXJX:x\nbob:JDJiJDA0JGE6Yg==\n",
        b"ann:$2b$04$abcdefghijklmnopqrstuu2r9OfJnfCsdneAXAGHnS4UpFFP8WIrW\n\n",
    ),
    (
        Maker::Application(Application::Grafana),
        b"ann:51de374324297e4ac1ae6ee2528bf4284a68710d47d40eb924a792641719f87419bb20222c41b279de52ffe33abb593c3d83:saltsalt\nbob:51de374324297e4ac1ae6ee2528bf4284a68710d47d40eb924a792641719f87419bb20222c41b279de52ffe33abb593c3d83:saltsalt:\n",
        b"ann:$pbkdf2-sha256$i=10000$c2FsdHNhbHQ$Ud43QyQpfkrBrm7iUov0KEpocQ1H1A65JKeSZBcZ+HQZuyAiLEGyed5S/+M6u1k8PYM\n\n",
    ),
    (
        Maker::Application(Application::MySql),
        b"ann:0x244124303035242a7a143354070a6a450d2f4b0875411c050c383659354d664e394f3749794856716a414537432e386b7048704e4c396f546c465854324d5179357734594930\nbob:244124303035242A7A143354070A6A450D2F4B0875411C050C383659354D664E394F3749794856716A414537432E386B7048704E4C396F546C465854324D5179357734594930\ncarl:244124303035242a7a143354070a6a450d2f4b0875411c050c383659354d664e394f3749794856716a414537432e386b7048704e4c396f546c465854324d51793577345949300\n",
        b"ann:$mysql$A$005*2A7A143354070A6A450D2F4B0875411C050C3836*59354D664E394F3749794856716A414537432E386B7048704E4C396F546C465854324D5179357734594930\nbob:$mysql$A$005*2A7A143354070A6A450D2F4B0875411C050C3836*59354D664E394F3749794856716A414537432E386B7048704E4C396F546C465854324D5179357734594930\n\n",
    ),
    (
        Maker::Application(Application::Gitea),
        b"ann:pbkdf2$7$32:3fdf0ad2b32fccca5795b91dd7e36a96c2ae5ca86352879964c4482d5b738efc:saltsaltsa\nbob:argon2:3fdf0ad2b32fccca5795b91dd7e36a96c2ae5ca86352879964c4482d5b738efc:saltsaltsa\n",
        b"ann:$pbkdf2-sha256$i=7$c2FsdHNhbHRzYQ$P98K0rMvzMpXlbkd1+NqlsKuXKhjUoeZZMRILVtzjvw\n\n",
    ),
];

// The bytes of a source, in reads of at most 50.
fn all_of<S: Source>(source: &mut S, out: &mut Vec<u8>) -> Result<bool, Fail> {
    let mut buf = [0; 50];
    for _ in 0..20_000 {
        match source.read(&mut buf) {
            Ok(0) => return Ok(true),
            Ok(count) => {
                for b in &buf[..count.min(50)] {
                    out.push(*b)?;
                }
            }
            Err(Failed) => return Ok(false),
        }
    }
    Ok(false)
}

#[test]
fn converted_lines(rt: HostRuntime) -> Result<(), Fail> {
    for (foreign, lines, given) in LINES {
        for step in [1, 40, 4_000] {
            let texts = ConvertedTexts { foreign };
            let mut source = MappedLines::new(texts, MemorySource::new(lines, step, &[]));
            let mut out = Vec::new(rt.alloc());
            assert!(rt; all_of(&mut source, &mut out)?);
            assert!(rt; out.as_slice() == given, "{foreign:?}, {step}");
        }
    }
    Ok(())
}

// A converted text that makes a line longer than 8,192 bytes gives an empty one; with a byte less it fits.
#[test]
fn lines_that_do_not_fit(rt: HostRuntime) -> Result<(), Fail> {
    let text = b":{PBKDF2-SHA256}7$YWJjZGVmZ2g$oNzBqFb03A.goX/CUpviOBd1EZ5cZP30Ade7.vnhkhM\n";
    for (user, count) in [(8_116u64, 8_192), (8_117, 8_193), (8_118, 1)] {
        let mut lines = Vec::new(rt.alloc());
        for _ in 0..user {
            lines.push(b'a')?;
        }
        for b in text {
            lines.push(*b)?;
        }
        let texts = ConvertedTexts {
            foreign: Maker::Foreign(Foreign::Ldap),
        };
        let mut source = MappedLines::new(texts, MemorySource::new(&lines, 5_000, &[]));
        let mut out = Vec::new(rt.alloc());
        assert!(rt; all_of(&mut source, &mut out)?);
        assert!(rt; out.len() == count, "{user}");
    }
    Ok(())
}

#[test]
fn makers_by_their_names(rt: HostRuntime) {
    for name in MAKERS {
        assert!(rt; maker_named(name).is_some(), "{name}");
    }
    assert!(rt; maker_named("werkzeug") == Some(Maker::Foreign(Foreign::Werkzeug)));
    assert!(rt; maker_named("ldif") == Some(Maker::Foreign(Foreign::Ldif)));
    assert!(rt;
        maker_named("home-assistant") == Some(Maker::Application(Application::HomeAssistant))
    );
    assert!(rt; maker_named("Django").is_none() && maker_named("").is_none());
}
