//! Commands over files in memory: replies, groups, faults.

use crate::helpers::{ANEW, ANN, EMPTY, GONE, NONE_FAILS, THREE, TWO, leaves_one, opened};
use application_texts::Maker;
use foreign_text::Foreign;
use line_io::{Failed, MemorySink, MemorySource, Sink, Source};
use std::cell::Cell;
use store_run::{compact, export_users, import_foreign, import_users, serve};

// An input, the replies, the file after them, and the status.
const SESSIONS: [(&[u8], &[u8], &[u8], &[u8], u8); 6] = [
    (
        EMPTY,
        b"set\tann\t*\ncheck\tann\tx\nlist\nset\ta:b\tx\nset\tbob\tt\xc3\xa4\nset\tbob\t$5\ncheck\tbob\tx\ncheck\tcleo\tx\nupgrade\tbob\tx\ty\n",
        b"ok\nlocked\nset\tann\t*\nbad-command\nbad-text\nok\ninvalid\nno-user\nbad-salt\n",
        TWO,
        1,
    ),
    (TWO, b"set\tann\t!\n", b"ok\n", THREE, 0),
    (TWO, b"", b"", TWO, 0),
    (
        TWO,
        b"remove\tann\nlist\nremove\tann\nremove\tcleo\nremove\ta:b\nset\tbob\n",
        b"ok\nset\tbob\t$5\nno-user\nno-user\nbad-command\nbad-command\n",
        GONE,
        1,
    ),
    // What was written before is read as before.
    (
        GONE,
        b"check\tann\tx\ncheck\tbob\tx\nlist\n",
        b"no-user\ninvalid\nset\tbob\t$5\n",
        GONE,
        1,
    ),
    // A removal between changes that wait; the user who comes again goes last.
    (
        TWO,
        b"set\tcleo\t!\nremove\tann\nset\tann\tx\nlist\n",
        b"ok\nok\nok\nset\tcleo\t!\nset\tbob\t$5\nset\tann\tx\n",
        b"#pwstore 1\nset\tann\t*\nset\tbob\t$5\nset\tcleo\t!\nset\tann\nset\tann\tx\n#",
        0,
    ),
];

#[test]
fn commands_and_replies(rt: HostRuntime) {
    for (i, (file, input, replies, after, status)) in SESSIONS.iter().enumerate() {
        let Some(mut store) = opened(rt.alloc(), file, NONE_FAILS) else {
            panic!(rt; "it is opened")
        };
        let mut room = [0; 256];
        let mut source = MemorySource::new(input, 1_000, &[]);
        let mut sink = MemorySink::new(&mut room, 5, &[]);
        assert!(rt;
            serve(&mut store, &mut source, &mut sink) == *status,
            "of {i}"
        );
        assert!(rt;
            sink.bytes() == *replies && store.device().bytes() == *after,
            "of {i}"
        );
    }
}

#[test]
fn changes_that_wait_are_one_group(rt: HostRuntime) {
    // How many bytes of the input come at a read, and how many calls the device has then.
    for (step, calls) in [(1_000, 6), (11, 11)] {
        let Some(mut store) = opened(rt.alloc(), ANN, NONE_FAILS) else {
            panic!(rt; "it is opened")
        };
        let mut room = [0; 64];
        let mut source = MemorySource::new(b"set\tbob\t$5\nset\tann\t!\n", step.max(1), &[]);
        let mut sink = MemorySink::new(&mut room, 64, &[]);
        assert!(rt; serve(&mut store, &mut source, &mut sink) == 0);
        assert!(rt; sink.bytes() == b"ok\nok\n".as_slice());
        assert!(rt; store.device().bytes() == THREE && store.device().number() == calls);
    }
}

#[test]
fn a_fault_of_the_disk(rt: HostRuntime) {
    for failing in 1..6 {
        let Some(mut store) = opened(rt.alloc(), ANN, failing) else {
            panic!(rt; "it is opened")
        };
        let mut room = [0; 256];
        let mut source = MemorySource::new(
            b"set\tbob\t$5\nset\tann\t!\ncheck\tbob\tx\ncheck\tann\tx\nset\tcleo\tx\nupgrade\tann\tabcdabcdabc\tx\nlist\n",
            1_000,
            &[],
        );
        let mut sink = MemorySink::new(&mut room, 5, &[]);
        assert!(rt; serve(&mut store, &mut source, &mut sink) == 7);
        assert!(rt;
            sink.bytes()
                == b"disk-fault\ndisk-fault\nno-user\nlocked\ndisk-fault\ndisk-fault\nset\tann\t*\n".as_slice()
        );
        // No further call.
        assert!(rt; !store.takes_changes() && store.device().number() == failing.saturating_add(1));
    }
}

#[test]
fn a_removal_is_a_group_of_its_own(rt: HostRuntime) {
    let Some(mut store) = opened(rt.alloc(), TWO, NONE_FAILS) else {
        panic!(rt; "it is opened")
    };
    let mut room = [0; 64];
    let mut source = MemorySource::new(
        b"set\tcleo\t!\nset\tann\t!\nremove\tann\nset\tann\tx\n",
        1_000,
        &[],
    );
    let mut sink = MemorySink::new(&mut room, 64, &[]);
    assert!(rt; serve(&mut store, &mut source, &mut sink) == 0);
    // The sync of recovery, and five calls for each of three groups.
    assert!(rt; sink.bytes() == b"ok\nok\nok\nok\n".as_slice() && store.device().number() == 16);
}

#[test]
fn a_fault_of_a_removal(rt: HostRuntime) {
    for failing in 1..6 {
        let Some(mut store) = opened(rt.alloc(), TWO, failing) else {
            panic!(rt; "it is opened")
        };
        let mut room = [0; 256];
        let mut source = MemorySource::new(
            b"remove\tann\ncheck\tann\tx\nremove\tcleo\nremove\tbob\nlist\n",
            1_000,
            &[],
        );
        let mut sink = MemorySink::new(&mut room, 5, &[]);
        assert!(rt; serve(&mut store, &mut source, &mut sink) == 7);
        assert!(rt;
            sink.bytes()
                == b"disk-fault\nlocked\ndisk-fault\ndisk-fault\nset\tann\t*\nset\tbob\t$5\n".as_slice()
        );
        // No further call, and a crash leaves the user there or away.
        assert!(rt; !store.takes_changes() && store.device().number() == failing.saturating_add(1));
        assert!(rt;
            leaves_one(rt.alloc(), store.device(), [TWO, GONE]),
            "at {failing}"
        );
    }
}

#[test]
fn faults_of_the_streams(rt: HostRuntime) {
    // How many bytes of the input come at a read, which read fails, how many bytes a write takes, which write fails, the status,
    // the replies and the file: behind the first command, whose change is on the disk; and at the replies to both.
    for (step, reads, piece, writes, status, replies, after) in [
        (
            11,
            [1u64].as_slice(),
            64,
            [].as_slice(),
            3,
            b"ok\n".as_slice(),
            TWO,
        ),
        (1_000, &[], 2, &[1u64], 4, b"ok", THREE),
    ] {
        let Some(mut store) = opened(rt.alloc(), ANN, NONE_FAILS) else {
            panic!(rt; "it is opened")
        };
        let mut room = [0; 64];
        let mut source = MemorySource::new(b"set\tbob\t$5\nset\tann\t!\n", step.max(1), reads);
        let mut sink = MemorySink::new(&mut room, piece.max(1), writes);
        assert!(rt; serve(&mut store, &mut source, &mut sink) == status);
        assert!(rt; sink.bytes() == replies && store.device().bytes() == after);
    }
}

#[test]
fn a_file_made_anew(rt: HostRuntime) {
    // The call that fails, the status, and the file.
    for (failing, status, after) in [(NONE_FAILS, 0, ANEW), (1, 7, THREE)] {
        let Some(mut store) = opened(rt.alloc(), THREE, failing) else {
            panic!(rt; "it is opened")
        };
        assert!(rt; compact(&mut store) == status);
        assert!(rt; store.device().bytes() == after);
    }
}

#[test]
fn a_user_taken_away_is_not_in_the_new_file(rt: HostRuntime) {
    let Some(mut store) = opened(rt.alloc(), GONE, NONE_FAILS) else {
        panic!(rt; "it is opened")
    };
    assert!(rt; compact(&mut store) == 0);
    assert!(rt; store.device().bytes() == b"#pwstore 1\nset\tbob\t$5\n#".as_slice());
}

// Tables, and their lines.
const EXPORTS: [(&[u8], &[u8]); 3] = [
    (EMPTY, b""),
    (THREE, b"ann:!\nbob:$5\n"),
    (
        b"#pwstore 1\nset\tZo\xc3\xab\t\nset\ta b\t$1$x$y\n#",
        b"Zo\xc3\xab:\na b:$1$x$y\n",
    ),
];

#[test]
fn users_as_lines(rt: HostRuntime) {
    for (i, (file, lines)) in EXPORTS.iter().enumerate() {
        let Some(store) = opened(rt.alloc(), file, NONE_FAILS) else {
            panic!(rt; "it is opened")
        };
        let mut room = [0; 64];
        let mut sink = MemorySink::new(&mut room, 3, &[]);
        assert!(rt; export_users(&store, &mut sink) == 0, "of {i}");
        assert!(rt; sink.bytes() == *lines, "of {i}");
        // The file isn't called.
        assert!(rt; store.device().number() == 1, "of {i}");
    }
}

#[test]
fn a_write_of_the_lines_fails(rt: HostRuntime) {
    for (failing, lines) in [(0u64, b"".as_slice()), (1, b"ann:!"), (2, b"ann:!\nbob:")] {
        let Some(store) = opened(rt.alloc(), THREE, NONE_FAILS) else {
            panic!(rt; "it is opened")
        };
        let mut room = [0; 64];
        let fails = [failing];
        let mut sink = MemorySink::new(&mut room, 5, &fails);
        assert!(rt; export_users(&store, &mut sink) == 4, "at {failing}");
        assert!(rt; sink.bytes() == lines, "at {failing}");
    }
}

// Lines of users over a table, the replies, the file after them, and the status.
const IMPORTS: [(&[u8], &[u8], &[u8], &[u8], u8); 5] = [
    (TWO, b"ann:!:19000:0:99999:7:::\n", b"ok\n", THREE, 0),
    (TWO, b"ann:!", b"ok\n", THREE, 0),
    // No line is another command than a set.
    (
        TWO,
        b"list\nremove\tann\nset\tann\t!\nset\tann\t!:x\nremove\tann:\ncheck\tann:x\n\n:*\n",
        b"bad-command\nbad-command\nbad-command\nbad-command\nbad-command\nbad-command\nbad-command\nbad-command\n",
        TWO,
        1,
    ),
    (TWO, b"", b"", TWO, 0),
    // The others are set where one is refused.
    (
        EMPTY,
        b"ann:t\xc3\xa4\nann:*\n\xff:*\nb\x01b:*\nbob:$5\r\nbob:$5:\r\n",
        b"bad-text\nok\nbad-command\nbad-command\nbad-text\nok\n",
        TWO,
        1,
    ),
];

#[test]
fn users_of_lines(rt: HostRuntime) {
    for (i, (file, input, replies, file_now, status)) in IMPORTS.iter().enumerate() {
        let Some(mut store) = opened(rt.alloc(), file, NONE_FAILS) else {
            panic!(rt; "it is opened")
        };
        let mut room = [0; 256];
        let source = MemorySource::new(input, 1_000, &[]);
        let mut sink = MemorySink::new(&mut room, 64, &[]);
        assert!(rt;
            import_users(&mut store, source, &mut sink) == *status,
            "of {i}"
        );
        assert!(rt; sink.bytes() == *replies, "of {i}");
        assert!(rt; store.device().bytes() == *file_now, "of {i}");
    }
}

// Lines of three makers, and the file that they leave. The texts are those of `foreign_lines_tests`.
const FOREIGN: [(Maker, &[u8], &[u8], &[u8]); 3] = [
    (
        Maker::Foreign(Foreign::Django),
        b"ann:pbkdf2_sha256$1000$abcdefgh$GHUbOYNfzc/1XP2MWJxQ0OB83AthJA5LJEJcJ6ahzFY=\nbob:sha1$a$b\ncarl:!x\ndora\n",
        b"ok\nbad-command\nok\nbad-command\n",
        b"#pwstore 1\nset\tann\t$pbkdf2-sha256$i=1000$YWJjZGVmZ2g$GHUbOYNfzc/1XP2MWJxQ0OB83AthJA5LJEJcJ6ahzFY\nset\tcarl\t!x\n#",
    ),
    (
        Maker::Foreign(Foreign::Werkzeug),
        b"ann:pbkdf2:sha256:7$saltsalt$fdd683fab6b91733300fb18384a4ceff79246d4f1aaa54fd81b44ff5eedb1ed7\nbob:$5$a:b\n",
        b"ok\nbad-command\n",
        b"#pwstore 1\nset\tann\t$pbkdf2-sha256$i=7$c2FsdHNhbHQ$/daD+ra5FzMwD7GDhKTO/3kkbU8aqlT9gbRP9e7bHtc\n#",
    ),
    (
        Maker::Foreign(Foreign::Ldap),
        b"ann:{PBKDF2-SHA256}7$YWJjZGVmZ2g$oNzBqFb03A.goX/CUpviOBd1EZ5cZP30Ade7.vnhkhM\nbob:{CRYPT}!x\neve:{SSHA}x\n\xff:{CRYPT}$5$a$b\n",
        b"ok\nok\nbad-command\nbad-command\n",
        b"#pwstore 1\nset\tann\t$pbkdf2-sha256$i=7$YWJjZGVmZ2g$oNzBqFb03A+goX/CUpviOBd1EZ5cZP30Ade7+vnhkhM\nset\tbob\t!\n#",
    ),
];

#[test]
fn users_of_other_makers(rt: HostRuntime) {
    for (foreign, lines, replies, file) in FOREIGN {
        let Some(mut store) = opened(rt.alloc(), EMPTY, NONE_FAILS) else {
            panic!(rt; "it is opened")
        };
        let mut room = [0; 64];
        let source = MemorySource::new(lines, 30, &[]);
        let mut sink = MemorySink::new(&mut room, 64, &[]);
        assert!(rt;
            import_foreign(&mut store, foreign, source, &mut sink) == 1,
            "{foreign:?}"
        );
        assert!(rt; sink.bytes() == replies, "{foreign:?}");
        assert!(rt; store.device().bytes() == file, "{foreign:?}");
    }
}

#[test]
fn users_of_one_read_are_one_group(rt: HostRuntime) {
    let Some(mut store) = opened(rt.alloc(), EMPTY, NONE_FAILS) else {
        panic!(rt; "it is opened")
    };
    let mut room = [0; 64];
    let source = MemorySource::new(b"ann:*:1\nbob:$5:2:\nann:!\n", 1_000, &[]);
    let mut sink = MemorySink::new(&mut room, 64, &[]);
    assert!(rt; import_users(&mut store, source, &mut sink) == 0);
    // The sync of recovery, and five calls for one group.
    assert!(rt; sink.bytes() == b"ok\nok\nok\n".as_slice() && store.device().number() == 6);
    assert!(rt; store.device().bytes() == THREE);
}

#[test]
fn a_fault_of_an_import(rt: HostRuntime) {
    for failing in 1..6 {
        let Some(mut store) = opened(rt.alloc(), TWO, failing) else {
            panic!(rt; "it is opened")
        };
        let mut room = [0; 64];
        let source = MemorySource::new(b"ann:!\nbob\nann:*\n", 1_000, &[]);
        let mut sink = MemorySink::new(&mut room, 64, &[]);
        assert!(rt;
            import_users(&mut store, source, &mut sink) == 7,
            "at {failing}"
        );
        assert!(rt;
            sink.bytes() == b"disk-fault\nbad-command\ndisk-fault\n".as_slice(),
            "at {failing}"
        );
        assert!(rt;
            leaves_one(rt.alloc(), store.device(), [TWO, THREE]),
            "at {failing}"
        );
    }
}

// A source that gives two commands at a read, and looks before each whether those before were answered.
#[derive(Drop)]
struct Questions<'a> {
    asked: usize,
    answered: &'a Cell<usize>,
    is_early: bool,
}

impl<'a> Source for Questions<'a> {
    ghost use Rattle.std.specs.Prelude.{None};

    ghost left = { λ _. None };

    ghost faults = { λ _. 0 };

    fn read(&mut self, buf: &mut [u8]) -> Result<usize, Failed> {
        if self.answered.get() < self.asked {
            self.is_early = true;
        }
        let piece = b"set\tann\tx\nset\tann\t*\n";
        if self.asked >= 6 || buf.len() < piece.len() {
            return Ok(0);
        }
        self.asked += 2;
        let count = piece.len();
        buf[..count].copy_from_slice(piece);
        Ok(count)
    }
}

// A sink that counts the lines that it took.
#[derive(Drop)]
struct Replies<'a> {
    answered: &'a Cell<usize>,
}

impl<'a> Sink for Replies<'a> {
    ghost use Rattle.std.specs.Prelude.{None};

    ghost written = { λ _. None };

    ghost faults = { λ _. 0 };

    fn write(&mut self, piece: &[u8]) -> Result<usize, Failed> {
        let feeds = piece.iter().filter(|byte| **byte == b'\n').count();
        self.answered.set(self.answered.get().saturating_add(feeds));
        Ok(piece.len())
    }
}

#[test]
fn no_read_while_replies_wait(rt: HostRuntime) {
    let Some(mut store) = opened(rt.alloc(), EMPTY, NONE_FAILS) else {
        panic!(rt; "it is opened")
    };
    let answered = Cell::new(0);
    let mut source = Questions {
        asked: 0,
        answered: &answered,
        is_early: false,
    };
    let mut sink = Replies {
        answered: &answered,
    };
    assert!(rt; serve(&mut store, &mut source, &mut sink) == 0);
    assert!(rt; !source.is_early && answered.get() == 6);
}
