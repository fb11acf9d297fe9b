//! Replies to the lines of command files, and the calls of the table.

use line_io::{MemorySink, MemorySource};
use pw_file::{
    FileError, LineReply, Policy, StoredTexts, Table, UserName, Word, answer_line, check_word,
    laws, line_of_row, run_file, run_file_limited, set_word, upgrade_word,
};
use scrypt_plain::ScryptKept;
use std::alloc::Global;
use std::process::Abort;
use stored_check::{McfFault, StoredError};

// A table with no users.
fn no_users(alloc: Global) -> Table<StoredTexts> {
    Table::new(alloc, ScryptKept::new(alloc))
}

// Stops a test at a check that fails, and names the check.
pub fn check<R: Abort>(rt: &R, holds: bool, what: &str) {
    assert!(rt; holds, "{what}");
}

// The user of this name.
fn user<R: Abort>(rt: &R, name: &str) -> UserName<StoredTexts> {
    match UserName::new(name) {
        Some(user) => user,
        None => panic!(rt; "{name:?} is no name"),
    }
}

// The lines are answered by their words, in order.
fn answered<R: Abort>(rt: &R, table: &mut Table<StoredTexts>, rows: &[(&str, Word)]) {
    for (line, word) in rows {
        let reply = answer_line(table, line.as_bytes());
        assert!(rt; reply == Some(LineReply::Word(*word)), "{line:?}");
    }
}

// The row of a number is that of this user and text.
pub fn has_row<P: Policy, R: Abort>(
    rt: &R,
    table: &Table<P>,
    number: usize,
    name: &str,
    text: &str,
) {
    let Some((user, found)) = table.row(number) else {
        panic!(rt; "there is no row {number}")
    };
    assert!(rt;
        user.as_str() == name && found == text,
        "row {number}: {name} {text}"
    );
}

// Lines, and their replies over one table.
const OVER_A_DIGEST: [(&str, Word); 3] = [
    (
        "set\tann\t$5$saltstring$5B8vYYiY.CVt1RlTTf8KbXBH3hsxY/GNooZaBBGWEc5",
        Word::Done,
    ),
    ("check\tann\tHello world!", Word::Match),
    ("check\tbob\tx", Word::NoUser),
];

const WITHOUT_A_DIGEST: [(&str, Word); 9] = [
    ("set\tann\t$", Word::BadText),
    ("set\tAnn\t$5", Word::BadCommand),
    ("set\tann\t$5", Word::Done),
    ("check\tann\tx", Word::Invalid),
    ("upgrade\tann\tabc\tx", Word::BadSalt),
    ("upgrade\tann\tabcdabcdabc\tx", Word::Invalid),
    ("upgrade\tbob\tabc\tx", Word::NoUser),
    ("list\t", Word::BadCommand),
    ("remove\tann", Word::BadCommand),
];

// A text that is taken, and matches `Hello world!`.
const HELLO: &str = "$5$saltstring$5B8vYYiY.CVt1RlTTf8KbXBH3hsxY/GNooZaBBGWEc5";

// What an upgrade makes of `Hello world!` and the salt `abcdabcdabc`: hashlib.scrypt of Python, over OpenSSL.
const RENEWED: &str =
    "$scrypt$ln=14,r=8,p=1$abcdabcdabc$XUd185cY0rXnj/Ge/MUaiTt89Svsd7UcdrI5w2MoCoU";

#[test]
fn lines_over_a_digest(rt: HostRuntime) {
    let mut table = no_users(rt.alloc());
    answered(&rt, &mut table, &OVER_A_DIGEST);
    let ann = user(&rt, "ann");
    let answer = table.upgrade(&ann, "Hello world", "abcdabcdabc");
    check(&rt, answer == Ok(false), "another password");
    let answer = table.upgrade(&ann, "Hello world!", "abcdabcdabc");
    check(&rt, answer == Ok(true), "the password");
    let answer = table.check(&ann, "Hello world!");
    check(&rt, answer == Ok(true), "the password behind the upgrade");
    check(&rt, table.get(&ann) == Some(RENEWED), "the text");
}

#[test]
fn lines_without_a_digest(rt: HostRuntime) {
    let mut table = no_users(rt.alloc());
    answered(&rt, &mut table, &WITHOUT_A_DIGEST);
    let reply = answer_line(&mut table, b"list");
    check(&rt, reply == Some(LineReply::Listing), "list");
    check(&rt, LineReply::Listing.is_good(), "a listing is good");
    check(&rt, table.len() == 1, "one user");
    let Some((name, text)) = table.row(0) else {
        panic!(rt; "there is a user")
    };
    let line = line_of_row(&name, text);
    check(
        &rt,
        line.as_slice() == b"set\tann\t$5\n".as_slice(),
        "the line",
    );
    check(&rt, table.row(1).is_none(), "no second row");
    check(&rt, table.user(0) == Some(user(&rt, "ann")), "the user");
    check(&rt, table.user(1).is_none(), "no second user");
}

// Commands that leave three users with their texts, and the replies.
const KEPT: [(&str, Word); 5] = [
    ("set\tbob\t$1$a$b", Word::Done),
    (
        "set\tann\t$5$saltstring$5B8vYYiY.CVt1RlTTf8KbXBH3hsxY/GNooZaBBGWEc5",
        Word::Done,
    ),
    ("set\tbob\t$6", Word::Done),
    ("set\tcleo\t", Word::BadText),
    ("set\tdora\t$scrypt$ln=14,r=8,p=1$abcdabcdabc$A", Word::Done),
];

// Each line of the listing of a table is a command of another, which leaves the same row.
fn listed_again<R: Abort>(
    rt: &R,
    table: &Table<StoredTexts>,
    again: &mut Table<StoredTexts>,
    number: usize,
) {
    let Some((name, text)) = table.row(number) else {
        panic!(rt; "there is a user {number}")
    };
    let line = line_of_row(&name, text);
    let Some((feed, command)) = line.as_slice().split_last() else {
        panic!(rt; "line {number} has bytes")
    };
    assert!(rt; *feed == b'\n', "line {number}");
    let reply = answer_line(again, command);
    assert!(rt; reply == Some(LineReply::Word(Word::Done)), "line {number}");
    assert!(rt; again.row(number) == table.row(number), "line {number}");
}

#[test]
fn restart(rt: HostRuntime) {
    let mut table = no_users(rt.alloc());
    answered(&rt, &mut table, &KEPT);
    let mut again = no_users(rt.alloc());
    for number in 0..table.len() {
        listed_again(&rt, &table, &mut again, number);
    }
    check(&rt, table.len() == 3, "three users");
    check(&rt, again.len() == 3, "three users again");
    let ann = user(&rt, "ann");
    let answer = again.check(&ann, "Hello world!");
    check(&rt, answer == Ok(true), "the password");
    let answer = again.check(&ann, "Hello world");
    check(&rt, answer == Ok(false), "another password");
    let answer = again.check(&user(&rt, "cleo"), "x");
    check(
        &rt,
        answer == Err(FileError::NoUser),
        "a user whose text was refused",
    );
}

#[test]
fn refused_texts(rt: HostRuntime) {
    let mut table = no_users(rt.alloc());
    let ann = user(&rt, "ann");
    let letters = [b'$'; 1_025];
    let Ok(long) = str::from_utf8(&letters) else {
        panic!(rt; "letters are text")
    };
    let answer = table.set(&ann, long);
    check(&rt, answer == Err(FileError::TextTooLong), "1,025 bytes");
    let answer = table.set(&ann, &long[..1_024]);
    let delimiter = FileError::BadText(McfFault::DelimiterInvalid);
    check(&rt, answer == Err(delimiter), "1,024 bytes");
    check(&rt, table.get(&ann).is_none(), "no text is kept");
    let answer = table.check(&ann, "x");
    check(&rt, answer == Err(FileError::NoUser), "no user is kept");
}

#[test]
fn refused_checks_and_lines(rt: HostRuntime) {
    let mut table = no_users(rt.alloc());
    let ann = user(&rt, "ann");
    check(
        &rt,
        table.set(&ann, "$x") == Ok(()),
        "a text without a hash",
    );
    let answer = table.check(&ann, "x");
    let no_hash = FileError::Check(StoredError::NoHash);
    check(&rt, answer == Err(no_hash), "no hash");
    let answer = table.upgrade(&ann, "x", "abc");
    let short = FileError::BadSalt(phc::Error::SaltTooShort);
    check(&rt, answer == Err(short), "a short salt");
    let reply = answer_line(&mut table, &[b'a'; 8_193]);
    check(
        &rt,
        reply == Some(LineReply::Word(Word::TooLong)),
        "8,193 bytes",
    );
    let reply = answer_line(&mut table, &[0xff]);
    check(
        &rt,
        reply == Some(LineReply::Word(Word::BadCommand)),
        "no text",
    );
}

#[test]
fn taken_back(rt: HostRuntime) {
    let mut table = no_users(rt.alloc());
    let ann = user(&rt, "ann");
    let bob = user(&rt, "bob");
    check(&rt, table.set(&ann, "$5") == Ok(()), "the first text");
    // A text in the place of another, and a new user; from the last to the first.
    let Ok(first) = table.exchange(&ann, HELLO) else {
        panic!(rt; "the text is taken")
    };
    has_row(&rt, &table, 0, "ann", HELLO);
    let Ok(second) = table.exchange(&bob, "$6") else {
        panic!(rt; "the text is taken")
    };
    has_row(&rt, &table, 1, "bob", "$6");
    let Ok(third) = table.exchange(&ann, "$1$a$b") else {
        panic!(rt; "the text is taken")
    };
    has_row(&rt, &table, 0, "ann", "$1$a$b");
    has_row(&rt, &table, 1, "bob", "$6");
    table.put_back(third);
    has_row(&rt, &table, 0, "ann", HELLO);
    has_row(&rt, &table, 1, "bob", "$6");
    table.put_back(second);
    check(&rt, table.get(&bob).is_none(), "bob is gone");
    check(&rt, table.len() == 1, "one user is left");
    table.put_back(first);
    has_row(&rt, &table, 0, "ann", "$5");
    check(&rt, table.len() == 1, "one user is left at last");
}

#[test]
fn a_refused_exchange_changes_nothing(rt: HostRuntime) {
    let mut table = no_users(rt.alloc());
    let ann = user(&rt, "ann");
    check(&rt, table.set(&ann, "$5") == Ok(()), "the first text");
    let answer = table.exchange(&ann, "$");
    let is_bad_text = matches!(answer, Err(FileError::BadText(_)));
    check(&rt, is_bad_text, "a text that isn't taken");
    has_row(&rt, &table, 0, "ann", "$5");
    let answer = table.check(&user(&rt, "bob"), "x");
    check(&rt, answer == Err(FileError::NoUser), "no other user");
}

// A table with users `u0`, `u1` and so on.
fn filled<R: Abort>(rt: &R, alloc: Global, count: usize) -> Table<StoredTexts> {
    let mut table = no_users(alloc);
    for i in 0..count {
        let Ok(name) = format!(in alloc; "u{i}") else {
            panic!(rt; "there is memory")
        };
        assert!(rt; table.set(&user(rt, &name), "$5") == Ok(()), "user {i}");
    }
    table
}

#[test]
fn taken_back_where_the_table_is_full(rt: HostRuntime) {
    let mut table = filled(&rt, rt.alloc(), 4_095);
    let last = user(&rt, "u4095");
    let Ok(new) = table.exchange(&last, "$6") else {
        panic!(rt; "there is room for one more")
    };
    let other = user(&rt, "u4096");
    let is_full = matches!(table.exchange(&other, "$6"), Err(FileError::Full));
    check(&rt, is_full, "no room is left");
    let Ok(old) = table.exchange(&user(&rt, "u0"), HELLO) else {
        panic!(rt; "the user has room")
    };
    has_row(&rt, &table, 0, "u0", HELLO);
    has_row(&rt, &table, 4_095, "u4095", "$6");
    table.put_back(old);
    has_row(&rt, &table, 0, "u0", "$5");
    check(&rt, table.len() == 4_096, "the table is full");
    table.put_back(new);
    check(&rt, table.get(&last).is_none(), "the last user is gone");
    check(&rt, table.len() == 4_095, "there is room again");
    check(&rt, table.set(&other, "$6") == Ok(()), "another user");
    has_row(&rt, &table, 4_095, "u4096", "$6");
}

#[test]
fn a_new_text_alone(rt: HostRuntime) {
    let mut table = no_users(rt.alloc());
    let ann = user(&rt, "ann");
    check(&rt, table.set(&ann, HELLO) == Ok(()), "the first text");
    let Ok(Some(text)) = table.renewed(&ann, "Hello world!", "abcdabcdabc") else {
        panic!(rt; "the password matches")
    };
    check(&rt, text.as_str() == RENEWED, "the new text");
    check(
        &rt,
        table.get(&ann) == Some(HELLO),
        "the table is as it was",
    );
    let line = line_of_row(&ann, &text);
    let Ok(line) = str::from_utf8(line.as_slice()) else {
        panic!(rt; "a line is text")
    };
    check(
        &rt,
        line.strip_prefix("set\tann\t") == Some(RENEWED_LINE),
        "the line",
    );
    let answer = table.exchange(&ann, &text);
    check(&rt, answer.is_ok(), "the new text is taken");
    let answer = table.check(&ann, "Hello world!");
    check(&rt, answer == Ok(true), "the password behind the exchange");
}

// The new text and a line feed.
const RENEWED_LINE: &str =
    "$scrypt$ln=14,r=8,p=1$abcdabcdabc$XUd185cY0rXnj/Ge/MUaiTt89Svsd7UcdrI5w2MoCoU\n";

#[test]
fn no_new_text(rt: HostRuntime) {
    let mut table = no_users(rt.alloc());
    let ann = user(&rt, "ann");
    check(&rt, table.set(&ann, HELLO) == Ok(()), "the first text");
    let answer = table.renewed(&ann, "Hello world", "abcdabcdabc");
    check(&rt, matches!(answer, Ok(None)), "another password");
    let answer = table.renewed(&ann, "Hello world!", "abc");
    check(
        &rt,
        matches!(answer, Err(FileError::BadSalt(_))),
        "a short salt",
    );
    let bob = user(&rt, "bob");
    let answer = table.renewed(&bob, "Hello world!", "abcdabcdabc");
    check(
        &rt,
        matches!(answer, Err(FileError::NoUser)),
        "another user",
    );
}

#[test]
fn names(rt: HostRuntime) {
    let name = user(&rt, "web-adm");
    check(&rt, name.as_str() == "web-adm", "the name as text");
    check(
        &rt,
        name.as_bytes() == b"web-adm".as_slice(),
        "the name as bytes",
    );
    check(&rt, name.copied() == name, "a copy");
    for text in ["web_adm", ""] {
        assert!(rt; UserName::<StoredTexts>::new(text).is_none(), "{text:?}");
    }
    check(&rt, StoredTexts::is_name("a"), "a letter");
}

#[test]
fn texts(rt: HostRuntime) {
    let fault = StoredTexts::text_fault("$5");
    check(&rt, fault == None, "a text");
    let fault = StoredTexts::text_fault("*");
    check(&rt, fault == Some(McfFault::DelimiterInvalid), "no text");
    check(&rt, !StoredTexts::is_locked("*"), "no text is locked");
}

#[test]
fn words(rt: HostRuntime) {
    let word = set_word::<McfFault, StoredError>(Ok(()));
    check(&rt, word == Word::Done, "set");
    let word = check_word::<McfFault, StoredError>(Ok(false));
    check(&rt, word == Word::Mismatch, "check");
    let word = upgrade_word::<McfFault, StoredError>(Ok(true));
    check(&rt, word == Word::Upgraded, "upgrade");
    let word = upgrade_word::<McfFault, StoredError>(Err(FileError::Locked));
    check(&rt, word == Word::Locked, "locked");
    check(&rt, !LineReply::Word(Word::DiskFault).is_good(), "a fault");
    check(
        &rt,
        !LineReply::Word(Word::TooCostly).is_good(),
        "too costly",
    );
    check(&rt, LineReply::Word(Word::Kept).is_good(), "kept");
    let word = upgrade_word::<McfFault, StoredError>(Err(FileError::Unmatched));
    check(&rt, word == Word::Invalid, "no check matches");
    for (word, text) in [
        (Word::Invalid, "invalid"),
        (Word::Locked, "locked"),
        (Word::FileFull, "file-full"),
        (Word::DiskFault, "disk-fault"),
        (Word::Kept, "kept"),
        (Word::TooCostly, "too-costly"),
    ] {
        assert!(rt; word.as_str() == text, "{text}");
    }
}

#[test]
fn laws_are_calls(_rt: HostRuntime) {
    laws::own_pairs::<StoredTexts>();
    laws::upgraded_matches::<StoredTexts>();
    laws::listed_again::<StoredTexts>();
}

// Command files, their output, and the status.
const FILES: [(&[u8], &[u8], u8); 4] = [
    (
        b"set\tann\t$5$saltstring$5B8vYYiY.CVt1RlTTf8KbXBH3hsxY/GNooZaBBGWEc5\ncheck\tann\tHello world!\nupgrade\tann\tabcdabcdabc\tHello world!\ncheck\tann\tHello world!\ncheck\tbob\tx\n",
        b"ok\nmatch\nupgraded\nmatch\nno-user\n",
        1,
    ),
    (
        b"set\tann\t$\nset\tAnn\t$5\nset\tann\t$5\ncheck\tann\tx\nlist\n",
        b"bad-text\nbad-command\nok\ninvalid\nset\tann\t$5\n",
        1,
    ),
    (
        b"list\nset\tbob\t$1$a$b\nset\tann\t$5\nset\tbob\t$6\nlist",
        b"ok\nok\nok\nset\tbob\t$6\nset\tann\t$5\n",
        0,
    ),
    (b"", b"", 0),
];

#[test]
fn command_files(rt: HostRuntime) {
    for (input, output, status) in FILES {
        let mut room = [0; 128];
        let mut source = MemorySource::new(input, 7, &[]);
        let mut sink = MemorySink::new(&mut room, 5, &[]);
        let got = run_file(rt.alloc(), &mut source, &mut sink);
        assert!(rt; got == status, "{output:?}: {got}");
        assert!(rt; sink.bytes() == output, "{output:?}");
    }
}

// How a run stops early: the most bytes of a read, the read that fails, the most bytes of a write, the write that fails, the
// output and the status. Of a failing read the whole lines before are answered, and of a failing write the beginning of the
// output is written.
const STOPS: [(usize, &[u64], usize, &[u64], &[u8], u8); 2] = [
    (18, &[1], 64, &[], b"ok\nset\tann\t$5\n", 3),
    (64, &[], 6, &[1], b"ok\nset", 4),
];

#[test]
fn stopped_early(rt: HostRuntime) {
    let input = b"set\tann\t$5\nlist\nlist\n".as_slice();
    for (read, bad_reads, write, bad_writes, output, status) in STOPS {
        let mut room = [0; 64];
        assert!(rt; read >= 1 && write >= 1);
        let mut source = MemorySource::new(input, read, bad_reads);
        let mut sink = MemorySink::new(&mut room, write, bad_writes);
        let got = run_file(rt.alloc(), &mut source, &mut sink);
        assert!(rt; got == status && sink.bytes() == output, "{status}: {got}");
    }
}

// More than `max` bytes: the lines that end among the first of these are answered.
#[test]
fn stopped_at_the_bound(rt: HostRuntime) {
    let input = b"set\tann\t$5\nlist\nlist\n".as_slice();
    let mut room = [0; 64];
    let mut source = MemorySource::new(input, 64, &[]);
    let mut sink = MemorySink::new(&mut room, 64, &[]);
    let got = run_file_limited(rt.alloc(), &mut source, &mut sink, 20);
    assert!(rt; got == 6, "{got}");
    assert!(rt; sink.bytes() == b"ok\nset\tann\t$5\n".as_slice());
}
