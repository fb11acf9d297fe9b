//! A table of at most three users, who can be taken away, with a bound on cost and texts that stay at an upgrade: else the policy is
//! that of `pwfile`.

use crate::tests::{check, has_row};
use pw_file::{FileError, LineReply, Policy, StoredTexts, Table, UserName, Word, answer_line};
use scrypt_plain::ScryptKept;
use std::alloc::{AllocError, Global};
use stored_check::{McfFault, StoredError};

// As `StoredTexts`, with at most three users, who can be taken away. Checks of SHA-512-crypt are too costly, and texts of SHA-256-crypt
// stay.
#[derive(Drop)]
struct ThreeUsers;

impl Policy for ThreeUsers {
    ghost use Rattle.pw_file_tests.specs.ThreeUsers.{three_lawful, three_users};

    type TextFault = McfFault;

    type VerdictFault = StoredError;

    type Kept = ScryptKept;

    ghost policy = { three_users };

    fn is_name(name: &str) -> bool {
        StoredTexts::is_name(name)
    }

    fn text_fault(text: &str) -> Option<McfFault> {
        StoredTexts::text_fault(text)
    }

    fn is_locked(text: &str) -> bool {
        StoredTexts::is_locked(text)
    }

    fn verdict(
        alloc: Global,
        kept: &ScryptKept,
        password: &str,
        text: &str,
    ) -> Result<Result<bool, StoredError>, AllocError> {
        StoredTexts::verdict(alloc, kept, password, text)
    }

    fn users_max() -> usize {
        3
    }

    fn takes_remove() -> bool {
        true
    }

    fn is_refused(kept: &ScryptKept, text: &str) -> bool {
        StoredTexts::is_refused(kept, text)
    }

    fn is_too_costly(_kept: &ScryptKept, _password: &str, text: &str) -> bool {
        text.as_bytes().starts_with(b"$6")
    }

    fn salt_fault(kept: &ScryptKept, salt: &str) -> Option<phc::Error> {
        StoredTexts::salt_fault(kept, salt)
    }

    fn renewed(
        alloc: Global,
        kept: &ScryptKept,
        password: &str,
        salt: &str,
        text: &str,
    ) -> Result<Option<String>, AllocError> {
        if text.as_bytes().starts_with(b"$5") {
            return Ok(None);
        }
        StoredTexts::renewed(alloc, kept, password, salt, text)
    }

    ghost lawful = { three_lawful };
}

// Commands over one table, and their words: the fourth user has no room, and those who have a text still do.
const COMMANDS: [(&str, Word); 9] = [
    ("set\tcleo\t$1$a$b", Word::Done),
    ("set\tann\t$5", Word::Done),
    ("set\tdora\t$", Word::BadText),
    ("set\tbob\t$6", Word::Done),
    ("set\tdora\t$", Word::BadText),
    ("set\tdora\t$6", Word::Full),
    ("check\tdora\tx", Word::NoUser),
    ("set\tann\t$1$c$d", Word::Done),
    ("set\teve\t$5", Word::Full),
];

#[test]
fn full_by_the_policy(rt: HostRuntime) {
    let mut table: Table<ThreeUsers> = Table::new(rt.alloc(), ScryptKept::new(rt.alloc()));
    for (line, word) in COMMANDS {
        let reply = answer_line(&mut table, line.as_bytes());
        assert!(rt; reply == Some(LineReply::Word(word)), "{line:?}");
    }
    has_row(&rt, &table, 0, "cleo", "$1$a$b");
    has_row(&rt, &table, 1, "ann", "$1$c$d");
    has_row(&rt, &table, 2, "bob", "$6");
    check(&rt, table.len() == 3, "three users");
}

#[test]
fn room_again(rt: HostRuntime) {
    let mut table: Table<ThreeUsers> = Table::new(rt.alloc(), ScryptKept::new(rt.alloc()));
    let (Some(ann), Some(bob), Some(cleo), Some(dora)) = (
        UserName::new("ann"),
        UserName::new("bob"),
        UserName::new("cleo"),
        UserName::new("dora"),
    ) else {
        panic!(rt; "they are names")
    };
    check(&rt, table.set(&ann, "$5") == Ok(()), "the first user");
    check(&rt, table.set(&bob, "$6") == Ok(()), "the second user");
    let Ok(last) = table.exchange(&cleo, "$1$a$b") else {
        panic!(rt; "there is room for one more")
    };
    let is_full = matches!(table.exchange(&dora, "$5"), Err(FileError::Full));
    check(&rt, is_full, "no room is left");
    table.put_back(last);
    check(&rt, table.set(&dora, "$5") == Ok(()), "there is room again");
    has_row(&rt, &table, 2, "dora", "$5");
}

// Commands over one table, and their words: a user who is taken away is as one who was never there.
const REMOVALS: [(&str, Word); 15] = [
    ("remove\tann", Word::NoUser),
    ("set\tann\t$5", Word::Done),
    ("set\tbob\t$6", Word::Done),
    ("set\tcleo\t$1$a$b", Word::Done),
    ("set\tdora\t$5", Word::Full),
    ("remove\tann", Word::Done),
    ("check\tann\tx", Word::NoUser),
    ("upgrade\tann\tabcdabcdabc\tx", Word::NoUser),
    ("remove\tann", Word::NoUser),
    ("remove\tAnn", Word::BadCommand),
    ("remove\tbob\t", Word::BadCommand),
    ("remove", Word::BadCommand),
    ("set\tbob", Word::BadCommand),
    ("set\tdora\t$5", Word::Done),
    ("set\tann\t$6", Word::Full),
];

#[test]
fn taken_away(rt: HostRuntime) {
    let mut table: Table<ThreeUsers> = Table::new(rt.alloc(), ScryptKept::new(rt.alloc()));
    for (line, word) in REMOVALS {
        let reply = answer_line(&mut table, line.as_bytes());
        assert!(rt; reply == Some(LineReply::Word(word)), "{line:?}");
    }
    // The last user took the first one's place.
    has_row(&rt, &table, 0, "cleo", "$1$a$b");
    has_row(&rt, &table, 1, "bob", "$6");
    has_row(&rt, &table, 2, "dora", "$5");
    check(&rt, table.len() == 3, "three users");
}

#[test]
fn the_last_and_the_only_one_taken_away(rt: HostRuntime) {
    let mut table: Table<ThreeUsers> = Table::new(rt.alloc(), ScryptKept::new(rt.alloc()));
    let (Some(ann), Some(bob)) = (UserName::new("ann"), UserName::new("bob")) else {
        panic!(rt; "they are names")
    };
    check(&rt, table.set(&ann, "$5") == Ok(()), "the first user");
    check(&rt, table.set(&bob, "$6") == Ok(()), "the second user");
    check(&rt, table.remove(&bob) == Ok(()), "the last one");
    has_row(&rt, &table, 0, "ann", "$5");
    check(&rt, table.len() == 1, "one user is left");
    check(&rt, table.remove(&bob) == Err(FileError::NoUser), "again");
    check(&rt, table.remove(&ann) == Ok(()), "the only one");
    check(&rt, table.len() == 0, "no user is left");
    check(&rt, table.set(&bob, "$1$a$b") == Ok(()), "set again");
    has_row(&rt, &table, 0, "bob", "$1$a$b");
}

// A text of SHA-256-crypt and one of SHA-512-crypt of `Hello world!`, both of the specification (Drepper); and one of scrypt of Python's
// hashlib, over OpenSSL.
const SHA256: &str = "$5$saltstring$5B8vYYiY.CVt1RlTTf8KbXBH3hsxY/GNooZaBBGWEc5";

const SHA512: &str =
    "$6$saltstring$svn8UoSVapNtMuq1ukKS4tPQd8iKwSMHWjl/O817G3uBnIFNjnQJuesI68u4OTLiBFdcbYEdFCoEOfaS35inz1";

const SCRYPT: &str =
    "$scrypt$ln=14,r=8,p=1$abcdabcdabc$XUd185cY0rXnj/Ge/MUaiTt89Svsd7UcdrI5w2MoCoU";

// What is asked of a user with a text, and the word of the reply.
const RULED: [(&str, &str, Word); 9] = [
    (SHA256, "check\tann\tHello world!", Word::Match),
    (
        SHA256,
        "upgrade\tann\tabcdabcdabc\tHello world!",
        Word::Kept,
    ),
    (
        SHA256,
        "upgrade\tann\tabcdabcdabc\tHello world",
        Word::Mismatch,
    ),
    (SHA256, "upgrade\tann\tabc\tHello world!", Word::BadSalt),
    (SHA512, "check\tann\tHello world!", Word::TooCostly),
    (SHA512, "check\tann\tHello world", Word::TooCostly),
    (
        SHA512,
        "upgrade\tann\tabcdabcdabc\tHello world!",
        Word::TooCostly,
    ),
    (SHA512, "upgrade\tann\tabc\tHello world!", Word::BadSalt),
    (
        SCRYPT,
        "upgrade\tann\tabcdabcdabc\tHello world!",
        Word::Upgraded,
    ),
];

#[test]
fn bounds_and_texts_that_stay(rt: HostRuntime) {
    let Some(ann) = UserName::<ThreeUsers>::new("ann") else {
        panic!(rt; "it is a name")
    };
    for (text, line, word) in RULED {
        let mut table: Table<ThreeUsers> = Table::new(rt.alloc(), ScryptKept::new(rt.alloc()));
        assert!(rt; table.set(&ann, text) == Ok(()), "{text}");
        let reply = answer_line(&mut table, line.as_bytes());
        assert!(rt; reply == Some(LineReply::Word(word)), "{line:?} of {text}");
        assert!(rt; table.get(&ann) == Some(text), "{line:?} changes no text");
    }
}

#[test]
fn most_users(rt: HostRuntime) {
    check(&rt, StoredTexts::users_max() == 4_096, "of pwfile");
    check(&rt, ThreeUsers::users_max() == 3, "of this test");
    check(&rt, !StoredTexts::takes_remove(), "pwfile keeps its users");
}
