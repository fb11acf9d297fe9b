//! Texts that outside programs made: openssl, glibc's and libxcrypt's crypt, Python's hashlib and the program argon2.

use any_check::AnyError;
use any_make::MakeCost;
use line_io::{MemorySink, MemorySource};
use pw_file::{
    FileError, LineReply, Policy, Table, UserName, Word, answer_line, laws, run_commands,
};
use shadow_table::{
    AnyKept, AnyTexts, FieldFault, PLAIN_RULES, TableRuled, TableRules, answer_word, is_field,
    is_locked_text, is_user_name,
};
use std::alloc::Global;
use std::marker::Brand;
use std::process::Abort;
use yescrypt_plain::ScryptParams;

// Texts of the password `secret`, one of each scheme.
const TEXTS: [&str; 9] = [
    "$1$abcdefgh$cHJi5PXp/ki/ktXzqlk6I1",
    "$5$rounds=1500$abcdefgh$qXUmNmbLEOn5YPWvewYoPCAAHp5vzLn73xcpCUC256C",
    "$6$abcdefgh$ltjgWl6579NluT/Vi1nwEvcil.G5Nbc4NiXZaNGStk8PSwGfQv72N2CKPPrVACtLtip/cZ/1GM/O6IND4WQhG.",
    "$2b$04$abcdefghijklmnopqrstuu2r9OfJnfCsdneAXAGHnS4UpFFP8WIrW",
    "$y$j75$0123456789ab$kb1fsIrDP1wOa4Q3gNpxZkfwQ3ce8kmPbnemuN65IT2",
    "$7$4/....0....SodiumChloride$V4S.p0ArbLXh9bvI9g1ReO/qmFMyvEX4e98XynaDdN9",
    "$scrypt$ln=4,r=8,p=1$c2FsdHNhbHRzYWx0$09/untC+3Bg44eiJQ8bqhTXgE2ali+ykLaojkJZlF9U",
    "$pbkdf2-sha256$i=1000,l=32$c2FsdHNhbHRzYWx0$sVaWem31qy3rw+Ldi3plA/XzhMSNi9/XHnnD1Ytj05o",
    "$argon2id$v=19$m=64,t=1,p=1$c2FsdHNhbHRzYWx0$Sm3MnLdCFk0Af+croKgebRoqqmhbKd88iiW3yUOXn78",
];

// Texts without a verdict, and their words.
const FAULTS: [(&str, &str); 5] = [
    ("x", "no-scheme"),
    ("", "no-scheme"),
    ("$1$abcdefgh", "md5-format"),
    ("$6$abcdefgh$x", "sha-format"),
    (
        "$2b$03$abcdefghijklmnopqrstuu2r9OfJnfCsdneAXAGHnS4UpFFP8WIrW",
        "bcrypt-cost",
    ),
];

// The salt of 16 bytes `saltsaltsaltsalt`.
const SALT: &str = "c2FsdHNhbHRzYWx0c2FsdA";

// What an upgrade to scrypt makes of `secret` and that salt: hashlib.scrypt of Python, over OpenSSL.
const RENEWED: &str =
    "$scrypt$ln=14,r=8,p=1$c2FsdHNhbHRzYWx0c2FsdA$1RL+Xg0R5UtrsEx1/34MJGhCuDjQdo5E2HyYnASS5FE";

// Names, and texts that are none.
// The last two: 64 bytes are a name, and U+00A0 is no control character.
const NAMES: [&str; 8] = [
    "a",
    "web_adm",
    "Joe",
    "anna@example.org",
    "O'Neil",
    "Zoë",
    "1234567890123456789012345678901234567890123456789012345678901234",
    "a\u{a0}b",
];

const NO_NAMES: [&str; 7] = [
    "",
    "a:b",
    "a\tb",
    "a\nb",
    "a\u{7f}",
    "a\u{85}b",
    "12345678901234567890123456789012345678901234567890123456789012345",
];

// The rules where nothing else is said.
type PlainTexts = AnyTexts<Brand>;

// A table with no users.
fn no_users(alloc: Global) -> Table<PlainTexts> {
    Table::new(alloc, AnyKept::new(alloc, PLAIN_RULES))
}

// Stops a test at a check that fails, and names the check.
fn check<R: Abort>(rt: &R, holds: bool, what: &str) {
    assert!(rt; holds, "{what}");
}

// The user of this name.
fn user<R: Abort>(rt: &R, name: &str) -> UserName<PlainTexts> {
    match UserName::new(name) {
        Some(user) => user,
        None => panic!(rt; "{name:?} is no name"),
    }
}

#[test]
fn names(rt: HostRuntime) {
    for name in NAMES {
        assert!(rt; is_user_name(name), "{name:?}");
        assert!(rt; PlainTexts::is_name(name), "{name:?}");
    }
    for name in NO_NAMES {
        assert!(rt; !is_user_name(name), "{name:?}");
        assert!(rt; UserName::<PlainTexts>::new(name).is_none(), "{name:?}");
    }
}

#[test]
fn texts(rt: HostRuntime) {
    for text in TEXTS {
        assert!(rt; is_field(text), "{text:?}");
        assert!(rt; !is_locked_text(text), "{text:?}");
    }
    for text in ["*", "!!", "!$1$abcdefgh$cHJi5PXp/ki/ktXzqlk6I1"] {
        assert!(rt; is_locked_text(text), "{text:?}");
    }
}

// Texts, and the fault of each.
const FIELDS: [(&str, Option<FieldFault>); 4] = [
    ("a:b", Some(FieldFault::Byte)),
    ("a\nb", Some(FieldFault::Byte)),
    ("ë", Some(FieldFault::Byte)),
    ("", None),
];

#[test]
fn fields(rt: HostRuntime) {
    for (text, fault) in FIELDS {
        assert!(rt; PlainTexts::text_fault(text) == fault, "{text:?}");
    }
    check(&rt, !is_locked_text(""), "no text isn't locked");
    check(&rt, PlainTexts::is_locked("*LK*"), "*LK* is locked");
}

#[test]
fn each_scheme(rt: HostRuntime) {
    let mut table = no_users(rt.alloc());
    let user = user(&rt, "web_adm");
    for text in TEXTS {
        assert!(rt; table.set(&user, text) == Ok(()), "{text:?}");
        assert!(rt; table.check(&user, "secret") == Ok(true), "{text:?}");
        assert!(rt; table.check(&user, "Secret") == Ok(false), "{text:?}");
    }
    assert!(rt; table.len() == 1);
}

#[test]
fn no_verdict(rt: HostRuntime) {
    let mut table = no_users(rt.alloc());
    let user = user(&rt, "Joe");
    for (text, word) in FAULTS {
        assert!(rt; table.set(&user, text) == Ok(()), "{text:?}");
        let answer = table.check(&user, "secret");
        let is_fault = matches!(answer, Err(FileError::Check(_)));
        assert!(rt; is_fault && answer_word(answer) == word, "{text:?}");
        let reply = answer_line(&mut table, b"check\tJoe\tsecret");
        assert!(rt; reply == Some(LineReply::Word(Word::Invalid)), "{text:?}");
    }
}

#[test]
fn a_refused_text_changes_nothing(rt: HostRuntime) {
    let mut table = no_users(rt.alloc());
    let user = user(&rt, "Joe");
    check(&rt, table.set(&user, "x") == Ok(()), "a text of no scheme");
    let answer = table.check(&user, "secret");
    let no_scheme = FileError::Check(AnyError::NoScheme);
    check(&rt, answer == Err(no_scheme), "no scheme");
    let answer = table.set(&user, "a:b");
    check(
        &rt,
        answer == Err(FileError::BadText(FieldFault::Byte)),
        "a colon",
    );
    check(&rt, table.get(&user) == Some("x"), "the first text");
}

#[test]
fn words_of_answers(rt: HostRuntime) {
    for (answer, word) in [
        (Ok(true), "match"),
        (Ok(false), "mismatch"),
        (Err(FileError::Locked), "locked"),
        (Err(FileError::NoUser), "no-user"),
    ] {
        assert!(rt; answer_word(answer) == word, "{word}");
    }
}

#[test]
fn locked(rt: HostRuntime) {
    let mut table = no_users(rt.alloc());
    let user = user(&rt, "anna@example.org");
    let hidden = "!$1$abcdefgh$cHJi5PXp/ki/ktXzqlk6I1";
    check(&rt, table.set(&user, hidden) == Ok(()), "a locked text");
    let answer = table.check(&user, "secret");
    check(&rt, answer == Err(FileError::Locked), "check");
    for salt in ["abcdabcdabc", "abc"] {
        let answer = table.upgrade(&user, "secret", salt);
        assert!(rt; answer == Err(FileError::Locked), "{salt}");
    }
    let answer = table.renewed(&user, "secret", "abcdabcdabc");
    check(&rt, matches!(answer, Err(FileError::Locked)), "renewed");
    check(&rt, table.get(&user) == Some(hidden), "the text is kept");
    // A text in its place unlocks.
    check(
        &rt,
        table.set(&user, &hidden[1..]) == Ok(()),
        "another text",
    );
    check(&rt, table.check(&user, "secret") == Ok(true), "unlocked");
}

// Users with their texts, of whom two are taken away.
#[test]
fn taken_away(rt: HostRuntime) {
    let mut table = no_users(rt.alloc());
    for (line, word) in [
        ("set\tZoë\t*", Word::Done),
        ("set\tJoe\t!x", Word::Done),
        ("set\tann\t$1$abcdefgh$cHJi5PXp/ki/ktXzqlk6I1", Word::Done),
        ("set\tbob\t", Word::Done),
        ("remove\tJoe", Word::Done),
        ("remove\tJoe", Word::NoUser),
        ("check\tJoe\tsecret", Word::NoUser),
        ("check\tann\tsecret", Word::Match),
        ("remove\tann", Word::Done),
        ("check\tann\tsecret", Word::NoUser),
        ("remove\ta:b", Word::BadCommand),
        ("set\tJoe\tx", Word::Done),
        ("check\tZoë\tsecret", Word::Locked),
    ] {
        let reply = answer_line(&mut table, line.as_bytes());
        assert!(rt; reply == Some(LineReply::Word(word)), "{line:?}");
    }
    for (number, name, text) in [(0, "Zoë", "*"), (1, "bob", ""), (2, "Joe", "x")] {
        assert!(rt;
            table.row(number) == Some((user(&rt, name), text)),
            "row {number}"
        );
    }
    check(&rt, table.len() == 3, "three users are left");
    check(&rt, PlainTexts::takes_remove(), "users can be taken away");
}

// Upgrades to scrypt at N = 2^14.
struct ToScrypt;

impl TableRuled for ToScrypt {
    ghost use Rattle.std.specs.Prelude.{None, false};
    ghost use Rattle.any_make.specs.declared.scheme.MakeCost.TheVariants.{Scrypt};

    ghost rules = { record { limits = None; strict = false; upgrade_to = Scrypt (record { ln = 14; r = 8; p = 1 }) } };
}

const TO_SCRYPT: TableRules = TableRules {
    limits: None,
    strict: false,
    upgrade_to: MakeCost::Scrypt(ScryptParams { ln: 14, r: 8, p: 1 }),
};

#[test]
fn upgraded(rt: HostRuntime) {
    let kept = AnyKept::<ToScrypt>::new(rt.alloc(), TO_SCRYPT);
    let mut table = Table::<AnyTexts<ToScrypt>>::new(rt.alloc(), kept);
    let Some(user) = UserName::new("Joe") else {
        panic!(rt; "it is a name")
    };
    check(&rt, table.set(&user, TEXTS[3]) == Ok(()), "the first text");
    let answer = table.upgrade(&user, "Secret", SALT);
    check(&rt, answer == Ok(false), "another password");
    check(&rt, table.get(&user) == Some(TEXTS[3]), "the text is kept");
    for (salt, fault) in [
        ("abc", phc::Error::SaltTooShort),
        ("abcdabcdabc", phc::Error::SaltTooShort),
        ("c2FsdHNhbHRzYWx0c2FsdHM", phc::Error::SaltTooLong),
    ] {
        let answer = table.upgrade(&user, "secret", salt);
        assert!(rt; answer == Err(FileError::BadSalt(fault)), "{salt}");
    }
    let answer = table.upgrade(&user, "secret", SALT);
    check(&rt, answer == Ok(true), "the password");
    check(&rt, table.get(&user) == Some(RENEWED), "the new text");
    check(
        &rt,
        table.check(&user, "secret") == Ok(true),
        "a match after the upgrade",
    );
    let answer = table.check(&user, "Secret");
    check(&rt, answer == Ok(false), "a mismatch after the upgrade");
    let answer = table.upgrade(&user, "secret", SALT);
    check(&rt, answer == Err(FileError::Kept), "the new text stays");
    check(&rt, table.get(&user) == Some(RENEWED), "as it was");
}

// More users than `pwfile` takes.
#[test]
fn many_users(rt: HostRuntime) {
    check(&rt, PlainTexts::users_max() == 1_000_000, "the most users");
    let mut table = no_users(rt.alloc());
    for i in 0..4_098 {
        let Ok(name) = format!(in rt.alloc(); "u{i}") else {
            panic!(rt; "there is memory")
        };
        assert!(rt; table.set(&user(&rt, &name), "*") == Ok(()), "user {i}");
    }
    check(&rt, table.len() == 4_098, "each user has a text");
    check(
        &rt,
        table.get(&user(&rt, "u4097")) == Some("*"),
        "the last one",
    );
}

// A command file, its output and the status.
#[test]
fn command_file(rt: HostRuntime) {
    let input =
        b"set\tweb_adm\t*\ncheck\tweb_adm\tsecret\nset\tJoe\t$1$abcdefgh$cHJi5PXp/ki/ktXzqlk6I1\ncheck\tJoe\tsecret\nset\tJoe\ta:b\nset\ta:b\tx\ncheck\tweb_adm\tx\nlist\n";
    let output =
        b"ok\nlocked\nok\nmatch\nbad-text\nbad-command\nlocked\nset\tweb_adm\t*\nset\tJoe\t$1$abcdefgh$cHJi5PXp/ki/ktXzqlk6I1\n";
    let mut room = [0; 128];
    let mut source = MemorySource::new(input.as_slice(), 7, &[]);
    let mut sink = MemorySink::new(&mut room, 5, &[]);
    let kept = AnyKept::new(rt.alloc(), PLAIN_RULES);
    let got = run_commands::<PlainTexts, MemorySource<'_>, MemorySink<'_>>(
        rt.alloc(),
        kept,
        &mut source,
        &mut sink,
        4_096,
    );
    assert!(rt; got == 1);
    assert!(rt; sink.bytes() == output.as_slice());
}

#[test]
fn laws_are_calls(_rt: HostRuntime) {
    laws::own_pairs::<PlainTexts>();
    laws::upgraded_matches::<PlainTexts>();
    laws::listed_again::<PlainTexts>();
}
