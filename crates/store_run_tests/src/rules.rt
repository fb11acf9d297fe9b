//! Sessions by rules: bounds on cost, texts that no password matches, upgrades. The scrypt texts are of Python's hashlib, the others of
//! libxcrypt's crypt and of the program argon2; the password is `secret`.

ghost use Rattle.std.specs.Prelude.{◌≡◌};

use crate::helpers::{EMPTY, NONE_FAILS, opened_by};
use any_check::{Costs, NO_COSTS, SchemeCosts};
use any_make::{MakeCost, Pbkdf2Hash};
use line_io::{MemorySink, MemorySource};
use shadow_table::{PLAIN_RULES, TableRuled, TableRules, laws};
use std::alloc::{AllocError, Global};
use std::marker::Brand;
use store_run::serve;
use yescrypt_plain::{ScryptParams, YescryptParams};

const MD5: &str = "$1$abcdefgh$cHJi5PXp/ki/ktXzqlk6I1";

// 16 KiB of memory and of work.
const SCRYPT_16: &str =
    "$scrypt$ln=4,r=8,p=1$c2FsdHNhbHRzYWx0$09/untC+3Bg44eiJQ8bqhTXgE2ali+ykLaojkJZlF9U";

// 64 KiB of memory and of work, with other numbers than the fresh text's.
const SCRYPT_64: &str =
    "$scrypt$ln=7,r=4,p=1$c2FsdHNhbHRzYWx0$Sf+6N5AvhURHD0edNQqoKsvpjjd299ufvR3UmvGRUJ4";

// The numbers of the fresh text.
const SCRYPT_SAME: &str =
    "$scrypt$ln=6,r=8,p=1$c2FsdHNhbHRzYWx0$+8gxrJwSsfl9nL5AlvyjOBNcn94Rg0ThUA0nMHZ9cVg";

// Higher numbers: 64 KiB of memory, 128 of work.
const SCRYPT_128: &str =
    "$scrypt$ln=6,r=8,p=2$c2FsdHNhbHRzYWx0$XdNxkUeoFUB8FvRSsC+gvyGNkEj0NaEt8RFe7+LNaXY";

// 64 KiB of memory, 256 of work, and one lower number.
const SCRYPT_256: &str =
    "$scrypt$ln=5,r=16,p=4$c2FsdHNhbHRzYWx0$auh0S2i3yFBJxit7SLNjf6N9N7xc8wvEhjI06EPBubE";

// 64 KiB of memory and of work.
const ARGON2_64: &str =
    "$argon2id$v=19$m=64,t=1,p=1$c2FsdHNhbHRzYWx0$Sm3MnLdCFk0Af+croKgebRoqqmhbKd88iiW3yUOXn78";

// 1,024 KiB of memory.
const YESCRYPT_1024: &str = "$y$j75$0123456789ab$kb1fsIrDP1wOa4Q3gNpxZkfwQ3ce8kmPbnemuN65IT2";

// The password is `se`, a zero byte and `cret`.
const SCRYPT_ZERO: &str =
    "$scrypt$ln=4,r=8,p=1$c2FsdHNhbHRzYWx0$VDozQ0/kUP3vGZpJNkNbDjLv8Ew+g7HmMjFUYQTYpjI";

// What an upgrade of `secret` makes with the salt `saltsaltsaltsalt`.
const FRESH: &str =
    "$scrypt$ln=6,r=8,p=1$c2FsdHNhbHRzYWx0c2FsdA$xOzFsbpSI1fB3hBh4zAO2h/Sl2gsByfo5K2wIEPSQoM";

// The same with 18 rounds of PBKDF2.
const OF_PBKDF2: &str =
    "$pbkdf2-sha256$i=18,l=32$c2FsdHNhbHRzYWx0c2FsdA$l+7FIFHD/vw8Ajqcv56Q+m6Ez07n8HqjDDrQzqpGOU0";

// Rules by which upgrades make a scrypt text of 64 KiB.
fn to_scrypt() -> TableRules {
    TableRules {
        upgrade_to: MakeCost::Scrypt(ScryptParams { ln: 6, r: 8, p: 1 }),
        ..PLAIN_RULES
    }
}

// The replies to these lines by these rules over a file with no users, where the status is this one.
fn replies(
    alloc: Global,
    rules: &TableRules,
    lines: &str,
    status: u8,
) -> Result<String, AllocError> {
    replies_by::<Brand>(alloc, *rules, lines.as_bytes(), status)
}

// The same by rules that the type has.
fn replies_by<T: TableRuled>(
    alloc: Global,
    rules: TableRules,
    input: &[u8],
    status: u8,
) -> Result<String, AllocError>
    requires rules { rules ≡ T.rules }
{
    let Some(mut store) = opened_by::<T>(alloc, rules, EMPTY, NONE_FAILS) else {
        return Err(AllocError);
    };
    let mut room = [0; 1_024];
    let mut source = MemorySource::new(input, 10_000, &[]);
    let mut sink = MemorySink::new(&mut room, 1_024, &[]);
    if serve(&mut store, &mut source, &mut sink) != status {
        return String::from_str(alloc, "another status");
    }
    match str::from_utf8(sink.bytes()) {
        Ok(text) => String::from_str(alloc, text),
        Err(_) => String::from_str(alloc, "no text"),
    }
}

// Three parts of an input, one after the other.
fn joined(alloc: Global, first: &str, second: &str, third: &str) -> Result<String, AllocError> {
    let mut text = String::from_str(alloc, first)?;
    text.push_str(second)?;
    text.push_str(third)?;
    Ok(text)
}

const SET_ANN: &str = "set\tann\t";

// Texts, the reply to an upgrade, and the text after it.
const UPGRADES: [(&str, &str, &str); 8] = [
    (MD5, "upgraded", FRESH),
    (SCRYPT_16, "upgraded", FRESH),
    (SCRYPT_64, "upgraded", FRESH),
    (ARGON2_64, "upgraded", FRESH),
    (SCRYPT_SAME, "kept", SCRYPT_SAME),
    (SCRYPT_128, "kept", SCRYPT_128),
    (SCRYPT_256, "kept", SCRYPT_256),
    (YESCRYPT_1024, "kept", YESCRYPT_1024),
];

const UPGRADE: &str = "\nupgrade\tann\tc2FsdHNhbHRzYWx0c2FsdA\tsecret\ncheck\tann\tsecret\nlist\n";

#[test]
fn upgrades_never_weaken(rt: HostRuntime) {
    let rules = to_scrypt();
    for (text, word, after) in UPGRADES {
        let Ok(lines) = joined(rt.alloc(), SET_ANN, text, UPGRADE) else {
            panic!(rt; "memory is wanting")
        };
        let Ok(found) = replies(rt.alloc(), &rules, lines.as_str(), 0) else {
            panic!(rt; "memory is wanting")
        };
        let mut parts = found.as_str().lines();
        assert!(rt;
            parts.next() == Some("ok") && parts.next() == Some(word),
            "of {text}"
        );
        assert!(rt; parts.next() == Some("match"), "of {text}");
        let row = parts.next().unwrap_or("");
        assert!(rt; row.strip_prefix("set\tann\t") == Some(after), "of {text}");
    }
}

// More rounds than the fresh text's, of a scheme that isn't weak by itself and of two that are.
const ROUNDS: [(&str, &str); 3] = [
    (
        "$5$rounds=1500$abcdefgh$qXUmNmbLEOn5YPWvewYoPCAAHp5vzLn73xcpCUC256C",
        "kept",
    ),
    ("$sha1$19$abcdefgh$nl4bYNUkvp1kTppWm6kb5cqPQqNG", "upgraded"),
    (
        "$pbkdf2-sha1$i=998$c2FsdHNhbHRzYWx0$dfthYyTIsPBB/GS86Ihv/tqCRr0",
        "upgraded",
    ),
];

#[test]
fn rounds_of_a_weak_scheme_do_not_count(rt: HostRuntime) {
    let rules = TableRules {
        upgrade_to: MakeCost::Pbkdf2(Pbkdf2Hash::Sha256, 18),
        ..PLAIN_RULES
    };
    for (text, word) in ROUNDS {
        let Ok(lines) = joined(rt.alloc(), SET_ANN, text, UPGRADE) else {
            panic!(rt; "memory is wanting")
        };
        let Ok(found) = replies(rt.alloc(), &rules, lines.as_str(), 0) else {
            panic!(rt; "memory is wanting")
        };
        let mut parts = found.as_str().lines();
        assert!(rt;
            parts.next() == Some("ok") && parts.next() == Some(word),
            "of {text}"
        );
        assert!(rt; parts.next() == Some("match"), "of {text}");
        let after = if word == "kept" { text } else { OF_PBKDF2 };
        let row = parts.next().unwrap_or("");
        assert!(rt; row.strip_prefix("set\tann\t") == Some(after), "of {text}");
    }
}

// Users with a text of 16 KiB, with a locked text, and with a text that is none.
const USERS: &str =
    "set\tann\t$scrypt$ln=4,r=8,p=1$c2FsdHNhbHRzYWx0$09/untC+3Bg44eiJQ8bqhTXgE2ali+ykLaojkJZlF9U
set\tbob\t*
set\tdan\tx
";

// Commands over these users, and their replies.
const OTHERS: [(&str, &str); 9] = [
    ("upgrade\tann\tc2FsdHNhbHRzYWx0c2FsdA\tsecres", "mismatch"),
    // Salts of 8 bytes, of 17 bytes, and none.
    ("upgrade\tann\tabcdabcdabc\tsecret", "bad-salt"),
    ("upgrade\tann\tc2FsdHNhbHRzYWx0c2FsdHM\tsecret", "bad-salt"),
    ("upgrade\tann\tx\tsecret", "bad-salt"),
    ("upgrade\tcleo\tc2FsdHNhbHRzYWx0c2FsdA\tsecret", "no-user"),
    ("upgrade\tbob\tc2FsdHNhbHRzYWx0c2FsdA\tsecret", "locked"),
    ("upgrade\tdan\tc2FsdHNhbHRzYWx0c2FsdA\tsecret", "invalid"),
    ("check\tann\tsecret", "match"),
    ("check\tann\tsecres", "mismatch"),
];

#[test]
fn upgrades_that_change_nothing(rt: HostRuntime) {
    let rules = to_scrypt();
    for (line, word) in OTHERS {
        let Ok(lines) = joined(rt.alloc(), USERS, line, "\ncheck\tann\tsecret\n") else {
            panic!(rt; "memory is wanting")
        };
        let status = if word == "match" { 0 } else { 1 };
        let Ok(found) = replies(rt.alloc(), &rules, lines.as_str(), status) else {
            panic!(rt; "memory is wanting")
        };
        let mut parts = found.as_str().lines();
        assert!(rt; parts.nth(3) == Some(word), "{line}");
        assert!(rt; parts.next() == Some("match"), "after {line}");
    }
}

#[test]
fn a_password_of_which_no_text_is_made(rt: HostRuntime) {
    let rules = TableRules {
        upgrade_to: MakeCost::Yescrypt(YescryptParams { ln: 9, r: 8, t: 0 }),
        ..PLAIN_RULES
    };
    let after = "\nupgrade\tann\tc2FsdHNhbHRzYWx0c2FsdA\tse\u{0}cret\ncheck\tann\tse\u{0}cret\n";
    let Ok(lines) = joined(rt.alloc(), SET_ANN, SCRYPT_ZERO, after) else {
        panic!(rt; "memory is wanting")
    };
    match replies(rt.alloc(), &rules, lines.as_str(), 0) {
        Ok(found) => assert!(rt; found.as_str() == "ok\nkept\nmatch\n"),
        Err(AllocError) => panic!(rt; "memory is wanting"),
    }
}

// A bound on scrypt alone.
fn bounded(ln: u64) -> TableRules {
    let any = Costs {
        rounds: 999_999_999,
        cost: 31,
        ln: 23,
        r: 524_287,
        p: 262_144,
        t: 2_097_152,
        m: 2_097_152,
    };
    TableRules {
        limits: Some(SchemeCosts {
            sha_crypt: any,
            bcrypt: any,
            yescrypt: any,
            scrypt: Costs {
                ln,
                r: 8,
                p: 1,
                ..NO_COSTS
            },
            pbkdf2_sha256: any,
            pbkdf2_sha512: any,
            argon2: any,
        }),
        ..to_scrypt()
    }
}

const BELOW_A_BOUND: &str = "
set\tbob\t$1$abcdefgh$cHJi5PXp/ki/ktXzqlk6I1
check\tann\tsecret
check\tann\tsecres
upgrade\tann\tc2FsdHNhbHRzYWx0c2FsdA\tsecret
upgrade\tann\tabcdabcdabc\tsecret
check\tbob\tsecret
check\tcleo\tx
";

#[test]
fn texts_above_the_bound(rt: HostRuntime) {
    let Ok(lines) = joined(rt.alloc(), SET_ANN, SCRYPT_16, BELOW_A_BOUND) else {
        panic!(rt; "memory is wanting")
    };
    for (ln, wanted) in [
        (
            3,
            "ok\nok\ntoo-costly\ntoo-costly\ntoo-costly\nbad-salt\nmatch\nno-user\n",
        ),
        // The fresh text asks for more than the bound.
        (
            4,
            "ok\nok\nmatch\nmismatch\nkept\nbad-salt\nmatch\nno-user\n",
        ),
        (
            6,
            "ok\nok\nmatch\nmismatch\nupgraded\nbad-salt\nmatch\nno-user\n",
        ),
    ] {
        match replies(rt.alloc(), &bounded(ln), lines.as_str(), 1) {
            Ok(found) => assert!(rt; found.as_str() == wanted, "at {ln}"),
            Err(AllocError) => panic!(rt; "memory is wanting"),
        }
    }
}

const TEXTS: &str = "\
set\tann\tx
set\tann\t
set\tann\t$6$abcdefgh$x
set\tann\t*x
set\tann\t!
set\tann\tx:y
set\tann\t$1$abcdefgh$cHJi5PXp/ki/ktXzqlk6I1
";

#[test]
fn texts_that_no_password_matches(rt: HostRuntime) {
    for (strict, wanted) in [
        (true, "invalid\ninvalid\ninvalid\nok\nok\nbad-text\nok\n"),
        (false, "ok\nok\nok\nok\nok\nbad-text\nok\n"),
    ] {
        let rules = TableRules {
            strict,
            ..PLAIN_RULES
        };
        match replies(rt.alloc(), &rules, TEXTS, 1) {
            Ok(found) => assert!(rt; found.as_str() == wanted, "strict: {strict}"),
            Err(AllocError) => panic!(rt; "memory is wanting"),
        }
    }
}

#[test]
fn laws_of_rules_are_calls(_rt: HostRuntime) {
    laws::never_weakens();
    laws::costly_by_verdict();
}
