//! Texts of libxcrypt and passlib, and each fault.

ghost use Rattle.std.specs.Prelude.{◌≤◌, length};

use base64ct::Counts;
use sha1_crypt::{
    Sha1Fault, decode_sha1, encode_sha1, laws, sha1_check, sha1_check_counted, sha1_crypt,
    text_cost,
};

// The passwords and the salts of the table are the fronts of these.
const PASSWORD: &[u8] =
    b"abcdefghijklmnopqrstuvwxyzABCDEFGHIJKLMNOPQRSTUVWXYZ0123456789abcdefghijklmnopqrstuvwxyzABCDEFGHIJKLMNOPQRSTUVWXYZ0123456789\xc3\xa9\xff\x80\x01 \t~zyxwvutsrqponmlkjihgfedcbaZYXWVUTSRQPONMLKJIHGFEDCBA9876543210zyxwvutsrqponmlkjihgfedcbaZYXWVUTSRQPONMLKJIHGFEDCBA9876543210zyxwvutsrqponmlkjihgfedcbaZYXWVUTSRQPONMLKJI";

const SALT: &[u8] = b"./0123456789ABCDEFGHIJKLMNOPQRSTUVWXYZabcdefghijklmnopqrstuvwxyz";

// The lengths of a password and a salt, the rounds, and the hash field as libxcrypt's crypt and passlib's own code give it.
const FIELDS: &[(usize, usize, u32, &str)] = &[
    (0, 1, 1, "FS4vmEvbKPPNVArklfmEgJQggrts"),
    (0, 8, 2, "LyfZMUyIqXbRfgf5wgM1evzaKCrk"),
    (1, 64, 1, "JIw5Z3YaEpzlzrx7rFTd02BDT2WV"),
    (8, 8, 3, "/5wwW906h8pvlvABNHrQ5S4Zn1Nd"),
    (20, 2, 10, ".ki/dx4sugtEaHlsLq5MkCil4sw5"),
    (63, 8, 1, "gUNTu5Udj7ED.YVRHWywsfTJxJpf"),
    (64, 8, 2, "IekEy2n7YaqBhyTSKlw.zF511Rtd"),
    (65, 8, 1, "Hz/e/wcuDmBGexduWCuliDZyc8pA"),
    (65, 63, 3, "W/hTdSvWudzQw9v.SEJTWXaXyJW."),
    (127, 16, 9, "Sxwfyrqqw404OOCBfjaN3swMjCAz"),
    (132, 21, 99, "8nKJO5bivMpQaQgD5Z06d9mwJdXF"),
    (255, 64, 100, "NMqQCMUVLsf/sqcDqTFLKDDenBwA"),
    (300, 22, 2, "EarveL6wl1rXM6zudY9pd3YhjP7O"),
    (9, 8, 1_000, "s9KGnW6Aw9yJRJuAB4svCf4w7hAA"),
];

// The first bytes of a text.
fn front(bytes: &[u8], count: usize) -> &[u8]
    ensures { length result.now ≤ length bytes.now }
{
    if count < bytes.len() {
        &bytes[..count]
    } else {
        bytes
    }
}

// Whether a text is the hash field of a password, a salt and rounds by both calls.
fn is_field(password: &[u8], salt: &[u8], rounds: u32, text: &str) -> bool
    requires { 1 ≤ rounds }
{
    let digest = sha1_crypt(password, salt, rounds);
    encode_sha1(&digest).as_slice() == text.as_bytes()
        && decode_sha1(text.as_bytes()) == Some(digest)
}

#[test]
fn fields(rt: HostRuntime) {
    for (password, salt, rounds, text) in FIELDS {
        assert!(rt; 1 <= *rounds);
        let is = is_field(
            front(PASSWORD, *password),
            front(SALT, *salt),
            *rounds,
            text,
        );
        assert!(rt; is, "{text}");
    }
}

// Texts that are the field of no digest: of another length, with another character, or with another byte in the place of the first one.
const NO_FIELDS: &[&str] = &[
    "",
    "G9jISTCOzdh3mPgaiRK7IqRFGpP",
    "G9jISTCOzdh3mPgaiRK7IqRFGpP5.",
    "G9jISTCOzdh3mPgaiRK7IqRFGpP=",
    "G9jISTCOzdh3mPgaiRK7IqRFHpP5",
];

#[test]
fn fields_refused(rt: HostRuntime) {
    for text in NO_FIELDS {
        assert!(rt; decode_sha1(text.as_bytes()) == None, "{text}");
    }
}

// A password, its text, and the rounds. The texts are libxcrypt's and passlib's, but those of passwords with a zero byte, which are made by
// Python's hmac.
const TEXTS: &[(&[u8], &str, u32)] = &[
    (b"", "$sha1$1$salt$G9jISTCOzdh3mPgaiRK7IqRFGpP5", 1),
    (b"pw", "$sha1$2$s$jaZMQW0pzd8y0JOtzRCcOpneWhN6", 2),
    (b"test", "$sha1$1$Wq3GL2Vp$C8U25GvfHS8qGHimExLaiSFlGkAe", 1),
    (
        b"p\xc3\xa4ss",
        "$sha1$19$./09AZaz$dNSibDkWcBFrQTloA.AqkBzstuKE",
        19,
    ),
    (
        b"\xff\xfe",
        "$sha1$3$aaaaaaaaaaaaaaaaaaaaaaaaaaaaaaaaaaaaaaaaaaaaaaaaaaaaaaaaaaaaaaaa$TgSNky0i8Z8m0gt.rUyf62uGZNu/",
        3,
    ),
    (
        b"abc",
        "$sha1$100$abcdefgh$wrraxyGq7l4PujQamUHspQm0PmYM",
        100,
    ),
    (b"abc", "$sha1$1$abcdefgh$Vzgzu7k/CwB0p6OQd0U2h2fgynnm", 1),
    (b"a\0b", "$sha1$2$abcdefgh$9AUYjFOMvpOZ3M9m9g/p94lLGuBu", 2),
    (b"a\0c", "$sha1$2$abcdefgh$O7DO8VMFoYWN2gYiROdN/5Ufc73E", 2),
    (b"a", "$sha1$2$abcdefgh$5jWpivymmpGRtDRg2xw3CxlzK9Mr", 2),
];

// Whether a password has this answer for a text by both calls, with the numbers of a verdict.
fn is_verdict(password: &[u8], stored: &str, matches: bool) -> bool {
    let mut counts = Counts::new();
    sha1_check_counted(password, stored, &mut counts) == Ok(matches)
        && counts.looks() == 32
        && counts.sames() == 25
        && sha1_check(password, stored) == Ok(matches)
}

#[test]
fn verdicts(rt: HostRuntime) {
    for (password, stored, rounds) in TEXTS {
        assert!(rt; is_verdict(password, stored, true), "{stored}");
        assert!(rt; is_verdict(b"a\0d", stored, false), "{stored}");
        assert!(rt; text_cost(stored) == Ok(*rounds), "{stored}");
    }
    // one bit of the hash is another one
    assert!(rt; is_verdict(b"", "$sha1$1$salt$G9jISTCOzdh3mPgaiRK7IqRFGlP5", false));
}

#[test]
fn counts_added(rt: HostRuntime) {
    let mut counts = Counts::new();
    let stored = "$sha1$1$salt$G9jISTCOzdh3mPgaiRK7IqRFGpP5";
    assert!(rt; sha1_check_counted(b"", stored, &mut counts) == Ok(true));
    assert!(rt; sha1_check_counted(b"x", stored, &mut counts) == Ok(false));
    assert!(rt; counts.looks() == 64 && counts.sames() == 50);
}

// Texts and their first fault. Each text but the first of a fault has a later fault too, or is near to one without a fault.
const FAULTS: &[(&str, Sha1Fault)] = &[
    ("", Sha1Fault::WrongId),
    (
        "sha1$1$salt$G9jISTCOzdh3mPgaiRK7IqRFGpP5",
        Sha1Fault::NoDollar,
    ),
    ("x$sha2", Sha1Fault::NoDollar),
    (
        " $sha1$1$salt$G9jISTCOzdh3mPgaiRK7IqRFGpP5",
        Sha1Fault::NoDollar,
    ),
    (
        "$sha2$1$salt$G9jISTCOzdh3mPgaiRK7IqRFGpP5",
        Sha1Fault::WrongId,
    ),
    (
        "$SHA1$1$salt$G9jISTCOzdh3mPgaiRK7IqRFGpP5",
        Sha1Fault::WrongId,
    ),
    ("$sha1x", Sha1Fault::WrongId),
    ("$", Sha1Fault::WrongId),
    ("$sha1", Sha1Fault::NoRounds),
    ("$sha1$", Sha1Fault::NoSalt),
    ("$sha1$1", Sha1Fault::NoSalt),
    ("$sha1$x$", Sha1Fault::NoHash),
    ("$sha1$1$salt", Sha1Fault::NoHash),
    (
        "$sha1$x$salt$G9jISTCOzdh3mPgaiRK7IqRFGpP5$",
        Sha1Fault::Trailing,
    ),
    (
        "$sha1$1$salt$G9jISTCOzdh3mPgaiRK7IqRFGpP5$x$y",
        Sha1Fault::Trailing,
    ),
    ("$sha1$$$", Sha1Fault::Rounds),
    (
        "$sha1$0$salt$G9jISTCOzdh3mPgaiRK7IqRFGpP5",
        Sha1Fault::Rounds,
    ),
    (
        "$sha1$01$salt$G9jISTCOzdh3mPgaiRK7IqRFGpP5",
        Sha1Fault::Rounds,
    ),
    (
        "$sha1$00$salt$G9jISTCOzdh3mPgaiRK7IqRFGpP5",
        Sha1Fault::Rounds,
    ),
    (
        "$sha1$+1$salt$G9jISTCOzdh3mPgaiRK7IqRFGpP5",
        Sha1Fault::Rounds,
    ),
    (
        "$sha1$1 $salt$G9jISTCOzdh3mPgaiRK7IqRFGpP5",
        Sha1Fault::Rounds,
    ),
    ("$sha1$1x$$", Sha1Fault::Rounds),
    (
        "$sha1$4294967296$salt$G9jISTCOzdh3mPgaiRK7IqRFGpP5",
        Sha1Fault::Rounds,
    ),
    (
        "$sha1$18446744073709551617$salt$G9jISTCOzdh3mPgaiRK7IqRFGpP5",
        Sha1Fault::Rounds,
    ),
    (
        "$sha1$1$$G9jISTCOzdh3mPgaiRK7IqRFGpP5",
        Sha1Fault::SaltLength,
    ),
    (
        "$sha1$1$-aaaaaaaaaaaaaaaaaaaaaaaaaaaaaaaaaaaaaaaaaaaaaaaaaaaaaaaaaaaaaaaa$x",
        Sha1Fault::SaltLength,
    ),
    (
        "$sha1$1$sa-t$G9jISTCOzdh3mPgaiRK7IqRFGpP5",
        Sha1Fault::SaltCharacter,
    ),
    ("$sha1$1$\u{e9}$x", Sha1Fault::SaltCharacter),
    ("$sha1$1$salt=$", Sha1Fault::SaltCharacter),
    ("$sha1$1$salt$", Sha1Fault::HashLength),
    (
        "$sha1$1$salt$G9jISTCOzdh3mPgaiRK7IqRFGp-",
        Sha1Fault::HashLength,
    ),
    (
        "$sha1$1$salt$G9jISTCOzdh3mPgaiRK7IqRFGpP5.",
        Sha1Fault::HashLength,
    ),
    (
        "$sha1$1$salt$G9jISTCOzdh3mPgaiRK7IqRFGpP-",
        Sha1Fault::HashCharacter,
    ),
    (
        "$sha1$1$salt$=9jISTCOzdh3mPgaiRK7IqRFGpP5",
        Sha1Fault::HashCharacter,
    ),
    (
        "$sha1$1$salt$G9jISTCOzdh3mP+aiRK7IqRFHpP5",
        Sha1Fault::HashCharacter,
    ),
    (
        "$sha1$1$salt$G9jISTCOzdh3mPgaiRK7IqRFHpP5",
        Sha1Fault::FirstByte,
    ),
    (
        "$sha1$1$salt$G9jISTCOzdh3mPgaiRK7IqRFGoP5",
        Sha1Fault::FirstByte,
    ),
    (
        "$sha1$1$salt$G9jISTCOzdh3mPgaiRK7IqRFGrP5",
        Sha1Fault::FirstByte,
    ),
    (
        "$sha1$1$salt$G9jHSTCOzdh3mPgaiRK7IqRFGpP5",
        Sha1Fault::FirstByte,
    ),
];

// Whether a text has this fault by each call, with no more counted than a fault may.
fn is_fault(stored: &str, fault: Sha1Fault) -> bool {
    let mut counts = Counts::new();
    sha1_check_counted(b"", stored, &mut counts) == Err(fault)
        && counts.looks() <= 32
        && counts.sames() <= 5
        && sha1_check(b"a\0b", stored) == Err(fault)
        && text_cost(stored) == Err(fault)
}

#[test]
fn faults(rt: HostRuntime) {
    for (stored, fault) in FAULTS {
        assert!(rt; is_fault(stored, *fault), "{stored}");
    }
}

// 2^32 - 1 rounds would take an hour, so nothing was hashed.
#[test]
fn rounds_without_a_hash(rt: HostRuntime) {
    assert!(rt; text_cost("$sha1$4294967295$s$jaZMQW0pzd8y0JOtzRCcOpneWhN6") == Ok(4_294_967_295));
    assert!(rt; text_cost("$sha1$480000$s$jaZMQW0pzd8y0JOtzRCcOpneWhN6") == Ok(480_000));
}

#[test]
fn laws_stand() {
    laws::field_once();
    laws::one_text();
    laws::verdict_where_cost();
    laws::matches_exactly();
}
