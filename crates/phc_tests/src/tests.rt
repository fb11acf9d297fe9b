//! Records: rows that say what is refused, texts from outside, and one call of each kind.

use base64ct::Counts;
use phc::{
    Error, Ident, Output, ParamsString, PasswordHash, PasswordHashString, PhcStringError, Salt,
    laws,
};
use std::alloc::{AllocError, Global};
use std::cmp::Ordering;
use std::fmt::Display;
use std::process::Abort;

const FIELD_REFUSED: Error = Error::Base64(base64ct::Error::InvalidEncoding);

const SHORT: Error = Error::OutputSize {
    provided: Ordering::Less,
    expected: 10,
};

// Texts and their first fault.
const REFUSED: &[(&str, Error)] = &[
    ("", Error::MissingField),
    ("x", Error::MissingField),
    ("x$y", Error::MissingField),
    ("$", Error::ParamNameInvalid),
    ("$A", Error::ParamNameInvalid),
    ("$a_b$v=x", Error::ParamNameInvalid),
    (
        "$aaaaaaaaaaaaaaaaaaaaaaaaaaaaaaaaa",
        Error::ParamNameInvalid,
    ),
    ("$x$=1", Error::ParamNameInvalid),
    ("$x$a=1,", Error::ParamNameInvalid),
    ("$x$a=1,,b=2", Error::ParamNameInvalid),
    (
        "$x$v=11111111111111111111111111111111111111111111111111111111111111111",
        Error::ParamValueTooLong,
    ),
    (
        "$x$a=11111111111111111111111111111111111111111111111111111111111111111",
        Error::ParamValueTooLong,
    ),
    ("$x$v=4294967296", Error::ParamValueInvalid),
    ("$x$v=", Error::ParamValueInvalid),
    ("$argon2d$v=019$m=512", Error::ParamValueInvalid),
    (
        "$scrypt$v=019$ln=16,r=8,p=1$aM15713r3Xsvxbi31lqr1Q",
        Error::ParamValueInvalid,
    ),
    ("$x$a=1,b", Error::ParamValueInvalid),
    ("$x$a==", Error::ParamValueInvalid),
    ("$x$a=1=2", Error::ParamValueInvalid),
    ("$x$a=1;2", Error::ParamValueInvalid),
    (
        "$x$a=111111111111111111111111111111111111111111111111111111111111111111111111111111111111111111111111111111111111111111111111111111",
        Error::ParamsMaxExceeded,
    ),
    (
        "$2a$12$R9h/cIPz0gi.URNNX3kh2OPST9/PgBkqquzi.Ss7KIUgO2t0jWMUW",
        Error::SaltTooShort,
    ),
    ("$x$", Error::SaltTooShort),
    (
        "$x$AAAAAAAAAAAAAAAAAAAAAAAAAAAAAAAAAAAAAAAAAAAAAAAAAAAAAAAAAAAAAAAAA",
        Error::SaltTooLong,
    ),
    ("$x$abcdabcdab.", FIELD_REFUSED),
    ("$x$abcdabcdabc$AAAAA", FIELD_REFUSED),
    ("$x$abcdabcdabc$AAAAAAAAAAAAA.", FIELD_REFUSED),
    (
        "$scrypt$ln=4,r=1,p=1$abcdabcdabc$.......................................................................................",
        Error::Base64(base64ct::Error::InvalidLength),
    ),
    ("$x$abcdabcdabc$AAAA", SHORT),
    ("$x$abcdabcdabc$AAAAAAAAAAAAAA$y", Error::TrailingData),
    ("$x$abcdabcdabc$AAAAAAAAAAAAAA$", Error::TrailingData),
];

fn refused() -> &'static [(&'static str, Error)] {
    REFUSED
}

// Texts that are read, and what is looked up and compared of them.
const READ: &[(&str, u64, u64)] = &[
    ("$x", 0, 0),
    ("$x$a=", 0, 0),
    ("$x$v=0", 0, 0),
    ("$x$v=1,a=2", 0, 0),
    ("$x$v=1$v=1", 0, 0),
    ("$x$a=1,a=2", 0, 0),
    ("$x$abcdabcdabc", 12, 4),
    ("$aaaaaaaaaaaaaaaaaaaaaaaaaaaaaaaa", 0, 0),
    ("$x$v=4294967295", 0, 0),
    ("$scrypt$ln=16,r=8,p=1$aM15713r3Xsvxbi31lqr1Q", 24, 4),
    (SCRYPT, 68, 8),
    (ARGON2, 48, 8),
];

fn read() -> &'static [(&'static str, u64, u64)] {
    READ
}

const SCRYPT: &str =
    "$scrypt$ln=16,r=8,p=1$aM15713r3Xsvxbi31lqr1Q$nFNh2CVHVjNldFVKDHDlm4CbdRSCdEBsjjJxD+iCs5E";

const ARGON2: &str = "$argon2d$v=19$m=512,t=3,p=2$5VtWOO3cGWYQHEMaYGbsfQ$AcmqasQgW/wI6wAHAMk4aQ";

// The bytes of the salt and the hash of the last text, by another program.
const ARGON2_SALT: [u8; 16] = [
    0xe5, 0x5b, 0x56, 0x38, 0xed, 0xdc, 0x19, 0x66, 0x10, 0x1c, 0x43, 0x1a, 0x60, 0x66, 0xec, 0x7d,
];

const ARGON2_HASH: [u8; 16] = [
    0x01, 0xc9, 0xaa, 0x6a, 0xc4, 0x20, 0x5b, 0xfc, 0x08, 0xeb, 0x00, 0x07, 0x00, 0xc9, 0x38, 0x69,
];

fn record(rt: &impl Abort, text: &str) -> PasswordHash {
    PasswordHash::new(text).expect(rt, "a record")
}

// ---- records

// A text is refused for its first fault, and little is looked up and compared of the text.
fn refused_for(rt: &impl Abort, text: &str, fault: Error) {
    let mut counts = Counts::new();
    let refusal = PasswordHash::new(text).err();
    assert!(rt; refusal == Some(fault), "{text}");
    let refusal = PasswordHash::new_counted(text, &mut counts).err();
    assert!(rt; refusal == Some(fault), "{text}");
    assert!(rt; counts.looks() <= 156 && counts.sames() <= 8, "{text}");
}

#[test]
fn refused_texts(rt: HostRuntime) {
    for (text, fault) in refused() {
        refused_for(&rt, text, *fault);
    }
}

#[test]
fn most_counts_of_a_refusal(rt: HostRuntime) {
    let text = "$x$AAAAAAAAAAAAAAAAAAAAAAAAAAAAAAAAAAAAAAAAAAAAAAAAAAAAAAAAAAAAAAAA\
        $......................................................................................";
    let mut counts = Counts::new();
    assert!(&rt; PasswordHash::new_counted(text, &mut counts) == Err(FIELD_REFUSED));
    assert!(&rt; counts.looks() == 156 && counts.sames() == 8);
}

// What is printed of a value.
fn prints(rt: &impl Abort, alloc: Global, value: &impl Display, text: &str) -> bool {
    let printed = format!(in alloc; "{value}").expect(rt, "want of memory");
    printed.as_str() == text
}

fn read_as(rt: &impl Abort, alloc: Global, text: &str) {
    let read = record(rt, text);
    assert!(rt; read.is_printable(), "{text}");
    assert!(rt; prints(rt, alloc, &read, text), "{text}");
    assert!(rt; text.parse::<PasswordHash>() == Ok(read), "{text}");
}

fn counted_as(rt: &impl Abort, text: &str, looks: u64, sames: u64) {
    let mut counts = Counts::new();
    let read = PasswordHash::new_counted(text, &mut counts);
    assert!(rt; read == Ok(record(rt, text)), "{text}");
    assert!(rt;
        counts.looks() == looks && counts.sames() == sames,
        "{text}"
    );
}

#[test]
fn read_texts(rt: HostRuntime) {
    for (text, looks, sames) in read() {
        counted_as(&rt, text, *looks, *sames);
        read_as(&rt, rt.alloc(), text);
    }
}

// The record of `ARGON2`.
fn parts_of(rt: &impl Abort, read: &PasswordHash) {
    assert!(rt; read.algorithm == Ident::new_unwrap("argon2d"));
    assert!(rt; read.version == Some(19));
    assert!(rt; read.params.as_str() == "m=512,t=3,p=2");
}

fn bytes_of(rt: &impl Abort, read: &PasswordHash) {
    assert!(rt; read.salt == Salt::new(&ARGON2_SALT).ok());
    assert!(rt; read.hash == Output::new(&ARGON2_HASH).ok());
}

#[test]
fn parts_of_a_record(rt: HostRuntime) {
    let read = record(&rt, ARGON2);
    parts_of(&rt, &read);
    bytes_of(&rt, &read);
    assert!(&rt; read != record(&rt, SCRYPT));
}

fn version(rt: &impl Abort, text: &str) -> Option<u32> {
    record(rt, text).version
}

#[test]
fn versions(rt: HostRuntime) {
    assert!(&rt; version(&rt, "$x$v=1,a=2") == None);
    assert!(&rt; version(&rt, "$x$v=1$v=1") == Some(1));
}

#[test]
fn record_without_a_salt(rt: HostRuntime) {
    let mut unsalted = record(&rt, ARGON2);
    unsalted.salt = None;
    assert!(&rt; !unsalted.is_printable());
    assert!(&rt; prints(&rt, rt.alloc(), &unsalted, "$argon2d$v=19$m=512,t=3,p=2"));
}

#[test]
fn record_of_a_version(rt: HostRuntime) {
    let mut lone = record(&rt, "$x$a=1");
    lone.params = "v=1".parse::<ParamsString>().expect(&rt, "parameters");
    assert!(&rt; !lone.is_printable());
    lone.version = Some(1);
    assert!(&rt; lone.is_printable());
    assert!(&rt; prints(&rt, rt.alloc(), &lone, "$x$v=1$v=1"));
}

#[test]
fn laws_hold() {
    laws::parses_back();
    laws::prints_back();
}

// ---- kept texts

fn kept(rt: &impl Abort, alloc: Global, text: &str) -> PasswordHashString {
    PasswordHashString::new(alloc, text).expect(rt, "a record")
}

// The kept text of `ARGON2`.
fn kept_text(rt: &impl Abort, alloc: Global, kept: &PasswordHashString) {
    assert!(rt; kept.as_str() == ARGON2);
    assert!(rt; kept.as_bytes() == ARGON2.as_bytes());
    assert!(rt; kept.len() == 73);
    assert!(rt; prints(rt, alloc, kept, ARGON2));
}

fn kept_parts(rt: &impl Abort, kept: &PasswordHashString, read: &PasswordHash) {
    assert!(rt; kept.algorithm() == read.algorithm);
    assert!(rt; kept.version() == Some(19));
    assert!(rt; kept.salt() == read.salt);
    assert!(rt; kept.hash() == read.hash);
}

fn kept_record(rt: &impl Abort, kept: &PasswordHashString, read: &PasswordHash) {
    assert!(rt; &kept.password_hash() == read);
    assert!(rt; &kept.params() == &read.params);
}

fn kept_as(rt: &impl Abort, alloc: Global, kept: &PasswordHashString) {
    let read = record(rt, ARGON2);
    kept_text(rt, alloc, kept);
    kept_parts(rt, kept, &read);
    kept_record(rt, kept, &read);
}

#[test]
fn kept_texts(rt: HostRuntime) {
    let kept = kept(&rt, rt.alloc(), ARGON2);
    kept_as(&rt, rt.alloc(), &kept);
}

#[test]
fn kept_clones(rt: HostRuntime) {
    let kept = kept(&rt, rt.alloc(), ARGON2)
        .try_clone()
        .expect(&rt, "want of memory");
    kept_as(&rt, rt.alloc(), &kept);
}

#[test]
fn kept_of_records(rt: HostRuntime) {
    let read = record(&rt, ARGON2);
    assert!(&rt; read.is_printable());
    let kept = PasswordHashString::from_record(rt.alloc(), &read).expect(&rt, "want of memory");
    kept_as(&rt, rt.alloc(), &kept);
}

#[test]
fn kept_by_records(rt: HostRuntime) {
    let read = record(&rt, ARGON2);
    assert!(&rt; read.is_printable());
    let kept = read.serialize(rt.alloc()).expect(&rt, "want of memory");
    kept_as(&rt, rt.alloc(), &kept);
}

// Whether the kept text is what this record is kept as.
fn is_kept(rt: &impl Abort, alloc: Global, kept: &PasswordHashString, text: &str) -> bool {
    let read = record(rt, text);
    assert!(rt; read.is_printable());
    kept == &read.serialize(alloc).expect(rt, "want of memory")
}

#[test]
fn kept_texts_are_compared(rt: HostRuntime) {
    let kept = kept(&rt, rt.alloc(), ARGON2);
    assert!(&rt; is_kept(&rt, rt.alloc(), &kept, ARGON2));
    assert!(&rt; !is_kept(&rt, rt.alloc(), &kept, SCRYPT));
}

#[test]
fn refused_kept_texts(rt: HostRuntime) {
    for (text, fault) in refused() {
        let refusal = PasswordHashString::new(rt.alloc(), text).err();
        assert!(&rt; refusal == Some(PhcStringError::Phc(*fault)), "{text}");
    }
}

// ---- names

const BAD_NAMES: &[&str] = &["", "A", "a b", "é", "012345678911234567892123456789312"];

const NAMES: &[&str] = &[
    "-a",
    "a",
    "argon2id",
    "0",
    "01234567891123456789212345678931",
];

// Each name is before the next one.
const ORDER: &[(&str, &str)] = &[
    ("-", "0"),
    ("0", "b"),
    ("b", "aa"),
    ("aa", "ab"),
    ("ab", "ba"),
    ("ba", "aaa"),
];

fn name(rt: &impl Abort, text: &str) -> Ident {
    Ident::new(text).expect(rt, "a name")
}

fn named(rt: &impl Abort, alloc: Global, text: &str) {
    let name = name(rt, text);
    assert!(rt; name.as_str() == text, "{text}");
    assert!(rt; prints(rt, alloc, &name, text), "{text}");
    assert!(rt; name == Ident::new_unwrap(text), "{text}");
    assert!(rt; text.parse::<Ident>() == Ok(name), "{text}");
}

fn ordered(rt: &impl Abort, before: Ident, behind: Ident) {
    assert!(rt; before < behind, "{before}");
    assert!(rt; before.cmp(&behind) == Ordering::Less, "{before}");
    assert!(rt; before != behind, "{before}");
}

#[test]
fn refused_names(rt: HostRuntime) {
    for text in BAD_NAMES {
        assert!(&rt; Ident::new(text) == Err(Error::ParamNameInvalid), "{text}");
    }
}

#[test]
fn names(rt: HostRuntime) {
    for text in NAMES {
        named(&rt, rt.alloc(), text);
    }
}

#[test]
fn names_in_order(rt: HostRuntime) {
    for (before, behind) in ORDER {
        ordered(&rt, name(&rt, before), name(&rt, behind));
    }
}

// ---- errors

// Errors and their texts.
const TEXTS: &[(Error, &str)] = &[
    (FIELD_REFUSED, "invalid Base64 encoding"),
    (
        Error::Base64(base64ct::Error::InvalidLength),
        "invalid Base64 length",
    ),
    (Error::MissingField, "password hash string missing field"),
    (SHORT, "output size too short, expected at least 10 bytes"),
    (
        Error::OutputSize {
            provided: Ordering::Equal,
            expected: 32,
        },
        "output size unexpected, expected 32 bytes",
    ),
    (
        Error::OutputSize {
            provided: Ordering::Greater,
            expected: 64,
        },
        "output size too long, expected at most 64 bytes",
    ),
    (Error::ParamNameDuplicated, "duplicate parameter"),
    (Error::ParamNameInvalid, "invalid parameter name"),
    (Error::ParamValueInvalid, "invalid parameter value"),
    (Error::ParamValueTooLong, "parameter value too long"),
    (
        Error::ParamsMaxExceeded,
        "maximum number of parameters reached",
    ),
    (Error::SaltTooShort, "salt too short (minimum 8 bytes)"),
    (Error::SaltTooLong, "salt too long (maximum 48 bytes)"),
    (
        Error::TrailingData,
        "password hash has unexpected trailing characters",
    ),
];

fn texts() -> &'static [(Error, &'static str)] {
    TEXTS
}

#[test]
fn error_texts(rt: HostRuntime) {
    for (error, text) in texts() {
        assert!(&rt; prints(&rt, rt.alloc(), error, text), "{text}");
        assert!(&rt;
            prints(&rt, rt.alloc(), &PhcStringError::Phc(*error), text),
            "{text}"
        );
    }
    assert!(&rt;
        prints(
            &rt,
            rt.alloc(),
            &PhcStringError::OutOfMemory,
            "out of memory"
        )
    );
}

#[test]
fn converted_errors(rt: HostRuntime) {
    assert!(&rt; Error::from(base64ct::Error::InvalidEncoding) == FIELD_REFUSED);
    assert!(&rt;
        Error::from(base64ct::InvalidLengthError) == Error::Base64(base64ct::Error::InvalidLength)
    );
}
