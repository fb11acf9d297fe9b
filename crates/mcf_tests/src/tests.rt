//! Rows that say what is refused, texts from outside, and one call of each kind.

ghost use Rattle.std.specs.Prelude.{[], ◌∷◌, true};

use base64ct::DecodeVecError;
use mcf::{
    Base64, DELIMITER, Error, Field, FieldText, PasswordHash, PasswordHashRef, ShowFailed, laws,
};
use std::alloc::{AllocError, Global};
use std::process::Abort;

// Texts and their first fault.
const REFUSED: [(&str, Error); 16] = [
    ("", Error::DelimiterInvalid),
    ("x", Error::DelimiterInvalid),
    ("$", Error::DelimiterInvalid),
    ("$$", Error::DelimiterInvalid),
    ("$6$salt$", Error::DelimiterInvalid),
    ("Hello, world!", Error::DelimiterInvalid),
    ("$$foo", Error::IdentifierInvalid),
    ("$-$foo", Error::IdentifierInvalid),
    ("$foo-$bar", Error::IdentifierInvalid),
    ("$-a$x", Error::IdentifierInvalid),
    ("$A$$x", Error::IdentifierInvalid),
    ("$6$$x", Error::FieldInvalid),
    ("$6$$a b", Error::FieldInvalid),
    ("$6$a b$x", Error::EncodingInvalid),
    ("$6$a b$$x", Error::EncodingInvalid),
    ("$6$x$y_", Error::EncodingInvalid),
];

// Texts, their identifiers and their first three fields, where an empty one stands for none.
const PARTS: [(&str, &str, [&str; 3]); 4] = [
    ("$6", "6", ["", "", ""]),
    ("$argon2-id$./+=,-", "argon2-id", ["./+=,-", "", ""]),
    (
        "$5$saltstring$5B8vYYiY.CVt1RlTTf8KbXBH3hsxY/GNooZaBBGWEc5",
        "5",
        [
            "saltstring",
            "5B8vYYiY.CVt1RlTTf8KbXBH3hsxY/GNooZaBBGWEc5",
            "",
        ],
    ),
    (
        "$6$rounds=100000$exn6tVc2j/MZD8uG$BI1Xh8qQSK9J4m14uwy7abn.ctj/TIAzlaVCto0MQrOFIeTXsc1iwzH16XEWo/a7c7Y9eVJvufVzYAs4EsPOy0",
        "6",
        ["rounds=100000", SALT_FIELD, HASH_FIELD],
    ),
];

// The fields of the last text, and the bytes that they encode.
const SALT_FIELD: &str = "exn6tVc2j/MZD8uG";

const SALT: [u8; 12] = [
    0x6a, 0x3f, 0x23, 0x79, 0x88, 0x12, 0x6f, 0x80, 0x95, 0x8f, 0xa2, 0x4b,
];

const HASH_FIELD: &str =
    "BI1Xh8qQSK9J4m14uwy7abn.ctj/TIAzlaVCto0MQrOFIeTXsc1iwzH16XEWo/a7c7Y9eVJvufVzYAs4EsPOy0";

const HASH: [u8; 64] = [
    0x0d, 0x35, 0x8c, 0xad, 0x62, 0x73, 0x9e, 0xb5, 0x54, 0x86, 0x3c, 0x18, 0x3a, 0xef, 0x27, 0xe6,
    0x39, 0x03, 0x68, 0xfe, 0x06, 0x1f, 0xc5, 0xfc, 0xb1, 0x19, 0x3a, 0x39, 0x2d, 0x60, 0xdc, 0xad,
    0x45, 0x94, 0xfa, 0x8d, 0x38, 0x3a, 0xb8, 0xfc, 0x3f, 0x0d, 0xc8, 0x08, 0x89, 0x74, 0x60, 0x26,
    0x68, 0x42, 0x2e, 0x6a, 0x58, 0xed, 0xfa, 0x1a, 0xfe, 0x24, 0x83, 0x1b, 0x10, 0xbe, 0x69, 0xbe,
];

#[test]
fn refused_texts(rt: HostRuntime) {
    for (text, fault) in REFUSED {
        assert!(rt; PasswordHashRef::new(text) == Err(fault), "{text}");
    }
    assert!(rt; Field::new("") == Err(Error::FieldInvalid));
    assert!(rt; Field::new("a$b") == Err(Error::EncodingInvalid));
}

#[test]
fn parts_of_texts(rt: HostRuntime) {
    assert!(rt; DELIMITER == '$');
    for (text, id, fields) in PARTS {
        let hash = PasswordHashRef::new(text).expect(&rt, "a password hash");
        assert!(rt; hash.as_str() == text);
        assert!(rt; hash.id() == id);
        let mut left = hash.fields();
        for wanted in fields {
            assert!(rt; left.next() == Field::new(wanted).ok());
        }
        assert!(rt; left.next().is_none());
    }
}

#[test]
fn order_and_copies(rt: HostRuntime) -> Result<(), AllocError> {
    let first = PasswordHashRef::new("$5$a").expect(&rt, "a password hash");
    let second = PasswordHashRef::new("$5$b$c").expect(&rt, "a password hash");
    assert!(rt; first < second);
    assert!(rt; first == first.clone()?);
    let mut fields = second.fields();
    let mut again = fields.clone()?;
    assert!(rt; fields.next() == again.next());
    assert!(rt; fields.next() == Field::new("c").ok());
    assert!(rt; Field::new("B").expect(&rt, "a field") < Field::new("a").expect(&rt, "a field"));
    let order = [Base64::B64, Base64::Bcrypt, Base64::Crypt, Base64::Pbkdf2];
    for i in 1..4 {
        assert!(rt; order[i - 1] < order[i]);
    }
    Ok(())
}

fn decoded_as(rt: &impl Abort, alloc: Global, text: &str, bytes: &[u8]) -> Result<(), AllocError> {
    let field = Field::new(text).expect(rt, "a field");
    assert!(rt; 1 <= bytes.len() && bytes.len() <= 64);
    let mut room = [7; 65];
    let no_room = Some(Error::Base64(base64ct::Error::InvalidLength));
    let short = field.decode_base64_into(Base64::Crypt, &mut room[..bytes.len() - 1]);
    assert!(rt; short.err() == no_room);
    assert!(rt; room == [7; 65]);
    let part = field.decode_base64_into(Base64::Crypt, &mut room);
    assert!(rt; part.expect(rt, "an encoding") == bytes);
    assert!(rt; room.starts_with(bytes) && room[bytes.len()..].iter().all(|b| *b == 7));
    match field.decode_base64(alloc, Base64::Crypt) {
        Ok(vec) => assert!(rt; vec.as_slice() == bytes),
        Err(e) => {
            assert!(rt; e == Error::OutOfMemory);
            return Err(AllocError);
        }
    }
    Ok(())
}

#[test]
fn decoded_fields(rt: HostRuntime) -> Result<(), AllocError> {
    let alloc = rt.alloc();
    decoded_as(&rt, alloc, SALT_FIELD, &SALT)?;
    decoded_as(&rt, alloc, HASH_FIELD, &HASH)?;
    let field = Field::new("Mi").expect(&rt, "a field");
    let mut room = [0; 1];
    let encoding = Error::from(base64ct::Error::InvalidEncoding);
    assert!(rt; field.decode_base64_into(Base64::B64, &mut room) == Err(encoding));
    let no_room = Err(Error::Base64(base64ct::Error::InvalidLength));
    assert!(rt; field.decode_base64_into(Base64::B64, &mut []) == no_room);
    match field.decode_base64(alloc, Base64::Pbkdf2) {
        Ok(_) => assert!(rt; false),
        Err(Error::OutOfMemory) => return Err(AllocError),
        Err(e) => assert!(rt; e == encoding),
    }
    Ok(())
}

// Some bytes and their texts in the order of the variants.
const ENCODINGS: [(&[u8], [&str; 4]); 4] = [
    (b"", ["", "", "", ""]),
    (&[1, 2, 3, 4], ["AQIDBA", ".OGB/.", "/6k.2.", "AQIDBA"]),
    (&[0xad; 5], ["ra2tra0", "pY0rpYy", "hqOfhq8", "ra2tra0"]),
    (
        &[0xff, 0xef, 0xfe, 0xff, 0xef, 0xfe],
        ["/+/+/+/+", "98989898", "zzizzziz", "/./././."],
    ),
];

// A buffer of sevens into whose front these bytes were written.
fn holds(rt: &impl Abort, room: &[u8], front: &[u8]) {
    assert!(rt; room.starts_with(front) && front.len() <= room.len());
    assert!(rt; room[front.len()..].iter().all(|b| *b == 7));
}

fn encoded_as(
    rt: &impl Abort,
    alloc: Global,
    variant: Base64,
    bytes: &[u8],
    text: &str,
) -> Result<(), AllocError> {
    let mut room = [7; 9];
    assert!(rt; variant.encoded_len(bytes) == text.len());
    assert!(rt; variant.encode(bytes, &mut room).expect(rt, "room") == text);
    holds(rt, &room, text.as_bytes());
    assert!(rt; variant.encode_into(bytes, &mut room) == Ok(text.len()));
    holds(rt, &room, text.as_bytes());
    assert!(rt; variant.encode_string(alloc, bytes)?.as_str() == text);
    let mut room = [7; 9];
    let part = variant.decode(text.as_bytes(), &mut room);
    assert!(rt; part.expect(rt, "an encoding") == bytes);
    holds(rt, &room, bytes);
    assert!(rt; variant.decode_into(text.as_bytes(), &mut room) == Ok(bytes.len()));
    holds(rt, &room, bytes);
    match variant.decode_vec(alloc, text) {
        Ok(vec) => assert!(rt; vec.as_slice() == bytes),
        Err(e) => {
            assert!(rt; e == DecodeVecError::OutOfMemory);
            return Err(AllocError);
        }
    }
    Ok(())
}

#[test]
fn encodings(rt: HostRuntime) -> Result<(), AllocError> {
    let alloc = rt.alloc();
    for (bytes, texts) in ENCODINGS {
        encoded_as(&rt, alloc, Base64::B64, bytes, texts[0])?;
        encoded_as(&rt, alloc, Base64::Bcrypt, bytes, texts[1])?;
        encoded_as(&rt, alloc, Base64::Crypt, bytes, texts[2])?;
        encoded_as(&rt, alloc, Base64::Pbkdf2, bytes, texts[3])?;
    }
    let no_room = base64ct::Error::InvalidLength;
    for variant in [Base64::B64, Base64::Bcrypt, Base64::Crypt, Base64::Pbkdf2] {
        let mut room = [7; 3];
        assert!(rt; variant.encode(b"abc", &mut room).err() == Some(no_room));
        assert!(rt; variant.decode(b"AQIDBA", &mut room).err() == Some(no_room));
        assert!(rt; room == [7; 3]);
    }
    Ok(())
}

// Errors and what they print.
const PRINTED: [(Error, &str); 7] = [
    (
        Error::Base64(base64ct::Error::InvalidLength),
        "invalid Base64 length",
    ),
    (Error::DelimiterInvalid, "invalid use of `$` delimiter"),
    (Error::EncodingInvalid, "invalid MCF encoding"),
    (
        Error::FieldInvalid,
        "invalid MCF field (between `$` characters)",
    ),
    (Error::IdentifierInvalid, "MCF identifier invalid"),
    (Error::OutOfMemory, "out of memory"),
    (Error::DisplayFailed, "value could not be displayed"),
];

#[test]
fn printed(rt: HostRuntime) -> Result<(), AllocError> {
    let alloc = rt.alloc();
    for (error, text) in PRINTED {
        assert!(rt; format!(in alloc; "{}", error)?.as_str() == text);
    }
    let hash = PasswordHashRef::new("$6$x").expect(&rt, "a password hash");
    assert!(rt; format!(in alloc; "{}", hash)?.as_str() == "$6$x");
    let field = Field::new("rounds=1000").expect(&rt, "a field");
    assert!(rt; format!(in alloc; "{}", field)?.as_str() == "rounds=1000");
    Ok(())
}

#[test]
fn laws_hold(_rt: HostRuntime) {
    laws::pieces_of_valid();
    laws::fault_identifier();
    laws::fault_pushed();
    laws::read_back();
    laws::written_back();
    laws::valid_is_ascii();
}

// A value that prints as `a`, and whose printing fails.
#[derive(Drop)]
struct Mute;

impl FieldText for Mute {
    ghost shown = { λ _. 97 ∷ [] };

    ghost fails = { λ _. true };

    fn shown_len(&self) -> usize {
        1
    }

    fn show(&self, _out: &mut [u8]) -> std::result::Result<(), ShowFailed> {
        Err(ShowFailed)
    }
}

#[test]
fn pushed_encodings(rt: HostRuntime) {
    let mut hash = PasswordHash::new(rt.alloc(), "$6$rounds=100000").expect(&rt, "a password hash");
    hash.push_base64(&SALT, Base64::Crypt).expect(&rt, "memory");
    assert!(rt; hash.as_str() == "$6$rounds=100000$exn6tVc2j/MZD8uG");
    hash.push_base64(&HASH, Base64::Crypt).expect(&rt, "memory");
    assert!(rt; hash.as_str() == PARTS[3].0);
    assert!(rt; hash.id() == "6");
    assert!(rt; hash.fields().next() == Field::new("rounds=100000").ok());
}

#[test]
fn refused_pushes(rt: HostRuntime) {
    let alloc = rt.alloc();
    assert!(rt; PasswordHash::from_id(alloc, "-a").err() == Some(Error::IdentifierInvalid));
    assert!(rt; PasswordHash::new(alloc, "$6$").err() == Some(Error::DelimiterInvalid));
    let mut hash = PasswordHash::from_id(alloc, "6").expect(&rt, "a password hash");
    assert!(rt; hash.push_displayable("$$$") == Err(Error::EncodingInvalid));
    assert!(rt; hash.push_base64(b"", Base64::B64) == Err(Error::FieldInvalid));
    assert!(rt; hash.push_str("") == Err(Error::FieldInvalid));
    assert!(rt; hash.push_displayable(Mute) == Err(Error::DisplayFailed));
    assert!(rt; hash.as_str() == "$6");
}

// A value that is pushed behind `$6` as it prints.
fn pushed_as<D: FieldText + Drop, R: Abort>(rt: &R, alloc: Global, value: D, text: &str) {
    let mut hash = PasswordHash::from_id(alloc, "6").expect(rt, "a password hash");
    hash.push_displayable(value).expect(rt, "memory");
    assert!(rt; hash.as_str() == text);
}

#[test]
fn pushed_values(rt: HostRuntime) {
    let alloc = rt.alloc();
    pushed_as(&rt, alloc, "rounds=100000", "$6$rounds=100000");
    pushed_as(&rt, alloc, 100_000u32, "$6$100000");
    pushed_as(&rt, alloc, 'x', "$6$x");
    pushed_as(&rt, alloc, 255u8, "$6$255");
    pushed_as(&rt, alloc, 65_535u16, "$6$65535");
    pushed_as(&rt, alloc, 0u64, "$6$0");
    pushed_as(&rt, alloc, 7usize, "$6$7");
    pushed_as(&rt, alloc, Field::new("a").expect(&rt, "a field"), "$6$a");
}

#[test]
fn copies_of_a_text(rt: HostRuntime) -> Result<(), AllocError> {
    let alloc = rt.alloc();
    let mut hash = PasswordHash::from_id(alloc, "6").expect(&rt, "a password hash");
    hash.push_field(Field::new("a").expect(&rt, "a field"))
        .expect(&rt, "memory");
    hash.push_str("b").expect(&rt, "memory");
    assert!(rt; hash.as_str() == "$6$a$b");
    let copy = hash.try_clone()?;
    assert!(rt; copy == hash);
    let again = hash
        .as_password_hash_ref()
        .to_password_hash(alloc)
        .expect(&rt, "memory");
    assert!(rt; again.cmp(&hash) == std::cmp::Ordering::Equal);
    assert!(rt; format!(in alloc; "{}", hash)?.as_str() == "$6$a$b");
    assert!(rt; copy.into_string().as_str() == "$6$a$b");
    Ok(())
}
