//! Vectors from outside, rows that say what is refused, and the counts.

ghost use Rattle.std.specs.Prelude.{◌≡◌, ◌+◌, ◌<◌, ◌≤◌, ◌^◌, ℕ, length, true, false};

use base64ct::{
    Base64, Base64Bcrypt, Base64Crypt, Base64Pbkdf2, Base64ShaCrypt, Base64Unpadded, Base64Url,
    Base64UrlUnpadded, Counted, Counts, DecodeVecError, Encoding, Error, InvalidEncodingError,
    InvalidLengthError, LineEnding, Shape, decode_with, decode_with_into, laws,
};
use std::alloc::{AllocError, Global};
use std::fmt::Display;
use std::io;
use std::process::Abort;
use subtle::{Choice, Counting, SameByte};

// A list of bytes is encoded as a text, and written at the front of a buffer.
fn encoded<E: Encoding>(rt: &impl Abort, bytes: &[u8], text: &str) {
    let mut dst = [7u8; 16];
    assert!(rt; E::encoded_len(bytes) == text.len());
    assert!(rt; E::encode(bytes, &mut dst) == Ok(text));
    assert!(rt; E::encode_into(bytes, &mut dst) == Ok(text.len()));
    assert!(rt; dst.starts_with(text.as_bytes()));
}

// A text is decoded to a list of bytes, at the front of a buffer.
fn decoded<E: Encoding>(rt: &impl Abort, text: &[u8], bytes: &[u8]) {
    let mut back = [7u8; 16];
    assert!(rt; E::decode(text, &mut back) == Ok(bytes));
    assert!(rt; E::decode_into(text, &mut back) == Ok(bytes.len()));
    assert!(rt; back.starts_with(bytes));
}

fn vector<E: Encoding>(rt: &impl Abort, bytes: &[u8], text: &str) {
    encoded::<E>(rt, bytes, text);
    decoded::<E>(rt, text.as_bytes(), bytes);
}

// A list of bytes, and its texts in the order of the types above, and `Base64ShaCrypt` before the last.
type Texts = (&'static [u8], [&'static str; 8]);

const TEXTS: &[Texts] = &[
    (b"", ["", "", "", "", "", "", "", ""]),
    (&[0], ["AA==", "AA", "AA==", "AA", "..", "..", "..", "AA"]),
    (
        &[0x2a, 0x2a, 0x2a],
        [
            "Kioq", "Kioq", "Kioq", "Kioq", "Igmo", "8Wce", "ecW8", "Kioq",
        ],
    ),
    (
        &[1, 2, 3, 4],
        [
            "AQIDBA==", "AQIDBA", "AQIDBA==", "AQIDBA", ".OGB/.", ".E61/.", "/6k.2.", "AQIDBA",
        ],
    ),
    (
        &[0xad; 5],
        [
            "ra2tra0=", "ra2tra0", "ra2tra0=", "ra2tra0", "pY0rpYy", "fOqhfOo", "hqOfhq8",
            "ra2tra0",
        ],
    ),
    (
        &[0xff, 0xef, 0xfe, 0xff, 0xef, 0xfe],
        [
            "/+/+/+/+", "/+/+/+/+", "_-_-_-_-", "_-_-_-_-", "98989898", "zyzyzyzy", "zzizzziz",
            "/./././.",
        ],
    ),
    (
        &[0xff; 5],
        [
            "//////8=", "//////8", "______8=", "______8", "9999996", "zzzzzzw", "zzzzzzD",
            "//////8",
        ],
    ),
];

fn vectors_of(rt: &impl Abort, bytes: &[u8], texts: &[&str; 8]) {
    vector::<Base64>(rt, bytes, texts[0]);
    vector::<Base64Unpadded>(rt, bytes, texts[1]);
    vector::<Base64Url>(rt, bytes, texts[2]);
    vector::<Base64UrlUnpadded>(rt, bytes, texts[3]);
    vector::<Base64Bcrypt>(rt, bytes, texts[4]);
    vector::<Base64Crypt>(rt, bytes, texts[5]);
    vector::<Base64ShaCrypt>(rt, bytes, texts[6]);
    vector::<Base64Pbkdf2>(rt, bytes, texts[7]);
}

#[test]
fn vectors(rt: HostRuntime) {
    for (bytes, texts) in TEXTS {
        vectors_of(&rt, bytes, texts);
    }
}

fn refused<E: Encoding>(rt: &impl Abort, text: &[u8]) {
    let mut back = [0u8; 16];
    assert!(rt; E::decode_into(text, &mut back) == Err(Error::InvalidEncoding));
    assert!(rt; E::decode(text, &mut back).is_err());
}

// A text that is followed by a line feed or by a sign too many.
fn followed<E: Encoding>(rt: &impl Abort, line: &[u8], sign: &[u8]) {
    refused::<E>(rt, line);
    refused::<E>(rt, sign);
}

const REFUSED: &[&str] = &[
    "AA/=", "AA=A", "A===", "====", "=AAA", "AAAA====", "A", "Kioq\n", "Kioq=", "AA==\n", "AA===",
];

#[test]
fn refused_texts(rt: HostRuntime) {
    for text in REFUSED {
        refused::<Base64>(&rt, text.as_bytes());
    }
    refused::<Base64Unpadded>(&rt, b"Mi");
    refused::<Base64Pbkdf2>(&rt, b"Mi");
    decoded::<Base64>(&rt, b"AAA=", &[0, 0]);
}

#[test]
fn followed_texts(rt: HostRuntime) {
    followed::<Base64Unpadded>(&rt, b"AA\n", b"AA=");
    followed::<Base64Unpadded>(&rt, b"Kioq\n", b"AA==");
    followed::<Base64Url>(&rt, b"______8=\n", b"______8==");
    followed::<Base64UrlUnpadded>(&rt, b"______8\n", b"______8=");
    followed::<Base64Bcrypt>(&rt, b"pY0rpYy\n", b"pY0rpYy=");
    followed::<Base64Crypt>(&rt, b"fOqhfOo\n", b"fOqhfOo=");
    followed::<Base64ShaCrypt>(&rt, b"hqOfhq8\n", b"hqOfhq8=");
    followed::<Base64Pbkdf2>(&rt, b"//////8\n", b"//////8=");
}

#[test]
fn without_room(rt: HostRuntime) {
    let mut none = [0u8; 0];
    assert!(&rt; Base64::decode_into(b"AAA", &mut none) == Err(Error::InvalidEncoding));
    assert!(&rt; Base64::decode_into(b"AAAA", &mut none) == Err(Error::InvalidLength));
    assert!(&rt; Base64::decode(b"", &mut none).ok() == Some(&[]));
}

#[test]
fn encoded_without_room(rt: HostRuntime) {
    let mut short = [5u8; 3];
    assert!(&rt; Base64::encode_into(b"x", &mut short) == Err(InvalidLengthError));
    assert!(&rt; Base64::encode(b"x", &mut short).is_err());
    assert!(&rt; short == [5; 3]);
}

#[test]
fn counted_without_room(rt: HostRuntime) {
    let mut short = [5u8; 3];
    let mut counts = Counts::new();
    assert!(&rt; counts.decode::<Base64>(b"AAA", &mut short).err() == Some(Error::InvalidEncoding));
    assert!(&rt;
        counts.decode::<Base64>(b"AAAAAAAA", &mut short).err() == Some(Error::InvalidLength)
    );
    assert!(&rt; short == [5; 3]);
}

#[test]
fn short_inputs(rt: HostRuntime) {
    encoded::<Base64ShaCrypt>(&rt, &[0x55], "J/");
    encoded::<Base64Crypt>(&rt, b"***", "8Wce");
    encoded::<Base64Bcrypt>(&rt, &[1, 2, 3, 4], ".OGB/.");
}

// A text of four bytes is decoded within its buffer, at whose front the bytes then stand.
fn lenient<E: Encoding>(rt: &impl Abort, text: [u8; 4], wanted: Option<&[u8]>) {
    let mut buf = text;
    let answer = E::decode_in_place(&mut buf);
    assert!(rt; answer.ok() == wanted);
    if let Some(bytes) = wanted {
        assert!(rt; buf.starts_with(bytes));
    }
}

#[test]
fn in_place(rt: HostRuntime) {
    lenient::<Base64Pbkdf2>(&rt, *b"AAMi", Some(&[0, 3, 0x22]));
    lenient::<Base64>(&rt, *b"Mi==", Some(&[0x32]));
    lenient::<Base64>(&rt, *b"AA==", Some(&[0]));
    lenient::<Base64>(&rt, *b"AA/=", Some(&[0, 0xf]));
    lenient::<Base64>(&rt, *b"A===", None);
    lenient::<Base64Unpadded>(&rt, *b"AA==", None);
    let mut single = *b"AAAAA";
    assert!(&rt; Base64Unpadded::decode_in_place(&mut single).is_err());
}

#[test]
fn memory(rt: HostRuntime) -> Result<(), AllocError> {
    let alloc = rt.alloc();
    let text = Base64::encode_string(alloc, b"example bytestring!")?;
    assert!(&rt; text.as_str() == "ZXhhbXBsZSBieXRlc3RyaW5nIQ==");
    match Base64::decode_vec(alloc, &text) {
        Ok(bytes) => assert!(&rt; bytes.as_slice() == b"example bytestring!".as_slice()),
        Err(e) => {
            assert!(&rt; e == DecodeVecError::OutOfMemory);
            return Err(AllocError);
        }
    }
    match Base64::decode_vec(alloc, "AAA") {
        Ok(_) => assert!(&rt; false),
        Err(DecodeVecError::InvalidEncoding) => {}
        Err(DecodeVecError::OutOfMemory) => return Err(AllocError),
    }
    Ok(())
}

// What is printed of an error.
fn prints(rt: &impl Abort, alloc: Global, error: &impl Display, text: &str) -> bool {
    let printed = format!(in alloc; "{error}").expect(rt, "want of memory");
    printed.as_str() == text
}

const ENCODING: &str = "invalid Base64 encoding";

const LENGTH: &str = "invalid Base64 length";

#[test]
fn printed(rt: HostRuntime) {
    let alloc = rt.alloc();
    assert!(&rt; prints(&rt, alloc, &Error::InvalidEncoding, ENCODING));
    assert!(&rt; prints(&rt, alloc, &Error::InvalidLength, LENGTH));
    assert!(&rt; prints(&rt, alloc, &InvalidEncodingError, ENCODING));
    assert!(&rt; prints(&rt, alloc, &InvalidLengthError, LENGTH));
    assert!(&rt; prints(&rt, alloc, &DecodeVecError::InvalidEncoding, ENCODING));
    assert!(&rt; prints(&rt, alloc, &DecodeVecError::OutOfMemory, "out of memory"));
}

#[test]
fn converted_errors(rt: HostRuntime) {
    assert!(&rt; Error::from(InvalidEncodingError) == Error::InvalidEncoding);
    assert!(&rt; Error::from(InvalidLengthError) == Error::InvalidLength);
    assert!(&rt; io::Error::from(Error::InvalidLength).kind() == io::ErrorKind::InvalidData);
}

#[test]
fn numbers_of_errors(rt: HostRuntime) {
    assert!(&rt; Error::InvalidEncoding as u8 == 1);
    assert!(&rt; Error::InvalidLength as u8 == 2);
    assert!(&rt; DecodeVecError::InvalidEncoding as u8 == 1);
    assert!(&rt; DecodeVecError::OutOfMemory as u8 == 2);
}

const ENDINGS: &[(LineEnding, &str, usize)] = &[
    (LineEnding::CR, "\r", 1),
    (LineEnding::LF, "\n", 1),
    (LineEnding::CRLF, "\r\n", 2),
];

fn ending(rt: &impl Abort, ending: LineEnding, text: &str, len: usize) {
    assert!(rt; ending.as_bytes() == text.as_bytes(), "{text:?}");
    assert!(rt; ending.len() == len, "{text:?}");
}

#[test]
fn line_endings(rt: HostRuntime) {
    assert!(&rt; LineEnding::default() == LineEnding::LF);
    assert!(&rt; LineEnding::CR < LineEnding::LF);
    assert!(&rt; LineEnding::LF < LineEnding::CRLF);
    for (kind, text, len) in ENDINGS {
        ending(&rt, *kind, text, *len);
    }
}

// A relation of no pair.
#[derive(Drop)]
struct Never {
    asked: u64,
}

impl SameByte for Never {
    ghost related = { λ _ _. false };

    ghost count = { λ c. c.asked };

    fn same(&mut self, _a: u8, _b: u8) -> Choice {
        self.asked += 1;
        Choice::from_u8(0)
    }
}

// A relation of every pair.
#[derive(Drop)]
struct Always {
    asked: u64,
}

impl SameByte for Always {
    ghost related = { λ _ _. true };

    ghost count = { λ c. c.asked };

    fn same(&mut self, _a: u8, _b: u8) -> Choice {
        self.asked += 1;
        Choice::from_u8(1)
    }
}

const UNPADDED: Shape = Shape {
    padded: false,
    low_first: false,
};

// A row of `counts_of_decoding`.
struct Row {
    text: &'static [u8],
    // how many of eight nines are lent, and whether the text is decoded into them
    len: usize,
    is_ok: bool,
    // how often characters are looked up, compared and spelled, and how many nines are written over at most
    looks: u64,
    sames: u64,
    spells: u64,
    written: usize,
}

const COUNTED: &[Row] = &[
    Row {
        text: b"AAAAAAAA",
        len: 8,
        is_ok: true,
        looks: 12,
        sames: 4,
        spells: 5,
        written: 6,
    },
    Row {
        text: b"*AAAAAAA",
        len: 8,
        is_ok: false,
        looks: 12,
        sames: 4,
        spells: 5,
        written: 6,
    },
    Row {
        text: b"AAA",
        len: 7,
        is_ok: true,
        looks: 4,
        sames: 4,
        spells: 5,
        written: 2,
    },
    Row {
        text: b"",
        len: 8,
        is_ok: true,
        looks: 4,
        sames: 0,
        spells: 1,
        written: 0,
    },
    Row {
        text: b"AAAA",
        len: 2,
        is_ok: false,
        looks: 0,
        sames: 0,
        spells: 0,
        written: 0,
    },
];

// Decodes by the table of `Base64Unpadded` and equality, twice; gives what the nines then are.
fn by_table(rt: &impl Abort, row: &Row) -> [u8; 8] {
    assert!(rt; row.len <= 8 && row.text.len() <= 16);
    let mut table = Counted::<Base64Unpadded>::new();
    let mut cmp = Counting::new();
    let mut room = [9u8; 8];
    let answer = decode_with_into(
        &mut table,
        &mut cmp,
        UNPADDED,
        row.text,
        &mut room[..row.len],
    );
    assert!(rt; answer.is_ok() == row.is_ok);
    assert!(rt; table.looks() == row.looks);
    assert!(rt; cmp.count() == row.sames);
    assert!(rt; table.spells() == row.spells);
    let mut lent = [9u8; 8];
    let answer = decode_with(
        &mut table,
        &mut cmp,
        UNPADDED,
        row.text,
        &mut lent[..row.len],
    );
    assert!(rt; answer.is_ok() == row.is_ok);
    assert!(rt; table.looks() == 2 * row.looks);
    assert!(rt; lent == room);
    room
}

// The same by a table of its own.
fn by_counts(rt: &impl Abort, row: &Row) -> [u8; 8] {
    assert!(rt; row.len <= 8 && row.text.len() <= 16);
    let mut counts = Counts::new();
    let mut own = [9u8; 8];
    let answer = counts.decode::<Base64Unpadded>(row.text, &mut own[..row.len]);
    assert!(rt; answer.is_ok() == row.is_ok);
    assert!(rt; counts.looks() == row.looks);
    assert!(rt; counts.sames() == row.sames);
    own
}

#[test]
fn counts_of_decoding(rt: HostRuntime) {
    for row in COUNTED {
        let room = by_table(&rt, row);
        assert!(rt; by_counts(&rt, row) == room);
        assert!(rt; row.written <= 8);
        assert!(rt; room[row.written..].iter().all(|b| *b == 9));
    }
}

#[test]
fn relation_of_no_pair(rt: HostRuntime) {
    let mut room = [0u8; 8];
    let mut table = Counted::<Base64Unpadded>::new();
    let mut never = Never { asked: 0 };
    let answer = decode_with(&mut table, &mut never, UNPADDED, b"AAAA", &mut room);
    assert!(&rt; answer == Err(Error::InvalidEncoding));
    assert!(&rt; table.looks() == 8);
    assert!(&rt; never.asked == 4);
}

#[test]
fn relation_of_every_pair(rt: HostRuntime) {
    let mut room = [0u8; 8];
    let mut table = Counted::<Base64Unpadded>::new();
    let mut always = Always { asked: 0 };
    let answer = decode_with(&mut table, &mut always, UNPADDED, b"Mi", &mut room);
    assert!(&rt; answer == Ok(&[0x32]));
    assert!(&rt; table.looks() == 4);
    assert!(&rt; always.asked == 4);
}

#[test]
fn counts_of_bytes(rt: HostRuntime) {
    let mut counts = Counts::new();
    assert!(&rt; bool::from(counts.same_bytes(b"abcde", b"abcde")));
    assert!(&rt; counts.sames() == 5);
    assert!(&rt; !bool::from(counts.same_bytes(b"abcde", b"xbcde")));
    assert!(&rt; counts.sames() == 10);
    assert!(&rt; !bool::from(counts.same_bytes(b"abcd", b"abcde")));
    assert!(&rt; counts.sames() == 10);
    assert!(&rt; counts.looks() == 0);
}

#[test]
fn laws_hold(_rt: HostRuntime) {
    laws::encoding_once();
    laws::encoding_by_blocks();
    laws::encoding_length();
    laws::lenient_once();
    laws::decode_steps::<Base64Bcrypt>(b'z');
    laws::encode_steps::<Base64ShaCrypt>(63);
    laws::look_spell::<Counted<Base64Url>>();
}
