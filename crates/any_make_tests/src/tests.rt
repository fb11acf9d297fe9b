//! Texts that outside programs made of the same passwords, costs and salts: libxcrypt's crypt_gensalt(3) and crypt(3) for
//! SHA-crypt, bcrypt and yescrypt, passlib for scrypt, the program argon2, and Python's hashlib for the keys of PBKDF2.

use any_check::{RecordKdf, check_any, record_kdf};
use any_make::{
    Argon2Cost, MakeCost, MakeFault, NameFault, Pbkdf2Hash, Scheme, TEXT_MAX, made_text, make_text,
    recommended, scheme_named,
};
use scheme_list::SCHEMES;
use sha_crypt::Family;
use std::alloc::Global;
use std::process::Abort;
use yescrypt_plain::{CryptKept, ScryptParams, YescryptParams};

pub(crate) struct Row {
    pub cost: MakeCost,
    pub password: &'static str,
    pub salt: &'static [u8],
    pub text: &'static str,
}

const ROWS: &[Row] = &[
    Row {
        cost: MakeCost::ShaCrypt(Family::Sha256, 5_000),
        password: "secret",
        salt: b"\x00\x01\x02\x03\x04\x05\x06\x07\x08\x09\x0a\x0b",
        text: "$5$.2U.1EE/4Q.07ck0$CzGJZOHQDllUMYGxhIcFqR.3b3ZjuC1RO5x8IBkm0D1",
    },
    Row {
        cost: MakeCost::ShaCrypt(Family::Sha256, 1_000),
        password: "",
        salt: b"\xff\xff\xff\xff\xff\xff\xff\xff\xff\xff\xff\xff",
        text: "$5$rounds=1000$zzzzzzzzzzzzzzzz$LGJ7cJqqZqeiezBtFiv8ktVq2AvcjtBX6JWbCY7YEN0",
    },
    Row {
        cost: MakeCost::ShaCrypt(Family::Sha256, 1_234),
        password: "pässwörd",
        salt: b"\x9c?\xe5\x01z\xb2\xd4Hn\x0d\xc1\xf7",
        text: "$5$rounds=1234$QyHt/cbgIXYPB2wx$xW2pTNrvl0jiw.bNHRFRCQ1haOdAYYL7r1ByR5aPcO9",
    },
    Row {
        cost: MakeCost::ShaCrypt(Family::Sha512, 5_000),
        password: "secret",
        salt: b"\x00\x01\x02\x03\x04\x05\x06\x07\x08\x09\x0a\x0b",
        text: "$6$.2U.1EE/4Q.07ck0$dnt4PYxhQKl1.ZSlUrD811SO.MbvewHk0dYpjnYNusSgbAY0qwCBWwwHWS.S1.WR3.k5rAkMH7NkRVmM2LKWg0",
    },
    Row {
        cost: MakeCost::ShaCrypt(Family::Sha512, 1_000),
        password: "correct horse battery staple",
        salt: b"\x00\x00\x00\x00\x00\x00\x00\x00\x00\x00\x00\x00",
        text: "$6$rounds=1000$................$br.jvj/pWuuKaWbZQX34VVav/T8yLfNxC8yCBrEdoOpMm8Dsq.leA8QDAVNX0knN6vzNFZvzRYYWB285MI5Ol0",
    },
    Row {
        cost: MakeCost::ShaCrypt(Family::Sha512, 10_000),
        password: "correct horse battery staple correct horse battery staple correct horse battery staple ",
        salt: b"\x9c?\xe5\x01z\xb2\xd4Hn\x0d\xc1\xf7",
        text: "$6$rounds=10000$QyHt/cbgIXYPB2wx$iJ4wKjowRDg0oZRoHHfV32b5/5y1zPvLMM9x3jmebNiYuKsOyFvw5kjisFBULpy4Z6QeNW2mvyaTyzOsCYKli/",
    },
    Row {
        cost: MakeCost::Bcrypt(4),
        password: "secret",
        salt: b"\x00\x01\x02\x03\x04\x05\x06\x07\x08\x09\x0a\x0b\x0c\x0d\x0e\x0f",
        text: "$2b$04$..CA.uOD/eaGAOmJB.yMBu4AbFLftUBUHQbseIwAiOGKsNRgByuEG",
    },
    Row {
        cost: MakeCost::Bcrypt(5),
        password: "0123456789012345678901234567890123456789012345678901234567890123456789ab",
        salt: b"\xff\xff\xff\xff\xff\xff\xff\xff\xff\xff\xff\xff\xff\xff\xff\xff",
        text: "$2b$05$999999999999999999999uwsaGaIy1oTLySLiYyBZKeBaAiS7mJDC",
    },
    Row {
        cost: MakeCost::Bcrypt(4),
        password: "",
        salt: b"\x00\x00\x00\x00\x00\x00\x00\x00\x00\x00\x00\x00\x00\x00\x00\x00",
        text: "$2b$04$......................w74bL5gU7LSJClZClCa.Pkz14aTv/XO",
    },
    Row {
        cost: MakeCost::Bcrypt(6),
        password: "pässwörd",
        salt: b"\x9c?\xe5\x01z\xb2\xd4Hn\x0d\xc1\xf7S+\x8a\x90",
        text: "$2b$06$lB9j.VowzCfsBaF1SwsIi.zY7VInTL3MkgFAIZUsFtzrL2.NqWKKW",
    },
    Row {
        cost: MakeCost::Yescrypt(YescryptParams { ln: 10, r: 8, t: 0 }),
        password: "secret",
        salt: b"\x00\x01\x02\x03\x04\x05\x06\x07\x08\x09\x0a\x0b\x0c\x0d\x0e\x0f",
        text: "$y$j75$.2U.1EE/4Q.07ck0AoU1D.$WZs6uq6acbHmEIsYN/kl4Nhf1X5mY6cAbdQQYOq6tt9",
    },
    Row {
        cost: MakeCost::Yescrypt(YescryptParams { ln: 11, r: 8, t: 0 }),
        password: "",
        salt: b"\xff\xff\xff\xff\xff\xff\xff\xff\xff\xff\xff\xff\xff\xff\xff\xff",
        text: "$y$j85$zzzzzzzzzzzzzzzzzzzzz1$cNML9J.a21323IswNIVMTFGQiPW2CLDZ73QmBW7nJc1",
    },
    Row {
        cost: MakeCost::Yescrypt(YescryptParams { ln: 10, r: 8, t: 0 }),
        password: "pässwörd",
        salt: b"\x9c?\xe5\x01z\xb2\xd4Hn\x0d\xc1\xf7S+\x8a\x90",
        text: "$y$j75$QyHt/cbgIXYPB2wxHhWWE0$QVOpvZlZ4TJP2fzyvM.aQJdCNq51LEZqQiQtuIyg/C0",
    },
    Row {
        cost: MakeCost::Scrypt(ScryptParams { ln: 4, r: 8, p: 1 }),
        password: "secret",
        salt: b"\x00\x01\x02\x03\x04\x05\x06\x07\x08\x09\x0a\x0b\x0c\x0d\x0e\x0f",
        text: "$scrypt$ln=4,r=8,p=1$AAECAwQFBgcICQoLDA0ODw$FBYrbyejpsRMOOxNjJ4WhxLlIIkIxp/izmMfHJ7w9YU",
    },
    Row {
        cost: MakeCost::Scrypt(ScryptParams { ln: 1, r: 1, p: 1 }),
        password: "",
        salt: b"\xff\xff\xff\xff\xff\xff\xff\xff\xff\xff\xff\xff\xff\xff\xff\xff",
        text: "$scrypt$ln=1,r=1,p=1$/////////////////////w$8gCxzfiyr2jkCnpAHpU+WLtEihuiTn3a+2vIevDCl/U",
    },
    Row {
        cost: MakeCost::Scrypt(ScryptParams { ln: 10, r: 8, p: 2 }),
        password: "pässwörd",
        salt: b"\x9c?\xe5\x01z\xb2\xd4Hn\x0d\xc1\xf7S+\x8a\x90",
        text: "$scrypt$ln=10,r=8,p=2$nD/lAXqy1EhuDcH3UyuKkA$mpPUXa/k6XHXgtuzUzNFmIEWnbIJ2l9jmjjkhIx2KuM",
    },
    Row {
        cost: MakeCost::Scrypt(ScryptParams { ln: 7, r: 12, p: 3 }),
        password: "\ttab and $ and :",
        salt: b"\x00\x00\x00\x00\x00\x00\x00\x00\x00\x00\x00\x00\x00\x00\x00\x00",
        text: "$scrypt$ln=7,r=12,p=3$AAAAAAAAAAAAAAAAAAAAAA$0wvHBfniKoKDVSTxn49QFO6cqbtXO8pYQqoaaWUAH8A",
    },
    Row {
        cost: MakeCost::Scrypt(ScryptParams {
            ln: 1,
            r: 1,
            p: 101,
        }),
        password: "password 101",
        salt: b"\x00\x01\x02\x03\x04\x05\x06\x07\x08\x09\x0a\x0b\x0c\x0d\x0e\x0f",
        text: "$scrypt$ln=1,r=1,p=101$AAECAwQFBgcICQoLDA0ODw$ps8ms51WjVVj2EAGKLWFZv+7Fg8Rje/WBeRmWI/YTJw",
    },
    Row {
        cost: MakeCost::Argon2id(Argon2Cost {
            memory: 64,
            passes: 1,
            lanes: 1,
        }),
        password: "secret",
        salt: b"0123456789abcdef",
        text: "$argon2id$v=19$m=64,t=1,p=1$MDEyMzQ1Njc4OWFiY2RlZg$pbviq+1UUgwZCmLIr4Hgk7mEMsxnRLuOb2HfvIaBwGY",
    },
    Row {
        cost: MakeCost::Argon2id(Argon2Cost {
            memory: 256,
            passes: 3,
            lanes: 4,
        }),
        password: "password",
        salt: b"saltsaltsaltsalt",
        text: "$argon2id$v=19$m=256,t=3,p=4$c2FsdHNhbHRzYWx0c2FsdA$fwfGb+vIubWfuLB9/YzfZTInF3Z4Ua2Wgy1Elio7Ys0",
    },
    Row {
        cost: MakeCost::Argon2id(Argon2Cost {
            memory: 8,
            passes: 2,
            lanes: 1,
        }),
        password: "pässwörd",
        salt: b"somesomesomesome",
        text: "$argon2id$v=19$m=8,t=2,p=1$c29tZXNvbWVzb21lc29tZQ$van/hKLGpbh7MC3+PDuKZVgLD5Mf3RYr7swIkCjiV3w",
    },
    Row {
        cost: MakeCost::Pbkdf2(Pbkdf2Hash::Sha256, 1_000),
        password: "secret",
        salt: b"\x00\x01\x02\x03\x04\x05\x06\x07\x08\x09\x0a\x0b\x0c\x0d\x0e\x0f",
        text: "$pbkdf2-sha256$i=1000,l=32$AAECAwQFBgcICQoLDA0ODw$Tvsru20utY6o3q7VRBeuL9h/1QqKhWhwk2PaYNRWBgY",
    },
    Row {
        cost: MakeCost::Pbkdf2(Pbkdf2Hash::Sha256, 1),
        password: "",
        salt: b"\xff\xff\xff\xff\xff\xff\xff\xff\xff\xff\xff\xff\xff\xff\xff\xff",
        text: "$pbkdf2-sha256$i=1,l=32$/////////////////////w$MDW6MSX6t0yh/d+0W5a7IV1ny+EUvBK8yKKtXigFg1k",
    },
    Row {
        cost: MakeCost::Pbkdf2(Pbkdf2Hash::Sha256, 4_096),
        password: "pässwörd",
        salt: b"\x9c?\xe5\x01z\xb2\xd4Hn\x0d\xc1\xf7S+\x8a\x90",
        text: "$pbkdf2-sha256$i=4096,l=32$nD/lAXqy1EhuDcH3UyuKkA$kXCjRpGeeSvWtyCZYftGYe8WxwNJfDrGsQmMPm7kf5U",
    },
    Row {
        cost: MakeCost::Pbkdf2(Pbkdf2Hash::Sha256, 2),
        password: "🔑 key",
        salt: b"\x00\x00\x00\x00\x00\x00\x00\x00\x00\x00\x00\x00\x00\x00\x00\x00",
        text: "$pbkdf2-sha256$i=2,l=32$AAAAAAAAAAAAAAAAAAAAAA$7GmXh3EhCUq2+oCV5Vf0BoDV/n72zZymLv1+0bedCnk",
    },
    Row {
        cost: MakeCost::Pbkdf2(Pbkdf2Hash::Sha512, 1_000),
        password: "secret",
        salt: b"\x20\x21\x22\x23\x24\x25\x26\x27\x28\x29\x2a\x2b\x2c\x2d\x2e\x2f",
        text: "$pbkdf2-sha512$i=1000,l=32$ICEiIyQlJicoKSorLC0uLw$N3aYu27fBdJRaQ29pe1CMPDtSb8rqJgSuOy5AfJSavM",
    },
    Row {
        cost: MakeCost::Pbkdf2(Pbkdf2Hash::Sha512, 3),
        password: "",
        salt: b"\xfe\xfe\xfe\xfe\xfe\xfe\xfe\xfe\xfe\xfe\xfe\xfe\xfe\xfe\xfe\xfe",
        text: "$pbkdf2-sha512$i=3,l=32$/v7+/v7+/v7+/v7+/v7+/g$j1JvGrwpCV5Rg4PFNVQk0ya61uVVQxpAmk/pVIq+zoE",
    },
    Row {
        cost: MakeCost::Pbkdf2(Pbkdf2Hash::Sha512, 4_097),
        password: "pässwörd",
        salt: b"\x9c\x3f\xe5\x01\x7a\xb2\xd4\x48\x6e\x0d\xc1\xf7\x53\x2b\x8a\x91",
        text: "$pbkdf2-sha512$i=4097,l=32$nD/lAXqy1EhuDcH3UyuKkQ$XTG/CxnoVrklwt0ffpLc3nZ1FuYc7w0UTg3+7AYLcds",
    },
];

// All rows. A constant is written out in each function that names it, so only this one does.
pub(crate) fn rows() -> &'static [Row] {
    ROWS
}

// The bytes that stand in a buffer before a call.
const OLD: u8 = 0xa5;

// The length of the text that is made in a buffer. Want of memory ends a test.
fn made_in(
    rt: &impl Abort,
    alloc: Global,
    cost: MakeCost,
    password: &[u8],
    salt: &[u8],
    out: &mut [u8],
) -> Result<usize, MakeFault> {
    match make_text(alloc, cost, password, salt, out) {
        Err(MakeFault::OutOfMemory) => panic!(rt; "want of memory"),
        made => made,
    }
}

// The first bytes of a buffer, or all.
fn front(bytes: &mut [u8], count: usize) -> &mut [u8] {
    let count = count.min(bytes.len());
    &mut bytes[..count]
}

// The same bytes to be read.
pub(crate) fn read_front(bytes: &[u8], count: usize) -> &[u8] {
    let count = count.min(bytes.len());
    &bytes[..count]
}

// Whether the bytes after these are as they were.
fn is_old_after(bytes: &[u8], count: usize) -> bool {
    let count = count.min(bytes.len());
    bytes[count..].iter().all(|b| *b == OLD)
}

// The text of a row in so much room.
fn made_row(
    rt: &impl Abort,
    alloc: Global,
    row: &Row,
    room: &mut [u8],
) -> Result<usize, MakeFault> {
    made_in(rt, alloc, row.cost, row.password.as_bytes(), row.salt, room)
}

fn is_written(rt: &impl Abort, alloc: Global, row: &Row) {
    let count = row.text.len();
    let mut out = [OLD; TEXT_MAX];
    let made = made_row(rt, alloc, row, &mut out);
    assert!(rt; made == Ok(count), "{}", row.text);
    assert!(rt; out.starts_with(row.text.as_bytes()), "{}", row.text);
    assert!(rt; is_old_after(&out, count), "{}", row.text);
}

#[test]
fn made_by_others(rt: HostRuntime) {
    for row in rows() {
        is_written(&rt, rt.alloc(), row);
    }
}

// Makes the text of a row, and compares it with that of the other program.
pub(crate) fn is_made(rt: &impl Abort, alloc: Global, row: &Row) {
    match made_text(alloc, row.cost, row.password.as_bytes(), row.salt) {
        Ok(text) => assert!(rt; text.as_slice() == row.text.as_bytes(), "{}", row.text),
        Err(MakeFault::OutOfMemory) => panic!(rt; "want of memory: {}", row.text),
        Err(_) => panic!(rt; "no text: {}", row.text),
    }
}

#[test]
fn made_by_others_in_a_text(rt: HostRuntime) {
    for row in rows() {
        is_made(&rt, rt.alloc(), row);
    }
}

// Whether a password matches a text, with what its check needs.
fn is_matched(
    rt: &impl Abort,
    alloc: Global,
    kdf: &RecordKdf,
    kept: &CryptKept,
    password: &str,
    text: &str,
) -> bool {
    match check_any(alloc, kdf, kept, password, text) {
        Ok(is_matched) => is_matched,
        Err(error) => panic!(rt; "{text}: {error:?}"),
    }
}

#[test]
fn matched(rt: HostRuntime) {
    let kdf = record_kdf(rt.alloc());
    let kept = CryptKept::new(rt.alloc());
    for row in rows() {
        let is = is_matched(&rt, rt.alloc(), &kdf, &kept, row.password, row.text);
        assert!(rt; is, "{}", row.text);
        let is = is_matched(&rt, rt.alloc(), &kdf, &kept, "another", row.text);
        assert!(rt; !is, "{}", row.text);
    }
}

// A buffer of just the length is room.
fn is_written_in_just_room(rt: &impl Abort, alloc: Global, row: &Row) {
    let count = row.text.len();
    let mut whole = [OLD; TEXT_MAX];
    let made = made_row(rt, alloc, row, front(&mut whole, count));
    assert!(rt; made == Ok(count), "{}", row.text);
    assert!(rt; whole.starts_with(row.text.as_bytes()), "{}", row.text);
}

#[test]
fn rooms(rt: HostRuntime) {
    for row in rows() {
        is_written_in_just_room(&rt, rt.alloc(), row);
    }
}

// In a buffer that is a byte shorter nothing is written.
fn is_refused_in_short_room(rt: &impl Abort, alloc: Global, row: &Row) {
    let count = row.text.len();
    let mut whole = [OLD; TEXT_MAX];
    let made = made_row(rt, alloc, row, front(&mut whole, count.saturating_sub(1)));
    assert!(rt; made.err() == Some(MakeFault::BufferShort), "{}", row.text);
    assert!(rt; is_old_after(&whole, 0), "{}", row.text);
}

#[test]
fn short_rooms(rt: HostRuntime) {
    for row in rows() {
        is_refused_in_short_room(&rt, rt.alloc(), row);
    }
}

struct Refused {
    cost: MakeCost,
    password: &'static [u8],
    salt: &'static [u8],
    fault: MakeFault,
}

const SALT: &[u8] = b"0123456789abcdef";

pub(crate) const SHA_SALT: &[u8] = b"0123456789ab";

const REFUSED: &[Refused] = &[
    Refused {
        cost: MakeCost::ShaCrypt(Family::Sha256, 999),
        password: b"x",
        salt: SHA_SALT,
        fault: MakeFault::Cost,
    },
    Refused {
        cost: MakeCost::ShaCrypt(Family::Sha256, 1_000_000_000),
        password: b"x",
        salt: SHA_SALT,
        fault: MakeFault::Cost,
    },
    Refused {
        cost: MakeCost::Scrypt(ScryptParams { ln: 0, r: 8, p: 1 }),
        password: b"x",
        salt: SALT,
        fault: MakeFault::Cost,
    },
    Refused {
        cost: MakeCost::Scrypt(ScryptParams { ln: 25, r: 8, p: 1 }),
        password: b"x",
        salt: SALT,
        fault: MakeFault::Cost,
    },
    Refused {
        cost: MakeCost::Bcrypt(3),
        password: b"x",
        salt: SALT,
        fault: MakeFault::Cost,
    },
    Refused {
        cost: MakeCost::Bcrypt(32),
        password: b"x",
        salt: SALT,
        fault: MakeFault::Cost,
    },
    Refused {
        cost: MakeCost::Yescrypt(YescryptParams { ln: 1, r: 8, t: 0 }),
        password: b"x",
        salt: SALT,
        fault: MakeFault::Cost,
    },
    Refused {
        cost: MakeCost::Yescrypt(YescryptParams {
            ln: 10,
            r: 8,
            t: 1_025,
        }),
        password: b"x",
        salt: SALT,
        fault: MakeFault::Cost,
    },
    Refused {
        cost: MakeCost::Argon2id(Argon2Cost {
            memory: 7,
            passes: 1,
            lanes: 1,
        }),
        password: b"x",
        salt: SALT,
        fault: MakeFault::Cost,
    },
    Refused {
        cost: MakeCost::Argon2id(Argon2Cost {
            memory: 64,
            passes: 0,
            lanes: 1,
        }),
        password: b"x",
        salt: SALT,
        fault: MakeFault::Cost,
    },
    Refused {
        cost: MakeCost::Argon2id(Argon2Cost {
            memory: 64,
            passes: 1,
            lanes: 9,
        }),
        password: b"x",
        salt: SALT,
        fault: MakeFault::Cost,
    },
    Refused {
        cost: MakeCost::Pbkdf2(Pbkdf2Hash::Sha256, 0),
        password: b"x",
        salt: SALT,
        fault: MakeFault::Cost,
    },
    Refused {
        cost: MakeCost::Pbkdf2(Pbkdf2Hash::Sha256, 10_000_001),
        password: b"x",
        salt: SALT,
        fault: MakeFault::Cost,
    },
    Refused {
        cost: MakeCost::ShaCrypt(Family::Sha256, 1_000),
        password: b"x",
        salt: SALT,
        fault: MakeFault::Salt,
    },
    Refused {
        cost: MakeCost::ShaCrypt(Family::Sha256, 1_000),
        password: b"x",
        salt: b"",
        fault: MakeFault::Salt,
    },
    Refused {
        cost: MakeCost::Bcrypt(4),
        password: b"x",
        salt: SHA_SALT,
        fault: MakeFault::Salt,
    },
    Refused {
        cost: MakeCost::Scrypt(ScryptParams { ln: 4, r: 8, p: 1 }),
        password: b"x",
        salt: b"0123456789abcdefg",
        fault: MakeFault::Salt,
    },
    Refused {
        cost: MakeCost::Bcrypt(3),
        password: b"\xff\0",
        salt: SHA_SALT,
        fault: MakeFault::Cost,
    },
    Refused {
        cost: MakeCost::Bcrypt(4),
        password: b"\xff\0",
        salt: SHA_SALT,
        fault: MakeFault::Salt,
    },
    Refused {
        cost: MakeCost::Bcrypt(4),
        password: b"\xff\0",
        salt: SALT,
        fault: MakeFault::NotUtf8,
    },
    Refused {
        cost: MakeCost::Scrypt(ScryptParams { ln: 4, r: 8, p: 1 }),
        password: b"\xc3",
        salt: SALT,
        fault: MakeFault::NotUtf8,
    },
    Refused {
        cost: MakeCost::Bcrypt(4),
        password: b"a\0b",
        salt: SALT,
        fault: MakeFault::ZeroByte,
    },
    Refused {
        cost: MakeCost::ShaCrypt(Family::Sha256, 1_000),
        password: b"\0",
        salt: SHA_SALT,
        fault: MakeFault::ZeroByte,
    },
    Refused {
        cost: MakeCost::Yescrypt(YescryptParams { ln: 10, r: 8, t: 0 }),
        password: b"a\0",
        salt: SALT,
        fault: MakeFault::ZeroByte,
    },
];

fn refused_rows() -> &'static [Refused] {
    REFUSED
}

// What is refused leaves the buffer as it was.
fn is_refused(rt: &impl Abort, alloc: Global, i: usize, row: &Refused) {
    let mut out = [OLD; TEXT_MAX];
    let made = made_in(rt, alloc, row.cost, row.password, row.salt, &mut out);
    assert!(rt; made.err() == Some(row.fault), "row {i}");
    assert!(rt; is_old_after(&out, 0), "row {i}");
}

#[test]
fn faults(rt: HostRuntime) {
    for (i, row) in refused_rows().iter().enumerate() {
        is_refused(&rt, rt.alloc(), i, row);
    }
}

// Costs that are quickly paid, and the scheme of each.
const QUICK: &[(&str, MakeCost)] = &[
    (
        "scrypt",
        MakeCost::Scrypt(ScryptParams { ln: 1, r: 1, p: 1 }),
    ),
    (
        "argon2id",
        MakeCost::Argon2id(Argon2Cost {
            memory: 8,
            passes: 1,
            lanes: 1,
        }),
    ),
    ("pbkdf2-sha256", MakeCost::Pbkdf2(Pbkdf2Hash::Sha256, 1)),
];

// Whether a password of so many bytes is taken.
fn takes_length(rt: &impl Abort, alloc: Global, cost: MakeCost, length: usize) -> bool {
    let long = [b'a'; 4_097];
    let mut out = [OLD; TEXT_MAX];
    let password = read_front(&long, length);
    let salt = read_front(SALT, cost.salt_length());
    match made_in(rt, alloc, cost, password, salt, &mut out) {
        Ok(_) => true,
        Err(fault) => {
            assert!(rt; fault == MakeFault::PasswordTooLong, "{length}");
            false
        }
    }
}

#[test]
fn long_passwords(rt: HostRuntime) {
    for (name, cost) in QUICK {
        assert!(rt; !takes_length(&rt, rt.alloc(), *cost, 4_097), "{name}");
        assert!(rt; takes_length(&rt, rt.alloc(), *cost, 4_096), "{name}");
    }
    let sha256 = MakeCost::ShaCrypt(Family::Sha256, 1_000);
    assert!(rt; !takes_length(&rt, rt.alloc(), sha256, 4_097));
    assert!(rt; takes_length(&rt, rt.alloc(), sha256, 4_096));
}

#[test]
fn long_passwords_of_bcrypt(rt: HostRuntime) {
    let long = [b'a'; 73];
    let mut out = [OLD; TEXT_MAX];
    let made = made_in(&rt, rt.alloc(), MakeCost::Bcrypt(4), &long, SALT, &mut out);
    assert!(rt; made.err() == Some(MakeFault::PasswordTooLong));
    let made = made_in(
        &rt,
        rt.alloc(),
        MakeCost::Bcrypt(4),
        &long[..72],
        SALT,
        &mut out,
    );
    assert!(rt; made == Ok(60));
}

// The text of a password with a zero byte is that of all its bytes.
fn counts_all_bytes(rt: &impl Abort, alloc: Global, text: &[u8]) {
    let kdf = record_kdf(alloc);
    let kept = CryptKept::new(alloc);
    let Ok(stored) = str::from_utf8(text) else {
        panic!(rt; "it is no text")
    };
    assert!(rt;
        is_matched(rt, alloc, &kdf, &kept, "a\0b", stored),
        "{stored}"
    );
    assert!(rt;
        !is_matched(rt, alloc, &kdf, &kept, "a", stored),
        "{stored}"
    );
}

// A record's scheme takes a zero byte.
#[test]
fn zero_bytes(rt: HostRuntime) {
    for (name, cost) in QUICK {
        match made_text(rt.alloc(), *cost, b"a\0b", SALT) {
            Ok(text) => counts_all_bytes(&rt, rt.alloc(), text.as_slice()),
            Err(MakeFault::OutOfMemory) => panic!(rt; "want of memory: {name}"),
            Err(_) => panic!(rt; "no text: {name}"),
        }
    }
}

// A scheme and its name, what is recommended of it, the bytes of a salt, and whether a table is needed.
struct Recommended {
    scheme: Scheme,
    name: &'static str,
    cost: MakeCost,
    salt: usize,
    needs_memory: bool,
}

// What OWASP, RFC 9106, libxcrypt and passlib recommend.
const RECOMMENDED: &[Recommended] = &[
    Recommended {
        scheme: Scheme::Sha256Crypt,
        name: "sha256-crypt",
        cost: MakeCost::ShaCrypt(Family::Sha256, 535_000),
        salt: 12,
        needs_memory: false,
    },
    Recommended {
        scheme: Scheme::Sha512Crypt,
        name: "sha512-crypt",
        cost: MakeCost::ShaCrypt(Family::Sha512, 656_000),
        salt: 12,
        needs_memory: false,
    },
    Recommended {
        scheme: Scheme::Scrypt,
        name: "scrypt",
        cost: MakeCost::Scrypt(ScryptParams { ln: 17, r: 8, p: 1 }),
        salt: 16,
        needs_memory: true,
    },
    Recommended {
        scheme: Scheme::Bcrypt,
        name: "bcrypt",
        cost: MakeCost::Bcrypt(12),
        salt: 16,
        needs_memory: false,
    },
    Recommended {
        scheme: Scheme::Yescrypt,
        name: "yescrypt",
        cost: MakeCost::Yescrypt(YescryptParams {
            ln: 12,
            r: 32,
            t: 0,
        }),
        salt: 16,
        needs_memory: true,
    },
    Recommended {
        scheme: Scheme::Argon2id,
        name: "argon2id",
        cost: MakeCost::Argon2id(Argon2Cost {
            memory: 65_536,
            passes: 3,
            lanes: 4,
        }),
        salt: 16,
        needs_memory: true,
    },
    Recommended {
        scheme: Scheme::Pbkdf2Sha256,
        name: "pbkdf2-sha256",
        cost: MakeCost::Pbkdf2(Pbkdf2Hash::Sha256, 600_000),
        salt: 16,
        needs_memory: false,
    },
    Recommended {
        scheme: Scheme::Pbkdf2Sha512,
        name: "pbkdf2-sha512",
        cost: MakeCost::Pbkdf2(Pbkdf2Hash::Sha512, 210_000),
        salt: 16,
        needs_memory: false,
    },
];

fn recommended_rows() -> &'static [Recommended] {
    RECOMMENDED
}

fn is_recommended(rt: &impl Abort, row: &Recommended) {
    let name = row.name;
    assert!(rt; recommended(row.scheme) == Some(row.cost), "{name}");
    assert!(rt; row.cost.scheme() == row.scheme, "{name}");
    assert!(rt; row.cost.is_taken(), "{name}");
    assert!(rt; row.cost.salt_length() == row.salt, "{name}");
    assert!(rt; row.cost.needs_memory() == row.needs_memory, "{name}");
}

fn is_named(rt: &impl Abort, row: &Recommended) {
    let name = row.name;
    assert!(rt; row.scheme.name() == name, "{name}");
    assert!(rt; scheme_named(name) == Ok(row.scheme), "{name}");
}

#[test]
fn schemes(rt: HostRuntime) {
    for row in recommended_rows() {
        is_recommended(&rt, row);
        is_named(&rt, row);
    }
}

#[test]
fn schemes_without_texts(rt: HostRuntime) {
    for scheme in SCHEMES {
        assert!(rt;
            recommended(scheme).is_some() == scheme.is_made(),
            "{}",
            scheme.name()
        );
    }
}

const NO_NAMES: &[&str] = &[
    "",
    "md5",
    "SHA256-crypt",
    "argon2",
    "argon2i",
    "scrypt ",
    "sha256",
    "scrypt-crypt",
    "scram-sha-256",
    "mysql-sha2",
    "argon2d",
];

// Schemes that are weak by themselves.
const WEAK_NAMES: &[&str] = &[
    "md5-crypt",
    "sha1-crypt",
    "phpass",
    "salted-digest",
    "pbkdf2-sha1",
];

#[test]
fn no_names(rt: HostRuntime) {
    for name in WEAK_NAMES {
        assert!(rt; scheme_named(name).err() == Some(NameFault::Weak), "{name}");
    }
    for name in NO_NAMES {
        assert!(rt;
            scheme_named(name).err() == Some(NameFault::Unknown),
            "{name}"
        );
    }
}
