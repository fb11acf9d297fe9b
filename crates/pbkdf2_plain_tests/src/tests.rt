//! Keys of OpenSSL, records, and two derivations as one.

use line_io::{MemorySink, MemorySource};
use pbkdf2_plain::{
    EitherKdf, Pbkdf2Hash, Pbkdf2Plain, laws, pbkdf2_sha256, pbkdf2_sha512, run_either,
    run_either_limited,
};
use phc::{Ident, PasswordHash};
use scrypt_plain::ScryptPlain;
use std::test::Fail;
use stored_check::{PhcKdf, StoredError, check_stored};

const SHA256: Pbkdf2Plain = Pbkdf2Plain {
    hash: Pbkdf2Hash::Sha256,
};

const SHA512: Pbkdf2Plain = Pbkdf2Plain {
    hash: Pbkdf2Hash::Sha512,
};

// A password, a salt, the rounds and the key with SHA-256: the inputs of RFC 6070, as openssl and Python's hashlib give
// them. The one with 16,777,216 rounds is past the bound.
const SHA256_KEYS: [(&[u8], &[u8], u32, &[u8]); 5] = [
    (
        b"password",
        b"salt",
        1,
        b"\x12\x0f\xb6\xcf\xfc\xf8\xb3\x2c\x43\xe7\x22\x52\x56\xc4\xf8\x37\xa8\x65\x48\xc9\x2c\xcc\x35\x48\x08\x05\x98\x7c\xb7\x0b\xe1\x7b\x4d\xbf\x3a\x2f\x3d\xad\x33\x77\x26\x4b\xb7\xb8\xe8\x33\x0d\x4e\xfc\x74\x51\x41\x86\x17\xda\xbe\xf6\x83\x73\x53\x61\xcd\xc1\x8c",
    ),
    (
        b"password",
        b"salt",
        2,
        b"\xae\x4d\x0c\x95\xaf\x6b\x46\xd3\x2d\x0a\xdf\xf9\x28\xf0\x6d\xd0\x2a\x30\x3f\x8e\xf3\xc2\x51\xdf\xd6\xe2\xd8\x5a\x95\x47\x4c\x43\x83\x06\x51\xaf\xcb\x5c\x86\x2f\x0b\x24\x9b\xd0\x31\xf7\xa6\x75\x20\xd1\x36\x47\x0f\x5e\xc2\x71\xec\xe9\x1c\x07\x77\x32\x53\xd9",
    ),
    (
        b"password",
        b"salt",
        4096,
        b"\xc5\xe4\x78\xd5\x92\x88\xc8\x41\xaa\x53\x0d\xb6\x84\x5c\x4c\x8d\x96\x28\x93\xa0\x01\xce\x4e\x11\xa4\x96\x38\x73\xaa\x98\x13\x4a",
    ),
    (
        b"passwordPASSWORDpassword",
        b"saltSALTsaltSALTsaltSALTsaltSALTsalt",
        4096,
        b"\x34\x8c\x89\xdb\xcb\xd3\x2b\x2f\x32\xd8\x14\xb8\x11\x6e\x84\xcf\x2b\x17\x34\x7e\xbc\x18\x00\x18\x1c\x4e\x2a\x1f\xb8\xdd\x53\xe1\xc6\x35\x51\x8c\x7d\xac\x47\xe9",
    ),
    (
        b"pass\0word",
        b"sa\0lt",
        4096,
        b"\x89\xb6\x9d\x05\x16\xf8\x29\x89\x3c\x69\x62\x26\x65\x0a\x86\x87",
    ),
];

// The same with SHA-512, by the same two, and with passwords that are a block long and one byte longer.
const SHA512_KEYS: [(&[u8], &[u8], u32, &[u8]); 7] = [
    (
        b"password",
        b"salt",
        1,
        b"\x86\x7f\x70\xcf\x1a\xde\x02\xcf\xf3\x75\x25\x99\xa3\xa5\x3d\xc4\xaf\x34\xc7\xa6\x69\x81\x5a\xe5\xd5\x13\x55\x4e\x1c\x8c\xf2\x52\xc0\x2d\x47\x0a\x28\x5a\x05\x01\xba\xd9\x99\xbf\xe9\x43\xc0\x8f\x05\x02\x35\xd7\xd6\x8b\x1d\xa5\x5e\x63\xf7\x3b\x60\xa5\x7f\xce",
    ),
    (
        b"password",
        b"salt",
        2,
        b"\xe1\xd9\xc1\x6a\xa6\x81\x70\x8a\x45\xf5\xc7\xc4\xe2\x15\xce\xb6\x6e\x01\x1a\x2e\x9f\x00\x40\x71\x3f\x18\xae\xfd\xb8\x66\xd5\x3c\xf7\x6c\xab\x28\x68\xa3\x9b\x9f\x78\x40\xed\xce\x4f\xef\x5a\x82\xbe\x67\x33\x5c\x77\xa6\x06\x8e\x04\x11\x27\x54\xf2\x7c\xcf\x4e",
    ),
    (
        b"password",
        b"salt",
        4096,
        b"\xd1\x97\xb1\xb3\x3d\xb0\x14\x3e\x01\x8b\x12\xf3\xd1\xd1\x47\x9e\x6c\xde\xbd\xcc\x97\xc5\xc0\xf8\x7f\x69\x02\xe0\x72\xf4\x57\xb5\x14\x3f\x30\x60\x26\x41\xb3\xd5\x5c\xd3\x35\x98\x8c\xb3\x6b\x84\x37\x60\x60\xec\xd5\x32\xe0\x39\xb7\x42\xa2\x39\x43\x4a\xf2\xd5",
    ),
    (
        b"passwordPASSWORDpassword",
        b"saltSALTsaltSALTsaltSALTsaltSALTsalt",
        4096,
        b"\x8c\x05\x11\xf4\xc6\xe5\x97\xc6\xac\x63\x15\xd8\xf0\x36\x2e\x22\x5f\x3c\x50\x14\x95\xba\x23\xb8\x68",
    ),
    (
        b"pass\0word",
        b"sa\0lt",
        4096,
        b"\x9d\x9e\x9c\x4c\xd2\x1f\xe4\xbe\x24\xd5\xb8\x24\x4c\x75\x96\x65",
    ),
    (
        &[b'k'; 128],
        b"salt",
        1,
        b"\x72\x12\xa5\x1c\xea\x53\x39\xb7\x71\xd3\x4a\x55\x04\x38\xe2\x47\x45\xdf\x96\x2c\x9c\x11\x96\xae\xf3\x6d\x1d\x38\x55\xcb\x35\xa2",
    ),
    (
        &[b'k'; 129],
        b"salt",
        1,
        b"\x9e\x55\xfa\x75\x57\x43\xde\xec\x59\xf9\xdd\x05\xb2\x54\x17\x57\x09\x81\x70\x5e\xe0\xfa\x99\x67\x80\xf2\x55\x2a\x5a\x22\x7e\x63",
    ),
];

#[test]
fn keys_by_sha256(rt: HostRuntime) {
    for (password, salt, rounds, key) in SHA256_KEYS {
        let mut out = [0u8; 64];
        let count = key.len();
        pbkdf2_sha256(password, salt, rounds, &mut out[..count]);
        assert!(rt; &out[..count] == key, "{rounds} {count}");
        assert!(rt; out[count..].iter().all(|b| *b == 0), "{rounds} {count}");
    }
}

#[test]
fn keys_by_sha512(rt: HostRuntime) {
    for (password, salt, rounds, key) in SHA512_KEYS {
        let mut out = [0u8; 64];
        let count = key.len();
        pbkdf2_sha512(password, salt, rounds, &mut out[..count]);
        assert!(rt; &out[..count] == key, "{rounds} {count}");
        assert!(rt; out[count..].iter().all(|b| *b == 0), "{rounds} {count}");
    }
}

const COUNTS: [usize; 7] = [1, 10, 31, 32, 33, 40, 63];

#[test]
fn shorter_keys_by_sha256(rt: HostRuntime) {
    let (password, salt, rounds, key) = SHA256_KEYS[1];
    for count in COUNTS {
        let mut out = [0u8; 64];
        pbkdf2_sha256(password, salt, rounds, &mut out[..count]);
        assert!(rt; &out[..count] == &key[..count], "{count}");
        assert!(rt; out[count..].iter().all(|b| *b == 0), "{count}");
    }
}

#[test]
fn shorter_keys_by_sha512(rt: HostRuntime) {
    let (password, salt, rounds, key) = SHA512_KEYS[1];
    for count in COUNTS {
        let mut out = [0u8; 64];
        pbkdf2_sha512(password, salt, rounds, &mut out[..count]);
        assert!(rt; &out[..count] == &key[..count], "{count}");
        assert!(rt; out[count..].iter().all(|b| *b == 0), "{count}");
    }
}

// A record, the bytes of a hash, and whether it is taken.
const RECORDS: [(&str, usize, bool); 17] = [
    ("$pbkdf2-sha256$i=1", 10, true),
    ("$pbkdf2-sha256$i=1", 64, true),
    ("$pbkdf2-sha256$i=1", 9, false),
    ("$pbkdf2-sha256$i=1", 65, false),
    ("$pbkdf2-sha256$i=10000000,l=32", 32, true),
    ("$pbkdf2-sha256$l=32,i=10000000", 32, true),
    ("$pbkdf2-sha256$i=10000001", 32, false),
    ("$pbkdf2-sha256$i=0", 32, false),
    ("$pbkdf2-sha256$i=1,l=31", 32, false),
    ("$pbkdf2-sha256$i=01", 32, false),
    ("$pbkdf2-sha256$l=32", 32, false),
    ("$pbkdf2-sha256$i=1,i=1", 32, false),
    ("$pbkdf2-sha256$i=1,l=32,l=32", 32, false),
    ("$pbkdf2-sha256$i=1,n=32", 32, false),
    ("$pbkdf2-sha256$v=1$i=1", 32, false),
    ("$pbkdf2-sha512$i=1", 32, false),
    ("$pbkdf2-sha256", 32, false),
];

#[test]
fn records_taken(rt: HostRuntime) {
    for (text, length, taken) in RECORDS {
        match PasswordHash::new(text) {
            Ok(record) => assert!(rt;
                SHA256.accepts(&record, b"salt", length) == taken,
                "{text} {length}"
            ),
            Err(_) => panic!(rt; "no record: {text}"),
        }
    }
}

// The same of the records of SHA-512.
const SHA512_RECORDS: [(&str, usize, bool); 6] = [
    ("$pbkdf2-sha512$i=1", 64, true),
    ("$pbkdf2-sha512$l=10,i=10000000", 10, true),
    ("$pbkdf2-sha512$i=10000001", 32, false),
    ("$pbkdf2-sha512$i=1,l=31", 32, false),
    ("$pbkdf2-sha256$i=1", 32, false),
    ("$pbkdf2$i=1", 32, false),
];

#[test]
fn records_of_sha512_taken(rt: HostRuntime) {
    for (text, length, taken) in SHA512_RECORDS {
        match PasswordHash::new(text) {
            Ok(record) => assert!(rt;
                SHA512.accepts(&record, b"salt", length) == taken,
                "{text} {length}"
            ),
            Err(_) => panic!(rt; "no record: {text}"),
        }
    }
}

// Hashes of openssl, with SHA-512.
#[test]
fn verdicts_of_sha512(rt: HostRuntime) {
    let matching = "$pbkdf2-sha512$i=3,l=20$abcdabcdabc$i/0ivkd2i11M5SWZO6SyK4C7I20";
    let whole =
        "$pbkdf2-sha512$i=3$abcdabcdabc$i/0ivkd2i11M5SWZO6SyK4C7I23RMRuR9SRL+rrzZsi+J1aoPBORJIrhfGWO7toXNva/cleOid0KrdLoWXh4zA";
    for (password, stored, verdict) in [
        ("x", matching, Ok(true)),
        ("y", matching, Ok(false)),
        ("x", whole, Ok(true)),
        (
            "x",
            "$pbkdf2-sha256$i=3,l=20$abcdabcdabc$AV51HpxlcLyeNoRwT7WM5XsdQVM",
            Err(StoredError::Kdf),
        ),
    ] {
        assert!(rt;
            check_stored(rt.alloc(), &SHA512, password, stored) == verdict,
            "{stored}"
        );
    }
    assert!(rt; check_stored(rt.alloc(), &SHA256, "x", matching) == Err(StoredError::Kdf));
}

// A password, a stored text and its verdict. The hash of the second is openssl's.
const VERDICTS: [(&str, &str, Result<bool, StoredError>); 9] = [
    (
        "x",
        "$pbkdf2-sha256$i=1,l=10$abcdabcdabc$AAAAAAAAAAAAAA",
        Ok(false),
    ),
    (
        "x",
        "$pbkdf2-sha256$i=3,l=20$abcdabcdabc$AV51HpxlcLyeNoRwT7WM5XsdQVM",
        Ok(true),
    ),
    (
        "y",
        "$pbkdf2-sha256$i=3,l=20$abcdabcdabc$AV51HpxlcLyeNoRwT7WM5XsdQVM",
        Ok(false),
    ),
    (
        "x",
        "$pbkdf2-sha256$i=0,l=10$abcdabcdabc$AAAAAAAAAAAAAA",
        Err(StoredError::Kdf),
    ),
    (
        "x",
        "$pbkdf2-sha256$i=1,l=11$abcdabcdabc$AAAAAAAAAAAAAA",
        Err(StoredError::Kdf),
    ),
    (
        "Hello world!",
        "$5$saltstring$5B8vYYiY.CVt1RlTTf8KbXBH3hsxY/GNooZaBBGWEc5",
        Ok(true),
    ),
    (
        "",
        "$scrypt$ln=4,r=1,p=1$abcdabcdabc$pD4UWShsOuWpZmDptoXHTRSo68CYHCw5zKTiBB5COvc",
        Ok(true),
    ),
    (
        "x",
        "$scrypt$ln=4,r=1,p=1$abcdabcdabc$pD4UWShsOuWpZmDptoXHTRSo68CYHCw5zKTiBB5COvc",
        Ok(false),
    ),
    (
        "x",
        "$scrypt$i=1$abcdabcdabc$AAAAAAAAAAAAAA",
        Err(StoredError::Kdf),
    ),
];

#[test]
fn verdicts(rt: HostRuntime) {
    let either = EitherKdf::new(Ident::new_unwrap("scrypt"), ScryptPlain, SHA256);
    for (password, stored, verdict) in VERDICTS {
        assert!(rt;
            check_stored(rt.alloc(), &either, password, stored) == verdict,
            "{stored}"
        );
    }
}

#[test]
fn laws_stand(_rt: HostRuntime) {
    laws::hmac_of_sha256();
    laws::code_length();
    laws::one_round();
    laws::key_length();
    laws::shorter_key();
    laws::either_verdict();
    laws::verdict_of_either(&EitherKdf::new(Ident::new_unwrap("scrypt"), ScryptPlain, SHA256));
}

// Lines, and their words.
const LINES: [(&[u8], &[u8]); 9] = [
    (
        b"x\t$pbkdf2-sha256$i=1,l=10$abcdabcdabc$AAAAAAAAAAAAAA",
        b"mismatch\n",
    ),
    (
        b"x\t$pbkdf2-sha256$i=0,l=10$abcdabcdabc$AAAAAAAAAAAAAA",
        b"invalid\n",
    ),
    (
        b"x\t$pbkdf2-sha256$i=1,l=11$abcdabcdabc$AAAAAAAAAAAAAA",
        b"invalid\n",
    ),
    (
        b"Hello world!\t$5$saltstring$5B8vYYiY.CVt1RlTTf8KbXBH3hsxY/GNooZaBBGWEc5",
        b"match\n",
    ),
    (
        b"password\t$scrypt$ln=16,r=8,p=1$aM15713r3Xsvxbi31lqr1Q$nFNh2CVHVjNldFVKDHDlm4CbdRSCdEBsjjJxD+iCs5E",
        b"match\n",
    ),
    (
        b"x\t$pbkdf2-sha512$i=3,l=20$abcdabcdabc$i/0ivkd2i11M5SWZO6SyK4C7I20",
        b"invalid\n",
    ),
    (b"no tab", b"invalid\n"),
    (b"\xff\t$5", b"invalid\n"),
    (b"x\t$1$a$b", b"invalid\n"),
];

#[test]
fn lines_and_their_words(rt: HostRuntime) {
    for (line, word) in LINES {
        let mut room = [0; 16];
        let mut source = MemorySource::new(line, 9, &[]);
        let mut sink = MemorySink::new(&mut room, 4, &[]);
        let got = run_either(rt.alloc(), &mut source, &mut sink);
        assert!(rt;
            got == (if word == b"match\n".as_slice() { 0 } else { 1 }),
            "{}",
            str::from_utf8(line).unwrap_or("bytes")
        );
        assert!(rt;
            sink.bytes() == word,
            "{}",
            str::from_utf8(line).unwrap_or("bytes")
        );
    }
}

const STOPPED: &[u8] = b"a\t$5\n\nb\n";

#[test]
fn stopped_by_a_read(rt: HostRuntime) {
    let mut room = [0; 64];
    let mut source = MemorySource::new(STOPPED, 5, &[1]);
    let mut sink = MemorySink::new(&mut room, 64, &[]);
    assert!(rt; run_either(rt.alloc(), &mut source, &mut sink) == 3);
    assert!(rt; sink.bytes() == b"invalid\n".as_slice());
}

#[test]
fn stopped_by_a_write(rt: HostRuntime) {
    let mut room = [0; 64];
    let mut source = MemorySource::new(STOPPED, 64, &[]);
    let mut sink = MemorySink::new(&mut room, 9, &[1]);
    assert!(rt; run_either(rt.alloc(), &mut source, &mut sink) == 4);
    assert!(rt; sink.bytes() == b"invalid\ni".as_slice());
}

#[test]
fn stopped_by_the_bound(rt: HostRuntime) {
    let mut room = [0; 64];
    let mut source = MemorySource::new(STOPPED, 64, &[]);
    let mut sink = MemorySink::new(&mut room, 64, &[]);
    assert!(rt; run_either_limited(rt.alloc(), &mut source, &mut sink, 6) == 6);
    assert!(rt; sink.bytes() == b"invalid\ninvalid\n".as_slice());
}
