//! Keys and records with HMAC-SHA-1.

ghost use Rattle.std.specs.Prelude.{◌≤◌, length};

use pbkdf2_plain::{Pbkdf2Hash, Pbkdf2Plain, pbkdf2_sha1};
use phc::PasswordHash;
use stored_check::{PhcKdf, StoredError, check_stored};

const SHA1: Pbkdf2Plain = Pbkdf2Plain {
    hash: Pbkdf2Hash::Sha1,
};

// A password, a salt, the rounds and the key: RFC 6070, test cases 1, 2, 3, 5 and 6. Then a key of four blocks, and passwords that are a
// block long and one byte longer, as openssl and Python's hashlib give them. Case 4 has 16,777,216 rounds, which no record may have.
const KEYS: &[(&[u8], &[u8], u32, &[u8])] = &[
    (
        b"password",
        b"salt",
        1,
        b"\x0c\x60\xc8\x0f\x96\x1f\x0e\x71\xf3\xa9\xb5\x24\xaf\x60\x12\x06\x2f\xe0\x37\xa6",
    ),
    (
        b"password",
        b"salt",
        2,
        b"\xea\x6c\x01\x4d\xc7\x2d\x6f\x8c\xcd\x1e\xd9\x2a\xce\x1d\x41\xf0\xd8\xde\x89\x57",
    ),
    (
        b"password",
        b"salt",
        4096,
        b"\x4b\x00\x79\x01\xb7\x65\x48\x9a\xbe\xad\x49\xd9\x26\xf7\x21\xd0\x65\xa4\x29\xc1",
    ),
    (
        b"passwordPASSWORDpassword",
        b"saltSALTsaltSALTsaltSALTsaltSALTsalt",
        4096,
        b"\x3d\x2e\xec\x4f\xe4\x1c\x84\x9b\x80\xc8\xd8\x36\x62\xc0\xe4\x4a\x8b\x29\x1a\x96\x4c\xf2\xf0\x70\x38",
    ),
    (
        b"pass\0word",
        b"sa\0lt",
        4096,
        b"\x56\xfa\x6a\xa7\x55\x48\x09\x9d\xcc\x37\xd7\xf0\x34\x25\xe0\xc3",
    ),
    (
        b"password",
        b"salt",
        3,
        b"\x6b\x4e\x26\x12\x5c\x25\xcf\x21\xae\x35\xea\xd9\x55\xf4\x79\xea\x2e\x71\xf6\xff\x9e\x40\x00\x29\xf0\x48\x10\xee\xce\x31\x35\x55\x33\xbb\x2e\xd3\x48\xe6\x04\xda\x70\x7c\xc4\x56\x2f\x85\xfe\x12\x0c\x5c\x3f\x28\xae\x00\x78\x05\xd5\xe5\xfa\x11\xc0\xaa\x19\xfb",
    ),
    (
        &[b'k'; 64],
        b"salt",
        1,
        b"\x7f\x90\x59\xec\xbe\x80\xe8\xee\x60\xcf\x66\xdf\xb3\xc1\x0c\x31\x7f\x29\x56\xe9",
    ),
    (
        &[b'k'; 65],
        b"salt",
        1,
        b"\xee\xb2\x00\x42\x2a\xbe\x95\xe1\x91\xba\xe9\x89\x03\x38\xbc\x8e\x54\x0c\x78\x11",
    ),
];

// Whether the front of a room is the key, and the other bytes are as they were.
fn is_key(password: &[u8], salt: &[u8], rounds: u32, key: &[u8]) -> bool
    requires rounds_least { 1 ≤ rounds }
    requires key_length_least { 1 ≤ length key.now }
    requires key_length_most { length key.now ≤ 64 }
{
    let mut out = [7u8; 64];
    let count = key.len();
    pbkdf2_sha1(password, salt, rounds, &mut out[..count]);
    &out[..count] == key && out[count..].iter().all(|b| *b == 7)
}

#[test]
fn keys(rt: HostRuntime) {
    for (password, salt, rounds, key) in KEYS {
        assert!(rt; 1 <= *rounds);
        assert!(rt; !key.is_empty());
        assert!(rt; key.len() <= 64);
        let is = is_key(password, salt, *rounds, key);
        assert!(rt; is, "{rounds}");
    }
}

const COUNTS: &[usize] = &[1, 10, 19, 20, 21, 40, 41, 63];

// The fronts of the key of four blocks.
#[test]
fn shorter_keys(rt: HostRuntime) {
    let (password, salt, rounds, key) = KEYS[5];
    for count in COUNTS {
        assert!(rt; 1 <= *count);
        assert!(rt; *count <= 64);
        let is = is_key(password, salt, rounds, &key[..*count]);
        assert!(rt; is, "{count}");
    }
}

// A record, the bytes of a hash, and whether it is taken.
const RECORDS: &[(&str, usize, bool)] = &[
    ("$pbkdf2-sha1$i=1", 10, true),
    ("$pbkdf2-sha1$i=1", 20, true),
    ("$pbkdf2-sha1$i=1", 64, true),
    ("$pbkdf2-sha1$i=1", 9, false),
    ("$pbkdf2-sha1$i=1", 65, false),
    ("$pbkdf2-sha1$l=20,i=10000000", 20, true),
    ("$pbkdf2-sha1$i=10000001", 20, false),
    ("$pbkdf2-sha1$i=0", 20, false),
    ("$pbkdf2-sha1$i=1,l=21", 20, false),
    ("$pbkdf2-sha1", 20, false),
    ("$pbkdf2-sha256$i=1", 20, false),
    ("$pbkdf2-sha512$i=1", 20, false),
    ("$pbkdf2$i=1", 20, false),
];

// Whether a record is taken; nothing, where the text is none.
fn taken(text: &str, length: usize) -> Option<bool> {
    match PasswordHash::new(text) {
        Ok(record) => Some(SHA1.accepts(&record, b"salt", length)),
        Err(_) => None,
    }
}

#[test]
fn records_taken(rt: HostRuntime) {
    for (text, length, is_taken) in RECORDS {
        assert!(rt; taken(text, *length) == Some(*is_taken), "{text} {length}");
    }
}

// A password, a text and its verdict. The hashes are of Python's hashlib; those of the last two rows are keys with SHA-256.
const VERDICTS: &[(&str, &str, Result<bool, StoredError>)] = &[
    (
        "x",
        "$pbkdf2-sha1$i=5,l=21$abcdabcdabc$mCTihr7iT/WfykLlEh+hd7vl0qz9",
        Ok(true),
    ),
    (
        "y",
        "$pbkdf2-sha1$i=5,l=21$abcdabcdabc$mCTihr7iT/WfykLlEh+hd7vl0qz9",
        Ok(false),
    ),
    (
        "x",
        "$pbkdf2-sha1$i=5$abcdabcdabc$mCTihr7iT/WfykLlEh+hd7vl0qz9CRkwre5pZrZzpaGT3BIiujApv6HyQPl/T/smp5wvhSoYXQGNa+hY3llIGw",
        Ok(true),
    ),
    ("x", "$pbkdf2-sha1$i=5$abcdabcdabc$mCTihr7iT/Wfyg", Ok(true)),
    (
        "x",
        "$pbkdf2-sha1$i=5$abcdabcdabc$kna3dT/y4R3gq0heYWtMWeenU/aZ",
        Ok(false),
    ),
    (
        "x",
        "$pbkdf2-sha256$i=5$abcdabcdabc$kna3dT/y4R3gq0heYWtMWeenU/aZ",
        Err(StoredError::Kdf),
    ),
];

#[test]
fn verdicts(rt: HostRuntime) {
    for (password, stored, verdict) in VERDICTS {
        assert!(rt;
            check_stored(rt.alloc(), &SHA1, password, stored) == *verdict,
            "{stored}"
        );
    }
}

#[test]
fn identifier_of_records(rt: HostRuntime) {
    assert!(rt; Pbkdf2Hash::Sha1.identifier() == "pbkdf2-sha1");
}
