//! Vectors of RFC 7914, section 12, and of RFC 4231.

use phc::PasswordHash;
use scrypt_plain::hmac::{HmacSha256, block_key, hmac};
use scrypt_plain::{ScryptKept, ScryptPlain, bytes, in_bounds, laws, scrypt, scrypt_in, work_len};
use std::test::Fail;
use stored_check::PhcKdf;

// A key of RFC 7914, section 12: no password, no salt, N = 16, r = 1, p = 1.
const SHORT_KEY: [u8; 64] =
    *b"\x77\xd6\x57\x62\x38\x65\x7b\x20\x3b\x19\xca\x42\xc1\x8a\x04\x97\xf1\x6b\x48\x44\xe3\x07\x4a\xe8\xdf\xdf\xfa\x3f\xed\xe2\x14\x42\xfc\xd0\x06\x9d\xed\x09\x48\xf8\x32\x6a\x75\x3a\x0f\xc8\x1f\x17\xe8\xd3\xe0\xfb\x2e\x0d\x36\x28\xcf\x35\xe2\x0c\x38\xd1\x89\x06";

// A password, a salt, ln, r, p and the key of 64 bytes: RFC 7914, section 12.
const KEYS: [(&[u8], &[u8], u32, u32, u32, [u8; 64]); 2] = [
    (b"", b"", 4, 1, 1, SHORT_KEY),
    (
        b"password",
        b"NaCl",
        10,
        8,
        16,
        *b"\xfd\xba\xbe\x1c\x9d\x34\x72\x00\x78\x56\xe7\x19\x0d\x01\xe9\xfe\x7c\x6a\xd7\xcb\xc8\x23\x78\x30\xe7\x73\x76\x63\x4b\x37\x31\x62\x2e\xaf\x30\xd9\x2e\x22\xa3\x88\x6f\xf1\x09\x27\x9d\x98\x30\xda\xc7\x27\xaf\xb9\x4a\x83\xee\x6d\x83\x60\xcb\xdf\xa2\xcc\x06\x40",
    ),
];

// The vector of N = 16,384 beside them.
const LONG_KEY: [u8; 64] =
    *b"\x70\x23\xbd\xcb\x3a\xfd\x73\x48\x46\x1c\x06\xcd\x81\xfd\x38\xeb\xfd\xa8\xfb\xba\x90\x4f\x8e\x3e\xa9\xb5\x43\xf6\x54\x5d\xa1\xf2\xd5\x43\x29\x55\x61\x3f\x0f\xcf\x62\xd4\x97\x05\x24\x2a\x9a\xf9\xe6\x1e\x85\xdc\x0d\x65\x1e\x40\xdf\xcf\x01\x7b\x45\x57\x58\x87";

// A key, a message and its code: RFC 4231, test cases 2 and 6.
const CODES: [(&[u8], &[u8], [u8; 32]); 2] = [
    (
        b"Jefe",
        b"what do ya want for nothing?",
        *b"\x5b\xdc\xc1\x46\xbf\x60\x75\x4e\x6a\x04\x24\x26\x08\x95\x75\xc7\x5a\x00\x3f\x08\x9d\x27\x39\x83\x9d\xec\x58\xb9\x64\xec\x38\x43",
    ),
    (
        &[0xaa; 131],
        b"Test Using Larger Than Block-Size Key - Hash Key First",
        *b"\x60\xe4\x31\x59\x1e\xe0\xb6\x7f\x0d\x8a\x26\xaa\xcb\xf5\xb7\x7f\x8e\x0b\xc6\x21\x37\x28\xc5\x14\x05\x46\x04\x0f\x0e\xe3\x7f\x54",
    ),
];

#[test]
fn keys(rt: HostRuntime) -> Result<(), Fail> {
    for (password, salt, ln, r, p, key) in KEYS {
        assert!(rt; in_bounds(ln, r, p), "ln {ln}");
        let mut out = [0u8; 64];
        scrypt(rt.alloc(), password, salt, ln, r, p, &mut out)?;
        assert!(rt; out.as_slice() == key.as_slice(), "ln {ln}");
    }
    Ok(())
}

#[test]
fn shorter_key_in_used_memory(rt: HostRuntime) -> Result<(), Fail> {
    let mut out = [0u8; 40];
    let mut work = Vec::from_elem(rt.alloc(), 7u32, work_len(4, 1, 1) + 1)?;
    for count in [40, 32, 1] {
        scrypt_in(b"", b"", 4, 1, 1, work.as_mut_slice(), &mut out[..count]);
        assert!(rt; &out[..count] == &KEYS[0].5[..count], "{count}");
    }
    Ok(())
}

#[test]
fn key_of_a_longer_table(rt: HostRuntime) -> Result<(), Fail> {
    let mut out = [0u8; 64];
    scrypt(
        rt.alloc(),
        b"pleaseletmein",
        b"SodiumChloride",
        14,
        8,
        1,
        &mut out,
    )?;
    assert!(rt; out.as_slice() == LONG_KEY.as_slice());
    Ok(())
}

#[test]
fn codes(rt: HostRuntime) -> Result<(), Fail> {
    for (key, message, code) in CODES {
        let len = message.len();
        assert!(rt;
            hmac(key, message).as_slice() == code.as_slice(),
            "{len} bytes"
        );
        let mut state = HmacSha256::new(key);
        state.update(&message[..10]);
        let mut other = state.clone()?;
        state.update(&message[10..]);
        other.update(b"another end");
        assert!(rt;
            state.finalize().as_slice() == code.as_slice(),
            "{len} bytes"
        );
        assert!(rt; other.finalize().as_slice() != code.as_slice());
    }
    Ok(())
}

#[test]
fn keys_of_a_block_and_bytes(rt: HostRuntime) {
    let mut padded = block_key(b"Jefe");
    bytes::xor_bytes(&mut padded[..5], &[0x36; 5]);
    assert!(rt; &padded[..6] == b"\x7c\x53\x50\x53\x36\x00".as_slice());
}

// ln, r, p, and whether they are taken: each bound, from both sides.
const PARAMETERS: [(u32, u32, u32, bool); 17] = [
    (1, 1, 1, true),
    (0, 1, 1, false),
    (15, 1, 1, true),
    (16, 1, 1, false),
    (16, 2, 1, true),
    (20, 2, 1, true),
    (21, 2, 1, false),
    (14, 0, 1, false),
    (14, 8, 0, false),
    (14, 8, 1024, true),
    (14, 8, 1025, false),
    (1, 131072, 1, true),
    (1, 131073, 1, false),
    (1, 128, 1024, true),
    (1, 129, 1024, false),
    (25, 2, 1, false),
    (4294967295, 4294967295, 4294967295, false),
];

#[test]
fn bounds(rt: HostRuntime) {
    for (ln, r, p, taken) in PARAMETERS {
        assert!(rt; in_bounds(ln, r, p) == taken, "ln {ln} r {r} p {p}");
    }
    assert!(rt; work_len(14, 8, 1) == 256 * 16387);
}

#[test]
fn laws_stand(_rt: HostRuntime) {
    laws::code_length();
    laws::block_key_length();
    laws::key_length();
    laws::shorter_key();
    laws::key_bytes();
}

// A record, the bytes of a hash, and whether it is taken.
const RECORDS: [(&str, usize, bool); 12] = [
    ("$scrypt$ln=16,r=8,p=1", 32, true),
    ("$scrypt$p=1,ln=17,r=8", 10, true),
    ("$scrypt$ln=4,r=1,p=1", 64, true),
    ("$scrypt$ln=4,r=1,p=1", 9, false),
    ("$scrypt$ln=4,r=1,p=1", 65, false),
    ("$scrypt$v=1$ln=4,r=1,p=1", 32, false),
    ("$scrypt$ln=4,r=1", 32, false),
    ("$scrypt$ln=4,r=1,p=1,ln=4", 32, false),
    ("$scrypt$ln=4,r=1,n=1", 32, false),
    ("$scrypt$ln=04,r=1,p=1", 32, false),
    ("$scrypt$ln=25,r=8,p=1", 32, false),
    ("$Scrypt", 32, false),
];

#[test]
fn records_taken(rt: HostRuntime) {
    for (text, length, taken) in RECORDS {
        match PasswordHash::new(text) {
            Ok(record) => {
                assert!(rt;
                    ScryptPlain.accepts(&record, b"salt", length) == taken,
                    "{text}"
                );
            }
            Err(_) => assert!(rt; !taken, "{text}"),
        }
    }
}

#[test]
fn key_of_a_record(rt: HostRuntime) -> Result<(), Fail> {
    let Ok(record) = PasswordHash::new("$scrypt$ln=10,p=16,r=8") else {
        panic!(rt; "a record")
    };
    let mut key = [0u8; 64];
    assert!(rt; ScryptPlain.accepts(&record, b"NaCl", 64));
    ScryptPlain.derive(rt.alloc(), b"password", &record, b"NaCl", &mut key)?;
    assert!(rt; key.as_slice() == KEYS[1].5.as_slice());
    Ok(())
}

// A key by OpenSSL 3.0: "pleaseletmein", "SodiumChloride", N = 32, r = 2, p = 3.
const OTHER_KEY: [u8; 64] =
    *b"\x60\x1b\x33\xb7\x04\x75\x0b\x95\x16\xd0\x93\xe0\x89\xa6\x89\x62\x73\xe2\x7c\xd8\x4a\xe5\x8a\x9d\x94\x6d\xa1\x0f\xe7\x75\xf0\x26\x27\x05\x33\xde\x02\x23\x32\x89\xd4\x05\x42\x16\x4c\xd7\x72\x02\xe0\x09\xe5\xe6\xdf\x78\xba\x0c\xa8\xaf\x11\xd9\x3b\x10\xe8\xea";

// The same: "pleaseletmein", "SodiumChloride", N = 64, r = 4, p = 1.
const LONGER_KEY: [u8; 64] =
    *b"\x14\xa7\x3b\x58\x7a\x75\xf2\xa6\xad\xa9\x9d\x8a\x92\xde\xe8\x66\x86\xd6\x22\x9d\x88\x5a\xcd\xcb\x22\xe4\xc8\x12\xc0\xa5\x65\x0c\x8e\x43\xaa\xc8\xed\x1b\xc6\xac\xe2\xc2\xe0\x18\x4b\xc0\x78\x29\x7a\x76\x5f\xfb\xb0\x5b\xa2\x59\x86\x35\x2e\x1f\xd1\xdc\xa7\xad";

// A record, a password, a salt and the key, in the order of their tables' sizes.
const KEPT: [(&str, &[u8], &[u8], [u8; 64]); 3] = [
    ("$scrypt$ln=4,r=1,p=1", b"", b"", SHORT_KEY),
    (
        "$scrypt$ln=5,r=2,p=3",
        b"pleaseletmein",
        b"SodiumChloride",
        OTHER_KEY,
    ),
    (
        "$scrypt$ln=6,r=4,p=1",
        b"pleaseletmein",
        b"SodiumChloride",
        LONGER_KEY,
    ),
];

// The table grows for the second and for the third record, and serves smaller ones behind larger ones.
#[test]
fn keys_in_a_kept_table(rt: HostRuntime) -> Result<(), Fail> {
    for order in [[0, 1, 2, 0, 1], [1, 0, 2, 1, 2]] {
        let kept = ScryptKept::new(rt.alloc());
        for at in order {
            let (text, password, salt, expected) = match at {
                0 => KEPT[0],
                1 => KEPT[1],
                _ => KEPT[2],
            };
            let Ok(record) = PasswordHash::new(text) else {
                panic!(rt; "a record")
            };
            let mut key = [0u8; 64];
            assert!(rt; kept.accepts(&record, salt, 64), "{text}");
            kept.derive(rt.alloc(), password, &record, salt, &mut key)?;
            assert!(rt; key.as_slice() == expected.as_slice(), "{text}");
        }
    }
    Ok(())
}
