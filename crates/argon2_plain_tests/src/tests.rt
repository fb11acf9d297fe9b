//! Vectors of RFC 9106, section 5, and tags of the reference program.

use argon2_plain::{
    Argon2Kept, Argon2Plain, Params, Variant, argon2, argon2_in, laws, variable_hash,
};
use phc::PasswordHash;
use std::test::Fail;
use stored_check::{PhcKdf, StoredError, check_stored};

// RFC 9106, sections 5.1 to 5.3: a password of 32 bytes 01, a salt of 16 bytes 02, a secret of 8 bytes 03, data of 12
// bytes 04, 3 passes over 32 KiB in 4 lanes.
const TAGS: [(Variant, [u8; 32]); 3] = [
    (
        Variant::D,
        *b"\x51\x2b\x39\x1b\x6f\x11\x62\x97\x53\x71\xd3\x09\x19\x73\x42\x94\xf8\x68\xe3\xbe\x39\x84\xf3\xc1\xa1\x3a\x4d\xb9\xfa\xbe\x4a\xcb",
    ),
    (
        Variant::I,
        *b"\xc8\x14\xd9\xd1\xdc\x7f\x37\xaa\x13\xf0\xd7\x7f\x24\x94\xbd\xa1\xc8\xde\x6b\x01\x6d\xd3\x88\xd2\x99\x52\xa4\xc4\x67\x2b\x6c\xe8",
    ),
    (
        Variant::Id,
        *b"\x0d\x64\x0d\xf5\x8d\x78\x76\x6c\x08\xc0\x37\xa3\x4a\x8b\x53\xc9\xd0\x1e\xf0\x45\x2d\x75\xb6\x5e\xb5\x25\x20\xe9\x6b\x01\xe6\x59",
    ),
];

// A password, a salt, the type with passes, KiB and lanes, and the tag, by libargon2 20171227.
const OTHERS: [(&[u8], &[u8], Params, &[u8]); 4] = [
    (
        b"",
        b"\x73\x61\x6c\x74\x73\x61\x6c\x74\x73\x61\x6c\x74\x73\x61\x6c\x74",
        Params {
            variant: Variant::Id,
            passes: 2,
            memory: 40,
            lanes: 2,
        },
        b"\x02\x49\x1f\xcb\x42\xe2\x80\x52\xa2\x29\x05\x7e\x34\x67\xd2\x58",
    ),
    (
        &[0x78; 200],
        b"\x73\x61\x6c\x74\x73\x61\x6c\x74",
        Params {
            variant: Variant::Id,
            passes: 1,
            memory: 50,
            lanes: 3,
        },
        b"\x14\x91\x32\x50\xf0\x2e\x78\x47\x85\x35\xdb\xed\x29\xe1\xa3\x07\x91\x4e\x06\xe6\xb0\x28\x69\xe0\x98\xe8\x42\xd3\xd5\x46\xfc\x33\xc8\xe5\xb2\x97\x94\x7d\xe6\x2c\xed\xbc\xf2\xb3\x40\x5c\x8d\x79\x3c\x50\xda\xd9\xf7\x5e\x56\x96\x47\xb3\x81\xd9\x97\xe9\x7a\x19\xd6",
    ),
    (
        &[0x79; 128],
        b"\x73\x61\x6c\x74\x73\x61\x6c\x74\x78",
        Params {
            variant: Variant::I,
            passes: 1,
            memory: 1100,
            lanes: 1,
        },
        b"\xee\x95\x29\xd8\x6c\x98\x3a\x02\xc4\xa7\x06\x1b\x4a\x65\x7c\xc2\x43\x5e\x2d\x33\xef\x5e\xbe\x12\xd1\x74\xc1\x68\x38\xe8\xe0\xb3\xb2\x08\x0b\x25\x18\xd1\xc6\xc8\x42\xe6\xab\x58\x9f\x7e\x68\xc6\x2a\xbd\x6a\x69\xc0\x0f\xa5\xef\x87\x27\x25\x08\xaf\x5c\xe5\x6c\xfe\x21\xa4\xbf\x8d\xdf\xb5\x2a\xc7\xca\xda\x3e\xa3\x08\x2f\x1e\xf0\xb4\x9a\x20\x3b\x56\xfe\xc5\x28\x9c\xf7\xf4\xc5\xea\xc4\x4a\x06",
    ),
    (
        b"\x70\x61\x73\x73\x77\x6f\x72\x64",
        b"\x73\x6f\x6d\x65\x73\x61\x6c\x74",
        Params {
            variant: Variant::D,
            passes: 2,
            memory: 17,
            lanes: 2,
        },
        b"\x07\x66\x12\xbf",
    ),
];

// Records of the argon2 program 20171227, for the password "password". In the table that is kept each of them comes after a
// smaller and after a larger one.
const RECORDS: [&str; 9] = [
    "$argon2id$v=19$m=8,t=1,p=1$c29tZXNhbHQ$9zpz0nGFnSHvRUZdoSvfhg",
    "$argon2d$v=19$m=64,t=2,p=2$c29tZXNhbHQ$aOJGLJi4vGu2DsaNtBiuLJ7ST8Z0ikDp",
    "$argon2i$v=19$m=64,t=2,p=2$c29tZXNhbHQ$IInz54p5lyD4CvgGVTEo8psTLK/kDQWf",
    "$argon2i$v=19$m=16,t=2,p=2$c29tZXNhbHQ$A/kx8/pb84PxVmgVtjyzaTAJS09KUHvo",
    "$argon2id$v=19$m=256,t=1,p=1$c29tZXNhbHQ$C1vif0a/2Ue3OAKFeLUL2Q",
    "$argon2id$v=19$m=64,t=2,p=2$c29tZXNhbHQ$NQrDciL0Nsy1wJcvHr079rlYvyBxhBNi",
    "$argon2i$v=19$m=512,t=2,p=2$c29tZXNhbHQ$5JZPQs5cztB2Yv9Wi4YCeg4/B/cDb0EF",
    "$argon2id$v=19$m=8,t=1,p=1$c29tZXNhbHQ$9zpz0nGFnSHvRUZdoSvfhg",
    "$argon2id$v=19$m=616,t=1,p=77$c29tZXNhbHQ$+459t80G8/I+CxU55j2i6Y41c86Dhfo8bgOsKRQ1xnU",
];

#[test]
fn vectors(rt: HostRuntime) -> Result<(), Fail> {
    for (variant, tag) in TAGS {
        let params = Params {
            variant,
            passes: 3,
            memory: 32,
            lanes: 4,
        };
        let mut out = [0u8; 32];
        argon2(
            rt.alloc(),
            params,
            &[1; 32],
            &[2; 16],
            &[3; 8],
            &[4; 12],
            &mut out,
        )?;
        assert!(rt; out.as_slice() == tag.as_slice(), "{variant:?}");
    }
    Ok(())
}

#[test]
fn tags_in_used_memory(rt: HostRuntime) -> Result<(), Fail> {
    let mut work = Vec::from_elem(rt.alloc(), 7u64, 128 * 1100 + 5)?;
    for (password, salt, params, tag) in OTHERS {
        let n = tag.len();
        if !params.are_in_bounds() || n < 4 || n > 97 || password.len() > 300 || salt.len() > 300 {
            return Err("a row that no call takes".into());
        }
        if params.work_len() > work.len() {
            return Err("a row that wants more memory than there is".into());
        }
        let mut out = [0u8; 97];
        argon2_in(
            params,
            password,
            salt,
            &[],
            &[],
            work.as_mut_slice(),
            &mut out[..n],
        );
        assert!(rt; &out[..n] == tag, "{params:?}");
        assert!(rt; &out[n..] == &[0u8; 97][n..], "{params:?}");
    }
    Ok(())
}

#[test]
fn records(rt: HostRuntime) {
    for text in RECORDS {
        for (password, same) in [("password", true), ("passwore", false)] {
            assert!(rt;
                check_stored(rt.alloc(), &Argon2Plain, password, text) == Ok(same),
                "{text}"
            );
        }
    }
}

// How often this asks for memory is told in bench/refused_memory.py: five times, as the table grows for 8, 64, 256, 512 and 616
// KiB alone. Where a request is refused, this ends by the want of memory.
#[test]
fn takes_5_for_records_in_a_kept_table(rt: HostRuntime) -> Result<(), Fail> {
    let kept = Argon2Kept::new(rt.alloc());
    for text in RECORDS {
        for (password, same) in [("password", true), ("passwore", false)] {
            let found = check_stored(rt.alloc(), &kept, password, text);
            if found == Err(StoredError::OutOfMemory) {
                return Err("want of memory".into());
            }
            assert!(rt; found == Ok(same), "{text}");
        }
    }
    Ok(())
}

// One request, as bench/refused_memory.py tells: a vector that is refused is not asked for again.
#[test]
fn takes_1_for_a_record(rt: HostRuntime) -> Result<(), Fail> {
    let found = check_stored(rt.alloc(), &Argon2Plain, "password", RECORDS[1]);
    if found == Err(StoredError::OutOfMemory) {
        return Err("want of memory".into());
    }
    assert!(rt; found == Ok(true));
    Ok(())
}

// No request, as bench/refused_memory.py tells: a password too long, a text with a fault and a record that is not taken are
// answered before memory is asked for.
#[test]
fn takes_0_before_the_text_is_read(rt: HostRuntime) {
    let letters = [b'a'; 4_097];
    let Ok(long) = str::from_utf8(&letters) else {
        panic!(rt; "letters are text")
    };
    for (password, text, fault) in [
        (long, RECORDS[1], StoredError::PasswordTooLong),
        (
            "password",
            "$argon2id$v=19$m=64,t=2,p=2$c29tZXNhbHQ",
            StoredError::NoHash,
        ),
        (
            "password",
            "$argon2id$v=19$m=7,t=2,p=1$c29tZXNhbHQ$NQrDciL0Nsy1wJcvHr079rlYvyBxhBNi",
            StoredError::Kdf,
        ),
    ] {
        assert!(rt;
            check_stored(rt.alloc(), &Argon2Plain, password, text) == Err(fault),
            "{text}"
        );
        assert!(rt;
            check_stored(rt.alloc(), &Argon2Kept::new(rt.alloc()), password, text) == Err(fault),
            "{text}"
        );
    }
}

// Passes, KiB, lanes, and whether they are taken: each bound, from both sides.
const COSTS: [(u32, u32, u32, bool); 14] = [
    (1, 8, 1, true),
    (0, 8, 1, false),
    (1, 7, 1, false),
    (1, 8, 0, false),
    (3, 65536, 4, true),
    (2, 19456, 1, true),
    (1, 31, 4, false),
    (1, 32, 4, true),
    (1, 2097152, 4, true),
    (1, 2097153, 4, false),
    (8, 2097152, 4, true),
    (9, 2097152, 4, false),
    (1, 2097152, 262144, true),
    (4294967295, 4294967295, 4294967295, false),
];

#[test]
fn bounds(rt: HostRuntime) -> Result<(), Fail> {
    for (passes, memory, lanes, taken) in COSTS {
        let params = Params {
            variant: Variant::Id,
            passes,
            memory,
            lanes,
        };
        assert!(rt; params.are_in_bounds() == taken, "{params:?}");
    }
    let params = Params {
        variant: Variant::Id,
        passes: 1,
        memory: 50,
        lanes: 3,
    };
    if !params.are_in_bounds() {
        return Err("50 KiB in 3 lanes are taken".into());
    }
    assert!(rt; params.work_len() == 128 * 48);
    Ok(())
}

// A record, the bytes of a hash, and whether it is taken.
const TAKEN: [(&str, usize, bool); 14] = [
    ("$argon2id$v=19$m=65536,t=3,p=4", 32, true),
    ("$argon2i$v=19$p=4,t=3,m=65536", 10, true),
    ("$argon2d$v=19$m=8,t=1,p=1", 64, true),
    ("$argon2d$v=19$m=8,t=1,p=1", 9, false),
    ("$argon2d$v=19$m=8,t=1,p=1", 65, false),
    ("$argon2$v=19$m=8,t=1,p=1", 32, false),
    ("$argon2id$m=65536,t=3,p=4", 32, false),
    ("$argon2id$v=16$m=65536,t=3,p=4", 32, false),
    ("$argon2id$v=19$m=65536,t=3", 32, false),
    ("$argon2id$v=19$m=65536,t=3,p=4,keyid=AA", 32, false),
    ("$argon2id$v=19$m=65536,t=3,p=4,data=AA", 32, false),
    ("$argon2id$v=19$m=65536,t=3,p=4,p=4", 32, false),
    ("$argon2id$v=19$m=065536,t=3,p=4", 32, false),
    ("$argon2id$v=19$m=7,t=3,p=1", 32, false),
];

#[test]
fn records_taken(rt: HostRuntime) -> Result<(), Fail> {
    let kept = Argon2Kept::new(rt.alloc());
    for (text, length, taken) in TAKEN {
        let record = PasswordHash::new(text)
            .ok()
            .ok_or("a row that is no record")?;
        assert!(rt;
            Argon2Plain.accepts(&record, b"saltsalt", length) == taken,
            "{text}"
        );
        assert!(rt;
            kept.accepts(&record, b"saltsalt", length) == taken,
            "{text}"
        );
    }
    Ok(())
}

// H' of no bytes, 65 bytes long, by section 3.3 of the RFC over Python's hashlib.
const LONG: [u8; 65] =
    *b"\x8e\x8b\x92\x2d\x27\x20\x35\xd8\x78\xf0\x74\x41\x8d\xd8\xfa\xda\xc4\x1f\x58\x65\xae\x0d\xc5\x06\x63\x83\x23\x7e\x85\x10\x4c\x77\x6b\xca\xd5\xae\x33\x96\x42\x9e\x50\x48\xb4\x69\x20\xbc\x0d\x7a\xd3\x9c\xcb\xf7\x7d\x99\xae\xca\x1f\xe4\x70\x24\x07\xb8\x60\x3c\xb0";

#[test]
fn laws_stand(rt: HostRuntime) {
    laws::variable_length();
    laws::tag_length();
    let mut out = [0u8; 65];
    variable_hash(b"", &mut out);
    assert!(rt; out.as_slice() == LONG.as_slice());
}
