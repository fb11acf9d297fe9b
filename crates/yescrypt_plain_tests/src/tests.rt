//! Texts and keys that libxcrypt 4.4.33 made by crypt(3).

use base64ct::Counts;
use std::test::Fail;
use yescrypt_plain::{
    CheckError, CryptKept, MakeError, ScryptParams, TextFault, YescryptParams, in_bounds,
    read_scrypt_params, read_yescrypt_params, scrypt_check, scrypt_check_kept, scrypt_costs,
    scrypt_in_bounds, scrypt_params_text, scrypt_text, table_len, words_len, yescrypt,
    yescrypt_check, yescrypt_check_kept, yescrypt_costs, yescrypt_in, yescrypt_params_text,
    yescrypt_text,
};

// ln, r, t and the key of "pleaseletmein" with the salt whose encoding is `saltsalt`.
const KEYS: [(u32, u32, u32, [u8; 32]); 6] = [
    (
        2,
        1,
        0,
        *b"\x2c\x26\x3f\x6f\x61\x4f\x42\x8b\x74\x1a\xa9\xdb\xa4\x4f\xd5\x3f\x9d\xff\x6a\x5e\x53\x83\xc1\xee\x19\xfb\x7d\x15\xcc\xef\xa6\x08",
    ),
    (
        4,
        1,
        0,
        *b"\xcf\xa7\x08\x8a\x33\x54\xd8\x05\xd3\xff\x69\xc0\x30\x2d\x77\x3f\x69\x3c\xf4\x61\xc1\x21\xbb\x20\x5d\xfb\x9a\x90\xfa\x43\x6f\xff",
    ),
    (
        5,
        2,
        1,
        *b"\x6d\x7b\xd5\x61\x77\xa9\x9d\xed\xb8\x2a\xc7\xbf\xae\x20\x1f\x3f\xb2\x56\xed\x59\x84\xfd\x10\xc5\x34\x32\x96\xa3\x04\x21\x13\x24",
    ),
    (
        6,
        3,
        2,
        *b"\xfd\x6c\x7c\x0d\x4c\xfb\x46\x2a\x66\x35\xd1\x54\x7b\xb7\x61\x9a\x32\x8e\x9b\x89\x5a\x53\x2c\xbc\x01\x79\x26\x68\xc9\xa2\xa2\xbd",
    ),
    (
        8,
        8,
        0,
        *b"\xe7\x4f\x0b\x91\x0b\xfc\xa0\x5a\xf5\x5c\x8b\xb1\xe2\xdd\xe1\xed\x4d\x19\x74\x46\x93\x19\x25\x44\xca\x65\x54\x7a\x81\x0e\x8b\x4c",
    ),
    (
        3,
        8,
        3,
        *b"\x63\xac\xe1\x51\x27\xda\xdc\x1d\x3a\x83\x32\x08\xd9\x59\x94\x0c\xca\x8f\xd7\x53\xda\x2b\x7a\xbf\x28\xad\xd4\x4a\xe5\x01\xa3\xd8",
    ),
];

fn keys_of_numbers() -> &'static [(u32, u32, u32, [u8; 32])] {
    &KEYS
}

const PASSWORD: &[u8] = b"pleaseletmein";

const SALT: &[u8] = b"\xb8\x19\xe7\xb8\x19\xe7";

#[test]
fn keys(rt: HostRuntime) -> Result<(), Fail> {
    for (ln, r, t, key) in keys_of_numbers() {
        let params = YescryptParams {
            ln: *ln,
            r: *r,
            t: *t,
        };
        assert!(rt; in_bounds(params), "{ln} {r} {t}");
        let key_found = yescrypt(rt.alloc(), PASSWORD, SALT, params)?;
        assert!(rt; key_found == *key, "{ln} {r} {t}");
    }
    Ok(())
}

// How often this asks for memory is told in bench/refused_memory.py: nine times, four for words and five for tables. The last
// key is made in what is there.
#[test]
fn takes_9_for_keys_in_kept_tables(rt: HostRuntime) -> Result<(), Fail> {
    let kept = CryptKept::new(rt.alloc());
    for (ln, r, t, key) in keys_of_numbers() {
        let params = YescryptParams {
            ln: *ln,
            r: *r,
            t: *t,
        };
        assert!(rt; in_bounds(params), "{ln} {r} {t}");
        let key_found = kept.yescrypt(rt.alloc(), PASSWORD, SALT, params)?;
        assert!(rt; key_found == *key, "{ln} {r} {t}");
    }
    Ok(())
}

// Two requests, as bench/refused_memory.py tells: what is refused is not asked for again.
#[test]
fn takes_2_for_a_key(rt: HostRuntime) -> Result<(), Fail> {
    let found = yescrypt_check(rt.alloc(), "", yescrypt_of_nothing());
    if found == Err(CheckError::OutOfMemory) {
        return Err("want of memory".into());
    }
    assert!(rt; found == Ok(()));
    Ok(())
}

// Three requests, as bench/refused_memory.py tells: the words grow for each of the three texts, and the second round asks for
// none. The second text's key has fewer words than the last one's.
#[test]
fn takes_3_for_scrypt_texts_in_kept_words(rt: HostRuntime) -> Result<(), Fail> {
    let kept = CryptKept::new(rt.alloc());
    let mut counts = Counts::new();
    for (password, stored) in [SCRYPT[1], SCRYPT[2], SCRYPT[0], SCRYPT[1], SCRYPT[0]] {
        assert!(rt; counts.looks() <= 1_000 && counts.sames() <= 1_000);
        let found = scrypt_check_kept(rt.alloc(), &kept, password, stored, &mut counts);
        if found == Err(CheckError::OutOfMemory) {
            return Err("want of memory".into());
        }
        assert!(rt; found == Ok(()), "{stored}");
    }
    Ok(())
}

// No request, as bench/refused_memory.py tells: a text with a fault and a password too long are answered before memory is
// asked for.
#[test]
fn takes_0_before_the_text_is_read(rt: HostRuntime) {
    let letters = [b'a'; 4_097];
    let Ok(long) = str::from_utf8(&letters) else {
        panic!(rt; "letters are text")
    };
    assert!(rt;
        yescrypt_check(rt.alloc(), long, yescrypt_of_nothing()) == Err(CheckError::PasswordTooLong)
    );
    assert!(rt; scrypt_check(rt.alloc(), long, SCRYPT[1].1) == Err(CheckError::PasswordTooLong));
    assert!(rt;
        yescrypt_check(rt.alloc(), long, "$y$j/.$./")
            == Err(CheckError::InvalidFormat(TextFault::NoHash))
    );
    assert!(rt;
        scrypt_check(rt.alloc(), long, "$7$2/..../....")
            == Err(CheckError::InvalidFormat(TextFault::NoHash))
    );
}

// The memory may hold anything, and may be longer than needed.
#[test]
fn lent(rt: HostRuntime) -> Result<(), Fail> {
    let params = YescryptParams { ln: 2, r: 1, t: 0 };
    assert!(rt; in_bounds(params));
    let mut words = Vec::from_elem(rt.alloc(), 77u32, words_len(params) + 5)?;
    let mut table = Vec::from_elem(rt.alloc(), 99u64, table_len(params) + 3)?;
    let salt = b"\xb8\x19\xe7\xb8\x19\xe7";
    let key = yescrypt_in(
        b"pleaseletmein",
        salt,
        params,
        words.as_mut_slice(),
        table.as_mut_slice(),
    );
    assert!(rt; key == KEYS[0].3);
    Ok(())
}

// Passwords and texts.
const YESCRYPT: [(&str, &str); 10] = [
    (
        "",
        "$y$j2.//$./$id/pr9M1.HIRSLIKXB/WJRDDnOU3bUkk089O.c4L1C/",
    ),
    ("", "$y$j/.$./$/SUfmv2nv4VsJGMYcJfP87xJHgJvLxZzgvHXV5zBRI7"),
    (
        "pw",
        "$y$j75$0123456789ab$G3dqYfxcYgkNCEZgHYxsWfpio/mzCqacM3.5BzxvGGA",
    ),
    (
        "rasmuslerdorf",
        "$y$j///.$.2U.1EE/4Q.07ck0AoU1D.F2GA/3JMl3MYV4PkF5Sw/6V6m6YIW7bUG8eg09hsm9k2XAnEHBqQ1CtcnCwoXDz.$oGRI6DYv53wy84n3DykpLSW4UTnTESxHVKiqSp6nCV7",
    ),
    (
        "p",
        "$y$j0/$saltsalt$AXTyrkjgUa8QGQ1tipzinXsAwS2ZdoPLNFwtyBsPH1D",
    ),
    (
        "p",
        "$y$j/k.$saltsalt$fg17SeZsYpAtAMMjRSqv7ctkwHgsQDXs/aj/PzDSyS8",
    ),
    (
        "t",
        "$y$j/./.$saltsalt$WMPW/EzJtNU6YdNN8e2eqh.YRWKjL6VfeaApiTVV9OB",
    ),
    (
        "t",
        "$y$j/./k.$saltsalt$y8pNym0dZ6eiJ5dqfq1WcjkVx2zT3WUWnqIcnw78ZB1",
    ),
    (
        "pw",
        "$y$j4./.$saltsalt$lsRC.TawGAm1kH07kPrQA5XVrnmboN4i6rzbAEL6R94",
    ),
    (
        "café",
        "$y$j51$LdJMENpBABJJ3hIHjB1Bi.$IwWJYZzIGQLpxBgnNVivpsUXooPHakWwq091JaLkAS3",
    ),
];

fn yescrypt_rows() -> &'static [(&'static str, &'static str)] {
    &YESCRYPT
}

// The text of no password.
fn yescrypt_of_nothing() -> &'static str {
    YESCRYPT[1].1
}

#[test]
fn yescrypt_texts(rt: HostRuntime) -> Result<(), Fail> {
    let kept = CryptKept::new(rt.alloc());
    for (password, stored) in yescrypt_rows() {
        let found = yescrypt_check(rt.alloc(), password, stored);
        assert!(rt; found == Ok(()), "{stored}");
        let found = yescrypt_check(rt.alloc(), "another", stored);
        assert!(rt; found == Err(CheckError::HashMismatch), "{stored}");
        let mut counts = Counts::new();
        let found = yescrypt_check_kept(rt.alloc(), &kept, password, stored, &mut counts);
        assert!(rt; found == Ok(()), "{stored}");
        assert!(rt; counts.looks() == 44 && counts.sames() == 36, "{stored}");
    }
    Ok(())
}

const SCRYPT: [(&str, &str); 3] = [
    (
        "pleaseletmein",
        "$7$41....0....SodiumChloride$i79Z2Io0yuEUnAEV0Z2t4r.guoEXBFEWthY/nUn9u//",
    ),
    (
        "x",
        "$7$2/..../....$CI9x0yo/VkSMh/DdbR/8V7dXPUFgc2uGPDbBqD6tlS9",
    ),
    (
        "",
        "$7$33..../....aaaa$pyNghgfidz9iuS6h/W74zw.URbow0nxWRfY49Soy34/",
    ),
];

fn scrypt_rows() -> &'static [(&'static str, &'static str)] {
    &SCRYPT
}

#[test]
fn scrypt_texts(rt: HostRuntime) -> Result<(), Fail> {
    let kept = CryptKept::new(rt.alloc());
    for (password, stored) in scrypt_rows() {
        let found = scrypt_check(rt.alloc(), password, stored);
        assert!(rt; found == Ok(()), "{stored}");
        let found = scrypt_check(rt.alloc(), "another", stored);
        assert!(rt; found == Err(CheckError::HashMismatch), "{stored}");
        let mut counts = Counts::new();
        let found = scrypt_check_kept(rt.alloc(), &kept, password, stored, &mut counts);
        assert!(rt; found == Ok(()), "{stored}");
        assert!(rt; counts.looks() == 44 && counts.sames() == 36, "{stored}");
    }
    Ok(())
}

// Texts `$y$` and their first fault. The second spelling of a field, and p = 7 and the flavor `/`, are libxcrypt's too.
const YESCRYPT_FAULTS: [(&str, TextFault); 27] = [
    ("", TextFault::WrongId),
    (
        "x$y$j/.$./$/SUfmv2nv4VsJGMYcJfP87xJHgJvLxZzgvHXV5zBRI7",
        TextFault::NoDollar,
    ),
    (
        "$7$j/.$./$/SUfmv2nv4VsJGMYcJfP87xJHgJvLxZzgvHXV5zBRI7",
        TextFault::WrongId,
    ),
    ("$y", TextFault::NoParams),
    ("$y$j/.", TextFault::NoSalt),
    ("$y$j/.$./", TextFault::NoHash),
    (
        "$y$j/.$./$/SUfmv2nv4VsJGMYcJfP87xJHgJvLxZzgvHXV5zBRI7$",
        TextFault::Trailing,
    ),
    (
        "$y$$./$/SUfmv2nv4VsJGMYcJfP87xJHgJvLxZzgvHXV5zBRI7",
        TextFault::Params,
    ),
    (
        "$y$j/$./$/SUfmv2nv4VsJGMYcJfP87xJHgJvLxZzgvHXV5zBRI7",
        TextFault::Params,
    ),
    (
        "$y$j9T+$./$/SUfmv2nv4VsJGMYcJfP87xJHgJvLxZzgvHXV5zBRI7",
        TextFault::Params,
    ),
    (
        "$y$j/.D$saltsalt$94/x2h2PntDYv.u8xtAJhUXuGwDp/a1aeeLGP0Bf4I1",
        TextFault::Params,
    ),
    (
        "$y$j/.F.$saltsalt$yk3bQkrkz9OI7FZG.zNpNEmpwP.omnD7AT3suzKfBMD",
        TextFault::Params,
    ),
    (
        "$y$/D5$LdJMENpBABJJ3hIHjB1Bi.$ZqphnSIcGTvKcYR6ljDbthLQMr03gc4j.t46GQJBUCA",
        TextFault::Flavor,
    ),
    (
        "$y$j51.3$saltsalt$YMfMMkDxVRK0qKUiSTSqfQNg.2GrkCumL/p/GaHAbW5",
        TextFault::Parallelism,
    ),
    (
        "$y$j511.$saltsalt$YMfMMkDxVRK0qKUiSTSqfQNg.2GrkCumL/p/GaHAbW5",
        TextFault::Upgrades,
    ),
    (
        "$y$j515.$saltsalt$YMfMMkDxVRK0qKUiSTSqfQNg.2GrkCumL/p/GaHAbW5",
        TextFault::Rom,
    ),
    (
        "$y$jGT$saltsalt$YMfMMkDxVRK0qKUiSTSqfQNg.2GrkCumL/p/GaHAbW5",
        TextFault::Memory,
    ),
    (
        "$y$jM.$saltsalt$YMfMMkDxVRK0qKUiSTSqfQNg.2GrkCumL/p/GaHAbW5",
        TextFault::Memory,
    ),
    (
        "$y$j/xvrD$saltsalt$YMfMMkDxVRK0qKUiSTSqfQNg.2GrkCumL/p/GaHAbW5",
        TextFault::Memory,
    ),
    (
        "$y$j..$saltsalt$YMfMMkDxVRK0qKUiSTSqfQNg.2GrkCumL/p/GaHAbW5",
        TextFault::Cost,
    ),
    (
        "$y$j/./s5E$saltsalt$YMfMMkDxVRK0qKUiSTSqfQNg.2GrkCumL/p/GaHAbW5",
        TextFault::Cost,
    ),
    (
        "$y$j/.$$YB2gA98wvrAqdhSZBccrn2nDPGoMyR/9zxkonCTZxK6",
        TextFault::Salt,
    ),
    (
        "$y$j/.$s$/SUfmv2nv4VsJGMYcJfP87xJHgJvLxZzgvHXV5zBRI7",
        TextFault::Salt,
    ),
    (
        "$y$j/.$zz$/SUfmv2nv4VsJGMYcJfP87xJHgJvLxZzgvHXV5zBRI7",
        TextFault::Salt,
    ),
    (
        "$y$j/.$aaaaaaaaaaaaaaaaaaaaaaaaaaaaaaaaaaaaaaaaaaaaaaaaaaaaaaaaaaaaaaaaaaaaaaaaaaaaaaaaaaaaaa/$/SUfmv2nv4VsJGMYcJfP87xJHgJvLxZzgvHXV5zBRI7",
        TextFault::Salt,
    ),
    (
        "$y$j/.$./$/SUfmv2nv4VsJGMYcJfP87xJHgJvLxZzgvHXV5zBRI",
        TextFault::Hash,
    ),
    (
        "$y$j/.$./$/SUfmv2nv4VsJGMYcJfP87xJHgJvLxZzgvHXV5zBRIV",
        TextFault::Hash,
    ),
];

fn yescrypt_fault_rows() -> &'static [(&'static str, TextFault)] {
    &YESCRYPT_FAULTS
}

#[test]
fn yescrypt_faults(rt: HostRuntime) -> Result<(), Fail> {
    for (stored, fault) in yescrypt_fault_rows() {
        let found = yescrypt_check(rt.alloc(), "pw", stored);
        assert!(rt; found == Err(CheckError::InvalidFormat(*fault)), "{stored}");
    }
    Ok(())
}

const SCRYPT_FAULTS: [(&str, TextFault); 14] = [
    (
        "7$2/..../....$CI9x0yo/VkSMh/DdbR/8V7dXPUFgc2uGPDbBqD6tlS9",
        TextFault::NoDollar,
    ),
    (
        "$y$2/..../....$CI9x0yo/VkSMh/DdbR/8V7dXPUFgc2uGPDbBqD6tlS9",
        TextFault::WrongId,
    ),
    ("$7", TextFault::NoParams),
    ("$7$2/..../....", TextFault::NoHash),
    (
        "$7$2/..../....$CI9x0yo/VkSMh/DdbR/8V7dXPUFgc2uGPDbBqD6tlS9$",
        TextFault::Trailing,
    ),
    (
        "$7$33..../....sa$lt$UCIoaS5624rH3m8UbuRg/BYU0Aww9i9m0NajeA9duq6",
        TextFault::Trailing,
    ),
    (
        "$7$2/..../...$CI9x0yo/VkSMh/DdbR/8V7dXPUFgc2uGPDbBqD6tlS9",
        TextFault::Params,
    ),
    (
        "$7$2/..../..+.$CI9x0yo/VkSMh/DdbR/8V7dXPUFgc2uGPDbBqD6tlS9",
        TextFault::Params,
    ),
    (
        "$7$z/..../....$CI9x0yo/VkSMh/DdbR/8V7dXPUFgc2uGPDbBqD6tlS9",
        TextFault::Memory,
    ),
    (
        "$7$IU..../....$CI9x0yo/VkSMh/DdbR/8V7dXPUFgc2uGPDbBqD6tlS9",
        TextFault::Memory,
    ),
    (
        "$7$//..../....$CI9x0yo/VkSMh/DdbR/8V7dXPUFgc2uGPDbBqD6tlS9",
        TextFault::Cost,
    ),
    (
        "$7$2/.........$CI9x0yo/VkSMh/DdbR/8V7dXPUFgc2uGPDbBqD6tlS9",
        TextFault::Cost,
    ),
    (
        "$7$2/..../....a+b$CI9x0yo/VkSMh/DdbR/8V7dXPUFgc2uGPDbBqD6tlS9",
        TextFault::Salt,
    ),
    (
        "$7$2/..../....$CI9x0yo/VkSMh/DdbR/8V7dXPUFgc2uGPDbBqD6tlSz",
        TextFault::Hash,
    ),
];

fn scrypt_fault_rows() -> &'static [(&'static str, TextFault)] {
    &SCRYPT_FAULTS
}

#[test]
fn scrypt_faults(rt: HostRuntime) -> Result<(), Fail> {
    for (stored, fault) in scrypt_fault_rows() {
        let found = scrypt_check(rt.alloc(), "pw", stored);
        assert!(rt; found == Err(CheckError::InvalidFormat(*fault)), "{stored}");
    }
    Ok(())
}

// A password of 4,096 bytes is taken, and none of 4,097.
#[test]
fn long_passwords(rt: HostRuntime) -> Result<(), Fail> {
    let bytes = Vec::from_elem(rt.alloc(), b'a', 4097)?;
    let Ok(long) = str::from_utf8(bytes.as_slice()) else {
        return Ok(assert!(rt; false));
    };
    for (_, stored) in yescrypt_rows() {
        let found = yescrypt_check(rt.alloc(), long, stored);
        assert!(rt; found == Err(CheckError::PasswordTooLong), "{stored}");
    }
    let found = yescrypt_check(rt.alloc(), &long[1..], yescrypt_of_nothing());
    assert!(rt; found == Err(CheckError::HashMismatch));
    let found = scrypt_check(rt.alloc(), long, SCRYPT[1].1);
    assert!(rt; found == Err(CheckError::PasswordTooLong));
    Ok(())
}

// Costs and their one field.
const PARAMS: [(YescryptParams, &str); 6] = [
    (YescryptParams { ln: 2, r: 1, t: 0 }, "j/."),
    (
        YescryptParams {
            ln: 12,
            r: 32,
            t: 0,
        },
        "j9T",
    ),
    (
        YescryptParams {
            ln: 18,
            r: 32,
            t: 0,
        },
        "jFT",
    ),
    (YescryptParams { ln: 2, r: 1, t: 1 }, "j/./."),
    (YescryptParams { ln: 2, r: 1, t: 49 }, "j/./k."),
    (YescryptParams { ln: 2, r: 65, t: 0 }, "j/kE"),
];

#[test]
fn fields(rt: HostRuntime) -> Result<(), Fail> {
    for (params, field) in PARAMS {
        assert!(rt;
            read_yescrypt_params(field.as_bytes()) == Ok(params),
            "{field}"
        );
        assert!(rt; in_bounds(params));
        assert!(rt;
            yescrypt_params_text(params).as_slice() == field.as_bytes(),
            "{field}"
        );
    }
    Ok(())
}

#[test]
fn scrypt_fields(rt: HostRuntime) {
    let params = ScryptParams {
        ln: 14,
        r: 32,
        p: 1,
    };
    assert!(rt; read_scrypt_params(b"CU..../....salt") == Ok(params));
    assert!(rt; scrypt_in_bounds(params));
    assert!(rt; scrypt_params_text(params).as_slice() == b"CU..../....".as_slice());
    assert!(rt; !in_bounds(YescryptParams { ln: 1, r: 8, t: 0 }));
}

#[test]
fn made(rt: HostRuntime) -> Result<(), Fail> {
    let salt = b"\xb8\x19\xe7\xb8\x19\xe7";
    let params = YescryptParams { ln: 2, r: 1, t: 1 };
    let text = yescrypt_text(rt.alloc(), b"t", salt, params);
    assert!(rt; text.map(|text| text.as_slice() == YESCRYPT[6].1.as_bytes()) == Ok(true));
    let params = ScryptParams { ln: 6, r: 3, p: 2 };
    let text = scrypt_text(rt.alloc(), b"pleaseletmein", b"SodiumChloride", params);
    assert!(rt; text.map(|text| text.as_slice() == SCRYPT[0].1.as_bytes()) == Ok(true));
    Ok(())
}

#[test]
fn not_made(rt: HostRuntime) -> Result<(), Fail> {
    let long = [b'a'; 4097];
    let params = YescryptParams { ln: 2, r: 1, t: 1 };
    let none = YescryptParams { ln: 1, r: 1, t: 1 };
    for (password, salt, params, error) in [
        (&long[..], &long[..], none, MakeError::Cost),
        (&long[..], &long[..65], params, MakeError::Salt),
        (&long[..1], &long[..0], params, MakeError::Salt),
        (&long[..], &long[..64], params, MakeError::PasswordTooLong),
    ] {
        let text = yescrypt_text(rt.alloc(), password, salt, params);
        assert!(rt;
            text.map(|_| ()) == Err(error),
            "{} {}",
            password.len(),
            salt.len()
        );
    }
    Ok(())
}

#[test]
fn scrypt_texts_not_made(rt: HostRuntime) -> Result<(), Fail> {
    let long = [b'a'; 4097];
    let params = ScryptParams { ln: 6, r: 3, p: 2 };
    let none = ScryptParams { ln: 6, r: 3, p: 0 };
    for (password, salt, params, error) in [
        (&long[..], &long[..], none, MakeError::Cost),
        (&long[..], &long[..87], params, MakeError::Salt),
        (&long[..], &b"a+"[..], params, MakeError::Salt),
        (&long[..1], &long[..0], params, MakeError::Salt),
        (&long[..], &long[..86], params, MakeError::PasswordTooLong),
    ] {
        let text = scrypt_text(rt.alloc(), password, salt, params);
        assert!(rt;
            text.map(|_| ()) == Err(error),
            "{} {}",
            password.len(),
            salt.len()
        );
    }
    Ok(())
}

#[test]
fn costs(rt: HostRuntime) {
    assert!(rt;
        yescrypt_costs("$y$j2.//$./$id/pr9M1.HIRSLIKXB/WJRDDnOU3bUkk089O.c4L1C/")
            == Ok(YescryptParams { ln: 5, r: 1, t: 2 })
    );
    for (stored, fault) in yescrypt_fault_rows() {
        assert!(rt; yescrypt_costs(stored) == Err(*fault), "{stored}");
    }
}

#[test]
fn costs_of_scrypt(rt: HostRuntime) {
    assert!(rt;
        scrypt_costs("$7$41....0....SodiumChloride$i79Z2Io0yuEUnAEV0Z2t4r.guoEXBFEWthY/nUn9u//")
            == Ok(ScryptParams { ln: 6, r: 3, p: 2 })
    );
    for (stored, fault) in scrypt_fault_rows() {
        assert!(rt; scrypt_costs(stored) == Err(*fault), "{stored}");
    }
}
