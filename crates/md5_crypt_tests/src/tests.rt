//! Texts of openssl and of libxcrypt, and each fault.

use line_io::{MemorySink, MemorySource};
use md5_crypt::{
    LegacyError, MAP_MD5, Magic, Md5Fault, check_legacy, decode_md5, encode_md5, laws, md5_crypt,
    run_legacy, run_legacy_limited,
};
use scrypt_plain::ScryptPlain;
use std::test::Fail;
use stored_check::{McfFault, PhcFault, ShaFault, StoredError};

// The hash field of `a` and `saltsalt`, as `openssl passwd -1` and libxcrypt's crypt give it.
const FIELD: &str = "MzDjbImyzEz2m0NTiPzNW/";

#[test]
fn the_scheme_under_its_old_paths(rt: HostRuntime) {
    let digest = md5_crypt(b"a", b"saltsalt", Magic::Md5);
    assert!(rt; encode_md5(&digest).as_slice() == FIELD.as_bytes());
    assert!(rt; decode_md5(FIELD.as_bytes()) == Some(digest));
    assert!(rt; MAP_MD5[0] == 12);
}

const LONG: &str = "$1$saltsalt$MzDjbImyzEz2m0NTiPzNW/";

// A password, a stored text and the answer.
const ANSWERS: [(&str, &str, Result<bool, LegacyError>); 18] = [
    (
        "myPassword",
        "$apr1$r31.....$HqJZimcKQFAMYayBlzkrA/",
        Ok(true),
    ),
    (
        "myPassword",
        "$1$r31.....$HqJZimcKQFAMYayBlzkrA/",
        Ok(false),
    ),
    ("a", LONG, Ok(true)),
    ("b", LONG, Ok(false)),
    ("", "$1$salt$UsdFqFVB.FsuinRDK5eE..", Ok(true)),
    ("x", "$1", Err(LegacyError::Md5(Md5Fault::NoSalt))),
    ("x", "$1$a", Err(LegacyError::Md5(Md5Fault::NoHash))),
    ("x", "$1$a$b$c", Err(LegacyError::Md5(Md5Fault::Trailing))),
    (
        "x",
        "$1$saltsalts$x",
        Err(LegacyError::Md5(Md5Fault::SaltTooLong)),
    ),
    ("x", "$1$a$x", Err(LegacyError::Md5(Md5Fault::Base64))),
    ("x", "$apr1$a$x", Err(LegacyError::Md5(Md5Fault::Base64))),
    (
        "x",
        "$1$",
        Err(LegacyError::Stored(StoredError::Mcf(McfFault::DelimiterInvalid))),
    ),
    (
        "x",
        "$1$a$",
        Err(LegacyError::Stored(StoredError::Mcf(McfFault::DelimiterInvalid))),
    ),
    (
        "x",
        "$1$$b",
        Err(LegacyError::Stored(StoredError::Mcf(McfFault::FieldInvalid))),
    ),
    (
        "Hello world!",
        "$5$saltstring$5B8vYYiY.CVt1RlTTf8KbXBH3hsxY/GNooZaBBGWEc5",
        Ok(true),
    ),
    (
        "x",
        "$6$rounds=1$a$b",
        Err(LegacyError::Stored(StoredError::Sha(ShaFault::RoundsError))),
    ),
    (
        "x",
        "$2a$12$x",
        Err(LegacyError::Stored(StoredError::Phc(PhcFault::SaltTooShort))),
    ),
    (
        "",
        "$scrypt$ln=4,r=1,p=1$abcdabcdabc$AAAAAAAAAAAAAA",
        Ok(false),
    ),
];

#[test]
fn answers(rt: HostRuntime) {
    for (password, stored, answer) in ANSWERS {
        assert!(rt;
            check_legacy(rt.alloc(), &ScryptPlain, password, stored) == answer,
            "{stored}"
        );
    }
}

#[test]
fn longest_password(rt: HostRuntime) -> Result<(), Fail> {
    let mut password = String::new(rt.alloc());
    for _i in 0..4096 {
        password.push('p')?;
    }
    assert!(rt; check_legacy(rt.alloc(), &ScryptPlain, password.as_str(), LONG) == Ok(false));
    password.push('p')?;
    for stored in [LONG, "$1", "x"] {
        assert!(rt;
            check_legacy(rt.alloc(), &ScryptPlain, password.as_str(), stored)
                == Err(LegacyError::Stored(StoredError::PasswordTooLong)),
            "{stored}"
        );
    }
    Ok(())
}

#[test]
fn laws_stand(rt: HostRuntime) {
    laws::field_of_some_digest();
    laws::field_once();
    laws::no_want_of_memory();
    assert!(rt; laws::round_trip_md5(&[7; 16]) == Some([7; 16]));
}

// Lines, and their words.
const LINES: [(&[u8], &[u8]); 10] = [
    (
        b"myPassword\t$apr1$r31.....$HqJZimcKQFAMYayBlzkrA/",
        b"match\n",
    ),
    (
        b"myPassword\t$1$r31.....$HqJZimcKQFAMYayBlzkrA/",
        b"mismatch\n",
    ),
    (
        b"password\t$scrypt$ln=16,r=8,p=1$aM15713r3Xsvxbi31lqr1Q$nFNh2CVHVjNldFVKDHDlm4CbdRSCdEBsjjJxD+iCs5E",
        b"match\n",
    ),
    (
        b"Hello world!\t$5$saltstring$5B8vYYiY.CVt1RlTTf8KbXBH3hsxY/GNooZaBBGWEc5",
        b"match\n",
    ),
    (b"x\t$1", b"invalid\n"),
    (b"x\t$1$a", b"invalid\n"),
    (b"x\t$1$a$b$c", b"invalid\n"),
    (b"x\t$1$saltsalts$x", b"invalid\n"),
    (b"x\t$1$a$x", b"invalid\n"),
    (
        b"x\t$pbkdf2-sha256$i=1,l=10$abcdabcdabc$AAAAAAAAAAAAAA",
        b"invalid\n",
    ),
];

#[test]
fn lines_and_their_words(rt: HostRuntime) {
    for (line, word) in LINES {
        let mut room = [0; 16];
        let mut source = MemorySource::new(line, 9, &[]);
        let mut sink = MemorySink::new(&mut room, 4, &[]);
        let got = run_legacy(rt.alloc(), &mut source, &mut sink);
        assert!(rt;
            got == (if word == b"match\n".as_slice() { 0 } else { 1 }),
            "{}",
            str::from_utf8(line).unwrap_or("bytes")
        );
        assert!(rt;
            sink.bytes() == word,
            "{}",
            str::from_utf8(line).unwrap_or("bytes")
        );
    }
}

const STOPPED: &[u8] = b"a\t$5\n\nb\n";

#[test]
fn stopped_by_a_read(rt: HostRuntime) {
    let mut room = [0; 64];
    let mut source = MemorySource::new(STOPPED, 5, &[1]);
    let mut sink = MemorySink::new(&mut room, 64, &[]);
    assert!(rt; run_legacy(rt.alloc(), &mut source, &mut sink) == 3);
    assert!(rt; sink.bytes() == b"invalid\n".as_slice());
}

#[test]
fn stopped_by_a_write(rt: HostRuntime) {
    let mut room = [0; 64];
    let mut source = MemorySource::new(STOPPED, 64, &[]);
    let mut sink = MemorySink::new(&mut room, 9, &[1]);
    assert!(rt; run_legacy(rt.alloc(), &mut source, &mut sink) == 4);
    assert!(rt; sink.bytes() == b"invalid\ni".as_slice());
}

#[test]
fn stopped_by_the_bound(rt: HostRuntime) {
    let mut room = [0; 64];
    let mut source = MemorySource::new(STOPPED, 64, &[]);
    let mut sink = MemorySink::new(&mut room, 64, &[]);
    assert!(rt; run_legacy_limited(rt.alloc(), &mut source, &mut sink, 6) == 6);
    assert!(rt; sink.bytes() == b"invalid\ninvalid\n".as_slice());
}
