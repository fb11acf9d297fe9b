//! Texts and digests of libxcrypt and openssl, and texts that are refused.

use base64ct::Counts;
use rand_chacha::ChaCha20Rng;
use rand_core::SeedableRng;
use sha_crypt::{
    BLOCK_SIZE_SHA256, BLOCK_SIZE_SHA512, CheckError, CryptError, DecodeError, Family, FormatFault,
    PW_SIZE_SHA256, PW_SIZE_SHA512, Sha256Params, Sha512Params, ShaRecord, decode_sha256,
    decode_sha512, encode_sha256, encode_sha512, laws, old_record, sha256_check,
    sha256_check_counted, sha256_crypt, sha256_crypt_b64, sha256_simple, sha512_check,
    sha512_check_counted, sha512_crypt, sha512_crypt_b64, sha512_simple,
};
use std::process::Abort;
use std::test::Fail;

// A password, a salt, the rounds, the digest and its hash field.
const DIGESTS_256: [(
    &str,
    &str,
    usize,
    [u8; BLOCK_SIZE_SHA256],
    [u8; PW_SIZE_SHA256],
); 3] = [
    (
        "Hello world!",
        "saltstring",
        5_000,
        *b"\xec\xe9\x80\x7f\xaa\xe7\xf7\x20\x34\x89\xa3\x24\xe6\x17\xdf\x4c\x8b\x64\x9a\x23\x47\x92\x13\x43\x58\xd8\x45\x65\x5d\x4d\x10\x7a",
        *b"5B8vYYiY.CVt1RlTTf8KbXBH3hsxY/GNooZaBBGWEc5",
    ),
    (
        "Hello world!",
        "saltstringsaltstring",
        10_000,
        *b"\x03\xe9\xcd\x30\xa5\x6f\xf0\x84\x04\x23\xbf\xe1\x0c\xb5\xfb\x97\xc3\x76\xd7\xea\x45\x4d\x69\xcc\xea\x09\x5d\xfd\x40\xb6\x14\xca",
        *b"3xv.VbSHBb41AL9AvLeujZkZRBAwqFMz2.opqey6IcA",
    ),
    (
        "",
        "x",
        1_000,
        *b"\xb4\xb8\x45\xfe\x82\x63\x75\x1a\x98\x29\xd5\x29\xd5\xf7\x9d\x17\x30\x95\xae\x1e\x30\x7f\x3d\xeb\x0f\xa5\x7e\xf5\xb7\x4d\x6f\xbf",
        *b"kIBhdUvT3pHpfTjzR8s1XJu3y/HRJeFxMSffBtF8jx9",
    ),
];

const DIGESTS_512: [(
    &str,
    &str,
    usize,
    [u8; BLOCK_SIZE_SHA512],
    [u8; PW_SIZE_SHA512],
); 3] = [
    (
        "Hello world!",
        "saltstring",
        5_000,
        *b"\x2b\x20\x9d\x0f\x3a\xbe\x5a\xbc\x1b\x24\x52\x15\x55\xba\xa2\xb9\x4d\x09\x43\xda\xe1\x3e\x85\x66\x6e\x79\x46\xe2\x4d\xe2\x32\x37\x33\xcc\x53\x88\x77\xa2\x27\x43\x7a\xc5\xf8\xed\xe5\x98\x6c\x71\xa9\x87\x07\x9a\xa1\x65\xef\x8a\x1b\xda\x94\xa5\x91\x6a\xce\xff",
        *b"svn8UoSVapNtMuq1ukKS4tPQd8iKwSMHWjl/O817G3uBnIFNjnQJuesI68u4OTLiBFdcbYEdFCoEOfaS35inz1",
    ),
    (
        "Hello world!",
        "saltstringsaltstring",
        10_000,
        *b"\x04\x1a\x88\xea\x0a\xf9\x68\xaa\x39\x84\x99\x00\x09\x4f\x5e\x07\xe4\x85\x07\x7e\xc9\x38\x90\x53\x58\xaa\xe3\x59\x0a\xf8\xe6\x3b\x58\x8c\xec\x9a\xe3\xc8\x9e\x8d\xcd\x9a\x9a\xd2\x34\xe8\x17\x88\xb7\xdd\x9d\x27\x37\xde\xaf\xad\xaa\x53\xd7\x4c\x8b\xd1\x1f\x3b",
        *b"OW1/O6BYHV6BcXZu8QVeXbDWra3Oeqh0sbHbbMCVNSnCM/UrjmM0Dp8vOuZeHBy/YTBmSK6H9qs/y3RnOaw5v.",
    ),
    (
        "",
        "x",
        1_000,
        *b"\x4e\x90\x6c\x70\x7f\xc4\x01\xfc\x5e\xa1\xec\x81\xb9\x7d\x8b\xee\xcb\x3c\x87\x76\x73\xc8\x7e\x81\x08\xdd\x30\x96\x05\x12\xd4\x0a\xa6\x19\xe6\x96\x73\x49\xc1\x5a\x76\x49\x15\xb7\x75\xc4\xb0\x36\x54\x39\xb5\x6d\x7d\xbd\x21\x3f\xa2\x68\xe6\xc0\x61\xe9\xef\x03",
        *b"JUgHESfT/mKR2X.Qz/PrkEgBINN.wbH/GsJhhFRcgrb0a4MjVYFixxXtKicccBbv9PSG/n1kVdpVqZiR7Brv1.",
    ),
];

// A password, its text, and whether the text is SHA-256-crypt's.
const MATCHES: [(&str, &str, bool); 8] = [
    (
        "Hello world!",
        "$5$saltstring$5B8vYYiY.CVt1RlTTf8KbXBH3hsxY/GNooZaBBGWEc5",
        true,
    ),
    (
        "Hello world!",
        "$5$rounds=5000$saltstring$5B8vYYiY.CVt1RlTTf8KbXBH3hsxY/GNooZaBBGWEc5",
        true,
    ),
    (
        "Hello world!",
        "$5$rounds=10000$saltstringsaltst$3xv.VbSHBb41AL9AvLeujZkZRBAwqFMz2.opqey6IcA",
        true,
    ),
    (
        "This is just a test",
        "$5$toolongsaltstrin$Un/5jzAHMgOGZ5.mWJpuVolil07guHPvOW8mGRcvxa5",
        true,
    ),
    (
        "Hello world!",
        "$6$saltstring$svn8UoSVapNtMuq1ukKS4tPQd8iKwSMHWjl/O817G3uBnIFNjnQJuesI68u4OTLiBFdcbYEdFCoEOfaS35inz1",
        false,
    ),
    (
        "This is just a test",
        "$6$rounds=5000$toolongsaltstrin$lQ8jolhgVRVhY4b5pZKaysCLi0QBxGoNeKQzQ3glMhwllF7oGDZxUhx1yxdYcz/e1JSbq3y6JMxxl8audkUEm0",
        false,
    ),
    (
        "a very much longer text to encrypt.  This one even stretches over morethan one line.",
        "$5$rounds=1400$anotherlongsalts$Rx.j8H.h8HjEDGomFU8bDkXm3XIUnzyxf12oP84Bnq1",
        true,
    ),
    (
        "a very much longer text to encrypt.  This one even stretches over morethan one line.",
        "$6$rounds=1400$anotherlongsalts$POfYwTEok97VWcjxIiSOjiykti.o/pQs.wPvMxQ6Fm7I6IoYN3CmLs66x9t0oSwbtEW7o7UmJEiDwGqd8p4ur1",
        false,
    ),
];

// A text that `sha256_check` refuses for `Hello world!`, and the answer.
const REFUSED_256: [(&str, CheckError); 20] = [
    ("x", CheckError::InvalidFormat(FormatFault::NoDollar)),
    (
        "",
        CheckError::InvalidFormat(FormatFault::WrongId(Family::Sha256)),
    ),
    (
        "$6$a$b",
        CheckError::InvalidFormat(FormatFault::WrongId(Family::Sha256)),
    ),
    ("$5", CheckError::InvalidFormat(FormatFault::NoFields)),
    (
        "$5$rounds=5000",
        CheckError::InvalidFormat(FormatFault::NoSalt),
    ),
    (
        "$5$rounds=++5000$s$x",
        CheckError::InvalidFormat(FormatFault::RoundsNotNumber),
    ),
    (
        "$5$rounds=+05000$saltstring$5B8vYYiY.CVt1RlTTf8KbXBH3hsxY/GNooZaBBGWEc5",
        CheckError::InvalidFormat(FormatFault::RoundsNotNumber),
    ),
    (
        "$5$rounds=01000$s$x",
        CheckError::InvalidFormat(FormatFault::RoundsNotNumber),
    ),
    (
        "$5$rounds=0$s$x",
        CheckError::Crypt(CryptError::RoundsError),
    ),
    (
        "$5$saltstringsaltstr$x",
        CheckError::InvalidFormat(FormatFault::SaltTooLong),
    ),
    (
        "$5$rounds=999$saltstringsaltstr$x",
        CheckError::Crypt(CryptError::RoundsError),
    ),
    (
        "$5$toolongsaltstring$Un/5jzAHMgOGZ5.mWJpuVolil07guHPvOW8mGRcvxa5",
        CheckError::InvalidFormat(FormatFault::SaltTooLong),
    ),
    (
        "$5$rounds=18446744073709551616$s",
        CheckError::InvalidFormat(FormatFault::RoundsNotNumber),
    ),
    ("$5$a", CheckError::InvalidFormat(FormatFault::NoHash)),
    ("$5$a$b$c", CheckError::InvalidFormat(FormatFault::Trailing)),
    (
        "$5$rounds=999$s$x",
        CheckError::Crypt(CryptError::RoundsError),
    ),
    (
        "$5$rounds=1000000000$s$x",
        CheckError::Crypt(CryptError::RoundsError),
    ),
    (
        "$5$saltstring$5B8vYYiY.CVt1RlTTf8KbXBH3hsxY/GNooZaBBGWEcL",
        CheckError::InvalidFormat(FormatFault::Base64),
    ),
    (
        "$5$saltstring$5B8vYYiY.CVt1RlTTf8KbXBH3hsxY/GNooZaBBGWEc",
        CheckError::InvalidFormat(FormatFault::Base64),
    ),
    (
        "$5$saltstring$5B8vYYiY.CVt1RlTTf8KbXBH3hsxY/GNooZaBBGWEc8",
        CheckError::HashMismatch,
    ),
];

// The same of `sha512_check`.
const REFUSED_512: [(&str, CheckError); 5] = [
    (
        "$5$saltstring$5B8vYYiY.CVt1RlTTf8KbXBH3hsxY/GNooZaBBGWEc5",
        CheckError::InvalidFormat(FormatFault::WrongId(Family::Sha512)),
    ),
    (
        "$6$rounds=x$s",
        CheckError::InvalidFormat(FormatFault::RoundsNotNumber),
    ),
    ("$6$s$x", CheckError::InvalidFormat(FormatFault::Base64)),
    (
        "$6$saltstring$svn8UoSVapNtMuq1ukKS4tPQd8iKwSMHWjl/O817G3uBnIFNjnQJuesI68u4OTLiBFdcbYEdFCoEOfaS35inz2",
        CheckError::InvalidFormat(FormatFault::Base64),
    ),
    (
        "$6$saltstrinG$svn8UoSVapNtMuq1ukKS4tPQd8iKwSMHWjl/O817G3uBnIFNjnQJuesI68u4OTLiBFdcbYEdFCoEOfaS35inz1",
        CheckError::HashMismatch,
    ),
];

#[test]
fn digests_and_hash_fields_256(rt: HostRuntime) {
    assert!(rt; Sha256Params::default().rounds() == 5_000);
    for (password, salt, rounds, digest, field) in DIGESTS_256 {
        assert!(rt; password.len() < 100);
        let Ok(params) = Sha256Params::new(rounds) else {
            panic!(rt; "rounds")
        };
        let got = sha256_crypt(password.as_bytes(), salt.as_bytes(), &params);
        assert!(rt; got == digest, "{password}");
        assert!(rt; encode_sha256(&digest) == field, "{password}");
        assert!(rt; decode_sha256(&field) == Ok(digest), "{password}");
        for len in 0..43 {
            assert!(rt;
                decode_sha256(&field[..len]) == Err(DecodeError),
                "{password} {len}"
            );
        }
    }
}

#[test]
fn digests_and_hash_fields_512(rt: HostRuntime) {
    assert!(rt; Sha512Params::default().rounds() == 5_000);
    for (password, salt, rounds, digest, field) in DIGESTS_512 {
        assert!(rt; password.len() < 100);
        let Ok(params) = Sha512Params::new(rounds) else {
            panic!(rt; "rounds")
        };
        let got = sha512_crypt(password.as_bytes(), salt.as_bytes(), &params);
        assert!(rt; got == digest, "{password}");
        assert!(rt; encode_sha512(&digest) == field, "{password}");
        assert!(rt; decode_sha512(&field) == Ok(digest), "{password}");
        for len in 0..86 {
            assert!(rt;
                decode_sha512(&field[..len]) == Err(DecodeError),
                "{password} {len}"
            );
        }
    }
}

#[test]
fn rounds_in_range(rt: HostRuntime) {
    // The numbers of the refusals, which callers may rest on.
    assert!(rt; CryptError::RoundsError as u8 == 1);
    assert!(rt; CryptError::OutOfMemory as u8 == 2);
    for (rounds, inside) in [
        (999, false),
        (1_000, true),
        (999_999_999, true),
        (1_000_000_000, false),
    ] {
        assert!(rt; Sha256Params::new(rounds).is_ok() == inside, "{rounds}");
        assert!(rt; Sha512Params::new(rounds).is_ok() == inside, "{rounds}");
    }
}

fn check(rt: &impl Abort, password: &str, text: &str, is_256: bool) -> Result<(), CheckError> {
    assert!(rt; password.len() < 100);
    if is_256 {
        sha256_check(password, text)
    } else {
        sha512_check(password, text)
    }
}

#[test]
fn answers(rt: HostRuntime) {
    for (password, text, is_256) in MATCHES {
        assert!(rt; check(&rt, password, text, is_256).is_ok(), "{text}");
    }
    for (text, error) in REFUSED_256 {
        assert!(rt;
            check(&rt, "Hello world!", text, true) == Err(error),
            "{text}"
        );
    }
    for (text, error) in REFUSED_512 {
        assert!(rt;
            check(&rt, "Hello world!", text, false) == Err(error),
            "{text}"
        );
    }
}

#[test]
fn counted_checks(rt: HostRuntime) {
    for (password, text, is_256) in MATCHES {
        assert!(rt; password.len() < 100);
        let mut counts = Counts::new();
        let (answer, looks, sames) = if is_256 {
            (sha256_check_counted(password, text, &mut counts), 44, 36)
        } else {
            (sha512_check_counted(password, text, &mut counts), 88, 68)
        };
        assert!(rt; answer.is_ok(), "{text}");
        assert!(rt; counts.looks() == looks, "{text}");
        assert!(rt; counts.sames() == sames, "{text}");
    }
}

#[test]
fn texts_of_the_faults(rt: HostRuntime) -> Result<(), Fail> {
    for (fault, text) in [
        (FormatFault::NoDollar, "Should start with '$"),
        (
            FormatFault::WrongId(Family::Sha256),
            "does not contain SHA256 identifier: '$5$'",
        ),
        (
            FormatFault::WrongId(Family::Sha512),
            "does not contain SHA512 identifier: '$6$'",
        ),
        (
            FormatFault::NoFields,
            "Does not contain a rounds or salt nor hash string",
        ),
        (
            FormatFault::NoSalt,
            "Does not contain a salt nor hash string",
        ),
        (
            FormatFault::RoundsNotNumber,
            "rounds= specifier need to be a number",
        ),
        (FormatFault::NoHash, "Does not contain a hash string"),
        (FormatFault::Trailing, "Trailing characters present"),
        (FormatFault::SaltTooLong, "salt too long (maximum 16 bytes)"),
        (FormatFault::Base64, "invalid B64"),
    ] {
        assert!(rt;
            format!(in rt.alloc(); "{fault}")?.as_str() == text,
            "{text}"
        );
    }
    assert!(rt; CheckError::from(DecodeError) == CheckError::InvalidFormat(FormatFault::Base64));
    Ok(())
}

// An earlier text of `$5$`, and the text of its record.
const EARLIER_TEXTS: [(&str, &str); 4] = [
    (
        "$5$rounds=+05000$saltstring$5B8vYYiY.CVt1RlTTf8KbXBH3hsxY/GNooZaBBGWEc5",
        "$5$rounds=5000$saltstring$5B8vYYiY.CVt1RlTTf8KbXBH3hsxY/GNooZaBBGWEc5",
    ),
    (
        "$5$rounds=0010000$saltstringsaltstring$3xv.VbSHBb41AL9AvLeujZkZRBAwqFMz2.opqey6IcA",
        "$5$rounds=10000$saltstringsaltst$3xv.VbSHBb41AL9AvLeujZkZRBAwqFMz2.opqey6IcA",
    ),
    (
        "$5$toolongsaltstring$Un/5jzAHMgOGZ5.mWJpuVolil07guHPvOW8mGRcvxa5",
        "$5$toolongsaltstrin$Un/5jzAHMgOGZ5.mWJpuVolil07guHPvOW8mGRcvxa5",
    ),
    (
        "$5$saltstring$5B8vYYiY.CVt1RlTTf8KbXBH3hsxY/GNooZaBBGWEc5",
        "$5$saltstring$5B8vYYiY.CVt1RlTTf8KbXBH3hsxY/GNooZaBBGWEc5",
    ),
];

#[test]
fn earlier_texts_written_anew(rt: HostRuntime) -> Result<(), Fail> {
    for (earlier, today) in EARLIER_TEXTS {
        assert!(rt; earlier.is_ascii());
        let record = old_record(earlier, Family::Sha256).ok_or("a record")?;
        assert!(rt; format!(in rt.alloc(); "{record}")?.as_str() == today);
        let Ok(again) = ShaRecord::new(today, Family::Sha256) else {
            panic!(rt; "{today}")
        };
        assert!(rt;
            again.rounds_written() == record.rounds_written(),
            "{today}"
        );
    }
    Ok(())
}

#[test]
fn texts_of_today_written_again(rt: HostRuntime) -> Result<(), Fail> {
    for (_, today) in EARLIER_TEXTS {
        let Ok(again) = ShaRecord::new(today, Family::Sha256) else {
            panic!(rt; "{today}")
        };
        let text = format!(in rt.alloc(); "{again}")?;
        assert!(rt; text.as_str() == today, "{today}");
    }
    Ok(())
}

#[test]
fn earlier_texts_in_lent_room(rt: HostRuntime) -> Result<(), Fail> {
    for (earlier, today) in EARLIER_TEXTS {
        assert!(rt; earlier.is_ascii());
        let record = old_record(earlier, Family::Sha256).ok_or("a record")?;
        let mut room = [b'x'; 100];
        let len = today.len();
        assert!(rt; 0 < len && len <= 100);
        assert!(rt; record.print_into(&mut room) == Ok(today), "{today}");
        assert!(rt; record.print_into(&mut room[..len]) == Ok(today), "{today}");
        assert!(rt; record.print_to(&mut room[..len]) == Ok(len), "{today}");
        assert!(rt; record.print_into(&mut room[..len - 1]).is_err(), "{today}");
    }
    Ok(())
}

#[test]
fn texts_that_are_no_earlier_ones(rt: HostRuntime) {
    for text in ["$5$rounds=999$s$x", "$6$s$x", "x", "$5$a$b$c"] {
        assert!(rt; text.is_ascii());
        assert!(rt; old_record(text, Family::Sha256).is_none(), "{text}");
    }
}

#[test]
fn records_of_texts(rt: HostRuntime) {
    let text =
        "$6$rounds=1400$anotherlongsalts$POfYwTEok97VWcjxIiSOjiykti.o/pQs.wPvMxQ6Fm7I6IoYN3CmLs66x9t0oSwbtEW7o7UmJEiDwGqd8p4ur1";
    let Ok(record) = ShaRecord::new(text, Family::Sha512) else {
        panic!(rt; "a text")
    };
    assert!(rt; record.family() == Family::Sha512);
    assert!(rt; record.rounds() == 1_400);
    assert!(rt; record.rounds_written());
    assert!(rt; record.salt() == "anotherlongsalts");
    assert!(rt;
        record.hash()
            == "POfYwTEok97VWcjxIiSOjiykti.o/pQs.wPvMxQ6Fm7I6IoYN3CmLs66x9t0oSwbtEW7o7UmJEiDwGqd8p4ur1"
    );
}

#[test]
fn records_refused(rt: HostRuntime) {
    for (text, error) in REFUSED_256 {
        if error != CheckError::HashMismatch {
            assert!(rt;
                ShaRecord::new(text, Family::Sha256).err() == Some(error),
                "{text}"
            );
        }
    }
}

#[test]
fn hash_fields_of_passwords(rt: HostRuntime) {
    let alloc = rt.alloc();
    let field = sha256_crypt_b64(
        alloc,
        b"Hello world!",
        b"saltstring",
        &Sha256Params::default(),
    )
    .expect(&rt, "memory");
    assert!(rt; field.as_str() == "5B8vYYiY.CVt1RlTTf8KbXBH3hsxY/GNooZaBBGWEc5");
    let field = sha512_crypt_b64(
        alloc,
        b"Hello world!",
        b"saltstring",
        &Sha512Params::default(),
    )
    .expect(&rt, "memory");
    assert!(rt;
        field.as_str()
            == "svn8UoSVapNtMuq1ukKS4tPQd8iKwSMHWjl/O817G3uBnIFNjnQJuesI68u4OTLiBFdcbYEdFCoEOfaS35inz1"
    );
}

// The texts are those of libxcrypt for the salts that a program of its own took from the stream of ChaCha20 under a key
// of zeros.
#[test]
fn texts_from_a_generator(rt: HostRuntime) {
    let alloc = rt.alloc();
    let mut rng = ChaCha20Rng::from_seed([0; 32]);
    let params = Sha256Params::new(1_000).expect(&rt, "rounds");
    let text = sha256_simple(alloc, &mut rng, "Hello world!", &params).expect(&rt, "memory");
    assert!(rt;
        text.as_str()
            == "$5$rounds=1000$fYt8i4nlTXDBx5OV$w/AyiZnXAglKF/2HClJ8xgUvyw4lEVtRWtjuh8fq132"
    );
    assert!(rt; text.len() == 75);
    assert!(rt; sha256_check("Hello world!", text.as_str()).is_ok());
    let text = sha512_simple(alloc, &mut rng, "Hello world!", &Sha512Params::default()).expect(
        &rt, "memory",
    );
    assert!(rt;
        text.as_str()
            == "$6$jST1cODvREgp8F5P$SrpIHYgI8oI0D5FxsQyOK.hTTHPBvzAGwafkyltGIYy2WZbIzRe9geqiDJLYg6JrFS.TiU06LRDL4Xk8wRwDT/"
    );
    assert!(rt; text.len() == 106);
    assert!(rt; sha512_check("Hello world!", text.as_str()).is_ok());
    laws::simple_matches();
}

#[test]
fn laws_hold(rt: HostRuntime) {
    laws::hash_field_of_some_digest();
    laws::hash_field_once();
    laws::one_text();
    laws::earlier_texts();
    laws::salt_bytes_that_count();
    assert!(rt; laws::round_trip_sha256(&[7; 32]) == Ok([7; 32]));
    assert!(rt; laws::round_trip_sha512(&[7; 64]) == Ok([7; 64]));
}
