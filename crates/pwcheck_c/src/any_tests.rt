//! The verdict for every scheme, on texts of outside programs: openssl, libxcrypt's crypt, Python's hashlib and the program
//! argon2.

use crate::any::{Limits, pwcheck_check_any};
use crate::words::pwcheck_word;

// No text is above these.
pub(crate) const NONE: Limits = Limits {
    sha_rounds: u32::MAX,
    bcrypt_cost: u32::MAX,
    yescrypt_ln: u32::MAX,
    yescrypt_r: u32::MAX,
    yescrypt_t: u32::MAX,
    pbkdf2_rounds: u32::MAX,
    scrypt_ln: u32::MAX,
    scrypt_r: u32::MAX,
    scrypt_p: u32::MAX,
    argon2_memory: u32::MAX,
    argon2_passes: u32::MAX,
    argon2_lanes: u32::MAX,
};

// The least bounds under which each text below gets its verdict.
const LEAST: Limits = Limits {
    sha_rounds: 5_000,
    bcrypt_cost: 5,
    yescrypt_ln: 10,
    yescrypt_r: 8,
    yescrypt_t: 2,
    pbkdf2_rounds: 1_000,
    scrypt_ln: 6,
    scrypt_r: 8,
    scrypt_p: 2,
    argon2_memory: 128,
    argon2_passes: 2,
    argon2_lanes: 2,
};

// Texts of the password `secret`.
const TEXTS: [&str; 11] = [
    "$1$abcdefgh$cHJi5PXp/ki/ktXzqlk6I1",
    "$apr1$abcdefgh$h9FWgUz3n9YxylKLlR5SQ/",
    "$5$abcdefgh$gruCpC7VkOTspMQTTSAR8mtlO9Upms.fwqE5y16JVM.",
    "$6$abcdefgh$ltjgWl6579NluT/Vi1nwEvcil.G5Nbc4NiXZaNGStk8PSwGfQv72N2CKPPrVACtLtip/cZ/1GM/O6IND4WQhG.",
    "$2b$04$abcdefghijklmnopqrstuu2r9OfJnfCsdneAXAGHnS4UpFFP8WIrW",
    "$2y$05$abcdefghijklmnopqrstuuOQiyCxlgf/oeuTqixKmWdcYUh4Hjl0a",
    "$scrypt$ln=4,r=8,p=1$c2FsdHNhbHRzYWx0$09/untC+3Bg44eiJQ8bqhTXgE2ali+ykLaojkJZlF9U",
    "$pbkdf2-sha256$i=1000,l=32$c2FsdHNhbHRzYWx0$sVaWem31qy3rw+Ldi3plA/XzhMSNi9/XHnnD1Ytj05o",
    "$argon2id$v=19$m=64,t=1,p=1$c2FsdHNhbHRzYWx0$Sm3MnLdCFk0Af+croKgebRoqqmhbKd88iiW3yUOXn78",
    "$argon2i$v=19$m=64,t=2,p=2$c2FsdHNhbHRzYWx0$vtdpD5eGGsEQdYh52JSgUbWdj2vdH1FR/Ncvk1mmMU8",
    "$y$j75$0123456789ab$kb1fsIrDP1wOa4Q3gNpxZkfwQ3ce8kmPbnemuN65IT2",
];

#[test]
fn verdicts_of_every_scheme(rt: HostRuntime) {
    for text in TEXTS {
        let stored = text.as_bytes();
        assert_eq!(rt;
            pwcheck_check_any(rt.alloc(), b"secret", stored, &NONE),
            0,
            "{text}"
        );
        assert_eq!(rt;
            pwcheck_check_any(rt.alloc(), b"secret", stored, &LEAST),
            0,
            "{text}"
        );
        assert_eq!(rt;
            pwcheck_check_any(rt.alloc(), b"Secret", stored, &NONE),
            1,
            "{text}"
        );
    }
}

// Whether an answer's number has a word.
fn has_word(number: i32, word: &str) -> bool {
    let mut out = [b'x'; 18];
    let n = pwcheck_word(number, &mut out);
    n < 18 && &out[..n] == word.as_bytes() && out[n] == 0
}

// A text, the number of its cause, and the word.
const CAUSES: &[(&[u8], i32, &str)] = &[
    (b"\xff", 2, "not-utf8"),
    (b"*", 31, "no-scheme"),
    (b"", 31, "no-scheme"),
    (b"$1$abcdefgh", 32, "md5-format"),
    (
        b"$2x$04$abcdefghijklmnopqrstuu2r9OfJnfCsdneAXAGHnS4UpFFP8WIrW",
        33,
        "bcrypt-obsolete",
    ),
    (
        b"$2b$03$abcdefghijklmnopqrstuu2r9OfJnfCsdneAXAGHnS4UpFFP8WIrW",
        34,
        "bcrypt-cost",
    ),
    (
        b"$2b$04$abcdefghijklmnopqrstuv2r9OfJnfCsdneAXAGHnS4UpFFP8WIrW",
        35,
        "bcrypt-b64",
    ),
    (
        b"$2b$04$abcdefghijklmnopqrstuu2r9OfJnfCsdneAXAGHnS4UpFFP8WIr",
        36,
        "bcrypt-format",
    ),
    (
        b"$y$/75$0123456789ab$kb1fsIrDP1wOa4Q3gNpxZkfwQ3ce8kmPbnemuN65IT2",
        37,
        "yescrypt-flavor",
    ),
    (
        b"$y$jT5$0123456789ab$kb1fsIrDP1wOa4Q3gNpxZkfwQ3ce8kmPbnemuN65IT2",
        38,
        "yescrypt-cost",
    ),
    (b"$y$j75$0123456789ab", 39, "yescrypt-format"),
    (
        b"$7$T/..../....SodiumChloride$nlEbTww0ryKdVNlzWsYxiiWbBXRoFx2X8iNJtJTvzX.",
        40,
        "scrypt-cost",
    ),
    (b"$7$4/..../....SodiumChloride", 41, "scrypt-format"),
    (b"$5$rounds=1$abcdefgh$x", 15, "sha-rounds"),
    (b"$scrypt$ln=4,r=8,p=1$c2FsdHNhbHRzYWx0", 28, "no-hash"),
    (b"!$6$abcdefgh$x", 5, "mcf-delimiter"),
    (b"$sha1$0$salt$x", 43, "sha1-cost"),
    (
        b"$sha1$19$abcdefgh$nl4bYNUkvp1kTppWm6kb5cqPQqN-",
        44,
        "sha1-b64",
    ),
    (b"$sha1$19$abcdefgh", 45, "sha1-format"),
    (b"$scram-sha-256$0$c2FsdA==$x$x", 46, "scram-cost"),
    (b"$scram-sha-256$19$c2FsdA$x$x", 47, "scram-b64"),
    (b"$scram-sha-256$19$c2FsdA==", 48, "scram-format"),
    (b"$P$43CSgRZlssLJbqxzpCXYPhDoROG16t0", 50, "phpass-cost"),
    (b"$H$63CSgRZlssLJbqxzpCXYPhDoROG16t+", 51, "phpass-b64"),
    (b"$P$63CSgRZlssLJ", 52, "phpass-format"),
    (b"$ssha$c2FsdA$x", 53, "digest-b64"),
    (b"$smd5$c2FsdA==", 54, "digest-format"),
    (b"$mysql$A$004*00*00", 55, "mysql-cost"),
    (
        b"$mysql$A$005*091F0C4838086B4A107B1D52524C7B084B4C3407*3576313333324C494456316E3243426A5A594F706E4B477263396B702F73426A4145764F6B566C6456502D",
        56,
        "mysql-b64",
    ),
    (b"$mysql$A$005*00", 57, "mysql-format"),
];

#[test]
fn causes_by_number(rt: HostRuntime) {
    for (stored, number, word) in CAUSES {
        let got = pwcheck_check_any(rt.alloc(), b"secret", stored, &NONE);
        assert_eq!(rt; got, *number, "{stored:?}");
        assert!(rt; has_word(*number, word), "{word}");
    }
    assert!(rt; has_word(42, "zero-byte"));
    let bcrypt = TEXTS[4].as_bytes();
    assert_eq!(rt;
        pwcheck_check_any(rt.alloc(), b"sec\0ret", bcrypt, &NONE),
        42
    );
    assert_eq!(rt;
        pwcheck_check_any(rt.alloc(), &[b'a'; 4_097], bcrypt, &NONE),
        4
    );
}

// Each bound alone; a text above one is answered at once, as nothing is hashed.
#[test]
fn bounds(rt: HostRuntime) {
    let rows: [(&[u8], i32); 6] = [
        (
            b"$5$rounds=999999999$abcdefgh$gruCpC7VkOTspMQTTSAR8mtlO9Upms.fwqE5y16JVM.",
            30,
        ),
        (
            b"$2b$31$abcdefghijklmnopqrstuu2r9OfJnfCsdneAXAGHnS4UpFFP8WIrW",
            30,
        ),
        (
            b"$y$jFT$0123456789ab$kb1fsIrDP1wOa4Q3gNpxZkfwQ3ce8kmPbnemuN65IT2",
            30,
        ),
        (
            b"$scrypt$ln=17,r=8,p=1024$c2FsdHNhbHRzYWx0$09/untC+3Bg44eiJQ8bqhTXgE2ali+ykLaojkJZlF9U",
            30,
        ),
        (
            b"$pbkdf2-sha256$i=10000000,l=32$c2FsdHNhbHRzYWx0$sVaWem31qy3rw+Ldi3plA/XzhMSNi9/XHnnD1Ytj05o",
            30,
        ),
        (
            b"$argon2id$v=19$m=2097152,t=1,p=1$c2FsdHNhbHRzYWx0$Sm3MnLdCFk0Af+croKgebRoqqmhbKd88iiW3yUOXn78",
            30,
        ),
    ];
    for (stored, number) in rows {
        let got = pwcheck_check_any(rt.alloc(), b"secret", stored, &LEAST);
        assert_eq!(rt; got, number, "{stored:?}");
    }
    let limits = Limits {
        bcrypt_cost: 4,
        ..NONE
    };
    let stored = TEXTS[5].as_bytes();
    assert_eq!(rt;
        pwcheck_check_any(rt.alloc(), b"secret", stored, &limits),
        30
    );
    let limits = Limits {
        argon2_lanes: 1,
        ..NONE
    };
    let stored = TEXTS[9].as_bytes();
    assert_eq!(rt;
        pwcheck_check_any(rt.alloc(), b"secret", stored, &limits),
        30
    );
}
