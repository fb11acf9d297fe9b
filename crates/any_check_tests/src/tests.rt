//! Texts that outside programs made: openssl, glibc's and libxcrypt's crypt, Python's hashlib, hmac and passlib, the program argon2,
//! OpenLDAP's slappasswd, Dovecot, 389-ds and htpasswd.

use any_check::{
    AnyError, Costs, NO_COSTS, PlainRecords, Scheme, SchemeCosts, TextKind, any_word, check_any,
    check_any_within, record_kdf, scheme_of_text, text_kind,
};
use bcrypt_plain::BcryptFault;
use md5_plain::Md5Fault;
use mysql_sha2::MysqlFault;
use phpass_plain::PhpassFault;
use salted_digest::SaltedFault;
use scram_plain::ScramFault;
use sha1_crypt::Sha1Fault;
use stored_check::StoredError;
use yescrypt_plain::{CryptKept, TextFault};

// The word; want of memory has none.
fn word_of(answer: &Result<bool, AnyError>) -> &'static str {
    if *answer == Err(AnyError::Stored(StoredError::OutOfMemory)) {
        return "no-memory";
    }
    any_word(answer)
}

// Texts of the password `secret`.
const TEXTS: &[&str] = &[
    "$1$abcdefgh$cHJi5PXp/ki/ktXzqlk6I1",
    "$apr1$abcdefgh$h9FWgUz3n9YxylKLlR5SQ/",
    "$5$abcdefgh$gruCpC7VkOTspMQTTSAR8mtlO9Upms.fwqE5y16JVM.",
    "$5$rounds=1500$abcdefgh$qXUmNmbLEOn5YPWvewYoPCAAHp5vzLn73xcpCUC256C",
    "$6$abcdefgh$ltjgWl6579NluT/Vi1nwEvcil.G5Nbc4NiXZaNGStk8PSwGfQv72N2CKPPrVACtLtip/cZ/1GM/O6IND4WQhG.",
    "$2b$04$abcdefghijklmnopqrstuu2r9OfJnfCsdneAXAGHnS4UpFFP8WIrW",
    "$2y$05$abcdefghijklmnopqrstuuOQiyCxlgf/oeuTqixKmWdcYUh4Hjl0a",
    "$scrypt$ln=4,r=8,p=1$c2FsdHNhbHRzYWx0$09/untC+3Bg44eiJQ8bqhTXgE2ali+ykLaojkJZlF9U",
    "$pbkdf2-sha256$i=1000,l=32$c2FsdHNhbHRzYWx0$sVaWem31qy3rw+Ldi3plA/XzhMSNi9/XHnnD1Ytj05o",
    "$argon2id$v=19$m=64,t=1,p=1$c2FsdHNhbHRzYWx0$Sm3MnLdCFk0Af+croKgebRoqqmhbKd88iiW3yUOXn78",
    "$argon2i$v=19$m=64,t=2,p=2$c2FsdHNhbHRzYWx0$vtdpD5eGGsEQdYh52JSgUbWdj2vdH1FR/Ncvk1mmMU8",
    "$argon2d$v=19$m=128,t=1,p=1$c2FsdHNhbHRzYWx0$cnmEAHaXnZyNK8al32lcZA",
    "$y$j75$0123456789ab$kb1fsIrDP1wOa4Q3gNpxZkfwQ3ce8kmPbnemuN65IT2",
    "$y$j6///$./$eG1H3hAdiIw7LAyaeC1wsfq6rJHemsvZ8fPCiI8TWx/",
    "$7$4/....0....SodiumChloride$V4S.p0ArbLXh9bvI9g1ReO/qmFMyvEX4e98XynaDdN9",
    "$pbkdf2-sha512$i=999$c2FsdHNhbHRzYWx0$GK6ZfhTx3pI28IQ6HYQzaUek5XduggVQ0zhLSF6WB1ROBlCW2ybd4hR7tgTVg/2i//vv5K7hcJGgBedoUEO6ag",
    "$bcrypt-sha256$v=2,t=2b,r=5$rQ4YSmKXcMgu5A9G67oqZe$S9cUb0ixwFd041WWlme5LZJoDd3KoHC",
    "$bcrypt-sha256$2b,4$abcdefghijklmnopqrstuu$N9tMz1lMx9RK4tmPpgRXWaagQQdZIOO",
    "$bcrypt-sha256-hex$2b$04$abcdefghijklmnopqrstuuraR8y8jUb0UMmCc9fwl/YxKZSpSs52u",
    "$wp$2y$04$abcdefghijklmnopqrstuuEeHkRZpI6C0z7R9xxYj6cAAQJttpxEy",
    "$sha1$19$abcdefgh$nl4bYNUkvp1kTppWm6kb5cqPQqNG",
    "$scram-sha-256$19$c2FsdHNhbHRzYWx0$yKryWWaEJIQZh+JLbGHI0L6CiAe9Z/A045jMaYLvY5Q=$m68IZJjNEbv8HGR356PYAHysNh90ZvhvCDdy6qKIKYw=",
    "$scram-sha-256-raw$20$c2FsdHNhbHRzYWx0$RdX4ARLvYgtG49yrH5Ad+1cSP6sX3ne7wcvyE05dWd8=$nqZeGYnz3lpZ+Z9cF+fW31+zlAed1+TSM+lgpSCnf7Q=",
    "$P$63CSgRZlssLJbqxzpCXYPhDoROG16t0",
    "$H$5abcdefghRQTwXLGkACWdXkqlmTP.k1",
    "$smd5$eqxaag==$8HSBkgbWtU2ZNtAT/chuyA==",
    "$ssha$kYts+A==$N/O7ZPYFWQ9QtdpxAglBt23rONc=",
    "$ssha$$5en6G6MezRroT3XKqkdPOmY/BfQ=",
    "$ssha256$3xme0w==$ROfTnljnyvDpXJG9tjcgy5mIhpPVTOREnfMvABPrZb8=",
    "$ssha512$GvCtCYhcG9k=$J37XHP+ir/NHsU3KWxpsW1E5qI1JbYSCLMsvRp8JLWp9qGsZFRUt+FzVtKiQcbF+wArqqKP0sW6Cuqjg/K97LQ==",
    "$pbkdf2-sha1$i=998$c2FsdHNhbHRzYWx0$dfthYyTIsPBB/GS86Ihv/tqCRr0",
];

pub fn texts() -> &'static [&'static str] {
    TEXTS
}

// Texts without a verdict, and their words.
const FAULTS: &[(&str, &str)] = &[
    ("$1$abcdefgh", "md5-format"),
    ("$1$abcdefghi$cHJi5PXp/ki/ktXzqlk6I1", "md5-format"),
    ("$apr1$", "mcf-delimiter"),
    ("$5$rounds=1$abcdefgh$x", "sha-rounds"),
    ("$6$abcdefgh$x", "sha-format"),
    ("$6$abc:efgh$x", "mcf-encoding"),
    ("x$1$abcdefgh$cHJi5PXp/ki/ktXzqlk6I1", "mcf-delimiter"),
    (
        "$2b$03$abcdefghijklmnopqrstuu2r9OfJnfCsdneAXAGHnS4UpFFP8WIrW",
        "bcrypt-cost",
    ),
    (
        "$2b$04$abcdefghijklmnopqrstuu2r9OfJnfCsdneAXAGHnS4UpFFP8WIr",
        "bcrypt-format",
    ),
    (
        "$2b$04$abcdefghijklmnopqrstuv2r9OfJnfCsdneAXAGHnS4UpFFP8WIrW",
        "bcrypt-b64",
    ),
    (
        "$2b$04$abcdefghijklmnopqrstu+2r9OfJnfCsdneAXAGHnS4UpFFP8WIrW",
        "bcrypt-b64",
    ),
    (
        "$2x$04$abcdefghijklmnopqrstuu2r9OfJnfCsdneAXAGHnS4UpFFP8WIrW",
        "bcrypt-obsolete",
    ),
    (
        "$2$04$abcdefghijklmnopqrstuu2r9OfJnfCsdneAXAGHnS4UpFFP8WIrW",
        "bcrypt-obsolete",
    ),
    (
        "$argon2id$m=64,t=1,p=1$c2FsdHNhbHRzYWx0$Sm3MnLdCFk0Af+croKgebRoqqmhbKd88iiW3yUOXn78",
        "kdf",
    ),
    ("$scrypt$ln=4,r=8,p=1$c2FsdHNhbHRzYWx0", "no-hash"),
    (
        "$pbkdf2-sha512$i=0$c2FsdHNhbHRzYWx0$GK6ZfhTx3pI28IQ6HYQzaUek5XduggVQ0zhLSF6WB1ROBlCW2ybd4hR7tgTVg/2i//vv5K7hcJGgBedoUEO6ag",
        "kdf",
    ),
    (
        "$pbkdf2-sha1$i=0$c2FsdHNhbHRzYWx0$KoeIRlhBTyFrU8q8BApSMIIhObk",
        "kdf",
    ),
    (
        "$pbkdf2-sha384$i=1000$c2FsdHNhbHRzYWx0$KoeIRlhBTyFrU8q8BApSMIIhObk",
        "no-scheme",
    ),
    ("$y$j75$0123456789ab", "yescrypt-format"),
    (
        "$y$/75$0123456789ab$kb1fsIrDP1wOa4Q3gNpxZkfwQ3ce8kmPbnemuN65IT2",
        "yescrypt-flavor",
    ),
    (
        "$y$jT5$0123456789ab$kb1fsIrDP1wOa4Q3gNpxZkfwQ3ce8kmPbnemuN65IT2",
        "yescrypt-cost",
    ),
    (
        "$y$j75$0123456789ab$kb1fsIrDP1wOa4Q3gNpxZkfwQ3ce8kmPbnemuN65IT",
        "yescrypt-format",
    ),
    ("$7$4/..../....SodiumChloride", "scrypt-format"),
    (
        "$7$T/..../....SodiumChloride$nlEbTww0ryKdVNlzWsYxiiWbBXRoFx2X8iNJtJTvzX.",
        "scrypt-cost",
    ),
    (
        "$bcrypt-sha256$v=3,t=2b,r=5$rQ4YSmKXcMgu5A9G67oqZe$S9cUb0ixwFd041WWlme5LZJoDd3KoHC",
        "bcrypt-format",
    ),
    (
        "$bcrypt-sha256$v=2,t=2b,r=3$rQ4YSmKXcMgu5A9G67oqZe$S9cUb0ixwFd041WWlme5LZJoDd3KoHC",
        "bcrypt-cost",
    ),
    (
        "$bcrypt-sha256-hex$2x$04$abcdefghijklmnopqrstuuraR8y8jUb0UMmCc9fwl/YxKZSpSs52u",
        "bcrypt-obsolete",
    ),
    (
        "$wp$2y$04$abcdefghijklmnopqrstuvEeHkRZpI6C0z7R9xxYj6cAAQJttpxEy",
        "bcrypt-b64",
    ),
    ("$wp$2y$04$abcdefghijklmnopqrstuu", "bcrypt-format"),
    ("$sha1$19$abcdefgh", "sha1-format"),
    (
        "$sha1$019$abcdefgh$nl4bYNUkvp1kTppWm6kb5cqPQqNG",
        "sha1-cost",
    ),
    ("$sha1$19$abcdefgh$nl4bYNUkvp1kTppWm6kb5cqPQqN-", "sha1-b64"),
    ("$sha1$19$abcdefgh$nl4bYNUkvp1kTppWm6kb5cqPZqNG", "sha1-b64"),
    (
        "$scram-sha-256$19$c2FsdHNhbHRzYWx0$yKryWWaEJIQZh+JLbGHI0L6CiAe9Z/A045jMaYLvY5Q=",
        "scram-format",
    ),
    (
        "$scram-sha-256$019$c2FsdHNhbHRzYWx0$yKryWWaEJIQZh+JLbGHI0L6CiAe9Z/A045jMaYLvY5Q=$m68IZJjNEbv8HGR356PYAHysNh90ZvhvCDdy6qKIKYw=",
        "scram-cost",
    ),
    (
        "$scram-sha-256$19$c2FsdHNhbHRzYWx-$yKryWWaEJIQZh+JLbGHI0L6CiAe9Z/A045jMaYLvY5Q=$m68IZJjNEbv8HGR356PYAHysNh90ZvhvCDdy6qKIKYw=",
        "scram-b64",
    ),
    (
        "$scram-sha-256-raw$20$c2FsdHNhbHRzYWx0$RdX-ARLvYgtG49yrH5Ad+1cSP6sX3ne7wcvyE05dWd8=$nqZeGYnz3lpZ+Z9cF+fW31+zlAed1+TSM+lgpSCnf7Q=",
        "scram-b64",
    ),
    (
        "$scram-sha-256$19$c2FsdHNhbHRzYWx0$yKryWWaEJIQZh+JLbGHI0L6CiAe9Z/A045jMaYLvY5Q=$m68IZJjNEbv8HGR356PYAHysNh90ZvhvCDdy6qKIKYx=",
        "scram-b64",
    ),
    ("$P$63CSgRZlssLJbqxzpCXYPhDoROG16t", "phpass-format"),
    ("$P$43CSgRZlssLJbqxzpCXYPhDoROG16t0", "phpass-cost"),
    ("$H$63CSgRZlssLJbqxzpCXYPhDoROG16t+", "phpass-b64"),
    ("$P$63CSgRZlssLJbqxzpCXYPhDoROG16t2", "phpass-b64"),
    ("$ssha$kYts+A==", "digest-format"),
    (
        "$mysql$A$005*091F0C4838086B4A107B1D52524C7B084B4C3407",
        "mysql-format",
    ),
    (
        "$mysql$A$004*091F0C4838086B4A107B1D52524C7B084B4C3407*3576313333324C494456316E3243426A5A594F706E4B477263396B702F73426A4145764F6B566C64565030",
        "mysql-cost",
    ),
    (
        "$mysql$A$005*091F0C4838086B4A107B1D52524C7B084B4C3407*3576313333324C494456316E3243426A5A594F706E4B477263396B702F73426A4145764F6B566C6456502D",
        "mysql-b64",
    ),
    (
        "$ssha256$kYts+A==$N/O7ZPYFWQ9QtdpxAglBt23rONc=",
        "digest-format",
    ),
    ("$smd5$eqxaag=$8HSBkgbWtU2ZNtAT/chuyA==", "digest-b64"),
    ("$ssha$kYts+A==$N/O7ZPYFWQ9QtdpxAglBt23rONd=", "digest-b64"),
    ("abJnggxhB/yWI", "no-scheme"),
    ("{SHA}5en6G6MezRroT3XKqkdPOmY/BfQ=", "no-scheme"),
    (
        "$md5,rounds=904$iPPKEBnEkp3JV8uX$$0zl94xqyvhRdTxvl8ydHC.",
        "no-scheme",
    ),
    ("$3$$8846f7eaee8fb117ad06bdd830b7586c", "no-scheme"),
    ("$gy$j9T$abcdefgh$x", "no-scheme"),
    ("*", "no-scheme"),
    ("!$6$abcdefgh$x", "mcf-delimiter"),
    ("", "no-scheme"),
];

pub fn faults() -> &'static [(&'static str, &'static str)] {
    FAULTS
}

#[test]
fn words(rt: HostRuntime) {
    let kdf = record_kdf(rt.alloc());
    let kept = CryptKept::new(rt.alloc());
    for stored in texts() {
        let got = word_of(&check_any(rt.alloc(), &kdf, &kept, "secret", stored));
        assert!(rt; got == "match", "{stored}: {got}");
        let got = word_of(&check_any(rt.alloc(), &kdf, &kept, "Secret", stored));
        assert!(rt; got == "mismatch", "{stored}: {got}");
    }
    for (stored, word) in faults() {
        let got = word_of(&check_any(rt.alloc(), &kdf, &kept, "secret", stored));
        assert!(rt; got == *word, "{stored}: {got}");
    }
}

// The least bound under which each text gets its verdict.
const LEAST: SchemeCosts = SchemeCosts {
    sha_crypt: Costs {
        rounds: 5_000,
        ..NO_COSTS
    },
    bcrypt: Costs {
        cost: 8,
        ..NO_COSTS
    },
    yescrypt: Costs {
        ln: 10,
        r: 8,
        t: 2,
        ..NO_COSTS
    },
    pbkdf2_sha256: Costs {
        rounds: 1_000,
        ..NO_COSTS
    },
    pbkdf2_sha512: Costs {
        rounds: 1_000,
        ..NO_COSTS
    },
    scrypt: Costs {
        ln: 6,
        r: 8,
        p: 2,
        ..NO_COSTS
    },
    argon2: Costs {
        m: 128,
        t: 2,
        p: 2,
        ..NO_COSTS
    },
};

pub fn least() -> SchemeCosts {
    LEAST
}

#[test]
fn bounds_reached(rt: HostRuntime) {
    let kdf = record_kdf(rt.alloc());
    let kept = CryptKept::new(rt.alloc());
    for stored in texts() {
        let got = word_of(&check_any_within(rt.alloc(), &kdf, &kept, &least(), "secret", stored));
        assert!(rt; got == "match", "{stored}: {got}");
        let got = word_of(&check_any_within(rt.alloc(), &kdf, &kept, &least(), "Secret", stored));
        assert!(rt; got == "mismatch", "{stored}: {got}");
    }
    let none = SchemeCosts {
        sha_crypt: NO_COSTS,
        bcrypt: NO_COSTS,
        yescrypt: NO_COSTS,
        scrypt: NO_COSTS,
        pbkdf2_sha256: NO_COSTS,
        pbkdf2_sha512: NO_COSTS,
        argon2: NO_COSTS,
    };
    for (stored, word) in faults() {
        let got = word_of(&check_any_within(rt.alloc(), &kdf, &kept, &none, "secret", stored));
        assert!(rt; got == *word, "{stored}: {got}");
    }
}

// The places of texts, and a bound below their costs that all other texts keep. bcrypt's bound is that of bcrypt of a digest and of
// phpass too.
const PASSED: &[(&[usize], SchemeCosts)] = &[
    (
        &[2, 4],
        SchemeCosts {
            sha_crypt: Costs {
                rounds: 4_999,
                ..NO_COSTS
            },
            ..LEAST
        },
    ),
    (
        &[6, 16, 23, 24],
        SchemeCosts {
            bcrypt: Costs {
                cost: 4,
                ..NO_COSTS
            },
            ..LEAST
        },
    ),
    (
        &[23],
        SchemeCosts {
            bcrypt: Costs {
                cost: 7,
                ..NO_COSTS
            },
            ..LEAST
        },
    ),
    (
        &[7],
        SchemeCosts {
            scrypt: Costs {
                ln: 6,
                r: 7,
                p: 2,
                ..NO_COSTS
            },
            ..LEAST
        },
    ),
    (
        &[14],
        SchemeCosts {
            scrypt: Costs {
                ln: 5,
                r: 8,
                p: 2,
                ..NO_COSTS
            },
            ..LEAST
        },
    ),
    (
        &[14],
        SchemeCosts {
            scrypt: Costs {
                ln: 6,
                r: 8,
                p: 1,
                ..NO_COSTS
            },
            ..LEAST
        },
    ),
    (
        &[12],
        SchemeCosts {
            yescrypt: Costs {
                ln: 9,
                r: 8,
                t: 2,
                ..NO_COSTS
            },
            ..LEAST
        },
    ),
    (
        &[12],
        SchemeCosts {
            yescrypt: Costs {
                ln: 10,
                r: 7,
                t: 2,
                ..NO_COSTS
            },
            ..LEAST
        },
    ),
    (
        &[13],
        SchemeCosts {
            yescrypt: Costs {
                ln: 10,
                r: 8,
                t: 1,
                ..NO_COSTS
            },
            ..LEAST
        },
    ),
    (
        &[8],
        SchemeCosts {
            pbkdf2_sha256: Costs {
                rounds: 999,
                ..NO_COSTS
            },
            ..LEAST
        },
    ),
    (
        &[8, 30],
        SchemeCosts {
            pbkdf2_sha256: Costs {
                rounds: 997,
                ..NO_COSTS
            },
            ..LEAST
        },
    ),
    (
        &[15],
        SchemeCosts {
            pbkdf2_sha512: Costs {
                rounds: 998,
                ..NO_COSTS
            },
            ..LEAST
        },
    ),
    (
        &[11],
        SchemeCosts {
            argon2: Costs {
                m: 127,
                t: 2,
                p: 2,
                ..NO_COSTS
            },
            ..LEAST
        },
    ),
    (
        &[10],
        SchemeCosts {
            argon2: Costs {
                m: 128,
                t: 1,
                p: 2,
                ..NO_COSTS
            },
            ..LEAST
        },
    ),
    (
        &[10],
        SchemeCosts {
            argon2: Costs {
                m: 128,
                t: 2,
                p: 1,
                ..NO_COSTS
            },
            ..LEAST
        },
    ),
];

// MySQL's text of the password `secret`, whose rounds are never fewer than 5,000: it is in no table, since the tables are gone through often.
const MYSQL: &str =
    "$mysql$A$005*091F0C4838086B4A107B1D52524C7B084B4C3407*3576313333324C494456316E3243426A5A594F706E4B477263396B702F73426A4145764F6B566C64565030";

#[test]
fn mysql_texts(rt: HostRuntime) {
    let kdf = record_kdf(rt.alloc());
    let kept = CryptKept::new(rt.alloc());
    let dear = SchemeCosts {
        sha_crypt: Costs {
            rounds: 4_999,
            ..NO_COSTS
        },
        ..LEAST
    };
    assert!(rt; check_any(rt.alloc(), &kdf, &kept, "secret", MYSQL) == Ok(true));
    assert!(rt; check_any(rt.alloc(), &kdf, &kept, "Secret", MYSQL) == Ok(false));
    assert!(rt; check_any_within(rt.alloc(), &kdf, &kept, &LEAST, "secret", MYSQL) == Ok(true));
    let answer = check_any_within(rt.alloc(), &kdf, &kept, &dear, "secret", MYSQL);
    assert!(rt; answer == Err(AnyError::TooCostly), "{answer:?}");
}

#[test]
fn bounds_passed(rt: HostRuntime) {
    let kdf = record_kdf(rt.alloc());
    let kept = CryptKept::new(rt.alloc());
    for (places, low) in PASSED {
        for (place, stored) in texts().iter().enumerate() {
            let got = word_of(&check_any_within(rt.alloc(), &kdf, &kept, low, "secret", stored));
            let is_above = places.contains(&place);
            assert!(rt;
                got == if is_above { "too-costly" } else { "match" },
                "{stored}: {got}"
            );
        }
    }
}

#[test]
fn long_passwords(rt: HostRuntime) {
    let kdf = record_kdf(rt.alloc());
    let kept = CryptKept::new(rt.alloc());
    let bytes = [b'a'; 4097];
    let Ok(long) = str::from_utf8(&bytes) else {
        panic!(rt; "letters are text")
    };
    let too_long = Err(AnyError::Stored(StoredError::PasswordTooLong));
    for stored in texts() {
        let answer = check_any(rt.alloc(), &kdf, &kept, long, stored);
        assert!(rt; answer == too_long, "{stored}: {answer:?}");
        let answer = check_any_within(rt.alloc(), &kdf, &kept, &least(), long, stored);
        assert!(rt; answer == too_long, "{stored}: {answer:?}");
        let answer = check_any(rt.alloc(), &kdf, &kept, &long[1..], stored);
        assert!(rt; answer == Ok(false), "{stored}: {answer:?}");
    }
    let answer = check_any(rt.alloc(), &kdf, &kept, long, "*");
    assert!(rt; answer == too_long);
}

// Passwords and texts without a verdict, and the first cause.
const CAUSES: &[(&str, &str, AnyError)] = &[
    ("secret", "$1$abcdefgh", AnyError::Md5(Md5Fault::NoHash)),
    ("secret", "$2a$04", AnyError::Bcrypt(BcryptFault::NoHash)),
    ("secret", "$wp$2y$04", AnyError::Bcrypt(BcryptFault::Length)),
    ("secret", "$sha1$19", AnyError::Sha1(Sha1Fault::NoSalt)),
    (
        "secret",
        "$scram-sha-256$19$x",
        AnyError::Scram(ScramFault::NoStoredKey),
    ),
    (
        "péché",
        "$scram-sha-256$19$x",
        AnyError::Scram(ScramFault::NoStoredKey),
    ),
    (
        "péché",
        "$scram-sha-256$19$c2FsdHNhbHRzYWx0$yKryWWaEJIQZh+JLbGHI0L6CiAe9Z/A045jMaYLvY5Q=$m68IZJjNEbv8HGR356PYAHysNh90ZvhvCDdy6qKIKYw=",
        AnyError::Scram(ScramFault::NotAscii),
    ),
    ("secret", "$H$5", AnyError::Phpass(PhpassFault::Length)),
    ("secret", "$ssha", AnyError::Salted(SaltedFault::NoSalt)),
    ("secret", "$mysql$", AnyError::Mysql(MysqlFault::WrongId)),
    (
        "secret",
        "$smd5$eqxaag==$8HSBkgbWtU2ZNtAT/chuyA=",
        AnyError::Salted(SaltedFault::HashLength),
    ),
    (
        "sec\0ret",
        "$2b$04$abcdefghijklmnopqrstuu2r9OfJnfCsdneAXAGHnS4UpFFP8WIrW",
        AnyError::ZeroByte,
    ),
];

// Passwords that some texts have a verdict on and others not, and the words.
const OTHERS: &[(&str, &str, &str)] = &[
    (
        "sec\0ret",
        "$2b$04$abcdefghijklmnopqrstuu2r9OfJnfCsdneAXAGHnS4UpFFP8WIrW",
        "zero-byte",
    ),
    (
        "sec\0ret",
        "$bcrypt-sha256$2b,4$abcdefghijklmnopqrstuu$N9tMz1lMx9RK4tmPpgRXWaagQQdZIOO",
        "mismatch",
    ),
    (
        "péché",
        "$scram-sha-256$19$c2FsdHNhbHRzYWx0$yKryWWaEJIQZh+JLbGHI0L6CiAe9Z/A045jMaYLvY5Q=$m68IZJjNEbv8HGR356PYAHysNh90ZvhvCDdy6qKIKYw=",
        "not-ascii",
    ),
    (
        "péché",
        "$scram-sha-256-raw$18$MDEyMzQ1Njc4OWFiY2RlZg==$Kzs9hMQq005K9mauOQ1p7DS8xWB4w0JzRo+ecXj0CQQ=$CnGv9hKZrHe46JMhL6yKiORo+KML/55pU1wx9mdOicE=",
        "match",
    ),
    ("a\0b", "$P$5abcdefghRLJD0mSaATn8.KP8wOdN//", "match"),
    ("a\0c", "$P$5abcdefghRLJD0mSaATn8.KP8wOdN//", "mismatch"),
];

#[test]
fn first_causes(rt: HostRuntime) {
    let kdf = record_kdf(rt.alloc());
    let kept = CryptKept::new(rt.alloc());
    for (password, stored, cause) in CAUSES {
        let answer = check_any(rt.alloc(), &kdf, &kept, password, stored);
        assert!(rt; answer == Err(*cause), "{stored}: {answer:?}");
    }
    for (password, stored, word) in OTHERS {
        let got = word_of(&check_any(rt.alloc(), &kdf, &kept, password, stored));
        assert!(rt; got == *word, "{stored}: {got}");
    }
}

#[test]
fn schemes(rt: HostRuntime) {
    for (stored, scheme) in [
        ("$1$x", Scheme::Md5Crypt),
        ("$apr1", Scheme::Md5Crypt),
        ("$5$x", Scheme::Sha256Crypt),
        ("$6$", Scheme::Sha512Crypt),
        ("$2a$", Scheme::Bcrypt),
        ("$2$", Scheme::Bcrypt),
        ("$y$j9T", Scheme::Yescrypt),
        ("$7$", Scheme::ScryptCrypt),
        ("$bcrypt-sha256$x", Scheme::BcryptDigest),
        ("$bcrypt-sha256-hex$2b", Scheme::BcryptDigest),
        ("$wp", Scheme::BcryptDigest),
        ("$sha1$x", Scheme::Sha1Crypt),
        ("$scram-sha-256$x", Scheme::Scram),
        ("$scram-sha-256-raw", Scheme::Scram),
        ("$P$B", Scheme::Phpass),
        ("$H$", Scheme::Phpass),
        ("$smd5", Scheme::SaltedDigest),
        ("$ssha512$x", Scheme::SaltedDigest),
        ("$mysql$A$005", Scheme::MysqlSha2),
        ("$scrypt$x", Scheme::Scrypt),
        ("$argon2i", Scheme::Argon2i),
        ("$pbkdf2-sha512$x", Scheme::Pbkdf2Sha512),
        ("$pbkdf2-sha1$x", Scheme::Pbkdf2Sha1),
    ] {
        assert!(rt; scheme_of_text(stored) == Some(scheme), "{stored}");
    }
}

#[test]
fn no_scheme(rt: HostRuntime) {
    for stored in [
        "",
        "$",
        "1",
        "$$1",
        "$55$x",
        "$argon2$x",
        "$pbkdf2$x",
        "$gy$x",
        "!",
    ] {
        assert!(rt; scheme_of_text(stored) == None, "{stored}");
    }
}

// Valid texts of which each digest takes a tenth of a second and more: of each variant and type, and where its texts have several
// lengths, another one of more than 140 bytes or the shortest.
const DEAR: &[&str] = &[
    "$5$rounds=999999999$abcdefgh$gruCpC7VkOTspMQTTSAR8mtlO9Upms.fwqE5y16JVM.",
    "$5$rounds=999999999$a$gruCpC7VkOTspMQTTSAR8mtlO9Upms.fwqE5y16JVM.",
    "$6$rounds=999999999$abcdefgh$ltjgWl6579NluT/Vi1nwEvcil.G5Nbc4NiXZaNGStk8PSwGfQv72N2CKPPrVACtLtip/cZ/1GM/O6IND4WQhG.",
    "$6$rounds=999999999$a$ltjgWl6579NluT/Vi1nwEvcil.G5Nbc4NiXZaNGStk8PSwGfQv72N2CKPPrVACtLtip/cZ/1GM/O6IND4WQhG.",
    "$2a$31$abcdefghijklmnopqrstuu2r9OfJnfCsdneAXAGHnS4UpFFP8WIrW",
    "$2b$31$abcdefghijklmnopqrstuu2r9OfJnfCsdneAXAGHnS4UpFFP8WIrW",
    "$2y$31$abcdefghijklmnopqrstuu2r9OfJnfCsdneAXAGHnS4UpFFP8WIrW",
    "$bcrypt-sha256$v=2,t=2b,r=31$rQ4YSmKXcMgu5A9G67oqZe$S9cUb0ixwFd041WWlme5LZJoDd3KoHC",
    "$bcrypt-sha256$2a,31$abcdefghijklmnopqrstuu$N9tMz1lMx9RK4tmPpgRXWaagQQdZIOO",
    "$bcrypt-sha256-hex$2a$31$abcdefghijklmnopqrstuuraR8y8jUb0UMmCc9fwl/YxKZSpSs52u",
    "$wp$2y$31$abcdefghijklmnopqrstuuEeHkRZpI6C0z7R9xxYj6cAAQJttpxEy",
    "$sha1$4294967295$abcdefgh$nl4bYNUkvp1kTppWm6kb5cqPQqNG",
    "$sha1$4294967295$a$nl4bYNUkvp1kTppWm6kb5cqPQqNG",
    "$scram-sha-256$4294967295$c2FsdHNhbHRzYWx0$yKryWWaEJIQZh+JLbGHI0L6CiAe9Z/A045jMaYLvY5Q=$m68IZJjNEbv8HGR356PYAHysNh90ZvhvCDdy6qKIKYw=",
    "$scram-sha-256-raw$4294967295$YQ==$RdX4ARLvYgtG49yrH5Ad+1cSP6sX3ne7wcvyE05dWd8=$nqZeGYnz3lpZ+Z9cF+fW31+zlAed1+TSM+lgpSCnf7Q=",
    "$P$S3CSgRZlssLJbqxzpCXYPhDoROG16t0",
    "$H$Sabcdefgh3CSgRZlssLJbqxzpCXYPh1",
    "$y$jFT$0123456789ab$kb1fsIrDP1wOa4Q3gNpxZkfwQ3ce8kmPbnemuN65IT2",
    "$y$jFT$0123456789ab0123456789ab0123456789ab0123456789ab0123456789ab0123456789ab0123456789ab01$kb1fsIrDP1wOa4Q3gNpxZkfwQ3ce8kmPbnemuN65IT2",
    "$7$EU..../....SodiumChloride$V4S.p0ArbLXh9bvI9g1ReO/qmFMyvEX4e98XynaDdN9",
    "$7$EU..../....SodiumChlorideSodiumChlorideSodiumChlorideSodiumChlorideSodiumChlorideSodiumChlorideSo$V4S.p0ArbLXh9bvI9g1ReO/qmFMyvEX4e98XynaDdN9",
    "$scrypt$ln=17,r=8,p=1024$c2FsdHNhbHRzYWx0$09/untC+3Bg44eiJQ8bqhTXgE2ali+ykLaojkJZlF9U",
    "$scrypt$ln=17,r=8,p=1024$c2FsdHNhbHRzYWx0c2FsdHNhbHRzYWx0c2FsdHNhbHRzYWx0c2FsdHNhbHRzYWx0$GK6ZfhTx3pI28IQ6HYQzaUek5XduggVQ0zhLSF6WB1ROBlCW2ybd4hR7tgTVg/2i//vv5K7hcJGgBedoUEO6ag",
    "$pbkdf2-sha256$i=10000000,l=32$c2FsdHNhbHRzYWx0$sVaWem31qy3rw+Ldi3plA/XzhMSNi9/XHnnD1Ytj05o",
    "$pbkdf2-sha256$i=10000000$c2FsdHNhbHRzYWx0c2FsdHNhbHRzYWx0c2FsdHNhbHRzYWx0c2FsdHNhbHRzYWx0$GK6ZfhTx3pI28IQ6HYQzaUek5XduggVQ0zhLSF6WB1ROBlCW2ybd4hR7tgTVg/2i//vv5K7hcJGgBedoUEO6ag",
    "$pbkdf2-sha512$i=10000000$c2FsdHNhbHRzYWx0$GK6ZfhTx3pI28IQ6HYQzaUek5XduggVQ0zhLSF6WB1ROBlCW2ybd4hR7tgTVg/2i//vv5K7hcJGgBedoUEO6ag",
    "$pbkdf2-sha512$i=10000000$c2FsdHNhbHRzYWx0c2FsdHNhbHRzYWx0c2FsdHNhbHRzYWx0c2FsdHNhbHRzYWx0$GK6ZfhTx3pI28IQ6HYQzaUek5XduggVQ0zhLSF6WB1ROBlCW2ybd4hR7tgTVg/2i//vv5K7hcJGgBedoUEO6ag",
    "$pbkdf2-sha1$i=10000000$c2FsdHNhbHRzYWx0$KoeIRlhBTyFrU8q8BApSMIIhObk",
    "$pbkdf2-sha1$i=10000000$c2FsdHNhbHRzYWx0c2FsdHNhbHRzYWx0c2FsdHNhbHRzYWx0c2FsdHNhbHRzYWx0$GK6ZfhTx3pI28IQ6HYQzaUek5XduggVQ0zhLSF6WB1ROBlCW2ybd4hR7tgTVg/2i//vv5K7hcJGgBedoUEO6ag",
    "$argon2id$v=19$m=2097152,t=1,p=1$c2FsdHNhbHRzYWx0$Sm3MnLdCFk0Af+croKgebRoqqmhbKd88iiW3yUOXn78",
    "$argon2id$v=19$m=2097152,t=1,p=1$c2FsdHNhbHRzYWx0c2FsdHNhbHRzYWx0c2FsdHNhbHRzYWx0c2FsdHNhbHRzYWx0$GK6ZfhTx3pI28IQ6HYQzaUek5XduggVQ0zhLSF6WB1ROBlCW2ybd4hR7tgTVg/2i//vv5K7hcJGgBedoUEO6ag",
    "$argon2i$v=19$m=2097152,t=1,p=1$c2FsdHNhbHRzYWx0$Sm3MnLdCFk0Af+croKgebRoqqmhbKd88iiW3yUOXn78",
    "$argon2i$v=19$m=2097152,t=1,p=1$c2FsdHNhbHRzYWx0c2FsdHNhbHRzYWx0c2FsdHNhbHRzYWx0c2FsdHNhbHRzYWx0$GK6ZfhTx3pI28IQ6HYQzaUek5XduggVQ0zhLSF6WB1ROBlCW2ybd4hR7tgTVg/2i//vv5K7hcJGgBedoUEO6ag",
    "$argon2d$v=19$m=2097152,t=1,p=1$c2FsdHNhbHRzYWx0$Sm3MnLdCFk0Af+croKgebRoqqmhbKd88iiW3yUOXn78",
    "$argon2d$v=19$m=2097152,t=1,p=1$c2FsdHNhbHRzYWx0c2FsdHNhbHRzYWx0c2FsdHNhbHRzYWx0c2FsdHNhbHRzYWx0$GK6ZfhTx3pI28IQ6HYQzaUek5XduggVQ0zhLSF6WB1ROBlCW2ybd4hR7tgTVg/2i//vv5K7hcJGgBedoUEO6ag",
];

pub fn dear() -> &'static [&'static str] {
    DEAR
}

// A thousand digests of such a text take more time than a test has.
#[test]
fn nothing_is_hashed(rt: HostRuntime) {
    let kdf = record_kdf(rt.alloc());
    let kept = CryptKept::new(rt.alloc());
    for stored in dear() {
        for _ in 0..1_000 {
            let answer = check_any_within(rt.alloc(), &kdf, &kept, &least(), "secret", stored);
            assert!(rt; answer == Err(AnyError::TooCostly), "{stored}");
        }
    }
}

// Each text has a verdict exactly where its kind is valid.
#[test]
fn kinds(rt: HostRuntime) {
    for stored in texts() {
        let valid = matches!(text_kind(&PlainRecords, stored), TextKind::Valid(_));
        assert!(rt; valid, "{stored}");
    }
    for (stored, word) in faults() {
        let valid = matches!(text_kind(&PlainRecords, stored), TextKind::Valid(_));
        assert!(rt; !valid, "{stored} {word}");
    }
}
