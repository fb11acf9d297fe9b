//! Identifiers, names, numbers and places.

use scheme_list::{CostFamily, SCHEMES, Scheme, method_of, scheme_named, scheme_of_name};

#[derive(Clone, Copy)]
struct Row {
    id: &'static str,
    scheme: Scheme,
    name: &'static str,
    family: CostFamily,
    is_made: bool,
    is_weak: bool,
}

// A row for each scheme, in their order: an identifier of its texts, its name as `pwtool survey` tells it, the schemes whose
// texts ask for the same numbers, whether `pwtool make` makes texts of it,
// and whether they are weak by themselves.
const ROWS: [Row; 19] = [
    Row {
        id: "1",
        scheme: Scheme::Md5Crypt,
        name: "md5-crypt",
        family: CostFamily::NoNumber,
        is_made: false,
        is_weak: true,
    },
    Row {
        id: "5",
        scheme: Scheme::Sha256Crypt,
        name: "sha256-crypt",
        family: CostFamily::ShaCrypt,
        is_made: true,
        is_weak: false,
    },
    Row {
        id: "6",
        scheme: Scheme::Sha512Crypt,
        name: "sha512-crypt",
        family: CostFamily::ShaCrypt,
        is_made: true,
        is_weak: false,
    },
    Row {
        id: "2b",
        scheme: Scheme::Bcrypt,
        name: "bcrypt",
        family: CostFamily::Bcrypt,
        is_made: true,
        is_weak: false,
    },
    Row {
        id: "y",
        scheme: Scheme::Yescrypt,
        name: "yescrypt",
        family: CostFamily::Yescrypt,
        is_made: true,
        is_weak: false,
    },
    Row {
        id: "7",
        scheme: Scheme::ScryptCrypt,
        name: "scrypt-crypt",
        family: CostFamily::Scrypt,
        is_made: false,
        is_weak: false,
    },
    Row {
        id: "bcrypt-sha256",
        scheme: Scheme::BcryptDigest,
        name: "bcrypt-digest",
        family: CostFamily::Bcrypt,
        is_made: false,
        is_weak: false,
    },
    Row {
        id: "sha1",
        scheme: Scheme::Sha1Crypt,
        name: "sha1-crypt",
        family: CostFamily::ShaCrypt,
        is_made: false,
        is_weak: true,
    },
    Row {
        id: "scram-sha-256",
        scheme: Scheme::Scram,
        name: "scram-sha-256",
        family: CostFamily::Pbkdf2Sha256,
        is_made: false,
        is_weak: false,
    },
    Row {
        id: "P",
        scheme: Scheme::Phpass,
        name: "phpass",
        family: CostFamily::Bcrypt,
        is_made: false,
        is_weak: true,
    },
    Row {
        id: "ssha",
        scheme: Scheme::SaltedDigest,
        name: "salted-digest",
        family: CostFamily::NoNumber,
        is_made: false,
        is_weak: true,
    },
    Row {
        id: "mysql",
        scheme: Scheme::MysqlSha2,
        name: "mysql-sha2",
        family: CostFamily::ShaCrypt,
        is_made: false,
        is_weak: false,
    },
    Row {
        id: "scrypt",
        scheme: Scheme::Scrypt,
        name: "scrypt",
        family: CostFamily::Scrypt,
        is_made: true,
        is_weak: false,
    },
    Row {
        id: "pbkdf2-sha256",
        scheme: Scheme::Pbkdf2Sha256,
        name: "pbkdf2-sha256",
        family: CostFamily::Pbkdf2Sha256,
        is_made: true,
        is_weak: false,
    },
    Row {
        id: "pbkdf2-sha512",
        scheme: Scheme::Pbkdf2Sha512,
        name: "pbkdf2-sha512",
        family: CostFamily::Pbkdf2Sha512,
        is_made: true,
        is_weak: false,
    },
    Row {
        id: "pbkdf2-sha1",
        scheme: Scheme::Pbkdf2Sha1,
        name: "pbkdf2-sha1",
        family: CostFamily::Pbkdf2Sha256,
        is_made: false,
        is_weak: true,
    },
    Row {
        id: "argon2d",
        scheme: Scheme::Argon2d,
        name: "argon2d",
        family: CostFamily::Argon2,
        is_made: false,
        is_weak: false,
    },
    Row {
        id: "argon2i",
        scheme: Scheme::Argon2i,
        name: "argon2i",
        family: CostFamily::Argon2,
        is_made: false,
        is_weak: false,
    },
    Row {
        id: "argon2id",
        scheme: Scheme::Argon2id,
        name: "argon2id",
        family: CostFamily::Argon2,
        is_made: true,
        is_weak: false,
    },
];

#[test]
fn a_row_for_each_scheme(rt: HostRuntime) {
    for row in ROWS {
        assert!(rt; scheme_named(row.id) == Some(row.scheme), "{}", row.id);
        assert!(rt; row.scheme.name() == row.name, "{}", row.id);
        assert!(rt; scheme_of_name(row.name) == Some(row.scheme), "{}", row.id);
        assert!(rt; row.scheme.family() == row.family, "{}", row.id);
        assert!(rt; row.scheme.is_made() == row.is_made, "{}", row.id);
        assert!(rt; row.scheme.is_weak() == row.is_weak, "{}", row.id);
    }
}

#[test]
fn places(rt: HostRuntime) {
    let mut place = 0;
    for scheme in SCHEMES {
        assert!(rt; scheme.place() == place, "{place}");
        assert!(rt; ROWS[place].scheme == scheme, "{place}");
        place += 1;
    }
}

#[test]
fn other_identifiers(rt: HostRuntime) {
    for id in ["apr1"] {
        assert!(rt; scheme_named(id) == Some(Scheme::Md5Crypt), "{id}");
    }
    for id in ["2", "2a", "2x", "2y"] {
        assert!(rt; scheme_named(id) == Some(Scheme::Bcrypt), "{id}");
    }
    for id in ["bcrypt-sha256-hex", "wp"] {
        assert!(rt; scheme_named(id) == Some(Scheme::BcryptDigest), "{id}");
    }
    assert!(rt; scheme_named("scram-sha-256-raw") == Some(Scheme::Scram));
    assert!(rt; scheme_named("H") == Some(Scheme::Phpass));
    for id in ["smd5", "ssha256", "ssha512"] {
        assert!(rt; scheme_named(id) == Some(Scheme::SaltedDigest), "{id}");
    }
    for id in [
        "", "0", "3", "2c", "55", "Y", "p", "h", "S", "sha2", "ssha384", "SSHA", "MYSQL", "mysql2",
        "pbkdf2", "argon2", "scrypt ",
    ] {
        assert!(rt; scheme_named(id) == None, "{id}");
    }
}

// The prefixes of crypt(3), and other beginnings.
const PREFIXES: [(&[u8], Option<Scheme>); 25] = [
    (b"$1$", Some(Scheme::Md5Crypt)),
    (b"$5$rounds=1000$", Some(Scheme::Sha256Crypt)),
    (b"$6$salt", Some(Scheme::Sha512Crypt)),
    (b"$2a$05$", Some(Scheme::Bcrypt)),
    (b"$2b$", Some(Scheme::Bcrypt)),
    (b"$2y$10$", Some(Scheme::Bcrypt)),
    (b"$y$j9T$", Some(Scheme::Yescrypt)),
    (b"$7$", Some(Scheme::ScryptCrypt)),
    (b"$sha1$1$salt", Some(Scheme::Sha1Crypt)),
    (b"$sha1", Some(Scheme::Sha1Crypt)),
    (b"$sha1x", Some(Scheme::Sha1Crypt)),
    (b"$sha", None),
    (b"$sha2$", None),
    (b"", None),
    (b"$", None),
    (b"$1", None),
    (b"$2x$", None),
    (b"$apr1$", None),
    (b"$scrypt$", None),
    (b"$argon2id$", None),
    (b"$wp$2y$10$", None),
    (b"$P$B", None),
    (b"$H$9", None),
    (b"$ssha$", None),
    (b"x$1$", None),
];

#[test]
fn methods_of_crypt(rt: HostRuntime) {
    for (setting, method) in PREFIXES {
        assert!(rt; method_of(setting) == method, "{setting:?}");
    }
}

#[test]
fn other_names(rt: HostRuntime) {
    for name in ["", "md5", "Bcrypt", "scrypt-crypt ", "argon2", "sha512"] {
        assert!(rt; scheme_of_name(name) == None, "{name}");
    }
}
