//! Which stored texts are to be made anew.

use crate::remake::pwcheck_needs_remake;

// Texts by the program argon2, libxcrypt, htpasswd and hashlib, and some of another form; whether each is to be made anew.
const TEXTS: [(&str, bool); 14] = [
    (
        "$argon2id$v=19$m=65536,t=3,p=4$c29tZXNhbHRzb21lc2FsdA$v4EyYRVmSXgQ0MbTvXqHNyy+dNs0jsM3whE41NQH+P0",
        false,
    ),
    (
        "$argon2id$v=19$m=7168,t=5,p=1$c29tZXNhbHRzb21lc2FsdA$v4EyYRVmSXgQ0MbTvXqHNyy+dNs0jsM3whE41NQH+P0",
        false,
    ),
    (
        "$argon2id$v=19$m=7168,t=4,p=1$c29tZXNhbHRzb21lc2FsdA$v4EyYRVmSXgQ0MbTvXqHNyy+dNs0jsM3whE41NQH+P0",
        true,
    ),
    (
        "$argon2id$v=19$m=7167,t=9,p=1$c29tZXNhbHRzb21lc2FsdA$v4EyYRVmSXgQ0MbTvXqHNyy+dNs0jsM3whE41NQH+P0",
        true,
    ),
    (
        "$argon2i$v=19$m=65536,t=3,p=4$c29tZXNhbHRzb21lc2FsdA$v4EyYRVmSXgQ0MbTvXqHNyy+dNs0jsM3whE41NQH+P0",
        true,
    ),
    (
        "$argon2d$v=19$m=65536,t=3,p=4$c29tZXNhbHRzb21lc2FsdA$v4EyYRVmSXgQ0MbTvXqHNyy+dNs0jsM3whE41NQH+P0",
        true,
    ),
    (
        "$argon2id$v=19$m=65536,t=3,p=4$c29tZXNhbHRzb21lc2FsdA$v4EyYRVmSXgQ0MbTvXqHNyy+dNs0jsM3whE41NQH+P",
        true,
    ),
    (
        "$2b$12$abcdefghijklmnopqrstuu2r9OfJnfCsdneAXAGHnS4UpFFP8WIrW",
        true,
    ),
    (
        "$y$j9T$F5Jx5fExrKuPp53xLKQ..1$X3DX6M94c7o.9agCG9G317fhZg9SqC.5i5rd.RhAtQ7",
        true,
    ),
    ("$6$rounds=656000$saltsalt$", true),
    (
        "!$argon2id$v=19$m=65536,t=3,p=4$c29tZXNhbHRzb21lc2FsdA$v4EyYRVmSXgQ0MbTvXqHNyy+dNs0jsM3whE41NQH+P0",
        true,
    ),
    ("ab01FAX.bQRSU", true),
    ("", true),
    ("*", true),
];

#[test]
fn made_anew(rt: HostRuntime) {
    for (text, expected) in TEXTS {
        assert!(rt; pwcheck_needs_remake(text.as_bytes()) == expected, "{text}");
    }
    assert!(rt; pwcheck_needs_remake(b"$argon2id\xff$v=19"));
}
