//! Texts that write rounds, and texts near to them.

use plain_rounds::rounds_of;

// A text, and the rounds that it writes.
const ROUNDS: &[(&str, Option<u32>)] = &[
    ("1", Some(1)),
    ("7", Some(7)),
    ("10", Some(10)),
    ("4096", Some(4_096)),
    ("4294967295", Some(4_294_967_295)),
    ("", None),
    ("0", None),
    ("00", None),
    ("01", None),
    ("+1", None),
    ("-1", None),
    (" 1", None),
    ("1 ", None),
    ("1_000", None),
    ("1x", None),
    ("0x1", None),
    ("\u{661}", None),
    ("4294967296", None),
    ("18446744073709551617", None),
];

#[test]
fn rounds(rt: HostRuntime) {
    for (text, rounds) in ROUNDS {
        assert!(rt; rounds_of(text) == *rounds, "{text}");
    }
}
