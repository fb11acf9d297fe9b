//! Texts and their pieces.

use pieces::characters::{has_name_bytes, is_name_byte};
use pieces::places::{first_place, last_place};
use pieces::short_bytes::ShortBytes;
use pieces::text::text_of;
use pieces::{begins_with, behind, ends_in, first_piece, is_end, next_piece};

// A text and its first three pieces.
const CUTS: [(&str, [Option<&str>; 3]); 6] = [
    ("", [Some(""), None, None]),
    ("$", [Some(""), Some(""), None]),
    ("$5", [Some(""), Some("5"), None]),
    ("$5$salt", [Some(""), Some("5"), Some("salt")]),
    ("a$$", [Some("a"), Some(""), Some("")]),
    ("abc", [Some("abc"), None, None]),
];

#[test]
fn pieces_in_turn(rt: HostRuntime) {
    for (text, pieces) in CUTS {
        let mut left = Some(text);
        for wanted in pieces {
            assert!(rt; is_end(left) == wanted.is_none(), "{text:?}");
            let (piece, others) = next_piece(left, '$');
            assert!(rt; piece == wanted, "{text:?}");
            left = others;
        }
    }
}

#[test]
fn first_pieces(rt: HostRuntime) {
    let (piece, rest) = first_piece("id=7,salt", ',');
    assert!(rt; piece == "id=7");
    assert!(rt; rest == Some("salt"));
}

#[test]
fn fronts_and_ends(rt: HostRuntime) {
    assert!(rt; begins_with("rounds=5000", "rounds="));
    assert!(rt; !begins_with("round", "rounds="));
    assert!(rt; ends_in("$6$", "$"));
    assert!(rt; !ends_in("$6", "$"));
}

#[test]
fn texts_after_a_front(rt: HostRuntime) {
    assert!(rt; behind("rounds=5000", "rounds=") == Some("5000"));
    assert!(rt; behind("salt", "rounds=") == None);
}

// Numbers and their decimals.
const DECIMALS: [(u64, &str); 4] = [
    (0, "0"),
    (10, "10"),
    (5_000, "5000"),
    (u64::MAX, "18446744073709551615"),
];

fn digits_of(number: u64) -> ShortBytes<20> {
    let mut text = ShortBytes::new();
    text.push_decimal(number);
    text
}

#[test]
fn short_bytes(rt: HostRuntime) {
    for (number, digits) in DECIMALS {
        let text = digits_of(number);
        assert!(rt; text.as_slice() == digits.as_bytes(), "{number}");
        assert!(rt; text.len() == digits.len(), "{number}");
        assert!(rt;
            text == ShortBytes::from_slice(digits.as_bytes()),
            "{number}"
        );
    }
}

#[test]
fn short_bytes_joined(rt: HostRuntime) {
    let mut word: ShortBytes<8> = ShortBytes::from_slice(b"ln=");
    word.push_all(b"14");
    assert!(rt; word.as_slice() == b"ln=14".as_slice());
    assert!(rt; word != ShortBytes::from_slice(b"ln=1"));
}

// Bytes and the first place of `$`: short ones, those of one step, and those whose last step overlaps.
const PLACES: [(&str, Option<usize>); 10] = [
    ("", None),
    ("$", Some(0)),
    ("abcdefghijklmno", None),
    ("abcdefghijklmn$", Some(14)),
    ("abcdefghijklmnop", None),
    ("$bcdefghijklmno$", Some(0)),
    ("abcdefghijklmno$", Some(15)),
    ("abcdefghijklmnop$", Some(16)),
    ("abcdefghijklmnopqrst$vwxyzabcdefghi$k", Some(20)),
    ("abcdefghijklmnopqrstuvwxyzabcdefghijk", None),
];

#[test]
fn places_in_short_and_long_texts(rt: HostRuntime) {
    for (text, place) in PLACES {
        assert!(rt; first_place(text.as_bytes(), b'$') == place, "{text:?}");
    }
}

// Bytes and the last place of `$`.
const LAST_PLACES: [(&str, Option<usize>); 6] = [
    ("", None),
    ("$", Some(0)),
    ("a$$", Some(2)),
    ("abcdefghijklmnopq", None),
    ("$bcdefghijklmnopqrstuvwxyzabcdefghijk", Some(0)),
    ("abcdefghijklmno$abcdefghijklmno$abc", Some(31)),
];

#[test]
fn last_places(rt: HostRuntime) {
    for (text, place) in LAST_PLACES {
        assert!(rt; last_place(text.as_bytes(), b'$') == place, "{text:?}");
    }
}

#[test]
fn texts_of_bytes(rt: HostRuntime) {
    for text in ["", "salt", "abcdefghijklmnopq", "abcdefghijklmn\u{e9}opq"] {
        assert!(rt; text_of(text.as_bytes()) == Some(text), "{text:?}");
    }
    for bytes in [b"salt\xff".as_slice(), b"abcdefghijklmnop\xff".as_slice()] {
        assert!(rt; text_of(bytes) == None, "{bytes:?}");
    }
}

#[test]
fn bytes_of_names(rt: HostRuntime) {
    for (text, all) in [
        ("argon2id-09", true),
        ("", true),
        ("a_b", false),
        ("Az", false),
    ] {
        assert!(rt; has_name_bytes(text.as_bytes()) == all, "{text:?}");
    }
    assert!(rt; is_name_byte(b'-') && !is_name_byte(b'.'));
}
