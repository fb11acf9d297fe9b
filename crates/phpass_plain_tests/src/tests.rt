//! Texts of phpass, WordPress and passlib, and each fault.

use base64ct::Counts;
use phpass_plain::{
    PhpassFault, decode_phpass, encode_phpass, laws, phpass, phpass_check, phpass_check_counted,
    text_cost,
};

// A password, its text, and the cost. The texts are passlib's, but the last two: that of `test12345` is from phpass's own test.php, and the
// other one is WordPress's.
const TEXTS: &[(&[u8], &str, u32)] = &[
    (b"", "$P$5........22zGEuacuPOqEpYPDeR0R/", 7),
    (b"pw", "$P$5saltsalt.jW4prEgin2oQysMPZyuI.", 7),
    (b"pw", "$H$5saltsalt.jW4prEgin2oQysMPZyuI.", 7),
    (b"test", "$P$6Wq3GL2Vpzp7A0DV8MUqMzM/qy082E.", 8),
    (b"p\xc3\xa4ss", "$H$6./09AZaz1mQOrRA0RL6BCzaKzN/pV/", 8),
    (b"\xff\xfe", "$P$5zzzzzzzzXDpUQS8lSN.ksFconVFVH.", 7),
    (
        b"aaaaaaaaaaaaaaaaaaaaaaaaaaaaaaaaaaaaaaaaaaaaaaaaaaaaaaaa",
        "$P$5abcdefghJY6T7vdMxWiSQ/FB4BCth1",
        7,
    ),
    (
        b"aaaaaaaaaaaaaaaaaaaaaaaaaaaaaaaaaaaaaaa",
        "$P$5abcdefghuOC/DEPJe768ySAKhK0Xe0",
        7,
    ),
    (
        b"aaaaaaaaaaaaaaaaaaaaaaaaaaaaaaaaaaaaaaaa",
        "$P$5abcdefghhpTwPbppoFfZ54Pld8DR61",
        7,
    ),
    (b"a\0b", "$P$5abcdefghRLJD0mSaATn8.KP8wOdN//", 7),
    (b"a\0c", "$P$5abcdefghS3oDPa4P/mwQN/rogAYmr/", 7),
    (b"a", "$P$5abcdefghx2XzX6NYvnxokC/S.AADj.", 7),
    (b"secret", "$P$63CSgRZlssLJbqxzpCXYPhDoROG16t0", 8),
    (
        b"correct horse battery",
        "$P$6R4TCzfThad6QSOsPLysBPFdrql13w.",
        8,
    ),
    (b"test12345", "$P$9IQRaTwmfeRo7ud9Fh4E2PdI0S3r.L0", 11),
    (b"secret", "$P$B8kCyyGZE/cKNWIemtireme2XyITaX.", 13),
];

// Whether a password has this answer for a text, with the numbers of a verdict.
fn is_verdict(password: &[u8], stored: &str, matches: bool) -> bool {
    let mut counts = Counts::new();
    phpass_check_counted(password, stored, &mut counts) == Ok(matches)
        && counts.looks() == 24
        && counts.sames() == 20
}

#[test]
fn matches(rt: HostRuntime) {
    for (password, stored, cost) in TEXTS {
        assert!(rt; is_verdict(password, stored, true), "{stored}");
        assert!(rt; text_cost(stored) == Ok(*cost), "{stored}");
    }
}

#[test]
fn mismatches(rt: HostRuntime) {
    for (_, stored, cost) in TEXTS {
        if *cost < 9 {
            assert!(rt; is_verdict(b"a\0d", stored, false), "{stored}");
        }
    }
    // one bit of the hash is another one, the first and the last
    assert!(rt; is_verdict(b"pw", "$P$5saltsalt/jW4prEgin2oQysMPZyuI.", false));
    assert!(rt; is_verdict(b"pw", "$P$5saltsalt.jW4prEgin2oQysMPZyuI1", false));
    // another salt, and another cost
    assert!(rt; is_verdict(b"pw", "$P$5saltsalu.jW4prEgin2oQysMPZyuI.", false));
    assert!(rt; is_verdict(b"pw", "$P$6saltsalt.jW4prEgin2oQysMPZyuI.", false));
}

#[test]
fn checked(rt: HostRuntime) {
    let stored = "$H$5saltsalt.jW4prEgin2oQysMPZyuI.";
    assert!(rt; phpass_check(b"pw", stored) == Ok(true));
    assert!(rt; phpass_check(b"pW", stored) == Ok(false));
    assert!(rt; phpass_check(b"pw\0", stored) == Ok(false));
}

#[test]
fn counts_added(rt: HostRuntime) {
    let mut counts = Counts::new();
    let stored = "$P$5saltsalt.jW4prEgin2oQysMPZyuI.";
    assert!(rt; phpass_check_counted(b"pw", stored, &mut counts) == Ok(true));
    assert!(rt; phpass_check_counted(b"x", stored, &mut counts) == Ok(false));
    assert!(rt; counts.looks() == 48 && counts.sames() == 40);
}

// Digests with few turns, as Python's hashlib gives them: a password, a salt, a cost, and the digest.
const DIGESTS: &[(&[u8], &[u8], u32, [u8; 16])] = &[
    (
        b"pw",
        b"saltsalt",
        0,
        [
            0x78, 0xb7, 0x16, 0x7e, 0x30, 0x7b, 0xc0, 0xe6, 0x0c, 0x38, 0x90, 0x44, 0x44, 0xff,
            0x03, 0xf2,
        ],
    ),
    (
        b"pw",
        b"saltsalt",
        1,
        [
            0x71, 0x20, 0xe0, 0x91, 0x85, 0xd1, 0xd0, 0x87, 0x60, 0xb2, 0x54, 0x71, 0x9e, 0x41,
            0x1a, 0x62,
        ],
    ),
    (
        b"",
        b"",
        0,
        [
            0x59, 0xad, 0xb2, 0x4e, 0xf3, 0xcd, 0xbe, 0x02, 0x97, 0xf0, 0x5b, 0x39, 0x58, 0x27,
            0x45, 0x3f,
        ],
    ),
];

#[test]
fn digests(rt: HostRuntime) {
    for (password, salt, cost, digest) in DIGESTS {
        assert!(rt; *cost <= 30);
        assert!(rt; phpass(password, salt, *cost) == *digest);
    }
}

// The digest of `pw` and `saltsalt` at cost 7, as Python's hashlib gives it, and its field as passlib writes it.
const DIGEST: [u8; 16] = [
    0xc0, 0x2b, 0x1a, 0xf5, 0x0d, 0xb1, 0xee, 0x4c, 0xd0, 0x9c, 0x8f, 0x63, 0x5b, 0xe9, 0xeb, 0x14,
];

const FIELD: &[u8] = b".jW4prEgin2oQysMPZyuI.";

#[test]
fn fields(rt: HostRuntime) {
    assert!(rt; encode_phpass(&DIGEST).as_slice() == FIELD);
    assert!(rt; decode_phpass(FIELD) == Some(DIGEST));
    assert!(rt; phpass(b"pw", b"saltsalt", 7) == DIGEST);
}

// Texts that are the field of no digest: of another length, with another character, or with bits after the last byte.
const NO_FIELDS: &[&str] = &[
    "",
    ".jW4prEgin2oQysMPZyuI",
    ".jW4prEgin2oQysMPZyuI..",
    ".jW4prEgin2oQysMPZyu-.",
    ".jW4prEgin2oQysMPZyuI2",
    ".jW4prEgin2oQysMPZyuIU",
];

#[test]
fn fields_refused(rt: HostRuntime) {
    for text in NO_FIELDS {
        assert!(rt; decode_phpass(text.as_bytes()) == None, "{text}");
    }
}

// Texts and their first fault. Most of these have a later fault too, or are near to a text without a fault.
const FAULTS: &[(&str, PhpassFault)] = &[
    ("", PhpassFault::NoDollar),
    ("P$5saltsalt.jW4prEgin2oQysMPZyuI.", PhpassFault::NoDollar),
    (" $P$5saltsalt.jW4prEgin2oQysMPZyuI.", PhpassFault::NoDollar),
    ("\u{e9}", PhpassFault::NoDollar),
    ("$", PhpassFault::WrongId),
    ("$P", PhpassFault::WrongId),
    ("$Px5saltsalt.jW4prEgin2oQysMPZyuI.", PhpassFault::WrongId),
    ("$p$5saltsalt.jW4prEgin2oQysMPZyuI.", PhpassFault::WrongId),
    ("$h$5saltsalt.jW4prEgin2oQysMPZyuI.", PhpassFault::WrongId),
    ("$Q$5saltsalt.jW4prEgin2oQysMPZyuI.", PhpassFault::WrongId),
    ("$S$5saltsalt.jW4prEgin2oQysMPZyuI.", PhpassFault::WrongId),
    ("$1$x", PhpassFault::WrongId),
    ("$\u{e9}$", PhpassFault::WrongId),
    ("$P$", PhpassFault::Length),
    ("$H$4", PhpassFault::Length),
    ("$P$4salt-alt.jW4prEgin2oQysMPZyuI", PhpassFault::Length),
    ("$P$5saltsalt.jW4prEgin2oQysMPZyuI..", PhpassFault::Length),
    ("$H$5saltsalt.jW4prEgin2oQysMPZyuI.\n", PhpassFault::Length),
    ("$P$4salt-alt.jW4prEgin2oQysMPZyuI.", PhpassFault::Cost),
    ("$P$.saltsalt.jW4prEgin2oQysMPZyuI.", PhpassFault::Cost),
    ("$P$/saltsalt.jW4prEgin2oQysMPZyuI.", PhpassFault::Cost),
    ("$H$Tsaltsalt.jW4prEgin2oQysMPZyuI.", PhpassFault::Cost),
    ("$P$zsaltsalt.jW4prEgin2oQysMPZyuI.", PhpassFault::Cost),
    ("$P$asaltsalt.jW4prEgin2oQysMPZyuI.", PhpassFault::Cost),
    ("$P$:saltsalt.jW4prEgin2oQysMPZyuI.", PhpassFault::Cost),
    ("$P$@saltsalt.jW4prEgin2oQysMPZyuI.", PhpassFault::Cost),
    ("$P$$saltsalt.jW4prEgin2oQysMPZyuI.", PhpassFault::Cost),
    ("$P$\u{e9}altsalt.jW4prEgin2oQysMPZyuI.", PhpassFault::Cost),
    (
        "$P$5-altsalt-jW4prEgin2oQysMPZyuI.",
        PhpassFault::SaltCharacter,
    ),
    (
        "$H$5saltsal$.jW4prEgin2oQysMPZyuI2",
        PhpassFault::SaltCharacter,
    ),
    (
        "$P$5saltsal\u{e9}jW4prEgin2oQysMPZyuI.",
        PhpassFault::SaltCharacter,
    ),
    (
        "$P$5saltsalt-jW4prEgin2oQysMPZyuI.",
        PhpassFault::HashCharacter,
    ),
    (
        "$P$5saltsalt.jW4prEgin2oQysMPZyuI=",
        PhpassFault::HashCharacter,
    ),
    (
        "$H$5saltsalt.jW4prEgin+oQysMPZyuI2",
        PhpassFault::HashCharacter,
    ),
    (
        "$P$5saltsalt$jW4prEgin2oQysMPZyuI.",
        PhpassFault::HashCharacter,
    ),
    ("$P$5saltsalt.jW4prEgin2oQysMPZyuI2", PhpassFault::SpareBits),
    ("$P$5saltsalt.jW4prEgin2oQysMPZyuI6", PhpassFault::SpareBits),
    ("$H$5saltsalt.jW4prEgin2oQysMPZyuIE", PhpassFault::SpareBits),
    ("$H$5saltsalt.jW4prEgin2oQysMPZyuIU", PhpassFault::SpareBits),
    ("$P$Ssaltsalt.jW4prEgin2oQysMPZyuIz", PhpassFault::SpareBits),
];

// Whether a text has this fault by each call, with no more counted than a fault may.
fn is_fault(stored: &str, fault: PhpassFault) -> bool {
    let mut counts = Counts::new();
    phpass_check_counted(b"", stored, &mut counts) == Err(fault)
        && counts.looks() <= 24
        && counts.sames() <= 4
        && phpass_check(b"pw", stored) == Err(fault)
        && text_cost(stored) == Err(fault)
}

#[test]
fn faults(rt: HostRuntime) {
    for (stored, fault) in FAULTS {
        assert!(rt; is_fault(stored, *fault), "{stored}");
    }
}

// The characters of the costs, in order from 7. 2^30 turns would take minutes, so nothing was hashed.
const COSTS: &[(&str, u32)] = &[
    ("$P$5saltsalt.jW4prEgin2oQysMPZyuI.", 7),
    ("$P$6saltsalt.jW4prEgin2oQysMPZyuI.", 8),
    ("$H$9saltsalt.jW4prEgin2oQysMPZyuI.", 11),
    ("$P$Asaltsalt.jW4prEgin2oQysMPZyuI.", 12),
    ("$P$Bsaltsalt.jW4prEgin2oQysMPZyuI.", 13),
    ("$H$Rsaltsalt.jW4prEgin2oQysMPZyuI.", 29),
    ("$P$Ssaltsalt.jW4prEgin2oQysMPZyuI.", 30),
];

#[test]
fn costs_without_a_hash(rt: HostRuntime) {
    for (stored, cost) in COSTS {
        assert!(rt; text_cost(stored) == Ok(*cost), "{stored}");
    }
}

#[test]
fn laws_stand() {
    laws::field_once();
    laws::one_text();
    laws::both_fronts();
    laws::verdict_where_cost();
    laws::matches_exactly();
}
