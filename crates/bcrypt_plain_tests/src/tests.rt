//! Texts of libxcrypt, of which python-bcrypt, PHP and htpasswd give and check the same; the known answers of
//! crypt_blowfish; and each fault.

ghost use Rattle.std.specs.Prelude.{◌≡◌, ◌≤◌, length};

use base64ct::Counts;
use bcrypt_plain::{
    BcryptError, BcryptFault, MakeFault, bcrypt, bcrypt_check, bcrypt_check_counted, bcrypt_simple,
    bcrypt_text, decode_hash, decode_salt, encode_hash, encode_salt, laws, measured_bcrypt,
    text_cost,
};
use rand_chacha::ChaCha20Rng;
use rand_core::{Rng, SeedableRng};

// The passwords of the table are the fronts of this, and its salt is the bytes 0 to 15.
const PASSWORD: &[u8] =
    b"abcdefghijklmnopqrstuvwxyzABCDEFGHIJKLMNOPQRSTUVWXYZ0123456789abcdefghijklmnopqrstuvwxyzABCDEFGHIJKL";

const SALT: [u8; 16] = [0, 1, 2, 3, 4, 5, 6, 7, 8, 9, 10, 11, 12, 13, 14, 15];

// The length of a password, and the hash at cost 4. Two have more than 72 bytes.
const HASHES: [(usize, &str); 24] = [
    (0, "q1wbVgYezarXi1FgOYk1qMNtxVndjJm"),
    (1, "nBitU1jIt2E6xX6kPhDtSnJIjNzugbS"),
    (2, "1WhiU9zwwBcNtKllBYkJuuz6BA0n.wa"),
    (3, "fJvSTjTdkBYlZeYThHDpJ4wbwLwg8EG"),
    (4, "KcdPnUpSMqtmwe.GUc9Qt54Pa3Vk.qe"),
    (5, "DD83fuT7abjyD1gERaeofM6IA3EW8Me"),
    (7, "IFbTa8fLWhoeUTLc7OtoIG38iGBJllW"),
    (8, "bc0c/C2tg5WXx9STv2ljQVzoaVMu4Pm"),
    (15, "FYY7/G3EimVrCZYhqRhtfhmzJDs6bJK"),
    (16, "Ph6jrLAhAVba/0FAa7H8fESKql/XMRO"),
    (17, "M8C752xsIPhKbjsR/hH6sG4cEKAKngm"),
    (31, "R3WgGkfJc3B5uMF89/5Pf5DS63p2r2i"),
    (35, "WnzVZ5B0GEuzQDCRpTjbiMJ5vpBRMMq"),
    (36, "hU4sgLKGUyvmywdwURVgasZ.JSOVxRe"),
    (55, "oPkIvQw5GLrEpVqEig10/Om0GQBt.FO"),
    (56, "w5IDUavejunbAHDhgRTUm4dxYEqcwZ2"),
    (57, "Grf8BdcaX0zeSVOGnS3IuzNxnXGp5XG"),
    (63, "B7Q7h7ILSRObMAjRMs2a7HCFwbxoZ6i"),
    (64, "nWzHexSvYWAgwC1LHc3nuRUFMEFxf3G"),
    (70, "ndkqK1IaxZDQ7HMcXIms/KUcSj4tmk6"),
    (71, "Tmuysph2FjG3IugfEPokTY6bgyrWsqC"),
    (72, "giqq61zHSXuYHdraZ7w2BCm3Xa2CZGe"),
    (73, "giqq61zHSXuYHdraZ7w2BCm3Xa2CZGe"),
    (100, "giqq61zHSXuYHdraZ7w2BCm3Xa2CZGe"),
];

// A password of any bytes, a cost, and the salt and the hash of the text: the known answers of crypt_blowfish and of
// jBCrypt, each of them libxcrypt's too.
const KNOWN: [(&[u8], u32, &str, &str); 15] = [
    (
        b"U*U",
        5,
        "CCCCCCCCCCCCCCCCCCCCC.",
        "E5YPO9kmyuRGyh0XouQYb4YMJKvyOeW",
    ),
    (
        b"U*U*",
        5,
        "CCCCCCCCCCCCCCCCCCCCC.",
        "VGOzA784oUp/Z0DY336zx7pLYAy0lwK",
    ),
    (
        b"U*U*U",
        5,
        "XXXXXXXXXXXXXXXXXXXXXO",
        "AcXxm9kjPGEMsLznoKqmqw7tc8WCx4a",
    ),
    (
        b"0123456789abcdefghijklmnopqrstuvwxyzABCDEFGHIJKLMNOPQRSTUVWXYZ0123456789chars after 72 are ignored",
        5,
        "abcdefghijklmnopqrstuu",
        "5s2v8.iXieOjg/.AySBTTZIIVFJeBui",
    ),
    (
        b"\xa3",
        5,
        "/OK.fbVrR/bpIqNJ5ianF.",
        "Sa7shbm4.OzKpvFnX1pQLmQW96oUlCq",
    ),
    (
        b"\xff\xff\xa3",
        5,
        "/OK.fbVrR/bpIqNJ5ianF.",
        "CE5elHaaO4EbggVDjb8P19RukzXSM3e",
    ),
    (
        b"\xff\xa3345",
        5,
        "/OK.fbVrR/bpIqNJ5ianF.",
        "nRht2l/HRhr6zmCp9vYUvvsqynflf9e",
    ),
    (
        &[0xaa; 100],
        5,
        "/OK.fbVrR/bpIqNJ5ianF.",
        "swQOIzjOiJ9GHEPuhEkvqrUyvWhEMx6",
    ),
    (
        b"",
        5,
        "CCCCCCCCCCCCCCCCCCCCC.",
        "7uG0VCzI2bS7j6ymqJi9CdcdxiRTWNy",
    ),
    (
        b"",
        6,
        "DCq7YPn5Rq63x1Lad4cll.",
        "TV4S6ytwfsfvkgY8jIucDrjc8deX1s.",
    ),
    (
        b"a",
        6,
        "m0CrhHm10qJ3lXRY.5zDGO",
        "3rS2KdeeWLuGmsfGlMfOxih58VYVfxe",
    ),
    (
        b"abc",
        6,
        "If6bvum7DFjUnE9p2uDeDu",
        "0YHzrHM6tf.iqN8.yx.jNN1ILEf7h0i",
    ),
    (
        b"pass",
        4,
        "......................",
        "SOTgceZnd99TCJcTRZU3xFM9qH6L7.u",
    ),
    (
        b"pass",
        4,
        "999999999999999999999u",
        "J/IROoB.qWrhX0vQBePn2qD0qHQJs/.",
    ),
    (
        b"pass",
        4,
        "99579Nt48dh17tVy69Jv6.",
        "SuX6kZZItlYBMf0xNZxSXA6cIKlrRwq",
    ),
];

// A password, and the hashes that libxcrypt gives for it at cost 4 under `2a` and under `2b`: they differ where the safety
// measure of `2a` is for the password.
const MEASURED: [(&[u8], &str, &str); 19] = [
    (
        b"\xff\xff\xa3",
        "Ias9ej8rVP83dbQWecz/ebYDer7Sfq6",
        "79F7iyfPXU.AMPgYp2WOmvgKQ4Ez/5.",
    ),
    (
        b"\xff\x80a",
        "rVOWFXmb7u4Vr6F9/r3iY3UVJipV4Tm",
        "OqFgI.oz3mcLd.Iz6eR3w4rEJnNgSI2",
    ),
    (
        b"\xff\x7fa",
        "meD3E.cjQPFOeNlb6gP.It5u0QxQGhy",
        "meD3E.cjQPFOeNlb6gP.It5u0QxQGhy",
    ),
    (
        b"\xfe\x80a",
        "CiDUegn7E8XvEOKZhvKi0LT3iAWh3zW",
        "CiDUegn7E8XvEOKZhvKi0LT3iAWh3zW",
    ),
    (
        b"\xff\xff\xff",
        "7R7s9dp3Nufj8vhfXpDVxA1CewHN6zK",
        "FKw3TGe6Mjb0qZiTDXFGUVnDe/XvIVy",
    ),
    (
        b"\xff\xff\x80",
        "Uqpw2j4zyCWDn5W94Gl8ocu6tZD41t6",
        "TtAV81DNVsyHCV3f3ke/oMB.3GQlf5a",
    ),
    (
        b"\xff\xff\xfeabcd",
        "dh2fWpZZA/94rfnopW1Uy/qSPJ2JEM6",
        "1ek62yUI.Kugq6M3FBMOXj8nfh0t6Jy",
    ),
    (
        b"\xff\xff\xff\x80abc",
        "yJ5rPb01c.dnuhEL7h6x0TP0wFHqJXS",
        "H0aCqPa0UJgXyWHotw2gWEFJjbjhH.S",
    ),
    (
        b"\xff\xffa\x80abc",
        "gv1ya3kxLO.xgm/7QsNU.IBEmwNeRjS",
        "gv1ya3kxLO.xgm/7QsNU.IBEmwNeRjS",
    ),
    (
        b"\xffa\xff\x80abc",
        "B1GmUhA5Ll7xP6BguG1JQ1AmujU/ueq",
        "B1GmUhA5Ll7xP6BguG1JQ1AmujU/ueq",
    ),
    (
        b"\xa3ab",
        "af1NAliZ2sElpgHgy1DuMkfSslA5RkC",
        "af1NAliZ2sElpgHgy1DuMkfSslA5RkC",
    ),
    (
        b"\xffa\xa3",
        "kzDqKP.uTrKgI7Thn.JrgTgsqqwA5G6",
        "kzDqKP.uTrKgI7Thn.JrgTgsqqwA5G6",
    ),
    (
        b"\xffabc\xff\xa3abc",
        "VkHgjoSpVMdQo0xqKU.mR3asHrLVFES",
        "VkHgjoSpVMdQo0xqKU.mR3asHrLVFES",
    ),
    (
        b"\xff\xa3aabc\xa3",
        "c5pABwUnVhU4fxc9i3ZBmaQxjeb8Z2G",
        "c5pABwUnVhU4fxc9i3ZBmaQxjeb8Z2G",
    ),
    (
        b"\xff\xa334\xff\xff\xff\xa3345",
        "PmnZifXAyP7sqefVHxdDlg.V55p1d56",
        "PZmIKt.m7jAS2MaAgriAh2m0Mear0sG",
    ),
    (
        b"aaaaaaaaaaaaaaaaaaaaaaaaaaaaaaaaaaaaaaaaaaaaaaaaaaaaaaaaaaaaaaaaaaaa\xff\xff\xff\xff",
        "jzq5jZgzhfpEbtAtQu4NMs0ZsA9wLeG",
        "FmdQDhBSvZwskuj/4Z9JuYZL22StTgu",
    ),
    (
        b"aaaaaaaaaaaaaaaaaaaaaaaaaaaaaaaaaaaaaaaaaaaaaaaaaaaaaaaaaaaaaaaaaaaaaaa\xff",
        "rvhPv9ZUivi6UWdBX1U4xATK7puf4yW",
        "rvhPv9ZUivi6UWdBX1U4xATK7puf4yW",
    ),
    (
        b"aaaaaaaaaaaaaaaaaaaaaaaaaaaaaaaaaaaaaaaaaaaaaaaaaaaaaaaaaaaaaaaaaaaaaaaa\xff\xa3",
        "dWnlio9BRPS8MKPFcyrsOTh0M4LfeI6",
        "dWnlio9BRPS8MKPFcyrsOTh0M4LfeI6",
    ),
    (
        &[0xff; 255],
        "ANvvLMzSCxQBmnQyvM8T67yjOUrJNzS",
        "08bOJFQyl.kN4l8QCb5oKG0hVWpnCbm",
    ),
];

// The first bytes of a text.
fn front(bytes: &[u8], count: usize) -> &[u8]
    ensures { length result.now ≤ length bytes.now }
{
    if count < bytes.len() {
        &bytes[..count]
    } else {
        bytes
    }
}

#[test]
fn hashes(rt: HostRuntime) {
    for (len, field) in HASHES {
        let hash = bcrypt(front(PASSWORD, len), &SALT, 4);
        assert!(rt; encode_hash(&hash).as_slice() == field.as_bytes(), "{len}");
        assert!(rt; decode_hash(field.as_bytes()) == Some(hash), "{len}");
    }
}

#[test]
fn known_answers(rt: HostRuntime) {
    for (password, cost, salt, field) in KNOWN {
        assert!(rt; cost <= 31);
        let Some(bytes) = decode_salt(salt.as_bytes()) else {
            panic!(rt; "{salt}")
        };
        assert!(rt; encode_salt(&bytes).as_slice() == salt.as_bytes(), "{salt}");
        let hash = bcrypt(password, &bytes, cost);
        assert!(rt; encode_hash(&hash).as_slice() == field.as_bytes(), "{salt}");
    }
}

#[test]
fn the_measure_of_2a(rt: HostRuntime) {
    let Some(salt) = decode_salt(b"/OK.fbVrR/bpIqNJ5ianF.") else {
        panic!(rt; "the salt")
    };
    for (password, measured, plain) in MEASURED {
        let hash = measured_bcrypt(password, &salt, 4);
        assert!(rt;
            encode_hash(&hash).as_slice() == measured.as_bytes(),
            "{password:?}"
        );
        let hash = bcrypt(password, &salt, 4);
        assert!(rt;
            encode_hash(&hash).as_slice() == plain.as_bytes(),
            "{password:?}"
        );
    }
}

// A zero byte ends the password of a C program; behind it stands what is repeated, so these have one hash.
#[test]
fn zero_bytes_within(rt: HostRuntime) {
    assert!(rt; bcrypt(b"ab", &SALT, 4) == bcrypt(b"ab\0ab", &SALT, 4));
}

#[test]
fn salts(rt: HostRuntime) {
    let field = encode_salt(&SALT);
    assert!(rt; field.as_slice() == b"..CA.uOD/eaGAOmJB.yMBu".as_slice());
    assert!(rt; decode_salt(&field) == Some(SALT));
    for text in [
        "",
        "..CA.uOD/eaGAOmJB.yMB",
        "..CA.uOD/eaGAOmJB.yMBv",
        "..CA.uOD/eaGAOmJB.yMB=",
        "..CA.uOD/eaGAOmJB.yMBu.",
    ] {
        assert!(rt; decode_salt(text.as_bytes()) == None, "{text}");
    }
}

#[test]
fn hashes_refused(rt: HostRuntime) {
    for text in [
        "",
        "q1wbVgYezarXi1FgOYk1qMNtxVndjJ",
        "q1wbVgYezarXi1FgOYk1qMNtxVndjJn",
        "q1wbVgYezarXi1FgOYk1qMNtxVndjJm.",
        "q1wbVgYezarXi1FgOYk1qMNtxVn+jJm",
    ] {
        assert!(rt; decode_hash(text.as_bytes()) == None, "{text}");
    }
}

const FIVE: &str = "$2b$05$abcdefghijklmnopqrstuu0oImNDIy4flhldV9YqunRgBAePKmw7m";

// A password and a stored text that match.
const MATCHES: [(&str, &str); 8] = [
    ("", FIVE),
    (
        "",
        "$2a$05$abcdefghijklmnopqrstuu0oImNDIy4flhldV9YqunRgBAePKmw7m",
    ),
    (
        "",
        "$2y$05$abcdefghijklmnopqrstuu0oImNDIy4flhldV9YqunRgBAePKmw7m",
    ),
    (
        "éÿ€",
        "$2b$04$......................hYZn.aLL8voagKDMojrx2CME3oyIDsO",
    ),
    (
        "U*U*",
        "$2a$05$CCCCCCCCCCCCCCCCCCCCC.VGOzA784oUp/Z0DY336zx7pLYAy0lwK",
    ),
    (
        "correct horse",
        "$2b$06$zYXWVUTSRQPONMLKJIHGFONu0jBMTnYQHZiF.ZoSC.IrgSH9DsWwi",
    ),
    (
        "abcdefghijklmnopqrstuvwxyzABCDEFGHIJKLMNOPQRSTUVWXYZ0123456789abcdefghij",
        "$2y$04$..CA.uOD/eaGAOmJB.yMBugiqq61zHSXuYHdraZ7w2BCm3Xa2CZGe",
    ),
    (
        "abcdefghijklmnopqrstuvwxyzABCDEFGHIJKLMNOPQRSTUVWXYZ0123456789abcdefghij and more",
        "$2b$04$..CA.uOD/eaGAOmJB.yMBugiqq61zHSXuYHdraZ7w2BCm3Xa2CZGe",
    ),
];

// A password and a text of another one's hash: the password, the cost, the salt or the hash differs.
const MISMATCHES: [(&str, &str); 6] = [
    ("x", FIVE),
    (
        "",
        "$2b$04$abcdefghijklmnopqrstuu0oImNDIy4flhldV9YqunRgBAePKmw7m",
    ),
    (
        "",
        "$2b$05$bbcdefghijklmnopqrstuu0oImNDIy4flhldV9YqunRgBAePKmw7m",
    ),
    (
        "",
        "$2b$05$abcdefghijklmnopqrstuu1oImNDIy4flhldV9YqunRgBAePKmw7m",
    ),
    (
        "",
        "$2b$05$abcdefghijklmnopqrstuu0oImNDIy4flhldV9YqunRgBAePKmw7i",
    ),
    (
        "abcdefghijklmnopqrstuvwxyzABCDEFGHIJKLMNOPQRSTUVWXYZ0123456789abcdefghi",
        "$2y$04$..CA.uOD/eaGAOmJB.yMBugiqq61zHSXuYHdraZ7w2BCm3Xa2CZGe",
    ),
];

// A stored text and its fault. Each has the faults that come later in the order as well, where it can.
const FAULTS: [(&str, BcryptFault); 40] = [
    ("", BcryptFault::WrongId),
    ("x", BcryptFault::NoDollar),
    (
        "2b$05$abcdefghijklmnopqrstuu0oImNDIy4flhldV9YqunRgBAePKmw7m",
        BcryptFault::NoDollar,
    ),
    ("x$2x", BcryptFault::NoDollar),
    ("$", BcryptFault::WrongId),
    ("$$2b$05", BcryptFault::WrongId),
    (
        "$2B$05$abcdefghijklmnopqrstuu0oImNDIy4flhldV9YqunRgBAePKmw7m",
        BcryptFault::WrongId,
    ),
    ("$2c$12$x$y", BcryptFault::WrongId),
    ("$5$saltstring$x", BcryptFault::WrongId),
    ("$2bb", BcryptFault::WrongId),
    ("$2xx", BcryptFault::WrongId),
    (
        "$2x$05$abcdefghijklmnopqrstuu0oImNDIy4flhldV9YqunRgBAePKmw7m",
        BcryptFault::Obsolete,
    ),
    (
        "$2$05$abcdefghijklmnopqrstuu0oImNDIy4flhldV9YqunRgBAePKmw7m",
        BcryptFault::Obsolete,
    ),
    ("$2x", BcryptFault::Obsolete),
    ("$2$5$x$y", BcryptFault::Obsolete),
    ("$2b", BcryptFault::NoCost),
    ("$2a", BcryptFault::NoCost),
    ("$2b$", BcryptFault::NoHash),
    ("$2b$05", BcryptFault::NoHash),
    ("$2b$5$x$y", BcryptFault::Trailing),
    (
        "$2b$05$abcdefghijklmnopqrstuu0oImNDIy4flhldV9YqunRgBAePKmw7m$",
        BcryptFault::Trailing,
    ),
    (
        "$2b$5$abcdefghijklmnopqrstuu0oImNDIy4flhldV9YqunRgBAePKmw7m",
        BcryptFault::Cost,
    ),
    (
        "$2b$005$abcdefghijklmnopqrstuu0oImNDIy4flhldV9YqunRgBAePKmw7m",
        BcryptFault::Cost,
    ),
    (
        "$2b$03$abcdefghijklmnopqrstuu0oImNDIy4flhldV9YqunRgBAePKmw7m",
        BcryptFault::Cost,
    ),
    (
        "$2b$32$abcdefghijklmnopqrstuu0oImNDIy4flhldV9YqunRgBAePKmw7m",
        BcryptFault::Cost,
    ),
    (
        "$2b$+5$abcdefghijklmnopqrstuu0oImNDIy4flhldV9YqunRgBAePKmw7m",
        BcryptFault::Cost,
    ),
    ("$2b$0a$x", BcryptFault::Cost),
    ("$2b$$x", BcryptFault::Cost),
    ("$2b$/5$x", BcryptFault::Cost),
    ("$2b$0:$x", BcryptFault::Cost),
    ("$2b$05$", BcryptFault::Length),
    (
        "$2b$05$abcdefghijklmnopqrstuu0oImNDIy4flhldV9YqunRgBAePKmw7",
        BcryptFault::Length,
    ),
    (
        "$2b$05$abcdefghijklmnopqrstuu0oImNDIy4flhldV9YqunRgBAePKmw7m,",
        BcryptFault::Length,
    ),
    (
        "$2b$05$abcdefghijklmnopqrst,u0oImNDIy4flhldV9YqunRgBAePKmw7m",
        BcryptFault::Character,
    ),
    (
        "$2b$05$abcdefghijklmnopqrstuv0oImNDIy4flhldV9YqunRgBAePKmw7=",
        BcryptFault::Character,
    ),
    (
        "$2b$05$abcdefghijklmnopqrstuu0oImNDIy4flhldV9YqunRgBAePKéé",
        BcryptFault::Character,
    ),
    (
        "$2b$05$abcdefghijklmnopqrstuéoImNDIy4flhldV9YqunRgBAePKmw7n",
        BcryptFault::Character,
    ),
    (
        "$2b$05$abcdefghijklmnopqrstuv0oImNDIy4flhldV9YqunRgBAePKmw7m",
        BcryptFault::SpareBits,
    ),
    (
        "$2b$05$abcdefghijklmnopqrstuu0oImNDIy4flhldV9YqunRgBAePKmw7n",
        BcryptFault::SpareBits,
    ),
    (
        "$2b$31$abcdefghijklmnopqrstu90oImNDIy4flhldV9YqunRgBAePKmw7p",
        BcryptFault::SpareBits,
    ),
];

#[test]
fn matches(rt: HostRuntime) {
    for (password, stored) in MATCHES {
        let mut counts = Counts::new();
        assert!(rt;
            bcrypt_check_counted(password, stored, &mut counts) == Ok(()),
            "{stored}"
        );
        assert!(rt; counts.looks() == 56, "{stored}");
        assert!(rt; counts.sames() == 31, "{stored}");
    }
    assert!(rt; bcrypt_check("", FIVE) == Ok(()));
}

#[test]
fn mismatches(rt: HostRuntime) {
    for (password, stored) in MISMATCHES {
        let mut counts = Counts::new();
        assert!(rt;
            bcrypt_check_counted(password, stored, &mut counts) == Err(BcryptError::HashMismatch),
            "{stored}"
        );
        assert!(rt; counts.looks() == 56, "{stored}");
        assert!(rt; counts.sames() == 31, "{stored}");
    }
    assert!(rt; bcrypt_check("x", FIVE) == Err(BcryptError::HashMismatch));
}

#[test]
fn faults(rt: HostRuntime) {
    for (stored, fault) in FAULTS {
        let mut counts = Counts::new();
        for password in ["", "a\0b"] {
            assert!(rt;
                bcrypt_check(password, stored) == Err(BcryptError::InvalidFormat(fault)),
                "{stored}"
            );
        }
        assert!(rt;
            bcrypt_check_counted("x", stored, &mut counts)
                == Err(BcryptError::InvalidFormat(fault)),
            "{stored}"
        );
        assert!(rt; text_cost(stored) == Err(fault), "{stored}");
        assert!(rt; counts.looks() <= 56 && counts.sames() <= 8, "{stored}");
    }
}

#[test]
fn costs_without_a_hash(rt: HostRuntime) {
    assert!(rt; text_cost(FIVE) == Ok(5));
    // 2^31 turns would take days, so nothing was hashed.
    assert!(rt;
        text_cost("$2a$31$abcdefghijklmnopqrstuu0oImNDIy4flhldV9YqunRgBAePKmw7m") == Ok(31)
    );
    assert!(rt;
        bcrypt_check(
            "a\0b",
            "$2b$31$abcdefghijklmnopqrstuu0oImNDIy4flhldV9YqunRgBAePKmw7m"
        ) == Err(BcryptError::ZeroByte)
    );
}

// A text of each low cost, and how often the cost is asked for: so many hashes last longer than the minute that a test has.
const LOW_COSTS: [(&str, u32, usize); 9] = [
    (
        "$2b$04$abcdefghijklmnopqrstuu0oImNDIy4flhldV9YqunRgBAePKmw7m",
        4,
        100_000,
    ),
    (
        "$2b$05$abcdefghijklmnopqrstuu0oImNDIy4flhldV9YqunRgBAePKmw7m",
        5,
        50_000,
    ),
    (
        "$2b$06$abcdefghijklmnopqrstuu0oImNDIy4flhldV9YqunRgBAePKmw7m",
        6,
        25_000,
    ),
    (
        "$2b$07$abcdefghijklmnopqrstuu0oImNDIy4flhldV9YqunRgBAePKmw7m",
        7,
        12_500,
    ),
    (
        "$2b$08$abcdefghijklmnopqrstuu0oImNDIy4flhldV9YqunRgBAePKmw7m",
        8,
        6_250,
    ),
    (
        "$2b$09$abcdefghijklmnopqrstuu0oImNDIy4flhldV9YqunRgBAePKmw7m",
        9,
        3_125,
    ),
    (
        "$2b$10$abcdefghijklmnopqrstuu0oImNDIy4flhldV9YqunRgBAePKmw7m",
        10,
        1_562,
    ),
    (
        "$2b$11$abcdefghijklmnopqrstuu0oImNDIy4flhldV9YqunRgBAePKmw7m",
        11,
        781,
    ),
    (
        "$2b$12$abcdefghijklmnopqrstuu0oImNDIy4flhldV9YqunRgBAePKmw7m",
        12,
        390,
    ),
];

#[test]
fn low_costs_without_a_hash(rt: HostRuntime) {
    for (stored, cost, rounds) in LOW_COSTS {
        for _i in 0..rounds {
            assert!(rt; text_cost(stored) == Ok(cost), "{stored}");
        }
    }
}

#[test]
fn counts_of_a_zero_byte(rt: HostRuntime) {
    let mut counts = Counts::new();
    assert!(rt; bcrypt_check("a\0b", FIVE) == Err(BcryptError::ZeroByte));
    assert!(rt; bcrypt_check_counted("\0", FIVE, &mut counts) == Err(BcryptError::ZeroByte));
    assert!(rt; counts.looks() == 56);
    assert!(rt; counts.sames() == 8);
}

#[test]
fn texts_made(rt: HostRuntime) {
    for (password, cost, text) in [
        (
            b"".as_slice(),
            4,
            "$2b$04$..CA.uOD/eaGAOmJB.yMBuq1wbVgYezarXi1FgOYk1qMNtxVndjJm",
        ),
        (
            b"".as_slice(),
            6,
            "$2b$06$..CA.uOD/eaGAOmJB.yMBu/5QAMV7MfnnBEbRK5XpNY2nNRvoaija",
        ),
        (
            front(PASSWORD, 72),
            4,
            "$2b$04$..CA.uOD/eaGAOmJB.yMBugiqq61zHSXuYHdraZ7w2BCm3Xa2CZGe",
        ),
    ] {
        let Ok(made) = bcrypt_text(password, &SALT, cost) else {
            panic!(rt; "{text}")
        };
        assert!(rt; made.as_slice() == text.as_bytes(), "{text}");
    }
}

#[test]
fn texts_refused(rt: HostRuntime) {
    let mut rng = ChaCha20Rng::from_seed([0; 32]);
    for (password, cost, fault) in [
        (b"a\0".as_slice(), 0, MakeFault::Cost),
        (PASSWORD, 3, MakeFault::Cost),
        (PASSWORD, 32, MakeFault::Cost),
        (b"".as_slice(), 4_000_000_000, MakeFault::Cost),
        (front(PASSWORD, 73), 31, MakeFault::PasswordTooLong),
        ([0; 73].as_slice(), 4, MakeFault::PasswordTooLong),
        (b"a\0".as_slice(), 31, MakeFault::ZeroByte),
        ([0; 72].as_slice(), 4, MakeFault::ZeroByte),
    ] {
        assert!(rt;
            bcrypt_text(password, &SALT, cost).err() == Some(fault),
            "{cost} {}",
            password.len()
        );
        assert!(rt;
            bcrypt_simple(&mut rng, password, cost).err() == Some(fault),
            "{cost} {}",
            password.len()
        );
    }
    assert!(rt; rng.next_u32() == 0xade0_b876);
}

// The texts are those of libxcrypt for the salts of ChaCha20's stream under a key of zeros (RFC 8439, A.1).
#[test]
fn texts_from_a_generator(rt: HostRuntime) {
    let mut rng = ChaCha20Rng::from_seed([0; 32]);
    for (cost, text) in [
        (
            5,
            "$2b$05$bphepYBvNX/.VUpjS2Y7I.9RWXoEUGQC1lAbWQPLFVyh/TXuwzIOS",
        ),
        (
            4,
            "$2b$04$tbGXsIAL5PomLs9Kg1aLvuY30aiREkDIeRzV.CAlr7gHIq0gwkRTW",
        ),
    ] {
        let Ok(made) = bcrypt_simple(&mut rng, b"correct horse", cost) else {
            panic!(rt; "{text}")
        };
        assert!(rt; made.as_slice() == text.as_bytes(), "{text}");
        assert!(rt; bcrypt_check("correct horse", text) == Ok(()), "{text}");
    }
}

#[test]
fn laws_stand() {
    laws::first_bytes_count();
    laws::field_once();
    laws::made_matches();
    laws::matches_exactly();
    laws::measure_needs_ones();
}
