//! Texts of openssl and of libxcrypt, and each fault.

ghost use Rattle.std.specs.Prelude.{◌≤◌, length};

use mcf::PasswordHashRef;
use md5_plain::{Magic, Md5Fault, decode_md5, encode_md5, laws, magic_of, md5_crypt, md5_verdict};

// The passwords and the salts of the table are the fronts of these.
const PASSWORD: &[u8] =
    b"abcdefghijklmnopqrstuvwxyzABCDEFGHIJKLMNOPQRSTUVWXYZ0123456789abcdefghijklmnopqrstuvwxyzABCDEFGHIJKL";

const SALT: &[u8] = b"./09AZaz";

// The lengths of a password and a salt, and the hash fields of `$1$` and `$apr1$`: both as `openssl passwd -1` and
// `-apr1` give them, and those of `$1$` as libxcrypt's crypt does.
const FIELDS: [(usize, usize, &str, &str); 29] = [
    (0, 0, "qRPK7m23GJusamGpoGLby/", "J/S5FGXXjRRxbhIznTb/E1"),
    (0, 8, "q2aGV9jPrRUXhC8maI.w10", "CoZrl81P6P1XgqGqfuYG/1"),
    (1, 8, "djgsBCf1BcoI5QIg1IwgN.", "Dzd.GBeBaPP4zAlly39.A1"),
    (1, 1, "PUhbNE90Uga8lcCKATdxc1", "8vJjQkjjHjd.0tR/ZlSPg0"),
    (2, 2, "J4s1hhU0OTlTSHkRYA6.b0", "IKeP.rytTEcY/dCW1EZhr0"),
    (3, 3, "KJkDlqHugveq12INI6qV3/", "KBXEhQ1TIrEi0BUVEEw1F/"),
    (4, 4, "aaXu9PO.2awkkkRJXhfsk/", "mgm2pIouIeHjiYbfVYM7.0"),
    (5, 5, "ihSiUBTiq6fgX6qrPELnl.", "273hmr3X9DdsLrKiZmMdW/"),
    (6, 6, "Y2ZqnCJatqnZ7Gogj77O81", "hl2gcLFS.MUszQ2RTMsAi1"),
    (7, 7, "urWl1pS6BwRJStxEpZOMT.", "vUF3wKB6DG2P2x05b7xZg/"),
    (8, 8, "5druh8VMwpZeQ1xseHWss0", "rCGSuarrKl8zyQuM8rrqX/"),
    (9, 0, "Qwl3pvr6lpOGw0CD/iAMv0", "gg5pWjtxrSPdTZ3XwcD18."),
    (15, 8, "l4tDyCVI0h6J.ZSJlpjOh0", "ZsaYgDp9.ZNo1H1O0Llhu/"),
    (16, 8, "hsLC7CpDYHm2bPVauyJTa/", "X/kJB4LMx1.l7ixEcE9Ga."),
    (17, 5, "x7NP1z2wq90j/iV2segrx0", "gCMlRHb6C8J6kvrE1omxF1"),
    (23, 1, "rH2uvzdfF3/MOaNLxeD9H1", "0/0gWEOKtxMvc9VibLmzy1"),
    (31, 3, "j.rMliqLKoomXLSXT8P.I1", "auVMuElNfLPw8TTe.O5ve1"),
    (32, 8, "tBLxm.SVz5vD6KHpI6RGB1", "8VM3Gc9JOvDZqiiA6Wz100"),
    (33, 2, "669NnVIeVjS/qeljNssuR0", "qzKgSAICJTTlKNLISfNjm/"),
    (47, 6, "phH1wow825D9dJXDjc6Fl1", "ABzXi6aD9jC0ZzVM6Mrqj."),
    (48, 7, "YKoMqApWIIQIEDYcGsmnm/", "za7UcQWPuBjiJKcsu0BS9/"),
    (55, 4, "T3R5bJaJsCJyKolhGgDz4.", "TfP1JOpox7g388IgVXnmz1"),
    (56, 8, "CESV8g2lrk8mwvIMg.XBe0", "sGtbP./4AkizoAQwHk/jv."),
    (63, 8, "Uj400NlZGCq8mW.uZt7Ch1", "gp3TQaxLaSN5NW.ppsr631"),
    (64, 8, "nc3YB.en49CmjVjyWN0Lw.", "pUWcgXxhaqV3XJD/KYu3J."),
    (65, 7, "Fyc8SJm0sHvvKzmkv.wTB1", "qCc3T5mFv20L0zORJqEQh1"),
    (80, 0, "1DJVBKsWysmCBLmJSEPX01", "7PIPTHwAkdmBoZoyKPIKw."),
    (99, 5, "wjD2xqR5XnsGGEnpPrvW90", "RPK5RmlaBZkjAmQUSENGs."),
    (100, 8, "8I0mb3jQB5HX9Z1d3e4qv1", "DrEiVGRPEsGumSiAdQlmv/"),
];

// The first bytes of a text.
fn front(bytes: &[u8], count: usize) -> &[u8]
    ensures { length result.now ≤ length bytes.now }
{
    if count < bytes.len() {
        &bytes[..count]
    } else {
        bytes
    }
}

// Whether a text is the hash field of a password and a salt by both calls.
fn is_field(password: &[u8], salt: &[u8], magic: Magic, text: &str) -> bool
    requires { length password.now ≤ 100 }
{
    let digest = md5_crypt(password, salt, magic);
    let field = encode_md5(&digest);
    field.as_slice() == text.as_bytes() && decode_md5(text.as_bytes()) == Some(digest)
}

#[test]
fn fields(rt: HostRuntime) {
    for (password_len, salt_len, md5, apr1) in FIELDS {
        let password = front(PASSWORD, password_len);
        let salt = front(SALT, salt_len);
        assert!(rt;
            is_field(password, salt, Magic::Md5, md5),
            "{password_len} {salt_len}"
        );
        assert!(rt;
            is_field(password, salt, Magic::Apr1, apr1),
            "{password_len} {salt_len}"
        );
    }
}

// Salts of which the first 8 bytes are the same, and texts that are the field of no digest.
const LONG_SALTS: [&[u8]; 3] = [b"saltsalt", b"saltsalt9", b"saltsaltsaltsaltsalt"];

const NO_FIELDS: [&str; 5] = [
    "",
    "MzDjbImyzEz2m0NTiPzNW",
    "MzDjbImyzEz2m0NTiPzNW2",
    "MzDjbImyzEz2m0NTiPzNW=",
    "MzDjbImyzEz2m0NTiPzNW/.",
];

#[test]
fn salts_cut_and_fields_refused(rt: HostRuntime) {
    for salt in LONG_SALTS {
        let is = is_field(
            front(PASSWORD, 1),
            salt,
            Magic::Md5,
            "MzDjbImyzEz2m0NTiPzNW/",
        );
        assert!(rt; is, "{}", salt.len());
    }
    for text in NO_FIELDS {
        assert!(rt; decode_md5(text.as_bytes()) == None, "{text}");
    }
}

// Identifiers and their magic.
const MAGICS: [(&str, Option<Magic>); 7] = [
    ("1", Some(Magic::Md5)),
    ("apr1", Some(Magic::Apr1)),
    ("", None),
    ("11", None),
    ("5", None),
    ("apr", None),
    ("APR1", None),
];

#[test]
fn magics(rt: HostRuntime) {
    for (id, magic) in MAGICS {
        assert!(rt; magic_of(id) == magic, "{id}");
    }
}

// A magic, a password, a text with any identifier and the verdict on its fields. The matches are as `openssl passwd -1`
// and `-apr1` give them.
const VERDICTS: [(Magic, &str, &str, Result<bool, Md5Fault>); 11] = [
    (
        Magic::Apr1,
        "myPassword",
        "$apr1$r31.....$HqJZimcKQFAMYayBlzkrA/",
        Ok(true),
    ),
    (
        Magic::Md5,
        "myPassword",
        "$apr1$r31.....$HqJZimcKQFAMYayBlzkrA/",
        Ok(false),
    ),
    (
        Magic::Md5,
        "a",
        "$1$saltsalt$MzDjbImyzEz2m0NTiPzNW/",
        Ok(true),
    ),
    (
        Magic::Md5,
        "b",
        "$1$saltsalt$MzDjbImyzEz2m0NTiPzNW/",
        Ok(false),
    ),
    (Magic::Md5, "", "$1$salt$UsdFqFVB.FsuinRDK5eE..", Ok(true)),
    (Magic::Md5, "x", "$1", Err(Md5Fault::NoSalt)),
    (Magic::Md5, "x", "$1$a", Err(Md5Fault::NoHash)),
    (Magic::Md5, "x", "$1$a$b$c", Err(Md5Fault::Trailing)),
    (
        Magic::Md5,
        "x",
        "$1$saltsalts$x",
        Err(Md5Fault::SaltTooLong),
    ),
    (Magic::Md5, "x", "$1$a$x", Err(Md5Fault::Base64)),
    (Magic::Apr1, "x", "$apr1$a$x", Err(Md5Fault::Base64)),
];

#[test]
fn verdicts(rt: HostRuntime) {
    for (magic, password, stored, verdict) in VERDICTS {
        let Ok(text) = PasswordHashRef::new(stored) else {
            panic!(rt; "{stored}");
        };
        assert!(rt; password.len() <= 4096);
        assert!(rt;
            md5_verdict(magic, password.as_bytes(), text.fields()) == verdict,
            "{stored}"
        );
    }
}

#[test]
fn laws_stand(rt: HostRuntime) {
    laws::field_of_some_digest();
    laws::field_once();
    assert!(rt; laws::round_trip_md5(&[7; 16]) == Some([7; 16]));
}
