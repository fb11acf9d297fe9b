//! Texts and new settings of `$sha1`, of libxcrypt 4.4.33.

use crypt_text::{CryptError, crypt_text, new_setting};
use std::alloc::Global;

// A phrase, a setting, and the text that crypt(3) gives for them.
const TEXTS: &[(&[u8], &[u8], &[u8])] = &[
    (
        b"correct horse",
        b"$sha1$1$salt",
        b"$sha1$1$salt$oKbr4.HG9RcEJRc6l6HQ6nN0SjL5",
    ),
    (
        b"correct horse",
        b"$sha1$2$s$hash",
        b"$sha1$2$s$vV.4iEScoays8uMIFO..WwznMQLZ",
    ),
    (
        b"correct horse",
        b"$sha1$+3$./09AZaz$",
        b"$sha1$3$./09AZaz$tSz1uv4mAeqVqDUxie5gLOiwD2Ts",
    ),
    (
        b"correct horse",
        b"$sha1$0019$abcdefgh$x$y$z",
        b"$sha1$19$abcdefgh$hWHsvJ6zVqj82iBGcJG8PazuV5cw",
    ),
    (
        b"correct horse",
        b"$sha1$+00000000000000000000000000000000000000000000005$saltsalt",
        b"$sha1$5$saltsalt$poeZp2BMggCZXd3oLxAFVIIfK4qE",
    ),
    (
        b"correct horse",
        b"$sha1$7$./0123456789ABCDEFGHIJKLMNOPQRSTUVWXYZabcdefghijklmnopqrstuvwxyz",
        b"$sha1$7$./0123456789ABCDEFGHIJKLMNOPQRSTUVWXYZabcdefghijklmnopqrstuvwxyz$hQw4v5fmrxrmuXwlLIcAkcKuPovF",
    ),
    (
        b"correct horse",
        b"$sha1$8$./0123456789ABCDEFGHIJKLMNOPQRSTUVWXYZabcdefghijklmnopqrstuvwxyz$-,~",
        b"$sha1$8$./0123456789ABCDEFGHIJKLMNOPQRSTUVWXYZabcdefghijklmnopqrstuvwxyz$x/AZ206aDDwCcF1ZVnIuCyuaIeBn",
    ),
    (
        b"\x01 $\x7f\x80\xa3\xfe\xff",
        b"$sha1$100$salt",
        b"$sha1$100$salt$nnjQGcxnIXvhvIfYsgtptWVimpMc",
    ),
    (
        b"",
        b"$sha1$1$salt$",
        b"$sha1$1$salt$G9jISTCOzdh3mPgaiRK7IqRFGpP5",
    ),
    (
        &[b'a'; 511],
        b"$sha1$4$salt",
        b"$sha1$4$salt$LjOI.XkIxBDjtBt27bNXhaiXFBaO",
    ),
];

// Whether a phrase has this text by the setting, and by the text itself.
fn is_text(alloc: Global, phrase: &[u8], setting: &[u8], wanted: &[u8]) -> bool {
    for each in [setting, wanted] {
        match crypt_text(alloc, phrase, each) {
            Ok(text) => {
                if text.as_slice() != wanted {
                    return false;
                }
            }
            Err(_) => return false,
        }
    }
    true
}

#[test]
fn texts(rt: HostRuntime) {
    for row in TEXTS {
        assert!(rt; is_text(rt.alloc(), row.0, row.1, row.2), "{:?}", row.1);
    }
}

// Settings that crypt(3) refuses, EINVAL.
const REFUSED: &[&[u8]] = &[
    b"$sha1",
    b"$sha1$",
    b"$sha1$1",
    b"$sha1$1$",
    b"$sha1$1$$x",
    b"$sha1x1$salt",
    b"$sha10$1$salt",
    b"$sha1$x$salt",
    b"$sha1$1x$salt",
    b"$sha1$0x1$salt",
    b"$sha1$+$salt",
    b"$sha1$++1$salt",
    b"$sha1$1$sa-lt",
    b"$sha1$1$salt-$x",
    b"$sha1$1$salt$x:y",
    b"$sha1$ 1$salt",
];

// Settings that are refused here alone: of 0 rounds, of a number below 0, of 2^32 rounds and more, and of a salt above 64 characters.
const REFUSED_HERE: &[&[u8]] = &[
    b"$sha1$$salt",
    b"$sha1$0$salt",
    b"$sha1$00$salt",
    b"$sha1$-0$salt",
    b"$sha1$-18446744073709551615$salt",
    b"$sha1$1$./0123456789ABCDEFGHIJKLMNOPQRSTUVWXYZabcdefghijklmnopqrstuvwxyza",
    b"$sha1$1$./0123456789ABCDEFGHIJKLMNOPQRSTUVWXYZabcdefghijklmnopqrstuvwxyza$x",
    b"$sha1$4294967296$salt",
    b"$sha1$18446744073709551617$salt",
];

// Why a phrase and a setting have no text; nothing, where they have one.
fn cause(alloc: Global, phrase: &[u8], setting: &[u8]) -> Option<CryptError> {
    crypt_text(alloc, phrase, setting).err()
}

#[test]
fn refused(rt: HostRuntime) {
    for setting in REFUSED {
        assert!(rt;
            cause(rt.alloc(), b"correct horse", setting) == Some(CryptError::Setting),
            "{setting:?}"
        );
    }
    for setting in REFUSED_HERE {
        assert!(rt;
            cause(rt.alloc(), b"correct horse", setting) == Some(CryptError::Setting),
            "{setting:?}"
        );
    }
    assert!(rt; cause(rt.alloc(), &[b'a'; 512], b"$sha1$1$salt") == Some(CryptError::TooLong));
}

// A prefix, a count and a number of random bytes, and the setting that crypt_gensalt_rn gives for them.
const NEW: &[(&[u8], u64, usize, &[u8])] = &[
    (b"$sha1", 0, 16, b"$sha1$201015$b8MLK2Dn30qC$"),
    (b"$sha1$", 0, 17, b"$sha1$201015$b8MLK2Dn30qCozge$"),
    (
        b"$sha1$100$salt",
        0,
        20,
        b"$sha1$201015$b8MLK2Dn30qCozgeXtH4$",
    ),
    (b"$sha1", 1, 20, b"$sha1$4$b8MLK2Dn30qCozgeXtH4$"),
    (b"$sha1", 4, 16, b"$sha1$4$b8MLK2Dn30qC$"),
    (b"$sha1", 7, 16, b"$sha1$7$b8MLK2Dn30qC$"),
    (b"$sha1", 8, 16, b"$sha1$7$b8MLK2Dn30qC$"),
    (b"$sha1", 11, 19, b"$sha1$10$b8MLK2Dn30qCozge$"),
    (b"$sha1", 24680, 22, b"$sha1$20551$b8MLK2Dn30qCozgeXtH4$"),
    (
        b"$sha1x",
        262144,
        49,
        b"$sha1$201015$b8MLK2Dn30qCozgeXtH4Gr8W/llxkicNTcTpCa4FxXxggRY6PPPY8J0.$",
    ),
    (
        b"$sha1",
        4294967295,
        50,
        b"$sha1$3354136886$b8MLK2Dn30qCozgeXtH4Gr8W/llxkicNTcTpCa4FxXxggRY6PPPY8J0.tGtP$",
    ),
    (
        b"$sha1",
        4294967296,
        52,
        b"$sha1$3354136886$b8MLK2Dn30qCozgeXtH4Gr8W/llxkicNTcTpCa4FxXxggRY6PPPY8J0.tGtP$",
    ),
    (
        b"$sha1",
        18446744073709551615,
        53,
        b"$sha1$3354136886$b8MLK2Dn30qCozgeXtH4Gr8W/llxkicNTcTpCa4FxXxggRY6PPPY8J0.tGtP$",
    ),
    (
        b"$sha1",
        1000000,
        80,
        b"$sha1$919591$b8MLK2Dn30qCozgeXtH4Gr8W/llxkicNTcTpCa4FxXxggRY6PPPY8J0.tGtP$",
    ),
];

// Whether a prefix, a count and the first random bytes have this new setting.
fn is_new(prefix: &[u8], count: u64, len: usize, wanted: &[u8]) -> bool {
    let mut bytes = [0; 80];
    for i in 0..80usize {
        bytes[i] = ((37 * i + 201) % 256) as u8;
    }
    match bytes
        .get(..len)
        .and_then(|random| new_setting(prefix, count, random))
    {
        Some(setting) => setting.as_slice() == wanted,
        None => false,
    }
}

#[test]
fn new_settings(rt: HostRuntime) {
    for row in NEW {
        assert!(rt; is_new(row.0, row.1, row.2, row.3), "{:?}", row.3);
    }
    for len in [0usize, 3, 15] {
        let random = &[7u8; 15][..len];
        assert!(rt; new_setting(b"$sha1", 0, random).is_none(), "{len}");
    }
}
