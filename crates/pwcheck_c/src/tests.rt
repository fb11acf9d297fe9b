//! Each export, on vectors from outside: libxcrypt's texts, RFC 7914 and RFC 4648.

use crate::base64::{pwcheck_base64_decode, pwcheck_base64_encode};
use crate::check::{pwcheck_check, pwcheck_check_limited};
use crate::compare::pwcheck_same_bytes;
use crate::digests::{
    pwcheck_sha256_crypt, pwcheck_sha256_crypt_b64, pwcheck_sha512_crypt, pwcheck_sha512_crypt_b64,
};
use crate::keys::pwcheck_scrypt;
use crate::lengths::{pwcheck_base64_decoded_len, pwcheck_base64_encoded_len};
use crate::scrypt_text::pwcheck_scrypt_text;
use crate::sha_check::{pwcheck_sha256_check, pwcheck_sha512_check};
use crate::sha_text::{pwcheck_sha256_crypt_text, pwcheck_sha512_crypt_text};
use crate::statuses::{DONE, NO_ROOM, NOT_BASE64, OUT_OF_RANGE};
use crate::version::pwcheck_version;
use crate::words::pwcheck_word;

// libxcrypt, `crypt("", "$5$rounds=1000$x$")` and the same with 6; the password is empty.
const TEXT_256: &[u8] = b"$5$rounds=1000$x$kIBhdUvT3pHpfTjzR8s1XJu3y/HRJeFxMSffBtF8jx9";

const TEXT_512: &[u8] =
    b"$6$rounds=1000$x$JUgHESfT/mKR2X.Qz/PrkEgBINN.wbH/GsJhhFRcgrb0a4MjVYFixxXtKicccBbv9PSG/n1kVdpVqZiR7Brv1.";

// libxcrypt, `crypt("Hello world!", "$5$saltstring$")`.
const TEXT_DEFAULT: &[u8] = b"$5$saltstring$5B8vYYiY.CVt1RlTTf8KbXBH3hsxY/GNooZaBBGWEc5";

// `hashlib.scrypt(b"password", salt=.., n=16, r=8, p=1, dklen=32)` of Python, over OpenSSL.
const TEXT_SCRYPT: &[u8] =
    b"$scrypt$ln=4,r=8,p=1$aM15713r3Xsvxbi31lqr1Q$tRLzw8Z7aDjv6nXXg/DyMg+8Gut1P9TnqajTcpzrqmM";

// The bytes of its salt.
const SALT: &[u8; 16] = b"\x68\xcd\x79\xef\x5d\xeb\xdd\x7b\x2f\xc5\xb8\xb7\xd6\x5a\xab\xd5";

// The text of a digest that takes hours.
const TEXT_COSTLY: &[u8] = b"$5$rounds=999999999$x$kIBhdUvT3pHpfTjzR8s1XJu3y/HRJeFxMSffBtF8jx9";

// More bytes than a password may have.
const LONG: [u8; 4_097] = [b'a'; 4_097];

// RFC 7914, section 12, N = 16 (its first 8 bytes).
const KEY: [u8; 8] = *b"\x77\xd6\x57\x62\x38\x65\x7b\x20";

#[test]
fn verdicts(rt: HostRuntime) {
    assert!(rt; pwcheck_check(rt.alloc(), b"", TEXT_256) == 0);
    assert!(rt; pwcheck_check(rt.alloc(), b"a", TEXT_512) == 1);
    assert!(rt; pwcheck_check(rt.alloc(), b"\xff", TEXT_256) == 2);
    assert!(rt; pwcheck_check(rt.alloc(), b"", b"\xff") == 2);
    assert!(rt; pwcheck_check(rt.alloc(), b"", b"$5$12345678901234567$x") == 16);
    assert!(rt; pwcheck_check(rt.alloc(), b"", b"$2b$12$abcdefghijklmnopqrstuv") == 22);
    assert!(rt; pwcheck_check(rt.alloc(), b"password", TEXT_SCRYPT) == 0);
    assert!(rt; pwcheck_check(rt.alloc(), b"Password", TEXT_SCRYPT) == 1);
    assert!(rt; pwcheck_check(rt.alloc(), &LONG, b"$") == 4);
    assert!(rt; pwcheck_check(rt.alloc(), &LONG, b"\xff") == 2);
    assert!(rt; pwcheck_check(rt.alloc(), &LONG[..4_096], b"$") == 5);
}

// The answer to a text of many rounds comes at once, as no digest is computed.
#[test]
fn limited(rt: HostRuntime) {
    assert!(rt; pwcheck_check_limited(rt.alloc(), b"", TEXT_COSTLY, 999_999_998, u64::MAX) == 30);
    assert!(rt; pwcheck_check_limited(rt.alloc(), b"", TEXT_256, 999, u64::MAX) == 30);
    assert!(rt; pwcheck_check_limited(rt.alloc(), b"", TEXT_256, 1_000, 0) == 0);
    assert!(rt; pwcheck_check_limited(rt.alloc(), b"a", TEXT_512, 1_000, 0) == 1);
    assert!(rt; pwcheck_check_limited(rt.alloc(), b"a", TEXT_512, 0, u64::MAX) == 30);
    assert!(rt; pwcheck_check_limited(rt.alloc(), b"password", TEXT_SCRYPT, 0, 16_384) == 0);
    assert!(rt; pwcheck_check_limited(rt.alloc(), b"password", TEXT_SCRYPT, 1, 16_383) == 30);
    // Where there is no verdict the cause is answered.
    assert!(rt; pwcheck_check_limited(rt.alloc(), b"\xff", TEXT_COSTLY, 0, 0) == 2);
    assert!(rt; pwcheck_check_limited(rt.alloc(), &LONG, TEXT_COSTLY, 0, 0) == 4);
    assert!(rt; pwcheck_check_limited(rt.alloc(), b"", b"$5$rounds=999999999$x$y", 0, 0) == 17);
    assert!(rt; pwcheck_check_limited(rt.alloc(), b"", &TEXT_SCRYPT[..43], 0, 0) == 28);
    assert!(rt; pwcheck_check_limited(rt.alloc(), b"", b"$", 0, 0) == 5);
}

#[test]
fn family_checks(rt: HostRuntime) {
    assert!(rt; pwcheck_sha256_check(b"", TEXT_256) == 0);
    assert!(rt; pwcheck_sha512_check(b"a", TEXT_512) == 1);
    assert!(rt; pwcheck_sha512_check(b"", b"\xff") == 2);
    assert!(rt; pwcheck_sha512_check(b"", TEXT_256) == 9);
    assert!(rt; pwcheck_sha256_check(b"", b"5$x") == 9);
    assert!(rt; pwcheck_sha256_check(b"", b"$5$rounds=999$x$y") == 15);
    assert!(rt; pwcheck_sha256_check(&LONG[..4_096], b"$5$rounds=999$x$y") == 15);
    assert!(rt; pwcheck_sha256_check(&LONG, TEXT_COSTLY) == 4);
    assert!(rt; pwcheck_sha512_check(&LONG, TEXT_512) == 4);
    assert!(rt; pwcheck_sha512_check(&LONG, b"\xff") == 2);
}

// The words of the answers before those of `any_check` alone, by their numbers; those are in any_tests.
const WORDS: [&str; 31] = [
    "match",
    "mismatch",
    "not-utf8",
    "no-memory",
    "password-too-long",
    "mcf-delimiter",
    "mcf-identifier",
    "mcf-field",
    "mcf-encoding",
    "sha-identifier",
    "sha-format",
    "sha-format",
    "sha-format",
    "sha-format",
    "sha-format",
    "sha-rounds",
    "sha-format",
    "sha-format",
    "phc-name",
    "phc-value-long",
    "phc-value",
    "phc-params-long",
    "phc-salt-short",
    "phc-salt-long",
    "phc-b64",
    "phc-hash-long",
    "phc-hash-short",
    "phc-trailing",
    "no-hash",
    "kdf",
    "over-cost",
];

#[test]
fn words_by_number(rt: HostRuntime) {
    for (i, word) in WORDS.iter().enumerate() {
        let mut out = [b'x'; 18];
        let n = pwcheck_word(i as i32, &mut out);
        assert!(rt;
            n < 18 && &out[..n] == word.as_bytes() && out[n] == 0,
            "{i}"
        );
    }
}

#[test]
fn words(rt: HostRuntime) {
    let mut out = [b'x'; 18];
    assert!(rt; pwcheck_word(4, &mut out) == 17);
    assert_eq!(rt; out.as_slice(), b"password-too-long\0".as_slice());
    assert!(rt; pwcheck_word(0, &mut out[..5]) == 5);
    assert!(rt; out[0] == b'p');
    assert!(rt; pwcheck_word(0, &mut out[..6]) == 5);
    assert_eq!(rt; &out[..7], b"match\0r".as_slice());
    assert!(rt; pwcheck_word(9, &mut out) == 14);
    assert!(rt; pwcheck_word(29, &mut out) == 3);
    assert!(rt; pwcheck_word(1_000, &mut out) == 0);
    assert!(rt; pwcheck_word(-1, &mut out) == 0);
}

#[test]
fn keys(rt: HostRuntime) {
    let mut out = [0u8; 64];
    assert!(rt; pwcheck_scrypt(rt.alloc(), b"", b"", 4, 1, 1, &mut out) == DONE);
    assert_eq!(rt; &out[..8], KEY.as_slice());
    assert!(rt; pwcheck_scrypt(rt.alloc(), b"", b"", 0, 1, 1, &mut out) == OUT_OF_RANGE);
    let mut none = [0u8; 0];
    assert!(rt; pwcheck_scrypt(rt.alloc(), b"", b"", 4, 1, 1, &mut none) == OUT_OF_RANGE);
}

#[test]
fn digests(rt: HostRuntime) {
    let mut short = [0u8; 32];
    let mut long = [0u8; 64];
    assert!(rt; pwcheck_sha256_crypt(b"", b"", 1_000, &mut long) == OUT_OF_RANGE);
    assert!(rt; pwcheck_sha256_crypt(b"", b"", 999, &mut short) == OUT_OF_RANGE);
    assert!(rt; pwcheck_sha256_crypt(&LONG, b"", 1_000, &mut short) == OUT_OF_RANGE);
    assert!(rt; pwcheck_sha512_crypt(&LONG, b"", 1_000, &mut long) == OUT_OF_RANGE);
    assert!(rt; pwcheck_sha256_crypt(b"", b"x", 1_000, &mut short) == DONE);
    assert_eq!(rt; &short[..8], b"\xb4\xb8\x45\xfe\x82\x63\x75\x1a".as_slice());
    assert!(rt; pwcheck_sha512_crypt(b"", b"x", 1_000, &mut long) == DONE);
    assert_eq!(rt; &long[..8], b"\x4e\x90\x6c\x70\x7f\xc4\x01\xfc".as_slice());
}

#[test]
fn hash_fields(rt: HostRuntime) {
    let mut short = [0u8; 43];
    let mut long = [0u8; 86];
    assert!(rt; pwcheck_sha256_crypt_b64(b"", b"x", 1_000, &mut short) == DONE);
    assert_eq!(rt; short.as_slice(), &TEXT_256[17..]);
    assert!(rt; pwcheck_sha512_crypt_b64(b"", b"x", 1_000, &mut long) == DONE);
    assert_eq!(rt; long.as_slice(), &TEXT_512[17..]);
    assert!(rt; pwcheck_sha512_crypt_b64(b"", b"x", 999, &mut long) == OUT_OF_RANGE);
    assert!(rt; pwcheck_sha256_crypt_b64(b"", b"x", 1_000, &mut long) == OUT_OF_RANGE);
    assert!(rt; pwcheck_sha256_crypt_b64(&LONG, b"x", 1_000, &mut short) == OUT_OF_RANGE);
    assert!(rt; pwcheck_sha512_crypt_b64(&LONG, b"x", 1_000, &mut long) == OUT_OF_RANGE);
}

#[test]
fn texts(rt: HostRuntime) {
    let mut short = [0u8; 60];
    let mut long = [0u8; 103];
    let mut len = 99;
    assert!(rt;
        pwcheck_sha256_crypt_text(b"", b"x", 1_000, &mut short[..59], &mut len) == NO_ROOM
            && len == 99
    );
    assert!(rt;
        pwcheck_sha256_crypt_text(b"", b"x", 1_000, &mut short, &mut len) == DONE && len == 60
    );
    assert_eq!(rt; short.as_slice(), TEXT_256);
    assert!(rt;
        pwcheck_sha512_crypt_text(b"", b"x", 1_000, &mut long, &mut len) == DONE && len == 103
    );
    assert_eq!(rt; long.as_slice(), TEXT_512);
    assert!(rt; pwcheck_sha256_crypt_text(b"", b"", 1_000, &mut short, &mut len) == OUT_OF_RANGE);
    assert!(rt; pwcheck_sha256_crypt_text(b"", b"$", 1_000, &mut short, &mut len) == OUT_OF_RANGE);
    assert!(rt;
        pwcheck_sha512_crypt_text(b"", b"12345678901234567", 1_000, &mut short, &mut len)
            == OUT_OF_RANGE
    );
    assert!(rt; pwcheck_sha512_crypt_text(b"", b"x", 999, &mut short, &mut len) == OUT_OF_RANGE);
    // A text is made only of a password that a check can match.
    assert!(rt;
        pwcheck_sha256_crypt_text(b"p\xe4", b"x", 1_000, &mut short, &mut len) == OUT_OF_RANGE
    );
    assert!(rt;
        pwcheck_sha512_crypt_text(b"p\xe4", b"x", 1_000, &mut long, &mut len) == OUT_OF_RANGE
    );
    assert!(rt;
        pwcheck_sha256_crypt_text(&LONG, b"x", 1_000, &mut short, &mut len) == OUT_OF_RANGE
    );
    assert!(rt; pwcheck_sha512_crypt_text(&LONG, b"x", 1_000, &mut long, &mut len) == OUT_OF_RANGE);
}

#[test]
fn scrypt_texts(rt: HostRuntime) {
    let mut short = [b'x'; 86];
    let mut len = 99;
    assert!(rt;
        pwcheck_scrypt_text(rt.alloc(), b"password", SALT, 4, 8, 1, &mut short, &mut len) == NO_ROOM
    );
    assert!(rt; len == 99 && short == [b'x'; 86]);
    let mut out = [b'x'; 87];
    assert!(rt;
        pwcheck_scrypt_text(rt.alloc(), b"password", SALT, 4, 8, 1, &mut out, &mut len) == DONE
    );
    assert!(rt; len == 87);
    assert_eq!(rt; out.as_slice(), TEXT_SCRYPT);
    assert!(rt; pwcheck_check(rt.alloc(), b"password", &out) == 0);
    assert!(rt;
        pwcheck_scrypt_text(rt.alloc(), b"", &SALT[..15], 4, 8, 1, &mut out, &mut len)
            == OUT_OF_RANGE
    );
    assert!(rt;
        pwcheck_scrypt_text(rt.alloc(), b"", SALT, 0, 8, 1, &mut out, &mut len) == OUT_OF_RANGE
    );
    assert!(rt;
        pwcheck_scrypt_text(rt.alloc(), b"\xff", SALT, 4, 8, 1, &mut out, &mut len) == OUT_OF_RANGE
    );
    assert!(rt;
        pwcheck_scrypt_text(rt.alloc(), &LONG, SALT, 4, 8, 1, &mut out, &mut len) == OUT_OF_RANGE
    );
    assert!(rt; len == 87 && out[0] == b'$');
}

#[test]
fn version(rt: HostRuntime) {
    let mut out = [b'x'; 5];
    assert!(rt; pwcheck_version(&mut out[..3]) == 3 && out[0] == b'x');
    assert!(rt; pwcheck_version(&mut out) == 3);
    assert_eq!(rt; out.as_slice(), b"1.1\0x".as_slice());
}

#[test]
fn default_rounds(rt: HostRuntime) {
    let mut out = [0u8; 57];
    let mut len = 0;
    assert!(rt;
        pwcheck_sha256_crypt_text(b"Hello world!", b"saltstring", 5_000, &mut out, &mut len) == DONE
    );
    assert_eq!(rt; out.as_slice(), TEXT_DEFAULT);
}

#[test]
fn coder(rt: HostRuntime) {
    let mut out = [b'x'; 8];
    let mut len = 99;
    assert!(rt; pwcheck_base64_encode(0, b"fo", &mut out, &mut len) == DONE && len == 4);
    assert_eq!(rt; &out[..5], b"Zm8=x".as_slice());
    assert!(rt; pwcheck_base64_encode(0, b"foobar!", &mut out, &mut len) == NO_ROOM && len == 4);
    assert!(rt; pwcheck_base64_decode(0, b"Zm9v", &mut out, &mut len) == DONE && len == 3);
    assert_eq!(rt; &out[..3], b"foo".as_slice());
    assert!(rt; pwcheck_base64_decode(0, b"Zm9", &mut out, &mut len) == NOT_BASE64 && len == 3);
    assert!(rt; pwcheck_base64_decode(1, b"Zm9", &mut out[..1], &mut len) == NO_ROOM);
    assert!(rt; pwcheck_base64_decode(8, b"", &mut out, &mut len) == OUT_OF_RANGE);
    assert!(rt; pwcheck_base64_encode(8, b"", &mut out, &mut len) == OUT_OF_RANGE);
    assert!(rt; pwcheck_same_bytes(b"foo", &out[..3]));
    assert!(rt; !pwcheck_same_bytes(b"fop", b"foo"));
}

#[test]
fn lengths(rt: HostRuntime) {
    assert!(rt; pwcheck_base64_encoded_len(0, 7) == 12 && pwcheck_base64_encoded_len(1, 7) == 10);
    assert!(rt; pwcheck_base64_encoded_len(7, 32) == 43 && pwcheck_base64_encoded_len(7, 64) == 86);
    assert!(rt; pwcheck_base64_encoded_len(0, 0) == 0 && pwcheck_base64_encoded_len(8, 7) == 0);
    assert!(rt; pwcheck_base64_encoded_len(0, usize::MAX / 4 + 1) == 0);
    assert!(rt;
        pwcheck_base64_decoded_len(0, b"Zg==") == 1 && pwcheck_base64_decoded_len(1, b"Zg") == 1
    );
    assert!(rt;
        pwcheck_base64_decoded_len(2, b"Zm9vYmE=") == 5
            && pwcheck_base64_decoded_len(7, b"Zg==") == 3
    );
    assert!(rt; pwcheck_base64_decoded_len(8, b"Zg==") == 0);
}
