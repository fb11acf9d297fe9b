//! The texts of the makers, beside those of outside programs: libxcrypt's crypt_gensalt(3) and crypt(3) for bcrypt and yescrypt,
//! the program argon2, and Python's hashlib for the key of PBKDF2.

use crate::any::pwcheck_check_any;
use crate::any_tests::NONE;
use crate::makers::{
    pwcheck_argon2id_text, pwcheck_bcrypt_text, pwcheck_pbkdf2_sha256_text, pwcheck_yescrypt_text,
};
use crate::scrypt_text::pwcheck_scrypt_text;
use crate::sha_text::{pwcheck_sha256_crypt_text, pwcheck_sha512_crypt_text};
use crate::statuses::{DONE, NO_ROOM, OUT_OF_RANGE, REFUSED_LENGTH, REFUSED_UTF8, REFUSED_ZERO};

const HORSE: &[u8] = b"correct horse";

const UMLAUTS: &[u8] = b"p\xc3\xa4ssw\xc3\xb6rd";

const SALT: &[u8] = b"0123456789abcdef";

const OTHER_SALT: &[u8] = b"\x00\xff\x10\x7f\x80\x01\x02\x03\xc8\x0a\x0d\x09\x24\x3d\x2c\x3a";

// The bytes that stand in a buffer before a call.
const OLD: [u8; 104] = [0xa5; 104];

const LONG: [u8; 4_097] = [b'a'; 4_097];

// Whether a text stands at the front of a buffer, and the bytes behind it are as they were.
fn is_put(out: &[u8], text: &[u8]) -> bool {
    out.starts_with(text) && out.iter().skip(text.len()).all(|b| *b == 0xa5)
}

#[test]
fn bcrypt(rt: HostRuntime) {
    let (mut out, mut len) = (OLD, 99);
    assert!(rt;
        pwcheck_bcrypt_text(rt.alloc(), HORSE, SALT, 4, &mut out[..59], &mut len) == NO_ROOM
    );
    assert!(rt; out == OLD && len == 99);
    assert!(rt; pwcheck_bcrypt_text(rt.alloc(), HORSE, SALT, 4, &mut out[..60], &mut len) == DONE);
    let text = b"$2b$04$KBCwKxOzLha2MUDgW0PjXexGfB5dmDvvvgEVjeeXiTo87i0yXWYau";
    assert!(rt; is_put(&out, text) && len == 60);
    assert!(rt;
        pwcheck_bcrypt_text(rt.alloc(), UMLAUTS, OTHER_SALT, 4, &mut out, &mut len) == DONE
    );
    let text = b"$2b$04$.N6Od2./.eNGAeyHHByqMemQaBp7sKo1iEB7ASdrXW0gs7NPNPqAS";
    assert!(rt; is_put(&out, text) && len == 60);
    assert!(rt; pwcheck_check_any(rt.alloc(), UMLAUTS, text, &NONE) == 0);
}

#[test]
fn yescrypt(rt: HostRuntime) {
    let (mut out, mut len) = (OLD, 99);
    assert!(rt;
        pwcheck_yescrypt_text(rt.alloc(), HORSE, SALT, 10, 8, 0, &mut out[..72], &mut len)
            == NO_ROOM
    );
    assert!(rt; out == OLD && len == 99);
    assert!(rt;
        pwcheck_yescrypt_text(rt.alloc(), HORSE, SALT, 10, 8, 0, &mut out[..73], &mut len) == DONE
    );
    let text = b"$y$j75$k2XAnEHBqQ1Ct2aMXFKNa/$E9XAySfP6N2THWdzNKesSVmhpcmhNusa8y5TMfT668.";
    assert!(rt; is_put(&out, text) && len == 73);
    assert!(rt;
        pwcheck_yescrypt_text(
            rt.alloc(),
            UMLAUTS,
            OTHER_SALT,
            11,
            8,
            0,
            &mut out,
            &mut len
        ) == DONE
    );
    let text = b"$y$j85$.wD2z/M.0A.m8oE0Yo19u.$mRcakYmkOiN6comrKDDVNs3mRvts2RK4VR0BJhpdwQ6";
    assert!(rt; is_put(&out, text) && len == 73);
    assert!(rt; pwcheck_check_any(rt.alloc(), UMLAUTS, text, &NONE) == 0);
}

#[test]
fn argon2id(rt: HostRuntime) {
    let (mut out, mut len) = (OLD, 99);
    assert!(rt;
        pwcheck_argon2id_text(rt.alloc(), HORSE, SALT, 64, 2, 2, &mut out[..93], &mut len)
            == NO_ROOM
    );
    assert!(rt; out == OLD && len == 99);
    assert!(rt;
        pwcheck_argon2id_text(rt.alloc(), HORSE, SALT, 64, 2, 2, &mut out[..94], &mut len) == DONE
    );
    let text =
        b"$argon2id$v=19$m=64,t=2,p=2$MDEyMzQ1Njc4OWFiY2RlZg$ehqGRlXhNY90u1mXokuaGpor9OaG4WSZVb4jCfev4ys";
    assert!(rt; is_put(&out, text) && len == 94);
    assert!(rt; pwcheck_check_any(rt.alloc(), HORSE, text, &NONE) == 0);
}

#[test]
fn pbkdf2(rt: HostRuntime) {
    let (mut out, mut len) = (OLD, 99);
    assert!(rt;
        pwcheck_pbkdf2_sha256_text(rt.alloc(), HORSE, SALT, 1_000, &mut out[..92], &mut len)
            == NO_ROOM
    );
    assert!(rt; out == OLD && len == 99);
    assert!(rt;
        pwcheck_pbkdf2_sha256_text(rt.alloc(), HORSE, SALT, 1_000, &mut out[..93], &mut len) == DONE
    );
    let text =
        b"$pbkdf2-sha256$i=1000,l=32$MDEyMzQ1Njc4OWFiY2RlZg$cBg8D2DungRB9k76szThf5ehfyBz991ay6PT8Srwk4M";
    assert!(rt; is_put(&out, text) && len == 93);
    assert!(rt;
        pwcheck_pbkdf2_sha256_text(rt.alloc(), UMLAUTS, OTHER_SALT, 1_000, &mut out, &mut len)
            == DONE
    );
    let text =
        b"$pbkdf2-sha256$i=1000,l=32$AP8Qf4ABAgPICg0JJD0sOg$05uq9dhm6GXA5r7h0RLgC5rAF8+m9FlKRy+TFi/9leY";
    assert!(rt; is_put(&out, text) && len == 93);
    assert!(rt; pwcheck_check_any(rt.alloc(), UMLAUTS, text, &NONE) == 0);
}

// The first cause of each call, by its status; and nothing is written.
#[test]
fn refused_passwords(rt: HostRuntime) {
    let (mut out, mut len) = (OLD, 99);
    assert!(rt;
        pwcheck_bcrypt_text(rt.alloc(), &LONG[..73], SALT, 4, &mut out, &mut len) == REFUSED_LENGTH
            && pwcheck_yescrypt_text(rt.alloc(), &LONG, SALT, 10, 8, 0, &mut out, &mut len)
                == REFUSED_LENGTH
            && pwcheck_argon2id_text(rt.alloc(), &LONG, SALT, 64, 2, 2, &mut out, &mut len)
                == REFUSED_LENGTH
            && pwcheck_pbkdf2_sha256_text(rt.alloc(), &LONG, SALT, 1, &mut out, &mut len)
                == REFUSED_LENGTH
    );
    assert!(rt;
        pwcheck_bcrypt_text(rt.alloc(), b"\xff\0", SALT, 4, &mut out, &mut len) == REFUSED_UTF8
            && pwcheck_yescrypt_text(rt.alloc(), b"\xc3", SALT, 10, 8, 0, &mut out, &mut len)
                == REFUSED_UTF8
            && pwcheck_argon2id_text(rt.alloc(), b"p\xe4", SALT, 64, 2, 2, &mut out, &mut len)
                == REFUSED_UTF8
            && pwcheck_pbkdf2_sha256_text(rt.alloc(), b"\xff", SALT, 1, &mut out, &mut len)
                == REFUSED_UTF8
    );
    assert!(rt;
        pwcheck_bcrypt_text(rt.alloc(), b"a\0b", SALT, 4, &mut out, &mut len) == REFUSED_ZERO
            && pwcheck_yescrypt_text(rt.alloc(), b"\0", SALT, 10, 8, 0, &mut out, &mut len)
                == REFUSED_ZERO
    );
    assert!(rt; out == OLD && len == 99);
    assert!(rt;
        pwcheck_bcrypt_text(rt.alloc(), &LONG[..72], SALT, 4, &mut out, &mut len) == DONE
            && len == 60
    );
    assert!(rt;
        pwcheck_pbkdf2_sha256_text(rt.alloc(), b"a\0b", SALT, 1, &mut out, &mut len) == DONE
            && len == 90
    );
}

#[test]
fn refused_numbers(rt: HostRuntime) {
    let (mut out, mut len) = (OLD, 99);
    for cost in [3, 32] {
        let got = pwcheck_bcrypt_text(rt.alloc(), HORSE, SALT, cost, &mut out, &mut len);
        assert!(rt; got == OUT_OF_RANGE);
    }
    for (ln, r, t) in [(1, 8, 0), (10, 0, 0), (10, 8, 1_025)] {
        let got = pwcheck_yescrypt_text(rt.alloc(), HORSE, SALT, ln, r, t, &mut out, &mut len);
        assert!(rt; got == OUT_OF_RANGE);
    }
    for (memory, passes, lanes) in [(15, 2, 2), (64, 0, 2), (64, 2, 0), (3, 65_536, 4)] {
        let got = pwcheck_argon2id_text(
            rt.alloc(),
            HORSE,
            SALT,
            memory,
            passes,
            lanes,
            &mut out,
            &mut len,
        );
        assert!(rt; got == OUT_OF_RANGE);
    }
    for rounds in [0, 10_000_001] {
        let got = pwcheck_pbkdf2_sha256_text(rt.alloc(), HORSE, SALT, rounds, &mut out, &mut len);
        assert!(rt; got == OUT_OF_RANGE);
    }
    assert!(rt;
        pwcheck_bcrypt_text(rt.alloc(), HORSE, &SALT[..15], 4, &mut out, &mut len) == OUT_OF_RANGE
            && pwcheck_yescrypt_text(rt.alloc(), HORSE, b"", 10, 8, 0, &mut out, &mut len)
                == OUT_OF_RANGE
            && pwcheck_argon2id_text(rt.alloc(), HORSE, &LONG[..17], 64, 2, 2, &mut out, &mut len)
                == OUT_OF_RANGE
            && pwcheck_pbkdf2_sha256_text(rt.alloc(), HORSE, &SALT[..8], 1, &mut out, &mut len)
                == OUT_OF_RANGE
    );
    assert!(rt; out == OLD && len == 99);
}

// Buffers one byte too short for texts that would take minutes to hours, or 2 GiB: the answer comes at once, as nothing is hashed.
#[test]
fn short_buffers(rt: HostRuntime) {
    let (mut out, mut len) = ([0xa5; 128], 99);
    assert!(rt;
        pwcheck_bcrypt_text(rt.alloc(), HORSE, SALT, 31, &mut out[..59], &mut len) == NO_ROOM
            && pwcheck_yescrypt_text(
                rt.alloc(),
                HORSE,
                SALT,
                18,
                32,
                1_024,
                &mut out[..76],
                &mut len
            ) == NO_ROOM
    );
    assert!(rt;
        pwcheck_argon2id_text(
            rt.alloc(),
            HORSE,
            SALT,
            2_097_152,
            8,
            1,
            &mut out[..98],
            &mut len
        ) == NO_ROOM
            && pwcheck_scrypt_text(
                rt.alloc(),
                HORSE,
                SALT,
                17,
                8,
                1_024,
                &mut out[..90],
                &mut len
            ) == NO_ROOM
    );
    assert!(rt;
        pwcheck_pbkdf2_sha256_text(rt.alloc(), HORSE, SALT, 10_000_000, &mut [], &mut len)
            == NO_ROOM
    );
    assert!(rt; out == [0xa5; 128] && len == 99);
}

// The same of SHA-crypt.
#[test]
fn short_buffers_of_sha_crypt(rt: HostRuntime) {
    let (mut short, mut long, mut len) = ([0xa5; 64], [0xa5; 122], 99);
    assert!(rt;
        pwcheck_sha256_crypt_text(HORSE, b"x", 999_999_999, &mut short, &mut len) == NO_ROOM
    );
    assert!(rt;
        pwcheck_sha512_crypt_text(HORSE, SALT, 999_999_999, &mut long, &mut len) == NO_ROOM
    );
    assert!(rt; short == [0xa5; 64] && long == [0xa5; 122] && len == 99);
}

// Causes that are said before the want of room.
#[test]
fn causes_before_room(rt: HostRuntime) {
    let mut len = 99;
    assert!(rt;
        pwcheck_bcrypt_text(rt.alloc(), b"\0", SALT, 31, &mut [], &mut len) == REFUSED_ZERO
    );
    assert!(rt;
        pwcheck_bcrypt_text(rt.alloc(), HORSE, SALT, 32, &mut [], &mut len) == OUT_OF_RANGE
    );
    assert!(rt; pwcheck_sha256_crypt_text(b"\xff", b"x", 5_000, &mut [], &mut len) == OUT_OF_RANGE);
    assert!(rt;
        pwcheck_scrypt_text(rt.alloc(), HORSE, b"x", 4, 8, 1, &mut [], &mut len) == OUT_OF_RANGE
    );
}

// A buffer of just the length, where a number of the text has few digits or many.
#[test]
fn rooms(rt: HostRuntime) {
    let (mut out, mut len) = ([0; 128], 99);
    for (t, n) in [
        (0, 73),
        (1, 75),
        (48, 75),
        (49, 76),
        (560, 76),
        (561, 77),
        (1_024, 77),
    ] {
        let got = pwcheck_yescrypt_text(rt.alloc(), HORSE, SALT, 2, 1, t, &mut out[..n], &mut len);
        assert!(rt; got == DONE && len == n);
        let got = pwcheck_yescrypt_text(
            rt.alloc(),
            HORSE,
            SALT,
            2,
            1,
            t,
            &mut out[..n - 1],
            &mut len,
        );
        assert!(rt; got == NO_ROOM);
    }
    for (rounds, n) in [
        (1, 90),
        (9, 90),
        (10, 91),
        (99, 91),
        (100, 92),
        (9_999, 93),
        (10_000, 94),
    ] {
        let got = pwcheck_pbkdf2_sha256_text(
            rt.alloc(),
            HORSE,
            SALT,
            rounds,
            &mut out[..n],
            &mut len,
        );
        assert!(rt; got == DONE && len == n);
        let got = pwcheck_pbkdf2_sha256_text(
            rt.alloc(),
            HORSE,
            SALT,
            rounds,
            &mut out[..n - 1],
            &mut len,
        );
        assert!(rt; got == NO_ROOM);
    }
    for (rounds, n) in [(4_999, 75), (5_000, 63), (5_001, 75), (10_000, 76)] {
        let got = pwcheck_sha256_crypt_text(HORSE, SALT, rounds, &mut out[..n], &mut len);
        assert!(rt; got == DONE && len == n);
        let got = pwcheck_sha256_crypt_text(HORSE, SALT, rounds, &mut out[..n - 1], &mut len);
        assert!(rt; got == NO_ROOM);
    }
}
