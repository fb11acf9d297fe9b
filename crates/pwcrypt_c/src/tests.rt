//! Each export, on vectors of libxcrypt 4.4.33.

use crate::settings::{pwcrypt_checksalt, pwcrypt_random_len, pwcrypt_setting};
use crate::statuses::{NO_SETTING, TOO_LONG};
use crate::texts::pwcrypt_text;
use c_buffers::{DONE, NO_ROOM};

// A setting, and what libxcrypt's crypt gives for it and the phrase `correct horse`.
const TEXTS: [(&[u8], &[u8]); 5] = [
    (b"$1$salt", b"$1$salt$uXdHrfCd.CnHQasvSgrAO0"),
    (
        b"$2y$04$abcdefghijklmnopqrstuv",
        b"$2y$04$abcdefghijklmnopqrstuujydOTSfIH/d5oUHpsygqV5X9xJLQc6e",
    ),
    (
        b"$7$0/..../....salt",
        b"$7$0/..../....salt$PmFE5E0VYJ1aCKpAOwYC.D0ereLuZm/dsVOFbb.rWRA",
    ),
    (
        b"$y$j/.$salt",
        b"$y$j/.$salt$0fGJAYkwV8Z5xHxVYcDoReSFBoJtjaSy3L07X3cuk/.",
    ),
    (
        b"$sha1$2$salt",
        b"$sha1$2$salt$Nc3KFIdy/X867nMoTCmkPhyMMBf.",
    ),
];

const LONG: [u8; 512] = [b'a'; 512];

#[test]
fn texts(rt: HostRuntime) {
    for &(setting, wanted) in &TEXTS {
        let mut room = [7u8; 100];
        let mut len = 3;
        let status = pwcrypt_text(rt.alloc(), b"correct horse", setting, &mut room, &mut len);
        assert!(rt; status == DONE, "{setting:?} {status}");
        assert!(rt; room.get(..len) == Some(wanted), "{setting:?}");
        assert!(rt; room[99] == 7);
    }
}

#[test]
fn refused(rt: HostRuntime) {
    let mut room = [7u8; 20];
    let mut len = 3;
    let setting = TEXTS[0].0;
    assert!(rt; pwcrypt_text(rt.alloc(), &LONG, setting, &mut room, &mut len) == TOO_LONG);
    assert!(rt; pwcrypt_text(rt.alloc(), b"", b"$9$x", &mut room, &mut len) == NO_SETTING);
    assert!(rt; pwcrypt_text(rt.alloc(), b"", setting, &mut room, &mut len) == NO_ROOM);
    assert!(rt; pwcrypt_setting(b"$9$", 0, &LONG, &mut room, &mut len) == NO_SETTING);
    assert!(rt; pwcrypt_setting(b"$y$", 0, &LONG, &mut room, &mut len) == NO_ROOM);
    assert!(rt; room == [7; 20]);
    assert!(rt; len == 3);
}

#[test]
fn settings(rt: HostRuntime) {
    let mut room = [7u8; 40];
    let mut len = 3;
    let status = pwcrypt_setting(b"$2b$", 12, &LONG[..16], &mut room, &mut len);
    assert!(rt; status == DONE);
    assert!(rt; room.get(..len) == Some(b"$2b$12$WUDfWUDfWUDfWUDfWUDfWO".as_slice()));
    assert!(rt; room[39] == 7);
    assert!(rt; pwcrypt_random_len(b"$5$") == 15);
    assert!(rt; pwcrypt_random_len(b"$9$") == 0);
    assert!(rt; pwcrypt_checksalt(b"$6$salt") == 0);
    assert!(rt; pwcrypt_checksalt(b"$6$sa:lt") == 1);
    assert!(rt; pwcrypt_checksalt(b"$1$salt") == 3);
}
