//! How often memory is asked for: a test named `takes_N_..` asks N times. `bench/refused_memory.py` refuses each request in turn,
//! and each of these N runs has to end by want of memory, and the next one as usual. So no request is tried again.

use crypt_text::{CryptError, crypt_text};
use std::alloc::Global;
use std::process::Abort;

// Asks for the text of each setting, which is that of the row.
fn all_texts<R: Abort>(rt: &R, alloc: Global, rows: &[(&[u8], &[u8])]) {
    for &(setting, wanted) in rows {
        match crypt_text(alloc, b"correct horse", setting) {
            Ok(text) => assert!(rt; text.as_slice() == wanted, "{setting:?}"),
            Err(CryptError::OutOfMemory) => panic!(rt; "want of memory: {setting:?}"),
            Err(_) => panic!(rt; "no text: {setting:?}"),
        }
    }
}

#[test]
fn takes_0_requests_without_a_table(rt: HostRuntime) {
    all_texts(
        &rt,
        rt.alloc(),
        &[
            (b"$1$", b"$1$$IfI/mw4YSCwcQoW.D.DSu1"),
            (
                b"$5$rounds=1000$",
                b"$5$rounds=1000$$Qq2SZC3NeUzIDXheJm.s6eO00IPVPLvCg7WU75UqFx.",
            ),
            (
                b"$sha1$2$salt",
                b"$sha1$2$salt$Nc3KFIdy/X867nMoTCmkPhyMMBf.",
            ),
            (
                b"$2a$04$abcdefghijklmnopqrstuu",
                b"$2a$04$abcdefghijklmnopqrstuujydOTSfIH/d5oUHpsygqV5X9xJLQc6e",
            ),
        ],
    );
}

#[test]
fn takes_1_request_for_scrypt(rt: HostRuntime) {
    all_texts(
        &rt,
        rt.alloc(),
        &[(
            b"$7$0/..../....",
            b"$7$0/..../....$6VzZ6j.cht12hGWC.xVMZngscoRm2s0UzBYHsJAK06A",
        )],
    );
}

#[test]
fn takes_2_requests_for_yescrypt(rt: HostRuntime) {
    all_texts(
        &rt,
        rt.alloc(),
        &[(
            b"$y$j/.$",
            b"$y$j/.$$yi73bi49yV5gSZpQzcalPHkMerQ2ZZM5Vgw1p7dRmP2",
        )],
    );
}

// Nothing is taken for a setting that is refused.
#[test]
fn takes_0_requests_for_no_setting(rt: HostRuntime) {
    for setting in [
        b"$7$0/..../....a-".as_slice(),
        b"$y$j/.$a".as_slice(),
        b"$9$salt".as_slice(),
    ] {
        let answer = crypt_text(rt.alloc(), b"correct horse", setting);
        let is_refused = matches!(answer, Err(CryptError::Setting));
        let is_wanting = matches!(answer, Err(CryptError::OutOfMemory));
        assert!(rt; !is_wanting, "want of memory: {setting:?}");
        assert!(rt; is_refused, "{setting:?}");
    }
}
