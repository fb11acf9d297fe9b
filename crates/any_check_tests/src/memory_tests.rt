//! How often memory is asked for: a test named `takes_N_..` asks N times. `bench/refused_memory.py` refuses each request in turn,
//! and each of these N runs has to end by want of memory, and the next one as usual. So no request is tried again, none is made
//! that isn't needed, and a kept table is used again.

use crate::tests::{dear, faults, least, texts};
use any_check::{
    AnyCheck, AnyError, CostFamily, PlainRecords, check_any, check_any_within, record_kdf,
    scheme_of_text,
};
use std::alloc::Global;
use std::process::Abort;
use stored_check::StoredError;
use yescrypt_plain::CryptKept;

const SCRYPT: &str =
    "$scrypt$ln=4,r=8,p=1$c2FsdHNhbHRzYWx0$09/untC+3Bg44eiJQ8bqhTXgE2ali+ykLaojkJZlF9U";

const ARGON2: &str =
    "$argon2id$v=19$m=64,t=1,p=1$c2FsdHNhbHRzYWx0$Sm3MnLdCFk0Af+croKgebRoqqmhbKd88iiW3yUOXn78";

const PBKDF2: &str =
    "$pbkdf2-sha256$i=1000,l=32$c2FsdHNhbHRzYWx0$sVaWem31qy3rw+Ldi3plA/XzhMSNi9/XHnnD1Ytj05o";

// Checks each text against the password `secret`, which matches, and another; then all of them once more.
fn all_match<R: Abort>(rt: &R, alloc: Global, texts: &[&str]) {
    let kdf = record_kdf(alloc);
    let kept = CryptKept::new(alloc);
    for _ in 0..2 {
        for stored in texts {
            let answer = check_any(alloc, &kdf, &kept, "secret", stored);
            let is_wanting = answer == Err(AnyError::Stored(StoredError::OutOfMemory));
            assert!(rt; !is_wanting, "want of memory: {stored}");
            assert!(rt; answer == Ok(true), "{stored}");
        }
    }
}

// Whether a text takes no table, by what texts of its scheme ask for.
fn is_without_a_table(stored: &str) -> bool {
    match scheme_of_text(stored) {
        Some(scheme) => match scheme.family() {
            CostFamily::NoNumber
            | CostFamily::ShaCrypt
            | CostFamily::Bcrypt
            | CostFamily::Pbkdf2Sha256
            | CostFamily::Pbkdf2Sha512 => true,
            CostFamily::Yescrypt | CostFamily::Scrypt | CostFamily::Argon2 => false,
        },
        None => false,
    }
}

#[test]
fn takes_0_requests_without_a_table(rt: HostRuntime) {
    let mut count: u64 = 0;
    for stored in texts() {
        if is_without_a_table(stored) {
            all_match(&rt, rt.alloc(), &[*stored]);
            count = count.saturating_add(1);
        }
    }
    assert!(rt; count == 24, "{count}");
}

#[test]
fn takes_1_request_for_a_record_of_scrypt(rt: HostRuntime) {
    all_match(&rt, rt.alloc(), &[SCRYPT]);
}

// The second text's table has room in that of the first.
#[test]
fn takes_1_request_for_records_of_argon2(rt: HostRuntime) {
    all_match(
        &rt,
        rt.alloc(),
        &[
            "$argon2d$v=19$m=128,t=1,p=1$c2FsdHNhbHRzYWx0$cnmEAHaXnZyNK8al32lcZA",
            "$argon2id$v=19$m=64,t=1,p=1$c2FsdHNhbHRzYWx0$Sm3MnLdCFk0Af+croKgebRoqqmhbKd88iiW3yUOXn78",
            "$argon2i$v=19$m=64,t=2,p=2$c2FsdHNhbHRzYWx0$vtdpD5eGGsEQdYh52JSgUbWdj2vdH1FR/Ncvk1mmMU8",
        ],
    );
}

#[test]
fn takes_2_requests_for_yescrypt(rt: HostRuntime) {
    let stored = "$y$j75$0123456789ab$kb1fsIrDP1wOa4Q3gNpxZkfwQ3ce8kmPbnemuN65IT2";
    all_match(&rt, rt.alloc(), &[stored]);
}

#[test]
fn takes_1_request_for_scrypt_of_crypt(rt: HostRuntime) {
    let stored = "$7$4/....0....SodiumChloride$V4S.p0ArbLXh9bvI9g1ReO/qmFMyvEX4e98XynaDdN9";
    all_match(&rt, rt.alloc(), &[stored]);
}

// The verdict with the tables that it keeps: the second turn takes none.
#[test]
fn takes_2_requests_by_known_verdicts(rt: HostRuntime) {
    let check = AnyCheck::new(rt.alloc(), None);
    for _ in 0..2 {
        for stored in [SCRYPT, ARGON2] {
            let answer = check.known_verdict("secret", stored);
            assert!(rt; answer != None, "want of memory: {stored}");
            assert!(rt; answer == Some(Ok(true)), "{stored}");
            assert!(rt; check.verdict("Secret", stored) == Ok(false), "{stored}");
        }
    }
}

// Where no table is kept, each key takes one.
#[test]
fn takes_2_requests_for_keys_in_tables_of_their_own(rt: HostRuntime) {
    let kept = CryptKept::new(rt.alloc());
    for stored in [SCRYPT, ARGON2, PBKDF2] {
        let answer = check_any(rt.alloc(), &PlainRecords, &kept, "secret", stored);
        let is_wanting = answer == Err(AnyError::Stored(StoredError::OutOfMemory));
        assert!(rt; !is_wanting, "want of memory: {stored}");
        assert!(rt; answer == Ok(true), "{stored}");
    }
}

// Nothing is taken before a text is read.
#[test]
fn takes_0_requests_for_texts_without_a_verdict(rt: HostRuntime) {
    let kdf = record_kdf(rt.alloc());
    let kept = CryptKept::new(rt.alloc());
    for (stored, _) in faults() {
        let answer = check_any(rt.alloc(), &kdf, &kept, "secret", stored);
        let is_wanting = answer == Err(AnyError::Stored(StoredError::OutOfMemory));
        assert!(rt; answer.is_err() && !is_wanting, "{stored}");
    }
}

// Nor above a bound.
#[test]
fn takes_0_requests_above_a_bound(rt: HostRuntime) {
    let kdf = record_kdf(rt.alloc());
    let kept = CryptKept::new(rt.alloc());
    for stored in dear() {
        let answer = check_any_within(rt.alloc(), &kdf, &kept, &least(), "secret", stored);
        assert!(rt; answer == Err(AnyError::TooCostly), "{stored}");
    }
}
