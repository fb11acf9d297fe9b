//! Causes in their order, and verdicts.

ghost use Rattle.std.specs.Prelude.{false, replicate, true};
ghost use Rattle.std.proofs.lemmas.List.{length-replicate};

use base64ct::Counts;
use phc::PasswordHash;
use std::alloc::{AllocError, Global};
use stored_check::{
    McfFault, PhcFault, PhcKdf, ShaFault, ShaFormat, StoredError, check_stored,
    check_stored_counted, laws, mcf_name, normal_text, word, write_normal,
};

// A derivation of zeros, for every record and without memory.
struct Zeros;

impl PhcKdf for Zeros {
    ghost accepted = { λ _ _ _ _. true };

    ghost needs_memory = { λ _ _. false };

    ghost tag = { λ _ _ _ _ n. replicate n 0 };

    ghost tag_length = { λ _ _ _ _ n. length-replicate n 0 };

    fn accepts(&self, _parsed: &PasswordHash, _salt: &[u8], _length: usize) -> bool {
        true
    }

    fn derive(
        &self,
        _alloc: Global,
        _password: &[u8],
        _parsed: &PasswordHash,
        _salt: &[u8],
        out: &mut [u8],
    ) -> Result<(), AllocError> {
        out.fill(0);
        Ok(())
    }
}

// A derivation that never finds memory.
struct Poor;

impl PhcKdf for Poor {
    ghost accepted = { λ _ _ _ _. true };

    ghost needs_memory = { λ _ _. true };

    ghost tag = { λ _ _ _ _ n. replicate n 0 };

    ghost tag_length = { λ _ _ _ _ n. length-replicate n 0 };

    fn accepts(&self, _parsed: &PasswordHash, _salt: &[u8], _length: usize) -> bool {
        true
    }

    fn derive(
        &self,
        _alloc: Global,
        _password: &[u8],
        _parsed: &PasswordHash,
        _salt: &[u8],
        _out: &mut [u8],
    ) -> Result<(), AllocError> {
        Err(AllocError)
    }
}

// A stored text, and the verdict on it with the password `Hello world!`.
const VERDICTS: [(&str, Result<bool, StoredError>); 29] = [
    ("", Err(StoredError::Mcf(McfFault::DelimiterInvalid))),
    ("$", Err(StoredError::Mcf(McfFault::DelimiterInvalid))),
    ("$5$", Err(StoredError::Mcf(McfFault::DelimiterInvalid))),
    ("$$foo", Err(StoredError::Mcf(McfFault::IdentifierInvalid))),
    (
        "$foo-$bar",
        Err(StoredError::Mcf(McfFault::IdentifierInvalid)),
    ),
    ("$-a$x", Err(StoredError::Mcf(McfFault::IdentifierInvalid))),
    ("$6$$x", Err(StoredError::Mcf(McfFault::FieldInvalid))),
    ("$6$a b$x", Err(StoredError::Mcf(McfFault::EncodingInvalid))),
    (
        "$2a$12$R9h/cIPz0gi.URNNX3kh2OPST9/PgBkqquzi.Ss7KIUgO2t0jWMUW",
        Err(StoredError::Phc(PhcFault::SaltTooShort)),
    ),
    ("$x", Err(StoredError::NoHash)),
    ("$x$abcdabcdabc", Err(StoredError::NoHash)),
    (
        "$x$abcdabcdabc$AAAA",
        Err(StoredError::Phc(PhcFault::OutputSize)),
    ),
    ("$x$abcdabcdabc$AAAAAAAAAAAAAA", Ok(true)),
    ("$x$abcdabcdabc$AAAAAAAAAAAAAQ", Ok(false)),
    (
        "$5",
        Err(StoredError::Sha(ShaFault::InvalidFormat(ShaFormat::NoFields))),
    ),
    (
        "$5$rounds=5000",
        Err(StoredError::Sha(ShaFault::InvalidFormat(ShaFormat::NoSalt))),
    ),
    (
        "$6$rounds=x$s",
        Err(StoredError::Sha(ShaFault::InvalidFormat(ShaFormat::RoundsNotNumber))),
    ),
    (
        "$5$a",
        Err(StoredError::Sha(ShaFault::InvalidFormat(ShaFormat::NoHash))),
    ),
    (
        "$5$a$b$c",
        Err(StoredError::Sha(ShaFault::InvalidFormat(ShaFormat::Trailing))),
    ),
    (
        "$5$rounds=999$s$x",
        Err(StoredError::Sha(ShaFault::RoundsError)),
    ),
    (
        "$5$rounds=0$s$x",
        Err(StoredError::Sha(ShaFault::RoundsError)),
    ),
    (
        "$5$rounds=01000$s$x",
        Err(StoredError::Sha(ShaFault::InvalidFormat(ShaFormat::RoundsNotNumber))),
    ),
    (
        "$5$rounds=+05000$saltstring$5B8vYYiY.CVt1RlTTf8KbXBH3hsxY/GNooZaBBGWEc5",
        Err(StoredError::Sha(ShaFault::InvalidFormat(ShaFormat::RoundsNotNumber))),
    ),
    (
        "$5$saltstringsaltstr$x",
        Err(StoredError::Sha(ShaFault::InvalidFormat(ShaFormat::SaltTooLong))),
    ),
    (
        "$6$s$x",
        Err(StoredError::Sha(ShaFault::InvalidFormat(ShaFormat::Base64))),
    ),
    (
        "$5$saltstring$5B8vYYiY.CVt1RlTTf8KbXBH3hsxY/GNooZaBBGWEc5",
        Ok(true),
    ),
    (
        "$5$saltstring$5B8vYYiY.CVt1RlTTf8KbXBH3hsxY/GNooZaBBGWEc8",
        Ok(false),
    ),
    (
        "$6$saltstring$svn8UoSVapNtMuq1ukKS4tPQd8iKwSMHWjl/O817G3uBnIFNjnQJuesI68u4OTLiBFdcbYEdFCoEOfaS35inz1",
        Ok(true),
    ),
    (
        "$6$saltstring$5B8vYYiY.CVt1RlTTf8KbXBH3hsxY/GNooZaBBGWEc5",
        Err(StoredError::Sha(ShaFault::InvalidFormat(ShaFormat::Base64))),
    ),
];

#[test]
fn verdicts(rt: HostRuntime) {
    for (stored, verdict) in VERDICTS {
        assert!(rt;
            check_stored(rt.alloc(), &Zeros, "Hello world!", stored) == verdict,
            "{stored}"
        );
    }
}

#[test]
fn long_passwords(rt: HostRuntime) {
    let letters = [b'a'; 4_097];
    let Ok(long) = str::from_utf8(&letters) else {
        panic!(rt; "letters are text")
    };
    assert!(rt; check_stored(rt.alloc(), &Zeros, long, "$") == Err(StoredError::PasswordTooLong));
    let Ok(longest) = str::from_utf8(&letters[..4_096]) else {
        panic!(rt; "letters are text")
    };
    assert!(rt;
        check_stored(rt.alloc(), &Zeros, longest, "$")
            == Err(StoredError::Mcf(McfFault::DelimiterInvalid))
    );
}

// A stored text, and the look-ups and comparisons of its verdict.
const COUNTS: [(&str, u64, u64); 3] = [
    (
        "$5$saltstring$5B8vYYiY.CVt1RlTTf8KbXBH3hsxY/GNooZaBBGWEc5",
        44,
        36,
    ),
    (
        "$6$saltstring$svn8UoSVapNtMuq1ukKS4tPQd8iKwSMHWjl/O817G3uBnIFNjnQJuesI68u4OTLiBFdcbYEdFCoEOfaS35inz1",
        88,
        68,
    ),
    ("$x$abcdabcdabc$AAAAAAAAAAAAAA", 28, 18),
];

#[test]
fn counts_of_verdicts(rt: HostRuntime) {
    for (stored, looks, sames) in COUNTS {
        let mut counts = Counts::new();
        let answer = check_stored_counted(rt.alloc(), &Zeros, "Hello world!", stored, &mut counts);
        assert!(rt; answer == Ok(true), "{stored}");
        assert!(rt;
            (counts.looks(), counts.sames()) == (looks, sames),
            "{stored}"
        );
    }
}

#[test]
fn want_of_memory(rt: HostRuntime) {
    let text = "$x$abcdabcdabc$AAAAAAAAAAAAAA";
    assert!(rt; check_stored(rt.alloc(), &Poor, "a", text) == Err(StoredError::OutOfMemory));
    assert!(rt; check_stored(rt.alloc(), &Poor, "a", "$x") == Err(StoredError::NoHash));
    let text = "$5$saltstring$5B8vYYiY.CVt1RlTTf8KbXBH3hsxY/GNooZaBBGWEc5";
    assert!(rt; check_stored(rt.alloc(), &Poor, "Hello world!", text) == Ok(true));
    laws::no_want_of_memory();
    laws::hash_field_of_a_verdict();
    laws::faults_by_their_names();
}

// A stored text, its normal text, and the verdict on that with the password `Hello world!`.
const NORMAL_TEXTS: [(&str, &str, Result<bool, StoredError>); 7] = [
    (
        "$5$rounds=+05000$saltstring$5B8vYYiY.CVt1RlTTf8KbXBH3hsxY/GNooZaBBGWEc5",
        "$5$rounds=5000$saltstring$5B8vYYiY.CVt1RlTTf8KbXBH3hsxY/GNooZaBBGWEc5",
        Ok(true),
    ),
    (
        "$5$saltstringsaltstring$a5C8Ofk71MUIoKve2QuP9FMl.dwNgseF5tR1LGAL7iB",
        "$5$saltstringsaltst$a5C8Ofk71MUIoKve2QuP9FMl.dwNgseF5tR1LGAL7iB",
        Ok(true),
    ),
    (
        "$5$saltstring$5B8vYYiY.CVt1RlTTf8KbXBH3hsxY/GNooZaBBGWEc5",
        "$5$saltstring$5B8vYYiY.CVt1RlTTf8KbXBH3hsxY/GNooZaBBGWEc5",
        Ok(true),
    ),
    (
        "$5$rounds=999$s$x",
        "$5$rounds=999$s$x",
        Err(StoredError::Sha(ShaFault::RoundsError)),
    ),
    (
        "$2a$12$R9h/cIPz0gi.URNNX3kh2OPST9/PgBkqquzi.Ss7KIUgO2t0jWMUW",
        "$2a$12$R9h/cIPz0gi.URNNX3kh2OPST9/PgBkqquzi.Ss7KIUgO2t0jWMUW",
        Err(StoredError::Phc(PhcFault::SaltTooShort)),
    ),
    (
        "$6$\u{e9}$x",
        "$6$\u{e9}$x",
        Err(StoredError::Mcf(McfFault::EncodingInvalid)),
    ),
    ("", "", Err(StoredError::Mcf(McfFault::DelimiterInvalid))),
];

#[test]
fn normal_texts(rt: HostRuntime) {
    for (stored, normal, verdict) in NORMAL_TEXTS {
        assert!(rt; stored.len() <= 100 && normal.len() <= 100);
        // The text stands at the front of its room, and the rest stays as it was.
        let mut expected = [b'x'; 100];
        expected[..normal.len()].copy_from_slice(normal.as_bytes());
        let mut room = [b'x'; 100];
        assert!(rt; normal_text(stored, &mut room) == normal, "{stored}");
        assert!(rt; room == expected, "{stored}");
        let mut room = [b'x'; 100];
        assert!(rt; write_normal(stored, &mut room) == normal.len(), "{stored}");
        assert!(rt; room == expected, "{stored}");
        assert!(rt;
            check_stored(rt.alloc(), &Zeros, "Hello world!", normal) == verdict,
            "{stored}"
        );
        laws::normal_verdict(&Zeros, b"Hello world!", stored.as_bytes());
        laws::normal_twice(stored.as_bytes());
    }
    laws::normal_of_other_bytes();
}

#[test]
fn words_of_answers(rt: HostRuntime) {
    for (answer, text) in [
        (Ok(true), "match"),
        (Ok(false), "mismatch"),
        (Err(StoredError::PasswordTooLong), "password-too-long"),
        (
            Err(StoredError::Mcf(mcf_name(mcf::Error::FieldInvalid))),
            "mcf-field",
        ),
        (Err(StoredError::Sha(ShaFault::RoundsError)), "sha-rounds"),
        (
            Err(StoredError::Phc(PhcFault::SaltTooShort)),
            "phc-salt-short",
        ),
        (Err(StoredError::NoHash), "no-hash"),
        (Err(StoredError::Kdf), "kdf"),
    ] {
        if answer != Err(StoredError::OutOfMemory) {
            assert!(rt; word(&answer) == text, "{text}");
        }
    }
}
