//! Verdicts one after the other, with the tables that are kept between them.

ghost use Rattle.std.specs.Prelude.{◌≡◌, ◌≢◌, Err, MatchOption, codes, true};
ghost use Rattle.stored_check.specs.declared.error.StoredError.TheVariants.{OutOfMemory};
ghost use Rattle.pbkdf2_key.specs.declared.profile.Pbkdf2Hash.TheVariants.{Sha1, Sha256, Sha512};
ghost use Rattle.any_check.specs.Given.{given_may_lack, given_verdict};
ghost use Rattle.any_check.specs.Table.{IsAnyVerdict};

use crate::{AnyError, SchemeCosts, check_any, check_any_within};
use argon2_plain::Argon2Kept;
use pbkdf2_key::{Pbkdf2Hash, Pbkdf2Plain};
use phc::Ident;
use phc_kdf::EitherKdf;
use scrypt_plain::ScryptKept;
use std::alloc::Global;
use stored_check::StoredError;
use yescrypt_plain::CryptKept;

/// scrypt for the identifier `scrypt`, PBKDF2 with SHA-256 for `pbkdf2-sha256`, with SHA-512 for `pbkdf2-sha512` and with SHA-1 for
/// `pbkdf2-sha1`, and Argon2 for all others.
pub type RecordKdf = EitherKdf<
    ScryptKept,
    EitherKdf<Pbkdf2Plain, EitherKdf<Pbkdf2Plain, EitherKdf<Pbkdf2Plain, Argon2Kept>>>,
>;

/// The derivation of keys for all records that have a verdict. The largest table of scrypt and that of Argon2 so far are
/// kept until it is dropped.
pub fn record_kdf(alloc: Global) -> RecordKdf
    ensures first { result.first ≡ codes "scrypt" }
    ensures second { result.b.first ≡ codes "pbkdf2-sha256" }
    ensures third { result.b.b.first ≡ codes "pbkdf2-sha512" }
    ensures fourth { result.b.b.b.first ≡ codes "pbkdf2-sha1" }
    ensures sha256 { result.b.a.hash ≡ Sha256 }
    ensures sha512 { result.b.b.a.hash ≡ Sha512 }
    ensures sha1 { result.b.b.b.a.hash ≡ Sha1 }
{
    let sha256 = Pbkdf2Plain {
        hash: Pbkdf2Hash::Sha256,
    };
    let sha512 = Pbkdf2Plain {
        hash: Pbkdf2Hash::Sha512,
    };
    let sha1 = Pbkdf2Plain {
        hash: Pbkdf2Hash::Sha1,
    };
    let sha1_or_argon2 = EitherKdf::new(
        Ident::new_unwrap("pbkdf2-sha1"),
        sha1,
        Argon2Kept::new(alloc),
    );
    let sha512_or_argon2 = EitherKdf::new(
        Ident::new_unwrap("pbkdf2-sha512"),
        sha512,
        sha1_or_argon2,
    );
    EitherKdf::new(
        Ident::new_unwrap("scrypt"),
        ScryptKept::new(alloc),
        EitherKdf::new(Ident::new_unwrap("pbkdf2-sha256"), sha256, sha512_or_argon2),
    )
}

/// What gives verdicts, under a bound on cost or under none. The largest tables of scrypt, Argon2 and yescrypt so far are
/// kept until it is dropped.
#[derive(Drop)]
pub struct AnyCheck {
    pub alloc: Global,
    pub limits: Option<SchemeCosts>,
    pub kdf: RecordKdf,
    pub kept: CryptKept,
    pub ghost first: { kdf.first ≡ codes "scrypt" },
    pub ghost second: { kdf.b.first ≡ codes "pbkdf2-sha256" },
    pub ghost third: { kdf.b.b.first ≡ codes "pbkdf2-sha512" },
    pub ghost fourth: { kdf.b.b.b.first ≡ codes "pbkdf2-sha1" },
    pub ghost sha256: { kdf.b.a.hash ≡ Sha256 },
    pub ghost sha512: { kdf.b.b.a.hash ≡ Sha512 },
    pub ghost sha1: { kdf.b.b.b.a.hash ≡ Sha1 },
}

impl AnyCheck {
    /// No table is kept yet.
    pub fn new(alloc: Global, limits: Option<SchemeCosts>) -> AnyCheck
        ensures limits { result.limits ≡ limits }
    {
        AnyCheck {
            alloc,
            limits,
            kdf: record_kdf(alloc),
            kept: CryptKept::new(alloc),
        }
    }

    /// The answer for a password and a stored text.
    pub fn verdict(&self, password: &str, stored: &str) -> Result<bool, AnyError>
        ensures verdict { IsAnyVerdict (given_verdict self.now.limits password.now stored.now)
            (given_may_lack self.now.limits password.now stored.now) result }
    {
        match &self.limits {
            None => check_any(self.alloc, &self.kdf, &self.kept, password, stored),
            Some(limits) => {
                check_any_within(self.alloc, &self.kdf, &self.kept, limits, password, stored)
            }
        }
    }

    /// The same; none where memory is wanting.
    pub fn known_verdict(&self, password: &str, stored: &str) -> Option<Result<bool, AnyError>>
        ensures answered { MatchOption result (given_may_lack self.now.limits password.now stored.now ≡ true)
            (λ a. (a ≢ Err (AnyError.Stored OutOfMemory)) × (a ≡ given_verdict self.now.limits password.now stored.now)) }
    {
        let answer = self.verdict(password, stored);
        if answer == Err(AnyError::Stored(StoredError::OutOfMemory)) {
            return None;
        }
        Some(answer)
    }
}
