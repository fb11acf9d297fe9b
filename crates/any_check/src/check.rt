//! The verdict.

ghost use Rattle.std.specs.Prelude.{◌≡◌, ◌≤◌, Some, length};
ghost use Rattle.mcf.specs.Grammar.{mcf};
ghost use Rattle.phc_kdf.specs.Limits.{password_max};
ghost use Rattle.any_check.specs.Table.{IsAnyVerdict, any_may_lack, any_verdict, md5_answer, of_bcrypt_check, of_md5, of_mysql, of_phpass, of_salted, of_scram, of_scrypt_check, of_sha1, of_stored, of_yescrypt_check, row, row_may_lack, text_scheme};
ghost use Rattle.any_check.specs.Cost.{verdict_within, within_may_lack};

use crate::cost::is_costly;
use crate::{AnyError, Scheme, SchemeCosts, scheme_of_text};
use base64ct::Counts;
use bcrypt_digest::digest_check;
use bcrypt_plain::{BcryptError, bcrypt_check};
use mcf::PasswordHashRef;
use md5_plain::{Md5Fault, magic_of, md5_verdict};
use mysql_sha2::{MysqlFault, mysql_check};
use phpass_plain::{PhpassFault, phpass_check};
use salted_digest::{SaltedFault, salted_check};
use scram_plain::{ScramFault, scram_check};
use sha1_crypt::{Sha1Fault, sha1_check};
use std::alloc::Global;
use stored_check::{PASSWORD_MAX, PhcKdf, StoredError, check_stored, mcf_name};
use yescrypt_plain::{CheckError, CryptKept, scrypt_check_kept, yescrypt_check_kept};

// An answer of `check_stored`.
fn of_stored(answer: Result<bool, StoredError>) -> Result<bool, AnyError>
    ensures { result ≡ of_stored answer }
{
    match answer {
        Ok(matches) => Ok(matches),
        Err(e) => Err(AnyError::Stored(e)),
    }
}

// An answer of `md5_verdict`.
fn of_md5(answer: Result<bool, Md5Fault>) -> Result<bool, AnyError>
    ensures { result ≡ of_md5 answer }
{
    match answer {
        Ok(matches) => Ok(matches),
        Err(e) => Err(AnyError::Md5(e)),
    }
}

// The answer for a text of md5-crypt.
fn md5_checked(password: &str, stored: &str) -> Result<bool, AnyError>
    requires short { length password.now ≤ password_max }
    ensures answer { result ≡ md5_answer password.now (mcf stored.now) }
{
    match PasswordHashRef::new(stored) {
        Err(e) => Err(AnyError::Stored(StoredError::Mcf(mcf_name(e)))),
        Ok(text) => match magic_of(text.id()) {
            Some(magic) => of_md5(md5_verdict(magic, password.as_bytes(), text.fields())),
            None => Err(AnyError::NoScheme),
        },
    }
}

// An answer of `scram_check`.
fn of_scram(answer: Result<bool, ScramFault>) -> Result<bool, AnyError>
    ensures { result ≡ of_scram answer }
{
    match answer {
        Ok(matches) => Ok(matches),
        Err(e) => Err(AnyError::Scram(e)),
    }
}

// An answer of `phpass_check`.
fn of_phpass(answer: Result<bool, PhpassFault>) -> Result<bool, AnyError>
    ensures { result ≡ of_phpass answer }
{
    match answer {
        Ok(matches) => Ok(matches),
        Err(e) => Err(AnyError::Phpass(e)),
    }
}

// An answer of `salted_check`.
fn of_salted(answer: Result<bool, SaltedFault>) -> Result<bool, AnyError>
    ensures { result ≡ of_salted answer }
{
    match answer {
        Ok(matches) => Ok(matches),
        Err(e) => Err(AnyError::Salted(e)),
    }
}

// An answer of `mysql_check`.
fn of_mysql(answer: Result<bool, MysqlFault>) -> Result<bool, AnyError>
    ensures { result ≡ of_mysql answer }
{
    match answer {
        Ok(matches) => Ok(matches),
        Err(e) => Err(AnyError::Mysql(e)),
    }
}

// An answer of `sha1_check`.
fn of_sha1(answer: Result<bool, Sha1Fault>) -> Result<bool, AnyError>
    ensures { result ≡ of_sha1 answer }
{
    match answer {
        Ok(matches) => Ok(matches),
        Err(e) => Err(AnyError::Sha1(e)),
    }
}

// An answer of `bcrypt_check` or of `digest_check`.
fn of_bcrypt_check(answer: Result<(), BcryptError>) -> Result<bool, AnyError>
    ensures { result ≡ of_bcrypt_check answer }
{
    match answer {
        Ok(()) => Ok(true),
        Err(BcryptError::HashMismatch) => Ok(false),
        Err(BcryptError::ZeroByte) => Err(AnyError::ZeroByte),
        Err(BcryptError::InvalidFormat(e)) => Err(AnyError::Bcrypt(e)),
    }
}

// An answer of `yescrypt_check`.
fn of_yescrypt_check(answer: Result<(), CheckError>) -> Result<bool, AnyError>
    ensures { result ≡ of_yescrypt_check answer }
{
    match answer {
        Ok(()) => Ok(true),
        Err(CheckError::HashMismatch) => Ok(false),
        Err(CheckError::PasswordTooLong) => Err(AnyError::Stored(StoredError::PasswordTooLong)),
        Err(CheckError::OutOfMemory) => Err(AnyError::Stored(StoredError::OutOfMemory)),
        Err(CheckError::InvalidFormat(e)) => Err(AnyError::Yescrypt(e)),
    }
}

// An answer of `scrypt_check`.
fn of_scrypt_check(answer: Result<(), CheckError>) -> Result<bool, AnyError>
    ensures { result ≡ of_scrypt_check answer }
{
    match answer {
        Ok(()) => Ok(true),
        Err(CheckError::HashMismatch) => Ok(false),
        Err(CheckError::PasswordTooLong) => Err(AnyError::Stored(StoredError::PasswordTooLong)),
        Err(CheckError::OutOfMemory) => Err(AnyError::Stored(StoredError::OutOfMemory)),
        Err(CheckError::InvalidFormat(e)) => Err(AnyError::Scrypt(e)),
    }
}

// The answer of the check of a scheme.
fn checked<K: PhcKdf>(
    alloc: Global,
    kdf: &K,
    kept: &CryptKept,
    scheme: Scheme,
    password: &str,
    stored: &str,
) -> Result<bool, AnyError>
    requires short { length password.now ≤ password_max }
    requires scheme { text_scheme stored.now ≡ Some scheme }
    ensures { IsAnyVerdict
        (row (K.accepted kdf.now) (K.tag kdf.now) scheme password.now stored.now)
        (row_may_lack (K.accepted kdf.now) (K.needs_memory kdf.now) (K.tag kdf.now) (Some scheme) password.now stored.now)
        result }
{
    match scheme {
        Scheme::Md5Crypt => md5_checked(password, stored),
        Scheme::Bcrypt => of_bcrypt_check(bcrypt_check(password, stored)),
        Scheme::Yescrypt => {
            let mut counts = Counts::new();
            of_yescrypt_check(yescrypt_check_kept(alloc, kept, password, stored, &mut counts))
        }
        Scheme::ScryptCrypt => {
            let mut counts = Counts::new();
            of_scrypt_check(scrypt_check_kept(alloc, kept, password, stored, &mut counts))
        }
        Scheme::BcryptDigest => of_bcrypt_check(digest_check(password, stored)),
        Scheme::Sha1Crypt => of_sha1(sha1_check(password.as_bytes(), stored)),
        Scheme::Scram => of_scram(scram_check(password.as_bytes(), stored)),
        Scheme::Phpass => of_phpass(phpass_check(password.as_bytes(), stored)),
        Scheme::SaltedDigest => of_salted(salted_check(password.as_bytes(), stored)),
        Scheme::MysqlSha2 => of_mysql(mysql_check(password.as_bytes(), stored)),
        Scheme::Sha256Crypt | Scheme::Sha512Crypt => of_stored(check_stored(
            alloc, kdf, password, stored,
        )),
        Scheme::Scrypt
        | Scheme::Pbkdf2Sha256
        | Scheme::Pbkdf2Sha512
        | Scheme::Pbkdf2Sha1
        | Scheme::Argon2d
        | Scheme::Argon2i
        | Scheme::Argon2id => of_stored(check_stored(alloc, kdf, password, stored)),
    }
}

/// Checks a password against a stored text of any scheme, and answers whether it matches.
///
/// What stands between the first two `$` of the text names the scheme ([`Scheme`]), and the answer is
/// that of the scheme's own check: `md5_verdict` for md5-crypt, `bcrypt_check` for bcrypt, `digest_check` for bcrypt of a digest, `sha1_check` for sha1-crypt, `scram_check` for SCRAM, `phpass_check` for phpass, `salted_check` for salted digests, `mysql_check` for MySQL's, `yescrypt_check` and
/// `scrypt_check` for `y` and `7`, in the tables that `kept` keeps, `check_stored` for SHA-crypt and for records, whose keys
/// `kdf` derives. Only a record's key and these tables take memory.
///
/// # Errors
///
/// The first cause that there is no verdict: a password of more than 4,096 bytes, then an identifier that no scheme has,
/// then the scheme's own first cause. Want of memory is `Stored(OutOfMemory)`, only for a valid record for which `kdf` may
/// need memory, and for a valid text of yescrypt or `$7$`. Never `TooCostly`.
pub fn check_any<K: PhcKdf>(
    alloc: Global,
    kdf: &K,
    kept: &CryptKept,
    password: &str,
    stored: &str,
) -> Result<bool, AnyError>
    ensures verdict { IsAnyVerdict
        (any_verdict (K.accepted kdf.now) (K.tag kdf.now) password.now stored.now)
        (any_may_lack (K.accepted kdf.now) (K.needs_memory kdf.now) (K.tag kdf.now) password.now stored.now)
        result }
{
    if password.len() > PASSWORD_MAX {
        return Err(AnyError::Stored(StoredError::PasswordTooLong));
    }
    match scheme_of_text(stored) {
        None => Err(AnyError::NoScheme),
        Some(scheme) => checked(alloc, kdf, kept, scheme, password, stored),
    }
}

/// Checks as [`check_any`], but a valid text whose cost is above the bound is answered by `TooCostly`, and nothing is
/// hashed for it.
///
/// # Errors
///
/// As `check_any`; `TooCostly` comes behind a password of more than 4,096 bytes and only for a text without a fault, and for
/// it memory is never wanting.
pub fn check_any_within<K: PhcKdf>(
    alloc: Global,
    kdf: &K,
    kept: &CryptKept,
    limits: &SchemeCosts,
    password: &str,
    stored: &str,
) -> Result<bool, AnyError>
    ensures verdict { IsAnyVerdict
        (verdict_within (K.accepted kdf.now) (K.tag kdf.now) limits.now password.now stored.now)
        (within_may_lack (K.accepted kdf.now) (K.needs_memory kdf.now) (K.tag kdf.now) limits.now password.now stored.now)
        result }
{
    if password.len() > PASSWORD_MAX {
        return Err(AnyError::Stored(StoredError::PasswordTooLong));
    }
    if is_costly(kdf, limits, stored) {
        return Err(AnyError::TooCostly);
    }
    check_any(alloc, kdf, kept, password, stored)
}
