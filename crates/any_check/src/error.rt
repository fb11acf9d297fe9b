//! Why a stored text gets no verdict, and the word of each cause.

ghost use Rattle.std.specs.Prelude.{◌≡◌, ◌≢◌, ◌≤◌, Err, length};
ghost use Rattle.stored_check.specs.declared.error.StoredError.TheVariants.{OutOfMemory};
ghost use Rattle.any_check.specs.Table.{any_word, bcrypt_word, mysql_word, phpass_word, salted_word, scram_word, scrypt_word, sha1_word, yescrypt_word};

use bcrypt_plain::BcryptFault;
use md5_plain::Md5Fault;
use mysql_sha2::MysqlFault;
use phpass_plain::PhpassFault;
use salted_digest::SaltedFault;
use scram_plain::ScramFault;
use sha1_crypt::Sha1Fault;
use stored_check::StoredError;
use yescrypt_plain::TextFault;

/// The first cause.
#[derive(Clone, Copy, Debug, PartialEq, Eq)]
pub enum AnyError {
    /// A cause of `check_stored`: the password is too long, whatever the text; or any cause of a text of SHA-crypt and of
    /// a record; or a fault of the modular crypt format of a text of md5-crypt.
    Stored(StoredError),
    /// No scheme has the identifier of the text, or the text has none.
    NoScheme,
    /// The text is no md5-crypt text, though its identifier is `1` or `apr1`.
    Md5(Md5Fault),
    /// The text is no bcrypt text that is checked, though its identifier is one of bcrypt's or of bcrypt's with a digest in front.
    Bcrypt(BcryptFault),
    /// The text is no text `$y$` that is taken, though its identifier is `y`.
    Yescrypt(TextFault),
    /// The text is no text `$7$` that is taken, though its identifier is `7`.
    Scrypt(TextFault),
    /// The text is no text `$sha1$` that is taken, though its identifier is `sha1`.
    Sha1(Sha1Fault),
    /// The text is no text of SCRAM that is taken, though it has an identifier of it; or the password isn't ASCII, and the text is of
    /// prepared passwords.
    Scram(ScramFault),
    /// The text is no text of phpass that is taken, though its identifier is `P` or `H`.
    Phpass(PhpassFault),
    /// The text is no text of a salted digest that is taken, though its identifier is `smd5`, `ssha`, `ssha256` or `ssha512`.
    Salted(SaltedFault),
    /// The text is no text of MySQL's caching_sha2_password that is taken, though its identifier is `mysql`.
    Mysql(MysqlFault),
    /// The text is valid, and the password has a zero byte, which its scheme doesn't tell from the end.
    ZeroByte,
    /// The text is valid, and its cost is above the bound.
    TooCostly,
}

// The word of a fault of a bcrypt text.
fn bcrypt_word(fault: BcryptFault) -> &'static str
    ensures word { result.now ≡ bcrypt_word fault }
    ensures short { length result.now ≤ 17 }
{
    match fault {
        BcryptFault::Obsolete => "bcrypt-obsolete",
        BcryptFault::Cost => "bcrypt-cost",
        BcryptFault::Character | BcryptFault::SpareBits => "bcrypt-b64",
        _ => "bcrypt-format",
    }
}

// The word of a fault of a text `$y$`.
fn yescrypt_word(fault: TextFault) -> &'static str
    ensures word { result.now ≡ yescrypt_word fault }
    ensures short { length result.now ≤ 17 }
{
    match fault {
        TextFault::Flavor => "yescrypt-flavor",
        TextFault::Parallelism
        | TextFault::Upgrades
        | TextFault::Rom
        | TextFault::Memory
        | TextFault::Cost => "yescrypt-cost",
        _ => "yescrypt-format",
    }
}

// The word of a fault of a text `$7$`.
fn scrypt_word(fault: TextFault) -> &'static str
    ensures word { result.now ≡ scrypt_word fault }
    ensures short { length result.now ≤ 17 }
{
    match fault {
        TextFault::Memory | TextFault::Cost => "scrypt-cost",
        _ => "scrypt-format",
    }
}

// The word of a fault of a text of SCRAM, or of its password.
fn scram_word(fault: ScramFault) -> &'static str
    ensures word { result.now ≡ scram_word fault }
    ensures short { length result.now ≤ 17 }
{
    match fault {
        ScramFault::Rounds => "scram-cost",
        ScramFault::SaltEncoding | ScramFault::StoredKeyEncoding | ScramFault::ServerKeyEncoding =>
            "scram-b64",
        ScramFault::NotAscii => "not-ascii",
        _ => "scram-format",
    }
}

// The word of a fault of a text of sha1-crypt.
fn sha1_word(fault: Sha1Fault) -> &'static str
    ensures word { result.now ≡ sha1_word fault }
    ensures short { length result.now ≤ 17 }
{
    match fault {
        Sha1Fault::Rounds => "sha1-cost",
        Sha1Fault::HashCharacter | Sha1Fault::FirstByte => "sha1-b64",
        _ => "sha1-format",
    }
}

// The word of a fault of a text of phpass.
fn phpass_word(fault: PhpassFault) -> &'static str
    ensures word { result.now ≡ phpass_word fault }
    ensures short { length result.now ≤ 17 }
{
    match fault {
        PhpassFault::Cost => "phpass-cost",
        PhpassFault::HashCharacter | PhpassFault::SpareBits => "phpass-b64",
        _ => "phpass-format",
    }
}

// The word of a fault of a text of a salted digest.
fn salted_word(fault: SaltedFault) -> &'static str
    ensures word { result.now ≡ salted_word fault }
    ensures short { length result.now ≤ 17 }
{
    match fault {
        SaltedFault::SaltEncoding | SaltedFault::HashEncoding => "digest-b64",
        _ => "digest-format",
    }
}

// The word of a fault of a text of MySQL.
fn mysql_word(fault: MysqlFault) -> &'static str
    ensures word { result.now ≡ mysql_word fault }
    ensures short { length result.now ≤ 17 }
{
    match fault {
        MysqlFault::Rounds => "mysql-cost",
        MysqlFault::HashField => "mysql-b64",
        _ => "mysql-format",
    }
}

/// The word of an answer of [`check_any`](crate::check_any): `pwcheck`'s words; `no-scheme`; `md5-format` for each fault of a
/// text of md5-crypt; `bcrypt-obsolete`, `bcrypt-cost`, `bcrypt-b64` and, for each other fault of a text of bcrypt, be a digest in front or not,
/// `bcrypt-format`; `yescrypt-flavor`, `yescrypt-cost` and `yescrypt-format`; `scrypt-cost` and `scrypt-format` for faults
/// of a text `$7$`; `sha1-cost`, `sha1-b64` and `sha1-format`; `scram-cost`, `scram-b64`, `scram-format` and `not-ascii`;
/// `phpass-cost`, `phpass-b64` and `phpass-format`; `digest-b64` and `digest-format`; `mysql-cost`, `mysql-b64` and
/// `mysql-format`; `zero-byte`; and `too-costly`. Want of memory has none.
pub fn any_word(answer: &Result<bool, AnyError>) -> &'static str
    requires known { answer.now ≢ Err (AnyError.Stored OutOfMemory) }
    ensures word { result.now ≡ any_word answer.now }
    ensures short { length result.now ≤ 17 }
{
    match *answer {
        Ok(matches) => stored_check::word(&Ok(matches)),
        Err(AnyError::Stored(e)) => stored_check::word(&Err(e)),
        Err(AnyError::NoScheme) => "no-scheme",
        Err(AnyError::Md5(_)) => "md5-format",
        Err(AnyError::Bcrypt(fault)) => bcrypt_word(fault),
        Err(AnyError::Yescrypt(fault)) => yescrypt_word(fault),
        Err(AnyError::Scrypt(fault)) => scrypt_word(fault),
        Err(AnyError::Sha1(fault)) => sha1_word(fault),
        Err(AnyError::Scram(fault)) => scram_word(fault),
        Err(AnyError::Phpass(fault)) => phpass_word(fault),
        Err(AnyError::Salted(fault)) => salted_word(fault),
        Err(AnyError::Mysql(fault)) => mysql_word(fault),
        Err(AnyError::ZeroByte) => "zero-byte",
        Err(AnyError::TooCostly) => "too-costly",
    }
}
