//! Answers: their numbers, their words, and the answer to each cause.

ghost use Rattle.std.specs.Prelude.{◌≡◌, Some};
ghost use Rattle.std.specs.List.{slice_get};
ghost use Rattle.pwcheck_c.specs.Answers.{answer_of, answer_word, bcrypt_cause, cause_answer, mysql_cause, phpass_cause, salted_cause, scram_cause, scrypt_cause, sha1_cause, yescrypt_cause};

use any_check::AnyError;
use base64ct::Error;
use bcrypt_plain::BcryptFault;
use mysql_sha2::MysqlFault;
use phpass_plain::PhpassFault;
use salted_digest::SaltedFault;
use scram_plain::ScramFault;
use sha1_crypt::Sha1Fault;
use stored_check::{McfFault, PhcFault, ShaFault, ShaFormat, StoredError, word};
use yescrypt_plain::TextFault;

/// What a password and a stored text are answered with.
#[derive(Clone, Copy)]
pub enum Answer {
    /// The password or the stored text isn't UTF-8.
    NotText,
    /// The text that was to be of one family of SHA-crypt doesn't begin with its identifier.
    OtherIdentifier,
    /// The stored text is valid, and its cost is above the caller's bound.
    OverCost,
    /// What `check_stored` answers.
    Checked(Result<bool, StoredError>),
    /// No scheme has the text's identifier.
    NoScheme,
    /// The text of md5-crypt has a fault.
    Md5Format,
    /// The text is of an obsolete bcrypt, `$2$` or `$2x$`.
    BcryptObsolete,
    /// The cost of bcrypt is outside 4 to 31.
    BcryptCost,
    /// The salt and the hash of bcrypt are no encoding.
    BcryptB64,
    /// The text of bcrypt has another fault.
    BcryptFormat,
    /// yescrypt has another flavor than crypt(3) writes.
    YescryptFlavor,
    /// A number of yescrypt is outside what is taken.
    YescryptCost,
    /// The text of yescrypt has another fault.
    YescryptFormat,
    /// A number of a text `$7$` is outside what is taken.
    ScryptCost,
    /// The text `$7$` has another fault.
    ScryptFormat,
    /// The password has a zero byte, which bcrypt can't hash.
    ZeroByte,
    /// The rounds of sha1-crypt are none that are taken.
    Sha1Cost,
    /// The hash of sha1-crypt is that of no digest.
    Sha1B64,
    /// The text of sha1-crypt has another fault.
    Sha1Format,
    /// The rounds of a text of SCRAM are none that are taken.
    ScramCost,
    /// The salt or a key of a text of SCRAM is no Base64 with padding.
    ScramB64,
    /// The text of SCRAM has another fault.
    ScramFormat,
    /// The password isn't ASCII, and the text of SCRAM is of prepared passwords.
    NotAscii,
    /// The cost of phpass is none that is taken.
    PhpassCost,
    /// The hash of phpass is that of no digest.
    PhpassB64,
    /// The text of phpass has another fault.
    PhpassFormat,
    /// The salt of a salted digest is no Base64 with padding, or the hash is that of no digest.
    DigestB64,
    /// The text of a salted digest has another fault.
    DigestFormat,
    /// The rounds of a text of MySQL are none that are taken.
    MysqlCost,
    /// The hash of a text of MySQL is that of no digest.
    MysqlB64,
    /// The text of MySQL has another fault.
    MysqlFormat,
}

/// The answers by their numbers: the verdicts, the causes of this library's own, and the others in the order in which
/// they are found; what came later goes last.
pub const ANSWERS: [Answer; 58] = [
    Answer::Checked(Ok(true)),
    Answer::Checked(Ok(false)),
    Answer::NotText,
    Answer::Checked(Err(StoredError::OutOfMemory)),
    Answer::Checked(Err(StoredError::PasswordTooLong)),
    Answer::Checked(Err(StoredError::Mcf(McfFault::DelimiterInvalid))),
    Answer::Checked(Err(StoredError::Mcf(McfFault::IdentifierInvalid))),
    Answer::Checked(Err(StoredError::Mcf(McfFault::FieldInvalid))),
    Answer::Checked(Err(StoredError::Mcf(McfFault::EncodingInvalid))),
    Answer::OtherIdentifier,
    Answer::Checked(Err(StoredError::Sha(ShaFault::InvalidFormat(ShaFormat::NoFields)))),
    Answer::Checked(Err(StoredError::Sha(ShaFault::InvalidFormat(ShaFormat::NoSalt)))),
    Answer::Checked(Err(StoredError::Sha(ShaFault::InvalidFormat(ShaFormat::RoundsNotNumber)))),
    Answer::Checked(Err(StoredError::Sha(ShaFault::InvalidFormat(ShaFormat::NoHash)))),
    Answer::Checked(Err(StoredError::Sha(ShaFault::InvalidFormat(ShaFormat::Trailing)))),
    Answer::Checked(Err(StoredError::Sha(ShaFault::RoundsError))),
    Answer::Checked(Err(StoredError::Sha(ShaFault::InvalidFormat(ShaFormat::SaltTooLong)))),
    Answer::Checked(Err(StoredError::Sha(ShaFault::InvalidFormat(ShaFormat::Base64)))),
    Answer::Checked(Err(StoredError::Phc(PhcFault::ParamNameInvalid))),
    Answer::Checked(Err(StoredError::Phc(PhcFault::ParamValueTooLong))),
    Answer::Checked(Err(StoredError::Phc(PhcFault::ParamValueInvalid))),
    Answer::Checked(Err(StoredError::Phc(PhcFault::ParamsMaxExceeded))),
    Answer::Checked(Err(StoredError::Phc(PhcFault::SaltTooShort))),
    Answer::Checked(Err(StoredError::Phc(PhcFault::SaltTooLong))),
    Answer::Checked(Err(StoredError::Phc(PhcFault::Base64(Error::InvalidEncoding)))),
    Answer::Checked(Err(StoredError::Phc(PhcFault::Base64(Error::InvalidLength)))),
    Answer::Checked(Err(StoredError::Phc(PhcFault::OutputSize))),
    Answer::Checked(Err(StoredError::Phc(PhcFault::TrailingData))),
    Answer::Checked(Err(StoredError::NoHash)),
    Answer::Checked(Err(StoredError::Kdf)),
    Answer::OverCost,
    Answer::NoScheme,
    Answer::Md5Format,
    Answer::BcryptObsolete,
    Answer::BcryptCost,
    Answer::BcryptB64,
    Answer::BcryptFormat,
    Answer::YescryptFlavor,
    Answer::YescryptCost,
    Answer::YescryptFormat,
    Answer::ScryptCost,
    Answer::ScryptFormat,
    Answer::ZeroByte,
    Answer::Sha1Cost,
    Answer::Sha1B64,
    Answer::Sha1Format,
    Answer::ScramCost,
    Answer::ScramB64,
    Answer::ScramFormat,
    Answer::NotAscii,
    Answer::PhpassCost,
    Answer::PhpassB64,
    Answer::PhpassFormat,
    Answer::DigestB64,
    Answer::DigestFormat,
    Answer::MysqlCost,
    Answer::MysqlB64,
    Answer::MysqlFormat,
];

// The number of a fault of the modular crypt format.
fn mcf_number(fault: McfFault) -> i32
    ensures { answer_of result ≡ Some (Answer.Checked (Err (StoredError.Mcf fault))) }
{
    match fault {
        McfFault::DelimiterInvalid => 5,
        McfFault::IdentifierInvalid => 6,
        McfFault::FieldInvalid => 7,
        McfFault::EncodingInvalid => 8,
    }
}

// The number of a fault of SHA-crypt.
fn sha_number(fault: ShaFault) -> i32
    ensures { answer_of result ≡ Some (Answer.Checked (Err (StoredError.Sha fault))) }
{
    match fault {
        ShaFault::InvalidFormat(ShaFormat::NoFields) => 10,
        ShaFault::InvalidFormat(ShaFormat::NoSalt) => 11,
        ShaFault::InvalidFormat(ShaFormat::RoundsNotNumber) => 12,
        ShaFault::InvalidFormat(ShaFormat::NoHash) => 13,
        ShaFault::InvalidFormat(ShaFormat::Trailing) => 14,
        ShaFault::RoundsError => 15,
        ShaFault::InvalidFormat(ShaFormat::SaltTooLong) => 16,
        ShaFault::InvalidFormat(ShaFormat::Base64) => 17,
    }
}

// The number of a fault of a PHC text.
fn phc_number(fault: PhcFault) -> i32
    ensures { answer_of result ≡ Some (Answer.Checked (Err (StoredError.Phc fault))) }
{
    match fault {
        PhcFault::ParamNameInvalid => 18,
        PhcFault::ParamValueTooLong => 19,
        PhcFault::ParamValueInvalid => 20,
        PhcFault::ParamsMaxExceeded => 21,
        PhcFault::SaltTooShort => 22,
        PhcFault::SaltTooLong => 23,
        PhcFault::Base64(Error::InvalidEncoding) => 24,
        PhcFault::Base64(Error::InvalidLength) => 25,
        PhcFault::OutputSize => 26,
        PhcFault::TrailingData => 27,
    }
}

// What stands at a place of a table.
fn place(table: &[Answer], at: usize) -> Option<Answer>
    ensures { result ≡ slice_get table.now at }
{
    table.get(at).copied()
}

impl Answer {
    /// The number of this answer, which no other has.
    pub fn number(self) -> i32
        ensures number { answer_of result ≡ Some self }
    {
        match self {
            Answer::Checked(Ok(true)) => 0,
            Answer::Checked(Ok(false)) => 1,
            Answer::NotText => 2,
            Answer::Checked(Err(StoredError::OutOfMemory)) => 3,
            Answer::Checked(Err(StoredError::PasswordTooLong)) => 4,
            Answer::Checked(Err(StoredError::Mcf(fault))) => mcf_number(fault),
            Answer::OtherIdentifier => 9,
            Answer::Checked(Err(StoredError::Sha(fault))) => sha_number(fault),
            Answer::Checked(Err(StoredError::Phc(fault))) => phc_number(fault),
            Answer::Checked(Err(StoredError::NoHash)) => 28,
            Answer::Checked(Err(StoredError::Kdf)) => 29,
            Answer::OverCost => 30,
            Answer::NoScheme => 31,
            Answer::Md5Format => 32,
            Answer::BcryptObsolete => 33,
            Answer::BcryptCost => 34,
            Answer::BcryptB64 => 35,
            Answer::BcryptFormat => 36,
            Answer::YescryptFlavor => 37,
            Answer::YescryptCost => 38,
            Answer::YescryptFormat => 39,
            Answer::ScryptCost => 40,
            Answer::ScryptFormat => 41,
            Answer::ZeroByte => 42,
            Answer::Sha1Cost => 43,
            Answer::Sha1B64 => 44,
            Answer::Sha1Format => 45,
            Answer::ScramCost => 46,
            Answer::ScramB64 => 47,
            Answer::ScramFormat => 48,
            Answer::NotAscii => 49,
            Answer::PhpassCost => 50,
            Answer::PhpassB64 => 51,
            Answer::PhpassFormat => 52,
            Answer::DigestB64 => 53,
            Answer::DigestFormat => 54,
            Answer::MysqlCost => 55,
            Answer::MysqlB64 => 56,
            Answer::MysqlFormat => 57,
        }
    }

    /// The answer with this number.
    pub fn with_number(number: i32) -> Option<Answer>
        ensures { result ≡ answer_of number }
    {
        match usize::try_from(number) {
            Ok(at) => place(&ANSWERS, at),
            Err(_) => None,
        }
    }

    /// The word.
    pub fn word(self) -> &'static str
        ensures { result.now ≡ answer_word self }
    {
        match self {
            Answer::NotText => "not-utf8",
            Answer::OtherIdentifier => "sha-identifier",
            Answer::OverCost => "over-cost",
            Answer::NoScheme => "no-scheme",
            Answer::Md5Format => "md5-format",
            Answer::BcryptObsolete => "bcrypt-obsolete",
            Answer::BcryptCost => "bcrypt-cost",
            Answer::BcryptB64 => "bcrypt-b64",
            Answer::BcryptFormat => "bcrypt-format",
            Answer::YescryptFlavor => "yescrypt-flavor",
            Answer::YescryptCost => "yescrypt-cost",
            Answer::YescryptFormat => "yescrypt-format",
            Answer::ScryptCost => "scrypt-cost",
            Answer::ScryptFormat => "scrypt-format",
            Answer::ZeroByte => "zero-byte",
            Answer::Sha1Cost => "sha1-cost",
            Answer::Sha1B64 => "sha1-b64",
            Answer::Sha1Format => "sha1-format",
            Answer::ScramCost => "scram-cost",
            Answer::ScramB64 => "scram-b64",
            Answer::ScramFormat => "scram-format",
            Answer::NotAscii => "not-ascii",
            Answer::PhpassCost => "phpass-cost",
            Answer::PhpassB64 => "phpass-b64",
            Answer::PhpassFormat => "phpass-format",
            Answer::DigestB64 => "digest-b64",
            Answer::DigestFormat => "digest-format",
            Answer::MysqlCost => "mysql-cost",
            Answer::MysqlB64 => "mysql-b64",
            Answer::MysqlFormat => "mysql-format",
            Answer::Checked(Err(StoredError::OutOfMemory)) => "no-memory",
            Answer::Checked(verdict) => word(&verdict),
        }
    }
}

// The answer for a fault of a text of bcrypt.
fn bcrypt_cause(fault: BcryptFault) -> Answer
    ensures { result ≡ bcrypt_cause fault }
{
    match fault {
        BcryptFault::Obsolete => Answer::BcryptObsolete,
        BcryptFault::Cost => Answer::BcryptCost,
        BcryptFault::Character | BcryptFault::SpareBits => Answer::BcryptB64,
        _ => Answer::BcryptFormat,
    }
}

// The answer for a fault of a text `$y$`.
fn yescrypt_cause(fault: TextFault) -> Answer
    ensures { result ≡ yescrypt_cause fault }
{
    match fault {
        TextFault::Flavor => Answer::YescryptFlavor,
        TextFault::Parallelism
        | TextFault::Upgrades
        | TextFault::Rom
        | TextFault::Memory
        | TextFault::Cost => Answer::YescryptCost,
        _ => Answer::YescryptFormat,
    }
}

// The answer for a fault of a text `$7$`.
fn scrypt_cause(fault: TextFault) -> Answer
    ensures { result ≡ scrypt_cause fault }
{
    match fault {
        TextFault::Memory | TextFault::Cost => Answer::ScryptCost,
        _ => Answer::ScryptFormat,
    }
}

// The answer for a fault of a text of SCRAM, or of its password.
fn scram_cause(fault: ScramFault) -> Answer
    ensures { result ≡ scram_cause fault }
{
    match fault {
        ScramFault::Rounds => Answer::ScramCost,
        ScramFault::SaltEncoding | ScramFault::StoredKeyEncoding | ScramFault::ServerKeyEncoding =>
            Answer::ScramB64,
        ScramFault::NotAscii => Answer::NotAscii,
        _ => Answer::ScramFormat,
    }
}

// The answer for a fault of a text of phpass.
fn phpass_cause(fault: PhpassFault) -> Answer
    ensures { result ≡ phpass_cause fault }
{
    match fault {
        PhpassFault::Cost => Answer::PhpassCost,
        PhpassFault::HashCharacter | PhpassFault::SpareBits => Answer::PhpassB64,
        _ => Answer::PhpassFormat,
    }
}

// The answer for a fault of a text of a salted digest.
fn salted_cause(fault: SaltedFault) -> Answer
    ensures { result ≡ salted_cause fault }
{
    match fault {
        SaltedFault::SaltEncoding | SaltedFault::HashEncoding => Answer::DigestB64,
        _ => Answer::DigestFormat,
    }
}

// The answer for a fault of a text of MySQL.
fn mysql_cause(fault: MysqlFault) -> Answer
    ensures { result ≡ mysql_cause fault }
{
    match fault {
        MysqlFault::Rounds => Answer::MysqlCost,
        MysqlFault::HashField => Answer::MysqlB64,
        _ => Answer::MysqlFormat,
    }
}

// The answer for a fault of a text of sha1-crypt.
fn sha1_cause(fault: Sha1Fault) -> Answer
    ensures { result ≡ sha1_cause fault }
{
    match fault {
        Sha1Fault::Rounds => Answer::Sha1Cost,
        Sha1Fault::HashCharacter | Sha1Fault::FirstByte => Answer::Sha1B64,
        _ => Answer::Sha1Format,
    }
}

/// What `check_any` answers, as an answer with a number.
pub fn cause_answer(answer: Result<bool, AnyError>) -> Answer
    ensures { result ≡ cause_answer answer }
{
    match answer {
        Ok(matches) => Answer::Checked(Ok(matches)),
        Err(AnyError::Stored(e)) => Answer::Checked(Err(e)),
        Err(AnyError::NoScheme) => Answer::NoScheme,
        Err(AnyError::Md5(_)) => Answer::Md5Format,
        Err(AnyError::Bcrypt(fault)) => bcrypt_cause(fault),
        Err(AnyError::Yescrypt(fault)) => yescrypt_cause(fault),
        Err(AnyError::Scrypt(fault)) => scrypt_cause(fault),
        Err(AnyError::Sha1(fault)) => sha1_cause(fault),
        Err(AnyError::Scram(fault)) => scram_cause(fault),
        Err(AnyError::Phpass(fault)) => phpass_cause(fault),
        Err(AnyError::Salted(fault)) => salted_cause(fault),
        Err(AnyError::Mysql(fault)) => mysql_cause(fault),
        Err(AnyError::ZeroByte) => Answer::ZeroByte,
        Err(AnyError::TooCostly) => Answer::OverCost,
    }
}
