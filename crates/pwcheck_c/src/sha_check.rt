//! The checks of one family of SHA-crypt.

ghost use Rattle.std.specs.Prelude.{◌≡◌, Some};
ghost use Rattle.sha_crypt.specs.Families.{sha256_answer, sha512_answer};
ghost use Rattle.pwcheck_c.specs.Answers.{answer_of};
ghost use Rattle.pwcheck_c.specs.Verdicts.{family_answer, of_family, short_answer};

use crate::answer::Answer;
use crate::check::text_of;
use sha_crypt::{CheckError, FormatFault, sha256_check, sha512_check};
use stored_check::{PASSWORD_MAX, ShaFault, ShaFormat, StoredError};

// The fault of a text of the family.
fn format_answer(fault: FormatFault) -> Answer
    ensures { result ≡ of_family (Err (CheckError.InvalidFormat fault)) }
{
    let format = match fault {
        FormatFault::NoDollar | FormatFault::WrongId(_) => return Answer::OtherIdentifier,
        FormatFault::NoFields => ShaFormat::NoFields,
        FormatFault::NoSalt => ShaFormat::NoSalt,
        FormatFault::RoundsNotNumber => ShaFormat::RoundsNotNumber,
        FormatFault::NoHash => ShaFormat::NoHash,
        FormatFault::Trailing => ShaFormat::Trailing,
        FormatFault::SaltTooLong => ShaFormat::SaltTooLong,
        FormatFault::Base64 => ShaFormat::Base64,
    };
    Answer::Checked(Err(StoredError::Sha(ShaFault::InvalidFormat(format))))
}

// The answer by what the check of the family says.
fn of_family(checked: Result<(), CheckError>) -> Answer
    ensures { result ≡ of_family checked }
{
    match checked {
        Ok(()) => Answer::Checked(Ok(true)),
        Err(CheckError::HashMismatch) => Answer::Checked(Ok(false)),
        Err(CheckError::Crypt(_)) => Answer::Checked(Err(StoredError::Sha(ShaFault::RoundsError))),
        Err(CheckError::InvalidFormat(fault)) => format_answer(fault),
    }
}

// The answer of SHA-256-crypt to two texts.
fn short_answer_of_sha256(password: &str, stored: &str) -> Answer
    ensures answer { result ≡ short_answer sha256_answer password.now stored.now }
{
    if password.len() > PASSWORD_MAX {
        return Answer::Checked(Err(StoredError::PasswordTooLong));
    }
    of_family(sha256_check(password, stored))
}

// The answer of SHA-256-crypt.
#[tactic(auto, unfolding(crate::specs::Verdicts::family_answer))]
fn answer_of_sha256(password: &[u8], stored: &[u8]) -> Answer
    ensures answer { result ≡ family_answer sha256_answer password.now stored.now }
{
    match (text_of(password), text_of(stored)) {
        (Some(password), Some(stored)) => short_answer_of_sha256(password, stored),
        _ => Answer::NotText,
    }
}

// The answer of SHA-512-crypt to two texts.
fn short_answer_of_sha512(password: &str, stored: &str) -> Answer
    ensures answer { result ≡ short_answer sha512_answer password.now stored.now }
{
    if password.len() > PASSWORD_MAX {
        return Answer::Checked(Err(StoredError::PasswordTooLong));
    }
    of_family(sha512_check(password, stored))
}

// The answer of SHA-512-crypt.
#[tactic(auto, unfolding(crate::specs::Verdicts::family_answer))]
fn answer_of_sha512(password: &[u8], stored: &[u8]) -> Answer
    ensures answer { result ≡ family_answer sha512_answer password.now stored.now }
{
    match (text_of(password), text_of(stored)) {
        (Some(password), Some(stored)) => short_answer_of_sha512(password, stored),
        _ => Answer::NotText,
    }
}

/// Checks a password against a SHA-256-crypt text, and answers by a number.
#[unsafe(no_mangle)]
pub extern "C" fn pwcheck_sha256_check(password: &[u8], stored: &[u8]) -> i32
    ensures answer { answer_of result ≡ Some (family_answer sha256_answer password.now stored.now) }
{
    answer_of_sha256(password, stored).number()
}

/// Checks a password against a SHA-512-crypt text, and answers by a number.
#[unsafe(no_mangle)]
pub extern "C" fn pwcheck_sha512_check(password: &[u8], stored: &[u8]) -> i32
    ensures answer { answer_of result ≡ Some (family_answer sha512_answer password.now stored.now) }
{
    answer_of_sha512(password, stored).number()
}
