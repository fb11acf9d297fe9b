//! What the exports answer.

ghost use Rattle.std.specs.Prelude.{◌≡◌};
ghost use Rattle.pwcrypt_c.specs.Statuses.{error_status, salt_number};

use c_buffers::NO_MEMORY;
use crypt_text::{CryptError, SaltStatus};

/// The phrase or the setting is too long.
pub const TOO_LONG: i32 = -1;

/// It is no setting; or the method does not take the count, or so few bytes.
pub const NO_SETTING: i32 = -4;

/// The number of a cause.
pub(crate) fn error_status(error: CryptError) -> i32
    ensures { result ≡ error_status error }
{
    match error {
        CryptError::TooLong => TOO_LONG,
        CryptError::Setting => NO_SETTING,
        CryptError::OutOfMemory => NO_MEMORY,
    }
}

/// The number that crypt_checksalt(3) has for what a setting is.
pub(crate) fn salt_number(status: SaltStatus) -> i32
    ensures { result ≡ salt_number status }
{
    match status {
        SaltStatus::Valid => 0,
        SaltStatus::Invalid => 1,
        SaltStatus::Legacy => 3,
    }
}
