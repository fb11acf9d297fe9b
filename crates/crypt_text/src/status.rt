//! What a setting is.

ghost use Rattle.std.specs.Prelude.{◌≡◌};
ghost use Rattle.crypt_text.specs.Checks.{method_status, salt_status};

use crate::bytes::has_refused;
use scheme_list::{Scheme, method_of};

/// What crypt_checksalt(3) says of a setting.
#[derive(Clone, Copy, Debug, PartialEq, Eq)]
pub enum SaltStatus {
    /// Its bytes are those of settings, and its method is known: `CRYPT_SALT_OK`.
    Valid,
    /// It is no setting, or its method is not known here: `CRYPT_SALT_INVALID`.
    Invalid,
    /// Its method is `$1$`, `$5$` or `$sha1`, which libxcrypt counts as old ones: `CRYPT_SALT_METHOD_LEGACY`.
    Legacy,
}

// By the method.
fn method_status(method: Option<Scheme>) -> SaltStatus
    ensures { result ≡ method_status method }
{
    match method {
        Some(Scheme::Md5Crypt | Scheme::Sha256Crypt | Scheme::Sha1Crypt) => SaltStatus::Legacy,
        Some(Scheme::Sha512Crypt | Scheme::Bcrypt | Scheme::Yescrypt | Scheme::ScryptCrypt) => {
            SaltStatus::Valid
        }
        _ => SaltStatus::Invalid,
    }
}

/// What a setting is, by its bytes and its method alone: nothing else of it is looked at.
pub fn salt_status(setting: &[u8]) -> SaltStatus
    ensures status { result ≡ salt_status setting.now }
{
    if has_refused(setting) {
        return SaltStatus::Invalid;
    }
    method_status(method_of(setting))
}
