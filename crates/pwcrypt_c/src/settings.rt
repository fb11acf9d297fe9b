//! Settings.

ghost use Rattle.std.specs.Prelude.{◌≡◌};
ghost use Rattle.crypt_text.specs.Checks.{salt_status};
ghost use Rattle.crypt_text.specs.NewSettings.{new_setting, random_len};
ghost use Rattle.crypt_text.specs.Settings.{method_of};
ghost use Rattle.pwcrypt_c.specs.Answers.{IsSettingTold};
ghost use Rattle.pwcrypt_c.specs.Statuses.{salt_number};

use crate::statuses::{NO_SETTING, salt_number};
use c_buffers::put;
use crypt_text::{new_setting, random_len, salt_status};

/// Writes the new setting of a prefix, a count and random bytes, without a zero behind it.
#[unsafe(no_mangle)]
pub extern "C" fn pwcrypt_setting(
    prefix: &[u8],
    count: u64,
    bytes: &[u8],
    out: &mut [u8],
    len: &mut usize,
) -> i32
    ensures setting { IsSettingTold (new_setting prefix.now count bytes.now) out.old out.new len.old len.new result }
{
    match new_setting(prefix, count, bytes) {
        Some(setting) => put(setting.as_slice(), out, len),
        None => NO_SETTING,
    }
}

/// How many random bytes a new setting of a prefix takes where the caller brings none; 0 where the prefix is no method's.
#[unsafe(no_mangle)]
pub extern "C" fn pwcrypt_random_len(prefix: &[u8]) -> usize
    ensures len { result ≡ random_len (method_of prefix.now) }
{
    random_len(prefix)
}

/// What a setting is, by the numbers of crypt_checksalt(3).
#[unsafe(no_mangle)]
pub extern "C" fn pwcrypt_checksalt(setting: &[u8]) -> i32
    ensures status { result ≡ salt_number (salt_status setting.now) }
{
    salt_number(salt_status(setting))
}
