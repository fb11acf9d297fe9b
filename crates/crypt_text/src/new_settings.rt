//! New settings.

ghost use Rattle.std.specs.Prelude.{◌≡◌, ◌≤◌, length};
ghost use Rattle.crypt_text.specs.NewSettings.{bcrypt_new, group_salt, long_salt, md5_new, method_new, new_rounds, new_setting, or_default, random_len, scrypt_new, sha_new, yescrypt_count_params, yescrypt_new};
ghost use Rattle.scheme_list.specs.Schemes.{method_of};

use crate::bytes::front;
use crate::fields::{crypt_field, two_digits};
use crate::sha1_settings::sha1_new;
use bcrypt_plain::encode_salt;
use pieces::short_bytes::ShortBytes;
use scheme_list::{Scheme, method_of};
use sha_crypt::{Family, push_rounds};
use yescrypt_plain::{ScryptParams, YescryptParams, scrypt_params_text, yescrypt_params_text};

/// Room for the longest new setting, of `$7$` with a salt of 64 bytes.
pub const SETTING_MAX: usize = 128;

/// How many random bytes a new setting of this prefix takes where the caller brings none; 0 where the prefix is no method's.
pub fn random_len(prefix: &[u8]) -> usize
    ensures len { result ≡ random_len (method_of prefix.now) }
{
    match method_of(prefix) {
        Some(Scheme::Md5Crypt) => 9,
        Some(Scheme::Sha256Crypt | Scheme::Sha512Crypt) => 15,
        Some(Scheme::Bcrypt | Scheme::Yescrypt | Scheme::ScryptCrypt) => 16,
        Some(Scheme::Sha1Crypt) => 20,
        _ => 0,
    }
}

// The count, or the one that stands for none.
pub(crate) fn or_default(count: u64, default: u64) -> u64
    ensures { result ≡ or_default count default }
{
    if count == 0 { default } else { count }
}

// The characters of a salt of groups of three bytes.
fn group_salt(most: usize, bytes: &[u8]) -> ShortBytes<86>
    requires some { 1 ≤ length bytes.now }
    requires most { most ≤ 64 }
    ensures { result ≡ group_salt most bytes.now }
{
    let used = (3 * ((bytes.len() - 1) / 3)).min(most);
    crypt_field(&bytes[..used])
}

// `$1$salt`.
fn md5_new(count: u64, bytes: &[u8]) -> Option<ShortBytes<SETTING_MAX>>
    ensures { result ≡ md5_new count bytes.now }
{
    if count != 0 || bytes.len() < 3 {
        return None;
    }
    let mut setting = ShortBytes::from_slice(b"$1$");
    setting.push_all(group_salt(6, bytes).as_slice());
    Some(setting)
}

// The rounds for a count, in range.
fn new_rounds(count: u64) -> u64
    ensures { result ≡ new_rounds count }
{
    or_default(count, 5_000).max(1_000).min(999_999_999)
}

// `$5$[rounds=N$]salt`, or with `$6$`.
fn sha_new(family: Family, count: u64, bytes: &[u8]) -> Option<ShortBytes<SETTING_MAX>>
    ensures { result ≡ sha_new family count bytes.now }
{
    if bytes.len() < 3 {
        return None;
    }
    let mut setting = ShortBytes::from_slice(match family {
        Family::Sha256 => b"$5$",
        Family::Sha512 => b"$6$",
    });
    let rounds = new_rounds(count);
    push_rounds(&mut setting, rounds != 5_000, rounds as usize);
    setting.push_all(group_salt(12, bytes).as_slice());
    Some(setting)
}

// `$2b$cost$salt`, with the prefix of the caller.
fn bcrypt_new(prefix: &[u8], count: u64, bytes: &[u8]) -> Option<ShortBytes<SETTING_MAX>>
    requires prefix { 4 ≤ length prefix.now }
    ensures { result ≡ bcrypt_new prefix.now count bytes.now }
{
    let cost = or_default(count, 5);
    if cost < 4 || 31 < cost || bytes.len() < 16 {
        return None;
    }
    let mut salt = [0u8; 16];
    salt.copy_from_slice(&bytes[..16]);
    let mut setting = ShortBytes::from_slice(&prefix[..4]);
    setting.push_all(&two_digits(cost as u32));
    setting.push_all(b"$");
    setting.push_all(&encode_salt(&salt));
    Some(setting)
}

// The characters of a salt of at most 64 bytes.
fn long_salt(bytes: &[u8]) -> ShortBytes<86>
    ensures { result ≡ long_salt bytes.now }
{
    crypt_field(front(bytes, 64))
}

// `$7$parameters-and-salt`.
fn scrypt_new(count: u64, bytes: &[u8]) -> Option<ShortBytes<SETTING_MAX>>
    ensures { result ≡ scrypt_new count bytes.now }
{
    let count = or_default(count, 7);
    if count < 6 || 11 < count || bytes.len() < 16 {
        return None;
    }
    let params = ScryptParams {
        ln: count as u32 + 7,
        r: 32,
        p: 1,
    };
    let mut setting = ShortBytes::from_slice(b"$7$");
    setting.push_all(scrypt_params_text(params).as_slice());
    setting.push_all(long_salt(bytes).as_slice());
    Some(setting)
}

// The parameters of a count of 1 to 11.
fn yescrypt_count_params(count: u32) -> YescryptParams
    requires most { count ≤ 11 }
    ensures { result ≡ yescrypt_count_params count }
{
    if count < 3 {
        YescryptParams {
            ln: count + 9,
            r: 8,
            t: 0,
        }
    } else {
        YescryptParams {
            ln: count + 7,
            r: 32,
            t: 0,
        }
    }
}

// `$y$parameters$salt`.
fn yescrypt_new(count: u64, bytes: &[u8]) -> Option<ShortBytes<SETTING_MAX>>
    ensures { result ≡ yescrypt_new count bytes.now }
{
    let count = or_default(count, 5);
    if count < 1 || 11 < count || bytes.len() < 16 {
        return None;
    }
    let params = yescrypt_count_params(count as u32);
    let mut setting = ShortBytes::from_slice(b"$y$");
    setting.push_all(yescrypt_params_text(params).as_slice());
    setting.push_all(b"$");
    setting.push_all(long_salt(bytes).as_slice());
    Some(setting)
}

/// The new setting of a prefix, a count and random bytes, as crypt_gensalt(3) makes it. The prefix need only begin with a
/// method's. None where the method does not take the count, or where the bytes are too few.
///
/// A count of 0 stands for the method's default. `$1$` takes no other; `$5$`, `$6$` and `$sha1` bring the rounds into range; bcrypt takes
/// costs of 4 to 31, `$7$` counts of 6 to 11 and `$y$` of 1 to 11. `$1$`, `$5$` and `$6$` take three bytes and more, the others
/// 16 and more. The rounds of `$sha1` are up to a quarter fewer than the count, by the first four bytes.
#[tactic(auto, unfolding(crate::specs::NewSettings::new_setting))]
pub fn new_setting(prefix: &[u8], count: u64, bytes: &[u8]) -> Option<ShortBytes<SETTING_MAX>>
    ensures setting { result ≡ new_setting prefix.now count bytes.now }
{
    match method_of(prefix) {
        Some(Scheme::Md5Crypt) => md5_new(count, bytes),
        Some(Scheme::Sha256Crypt) => sha_new(Family::Sha256, count, bytes),
        Some(Scheme::Sha512Crypt) => sha_new(Family::Sha512, count, bytes),
        Some(Scheme::Bcrypt) => bcrypt_new(prefix, count, bytes),
        Some(Scheme::Yescrypt) => yescrypt_new(count, bytes),
        Some(Scheme::ScryptCrypt) => scrypt_new(count, bytes),
        Some(Scheme::Sha1Crypt) => sha1_new(count, bytes),
        _ => None,
    }
}
