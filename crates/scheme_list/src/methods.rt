//! Which prefix is whose: the methods of crypt(3).

ghost use Rattle.std.specs.Prelude.{◌≡◌, ◌≤◌, IfSome, Some, drop, length, nat_eq, true};
ghost use Rattle.std.specs.List.{starts_with};
ghost use Rattle.scheme_list.specs.Schemes.{has_prefix, look_up, method_of, schemes};

use crate::Scheme;

// Whether a setting begins with a prefix.
fn begins(setting: &[u8], prefix: &[u8]) -> bool
    ensures test { result ≡ starts_with nat_eq setting.now prefix.now }
    ensures long { result ≡ true → length prefix.now ≤ length setting.now }
{
    setting.starts_with(prefix)
}

// Whether a setting begins with one of the prefixes of bcrypt.
fn begins_bcrypt(setting: &[u8]) -> bool
    ensures test { result ≡ has_prefix setting.now Scheme.Bcrypt }
    ensures long { result ≡ true → 4 ≤ length setting.now }
{
    begins(setting, b"$2a$") || begins(setting, b"$2b$") || begins(setting, b"$2y$")
}

// The schemes from bcrypt on.
fn further_method(setting: &[u8]) -> Option<Scheme>
    ensures method { result ≡ look_up (has_prefix setting.now) (drop 3 schemes) }
    ensures long { IfSome result (λ _. 3 ≤ length setting.now) }
    ensures bcrypt { result ≡ Some Scheme.Bcrypt → 4 ≤ length setting.now }
{
    if begins_bcrypt(setting) {
        Some(Scheme::Bcrypt)
    } else if begins(setting, b"$y$") {
        Some(Scheme::Yescrypt)
    } else if begins(setting, b"$7$") {
        Some(Scheme::ScryptCrypt)
    } else if begins(setting, b"$sha1") {
        Some(Scheme::Sha1Crypt)
    } else {
        None
    }
}

/// The scheme whose method of crypt(3) answers a setting, by its prefix alone: md5-crypt for `$1$`, SHA-crypt for `$5$` and
/// `$6$`, bcrypt for `$2a$`, `$2b$` and `$2y$`, yescrypt for `$y$`, scrypt for `$7$`, and sha1-crypt for `$sha1`.
pub fn method_of(setting: &[u8]) -> Option<Scheme>
    ensures method { result ≡ method_of setting.now }
    ensures long { IfSome result (λ _. 3 ≤ length setting.now) }
    ensures bcrypt { result ≡ Some Scheme.Bcrypt → 4 ≤ length setting.now }
{
    if begins(setting, b"$1$") {
        Some(Scheme::Md5Crypt)
    } else if begins(setting, b"$5$") {
        Some(Scheme::Sha256Crypt)
    } else if begins(setting, b"$6$") {
        Some(Scheme::Sha512Crypt)
    } else {
        further_method(setting)
    }
}
