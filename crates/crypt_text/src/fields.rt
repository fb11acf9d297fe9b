//! Pieces of texts that are put together.

ghost use Rattle.std.specs.Prelude.{◌≡◌, ◌≤◌, ◌<◌, ◌+◌, ◌*◌, ◌/◌, ◌++◌, length};
ghost use Rattle.std.specs.Fmt.{decimal};
ghost use Rattle.bcrypt_plain.specs.Made.{two_digits};
ghost use Rattle.sha_crypt.specs.Fields.{old_number};
ghost use Rattle.yescrypt_plain.specs.Field.{crypt_field};

use base64ct::{Base64ShaCrypt, Encoding};
use pieces::short_bytes::ShortBytes;
use pieces::text::text_of;

/// The characters of at most 64 bytes, the low bits first.
pub(crate) fn crypt_field(bytes: &[u8]) -> ShortBytes<86>
    requires most { length bytes.now ≤ 64 }
    ensures field { result ≡ crypt_field bytes.now }
    ensures len { length result ≡ (4 * length bytes.now + 2) / 3 }
{
    let mut field = [0u8; 86];
    match Base64ShaCrypt::encode(bytes, &mut field) {
        Ok(characters) => ShortBytes::from_slice(characters.as_bytes()),
        Err(_) => ShortBytes::new(),
    }
}

/// The two digits of a number.
pub(crate) fn two_digits(n: u32) -> [u8; 2]
    requires { n ≤ 99 }
    ensures { result ≡ two_digits n }
{
    [48 + (n / 10) as u8, 48 + (n % 10) as u8]
}

/// Adds a number in decimal digits.
pub(crate) fn push_number<const N: usize>(text: &mut ShortBytes<N>, n: u32)
    requires room { length text.old + 10 ≤ N }
    ensures appended { text.new ≡ text.old ++ decimal n }
    ensures len { length text.new ≤ length text.old + 10 }
{
    text.push_decimal(n as u64);
}

/// The number that digits write, with or without zeros and a `+` in front.
pub(crate) fn old_number(digits: &str) -> Option<usize>
    ensures { result ≡ old_number digits.now }
{
    match digits.parse::<usize>() {
        Ok(number) => Some(number),
        Err(_) => None,
    }
}

/// The same of bytes.
pub(crate) fn number_of(digits: &[u8]) -> Option<usize>
    ensures { result ≡ old_number digits.now }
{
    match text_of(digits) {
        Some(text) => old_number(text),
        None => None,
    }
}
