//! Texts `$1$`.

ghost use Rattle.std.specs.Prelude.{◌≡◌, ◌≤◌, length};
ghost use Rattle.crypt_text.specs.Limits.{phrase_max};
ghost use Rattle.crypt_text.specs.Settings.{md5_salt};
ghost use Rattle.crypt_text.specs.Texts.{md5_text};

use crate::TEXT_MAX;
use crate::bytes::{before_dollar, front};
use md5_plain::{Magic, encode_md5, md5_crypt};
use pieces::short_bytes::ShortBytes;

// The salt: its first 8 bytes.
fn md5_salt(rest: &[u8]) -> &[u8]
    ensures salt { result.now ≡ md5_salt rest.now }
    ensures short { length result.now ≤ 8 }
{
    front(before_dollar(rest), 8)
}

/// The text for a phrase, and what stands behind the prefix of a setting.
#[inline(never)]
pub(crate) fn md5_text(phrase: &[u8], rest: &[u8]) -> ShortBytes<TEXT_MAX>
    requires phrase { length phrase.now ≤ phrase_max }
    ensures text { result ≡ md5_text phrase.now rest.now }
{
    let salt = md5_salt(rest);
    let mut text = ShortBytes::from_slice(b"$1$");
    text.push_all(salt);
    text.push_all(b"$");
    text.push_all(&encode_md5(&md5_crypt(phrase, salt, Magic::Md5)));
    text
}
