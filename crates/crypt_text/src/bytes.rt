//! The bytes of settings, how they begin, and settings cut at a `$`.

ghost use Rattle.std.specs.Prelude.{◌≡◌, ◌≤◌, ◌+◌, MatchOption, length, take, true, false};
ghost use Rattle.pieces.specs.Pieces.{begins};
ghost use Rattle.crypt_text.specs.Settings.{after_dollar, before_dollar, before_last_dollar, has_dollar, has_refused, is_refused};

use pieces::places::{first_place, last_place};

// Whether no setting has this byte.
fn is_refused(b: u8) -> bool
    ensures { result ≡ is_refused b }
{
    b <= 32 || 127 <= b || b == b'!' || b == b'*' || b == b':' || b == b';' || b == b'\\'
}

/// Whether a byte stands in a setting that none has.
pub(crate) fn has_refused(setting: &[u8]) -> bool
    ensures { result ≡ has_refused setting.now }
{
    setting.iter().any(|b| is_refused(*b))
}

/// The first bytes of a text, at most so many.
pub(crate) fn front(bytes: &[u8], most: usize) -> &[u8]
    ensures value { result.now ≡ take most bytes.now }
    ensures short { length result.now ≤ most }
{
    if bytes.len() > most {
        &bytes[..most]
    } else {
        bytes
    }
}

/// What stands before the first `$`; all, where there is none.
pub(crate) fn before_dollar(text: &[u8]) -> &[u8]
    ensures before { result.now ≡ before_dollar text.now }
{
    match first_place(text, b'$') {
        Some(at) => &text[..at],
        None => text,
    }
}

/// What stands before the first `$` and behind it, where there is one.
pub(crate) fn cut_at_dollar(text: &[u8]) -> Option<(&[u8], &[u8])>
    ensures cut { MatchOption result (has_dollar text.now ≡ false) (λ parts. (has_dollar text.now ≡ true)
        × (parts.0.now ≡ before_dollar text.now) × (parts.1.now ≡ after_dollar text.now)
        × (length parts.0.now + length parts.1.now + 1 ≡ length text.now)) }
{
    match first_place(text, b'$') {
        Some(at) => Some((&text[..at], &text[at + 1..])),
        None => None,
    }
}

/// What stands before the last `$`; all, where there is none.
pub(crate) fn before_last_dollar(text: &[u8]) -> &[u8]
    ensures before { result.now ≡ before_last_dollar text.now }
    ensures short { length result.now ≤ length text.now }
{
    match last_place(text, b'$') {
        Some(at) => &text[..at],
        None => text,
    }
}

/// Whether a text begins with `front`.
pub(crate) fn begins(text: &[u8], front: &[u8]) -> bool
    ensures test { result ≡ begins text.now front.now }
    ensures long { result ≡ true → length front.now ≤ length text.now }
{
    text.starts_with(front)
}
