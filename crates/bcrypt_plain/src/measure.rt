//! The passwords that the safety measure of `2a` is for.

ghost use Rattle.std.specs.Prelude.{◌≡◌};
ghost use Rattle.bcrypt_plain.specs.Measure.{is_filled, is_high, is_kept, is_measured, is_ones};

use crate::schedule::password_word;

// Whether the fault of `2x` takes a byte as a negative number.
fn is_high(b: u8) -> bool
    ensures { result ≡ is_high b }
{
    b >= 128
}

// Whether a byte has ones alone.
fn is_ones(b: u8) -> bool
    ensures { result ≡ is_ones b }
{
    b == 255
}

// Whether the fault puts ones in front of a byte of a word.
fn is_filled(a: u8, b: u8, c: u8, d: u8) -> bool
    ensures { result ≡ is_filled a b c d }
{
    is_high(b) | is_high(c) | is_high(d)
}

// Whether there are ones already wherever it puts some.
fn is_kept(a: u8, b: u8, c: u8, d: u8) -> bool
    ensures { result ≡ is_kept a b c d }
{
    let two = is_ones(a) & is_ones(b);
    (!is_high(b) | is_ones(a)) & (!is_high(c) | two) & (!is_high(d) | (two & is_ones(c)))
}

/// Whether the measure is for a password. All its words are looked at, by steps that do not depend on their bytes.
pub(crate) fn is_measured(password: &[u8]) -> bool
    ensures { result ≡ is_measured password.now }
{
    let mut kept = true;
    let mut filled = false;
    'words: for i in 0..18 {
        let [a, b, c, d] = password_word(password, i);
        kept &= is_kept(a, b, c, d);
        filled |= is_filled(a, b, c, d);
    }
    kept & filled
}
