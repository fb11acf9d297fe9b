//! Hexadecimal digits with capital letters.

ghost use Rattle.std.specs.Prelude.{◌≡◌, ◌≤◌, IfSome, true};
ghost use Rattle.std.specs.List.{list_all};
ghost use Rattle.mysql_sha2.specs.Text.{capital_bytes, digit_value, is_capital_digit, rounds_of};

use hex::FromHex;

// Whether a byte is one of `0-9A-F`.
fn is_capital_digit(b: u8) -> bool
    ensures { result ≡ is_capital_digit b }
{
    (48 <= b && b <= 57) || (65 <= b && b <= 70)
}

// Whether each byte is one of these.
fn are_capital(text: &[u8]) -> bool
    ensures { result ≡ list_all is_capital_digit text.now }
{
    text.iter().all(|b| is_capital_digit(*b))
}

/// The `N` bytes that such digits write, two each.
pub(crate) fn capital_bytes<const N: usize>(text: &[u8]) -> Option<[u8; N]>
    ensures { result ≡ capital_bytes N text.now }
{
    if !are_capital(text) {
        return None;
    }
    match <[u8; N]>::from_hex(text) {
        Ok(bytes) => Some(bytes),
        Err(_) => None,
    }
}

// The value of such a digit.
fn digit_value(b: u8) -> u32
    requires digit { is_capital_digit b ≡ true }
    ensures value { result ≡ digit_value b }
    ensures small { result ≤ 15 }
{
    if b <= 57 {
        (b - 48) as u32
    } else {
        (b - 55) as u32
    }
}

/// The rounds whose thousands three digits write.
pub(crate) fn rounds_of(text: &[u8]) -> Option<u32>
    ensures rounds { result ≡ rounds_of text.now }
    ensures most { IfSome result (λ n. n ≤ 4095000) }
{
    match text {
        [a, b, c] if is_capital_digit(*a) && is_capital_digit(*b) && is_capital_digit(*c) => {
            let n = 256 * digit_value(*a) + 16 * digit_value(*b) + digit_value(*c);
            if 5 <= n { Some(1000 * n) } else { None }
        }
        _ => None,
    }
}
