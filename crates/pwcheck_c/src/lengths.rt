//! Lengths of Base64.

ghost use Rattle.std.specs.Prelude.{◌≡◌, ◌==◌, ◌≤◌, ◌-◌, MatchOption, count_by, drop, length};
ghost use Rattle.base64ct.specs.Encoding.{decoded_len, equals_sign, longest_input, unpadded_len};
ghost use Rattle.pwcheck_c.specs.Coder.{IsEncodedLen, alphabet_of};

use base64ct::{
    Base64, Base64Bcrypt, Base64Crypt, Base64Pbkdf2, Base64ShaCrypt, Base64Unpadded, Base64Url,
    Base64UrlUnpadded, Encoding,
};

// How many characters encode n bytes, without the padding.
fn unpadded_len(n: usize) -> usize
    requires { n ≤ longest_input }
    ensures { result ≡ unpadded_len n }
{
    4 * (n / 3) + (4 * (n % 3) + 2) / 3
}

// How many characters encode n bytes.
fn encoded_len_in<E: Encoding>(padded: bool, n: usize) -> usize
    requires padded { E.alphabet.padded ≡ padded }
    ensures len { IsEncodedLen E.alphabet n result }
{
    if n > usize::MAX / 4 {
        return 0;
    }
    let count = unpadded_len(n);
    let padding = if padded { (4 - count % 4) % 4 } else { 0 };
    count + padding
}

// The number of `=` among the last two bytes.
fn count_padding(src: &[u8]) -> usize
    ensures count { result ≡ count_by (λ c. c == equals_sign) (drop (length src.now - 2) src.now) }
    ensures few { result ≤ length src.now }
{
    match *src {
        [.., c, d] => usize::from(c == b'=') + usize::from(d == b'='),
        [c] => usize::from(c == b'='),
        [] => 0,
    }
}

// How many bytes a text stands for without its padding.
fn decoded_len_in<E: Encoding>(padded: bool, src: &[u8]) -> usize
    requires padded { E.alphabet.padded ≡ padded }
    ensures len { result ≡ decoded_len E.alphabet src.now }
{
    let padding = if padded { count_padding(src) } else { 0 };
    let count = src.len() - padding;
    3 * (count / 4) + 3 * (count % 4) / 4
}

/// How many characters encode n bytes in the alphabet with this number; 0 for more than `usize::MAX / 4` bytes, and for
/// another number.
#[unsafe(no_mangle)]
pub extern "C" fn pwcheck_base64_encoded_len(alphabet: u32, n: usize) -> usize
    ensures len { MatchOption (alphabet_of alphabet) (result ≡ 0) (λ a. IsEncodedLen a n result) }
{
    match alphabet {
        0 => encoded_len_in::<Base64>(true, n),
        1 => encoded_len_in::<Base64Unpadded>(false, n),
        2 => encoded_len_in::<Base64Url>(true, n),
        3 => encoded_len_in::<Base64UrlUnpadded>(false, n),
        4 => encoded_len_in::<Base64Bcrypt>(false, n),
        5 => encoded_len_in::<Base64Crypt>(false, n),
        6 => encoded_len_in::<Base64Pbkdf2>(false, n),
        7 => encoded_len_in::<Base64ShaCrypt>(false, n),
        _ => 0,
    }
}

/// How many bytes a text stands for without its padding, in the alphabet with this number: the room that decoding it
/// wants. 0 for another number.
#[unsafe(no_mangle)]
pub extern "C" fn pwcheck_base64_decoded_len(alphabet: u32, src: &[u8]) -> usize
    ensures len { MatchOption (alphabet_of alphabet) (result ≡ 0) (λ a. result ≡ decoded_len a src.now) }
{
    match alphabet {
        0 => decoded_len_in::<Base64>(true, src),
        1 => decoded_len_in::<Base64Unpadded>(false, src),
        2 => decoded_len_in::<Base64Url>(true, src),
        3 => decoded_len_in::<Base64UrlUnpadded>(false, src),
        4 => decoded_len_in::<Base64Bcrypt>(false, src),
        5 => decoded_len_in::<Base64Crypt>(false, src),
        6 => decoded_len_in::<Base64Pbkdf2>(false, src),
        7 => decoded_len_in::<Base64ShaCrypt>(false, src),
        _ => 0,
    }
}
