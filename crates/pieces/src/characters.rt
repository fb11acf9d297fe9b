//! Characters that several formats share.

ghost use Rattle.std.specs.Prelude.{◌≡◌};
ghost use Rattle.std.specs.List.{list_all};
ghost use Rattle.pieces.specs.Characters.{is_crypt_character, is_name_byte};

/// Whether a byte is one of `a-z`, `0-9` and `-`: a character of an identifier, and of a PHC name.
pub fn is_name_byte(b: u8) -> bool
    ensures { result ≡ is_name_byte b }
{
    b.is_ascii_lowercase() || b.is_ascii_digit() || b == b'-'
}

/// Whether all bytes are such characters.
pub fn has_name_bytes(bytes: &[u8]) -> bool
    ensures { result ≡ list_all is_name_byte bytes.now }
{
    bytes.iter().all(|b| is_name_byte(*b))
}

/// Whether a byte is one of `.`, `/`, `0-9`, `A-Z` and `a-z`: a character of the texts of crypt(5).
#[inline]
pub fn is_crypt_character(c: u8) -> bool
    ensures { result ≡ is_crypt_character c }
{
    46 <= c && c <= 57 || 65 <= c && c <= 90 || 97 <= c && c <= 122
}

/// Whether all bytes are such characters.
pub fn are_crypt_characters(text: &[u8]) -> bool
    ensures { result ≡ list_all is_crypt_character text.now }
{
    text.iter().all(|c| is_crypt_character(*c))
}
