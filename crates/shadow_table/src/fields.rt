//! The names and the texts of users.

ghost use Rattle.std.specs.Prelude.{◌≡◌};
ghost use Rattle.std.specs.List.{list_any};
ghost use Rattle.shadow_table.specs.Fields.{begins_low, has_name_bytes, has_wide_control, is_cut_byte, is_field, is_field_byte, is_locked_text, is_user_name, is_wide};

// The most bytes of a name.
const NAME_MAX: usize = 64;

// Whether this is a control character of one byte, or a colon.
fn is_cut_byte(b: u8) -> bool
    ensures { result ≡ is_cut_byte b }
{
    b < 32 || b == 127 || b == b':'
}

// Whether there is such a byte.
fn has_cut_byte(bytes: &[u8]) -> bool
    ensures { result ≡ list_any is_cut_byte bytes.now }
{
    bytes.iter().any(|b| is_cut_byte(*b))
}

// Whether the first byte is below 0xA0.
fn begins_low(bytes: &[u8]) -> bool
    ensures { result ≡ begins_low bytes.now }
{
    match bytes {
        [] => false,
        [first, ..] => *first < 0xA0,
    }
}

// Whether this byte and the first of the rest are a control character.
fn is_wide(first: u8, rest: &[u8]) -> bool
    ensures { result ≡ is_wide first rest.now }
{
    first == 0xC2 && begins_low(rest)
}

// Whether there is a control character of two bytes.
fn has_wide_control(bytes: &[u8]) -> bool
    ensures { result ≡ has_wide_control bytes.now }
{
    match bytes.split_first() {
        Some((first, rest)) => is_wide(*first, rest) || has_wide_control(rest),
        None => false,
    }
}

// Whether the bytes are those of a name, where they are UTF-8.
fn has_name_bytes(bytes: &[u8]) -> bool
    ensures { result ≡ has_name_bytes bytes.now }
{
    1 <= bytes.len() && bytes.len() <= NAME_MAX && !has_cut_byte(bytes) && !has_wide_control(bytes)
}

/// Whether this is the name of a user: 1 to 64 bytes of UTF-8 without control characters and colons.
pub fn is_user_name(name: &str) -> bool
    ensures name { result ≡ is_user_name name.now }
{
    has_name_bytes(name.as_bytes())
}

// Whether this is printable ASCII but the colon.
fn is_field_byte(b: u8) -> bool
    ensures { result ≡ is_field_byte b }
{
    32 <= b && b <= 126 && b != b':'
}

/// Whether this is a text that a field of a shadow file can have: printable ASCII without a colon.
pub fn is_field(text: &str) -> bool
    ensures field { result ≡ is_field text.now }
{
    text.as_bytes().iter().all(|b| is_field_byte(*b))
}

/// Whether the text is locked: it begins with `*` or `!`.
pub fn is_locked_text(text: &str) -> bool
    ensures locked { result ≡ is_locked_text text.now }
{
    match text.as_bytes() {
        [] => false,
        [first, ..] => *first == b'*' || *first == b'!',
    }
}
