//! Texts of MySQL.

ghost use Rattle.std.specs.Prelude.{◌≡◌, ◌≤◌, drop, length};
ghost use Rattle.std.specs.Bool.{OnTrue};
ghost use Rattle.std.specs.Char.{is_ascii_hexdigit};
ghost use Rattle.std.specs.List.{list_all};
ghost use Rattle.foreign_text.specs.Fields.{is_capital_digit};
ghost use Rattle.foreign_text.specs.Views.{as_answer};
ghost use Rattle.application_texts.specs.MySql.{capitals, has_salt, is_thousands, mysql, mysql_bytes, mysql_digits, mysql_hash, mysql_parts, mysql_rounds};
ghost use Rattle.application_texts.specs.MySql.{mysql_salt, mysql_text, mysql_unread};

use foreign_text::answers::put_made;
use foreign_text::fields::small_hex;
use foreign_text::{FieldBytes, ForeignFault, MadeText, Unread};
use pieces::short_bytes::ShortBytes;
use pieces::{begins_with, behind};

fn is_capital_digit(b: u8) -> bool
    ensures { result ≡ is_capital_digit b }
{
    b.is_ascii_digit() || (b'A' <= b && b <= b'F')
}

fn are_capital(field: &[u8]) -> bool
    ensures { result ≡ list_all is_capital_digit field.now }
{
    field.iter().all(|b| is_capital_digit(*b))
}

fn are_digits(field: &[u8]) -> bool
    ensures { result ≡ list_all is_ascii_hexdigit field.now }
{
    field.iter().all(|b| b.is_ascii_hexdigit())
}

// Whether three characters are the thousands of the rounds.
fn is_thousands(thousands: &[u8]) -> bool
    ensures { result ≡ is_thousands thousands.now }
{
    thousands.len() == 3 && are_capital(thousands)
}

// The digits with capital letters.
fn capitals(digits: &[u8]) -> ShortBytes<86>
    requires few { length digits.now ≤ 86 }
    ensures digits { result ≡ capitals digits.now }
    ensures len { length result ≡ length digits.now }
{
    let mut room = [0; 86];
    let cells = &mut room[..digits.len()];
    cells.copy_from_slice(digits);
    cells.make_ascii_uppercase();
    ShortBytes::from_slice(cells)
}

// The text of the thousands, and of the digits of the salt and of the hash.
#[tactic(auto, unfolding(crate::specs::MySql::mysql_text))]
fn mysql_text(thousands: &[u8], salt: &[u8], hash: &[u8]) -> MadeText
    requires three { length thousands.now ≤ 3 }
    requires salt { length salt.now ≤ 40 }
    requires hash { length hash.now ≤ 86 }
    ensures { result ≡ mysql_text thousands.now salt.now hash.now }
{
    let mut text = ShortBytes::from_slice(b"$mysql$A$");
    text.push_all(thousands);
    text.push_all(b"*");
    text.push_all(capitals(salt).as_slice());
    text.push_all(b"*");
    text.push_all(capitals(hash).as_slice());
    text
}

// The text by the digits of the hash.
fn mysql_hash(thousands: &[u8], salt: &[u8], hash: &[u8]) -> Result<MadeText, ForeignFault>
    requires three { length thousands.now ≤ 3 }
    requires salt { length salt.now ≤ 40 }
    ensures { result ≡ mysql_hash thousands.now salt.now hash.now }
{
    if !are_digits(hash) {
        return Err(ForeignFault::Hash);
    }
    if hash.len() == 86 {
        Ok(mysql_text(thousands, salt, hash))
    } else {
        Err(ForeignFault::HashLength)
    }
}

// The text by the digits of the salt.
fn mysql_salt(thousands: &[u8], salt: &[u8], hash: &[u8]) -> Result<MadeText, ForeignFault>
    requires three { length thousands.now ≤ 3 }
    requires salt { length salt.now ≤ 40 }
    ensures { result ≡ mysql_salt thousands.now salt.now hash.now }
{
    if are_digits(salt) {
        mysql_hash(thousands, salt, hash)
    } else {
        Err(ForeignFault::Salt)
    }
}

// The text by the characters of the thousands.
fn mysql_rounds(
    thousands: Option<FieldBytes>,
    salt: &[u8],
    hash: &[u8],
) -> Result<MadeText, ForeignFault>
    requires salt { length salt.now ≤ 40 }
    ensures { result ≡ mysql_rounds thousands salt.now hash.now }
{
    let Some(thousands) = thousands else {
        return Err(ForeignFault::Rounds);
    };
    if is_thousands(thousands.as_slice()) {
        mysql_salt(thousands.as_slice(), salt, hash)
    } else {
        Err(ForeignFault::Rounds)
    }
}

// Whether digits are those of `$`, and at least those of the salt.
fn has_salt(others: &[u8]) -> bool
    ensures has { result ≡ has_salt others.now }
    ensures room { OnTrue result (42 ≤ length others.now) }
{
    42 <= others.len() && others.starts_with(b"24")
}

// The digits after those of `$`.
fn after_dollar(others: &[u8]) -> &[u8]
    requires { 42 ≤ length others.now }
    ensures after { result.now ≡ drop 2 others.now }
    ensures room { 40 ≤ length result.now }
{
    &others[2..]
}

// The text by the digits of the thousands, and those after them.
fn mysql_parts(thousands: &[u8], others: &[u8]) -> Result<MadeText, ForeignFault>
    ensures { result ≡ mysql_parts thousands.now others.now }
{
    if !has_salt(others) {
        return Err(ForeignFault::Form);
    }
    let (salt, hash) = after_dollar(others).split_at(40);
    mysql_rounds(small_hex(thousands), salt, hash)
}

// The text by the digits after those of `$A$`.
fn mysql_digits(rest: &[u8]) -> Result<MadeText, ForeignFault>
    ensures { result ≡ mysql_digits rest.now }
{
    if rest.len() < 6 {
        return Err(ForeignFault::Form);
    }
    let (thousands, others) = rest.split_at(6);
    mysql_parts(thousands, others)
}

// The scheme of a text that isn't read.
fn mysql_unread(text: &str) -> Unread
    ensures { result ≡ mysql_unread text.now }
{
    if begins_with(text, "*") || begins_with(text, "2A") || begins_with(text, "2a") {
        Unread::Sha1
    } else {
        Unread::Other
    }
}

// The text by the digits.
fn mysql_bytes(text: &str) -> Result<MadeText, ForeignFault>
    ensures { result ≡ mysql_bytes text.now }
{
    match behind(text, "244124") {
        Some(rest) => mysql_digits(rest.as_bytes()),
        None => Err(ForeignFault::Unread(mysql_unread(text))),
    }
}

/// The stored text of a text of MySQL.
#[tactic(auto, unfolding(crate::specs::MySql::mysql))]
pub(crate) fn mysql<'a>(text: &str, made: &mut MadeText) -> Result<Option<&'a str>, ForeignFault>
    ensures { as_answer result made.new ≡ mysql text.now }
{
    match behind(text, "0x") {
        Some(digits) => put_made(mysql_bytes(digits), made),
        None => put_made(mysql_bytes(text), made),
    }
}
