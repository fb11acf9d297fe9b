//! The line of an attribute.

ghost use Rattle.std.specs.Prelude.{◌≡◌, ◌≤◌, length};
ghost use Rattle.std.specs.List.{list_any};
ghost use Rattle.ldif_lines.specs.Attributes.{ends_name, is_dn, is_named, is_password, is_uid, line_name, line_text, name_by, small, text_by, value, value_in, without_fill};
ghost use Rattle.ldif_lines.specs.Limits.{line_most};
ghost use Rattle.line_io.specs.Lines.{is_feed};
ghost use Rattle.base64ct.specs.Decoding.{decoding};
ghost use Rattle.base64ct.specs.Alphabets.{base64};

use base64ct::{Base64, Encoding};
use pieces::places::first_place;
use pieces::short_bytes::ShortBytes;

/// The most bytes of a line that count.
pub(crate) const LINE_MOST: usize = 12_288;

/// A value of an attribute.
pub(crate) type Value = ShortBytes<LINE_MOST>;

// A letter is small.
fn small(b: u8) -> u8
    ensures { result ≡ small b }
{
    if b.is_ascii_uppercase() { b + 32 } else { b }
}

// Whether a line is of the attribute of a name that is written small.
fn is_named(name: &[u8], line: &[u8]) -> bool
    ensures { result ≡ is_named name.now line.now }
{
    let mut left = line;
    for c in name {
        match left.split_first() {
            Some((b, rest)) => {
                if small(*b) != *c {
                    return false;
                }
                left = rest;
            }
            None => return false,
        }
    }
    match left.first() {
        Some(b) => *b == b':' || *b == b';',
        None => false,
    }
}

/// Whether it is the distinguished name.
pub(crate) fn is_dn(line: &[u8]) -> bool
    ensures { result ≡ is_dn line.now }
{
    is_named(b"dn", line)
}

/// Whether it is the name of a user.
pub(crate) fn is_uid(line: &[u8]) -> bool
    ensures { result ≡ is_uid line.now }
{
    is_named(b"uid", line)
}

/// Whether it is a text of the user.
pub(crate) fn is_password(line: &[u8]) -> bool
    ensures { result ≡ is_password line.now }
{
    is_named(b"userpassword", line)
}

// The text without the spaces at its beginning.
fn without_fill(text: &[u8]) -> &[u8]
    ensures text { result.now ≡ without_fill text.now }
    ensures short { length result.now ≤ length text.now }
{
    let mut left = text;
    for _ in 0..text.len() {
        match left.split_first() {
            Some((b' ', rest)) => left = rest,
            _ => return left,
        }
    }
    left
}

// The bytes that a text in Base64 has.
fn decoded(text: &[u8]) -> Option<Value>
    requires short { length text.now ≤ line_most }
    ensures { result ≡ decoding base64 text.now }
{
    let mut room = [0; LINE_MOST];
    match Base64::decode_into(text, &mut room) {
        Ok(n) => Some(ShortBytes::from_slice(&room[..n])),
        Err(_) => None,
    }
}

// The value by what comes after the name's colon.
fn value_in(text: &[u8]) -> Option<Value>
    requires short { length text.now ≤ line_most }
    ensures { result ≡ value_in text.now }
{
    match text.split_first() {
        Some((b':', rest)) => decoded(without_fill(rest)),
        Some((b'<', _)) => None,
        _ => Some(ShortBytes::from_slice(without_fill(text))),
    }
}

// The value of a line.
#[tactic(auto, unfolding(crate::specs::Attributes::value))]
fn value(line: &[u8]) -> Option<Value>
    requires short { length line.now ≤ line_most }
    ensures { result ≡ value line.now }
{
    match first_place(line, b':') {
        Some(at) => value_in(&line[at + 1..]),
        None => None,
    }
}

// Whether a byte is one that no name of a user has.
fn ends_name(b: u8) -> bool
    ensures { result ≡ ends_name b }
{
    b == b':' || b == b'\t' || b == b'\n'
}

fn has_name_end(name: &[u8]) -> bool
    ensures { result ≡ list_any ends_name name.now }
{
    name.iter().any(|b| ends_name(*b))
}

fn has_feed(text: &[u8]) -> bool
    ensures { result ≡ list_any is_feed text.now }
{
    text.iter().any(|b| *b == b'\n')
}

fn name_by(value: Option<Value>) -> Value
    ensures { result ≡ name_by value }
{
    match value {
        Some(name) => {
            if has_name_end(name.as_slice()) {
                ShortBytes::from_slice(b"\t")
            } else {
                name
            }
        }
        None => ShortBytes::from_slice(b"\t"),
    }
}

fn text_by(value: Option<Value>) -> Value
    ensures { result ≡ text_by value }
{
    match value {
        Some(text) => {
            if has_feed(text.as_slice()) {
                ShortBytes::from_slice(&[255])
            } else {
                text
            }
        }
        None => ShortBytes::from_slice(&[255]),
    }
}

/// The name that a line gives.
pub(crate) fn line_name(line: &[u8]) -> Value
    requires short { length line.now ≤ line_most }
    ensures { result ≡ line_name line.now }
{
    name_by(value(line))
}

/// The text that a line gives.
pub(crate) fn line_text(line: &[u8]) -> Value
    requires short { length line.now ≤ line_most }
    ensures { result ≡ line_text line.now }
{
    text_by(value(line))
}
