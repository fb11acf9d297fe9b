//! Lines of users and foreign texts, each with its text converted.

ghost use Rattle.std.specs.Prelude.{◌≡◌, ◌≤◌, ◌∷◌, ◌++◌, length};
ghost use Rattle.line_io.specs.Limits.{line_max};
ghost use Rattle.application_texts.specs.Makers.{read_by};
ghost use Rattle.foreign_text.specs.Views.{as_answer};
ghost use Rattle.foreign_lines.specs.Converting.{by_stored, by_text, by_utf8, converted_line, stays, unconverted_line, user_text, with_stored};

use crate::lines::behind_mark;
use crate::parts::{is_locked_by, text_in, utf8_text};
use application_texts::{Maker, maker_text};
use foreign_text::{ForeignFault, MadeText};
use line_filter::LineRule;
use line_io::LINE_MAX;
use pieces::short_bytes::ShortBytes;
use shadow_fields::cut_user;

/// The converted lines of users and texts of a maker, for `line_filter::MappedLines` before what sets the texts of users.
///
/// A text that is converted takes the foreign one's place, and no field after the text is kept. An empty text stays, and so does one that
/// begins with `*` or `!`, but where the maker's text may be the password itself; an account that is locked in the maker's own way
/// gets `!`. A line that isn't one of a user and a text, or whose text isn't converted, gives an empty line: what sets texts
/// refuses that one.
#[derive(Clone, Copy, Debug, Drop)]
pub struct ConvertedTexts {
    /// Whose spelling the texts have.
    pub foreign: Maker,
}

// The line of a user and a text, where it fits.
fn user_text(user: &[u8], text: &[u8]) -> ShortBytes<LINE_MAX>
    ensures line { result ≡ user_text user.now text.now }
{
    match behind_mark(user, b':', text) {
        Some(line) => line,
        None => ShortBytes::new(),
    }
}

// The line of a user whose text isn't converted.
fn unconverted_line(user: &[u8], fault: ForeignFault) -> ShortBytes<LINE_MAX>
    ensures line { result ≡ unconverted_line user.now fault }
{
    match fault {
        ForeignFault::Locked => user_text(user, b"!"),
        _ => ShortBytes::new(),
    }
}

// The line of a user and a converted text.
fn with_stored(user: &[u8], stored: &[u8]) -> ShortBytes<LINE_MAX>
    ensures line { result ≡ with_stored user.now stored.now }
{
    if stored.contains(&b':') {
        return ShortBytes::new();
    }
    user_text(user, stored)
}

// The line of a user and a foreign text.
fn by_stored(foreign: Maker, user: &[u8], text: &str) -> ShortBytes<LINE_MAX>
    ensures line { result ≡ by_stored user.now (read_by foreign text.now) }
{
    let mut made = MadeText::new();
    match maker_text(foreign, text, &mut made) {
        Ok(Some(held)) => with_stored(user, held.as_bytes()),
        Ok(None) => with_stored(user, made.as_slice()),
        Err(fault) => unconverted_line(user, fault),
    }
}

// The same of a text that may be no UTF-8.
fn by_utf8(foreign: Maker, user: &[u8], text: &[u8]) -> ShortBytes<LINE_MAX>
    ensures line { result ≡ by_utf8 foreign user.now text.now }
{
    match utf8_text(text) {
        Some(text) => by_stored(foreign, user, text),
        None => ShortBytes::new(),
    }
}

// Whether a text stays as it is.
fn stays(foreign: Maker, text: &[u8]) -> bool
    ensures { result ≡ stays foreign text.now }
{
    text.is_empty() || is_locked_by(foreign, text)
}

// The line of a user and any text.
fn by_text(foreign: Maker, user: &[u8], text: &[u8]) -> ShortBytes<LINE_MAX>
    ensures line { result ≡ by_text foreign user.now text.now }
{
    if stays(foreign, text) {
        user_text(user, text)
    } else {
        by_utf8(foreign, user, text)
    }
}

// A line with its text converted.
#[tactic(auto, unfolding(crate::specs::Converting::converted_line))]
fn converted_line(foreign: Maker, line: &[u8]) -> ShortBytes<LINE_MAX>
    ensures line { result ≡ converted_line foreign line.now }
{
    match cut_user(line) {
        Some((user, rest)) => by_text(foreign, user, text_in(foreign, rest)),
        None => ShortBytes::new(),
    }
}

impl LineRule for ConvertedTexts {
    ghost use Rattle.foreign_lines.specs.Converting.{converted_line};

    ghost rule = { λ texts. converted_line texts.foreign };

    fn line(&self, line: &[u8]) -> ShortBytes<LINE_MAX> {
        converted_line(self.foreign, line)
    }
}
