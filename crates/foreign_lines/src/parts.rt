//! The stored text of a line.

ghost use Rattle.std.specs.Prelude.{◌≡◌, MatchOption, false, true};
ghost use Rattle.std.specs.Str.{is_utf8};
ghost use Rattle.foreign_lines.specs.Parts.{cut_parts, is_locked_by, parts_in, password_parts, text_in, text_parts, user_password_parts, user_text_parts, utf8_parts};
ghost use Rattle.foreign_lines.specs.Views.{as_parts};

use application_texts::Maker;
use line_program::cut_at_last_tab;
use pieces::text::text_of;
use shadow_fields::{cut_field, cut_user, is_locked};

/// What a line is, by where its stored text stands.
#[derive(Clone, Copy, Debug, PartialEq, Eq)]
pub enum LineForm {
    /// A password, a tab and a stored text.
    Password,
    /// A user, a colon, and the same.
    UserPassword,
    /// A user, a colon and a stored text, which ends at the next colon, or at the line's end where the maker's texts have colons.
    UserText,
    /// The same, for a survey.
    Surveyed,
}

// A line's user and password, where it has them, and its stored text.
#[derive(Clone, Copy, Debug)]
pub(crate) struct LineParts<'a> {
    pub user: &'a [u8],
    pub password: &'a [u8],
    pub text: &'a str,
}

/// The text that these bytes are.
pub(crate) fn utf8_text(bytes: &[u8]) -> Option<&str>
    ensures text { MatchOption result (is_utf8 bytes.now ≡ false)
        (λ text. (is_utf8 bytes.now ≡ true) × (text.now ≡ bytes.now)) }
{
    match text_of(bytes) {
        Some(text) => Some(text),
        None => None,
    }
}

// The parts of a text, cut at its last tab.
fn cut_parts<'a>(user: &'a [u8], text: &'a str) -> Option<LineParts<'a>>
    ensures { as_parts result ≡ cut_parts user.now text.now }
{
    match cut_at_last_tab(text) {
        Some((password, text)) => Some(LineParts {
            user,
            password: password.as_bytes(),
            text,
        }),
        None => None,
    }
}

// The parts of a password, a tab and a stored text.
fn password_parts<'a>(user: &'a [u8], rest: &'a [u8]) -> Option<LineParts<'a>>
    ensures { as_parts result ≡ password_parts user.now rest.now }
{
    match utf8_text(rest) {
        Some(text) => cut_parts(user, text),
        None => None,
    }
}

// The parts of a user and a stored text.
fn utf8_parts<'a>(user: &'a [u8], text: &'a [u8]) -> Option<LineParts<'a>>
    ensures { as_parts result ≡ utf8_parts user.now text.now }
{
    match utf8_text(text) {
        Some(text) => Some(LineParts {
            user,
            password: &[],
            text,
        }),
        None => None,
    }
}

/// Whether a text is of a locked account.
pub(crate) fn is_locked_by(foreign: Maker, text: &[u8]) -> bool
    ensures { result ≡ is_locked_by foreign text.now }
{
    !foreign.has_clear_texts() && is_locked(text)
}

// The same for a text that is there and isn't of a locked account.
fn text_parts<'a>(foreign: Maker, user: &'a [u8], text: &'a [u8]) -> Option<LineParts<'a>>
    ensures { as_parts result ≡ text_parts foreign user.now text.now }
{
    if text.is_empty() || is_locked_by(foreign, text) {
        return None;
    }
    utf8_parts(user, text)
}

// The parts of a user, a colon, a password, a tab and a stored text.
fn user_password_parts(line: &[u8]) -> Option<LineParts<'_>>
    ensures { as_parts result ≡ user_password_parts line.now }
{
    match cut_user(line) {
        Some((user, rest)) => password_parts(user, rest),
        None => None,
    }
}

/// The stored text at the front of what comes after a user.
pub(crate) fn text_in(foreign: Maker, rest: &[u8]) -> &[u8]
    ensures { result.now ≡ text_in foreign rest.now }
{
    if foreign.has_colons() {
        rest
    } else {
        cut_field(rest)
    }
}

// The parts of a user, a colon and a stored text.
fn user_text_parts(foreign: Maker, line: &[u8]) -> Option<LineParts<'_>>
    ensures { as_parts result ≡ user_text_parts foreign line.now }
{
    match cut_user(line) {
        Some((user, rest)) => text_parts(foreign, user, text_in(foreign, rest)),
        None => None,
    }
}

/// The parts of a line; none where no text is converted in it.
#[tactic(auto, unfolding(crate::specs::Parts::parts_in))]
pub(crate) fn parts_in(foreign: Maker, form: LineForm, line: &[u8]) -> Option<LineParts<'_>>
    ensures { as_parts result ≡ parts_in foreign form line.now }
{
    match form {
        LineForm::Password => password_parts(&[], line),
        LineForm::UserPassword => user_password_parts(line),
        LineForm::UserText | LineForm::Surveyed => user_text_parts(foreign, line),
    }
}
