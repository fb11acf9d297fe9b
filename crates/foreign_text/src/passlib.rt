//! Texts of passlib.

ghost use Rattle.std.specs.Prelude.{◌≡◌};
ghost use Rattle.foreign_text.specs.Passlib.{begins_with_digit, passlib, passlib_pbkdf2};
ghost use Rattle.foreign_text.specs.Views.{as_answer};

use crate::ForeignFault;
use crate::answers::{encoded_pbkdf2, stored_or_unread};
use crate::kdf::{MadeText, Pbkdf2Hash};
use crate::mattermost::mattermost;
use base64ct::Base64Pbkdf2;
use pieces::behind;

// Whether a digit comes first.
fn begins_with_digit(rest: &str) -> bool
    ensures { result ≡ begins_with_digit rest.now }
{
    match rest.as_bytes().first() {
        Some(b) => b.is_ascii_digit(),
        None => false,
    }
}

// What stands behind an identifier of PBKDF2's: its fields, or the text is a record already.
fn passlib_pbkdf2<'a>(
    hash: Pbkdf2Hash,
    text: &'a str,
    rest: &'a str,
    made: &mut MadeText,
) -> Result<Option<&'a str>, ForeignFault>
    ensures { as_answer result made.new ≡ passlib_pbkdf2 hash text.now rest.now }
{
    if begins_with_digit(rest) {
        encoded_pbkdf2::<Base64Pbkdf2>(hash, rest, made)
    } else {
        Ok(Some(text))
    }
}

/// The stored text of a text of passlib.
#[tactic(auto, unfolding(crate::specs::Passlib::passlib))]
pub(crate) fn passlib<'a>(
    text: &'a str,
    made: &mut MadeText,
) -> Result<Option<&'a str>, ForeignFault>
    ensures { as_answer result made.new ≡ passlib text.now }
{
    if let Some(rest) = behind(text, "$pbkdf2-sha256$") {
        return passlib_pbkdf2(Pbkdf2Hash::Sha256, text, rest, made);
    }
    if let Some(rest) = behind(text, "$pbkdf2-sha512$") {
        return passlib_pbkdf2(Pbkdf2Hash::Sha512, text, rest, made);
    }
    if let Some(rest) = behind(text, "$pbkdf2$f=") {
        return mattermost(rest, made);
    }
    if let Some(rest) = behind(text, "$pbkdf2$") {
        return encoded_pbkdf2::<Base64Pbkdf2>(Pbkdf2Hash::Sha1, rest, made);
    }
    stored_or_unread(text)
}
