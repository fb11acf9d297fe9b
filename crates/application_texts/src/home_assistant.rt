//! Texts of Home Assistant.

ghost use Rattle.std.specs.Prelude.{◌≡◌};
ghost use Rattle.std.specs.List.{list_all};
ghost use Rattle.foreign_text.specs.Views.{as_answer};
ghost use Rattle.application_texts.specs.HomeAssistant.{home_assistant, home_assistant_bytes, is_bcrypt_text, is_text_byte};

use base64ct::Base64;
use foreign_text::answers::put_made;
use foreign_text::fields::field_bytes;
use foreign_text::{FieldBytes, ForeignFault, MadeText};
use pieces::characters::is_crypt_character;
use pieces::short_bytes::ShortBytes;

fn is_text_byte(b: u8) -> bool
    ensures { result ≡ is_text_byte b }
{
    is_crypt_character(b) || b == b'$'
}

fn are_text_bytes(text: &[u8]) -> bool
    ensures { result ≡ list_all is_text_byte text.now }
{
    text.iter().all(|b| is_text_byte(*b))
}

// Whether bytes are a text that begins as bcrypt's and has no other characters than a text of crypt(3).
fn is_bcrypt_text(text: &[u8]) -> bool
    ensures { result ≡ is_bcrypt_text text.now }
{
    text.starts_with(b"$2") && are_text_bytes(text)
}

// The text that is in Base64.
fn home_assistant_bytes(text: Option<FieldBytes>) -> Result<MadeText, ForeignFault>
    ensures { result ≡ home_assistant_bytes text }
{
    let Some(text) = text else {
        return Err(ForeignFault::Form);
    };
    if is_bcrypt_text(text.as_slice()) {
        Ok(ShortBytes::from_slice(text.as_slice()))
    } else {
        Err(ForeignFault::Form)
    }
}

/// The stored text of a text of Home Assistant.
#[tactic(auto, unfolding(crate::specs::HomeAssistant::home_assistant))]
pub(crate) fn home_assistant<'a>(
    text: &str,
    made: &mut MadeText,
) -> Result<Option<&'a str>, ForeignFault>
    ensures { as_answer result made.new ≡ home_assistant text.now }
{
    put_made(home_assistant_bytes(field_bytes::<Base64>(text)), made)
}
