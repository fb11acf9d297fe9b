//! Texts of Mosquitto.

ghost use Rattle.std.specs.Prelude.{◌≡◌, ℕ, List};
ghost use Rattle.foreign_text.specs.Mosquitto.{mosquitto, mosquitto_other};
ghost use Rattle.foreign_text.specs.Views.{as_answer};

use crate::answers::{encoded_pbkdf2, stored_or_unread};
use crate::kdf::{MadeText, Pbkdf2Hash};
use crate::{ForeignFault, Unread};
use base64ct::Base64;
use pieces::{begins_with, behind};

// A text that isn't of PBKDF2.
fn mosquitto_other(text: &str) -> Result<Option<&str>, ForeignFault>
    ensures { (made : List ℕ) → as_answer result made ≡ mosquitto_other text.now }
{
    if begins_with(text, "$6$") {
        Err(ForeignFault::Unread(Unread::Sha2))
    } else {
        stored_or_unread(text)
    }
}

/// The stored text of a text of Mosquitto.
#[tactic(auto, unfolding(crate::specs::Mosquitto::mosquitto))]
pub(crate) fn mosquitto<'a>(
    text: &'a str,
    made: &mut MadeText,
) -> Result<Option<&'a str>, ForeignFault>
    ensures { as_answer result made.new ≡ mosquitto text.now }
{
    match behind(text, "$7$") {
        Some(rest) => encoded_pbkdf2::<Base64>(Pbkdf2Hash::Sha512, rest, made),
        None => mosquitto_other(text),
    }
}
