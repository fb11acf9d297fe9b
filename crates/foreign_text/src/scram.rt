//! Fields of SCRAM-SHA-256, and the text that they are read as.

ghost use Rattle.std.specs.Prelude.{◌≡◌, ◌≤◌, ◌++◌, ◌∷◌, length, codes};
ghost use Rattle.std.specs.Fmt.{decimal};
ghost use Rattle.pieces.specs.Characters.{dollar};
ghost use Rattle.scram_plain.specs.Text.{identifier};
ghost use Rattle.foreign_text.specs.Scram.{scram_by_keys, scram_by_rounds, scram_by_salt, scram_fields, scram_text};

use crate::ForeignFault;
use crate::fields::{field_bytes, number_of};
use crate::kdf::{FieldBytes, MadeText};
use crate::padded::push_field;
use base64ct::Base64;
use pieces::short_bytes::ShortBytes;
use scram_plain::Preparation;

// The front of a text, up to the rounds.
fn scram_front(preparation: Preparation, rounds: u32) -> MadeText
    ensures text { result ≡ (dollar ∷ (identifier preparation ++ codes "$")) ++ decimal rounds }
    ensures len { length result ≤ 29 }
{
    let mut text = ShortBytes::from_slice(scram_sign(preparation).as_bytes());
    text.push_decimal(rounds as u64);
    text
}

// What a text begins with, before the rounds.
fn scram_sign(preparation: Preparation) -> &'static str
    ensures text { result.now ≡ dollar ∷ (identifier preparation ++ codes "$") }
    ensures len { length result.now ≤ 19 }
{
    match preparation {
        Preparation::SaslPrep => "$scram-sha-256$",
        Preparation::Raw => "$scram-sha-256-raw$",
    }
}

// The text of a preparation, rounds, a salt and two keys.
fn scram_text(
    preparation: Preparation,
    rounds: u32,
    salt: &FieldBytes,
    stored: &FieldBytes,
    server: &FieldBytes,
) -> MadeText
    requires salt { length salt.now ≤ 48 }
    requires stored { length stored.now ≡ 32 }
    requires server { length server.now ≡ 32 }
    ensures { result ≡ scram_text preparation rounds salt.now stored.now server.now }
{
    let mut text = scram_front(preparation, rounds);
    push_field::<64>(&mut text, salt.as_slice());
    push_field::<44>(&mut text, stored.as_slice());
    push_field::<44>(&mut text, server.as_slice());
    text
}

// The same, or the first fault of the keys.
fn by_keys(
    preparation: Preparation,
    rounds: u32,
    salt: &FieldBytes,
    stored: Option<FieldBytes>,
    server: Option<FieldBytes>,
) -> Result<MadeText, ForeignFault>
    requires salt { length salt.now ≤ 48 }
    ensures { result ≡ scram_by_keys preparation rounds salt.now stored server }
{
    let Some(stored) = stored else {
        return Err(ForeignFault::Hash);
    };
    let Some(server) = server else {
        return Err(ForeignFault::Hash);
    };
    if stored.len() == 32 && server.len() == 32 {
        Ok(scram_text(preparation, rounds, salt, &stored, &server))
    } else {
        Err(ForeignFault::HashLength)
    }
}

// The same, or the first fault of the salt and the keys.
fn by_salt(
    preparation: Preparation,
    rounds: u32,
    salt: Option<FieldBytes>,
    stored: Option<FieldBytes>,
    server: Option<FieldBytes>,
) -> Result<MadeText, ForeignFault>
    ensures { result ≡ scram_by_salt preparation rounds salt stored server }
{
    let Some(salt) = salt else {
        return Err(ForeignFault::Salt);
    };
    if 1 <= salt.len() && salt.len() <= 48 {
        by_keys(preparation, rounds, &salt, stored, server)
    } else {
        Err(ForeignFault::SaltLength)
    }
}

// The same, or the first fault of the rounds, the salt and the keys.
fn by_rounds(
    preparation: Preparation,
    rounds: Option<u32>,
    salt: Option<FieldBytes>,
    stored: Option<FieldBytes>,
    server: Option<FieldBytes>,
) -> Result<MadeText, ForeignFault>
    ensures { result ≡ scram_by_rounds preparation rounds salt stored server }
{
    match rounds {
        None => Err(ForeignFault::Rounds),
        Some(rounds) => {
            if rounds == 0 {
                Err(ForeignFault::Rounds)
            } else {
                by_salt(preparation, rounds, salt, stored, server)
            }
        }
    }
}

/// The text of four fields, or their first fault.
pub(crate) fn scram_fields(
    preparation: Preparation,
    rounds: &str,
    salt: &str,
    stored: &str,
    server: &str,
) -> Result<MadeText, ForeignFault>
    ensures { result ≡ scram_fields preparation rounds.now salt.now stored.now server.now }
{
    by_rounds(
        preparation,
        number_of(rounds),
        field_bytes::<Base64>(salt),
        field_bytes::<Base64>(stored),
        field_bytes::<Base64>(server),
    )
}
