//! The fields of a text by their form.

ghost use Rattle.std.specs.Prelude.{◌≡◌};
ghost use Rattle.pieces.specs.Characters.{dollar};
ghost use Rattle.pieces.specs.Pieces.{pieces_left};
ghost use Rattle.scram_plain.specs.Text.{split_fields, text_fields};
ghost use Rattle.scram_plain.specs.Views.{as_fields};

use crate::preparation::preparation_of;
use crate::{Preparation, ScramFault};
use pieces::{first_piece, is_end};

/// The preparation, and the texts of the rounds, of a salt and of two keys.
#[derive(Clone, Copy, Debug)]
pub(crate) struct ScramFields<'a> {
    pub preparation: Preparation,
    pub rounds: &'a str,
    pub salt: &'a str,
    pub stored: &'a str,
    pub server: &'a str,
}

// Rounds, a salt, two keys and nothing else.
fn split_fields(
    preparation: Preparation,
    pieces: Option<&str>,
) -> Result<ScramFields<'_>, ScramFault>
    ensures { as_fields result ≡ split_fields preparation (pieces_left dollar pieces.entry) }
{
    let Some(text) = pieces else {
        return Err(ScramFault::NoRounds);
    };
    let (rounds, others) = first_piece(text, '$');
    let Some(text) = others else {
        return Err(ScramFault::NoSalt);
    };
    let (salt, others) = first_piece(text, '$');
    let Some(text) = others else {
        return Err(ScramFault::NoStoredKey);
    };
    let (stored, others) = first_piece(text, '$');
    let Some(text) = others else {
        return Err(ScramFault::NoServerKey);
    };
    let (server, more) = first_piece(text, '$');
    if !is_end(more) {
        return Err(ScramFault::Trailing);
    }
    Ok(ScramFields {
        preparation,
        rounds,
        salt,
        stored,
        server,
    })
}

/// The fields of a text, or the first fault of its form.
#[tactic(auto, unfolding(crate::specs::Text::text_fields))]
pub(crate) fn text_fields(text: &str) -> Result<ScramFields<'_>, ScramFault>
    ensures { as_fields result ≡ text_fields text.now }
{
    let (front, others) = first_piece(text, '$');
    if !front.is_empty() {
        return Err(ScramFault::NoDollar);
    }
    let Some(body) = others else {
        return Err(ScramFault::WrongId);
    };
    let (id, pieces) = first_piece(body, '$');
    let Some(preparation) = preparation_of(id) else {
        return Err(ScramFault::WrongId);
    };
    split_fields(preparation, pieces)
}
