//! The fields of a text by their form.

ghost use Rattle.std.specs.Prelude.{◌≡◌};
ghost use Rattle.pieces.specs.Characters.{dollar};
ghost use Rattle.pieces.specs.Pieces.{pieces_left};
ghost use Rattle.salted_digest.specs.Text.{split_fields, text_fields};
ghost use Rattle.salted_digest.specs.Views.{as_fields};

use crate::hash::hash_of;
use crate::{DigestHash, SaltedFault};
use pieces::{first_piece, is_end};

/// The hash function, and the texts of a salt and of a digest.
#[derive(Clone, Copy, Debug)]
pub(crate) struct SaltedFields<'a> {
    pub hash: DigestHash,
    pub salt: &'a str,
    pub digest: &'a str,
}

// A salt, a digest and nothing else.
fn split_fields(hash: DigestHash, pieces: Option<&str>) -> Result<SaltedFields<'_>, SaltedFault>
    ensures { as_fields result ≡ split_fields hash (pieces_left dollar pieces.entry) }
{
    let Some(text) = pieces else {
        return Err(SaltedFault::NoSalt);
    };
    let (salt, others) = first_piece(text, '$');
    let Some(text) = others else {
        return Err(SaltedFault::NoHash);
    };
    let (digest, more) = first_piece(text, '$');
    if !is_end(more) {
        return Err(SaltedFault::Trailing);
    }
    Ok(SaltedFields { hash, salt, digest })
}

/// The fields of a text, or the first fault of its form.
#[tactic(auto, unfolding(crate::specs::Text::text_fields))]
pub(crate) fn text_fields(text: &str) -> Result<SaltedFields<'_>, SaltedFault>
    ensures { as_fields result ≡ text_fields text.now }
{
    let (front, others) = first_piece(text, '$');
    if !front.is_empty() {
        return Err(SaltedFault::NoDollar);
    }
    let Some(body) = others else {
        return Err(SaltedFault::WrongId);
    };
    let (id, pieces) = first_piece(body, '$');
    let Some(hash) = hash_of(id) else {
        return Err(SaltedFault::WrongId);
    };
    split_fields(hash, pieces)
}
