//! The fields of a text by their form.

ghost use Rattle.std.specs.Prelude.{◌≡◌};
ghost use Rattle.pieces.specs.Pieces.{pieces_at};
ghost use Rattle.mysql_sha2.specs.Text.{split_fields, star, text_fields};
ghost use Rattle.mysql_sha2.specs.Views.{as_fields};

use crate::MysqlFault;
use pieces::{behind, first_piece, is_end};

/// The texts of the thousands, of a salt and of a hash.
#[derive(Clone, Copy, Debug)]
pub(crate) struct MysqlFields<'a> {
    pub thousands: &'a str,
    pub salt: &'a str,
    pub hash: &'a str,
}

// Rounds, a salt, a hash and nothing else.
fn split_fields(text: &str) -> Result<MysqlFields<'_>, MysqlFault>
    ensures { as_fields result ≡ split_fields (pieces_at star text.now) }
{
    let (thousands, others) = first_piece(text, '*');
    let Some(text) = others else {
        return Err(MysqlFault::NoSalt);
    };
    let (salt, others) = first_piece(text, '*');
    let Some(text) = others else {
        return Err(MysqlFault::NoHash);
    };
    let (hash, more) = first_piece(text, '*');
    if !is_end(more) {
        return Err(MysqlFault::Trailing);
    }
    Ok(MysqlFields {
        thousands,
        salt,
        hash,
    })
}

/// The fields of a text, or the first fault of its form.
#[tactic(auto, unfolding(crate::specs::Text::text_fields))]
pub(crate) fn text_fields(text: &str) -> Result<MysqlFields<'_>, MysqlFault>
    ensures { as_fields result ≡ text_fields text.now }
{
    match behind(text, "$mysql$A$") {
        Some(rest) => split_fields(rest),
        None => Err(MysqlFault::WrongId),
    }
}
