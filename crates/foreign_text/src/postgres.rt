//! Texts of PostgreSQL.

ghost use Rattle.std.specs.Prelude.{◌≡◌, ℕ, List};
ghost use Rattle.foreign_text.specs.Postgres.{postgres, postgres_halves, postgres_other, postgres_scram};
ghost use Rattle.foreign_text.specs.Views.{as_answer};

use crate::answers::{put_made, stored_or_unread};
use crate::fields::two_at;
use crate::kdf::MadeText;
use crate::scram::scram_fields;
use crate::{ForeignFault, Unread};
use pieces::{begins_with, behind};
use scram_plain::Preparation;

// The text of the rounds and the salt, and of the keys.
fn postgres_halves(cost: &str, keys: &str) -> Result<MadeText, ForeignFault>
    ensures { result ≡ postgres_halves cost.now keys.now }
{
    let cost = match two_at(cost, ':') {
        Ok(cost) => cost,
        Err(fault) => return Err(fault),
    };
    match two_at(keys, ':') {
        Ok(keys) => scram_fields(
            Preparation::SaslPrep,
            cost.first,
            cost.second,
            keys.first,
            keys.second,
        ),
        Err(fault) => Err(fault),
    }
}

// The text of what follows the front.
fn postgres_scram(rest: &str) -> Result<MadeText, ForeignFault>
    ensures { result ≡ postgres_scram rest.now }
{
    match two_at(rest, '$') {
        Ok(halves) => postgres_halves(halves.first, halves.second),
        Err(fault) => Err(fault),
    }
}

// A text that isn't of SCRAM.
fn postgres_other(text: &str) -> Result<Option<&str>, ForeignFault>
    ensures { (made : List ℕ) → as_answer result made ≡ postgres_other text.now }
{
    if begins_with(text, "md5") {
        Err(ForeignFault::Unread(Unread::Md5))
    } else {
        stored_or_unread(text)
    }
}

/// The stored text of a text of PostgreSQL.
#[tactic(auto, unfolding(crate::specs::Postgres::postgres))]
pub(crate) fn postgres<'a>(
    text: &'a str,
    made: &mut MadeText,
) -> Result<Option<&'a str>, ForeignFault>
    ensures { as_answer result made.new ≡ postgres text.now }
{
    match behind(text, "SCRAM-SHA-256$") {
        Some(rest) => put_made(postgres_scram(rest), made),
        None => postgres_other(text),
    }
}
