//! Texts of Jenkins.

ghost use Rattle.std.specs.Prelude.{◌≡◌};
ghost use Rattle.foreign_text.specs.Fields.{in_two};
ghost use Rattle.foreign_text.specs.Views.{as_answer, as_two};
ghost use Rattle.application_texts.specs.Jenkins.{jenkins, jenkins_fields, jenkins_halves};

use foreign_text::answers::{as_it_is, put_made, stored_or_unread};
use foreign_text::fields::{Two, pbkdf2_cost, small_hex, two_at};
use foreign_text::{ForeignFault, MadeText, Pbkdf2Hash, with_decoded};
use pieces::behind;

// The text of rounds and a salt, and a key.
fn jenkins_fields(
    key: &str,
    fields: Result<Two<'_>, ForeignFault>,
) -> Result<MadeText, ForeignFault>
    ensures { result ≡ in_two (jenkins_fields key.now) (as_two fields.entry) }
{
    match fields {
        Ok(f) => with_decoded(
            pbkdf2_cost(Pbkdf2Hash::Sha512, f.first),
            small_hex(f.second.as_bytes()),
            small_hex(key.as_bytes()),
        ),
        Err(fault) => Err(fault),
    }
}

// The text of the rounds with the salt, and of the key.
fn jenkins_halves(halves: Result<Two<'_>, ForeignFault>) -> Result<MadeText, ForeignFault>
    ensures { result ≡ in_two jenkins_halves (as_two halves.entry) }
{
    match halves {
        Ok(f) => jenkins_fields(f.second, two_at(f.first, ':')),
        Err(fault) => Err(fault),
    }
}

/// The stored text of a text of Jenkins.
#[tactic(auto, unfolding(crate::specs::Jenkins::jenkins))]
pub(crate) fn jenkins<'a>(
    text: &'a str,
    made: &mut MadeText,
) -> Result<Option<&'a str>, ForeignFault>
    ensures { as_answer result made.new ≡ jenkins text.now }
{
    if let Some(rest) = behind(text, "#jbcrypt:") {
        return as_it_is("$2", rest);
    }
    if let Some(rest) = behind(text, "$PBKDF2$HMACSHA512:") {
        return put_made(jenkins_halves(two_at(rest, '$')), made);
    }
    stored_or_unread(text)
}
