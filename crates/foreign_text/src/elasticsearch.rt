//! Texts of Elasticsearch.

ghost use Rattle.std.specs.Prelude.{◌≡◌};
ghost use Rattle.foreign_text.specs.Elasticsearch.{elasticsearch};
ghost use Rattle.foreign_text.specs.Views.{as_answer};

use crate::ForeignFault;
use crate::answers::encoded_pbkdf2;
use crate::kdf::{MadeText, Pbkdf2Hash};
use crate::ldap::ldap_unread;
use base64ct::Base64;
use pieces::behind;

/// The stored text of a text of Elasticsearch.
#[tactic(auto, unfolding(crate::specs::Elasticsearch::elasticsearch))]
pub(crate) fn elasticsearch<'a>(
    text: &'a str,
    made: &mut MadeText,
) -> Result<Option<&'a str>, ForeignFault>
    ensures { as_answer result made.new ≡ elasticsearch text.now }
{
    match behind(text, "{PBKDF2}") {
        Some(rest) => encoded_pbkdf2::<Base64>(Pbkdf2Hash::Sha512, rest, made),
        None => Err(ForeignFault::Unread(ldap_unread(text))),
    }
}
