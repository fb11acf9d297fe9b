//! Texts of Grafana.

ghost use Rattle.std.specs.Prelude.{◌≡◌};
ghost use Rattle.foreign_text.specs.Fields.{in_two};
ghost use Rattle.foreign_text.specs.Views.{as_answer, as_two};
ghost use Rattle.application_texts.specs.Grafana.{grafana, grafana_fields};

use foreign_text::answers::put_made;
use foreign_text::fields::{Two, small_hex, two_at};
use foreign_text::{ForeignFault, Kdf, MadeText, Pbkdf2Hash, if_sized, is_size, with_bytes};

/// The derivation of all texts.
const DERIVATION: Kdf = Kdf::Pbkdf2 {
    hash: Pbkdf2Hash::Sha256,
    rounds: 10_000,
};

// The text of a key and a salt.
fn grafana_fields(fields: Result<Two<'_>, ForeignFault>) -> Result<MadeText, ForeignFault>
    ensures { result ≡ in_two grafana_fields (as_two fields.entry) }
{
    match fields {
        Ok(f) => if_sized(
            is_size(Some(50), small_hex(f.first.as_bytes())),
            with_bytes(
                Ok(DERIVATION),
                f.second.as_bytes(),
                small_hex(f.first.as_bytes()),
            ),
        ),
        Err(fault) => Err(fault),
    }
}

/// The stored text of a text of Grafana.
#[tactic(auto, unfolding(crate::specs::Grafana::grafana))]
pub(crate) fn grafana<'a>(text: &str, made: &mut MadeText) -> Result<Option<&'a str>, ForeignFault>
    ensures { as_answer result made.new ≡ grafana text.now }
{
    put_made(grafana_fields(two_at(text, ':')), made)
}
