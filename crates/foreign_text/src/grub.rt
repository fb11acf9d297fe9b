//! Texts of GRUB.

ghost use Rattle.std.specs.Prelude.{◌≡◌};
ghost use Rattle.foreign_text.specs.Fields.{in_three};
ghost use Rattle.foreign_text.specs.Grub.{grub, grub_fields};
ghost use Rattle.foreign_text.specs.Views.{as_answer, as_three};

use crate::answers::put_made;
use crate::fields::{Three, pbkdf2_cost, plain_hex, three_at};
use crate::kdf::{MadeText, Pbkdf2Hash, with_decoded};
use crate::{ForeignFault, Unread};
use pieces::behind;

// Rounds, a salt and a key.
fn grub_fields(fields: Result<Three<'_>, ForeignFault>) -> Result<MadeText, ForeignFault>
    ensures { result ≡ in_three grub_fields (as_three fields.entry) }
{
    match fields {
        Ok(f) => with_decoded(
            pbkdf2_cost(Pbkdf2Hash::Sha512, f.first),
            plain_hex(f.second.as_bytes()),
            plain_hex(f.third.as_bytes()),
        ),
        Err(fault) => Err(fault),
    }
}

/// The stored text of a text of GRUB.
#[tactic(auto, unfolding(crate::specs::Grub::grub))]
pub(crate) fn grub<'a>(text: &'a str, made: &mut MadeText) -> Result<Option<&'a str>, ForeignFault>
    ensures { as_answer result made.new ≡ grub text.now }
{
    match behind(text, "grub.pbkdf2.sha512.") {
        Some(rest) => put_made(grub_fields(three_at(rest, '.')), made),
        None => Err(ForeignFault::Unread(Unread::Other)),
    }
}
