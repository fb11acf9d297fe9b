//! Texts of MediaWiki.

ghost use Rattle.std.specs.Prelude.{◌≡◌};
ghost use Rattle.foreign_text.specs.Fields.{in_five};
ghost use Rattle.foreign_text.specs.MediaWiki.{mediawiki, mediawiki_cost, mediawiki_fields, mediawiki_unread};
ghost use Rattle.foreign_text.specs.Views.{as_answer, as_five};

use crate::answers::put_made;
use crate::fields::{Five, field_bytes, five_at, number_of, pbkdf2_cost};
use crate::kdf::{Kdf, MadeText, Pbkdf2Hash, if_sized, is_size, with_decoded};
use crate::{ForeignFault, Unread};
use base64ct::Base64;
use pieces::{begins_with, behind};

// PBKDF2 with a hash by its name.
fn mediawiki_cost(name: &str, rounds: &str) -> Result<Kdf, ForeignFault>
    ensures { result ≡ mediawiki_cost name.now rounds.now }
{
    if name == "sha256" {
        pbkdf2_cost(Pbkdf2Hash::Sha256, rounds)
    } else if name == "sha512" {
        pbkdf2_cost(Pbkdf2Hash::Sha512, rounds)
    } else if name == "sha1" {
        pbkdf2_cost(Pbkdf2Hash::Sha1, rounds)
    } else {
        Err(ForeignFault::Unread(Unread::Other))
    }
}

// A hash, rounds, the length of the key, a salt and a key.
fn mediawiki_fields(fields: Result<Five<'_>, ForeignFault>) -> Result<MadeText, ForeignFault>
    ensures { result ≡ in_five mediawiki_fields (as_five fields.entry) }
{
    match fields {
        Ok(f) => if_sized(
            is_size(
                number_of(f.others.first),
                field_bytes::<Base64>(f.others.third),
            ),
            with_decoded(
                mediawiki_cost(f.first, f.second),
                field_bytes::<Base64>(f.others.second),
                field_bytes::<Base64>(f.others.third),
            ),
        ),
        Err(fault) => Err(fault),
    }
}

// The scheme of a text that isn't read.
fn mediawiki_unread(text: &str) -> Unread
    ensures { result ≡ mediawiki_unread text.now }
{
    if begins_with(text, ":A:") || begins_with(text, ":B:") {
        Unread::Md5
    } else {
        Unread::Other
    }
}

/// The stored text of a text of MediaWiki.
#[tactic(auto, unfolding(crate::specs::MediaWiki::mediawiki))]
pub(crate) fn mediawiki<'a>(
    text: &'a str,
    made: &mut MadeText,
) -> Result<Option<&'a str>, ForeignFault>
    ensures { as_answer result made.new ≡ mediawiki text.now }
{
    match behind(text, ":pbkdf2:") {
        Some(rest) => put_made(mediawiki_fields(five_at(rest, ':')), made),
        None => Err(ForeignFault::Unread(mediawiki_unread(text))),
    }
}
