//! Texts of CouchDB.

ghost use Rattle.std.specs.Prelude.{◌≡◌};
ghost use Rattle.foreign_text.specs.Fields.{in_three};
ghost use Rattle.foreign_text.specs.Views.{as_answer, as_three};
ghost use Rattle.application_texts.specs.CouchDb.{couchdb, couchdb_fields, couchdb_older, couchdb_pbkdf2, couchdb_unread, has_other_hash};

use foreign_text::answers::put_made;
use foreign_text::fields::{Three, pbkdf2_cost, small_hex, three_at};
use foreign_text::{ForeignFault, MadeText, Pbkdf2Hash, Unread, with_bytes};
use pieces::{begins_with, behind};

// The text of a key, a salt and rounds.
fn couchdb_fields(
    hash: Pbkdf2Hash,
    fields: Result<Three<'_>, ForeignFault>,
) -> Result<MadeText, ForeignFault>
    ensures { result ≡ in_three (couchdb_fields hash) (as_three fields.entry) }
{
    match fields {
        Ok(f) => with_bytes(
            pbkdf2_cost(hash, f.third),
            f.second.as_bytes(),
            small_hex(f.first.as_bytes()),
        ),
        Err(fault) => Err(fault),
    }
}

// The stored text of `KEY,SALT,ROUNDS`.
fn couchdb_pbkdf2<'a>(
    hash: Pbkdf2Hash,
    rest: &str,
    made: &mut MadeText,
) -> Result<Option<&'a str>, ForeignFault>
    ensures { as_answer result made.new ≡ couchdb_pbkdf2 hash rest.now }
{
    put_made(couchdb_fields(hash, three_at(rest, ',')), made)
}

fn has_other_hash(text: &str) -> bool
    ensures { result ≡ has_other_hash text.now }
{
    begins_with(text, "-pbkdf2-sha224,") || begins_with(text, "-pbkdf2-sha384,")
}

// The scheme of a text that isn't read.
fn couchdb_unread(text: &str) -> Unread
    ensures { result ≡ couchdb_unread text.now }
{
    if begins_with(text, "-hashed-") {
        Unread::Sha1
    } else {
        Unread::Cleartext
    }
}

// The stored text of a text without the name of a hash function that is read.
fn couchdb_older<'a>(text: &str, made: &mut MadeText) -> Result<Option<&'a str>, ForeignFault>
    ensures { as_answer result made.new ≡ couchdb_older text.now }
{
    if has_other_hash(text) {
        return Err(ForeignFault::Unread(Unread::Sha2));
    }
    match behind(text, "-pbkdf2-") {
        Some(rest) => couchdb_pbkdf2(Pbkdf2Hash::Sha1, rest, made),
        None => Err(ForeignFault::Unread(couchdb_unread(text))),
    }
}

/// The stored text of a text of CouchDB.
#[tactic(auto, unfolding(crate::specs::CouchDb::couchdb))]
pub(crate) fn couchdb<'a>(text: &str, made: &mut MadeText) -> Result<Option<&'a str>, ForeignFault>
    ensures { as_answer result made.new ≡ couchdb text.now }
{
    if let Some(rest) = behind(text, "-pbkdf2-sha256,") {
        return couchdb_pbkdf2(Pbkdf2Hash::Sha256, rest, made);
    }
    if let Some(rest) = behind(text, "-pbkdf2-sha512,") {
        return couchdb_pbkdf2(Pbkdf2Hash::Sha512, rest, made);
    }
    if let Some(rest) = behind(text, "-pbkdf2-sha,") {
        return couchdb_pbkdf2(Pbkdf2Hash::Sha1, rest, made);
    }
    couchdb_older(text, made)
}
