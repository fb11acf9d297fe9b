//! The parts of a text.

ghost use Rattle.std.specs.Prelude.{◌≡◌, ◌≤◌, ◌+◌, ◌^◌, IfOk, length};
ghost use Rattle.salted_digest.specs.Digest.{digest_size};
ghost use Rattle.salted_digest.specs.Text.{characters_of, digest_of, text_parts, with_salt};
ghost use Rattle.salted_digest.specs.Views.{as_parts};

use crate::decoded::{digest_of, salt_of};
use crate::fields::text_fields;
use crate::{DigestHash, SaltedFault};
use base64ct::Counts;
use pieces::short_bytes::ShortBytes;

/// What a text means.
#[derive(Clone, Copy, Debug)]
pub(crate) struct SaltedParts {
    pub hash: DigestHash,
    pub salt: ShortBytes<48>,
    pub digest: ShortBytes<64>,
}

// The parts, by the text of the digest.
fn with_salt(
    hash: DigestHash,
    salt: ShortBytes<48>,
    digest: &str,
    counts: &mut Counts,
) -> Result<SaltedParts, SaltedFault>
    requires looks { counts.old.looks ≤ 2 ^ 62 }
    requires sames { counts.old.sames ≤ 2 ^ 62 }
    ensures parts { as_parts result ≡ with_salt hash salt (digest_of (digest_size hash) digest.now) }
    ensures size { IfOk result (λ p. length p.digest ≡ digest_size p.hash) }
    ensures looks { IfOk result (λ p. counts.new.looks ≡ counts.old.looks + characters_of (digest_size p.hash)) }
    ensures sames { IfOk result (λ p. counts.new.sames ≡ counts.old.sames + 4) }
    ensures looks_stay { counts.old.looks ≤ counts.new.looks }
    ensures most_looks { counts.new.looks ≤ counts.old.looks + 88 }
    ensures sames_stay { counts.old.sames ≤ counts.new.sames }
    ensures most_sames { counts.new.sames ≤ counts.old.sames + 4 }
{
    match digest_of(hash.size(), digest.as_bytes(), counts) {
        Ok(digest) => Ok(SaltedParts { hash, salt, digest }),
        Err(e) => Err(e),
    }
}

/// The parts of a text, or its first fault. The characters of the digest are tested by decoding them.
#[tactic(auto, unfolding(crate::specs::Text::text_parts))]
pub(crate) fn text_parts(text: &str, counts: &mut Counts) -> Result<SaltedParts, SaltedFault>
    requires looks { counts.old.looks ≤ 2 ^ 62 }
    requires sames { counts.old.sames ≤ 2 ^ 62 }
    ensures parts { as_parts result ≡ text_parts text.now }
    ensures size { IfOk result (λ p. length p.digest ≡ digest_size p.hash) }
    ensures looks { IfOk result (λ p. counts.new.looks ≡ counts.old.looks + characters_of (digest_size p.hash)) }
    ensures sames { IfOk result (λ p. counts.new.sames ≡ counts.old.sames + 4) }
    ensures looks_stay { counts.old.looks ≤ counts.new.looks }
    ensures most_looks { counts.new.looks ≤ counts.old.looks + 88 }
    ensures sames_stay { counts.old.sames ≤ counts.new.sames }
    ensures most_sames { counts.new.sames ≤ counts.old.sames + 4 }
{
    let fields = match text_fields(text) {
        Ok(fields) => fields,
        Err(e) => return Err(e),
    };
    match salt_of(fields.salt.as_bytes()) {
        Ok(salt) => with_salt(fields.hash, salt, fields.digest, counts),
        Err(e) => Err(e),
    }
}
