//! The check of a password against a stored text.

ghost use Rattle.std.specs.Prelude.{◌≡◌, ◌↔◌, ◌≤◌, ◌+◌, ◌^◌, IfOk, Ok, OnErr, length, true};
ghost use Rattle.salted_digest.specs.Check.{IsDigestText, matches_by, salted_answer};
ghost use Rattle.salted_digest.specs.Digest.{digest_size};
ghost use Rattle.salted_digest.specs.Text.{characters_of, text_hash};
ghost use Rattle.salted_digest.specs.Views.{parts_as};

use crate::compare::Compare;
use crate::text::{SaltedParts, text_parts};
use crate::{DigestHash, SaltedFault, salted_digest};
use base64ct::Counts;

// Whether the digest is that of the password, as the comparison says.
fn check_parts<C: Compare>(password: &[u8], parts: &SaltedParts, compare: &mut C) -> bool
    requires size { length parts.now.digest ≡ digest_size parts.now.hash }
    requires sames { C.sames compare.old ≤ 2 ^ 62 + 8 }
    ensures answer { result ≡ matches_by C.same password.now (parts_as parts.now) }
    ensures looks { C.looks compare.new ≡ C.looks compare.old }
    ensures sames { C.sames compare.new ≡ C.sames compare.old + digest_size parts.now.hash }
    ensures most_sames { C.sames compare.new ≤ C.sames compare.old + 64 }
{
    let digest = salted_digest(parts.hash, password, parts.salt.as_slice());
    compare.same_digests(digest.as_slice(), parts.digest.as_slice())
}

/// The hash function of a valid text. Nothing is hashed.
///
/// # Errors
///
/// The first fault of the text, in the order of [`SaltedFault`].
pub fn text_hash(stored: &str) -> Result<DigestHash, SaltedFault>
    ensures hash { result ≡ text_hash stored.now }
{
    match text_parts(stored, &mut Counts::new()) {
        Err(e) => Err(e),
        Ok(parts) => Ok(parts.hash),
    }
}

/// Whether a password matches a text `$smd5$salt$hash`, `$ssha$..`, `$ssha256$..` or `$ssha512$..`: its digest with the salt is equal to
/// that of the text.
///
/// Each byte of the password counts, a zero byte as any other, and a password may have any length.
///
/// # Errors
///
/// The first fault of the text, in the order of [`SaltedFault`], whatever the password.
pub fn salted_check(password: &[u8], stored: &str) -> Result<bool, SaltedFault>
    ensures answer { result ≡ salted_answer password.now stored.now }
    ensures passed { (result ≡ Ok true) ↔ IsDigestText password.now stored.now }
{
    let mut counts = Counts::new();
    salted_check_counted(password, stored, &mut counts)
}

/// The same check. On a verdict it adds to the counts a look-up for each character of the hash, and a comparison for each byte of a
/// digest and 4 more; on a fault at most 88 look-ups and 4 comparisons.
#[tactic(auto, unfolding(crate::specs::Check::salted_answer))]
pub fn salted_check_counted(
    password: &[u8],
    stored: &str,
    counts: &mut Counts,
) -> Result<bool, SaltedFault>
    requires looks { counts.old.looks ≤ 2 ^ 62 }
    requires sames { counts.old.sames ≤ 2 ^ 62 }
    ensures answer { result ≡ salted_answer password.now stored.now }
    ensures looks { IfOk (text_hash stored.now) (λ hash. counts.new.looks ≡ counts.old.looks + characters_of (digest_size hash)) }
    ensures sames { IfOk (text_hash stored.now) (λ hash. counts.new.sames ≡ counts.old.sames + (4 + digest_size hash)) }
    ensures looks_stay { counts.old.looks ≤ counts.new.looks }
    ensures most_looks { counts.new.looks ≤ counts.old.looks + 88 }
    ensures sames_stay { counts.old.sames ≤ counts.new.sames }
    ensures most_sames { counts.new.sames ≤ counts.old.sames + 68 }
    ensures fault_sames { OnErr result (counts.new.sames ≤ counts.old.sames + 4) }
{
    match text_parts(stored, counts) {
        Err(e) => Err(e),
        Ok(parts) => Ok(check_parts(password, &parts, counts)),
    }
}
