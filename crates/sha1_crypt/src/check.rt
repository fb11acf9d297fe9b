//! The check of a password against a stored text.

ghost use Rattle.std.specs.Prelude.{◌≡◌, ◌↔◌, ◌≤◌, ◌+◌, ◌^◌, Ok, OnErr, OnOk, true};
ghost use Rattle.sha1_crypt.specs.Check.{IsHashText, answer_by, sha1_answer};
ghost use Rattle.sha1_crypt.specs.Text.{text_cost};
ghost use Rattle.sha1_crypt.specs.Views.{as_parts};

use crate::compare::Compare;
use crate::text::{Sha1Parts, text_parts};
use crate::{Sha1Fault, sha1_crypt};
use base64ct::Counts;

// Whether the digest is that of the password, as the comparison says.
fn check_parts<C: Compare>(password: &[u8], parts: Sha1Parts<'_>, compare: &mut C) -> bool
    requires rounds { 1 ≤ parts.rounds }
    requires sames { C.sames compare.old ≤ 2 ^ 62 + 5 }
    ensures answer { Ok result ≡ answer_by C.same password.now (as_parts (Ok parts.entry)) }
    ensures looks { C.looks compare.new ≡ C.looks compare.old }
    ensures sames { C.sames compare.new ≡ C.sames compare.old + 20 }
{
    let digest = sha1_crypt(password, parts.salt.as_bytes(), parts.rounds);
    compare.same_digests(&digest, &parts.hash)
}

/// The rounds that a valid text names: 1 to 4,294,967,295. Nothing is hashed.
///
/// # Errors
///
/// The first fault of the text, in the order of [`Sha1Fault`].
pub fn text_cost(stored: &str) -> Result<u32, Sha1Fault>
    ensures cost { result ≡ text_cost stored.now }
{
    match text_parts(stored, &mut Counts::new()) {
        Err(e) => Err(e),
        Ok(parts) => Ok(parts.rounds),
    }
}

/// Whether a password matches a text `$sha1$rounds$salt$hash`.
///
/// Each byte of the password counts, a zero byte as any other, and a password may have any length. crypt(3) ends a password at a zero byte,
/// so that libxcrypt and NetBSD make no text of such a password. The time grows with the rounds that the text names ([`text_cost`]).
///
/// # Errors
///
/// The first fault of the text, in the order of [`Sha1Fault`], whatever the password.
pub fn sha1_check(password: &[u8], stored: &str) -> Result<bool, Sha1Fault>
    ensures answer { result ≡ sha1_answer password.now stored.now }
    ensures passed { (result ≡ Ok true) ↔ IsHashText password.now stored.now }
{
    let mut counts = Counts::new();
    sha1_check_counted(password, stored, &mut counts)
}

/// The same check. On a verdict it adds 32 look-ups of characters of the hash, and 25 comparisons to the counts; on a fault at most
/// 32 and 5.
#[tactic(auto, unfolding(crate::specs::Check::sha1_answer))]
pub fn sha1_check_counted(
    password: &[u8],
    stored: &str,
    counts: &mut Counts,
) -> Result<bool, Sha1Fault>
    requires looks { counts.old.looks ≤ 2 ^ 62 }
    requires sames { counts.old.sames ≤ 2 ^ 62 }
    ensures answer { result ≡ sha1_answer password.now stored.now }
    ensures looks { OnOk result (counts.new.looks ≡ counts.old.looks + 32) }
    ensures sames { OnOk result (counts.new.sames ≡ counts.old.sames + 25) }
    ensures looks_stay { counts.old.looks ≤ counts.new.looks }
    ensures most_looks { counts.new.looks ≤ counts.old.looks + 32 }
    ensures sames_stay { counts.old.sames ≤ counts.new.sames }
    ensures most_sames { OnErr result (counts.new.sames ≤ counts.old.sames + 5) }
{
    match text_parts(stored, counts) {
        Err(e) => Err(e),
        Ok(parts) => Ok(check_parts(password, parts, counts)),
    }
}
