//! The check of a password against a stored text.

ghost use Rattle.std.specs.Prelude.{◌≡◌, ◌↔◌, ◌≤◌, ◌+◌, ◌^◌, Ok, OnErr, OnOk, true};
ghost use Rattle.phpass_plain.specs.Check.{IsHashText, answer_by, phpass_answer};
ghost use Rattle.phpass_plain.specs.Text.{text_cost};
ghost use Rattle.phpass_plain.specs.Views.{as_parts};

use crate::compare::Compare;
use crate::text::{PhpassParts, text_parts};
use crate::{PhpassFault, phpass};
use base64ct::Counts;

// Whether the digest is that of the password, as the comparison says.
fn check_parts<C: Compare>(password: &[u8], parts: PhpassParts<'_>, compare: &mut C) -> bool
    requires cost { parts.cost ≤ 30 }
    requires sames { C.sames compare.old ≤ 2 ^ 62 + 5 }
    ensures answer { Ok result ≡ answer_by C.same password.now (as_parts (Ok parts.entry)) }
    ensures looks { C.looks compare.new ≡ C.looks compare.old }
    ensures sames { C.sames compare.new ≡ C.sames compare.old + 16 }
{
    let digest = phpass(password, parts.salt, parts.cost);
    compare.same_digests(&digest, &parts.digest)
}

/// The binary logarithm of the number of turns that a valid text names: 7 to 30. Nothing is hashed.
///
/// # Errors
///
/// The first fault of the text, in the order of [`PhpassFault`].
pub fn text_cost(stored: &str) -> Result<u32, PhpassFault>
    ensures cost { result ≡ text_cost stored.now }
{
    match text_parts(stored, &mut Counts::new()) {
        Err(e) => Err(e),
        Ok(parts) => Ok(parts.cost),
    }
}

/// Whether a password matches a text of phpass: `$P$` or `$H$`, a character for the cost, 8 characters of salt and 22 of hash.
///
/// Each byte of the password counts, a zero byte as any other, and a password may have any length. The time doubles with each step of
/// the cost ([`text_cost`]). WordPress trims a password where it makes a text; that is not done here.
///
/// # Errors
///
/// The first fault of the text, in the order of [`PhpassFault`], whatever the password.
pub fn phpass_check(password: &[u8], stored: &str) -> Result<bool, PhpassFault>
    ensures answer { result ≡ phpass_answer password.now stored.now }
    ensures passed { (result ≡ Ok true) ↔ IsHashText password.now stored.now }
{
    let mut counts = Counts::new();
    phpass_check_counted(password, stored, &mut counts)
}

/// The same check. On a verdict it adds 24 look-ups of characters of the hash, and 20 comparisons to the counts; on a fault at most
/// 24 and 4.
#[tactic(auto, unfolding(crate::specs::Check::phpass_answer))]
pub fn phpass_check_counted(
    password: &[u8],
    stored: &str,
    counts: &mut Counts,
) -> Result<bool, PhpassFault>
    requires looks { counts.old.looks ≤ 2 ^ 62 }
    requires sames { counts.old.sames ≤ 2 ^ 62 }
    ensures answer { result ≡ phpass_answer password.now stored.now }
    ensures looks { OnOk result (counts.new.looks ≡ counts.old.looks + 24) }
    ensures sames { OnOk result (counts.new.sames ≡ counts.old.sames + 20) }
    ensures looks_stay { counts.old.looks ≤ counts.new.looks }
    ensures most_looks { counts.new.looks ≤ counts.old.looks + 24 }
    ensures sames_stay { counts.old.sames ≤ counts.new.sames }
    ensures most_sames { OnErr result (counts.new.sames ≤ counts.old.sames + 4) }
{
    match text_parts(stored, counts) {
        Err(e) => Err(e),
        Ok(parts) => Ok(check_parts(password, parts, counts)),
    }
}
