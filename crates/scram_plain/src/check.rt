//! The check of a password against a stored text.

ghost use Rattle.std.specs.Prelude.{◌≡◌, ◌↔◌, ◌≤◌, ◌+◌, ◌^◌, Ok, OnErr, OnOk, true};
ghost use Rattle.scram_plain.specs.Check.{IsScramText, matches_by, scram_answer};
ghost use Rattle.scram_plain.specs.Text.{text_cost};
ghost use Rattle.scram_plain.specs.Views.{parts_as};

use crate::compare::Compare;
use crate::text::{ScramParts, text_parts};
use crate::{ScramFault, scram_keys};
use base64ct::Counts;

// Whether both keys are those of the password, as the comparison says. Both are compared, whatever the first comparison says.
fn check_parts<C: Compare>(password: &[u8], parts: &ScramParts, compare: &mut C) -> bool
    requires rounds { 1 ≤ parts.now.rounds }
    requires sames { C.sames compare.old ≤ 2 ^ 62 + 8 }
    ensures answer { result ≡ matches_by C.same password.now (parts_as parts.now) }
    ensures looks { C.looks compare.new ≡ C.looks compare.old }
    ensures sames { C.sames compare.new ≡ C.sames compare.old + 64 }
{
    let keys = scram_keys(password, parts.salt.as_slice(), parts.rounds);
    let stored = compare.same_keys(&keys.stored, &parts.stored);
    let server = compare.same_keys(&keys.server, &parts.server);
    stored & server
}

/// The rounds that a valid text names: 1 to 4,294,967,295. Nothing is hashed.
///
/// # Errors
///
/// The first fault of the text, in the order of [`ScramFault`]; `NotAscii` never comes.
pub fn text_cost(stored: &str) -> Result<u32, ScramFault>
    ensures cost { result ≡ text_cost stored.now }
{
    match text_parts(stored, &mut Counts::new()) {
        Err(e) => Err(e),
        Ok(parts) => Ok(parts.rounds),
    }
}

/// Whether a password matches a text `$scram-sha-256$rounds$salt$stored$server` or `$scram-sha-256-raw$..`: both of its keys are equal
/// to those of the text.
///
/// Each byte of the password counts, a zero byte as any other, and a password may have any length. The time grows with the rounds that the
/// text names ([`text_cost`]).
///
/// # Errors
///
/// The first fault of the text, in the order of [`ScramFault`], whatever the password; then `NotAscii`.
pub fn scram_check(password: &[u8], stored: &str) -> Result<bool, ScramFault>
    ensures answer { result ≡ scram_answer password.now stored.now }
    ensures passed { (result ≡ Ok true) ↔ IsScramText password.now stored.now }
{
    let mut counts = Counts::new();
    scram_check_counted(password, stored, &mut counts)
}

/// The same check. On a verdict it adds 88 look-ups of characters of the keys, and 72 comparisons to the counts; on a fault at most 88
/// and 8.
#[tactic(auto, unfolding(crate::specs::Check::scram_answer))]
pub fn scram_check_counted(
    password: &[u8],
    stored: &str,
    counts: &mut Counts,
) -> Result<bool, ScramFault>
    requires looks { counts.old.looks ≤ 2 ^ 62 }
    requires sames { counts.old.sames ≤ 2 ^ 62 }
    ensures answer { result ≡ scram_answer password.now stored.now }
    ensures looks { OnOk result (counts.new.looks ≡ counts.old.looks + 88) }
    ensures sames { OnOk result (counts.new.sames ≡ counts.old.sames + 72) }
    ensures looks_stay { counts.old.looks ≤ counts.new.looks }
    ensures most_looks { counts.new.looks ≤ counts.old.looks + 88 }
    ensures sames_stay { counts.old.sames ≤ counts.new.sames }
    ensures most_sames { OnErr result (counts.new.sames ≤ counts.old.sames + 8) }
{
    match text_parts(stored, counts) {
        Err(e) => Err(e),
        Ok(parts) => {
            if parts.preparation.leaves(password) {
                Ok(check_parts(password, &parts, counts))
            } else {
                Err(ScramFault::NotAscii)
            }
        }
    }
}
