//! The check of a password against a stored text.

ghost use Rattle.std.specs.Prelude.{◌≡◌, ◌≤◌, ◌<◌, ◌+◌, ◌^◌, Ok, OnErr, OnOk, length};
ghost use Rattle.mysql_sha2.specs.Check.{answer_by, mysql_answer};
ghost use Rattle.mysql_sha2.specs.Text.{text_cost};
ghost use Rattle.mysql_sha2.specs.Views.{parts_as};

use crate::MysqlFault;
use crate::compare::Compare;
use crate::text::{MysqlParts, text_parts};
use base64ct::Counts;
use sha_crypt::b64::in_order;
use sha_crypt::{MAP_SHA256, sha256_whole_salt};

// Whether the digest is that of the password, as the comparison says.
fn check_parts<C: Compare>(password: &[u8], parts: &MysqlParts, compare: &mut C) -> bool
    requires short { length password.now < 2 ^ 30 }
    requires sames { C.sames compare.old ≤ 2 ^ 62 + 4 }
    ensures answer { Ok result ≡ answer_by C.same password.now (Ok (parts_as parts.now)) }
    ensures looks { C.looks compare.new ≡ C.looks compare.old }
    ensures sames { C.sames compare.new ≡ C.sames compare.old + 32 }
{
    let digest = sha256_whole_salt(password, &parts.salt, parts.rounds as usize);
    compare.same_digests(&in_order(&MAP_SHA256, &digest), &parts.placed)
}

/// The rounds that a valid text names: 5,000 to 4,095,000. Nothing is hashed.
///
/// # Errors
///
/// The first fault of the text, in the order of [`MysqlFault`].
pub fn text_cost(stored: &str) -> Result<u32, MysqlFault>
    ensures cost { result ≡ text_cost stored.now }
{
    match text_parts(stored, &mut Counts::new()) {
        Err(e) => Err(e),
        Ok(parts) => Ok(parts.rounds),
    }
}

/// Whether a password matches a text `$mysql$A$THOUSANDS*SALT*HASH`.
///
/// Each byte of the password counts, a zero byte as any other. The time grows with the rounds that the text names ([`text_cost`]).
///
/// # Errors
///
/// The first fault of the text, in the order of [`MysqlFault`], whatever the password.
pub fn mysql_check(password: &[u8], stored: &str) -> Result<bool, MysqlFault>
    requires short { length password.now < 2 ^ 30 }
    ensures answer { result ≡ mysql_answer password.now stored.now }
{
    let mut counts = Counts::new();
    mysql_check_counted(password, stored, &mut counts)
}

/// The same check. On a verdict it adds 44 look-ups of characters of the hash, and 36 comparisons to the counts; on a fault at most 44 and
/// 4.
#[tactic(auto, unfolding(crate::specs::Check::mysql_answer))]
pub fn mysql_check_counted(
    password: &[u8],
    stored: &str,
    counts: &mut Counts,
) -> Result<bool, MysqlFault>
    requires short { length password.now < 2 ^ 30 }
    requires looks { counts.old.looks ≤ 2 ^ 62 }
    requires sames { counts.old.sames ≤ 2 ^ 62 }
    ensures answer { result ≡ mysql_answer password.now stored.now }
    ensures looks { OnOk result (counts.new.looks ≡ counts.old.looks + 44) }
    ensures sames { OnOk result (counts.new.sames ≡ counts.old.sames + 36) }
    ensures looks_stay { counts.old.looks ≤ counts.new.looks }
    ensures most_looks { counts.new.looks ≤ counts.old.looks + 44 }
    ensures sames_stay { counts.old.sames ≤ counts.new.sames }
    ensures most_sames { OnErr result (counts.new.sames ≤ counts.old.sames + 4) }
{
    match text_parts(stored, counts) {
        Err(e) => Err(e),
        Ok(parts) => Ok(check_parts(password, &parts, counts)),
    }
}
