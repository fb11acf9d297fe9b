//! The families of SHA-crypt, by the identifiers of their texts.

ghost use Rattle.std.specs.Prelude.{◌≡◌, ◌≤◌, ◌<◌, ◌+◌, ◌*◌, ◌/◌, ◌^◌, false, length, true};
ghost use Rattle.base64ct.specs.Encoding.{unpadded_len};
ghost use Rattle.sha_crypt.specs.Check.{check_answer, is_verdict};
ghost use Rattle.sha_crypt.specs.Records.{family_id, family_scheme};
ghost use Rattle.stored_check.specs.Verdict.{named_family};

use base64ct::Counts;
use sha_crypt::{CheckError, Family, sha256_check_counted, sha512_check_counted};

/// The family that an identifier names, if it names one.
pub fn named_family(id: &str) -> Option<Family>
    ensures { result ≡ named_family id.now }
{
    if id == "5" {
        return Some(Family::Sha256);
    }
    if id == "6" {
        return Some(Family::Sha512);
    }
    None
}

/// The answer of a family's check, with its look-ups and comparisons counted.
pub(crate) fn check_family(
    family: Family,
    password: &str,
    stored: &str,
    counts: &mut Counts,
) -> Result<(), CheckError>
    requires short { length password.now < 2 ^ 30 }
    requires looks { counts.old.looks ≤ 2 ^ 62 }
    requires sames { counts.old.sames ≤ 2 ^ 62 }
    ensures answer { result ≡ check_answer (family_scheme family).hash (family_scheme family).places family
        (family_id family) password.now stored.now }
    ensures looks { is_verdict result ≡ true
        → counts.new.looks ≡ counts.old.looks + (4 * (unpadded_len (family_scheme family).size / 4) + 4) }
    ensures sames { is_verdict result ≡ true
        → counts.new.sames ≡ counts.old.sames + (4 + (family_scheme family).size) }
    ensures looks_stay { counts.old.looks ≤ counts.new.looks }
    ensures most_looks { counts.new.looks ≤ counts.old.looks + 88 }
    ensures sames_stay { counts.old.sames ≤ counts.new.sames }
    ensures most_sames { is_verdict result ≡ false → counts.new.sames ≤ counts.old.sames + 4 }
{
    match family {
        Family::Sha256 => sha256_check_counted(password, stored, counts),
        Family::Sha512 => sha512_check_counted(password, stored, counts),
    }
}
