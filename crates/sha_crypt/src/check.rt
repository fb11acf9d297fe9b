//! The check of a password against a stored text.

ghost use Rattle.std.specs.Prelude.{◌≡◌, ◌≤◌, ◌+◌, ◌*◌, ◌/◌, ◌^◌, Err, Ok, false, if◌then◌else◌, true};
ghost use Rattle.base64ct.specs.Encoding.{unpadded_len};
ghost use Rattle.sha_crypt.specs.Check.{check_answer, fields_answer, is_verdict};
ghost use Rattle.sha_crypt.specs.Fields.{checked_hash};
ghost use Rattle.sha_crypt.specs.HashField.{are_places, is_hash_field};
ghost use Rattle.sha_crypt.specs.Views.{fields_of};

use crate::b64::{counted_bytes, in_order};
use crate::digest::sha_crypt_digest;
use crate::fields::{Reading, ShaText, text_parts};
use crate::hasher::Hasher;
use crate::{CheckError, Family, FormatFault};
use base64ct::Counts;

// The answer by whether the hash matches.
fn answer_of(matches: bool) -> Result<(), CheckError>
    ensures answer { result ≡ (if matches then Ok tt else Err CheckError.HashMismatch) }
    ensures verdict { is_verdict result ≡ true }
{
    if matches {
        Ok(())
    } else {
        Err(CheckError::HashMismatch)
    }
}

// Whether the text of the hash is the hash field of the password's digest.
fn check_parts<const N: usize, H: Hasher<N>>(
    places: &[u8; N],
    password: &[u8],
    parts: ShaText<'_>,
    counts: &mut Counts,
) -> Result<(), CheckError>
    requires wide { 16 ≤ N }
    requires short { N ≤ 64 }
    requires places { are_places N places.now ≡ true }
    requires looks { counts.old.looks ≤ 2 ^ 62 }
    requires sames { counts.old.sames ≤ 2 ^ 62 }
    ensures answer { result ≡ fields_answer H.hash places.now password.now (checked_hash (is_hash_field N) (Ok (fields_of parts.entry))) }
    ensures looks { is_verdict result ≡ true → counts.new.looks ≡ counts.old.looks + (4 * (unpadded_len N / 4) + 4) }
    ensures sames { is_verdict result ≡ true → counts.new.sames ≡ counts.old.sames + (4 + N) }
    ensures looks_stay { counts.old.looks ≤ counts.new.looks }
    ensures most_looks { counts.new.looks ≤ counts.old.looks + (4 * (unpadded_len N / 4) + 4) }
    ensures sames_stay { counts.old.sames ≤ counts.new.sames }
    ensures most_sames { is_verdict result ≡ false → counts.new.sames ≤ counts.old.sames + 4 }
{
    let Some(bytes) = counted_bytes::<N>(parts.hash.as_bytes(), counts) else {
        return Err(CheckError::InvalidFormat(FormatFault::Base64));
    };
    let digest = sha_crypt_digest::<N, H>(password, parts.salt.as_bytes(), parts.rounds);
    let wanted = in_order(places, &digest);
    answer_of(bool::from(counts.same_bytes(&wanted, &bytes)))
}

/// The answer for a text, under a family with its identifier and places.
#[tactic(auto, unfolding(crate::specs::Check::check_answer))]
pub(crate) fn check_text<const N: usize, H: Hasher<N>>(
    places: &[u8; N],
    family: Family,
    id: &str,
    password: &[u8],
    text: &str,
    counts: &mut Counts,
) -> Result<(), CheckError>
    requires wide { 16 ≤ N }
    requires short { N ≤ 64 }
    requires places { are_places N places.now ≡ true }
    requires looks { counts.old.looks ≤ 2 ^ 62 }
    requires sames { counts.old.sames ≤ 2 ^ 62 }
    ensures answer { result ≡ check_answer H.hash places.now family id.now password.now text.now }
    ensures looks { is_verdict result ≡ true → counts.new.looks ≡ counts.old.looks + (4 * (unpadded_len N / 4) + 4) }
    ensures sames { is_verdict result ≡ true → counts.new.sames ≡ counts.old.sames + (4 + N) }
    ensures looks_stay { counts.old.looks ≤ counts.new.looks }
    ensures most_looks { counts.new.looks ≤ counts.old.looks + (4 * (unpadded_len N / 4) + 4) }
    ensures sames_stay { counts.old.sames ≤ counts.new.sames }
    ensures most_sames { is_verdict result ≡ false → counts.new.sames ≤ counts.old.sames + 4 }
{
    match text_parts(Reading::Plain, family, id, text) {
        Err(e) => Err(e),
        Ok(parts) => check_parts::<N, H>(places, password, parts, counts),
    }
}
