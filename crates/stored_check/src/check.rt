//! The verdict.

ghost use Rattle.std.specs.Prelude.{◌≡◌, ◌&&◌, ◌+◌, ◌^◌, ◌≤◌, OnErr, OnOk, is_ok, length};
ghost use Rattle.base64ct.specs.Encoding.{EachBelow};
ghost use Rattle.phc.specs.Counts.{layout_comparisons, layout_looks, layout_of_text};
ghost use Rattle.phc.specs.Encoded.{encoding};
ghost use Rattle.phc.specs.Record.{phc_text};
ghost use Rattle.stored_check.specs.Counts.{hash_length, record_hash_length, verdict_comparisons, verdict_looks};
ghost use Rattle.stored_check.specs.Verdict.{IsVerdict, key_answer, may_lack_memory, phc_answer, record_needs, same_text, verdict};
ghost use Rattle.phc_kdf.specs.Limits.{password_max};

use crate::family::{check_family, named_family};
use crate::names::{mcf_name, phc_name, sha_verdict};
use crate::{PASSWORD_MAX, PhcKdf, StoredError};
use base64ct::Counts;
use mcf::PasswordHashRef;
use std::alloc::Global;

// Whether two lists of bytes have one encoding. They are compared as bytes, to their end.
fn same_encoding(hash: &[u8], key: &[u8], counts: &mut Counts) -> bool
    requires hash { EachBelow 256 hash.now }
    requires key { EachBelow 256 key.now }
    requires lengths { length key.now ≡ length hash.now }
    requires sames { counts.old.sames + length hash.now ≤ 2 ^ 63 }
    ensures same { result ≡ same_text (encoding hash.now) (encoding key.now) }
    ensures sames { counts.new.sames ≡ counts.old.sames + length hash.now }
    ensures looks { counts.new.looks ≡ counts.old.looks }
{
    bool::from(counts.same_bytes(hash, key))
}

// The verdict on a record.
fn check_record<K: PhcKdf>(
    alloc: Global,
    kdf: &K,
    password: &str,
    parsed: &phc::PasswordHash,
    counts: &mut Counts,
) -> Result<bool, StoredError>
    requires short { length password.now ≤ password_max }
    requires sames { counts.old.sames ≤ 2 ^ 62 + 8 }
    ensures answer { IsVerdict
        (key_answer (K.accepted kdf.now) (K.tag kdf.now) password.now parsed.now parsed.now.salt parsed.now.hash)
        (is_ok (key_answer (K.accepted kdf.now) (K.tag kdf.now) password.now parsed.now parsed.now.salt parsed.now.hash)
        && K.needs_memory kdf.now parsed.now)
        result }
    ensures looks { counts.new.looks ≡ counts.old.looks }
    ensures sames { OnOk result (counts.new.sames ≡ counts.old.sames + hash_length parsed.now.hash) }
    ensures unchanged { OnErr result (counts.new.sames ≡ counts.old.sames) }
{
    let Some(salt) = &parsed.salt else {
        return Err(StoredError::NoHash);
    };
    let Some(hash) = &parsed.hash else {
        return Err(StoredError::NoHash);
    };
    if !kdf.accepts(parsed, salt.as_bytes(), hash.len()) {
        return Err(StoredError::Kdf);
    }
    let mut buffer = [0; 64];
    let key = &mut buffer[..hash.as_bytes().len()];
    if kdf
        .derive(alloc, password.as_bytes(), parsed, salt.as_bytes(), key)
        .is_err()
    {
        return Err(StoredError::OutOfMemory);
    }
    let bytes = hash.as_bytes();
    Ok(same_encoding(bytes, key, counts))
}

// The verdict on a text whose identifier is neither family's.
fn check_phc<K: PhcKdf>(
    alloc: Global,
    kdf: &K,
    password: &str,
    stored: &str,
    counts: &mut Counts,
) -> Result<bool, StoredError>
    requires short { length password.now ≤ password_max }
    requires looks { counts.old.looks ≤ 2 ^ 62 }
    requires sames { counts.old.sames ≤ 2 ^ 62 }
    ensures answer { IsVerdict
        (phc_answer (K.accepted kdf.now) (K.tag kdf.now) password.now (phc_text stored.now))
        (is_ok (phc_answer (K.accepted kdf.now) (K.tag kdf.now) password.now (phc_text stored.now))
        && record_needs (K.needs_memory kdf.now) (phc_text stored.now))
        result }
    ensures looks { OnOk result (counts.new.looks ≡ counts.old.looks + layout_looks (layout_of_text stored.now)) }
    ensures sames { OnOk result (counts.new.sames ≡ counts.old.sames
        + (layout_comparisons (layout_of_text stored.now) + record_hash_length (phc_text stored.now))) }
    ensures looks_stay { counts.old.looks ≤ counts.new.looks }
    ensures sames_stay { counts.old.sames ≤ counts.new.sames }
    ensures most_looks { counts.new.looks ≤ counts.old.looks + 156 }
    ensures most_sames { OnErr result (counts.new.sames ≤ counts.old.sames + 8) }
{
    match phc::PasswordHash::new_counted(stored, counts) {
        Err(e) => Err(StoredError::Phc(phc_name(e))),
        Ok(parsed) => check_record(alloc, kdf, password, &parsed, counts),
    }
}

/// Checks a password against a stored text, and answers whether it matches.
///
/// Texts with identifier `5` are SHA-256-crypt, with `6` SHA-512-crypt, and need no memory; all others are PHC
/// records, whose keys `kdf` derives. The first cause that there is no verdict is answered, in the order of
/// [`StoredError`]. The hash field is decided by one comparison of bytes, whose steps depend on their number
/// alone.
pub fn check_stored<K: PhcKdf>(
    alloc: Global,
    kdf: &K,
    password: &str,
    stored: &str,
) -> Result<bool, StoredError>
    ensures verdict { IsVerdict
        (verdict (K.accepted kdf.now) (K.tag kdf.now) password.now stored.now)
        (may_lack_memory (K.accepted kdf.now) (K.needs_memory kdf.now) (K.tag kdf.now) password.now stored.now)
        result }
{
    check_stored_counted(alloc, kdf, password, stored, &mut Counts::new())
}

/// Checks as [`check_stored`], with the look-ups and comparisons of the decoded fields and of the tag counted.
///
/// On a verdict the counts depend on the stored text alone: 44 look-ups and 36 comparisons for identifier `5`, 88 and
/// 68 for `6`; for a PHC record the look-ups of its salt and its hash, 4 comparisons for each of these two, and one for
/// each byte of the hash. On a fault at most 156 look-ups and 8 comparisons are added.
pub fn check_stored_counted<K: PhcKdf>(
    alloc: Global,
    kdf: &K,
    password: &str,
    stored: &str,
    counts: &mut Counts,
) -> Result<bool, StoredError>
    requires looks { counts.old.looks ≤ 2 ^ 62 }
    requires sames { counts.old.sames ≤ 2 ^ 62 }
    ensures verdict { IsVerdict
        (verdict (K.accepted kdf.now) (K.tag kdf.now) password.now stored.now)
        (may_lack_memory (K.accepted kdf.now) (K.needs_memory kdf.now) (K.tag kdf.now) password.now stored.now)
        result }
    ensures looks { OnOk result (counts.new.looks ≡ counts.old.looks + verdict_looks stored.now) }
    ensures sames { OnOk result (counts.new.sames ≡ counts.old.sames + verdict_comparisons stored.now) }
    ensures looks_stay { counts.old.looks ≤ counts.new.looks }
    ensures sames_stay { counts.old.sames ≤ counts.new.sames }
    ensures most_looks { OnErr result (counts.new.looks ≤ counts.old.looks + 156) }
    ensures most_sames { OnErr result (counts.new.sames ≤ counts.old.sames + 8) }
{
    if password.len() > PASSWORD_MAX {
        return Err(StoredError::PasswordTooLong);
    }
    let text = match PasswordHashRef::new(stored) {
        Ok(text) => text,
        Err(e) => return Err(StoredError::Mcf(mcf_name(e))),
    };
    match named_family(text.id()) {
        Some(family) => sha_verdict(check_family(family, password, stored, counts)),
        None => check_phc(alloc, kdf, password, stored, counts),
    }
}
