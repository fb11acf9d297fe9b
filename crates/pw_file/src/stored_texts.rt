//! The policy of `pwfile`: texts that `check_stored` judges.

ghost use Rattle.std.specs.Prelude.{◌≡◌, ◌≢◌, Err, IfOk, OnErr};
ghost use Rattle.stored_check.specs.declared.error.StoredError.TheVariants.{OutOfMemory};

use crate::Policy;
use crate::upgraded::upgraded_text;
use mcf::PasswordHashRef;
use phc::{Ident, SaltString};
use scrypt_plain::ScryptKept;
use std::alloc::{AllocError, Global};
use stored_check::{McfFault, StoredError, check_stored, mcf_name};

/// Names of the PHC string format, of 1 to 32 characters of `a-z`, `0-9` and `-`; texts of the modular crypt format, none
/// of them locked; the verdicts of `check_stored` with scrypt; at most 4,096 users, none of whom is taken away.
///
/// The table of the largest scrypt record so far is kept.
#[derive(Drop)]
pub struct StoredTexts;

/// The most users of a table of stored texts.
pub const USERS_MAX: usize = 4_096;

// An answer of `check_stored`, with want of memory told apart.
fn told_apart(answer: Result<bool, StoredError>) -> Result<Result<bool, StoredError>, AllocError>
    ensures answer { IfOk result (λ told. told ≡ answer) }
    ensures known { IfOk result (λ told. answer ≢ Err OutOfMemory) }
    ensures wants { OnErr result (answer ≡ Err OutOfMemory) }
{
    match answer {
        Err(StoredError::OutOfMemory) => Err(AllocError),
        answer => Ok(answer),
    }
}

impl Policy for StoredTexts {
    ghost use Rattle.pw_file.specs.StoredTexts.{stored_texts};
    ghost use Rattle.pw_file.specs.StoredLaws.{stored_lawful};

    type TextFault = McfFault;

    type VerdictFault = StoredError;

    type Kept = ScryptKept;

    ghost policy = { stored_texts };

    fn is_name(name: &str) -> bool {
        Ident::new(name).is_ok()
    }

    fn text_fault(text: &str) -> Option<McfFault> {
        match PasswordHashRef::new(text) {
            Ok(_) => None,
            Err(e) => Some(mcf_name(e)),
        }
    }

    fn is_locked(_text: &str) -> bool {
        false
    }

    fn verdict(
        alloc: Global,
        kept: &ScryptKept,
        password: &str,
        text: &str,
    ) -> Result<Result<bool, StoredError>, AllocError> {
        told_apart(check_stored(alloc, kept, password, text))
    }

    fn users_max() -> usize {
        USERS_MAX
    }

    fn takes_remove() -> bool {
        false
    }

    fn is_refused(_kept: &ScryptKept, _text: &str) -> bool {
        false
    }

    fn is_too_costly(_kept: &ScryptKept, _password: &str, _text: &str) -> bool {
        false
    }

    fn salt_fault(_kept: &ScryptKept, salt: &str) -> Option<phc::Error> {
        SaltString::from_b64(salt).err()
    }

    fn renewed(
        alloc: Global,
        kept: &ScryptKept,
        password: &str,
        salt: &str,
        _text: &str,
    ) -> Result<Option<String>, AllocError> {
        match SaltString::from_b64(salt) {
            Ok(salt) => Ok(Some(upgraded_text(alloc, kept, password, &salt)?)),
            // A salt without a fault is always read.
            Err(_) => Err(AllocError),
        }
    }

    ghost lawful = { stored_lawful };
}
