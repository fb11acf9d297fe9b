//! Laws over the definitions.

ghost use Rattle.std.specs.Prelude.{◌≡◌, ◌≢◌, ◌↔◌, ℕ, Bool, List, None, Some, Err, Ok, false, true};
ghost use Rattle.std.specs.Str.{is_utf8};
ghost use Rattle.mcf.specs.Grammar.{fault, parts};
ghost use Rattle.mcf.specs.declared.error.Error as mcf_error;
ghost use Rattle.phc.specs.Record.{phc};
ghost use Rattle.phc.specs.declared.error.Error as phc_error;
ghost use Rattle.phc.specs.declared.password_hash.PasswordHash.{PasswordHash};
ghost use Rattle.sha_crypt.specs.Families.{Scheme, scheme_fields};
ghost use Rattle.sha_crypt.specs.declared.errors.CheckError.{CheckError};
ghost use Rattle.stored_check.specs.HashFields.{ComparesField};
ghost use Rattle.stored_check.specs.Names.{mcf_named, phc_named, sha_named};
ghost use Rattle.stored_check.specs.Normal.{normal, old_verdict};
ghost use Rattle.stored_check.specs.Verdict.{mcf_name, phc_name, scheme_of, sha_name, verdict};

use crate::{PhcKdf, StoredError};

/// Want of memory is no verdict and no cause: the definition never gives it.
pub fn no_want_of_memory()
    ensures verdict { (accepted : PasswordHash → List ℕ → ℕ → Bool) (tag : List ℕ → PasswordHash → List ℕ → ℕ → List ℕ)
        (password stored : List ℕ) → verdict accepted tag password stored ≢ Err StoredError.OutOfMemory }
{}

/// The verdict on a text was a match, or a mismatch, exactly where it is one on its normal text.
pub fn normal_verdict<K: PhcKdf>(kdf: &K, password: &[u8], stored: &[u8])
    ensures matches { (old_verdict (K.accepted kdf.now) (K.tag kdf.now) password.now stored.now ≡ Ok true)
        ↔ (verdict (K.accepted kdf.now) (K.tag kdf.now) password.now (normal stored.now) ≡ Ok true) }
    ensures mismatches { (old_verdict (K.accepted kdf.now) (K.tag kdf.now) password.now stored.now ≡ Ok false)
        ↔ (verdict (K.accepted kdf.now) (K.tag kdf.now) password.now (normal stored.now) ≡ Ok false) }
{}

/// A normal text is its own normal text.
pub fn normal_twice(stored: &[u8])
    ensures twice { normal (normal stored.now) ≡ normal stored.now }
{}

/// Bytes that are no UTF-8 are their own normal text.
pub fn normal_of_other_bytes()
    ensures kept { (stored : List ℕ) → is_utf8 stored ≡ false → normal stored ≡ stored }
{}

/// A verdict on a text with an identifier that is neither `5` nor `6` compares the hash field itself, which is a piece
/// of the text.
pub fn hash_field_of_a_verdict()
    ensures compared { (accepted : PasswordHash → List ℕ → ℕ → Bool) (tag : List ℕ → PasswordHash → List ℕ → ℕ → List ℕ)
        (password stored : List ℕ) (matches : Bool) → scheme_of (parts stored).id ≡ None
        → verdict accepted tag password stored ≡ Ok matches → ComparesField tag password stored matches }
{}

/// Each fault that the grammars give has a name of its own, which stands for no other fault.
pub fn faults_by_their_names()
    ensures mcf { (stored : List ℕ) (e : mcf_error.Error) → fault stored ≡ Some e → mcf_named (mcf_name e) ≡ e }
    ensures sha { (scheme : Scheme) (pieces : List (List ℕ)) (e : CheckError) → scheme_fields scheme pieces ≡ Err e
        → sha_named (sha_name e) ≡ e }
    ensures phc { (id : List ℕ) (pieces : List (List ℕ)) (e : phc_error.Error) → phc id pieces ≡ Err e
        → phc_named (phc_name e) ≡ e }
{}
