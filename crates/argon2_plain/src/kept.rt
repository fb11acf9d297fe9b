//! Argon2 for PHC records, in a table that is kept.

ghost use Rattle.std.specs.Prelude.{◌≡◌, ◌*◌, ◌^◌, ◌<◌, ◌≤◌, [], length, OnErr, OnOk, true};
ghost use Rattle.std.specs.Vec.{vec_len};
ghost use Rattle.argon2_plain.specs.Bounds.{are_in_bounds};
ghost use Rattle.argon2_plain.specs.Profile.{argon2_accepts, argon2_key};
ghost use Rattle.argon2_plain.specs.KeyLength.{length-argon2_key};
ghost use Rattle.argon2_plain.specs.Argon2.{argon2};

use crate::profile::taken_params;
use crate::{Argon2Plain, FIRST_WORD, Params, argon2, argon2_in};
use phc::PasswordHash;
use phc_kdf::PhcKdf;
use std::alloc::{AllocError, Global};
use std::cell::RefCell;

/// Argon2 behind [`PhcKdf`], as [`Argon2Plain`], with the table of one record kept for the next.
///
/// The table grows to the largest that a record needed, and is given back when this is dropped.
#[derive(Drop)]
pub struct Argon2Kept {
    table: RefCell<Vec<u64>>,
}

impl Argon2Kept {
    /// No table is kept yet.
    pub fn new(alloc: Global) -> Argon2Kept {
        Argon2Kept {
            table: RefCell::new(Vec::new(alloc)),
        }
    }

    /// Writes the key as [`argon2()`] does without a secret and data, in the table that is kept.
    ///
    /// # Errors
    ///
    /// Only where a table is refused. Then `out` is as it was.
    pub fn argon2_into(
        &self,
        alloc: Global,
        params: Params,
        password: &[u8],
        salt: &[u8],
        out: &mut [u8],
    ) -> Result<(), AllocError>
        requires bounds { are_in_bounds params ≡ true }
        requires password_length { length password.now < 2 ^ 32 }
        requires salt_length { length salt.now < 2 ^ 32 }
        requires tag_length_least { 4 ≤ length out.old }
        requires tag_length_most { length out.old < 2 ^ 32 }
        ensures tag { OnOk result (out.new ≡ argon2 params password.now salt.now [] [] (length out.old)) }
        ensures unchanged { OnErr result (out.new ≡ out.old) }
    {
        // The cell is in use only while this very call works, which calls nothing that could reach it again.
        match self.table.try_borrow_mut() {
            Ok(mut kept) => argon2_kept(alloc, &mut kept, params, password, salt, out),
            Err(_) => argon2(alloc, params, password, salt, &[], &[], out),
        }
    }
}

// Makes a table of at least `len` words. A smaller one is given back before the larger is asked for.
fn grow(alloc: Global, table: &mut Vec<u64>, len: usize) -> Result<(), AllocError>
    ensures room { OnOk result (len ≤ vec_len table.new) }
    ensures kept { len ≤ vec_len table.old → table.new ≡ table.old }
    ensures grown { vec_len table.old < len → OnOk result (vec_len table.new ≡ len) }
{
    if table.len() >= len {
        return Ok(());
    }
    *table = Vec::new(alloc);
    *table = Vec::from_elem(alloc, FIRST_WORD, len)?;
    Ok(())
}

// Writes the key as `argon2` does, in this table, which grows where it is too small.
fn argon2_kept(
    alloc: Global,
    table: &mut Vec<u64>,
    params: Params,
    password: &[u8],
    salt: &[u8],
    out: &mut [u8],
) -> Result<(), AllocError>
    requires bounds { are_in_bounds params ≡ true }
    requires password_length { length password.now < 2 ^ 32 }
    requires salt_length { length salt.now < 2 ^ 32 }
    requires tag_length_least { 4 ≤ length out.old }
    requires tag_length_most { length out.old < 2 ^ 32 }
    ensures tag { OnOk result (out.new ≡ argon2 params password.now salt.now [] [] (length out.old)) }
    ensures unchanged { OnErr result (out.new ≡ out.old) }
{
    match grow(alloc, table, params.work_len()) {
        Ok(()) => {
            argon2_in(params, password, salt, &[], &[], table.as_mut_slice(), out);
            Ok(())
        }
        Err(AllocError) => Err(AllocError),
    }
}

impl PhcKdf for Argon2Kept {
    ghost accepted = { λ _ parsed salt n. argon2_accepts parsed n };

    ghost needs_memory = { λ _ _. true };

    ghost tag = { λ _ password parsed salt n. argon2_key password parsed salt n };

    ghost tag_length = { λ _ password parsed salt n. length-argon2_key password parsed salt n };

    fn accepts(&self, parsed: &PasswordHash, salt: &[u8], length: usize) -> bool {
        Argon2Plain.accepts(parsed, salt, length)
    }

    #[tactic(auto, unfolding(crate::specs::Profile::argon2_key))]
    fn derive(
        &self,
        alloc: Global,
        password: &[u8],
        parsed: &PasswordHash,
        salt: &[u8],
        out: &mut [u8],
    ) -> Result<(), AllocError> {
        let params = taken_params(parsed, out.len());
        self.argon2_into(alloc, params, password, salt, out)
    }
}
