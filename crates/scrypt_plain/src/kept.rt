//! scrypt for PHC records, in a table that is kept.

ghost use Rattle.std.specs.Prelude.{◌≡◌, ◌*◌, ◌^◌, ◌<◌, ◌≤◌, length, OnOk, true};
ghost use Rattle.std.specs.Vec.{vec_len};
ghost use Rattle.scrypt_plain.specs.Bounds.{in_bounds};
ghost use Rattle.scrypt_plain.specs.Profile.{scrypt_accepts, scrypt_key};
ghost use Rattle.scrypt_plain.specs.KeyLength.{length-scrypt_key};
ghost use Rattle.scrypt_plain.specs.Scrypt.{scrypt};

use crate::profile::taken_cost;
use crate::{FIRST_WORD, ScryptPlain, scrypt, scrypt_in, work_len};
use phc::PasswordHash;
use phc_kdf::PhcKdf;
use std::alloc::{AllocError, Global};
use std::cell::RefCell;

/// scrypt behind [`PhcKdf`], as [`ScryptPlain`], with the table of one record kept for the next.
///
/// The table grows to the largest that a record needed, and is given back when this is dropped.
#[derive(Drop)]
pub struct ScryptKept {
    table: RefCell<Vec<u32>>,
}

impl ScryptKept {
    /// No table is kept yet.
    pub fn new(alloc: Global) -> ScryptKept {
        ScryptKept {
            table: RefCell::new(Vec::new(alloc)),
        }
    }

    /// Writes the key as [`scrypt`] does, in the table that is kept; where that is in use, in one of its own.
    ///
    /// # Errors
    ///
    /// Only where a table is refused. What `out` holds then isn't said.
    pub fn scrypt_into(
        &self,
        alloc: Global,
        password: &[u8],
        salt: &[u8],
        ln: u32,
        r: u32,
        p: u32,
        out: &mut [u8],
    ) -> Result<(), AllocError>
        requires bounds { in_bounds ln r p ≡ true }
        requires password_length { length password.now < 2 ^ 30 }
        requires salt_length { length salt.now < 2 ^ 30 }
        requires key_length_least { 1 ≤ length out.old }
        requires key_length_most { length out.old ≤ 64 }
        ensures key { OnOk result (out.new ≡ scrypt password.now salt.now (2 ^ ln) r p (length out.old)) }
    {
        // The table is lent within this call alone, to a body that knows of no `ScryptKept`, and no other thread shares
        // the cell: so it is never in use here. No contract tells what a cell holds, so both arms stand.
        match self.table.try_borrow_mut() {
            Ok(mut kept) => scrypt_kept(alloc, &mut kept, password, salt, ln, r, p, out),
            Err(_) => scrypt(alloc, password, salt, ln, r, p, out),
        }
    }
}

// Makes a table of at least `len` words. A smaller one is given back before the larger is asked for.
fn grow(alloc: Global, table: &mut Vec<u32>, len: usize) -> Result<(), AllocError>
    ensures room { OnOk result (len ≤ vec_len table.new) }
{
    if table.len() >= len {
        return Ok(());
    }
    *table = Vec::new(alloc);
    *table = Vec::from_elem(alloc, FIRST_WORD, len)?;
    Ok(())
}

// Writes the key as `scrypt` does, in this table, which grows where it is too small.
fn scrypt_kept(
    alloc: Global,
    table: &mut Vec<u32>,
    password: &[u8],
    salt: &[u8],
    ln: u32,
    r: u32,
    p: u32,
    out: &mut [u8],
) -> Result<(), AllocError>
    requires bounds { in_bounds ln r p ≡ true }
    requires password_length { length password.now < 2 ^ 30 }
    requires salt_length { length salt.now < 2 ^ 30 }
    requires key_length_least { 1 ≤ length out.old }
    requires key_length_most { length out.old ≤ 64 }
    ensures key { OnOk result (out.new ≡ scrypt password.now salt.now (2 ^ ln) r p (length out.old)) }
{
    match grow(alloc, table, work_len(ln, r, p)) {
        Ok(()) => {
            scrypt_in(password, salt, ln, r, p, table.as_mut_slice(), out);
            Ok(())
        }
        Err(AllocError) => Err(AllocError),
    }
}

impl PhcKdf for ScryptKept {
    ghost accepted = { λ _ parsed salt n. scrypt_accepts parsed n };

    ghost needs_memory = { λ _ _. true };

    ghost tag = { λ _ password parsed salt n. scrypt_key password parsed salt n };

    ghost tag_length = { λ _ password parsed salt n. length-scrypt_key password parsed salt n };

    fn accepts(&self, parsed: &PasswordHash, salt: &[u8], length: usize) -> bool {
        ScryptPlain.accepts(parsed, salt, length)
    }

    #[tactic(auto, unfolding(crate::specs::Profile::scrypt_key))]
    fn derive(
        &self,
        alloc: Global,
        password: &[u8],
        parsed: &PasswordHash,
        salt: &[u8],
        out: &mut [u8],
    ) -> Result<(), AllocError> {
        let cost = taken_cost(parsed, out.len());
        self.scrypt_into(alloc, password, salt, cost.ln, cost.r, cost.p, out)
    }
}
