//! Keys in memory that is kept.

ghost use Rattle.std.specs.Prelude.{◌≡◌, ◌+◌, ◌*◌, ◌^◌, ◌<◌, ◌≤◌, length, IfOk, OnOk, true};
ghost use Rattle.std.specs.Vec.{vec_len};
ghost use Rattle.scrypt_plain.specs.Scrypt.{scrypt};
ghost use Rattle.yescrypt_plain.specs.Params.{in_bounds, scrypt_in_bounds};
ghost use Rattle.yescrypt_plain.specs.Yescrypt.{yescrypt};

use crate::scrypt_key::{scrypt_in, scrypt_len};
use crate::{
    FIRST_WORD, ScryptParams, YescryptParams, table_len, words_len, yescrypt, yescrypt_in,
};
use std::alloc::{AllocError, Global};
use std::cell::RefCell;

// The memory of a key: of yescrypt the part with scrypt's small table, and the table with a row and the boxes; of scrypt the
// first alone.
#[derive(Drop)]
struct Memory {
    words: Vec<u32>,
    table: Vec<u64>,
}

/// Keys of yescrypt and scrypt, with the table of one kept for the next of its kind.
///
/// The two tables grow to the largest that a key needed, and are given back when this is dropped. They hold what was derived
/// from passwords.
#[derive(Drop)]
pub struct CryptKept {
    memory: RefCell<Memory>,
}

impl CryptKept {
    /// No table is kept yet.
    pub fn new(alloc: Global) -> CryptKept {
        CryptKept {
            memory: RefCell::new(Memory {
                words: Vec::new(alloc),
                table: Vec::new(alloc),
            }),
        }
    }

    /// The key as [`yescrypt()`] makes it, in the table that is kept.
    ///
    /// # Errors
    ///
    /// Only where a table is refused.
    pub fn yescrypt(
        &self,
        alloc: Global,
        password: &[u8],
        salt: &[u8],
        params: YescryptParams,
    ) -> Result<[u8; 32], AllocError>
        requires bounds { in_bounds params ≡ true }
        requires password { length password.now < 2 ^ 30 }
        requires salt { length salt.now < 2 ^ 30 }
        ensures key { IfOk result (λ key. key ≡ yescrypt password.now salt.now params.ln params.r params.t) }
    {
        // The cell is in use only while this very call works, which calls nothing that could reach it again.
        match self.memory.try_borrow_mut() {
            Ok(mut kept) => yescrypt_kept(alloc, &mut kept, password, salt, params),
            Err(_) => yescrypt(alloc, password, salt, params),
        }
    }

    /// The key of 32 bytes by scrypt for the password, the salt and the costs, in the table that is kept.
    ///
    /// # Errors
    ///
    /// Only where a table is refused.
    pub fn scrypt(
        &self,
        alloc: Global,
        password: &[u8],
        salt: &[u8],
        params: ScryptParams,
    ) -> Result<[u8; 32], AllocError>
        requires bounds { scrypt_in_bounds params ≡ true }
        requires password { length password.now < 2 ^ 30 }
        requires salt { length salt.now < 2 ^ 30 }
        ensures key { IfOk result (λ key. key ≡ scrypt password.now salt.now (2 ^ params.ln) params.r params.p 32) }
    {
        match self.memory.try_borrow_mut() {
            Ok(mut kept) => scrypt_kept(alloc, &mut kept.words, password, salt, params),
            Err(_) => scrypt_kept(alloc, &mut Vec::new(alloc), password, salt, params),
        }
    }
}

// Makes at least `len` words. A smaller vector is given back before the larger is asked for.
fn grow_words(alloc: Global, words: &mut Vec<u32>, len: usize) -> Result<(), AllocError>
    ensures room { OnOk result (len ≤ vec_len words.new) }
    ensures kept { len ≤ vec_len words.old → words.new ≡ words.old }
    ensures grown { vec_len words.old < len → OnOk result (vec_len words.new ≡ len) }
{
    if words.len() >= len {
        return Ok(());
    }
    *words = Vec::new(alloc);
    *words = Vec::from_elem(alloc, 1u32, len)?;
    Ok(())
}

// Makes a table of at least `len` words. A smaller one is given back before the larger is asked for.
fn grow_table(alloc: Global, table: &mut Vec<u64>, len: usize) -> Result<(), AllocError>
    ensures room { OnOk result (len ≤ vec_len table.new) }
    ensures kept { len ≤ vec_len table.old → table.new ≡ table.old }
    ensures grown { vec_len table.old < len → OnOk result (vec_len table.new ≡ len) }
{
    if table.len() >= len {
        return Ok(());
    }
    *table = Vec::new(alloc);
    *table = Vec::from_elem(alloc, FIRST_WORD, len)?;
    Ok(())
}

// The key, in this memory, which grows where it is too small.
fn yescrypt_kept(
    alloc: Global,
    memory: &mut Memory,
    password: &[u8],
    salt: &[u8],
    params: YescryptParams,
) -> Result<[u8; 32], AllocError>
    requires bounds { in_bounds params ≡ true }
    requires password { length password.now < 2 ^ 30 }
    requires salt { length salt.now < 2 ^ 30 }
    ensures key { IfOk result (λ key. key ≡ yescrypt password.now salt.now params.ln params.r params.t) }
{
    grow_words(alloc, &mut memory.words, words_len(params))?;
    grow_table(alloc, &mut memory.table, table_len(params))?;
    Ok(yescrypt_in(
        password,
        salt,
        params,
        memory.words.as_mut_slice(),
        memory.table.as_mut_slice(),
    ))
}

// The key by scrypt, in these words, which grow where they are too few.
fn scrypt_kept(
    alloc: Global,
    words: &mut Vec<u32>,
    password: &[u8],
    salt: &[u8],
    params: ScryptParams,
) -> Result<[u8; 32], AllocError>
    requires bounds { scrypt_in_bounds params ≡ true }
    requires password { length password.now < 2 ^ 30 }
    requires salt { length salt.now < 2 ^ 30 }
    ensures key { IfOk result (λ key. key ≡ scrypt password.now salt.now (2 ^ params.ln) params.r params.p 32) }
{
    grow_words(alloc, words, scrypt_len(params))?;
    Ok(scrypt_in(password, salt, params, words.as_mut_slice()))
}
