//! Texts of bcrypt, yescrypt, Argon2id and PBKDF2 for a salt that is given.

ghost use Rattle.std.specs.Prelude.{◌≡◌, ◌⊎◌, IsNone, Ok, false, length, take, true};
ghost use Rattle.any_check.specs.Records.{accepted, tag};
ghost use Rattle.any_check.specs.Table.{any_verdict};
ghost use Rattle.any_make.specs.Costs.{is_taken, needs_memory, salt_length};
ghost use Rattle.any_make.specs.Made.{made, make_fault};
ghost use Rattle.bcrypt_plain.specs.Check.{has_zero};
ghost use Rattle.pwcheck_c.specs.Made.{IsMade, IsMadeOrLacks, argon2id_cost, fault_status, yescrypt_cost};
ghost use Rattle.c_buffers.specs.Statuses.{status_done};

use crate::check::text_of;
use crate::room::text_len;
use crate::statuses::{
    DONE, NO_MEMORY, NO_ROOM, OUT_OF_RANGE, REFUSED_LENGTH, REFUSED_UTF8, REFUSED_ZERO,
};
use any_make::{Argon2Cost, MakeCost, MakeFault, Pbkdf2Hash, make_text};
use std::alloc::Global;
use yescrypt_plain::YescryptParams;

// The status of a cause that no text is made.
fn fault_status(fault: MakeFault) -> i32
    ensures { result ≡ fault_status fault }
{
    match fault {
        MakeFault::Cost | MakeFault::Salt => OUT_OF_RANGE,
        MakeFault::PasswordTooLong => REFUSED_LENGTH,
        MakeFault::NotUtf8 => REFUSED_UTF8,
        MakeFault::ZeroByte => REFUSED_ZERO,
        MakeFault::OutOfMemory => NO_MEMORY,
        MakeFault::BufferShort => NO_ROOM,
    }
}

// Whether a zero byte stands in a password.
fn has_zero(password: &[u8]) -> bool
    ensures { result ≡ has_zero password.now }
{
    password.iter().any(|b| *b == 0)
}

// The first cause that no text is made, whatever the buffer. It is found without a hash.
fn make_fault(cost: MakeCost, password: &[u8], salt: &[u8]) -> Option<MakeFault>
    ensures fault { result ≡ make_fault cost password.now salt.now }
    ensures cost { IsNone result → is_taken cost ≡ true }
    ensures salt { IsNone result → length salt.now ≡ salt_length cost }
{
    if !cost.is_taken() {
        return Some(MakeFault::Cost);
    }
    if salt.len() != cost.salt_length() {
        return Some(MakeFault::Salt);
    }
    if password.len() > cost.password_length() {
        return Some(MakeFault::PasswordTooLong);
    }
    if text_of(password).is_none() {
        return Some(MakeFault::NotUtf8);
    }
    if !cost.takes_zero() && has_zero(password) {
        return Some(MakeFault::ZeroByte);
    }
    None
}

// Writes the text of a password, a cost and a salt. A buffer that is too short is told before anything is hashed.
#[tactic(auto, unfolding(any_make::specs::Made::made))]
fn make(
    alloc: Global,
    cost: MakeCost,
    password: &[u8],
    salt: &[u8],
    out: &mut [u8],
    len: &mut usize,
) -> i32
    ensures made { IsMadeOrLacks (made cost password.now salt.now) out.old out.new len.old len.new result }
    ensures memory { needs_memory cost ≡ false
        → IsMade (made cost password.now salt.now) out.old out.new len.old len.new result }
    ensures matches { result ≡ status_done → any_verdict accepted tag password.now (take len.new out.new) ≡ Ok true }
{
    if let Some(fault) = make_fault(cost, password, salt) {
        return fault_status(fault);
    }
    if out.len() < text_len(cost) {
        return NO_ROOM;
    }
    match make_text(alloc, cost, password, salt, out) {
        Ok(count) => {
            *len = count;
            DONE
        }
        Err(fault) => fault_status(fault),
    }
}

/// Writes the text `$2b$cost$salt-and-hash` of a password and a salt of 16 bytes, without a zero behind it: 60 characters.
#[unsafe(no_mangle)]
pub extern "C" fn pwcheck_bcrypt_text(
    alloc: Global,
    password: &[u8],
    salt: &[u8],
    cost: u32,
    out: &mut [u8],
    len: &mut usize,
) -> i32
    ensures made { IsMade (made (MakeCost.Bcrypt cost) password.now salt.now) out.old out.new len.old len.new result }
    ensures matches { result ≡ status_done → any_verdict accepted tag password.now (take len.new out.new) ≡ Ok true }
{
    make(alloc, MakeCost::Bcrypt(cost), password, salt, out, len)
}

/// Writes the text `$y$parameters$salt$hash` of a password and a salt of 16 bytes, without a zero behind it.
#[unsafe(no_mangle)]
pub extern "C" fn pwcheck_yescrypt_text(
    alloc: Global,
    password: &[u8],
    salt: &[u8],
    ln: u32,
    r: u32,
    t: u32,
    out: &mut [u8],
    len: &mut usize,
) -> i32
    ensures made { IsMadeOrLacks (made (yescrypt_cost ln r t) password.now salt.now)
        out.old out.new len.old len.new result }
    ensures matches { result ≡ status_done → any_verdict accepted tag password.now (take len.new out.new) ≡ Ok true }
{
    let cost = MakeCost::Yescrypt(YescryptParams { ln, r, t });
    make(alloc, cost, password, salt, out, len)
}

/// Writes the text `$argon2id$v=19$m=M,t=T,p=P$salt$key` of a password and a salt of 16 bytes, with a key of 32 bytes and
/// without a zero behind it.
#[unsafe(no_mangle)]
pub extern "C" fn pwcheck_argon2id_text(
    alloc: Global,
    password: &[u8],
    salt: &[u8],
    memory: u32,
    passes: u32,
    lanes: u32,
    out: &mut [u8],
    len: &mut usize,
) -> i32
    ensures made { IsMadeOrLacks (made (argon2id_cost memory passes lanes) password.now salt.now)
        out.old out.new len.old len.new result }
    ensures matches { result ≡ status_done → any_verdict accepted tag password.now (take len.new out.new) ≡ Ok true }
{
    let cost = MakeCost::Argon2id(Argon2Cost {
        memory,
        passes,
        lanes,
    });
    make(alloc, cost, password, salt, out, len)
}

/// Writes the text `$pbkdf2-sha256$i=N,l=32$salt$key` of a password and a salt of 16 bytes, with a key of 32 bytes and
/// without a zero behind it.
#[unsafe(no_mangle)]
pub extern "C" fn pwcheck_pbkdf2_sha256_text(
    alloc: Global,
    password: &[u8],
    salt: &[u8],
    rounds: u32,
    out: &mut [u8],
    len: &mut usize,
) -> i32
    ensures made { IsMade (made (MakeCost.Pbkdf2 Pbkdf2Hash.Sha256 rounds) password.now salt.now)
        out.old out.new len.old len.new result }
    ensures matches { result ≡ status_done → any_verdict accepted tag password.now (take len.new out.new) ≡ Ok true }
{
    make(
        alloc,
        MakeCost::Pbkdf2(Pbkdf2Hash::Sha256, rounds),
        password,
        salt,
        out,
        len,
    )
}
