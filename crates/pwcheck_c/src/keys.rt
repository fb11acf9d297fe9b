//! Keys.

ghost use Rattle.std.specs.Prelude.{◌≡◌, ◌⊎◌, ◌^◌, length, true, false};
ghost use Rattle.scrypt_plain.specs.Scrypt.{scrypt};
ghost use Rattle.pwcheck_c.specs.Inputs.{scrypt_takes};
ghost use Rattle.c_buffers.specs.Statuses.{status_done, status_no_memory};
ghost use Rattle.pwcheck_c.specs.Statuses.{status_out_of_range};

use crate::statuses::{DONE, NO_MEMORY, OUT_OF_RANGE, TOO_LONG};
use scrypt_plain::{in_bounds, scrypt};
use std::alloc::Global;

/// Writes scrypt's key of `out_len` bytes.
#[unsafe(no_mangle)]
pub extern "C" fn pwcheck_scrypt(
    alloc: Global,
    password: &[u8],
    salt: &[u8],
    ln: u32,
    r: u32,
    p: u32,
    out: &mut [u8],
) -> i32
    ensures taken { scrypt_takes password.now salt.now ln r p (length out.old) ≡ true
        → (result ≡ status_done) ⊎ (result ≡ status_no_memory) }
    ensures key { result ≡ status_done → out.new ≡ scrypt password.now salt.now (2 ^ ln) r p (length out.old) }
    ensures lacking { result ≡ status_no_memory → out.new ≡ out.old }
    ensures refused { scrypt_takes password.now salt.now ln r p (length out.old) ≡ false
        → (result ≡ status_out_of_range) × (out.new ≡ out.old) }
{
    if password.len() >= TOO_LONG || salt.len() >= TOO_LONG || out.len() < 1 || out.len() > 64 {
        return OUT_OF_RANGE;
    }
    if !in_bounds(ln, r, p) {
        return OUT_OF_RANGE;
    }
    match scrypt(alloc, password, salt, ln, r, p, out) {
        Ok(()) => DONE,
        Err(_) => NO_MEMORY,
    }
}
