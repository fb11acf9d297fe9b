//! The keys of texts `$7$`, by the parts of scrypt_plain, with tables of up to 2^30 bytes.

ghost use Rattle.std.specs.Prelude.{◌≡◌, ◌+◌, ◌*◌, ◌^◌, ◌<◌, ◌≤◌, length, true};
ghost use Rattle.scrypt_plain.specs.Scrypt.{scrypt};
ghost use Rattle.yescrypt_plain.specs.Params.{scrypt_in_bounds};

use crate::ScryptParams;
use scrypt_plain::{pbkdf2, ro_mix};

/// How many words `scrypt_in` works in: those of the parts, of the table and of two rows more.
pub(crate) fn scrypt_len(params: ScryptParams) -> usize
    requires bounds { scrypt_in_bounds params ≡ true }
    ensures { result ≡ 32 * params.r * (2 ^ params.ln + params.p + 2) }
{
    32 * params.r as usize * ((1 << params.ln) + params.p as usize + 2)
}

/// The key of 32 bytes for the password, the salt and the costs.
///
/// It works in `work`, of which `scrypt_len` tells the length. What it holds makes no difference; what it holds afterwards is
/// unspecified, and depends on the password.
pub(crate) fn scrypt_in(
    password: &[u8],
    salt: &[u8],
    params: ScryptParams,
    work: &mut [u32],
) -> [u8; 32]
    requires bounds { scrypt_in_bounds params ≡ true }
    requires password { length password.now < 2 ^ 30 }
    requires salt { length salt.now < 2 ^ 30 }
    requires work { 32 * params.r * (2 ^ params.ln + params.p + 2) ≤ length work.old }
    ensures key { result ≡ scrypt password.now salt.now (2 ^ params.ln) params.r params.p 32 }
{
    let r = params.r as usize;
    let p = params.p as usize;
    let row = 32 * r;
    let (parts, rest) = work.split_at_mut(row * p);
    let (table, rest) = rest.split_at_mut(row * (1 << params.ln));
    let (x, rest) = rest.split_at_mut(row);
    let y = &mut rest[..row];
    pbkdf2::derive_words(password, salt, parts);
    ro_mix::mix_parts(parts, table, x, y, r, params.ln, p);
    let mut key = [0u8; 32];
    pbkdf2::derive_bytes(password, parts, &mut key);
    key
}
