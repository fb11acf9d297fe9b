//! yescrypt (Alexander Peslyak, submission to the Password Hashing Competition, 2014 to 2015), the scheme of the stored texts
//! `$y$parameters$salt$hash` of crypt(3), and scrypt in the text form `$7$` of crypt(3): keys, texts made, and the check of
//! a password against a text.
//!
//! yescrypt is taken in the one flavor that is in use, `j`, of the flags `YESCRYPT_RW_DEFAULTS`: with a table that is written
//! as it is read, pwxform in place of Salsa20/8, one part (p = 1), no upgrades (g = 0) and no ROM. The key of a text `$7$` is
//! that of RFC 7914, by the parts of [`scrypt_plain`].
#![tactic(auto)]

ghost use Rattle.std.specs.Prelude.{◌≡◌, ◌+◌, ◌*◌, ◌^◌, ◌<◌, ◌≤◌, length, true, IfOk};
ghost use Rattle.yescrypt_plain.specs.Params.{in_bounds};
ghost use Rattle.yescrypt_plain.specs.Yescrypt.{yescrypt};

mod block_mix;
mod check;
mod compare;
mod costs;
mod error;
mod field;
mod kdf;
mod kept;
pub mod laws;
mod make;
mod number;
mod params;
mod pwx;
mod rows;
mod scrypt_key;
mod smix;
mod text;

pub use check::{scrypt_check, scrypt_check_kept, yescrypt_check, yescrypt_check_kept};
pub use costs::{scrypt_costs, yescrypt_costs};
pub use error::{CheckError, MakeError, TextFault};
pub use kept::CryptKept;
pub use make::{scrypt_text, yescrypt_text};
pub use params::{
    ScryptParams, YescryptParams, in_bounds, read_scrypt_params, read_yescrypt_params,
    scrypt_in_bounds, scrypt_params_text, yescrypt_params_text,
};
use std::alloc::{AllocError, Global};

// What each word of a new table is, which makes no difference. As its bytes differ, LLVM writes it by plain stores,
// which is faster on new pages than zeroing them again.
const FIRST_WORD: u64 = 1;

/// How many words of 32 bits `yescrypt_in` works in.
pub fn words_len(params: YescryptParams) -> usize
    requires bounds { in_bounds params ≡ true }
    ensures { result ≡ 32 * params.r + 3104 }
{
    kdf::words_len(params.r as usize)
}

/// How many words of 64 bits `yescrypt_in` works in: those of the table, of a row more and of the boxes.
pub fn table_len(params: YescryptParams) -> usize
    requires bounds { in_bounds params ≡ true }
    ensures { result ≡ 16 * params.r * (2 ^ params.ln + 1) + 1536 }
{
    kdf::table_len(params.r as usize, params.ln)
}

/// The key of 32 bytes for the password, the salt and the costs.
///
/// It works in `words` and `table`, of which `words_len` and `table_len` tell the lengths. What they hold makes no
/// difference; what they hold afterwards is unspecified, and depends on the password.
pub fn yescrypt_in(
    password: &[u8],
    salt: &[u8],
    params: YescryptParams,
    words: &mut [u32],
    table: &mut [u64],
) -> [u8; 32]
    requires bounds { in_bounds params ≡ true }
    requires password { length password.now < 2 ^ 30 }
    requires salt { length salt.now < 2 ^ 30 }
    requires words { 32 * params.r + 3104 ≤ length words.old }
    requires table { 16 * params.r * (2 ^ params.ln + 1) + 1536 ≤ length table.old }
    ensures key { result ≡ yescrypt password.now salt.now params.ln params.r params.t }
{
    let (words, _rest) = words.split_at_mut(words_len(params));
    let (table, _rest) = table.split_at_mut(table_len(params));
    kdf::derive(
        password,
        salt,
        words,
        table,
        params.r as usize,
        params.ln,
        params.t,
    )
}

/// The key as `yescrypt_in` makes it, in memory of its own.
///
/// # Errors
///
/// Only where memory is refused: 128 r bytes and some 12 KiB, or a table of 128 r N bytes, a row more and some 12 KiB.
pub fn yescrypt(
    alloc: Global,
    password: &[u8],
    salt: &[u8],
    params: YescryptParams,
) -> Result<[u8; 32], AllocError>
    requires bounds { in_bounds params ≡ true }
    requires password { length password.now < 2 ^ 30 }
    requires salt { length salt.now < 2 ^ 30 }
    ensures key { IfOk result (λ key. key ≡ yescrypt password.now salt.now params.ln params.r params.t) }
{
    let mut words = Vec::from_elem(alloc, 1u32, words_len(params))?;
    let mut table = Vec::from_elem(alloc, FIRST_WORD, table_len(params))?;
    Ok(yescrypt_in(
        password,
        salt,
        params,
        words.as_mut_slice(),
        table.as_mut_slice(),
    ))
}
