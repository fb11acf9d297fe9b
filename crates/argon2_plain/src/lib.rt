//! Argon2 version 0x13 (RFC 9106), of types d, i and id: a tag from a password and a salt, at a cost in memory and time;
//! and [`Argon2Plain`], which derives the keys of PHC records by it. The lanes are filled one after another, in one thread.
#![tactic(auto)]

ghost use Rattle.std.specs.Prelude.{◌≡◌, ◌*◌, ◌/◌, ◌^◌, ◌<◌, ◌≤◌, length, true, OnErr, OnOk};
ghost use Rattle.argon2_plain.specs.Bounds.{are_in_bounds, block_count};
ghost use Rattle.argon2_plain.specs.Argon2.{argon2, plan_of};
ghost use Rattle.argon2_plain.specs.Plans.{IsPlan};

use fill::Plan;
pub use hash::variable_hash;
pub use kept::Argon2Kept;
pub use params::Params;
pub use profile::Argon2Plain;
use std::alloc::{AllocError, Global};
pub use variant::Variant;

mod derive;
mod fill;
mod hash;
mod kept;
pub mod laws;
mod params;
mod permutation;
mod profile;
mod variant;

// What each word of a new memory is, which makes no difference. As its bytes differ, LLVM writes it by plain stores,
// which is faster on new pages than zeroing them again.
const FIRST_WORD: u64 = 1;

// What a derivation at these costs asks for.
fn plan_of(params: Params) -> Plan
    requires bounds { are_in_bounds params ≡ true }
    ensures value { result ≡ plan_of params }
    ensures taken { IsPlan result }
    ensures passes { 1 ≤ result.passes }
{
    Plan {
        variant: params.variant,
        passes: params.passes as usize,
        lanes: params.lanes as usize,
        segment: params.memory as usize / (4 * params.lanes as usize),
    }
}

// Writes the tag in a memory of just this length.
fn argon2_in_memory(
    params: Params,
    password: &[u8],
    salt: &[u8],
    secret: &[u8],
    associated: &[u8],
    memory: &mut [u64],
    out: &mut [u8],
)
    requires bounds { are_in_bounds params ≡ true }
    requires password_length { length password.now < 2 ^ 32 }
    requires salt_length { length salt.now < 2 ^ 32 }
    requires secret_length { length secret.now < 2 ^ 32 }
    requires associated_length { length associated.now < 2 ^ 32 }
    requires memory { length memory.old ≡ 128 * block_count params.memory params.lanes }
    requires tag_length_least { 4 ≤ length out.old }
    requires tag_length_most { length out.old < 2 ^ 32 }
    ensures tag { out.new ≡ argon2 params password.now salt.now secret.now associated.now (length out.old) }
{
    let h0 = hash::initial_hash(params, password, salt, secret, associated, out.len() as u32);
    derive::derive(&plan_of(params), &h0, memory, out);
}

/// Writes the tag of `out.len()` bytes for a password, a salt, a secret and associated data into `out`. An empty secret is
/// none, and so is empty data.
///
/// It works in `work`, of which [`Params::work_len`] tells the length, and takes no memory. What `work` holds before makes
/// no difference; what it holds afterwards is unspecified, and depends on the password.
pub fn argon2_in(
    params: Params,
    password: &[u8],
    salt: &[u8],
    secret: &[u8],
    associated: &[u8],
    work: &mut [u64],
    out: &mut [u8],
)
    requires bounds { are_in_bounds params ≡ true }
    requires password_length { length password.now < 2 ^ 32 }
    requires salt_length { length salt.now < 2 ^ 32 }
    requires secret_length { length secret.now < 2 ^ 32 }
    requires associated_length { length associated.now < 2 ^ 32 }
    requires work_length { 128 * block_count params.memory params.lanes ≤ length work.old }
    requires tag_length_least { 4 ≤ length out.old }
    requires tag_length_most { length out.old < 2 ^ 32 }
    ensures tag { out.new ≡ argon2 params password.now salt.now secret.now associated.now (length out.old) }
{
    let (memory, _rest) = work.split_at_mut(params.work_len());
    argon2_in_memory(params, password, salt, secret, associated, memory, out);
}

/// Writes the tag as `argon2_in` does, in one vector of [`Params::work_len`] words.
///
/// # Errors
///
/// Only where the vector is refused. Then `out` is as it was.
pub fn argon2(
    alloc: Global,
    params: Params,
    password: &[u8],
    salt: &[u8],
    secret: &[u8],
    associated: &[u8],
    out: &mut [u8],
) -> Result<(), AllocError>
    requires bounds { are_in_bounds params ≡ true }
    requires password_length { length password.now < 2 ^ 32 }
    requires salt_length { length salt.now < 2 ^ 32 }
    requires secret_length { length secret.now < 2 ^ 32 }
    requires associated_length { length associated.now < 2 ^ 32 }
    requires tag_length_least { 4 ≤ length out.old }
    requires tag_length_most { length out.old < 2 ^ 32 }
    ensures tag { OnOk result (out.new ≡ argon2 params password.now salt.now secret.now associated.now (length out.old)) }
    ensures unchanged { OnErr result (out.new ≡ out.old) }
{
    let mut work = Vec::from_elem(alloc, FIRST_WORD, params.work_len())?;
    argon2_in_memory(
        params,
        password,
        salt,
        secret,
        associated,
        work.as_mut_slice(),
        out,
    );
    Ok(())
}
