//! Texts that are made.

ghost use Rattle.std.specs.Prelude.{◌≡◌, ◌⊎◌, ◌≤◌, length, take, false, true, IfErr, IfOk, IsNone, MatchResult, Ok, OnErr};
ghost use Rattle.std.specs.Str.{is_utf8};
ghost use Rattle.any_check.specs.Records.{accepted, tag};
ghost use Rattle.any_check.specs.Table.{any_verdict};
ghost use Rattle.bcrypt_plain.specs.Check.{has_zero};
ghost use Rattle.any_make.specs.Costs.{is_taken, password_length, salt_length, takes_zero};
ghost use Rattle.any_make.specs.Made.{IsMakeFault, IsRefusal, IsWritten, made, make_fault};

use crate::texts::{TEXT_MAX, hash_text};
use crate::{MakeCost, MakeFault};
use pieces::short_bytes::ShortBytes;
use pieces::text::text_of;
use std::alloc::{AllocError, Global};

// Whether a zero byte stands in a password.
fn has_zero(password: &[u8]) -> bool
    ensures { result ≡ has_zero password.now }
{
    password.iter().any(|b| *b == 0)
}

// Whether a password is UTF-8.
fn is_text(password: &[u8]) -> bool
    ensures { result ≡ is_utf8 password.now }
{
    match text_of(password) {
        Some(_) => true,
        None => false,
    }
}

// The first cause that no text is made.
fn make_fault(cost: MakeCost, password: &[u8], salt: &[u8]) -> Option<MakeFault>
    ensures fault { result ≡ make_fault cost password.now salt.now }
    ensures cost { IsNone result → is_taken cost ≡ true }
    ensures salt { IsNone result → length salt.now ≡ salt_length cost }
    ensures password { IsNone result → length password.now ≤ password_length cost }
    ensures zero { IsNone result → (takes_zero cost ≡ true) ⊎ (has_zero password.now ≡ false) }
{
    if !cost.is_taken() {
        return Some(MakeFault::Cost);
    }
    if salt.len() != cost.salt_length() {
        return Some(MakeFault::Salt);
    }
    if password.len() > cost.password_length() {
        return Some(MakeFault::PasswordTooLong);
    }
    if !is_text(password) {
        return Some(MakeFault::NotUtf8);
    }
    if !cost.takes_zero() && has_zero(password) {
        return Some(MakeFault::ZeroByte);
    }
    None
}

/// The text of a password, a cost and a salt, in memory of its own size.
///
/// # Errors
///
/// The first of [`MakeFault`] but `BufferShort`; `OutOfMemory` only where the key takes a table
/// ([`MakeCost::needs_memory`]).
#[tactic(auto, unfolding(crate::specs::Made::made))]
pub fn made_text(
    alloc: Global,
    cost: MakeCost,
    password: &[u8],
    salt: &[u8],
) -> Result<ShortBytes<TEXT_MAX>, MakeFault>
    ensures text { MatchResult result
        (λ text. made cost password.now salt.now ≡ Ok text)
        (λ e. IsMakeFault cost (made cost password.now salt.now) e) }
{
    if let Some(fault) = make_fault(cost, password, salt) {
        return Err(fault);
    }
    match hash_text(alloc, cost, password, salt) {
        Ok(text) => Ok(text),
        Err(AllocError) => Err(MakeFault::OutOfMemory),
    }
}

/// Writes the text of a password, a cost and a salt to the front of `out`, and tells its length: at most 123 bytes, for which
/// [`TEXT_MAX`] is room. What stands behind it stays.
///
/// The salt has [`MakeCost::salt_length`] bytes, which should come from a generator that no
/// one can foresee, and be used once. `any_check` answers the text with a match for this password, for every salt.
///
/// # Errors
///
/// The first of [`MakeFault`]. `out` is then as it was.
pub fn make_text(
    alloc: Global,
    cost: MakeCost,
    password: &[u8],
    salt: &[u8],
    out: &mut [u8],
) -> Result<usize, MakeFault>
    ensures written { IfOk result (IsWritten (made cost password.now salt.now) out.old out.new) }
    ensures matches { IfOk result (λ n. any_verdict accepted tag password.now (take n out.new) ≡ Ok true) }
    ensures refused { IfErr result (IsRefusal cost (made cost password.now salt.now) out.old) }
    ensures unchanged { OnErr result (out.new ≡ out.old) }
{
    match made_text(alloc, cost, password, salt) {
        Ok(text) => {
            let bytes = text.as_slice();
            if out.len() < bytes.len() {
                return Err(MakeFault::BufferShort);
            }
            out[..bytes.len()].copy_from_slice(bytes);
            Ok(bytes.len())
        }
        Err(fault) => Err(fault),
    }
}
