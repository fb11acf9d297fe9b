//! What the check of a stored text costs.

ghost use Rattle.std.specs.Prelude.{◌≡◌, true};
ghost use Rattle.phc.specs.Record.{phc_text};
ghost use Rattle.scrypt_plain.specs.Bounds.{in_bounds};
ghost use Rattle.sha_crypt.specs.Records.{record_of};
ghost use Rattle.pwcheck_c.specs.Costs.{fields_cost, is_over, mixed_bytes, over_cost, phc_cost, record_cost, stored_cost};

use crate::check::text_of;
use mcf::PasswordHashRef;
use phc::PasswordHash;
use scrypt_plain::{ScryptPlain, taken_cost};
use sha_crypt::{Family, ShaRecord};
use stored_check::{PASSWORD_MAX, PhcKdf, named_family};

/// What the check of a valid stored text costs.
#[derive(Clone, Copy)]
pub enum Cost {
    /// So many rounds of SHA-crypt.
    Rounds(usize),
    /// So many bytes that scrypt fills, and then mixes once more.
    Bytes(u64),
}

/// The greatest costs that a caller takes.
#[derive(Clone, Copy)]
pub(crate) struct Bounds {
    pub rounds: u32,
    pub bytes: u64,
}

// The bytes of a cost of scrypt.
fn mixed_bytes(cost: scrypt_plain::Cost) -> Cost
    requires bounds { in_bounds cost.ln cost.r cost.p ≡ true }
    ensures { result ≡ mixed_bytes cost }
{
    Cost::Bytes(128 * cost.r as u64 * (1u64 << cost.ln) * cost.p as u64)
}

// The cost of a record that scrypt takes.
fn record_cost(parsed: &PasswordHash) -> Option<Cost>
    ensures cost { result ≡ record_cost parsed.now parsed.now.salt parsed.now.hash }
{
    let salt = parsed.salt.as_ref()?;
    let hash = parsed.hash.as_ref()?;
    if !ScryptPlain.accepts(parsed, salt.as_bytes(), hash.len()) {
        return None;
    }
    Some(mixed_bytes(taken_cost(parsed, hash.len())))
}

// The cost of a PHC text.
fn phc_cost(stored: &str) -> Option<Cost>
    ensures cost { result ≡ phc_cost (phc_text stored.now) }
{
    match PasswordHash::new(stored) {
        Ok(parsed) => record_cost(&parsed),
        Err(_) => None,
    }
}

// The cost of a text of a family of SHA-crypt.
fn family_cost(stored: &str, family: Family) -> Option<Cost>
    ensures cost { result ≡ fields_cost (record_of family stored.now) }
{
    match ShaRecord::new(stored, family) {
        Ok(record) => Some(Cost::Rounds(record.rounds())),
        Err(_) => None,
    }
}

// The cost of a stored text, where it is valid.
fn stored_cost(stored: &str) -> Option<Cost>
    ensures cost { result ≡ stored_cost stored.now }
{
    let text = match PasswordHashRef::new(stored) {
        Ok(text) => text,
        Err(_) => return None,
    };
    match named_family(text.id()) {
        Some(family) => family_cost(stored, family),
        None => phc_cost(stored),
    }
}

// Whether a cost is above the bounds.
fn is_over(bounds: Bounds, cost: Option<Cost>) -> bool
    ensures { result ≡ is_over bounds.rounds bounds.bytes cost }
{
    match cost {
        None => false,
        Some(Cost::Rounds(rounds)) => rounds > bounds.rounds as usize,
        Some(Cost::Bytes(bytes)) => bytes > bounds.bytes,
    }
}

/// Whether there would be a verdict, and the stored text's cost is above the bounds. No digest is computed.
#[tactic(auto, unfolding(crate::specs::Costs::over_cost))]
pub(crate) fn over_cost(password: &[u8], stored: &[u8], bounds: Bounds) -> bool
    ensures over { result ≡ over_cost bounds.rounds bounds.bytes password.now stored.now }
{
    match (text_of(password), text_of(stored)) {
        (Some(password), Some(stored)) => {
            password.len() <= PASSWORD_MAX && is_over(bounds, stored_cost(stored))
        }
        _ => false,
    }
}
