//! Argon2 for PHC records.

ghost use Rattle.std.specs.Prelude.{◌≡◌, ◌≤◌, ◌==◌, length, true, Some};
ghost use Rattle.argon2_plain.specs.Bounds.{are_in_bounds};
ghost use Rattle.argon2_plain.specs.Profile.{are_taken, argon2_accepts, argon2_key, is_version, params_of, variant_of};
ghost use Rattle.argon2_plain.specs.KeyLength.{length-argon2_key};

use crate::{Params, Variant, argon2};
use phc::{ParamsString, PasswordHash};
use phc_kdf::PhcKdf;
use std::alloc::{AllocError, Global};

/// Argon2 behind [`PhcKdf`].
///
/// It takes a record exactly where its identifier is `argon2d`, `argon2i` or `argon2id`, its version is 19, its
/// parameters are `m`, `t` and `p`, each once, in any order and a decimal, [`Params::are_in_bounds`] holds of them, and the hash has
/// 10 to 64 bytes. A record without a version means version 16, which this crate hasn't, so it is refused; nor is one
/// with `keyid` or `data`. Its key is that of [`argon2()`] without a secret and data. It may need memory for every record.
#[derive(Clone, Copy, Debug, PartialEq, Eq)]
pub struct Argon2Plain;

// The type that an identifier names.
fn variant_of(name: &str) -> Option<Variant>
    ensures { result ≡ variant_of name.now }
{
    if name == "argon2d" {
        Some(Variant::D)
    } else if name == "argon2i" {
        Some(Variant::I)
    } else if name == "argon2id" {
        Some(Variant::Id)
    } else {
        None
    }
}

// Whether the version is 19.
fn is_version(version: Option<u32>) -> bool
    ensures { result ≡ is_version version }
{
    match version {
        Some(number) => number == 19,
        None => false,
    }
}

// What a record asks for.
pub(crate) fn params_of(parsed: &PasswordHash) -> Option<Params>
    ensures { result ≡ params_of parsed.now }
{
    let variant = variant_of(parsed.algorithm.as_str())?;
    let memory = parsed.params.get_decimal_named("m")?;
    let passes = parsed.params.get_decimal_named("t")?;
    let lanes = parsed.params.get_decimal_named("p")?;
    Some(Params {
        variant,
        passes,
        memory,
        lanes,
    })
}

// Whether there are exactly three pairs.
fn has_three_pairs(params: &ParamsString) -> bool
    ensures { result ≡ (length params.now == 3) }
{
    let mut pairs = params.iter();
    match (pairs.next(), pairs.next(), pairs.next(), pairs.next()) {
        (Some(_), Some(_), Some(_), None) => true,
        _ => false,
    }
}

// Whether what a record asks for is in bounds.
fn are_taken(parsed: &PasswordHash) -> bool
    ensures { result ≡ are_taken (params_of parsed.now) }
{
    match params_of(parsed) {
        Some(params) => params.are_in_bounds(),
        None => false,
    }
}

// What a record asks for that is taken for a key of this length.
pub(crate) fn taken_params(parsed: &PasswordHash, length: usize) -> Params
    requires taken { argon2_accepts parsed.now length ≡ true }
    ensures params { params_of parsed.now ≡ Some result }
    ensures bounds { are_in_bounds result ≡ true }
    ensures least { 10 ≤ length }
    ensures most { length ≤ 64 }
{
    match params_of(parsed) {
        Some(params) => params,
        None => unreachable!(),
    }
}

impl PhcKdf for Argon2Plain {
    ghost accepted = { λ _ parsed salt n. argon2_accepts parsed n };

    ghost needs_memory = { λ _ _. true };

    ghost tag = { λ _ password parsed salt n. argon2_key password parsed salt n };

    ghost tag_length = { λ _ password parsed salt n. length-argon2_key password parsed salt n };

    #[tactic(auto, unfolding(crate::specs::Profile::argon2_accepts))]
    fn accepts(&self, parsed: &PasswordHash, _salt: &[u8], length: usize) -> bool {
        are_taken(parsed)
            && is_version(parsed.version)
            && has_three_pairs(&parsed.params)
            && 10 <= length
            && length <= 64
    }

    #[tactic(auto, unfolding(crate::specs::Profile::argon2_key))]
    fn derive(
        &self,
        alloc: Global,
        password: &[u8],
        parsed: &PasswordHash,
        salt: &[u8],
        out: &mut [u8],
    ) -> Result<(), AllocError> {
        let params = taken_params(parsed, out.len());
        argon2(alloc, params, password, salt, &[], &[], out)
    }
}
