//! PBKDF2 for PHC records.

ghost use Rattle.std.specs.Prelude.{◌≡◌, ◌==◌, ◌≤◌, codes, false, length};
ghost use Rattle.phc_kdf.specs.Numbers.{number};
ghost use Rattle.pbkdf2_key.specs.Lengths.{length-pbkdf2_key};
ghost use Rattle.pbkdf2_key.specs.Profile.{are_params, are_rounds, identifier, is_number, pbkdf2_accepts, pbkdf2_key, pbkdf2_with, rounds_of};

use crate::{pbkdf2_sha1, pbkdf2_sha256, pbkdf2_sha512};
use phc::{ParamsString, PasswordHash};
use phc_kdf::PhcKdf;
use std::alloc::{AllocError, Global};

/// The hash function under the HMAC that PBKDF2 is made with.
#[derive(Clone, Copy, Debug, PartialEq, Eq)]
pub enum Pbkdf2Hash {
    Sha256,
    Sha512,
    /// For records that wait for migration.
    Sha1,
}

impl Pbkdf2Hash {
    /// The identifier of its records: `pbkdf2-sha256`, `pbkdf2-sha512` or `pbkdf2-sha1`.
    pub fn identifier(self) -> &'static str
        ensures identifier { result.now ≡ identifier self }
    {
        match self {
            Pbkdf2Hash::Sha256 => "pbkdf2-sha256",
            Pbkdf2Hash::Sha512 => "pbkdf2-sha512",
            Pbkdf2Hash::Sha1 => "pbkdf2-sha1",
        }
    }
}

/// PBKDF2 with a hash function, behind [`PhcKdf`].
///
/// It takes a record exactly where its identifier is that of the hash function, it has no version, its parameters are `i`,
/// once, and `l`, at most once, in any order, each a decimal, `i` is 1 to 10,000,000, `l` is the length of the hash, and
/// the hash has 10 to 64 bytes. Its key is that of [`pbkdf2_sha256`], [`pbkdf2_sha512`] or [`pbkdf2_sha1`] after `i` rounds. It never
/// needs memory. Texts that passlib writes under the same identifiers, as `$pbkdf2-sha256$29000$salt$hash`, are no such
/// records and aren't taken.
#[derive(Clone, Copy, Debug, PartialEq, Eq)]
pub struct Pbkdf2Plain {
    pub hash: Pbkdf2Hash,
}

// The rounds that a record names.
fn rounds_of(parsed: &PasswordHash) -> Option<u32>
    ensures { result ≡ rounds_of parsed.now }
{
    parsed.params.get_decimal_named("i")
}

// Whether the rounds that a record names are in range.
fn are_rounds(parsed: &PasswordHash) -> bool
    ensures { result ≡ are_rounds (rounds_of parsed.now) }
{
    match rounds_of(parsed) {
        Some(rounds) => 1 <= rounds && rounds <= 10_000_000,
        None => false,
    }
}

// Whether there is exactly one pair.
fn has_one_pair(params: &ParamsString) -> bool
    ensures { result ≡ (length params.now == 1) }
{
    let mut pairs = params.iter();
    match (pairs.next(), pairs.next()) {
        (Some(_), None) => true,
        _ => false,
    }
}

// Whether there are exactly two pairs.
fn has_two_pairs(params: &ParamsString) -> bool
    ensures { result ≡ (length params.now == 2) }
{
    let mut pairs = params.iter();
    match (pairs.next(), pairs.next(), pairs.next()) {
        (Some(_), Some(_), None) => true,
        _ => false,
    }
}

// Whether a record names this length.
fn names_length(parsed: &PasswordHash, length: usize) -> bool
    ensures { result ≡ is_number (number parsed.now (codes "l")) length }
{
    match parsed.params.get_decimal_named("l") {
        Some(number) => number as usize == length,
        None => false,
    }
}

// Whether the parameters are those that are taken for a key of this length.
fn are_params(parsed: &PasswordHash, length: usize) -> bool
    ensures { result ≡ are_params parsed.now length }
{
    are_rounds(parsed)
        && (has_one_pair(&parsed.params)
            || (has_two_pairs(&parsed.params) && names_length(parsed, length)))
}

// The key with this hash function.
fn derive_with(hash: Pbkdf2Hash, password: &[u8], salt: &[u8], rounds: u32, out: &mut [u8])
    requires rounds_least { 1 ≤ rounds }
    requires key_length_least { 1 ≤ length out.old }
    requires key_length_most { length out.old ≤ 64 }
    ensures key { out.new ≡ pbkdf2_with hash password.now salt.now rounds (length out.old) }
{
    match hash {
        Pbkdf2Hash::Sha256 => pbkdf2_sha256(password, salt, rounds, out),
        Pbkdf2Hash::Sha512 => pbkdf2_sha512(password, salt, rounds, out),
        Pbkdf2Hash::Sha1 => pbkdf2_sha1(password, salt, rounds, out),
    }
}

impl PhcKdf for Pbkdf2Plain {
    ghost accepted = { λ k parsed salt n. pbkdf2_accepts k.hash parsed n };

    ghost needs_memory = { λ _ _. false };

    ghost tag = { λ k password parsed salt n. pbkdf2_key k.hash password parsed salt n };

    ghost tag_length = { λ k password parsed salt n. length-pbkdf2_key k.hash password parsed salt n };

    #[tactic(auto, unfolding(crate::specs::Profile::pbkdf2_accepts))]
    fn accepts(&self, parsed: &PasswordHash, _salt: &[u8], length: usize) -> bool {
        parsed.algorithm.as_str() == self.hash.identifier()
            && parsed.version.is_none()
            && are_params(parsed, length)
            && 10 <= length
            && length <= 64
    }

    fn derive(
        &self,
        _alloc: Global,
        password: &[u8],
        parsed: &PasswordHash,
        salt: &[u8],
        out: &mut [u8],
    ) -> Result<(), AllocError> {
        match rounds_of(parsed) {
            Some(rounds) => {
                derive_with(self.hash, password, salt, rounds, out);
                Ok(())
            }
            None => unreachable!(),
        }
    }
}
