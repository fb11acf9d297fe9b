//! SHA-crypt: password digests after Drepper's text 'Unix crypt using SHA-256 and SHA-512', and the check
//! of a password against a stored text.
//!
//! Only the calls that make a `String` take memory: those whose names end in `_b64` or `_simple`. One body serves both
//! hash functions.
#![tactic(auto)]

ghost use Rattle.std.specs.Prelude.{◌≡◌, ◌≤◌, ◌+◌, ◌^◌, ◌<◌, ℕ, List, IfOk, IsOkUnless, MatchResult, false, length, string_bytes, true};
ghost use Rattle.sha2.specs.Sha256.{sha256};
ghost use Rattle.sha2.specs.Sha512.{sha512};
ghost use Rattle.sha_crypt.specs.Check.{is_verdict};
ghost use Rattle.sha_crypt.specs.Digest.{sha_crypt_digest, whole_salt_digest};
ghost use Rattle.sha_crypt.specs.Families.{sha256_answer, sha512_answer};
ghost use Rattle.sha_crypt.specs.HashField.{map_sha256, map_sha512, hash_field, IsHashFieldOf};
ghost use Rattle.sha_crypt.specs.Simple.{characters, sha256_text, sha512_text};

pub mod b64;
mod check;
mod defs;
mod digest;
mod errors;
mod fields;
mod hasher;
pub mod laws;
mod lent;
mod old;
mod params;
mod record;
mod simple;
mod text;
mod turns;

use base64ct::Counts;
pub use defs::{
    BLOCK_SIZE_SHA256, BLOCK_SIZE_SHA512, MAP_SHA256, MAP_SHA512, PW_SIZE_SHA256, PW_SIZE_SHA512,
    SALT_MAX_LEN, TAB,
};
use defs::{BACK_SHA256, BACK_SHA512};
pub use errors::{CheckError, CryptError, DecodeError, Family, FormatFault};
pub use old::old_record;
pub use params::{ROUNDS_DEFAULT, ROUNDS_MAX, ROUNDS_MIN, Sha256Params, Sha512Params};
use rand_core::Rng;
pub use record::ShaRecord;
use sha2::{Sha256, Sha512};
pub use simple::random_characters;
use std::alloc::Global;
pub use text::{TEXT_MAX, password_text, push_rounds};

/// The SHA-256-crypt digest of a password and a salt, of which the first 16 bytes count.
///
/// Every password below 2^30 bytes is taken: then each message that is hashed has fewer than 2^61 bytes.
pub fn sha256_crypt(password: &[u8], salt: &[u8], params: &Sha256Params) -> [u8; 32]
    requires short { length password.now < 2 ^ 30 }
    ensures digest { result ≡ sha_crypt_digest sha256 password.now salt.now params.now }
{
    digest::sha_crypt_digest::<32, Sha256>(password, salt, params.rounds())
}

/// The same digest of a salt of at most 32 bytes, each of which counts, after so many rounds: MySQL's `caching_sha2_password` has salts of
/// 20 bytes.
pub fn sha256_whole_salt(password: &[u8], salt: &[u8], rounds: usize) -> [u8; 32]
    requires short { length password.now < 2 ^ 30 }
    requires salt { length salt.now ≤ 32 }
    ensures digest { result ≡ whole_salt_digest sha256 password.now salt.now rounds }
{
    digest::whole_salt_digest::<32, Sha256>(password, salt, rounds)
}

/// The hash field of the SHA-256-crypt digest of a password and a salt: 43 characters. `OutOfMemory` may come in
/// its place.
pub fn sha256_crypt_b64(
    alloc: Global,
    password: &[u8],
    salt: &[u8],
    params: &Sha256Params,
) -> Result<String, CryptError>
    requires short { length password.now < 2 ^ 30 }
    ensures field { IfOk result (λ t. string_bytes t
        ≡ hash_field map_sha256 (sha_crypt_digest sha256 password.now salt.now params.now)) }
    ensures fault { IsOkUnless result CryptError.OutOfMemory }
{
    simple::crypt_b64::<32, Sha256>(alloc, &MAP_SHA256, password, salt, params.rounds())
}

/// The SHA-256-crypt text of a password, `$id$[rounds=N$]salt$hash`, with a salt of the characters of the next 16
/// words of a generator. `rounds=N$` stands there for other rounds than 5,000. `OutOfMemory` may come in its place.
#[tactic(auto, unfolding(crate::specs::Records::record_text))]
pub fn sha256_simple<R: Rng>(
    alloc: Global,
    rng: &mut R,
    password: &str,
    params: &Sha256Params,
) -> Result<String, CryptError>
    requires short { length password.now < 2 ^ 30 }
    ensures text { IfOk result (λ t. string_bytes t
        ≡ sha256_text password.now (characters 16 (R.stream rng.old)).0 params.now) }
    ensures stream { R.stream rng.new ≡ (characters 16 (R.stream rng.old)).1 }
    ensures fault { IsOkUnless result CryptError.OutOfMemory }
{
    simple::crypt_simple::<32, Sha256, R>(alloc, rng, "5", &MAP_SHA256, password, params.rounds())
}

/// Checks a password against a SHA-256-crypt text `$5$[rounds=N$]salt$hash`.
///
/// The first fault of the text is answered, in the order of `FormatFault` with the rounds out of range before
/// `SaltTooLong`, and else `HashMismatch` for another password.
pub fn sha256_check(password: &str, hashed_value: &str) -> Result<(), CheckError>
    requires short { length password.now < 2 ^ 30 }
    ensures answer { result ≡ sha256_answer password.now hashed_value.now }
{
    let mut counts = Counts::new();
    sha256_check_counted(password, hashed_value, &mut counts)
}

/// The same check. On a verdict it adds 44 look-ups and 36 comparisons of secret bytes to the counts; on a fault at most
/// 44 and 4.
pub fn sha256_check_counted(
    password: &str,
    hashed_value: &str,
    counts: &mut Counts,
) -> Result<(), CheckError>
    requires short { length password.now < 2 ^ 30 }
    requires looks { counts.old.looks ≤ 2 ^ 62 }
    requires sames { counts.old.sames ≤ 2 ^ 62 }
    ensures answer { result ≡ sha256_answer password.now hashed_value.now }
    ensures looks { is_verdict result ≡ true → counts.new.looks ≡ counts.old.looks + 44 }
    ensures sames { is_verdict result ≡ true → counts.new.sames ≡ counts.old.sames + 36 }
    ensures looks_stay { counts.old.looks ≤ counts.new.looks }
    ensures most_looks { counts.new.looks ≤ counts.old.looks + 44 }
    ensures sames_stay { counts.old.sames ≤ counts.new.sames }
    ensures most_sames { is_verdict result ≡ false → counts.new.sames ≤ counts.old.sames + 4 }
{
    let password = password.as_bytes();
    check::check_text::<32, Sha256>(
        &MAP_SHA256,
        Family::Sha256,
        "5",
        password,
        hashed_value,
        counts,
    )
}

/// The hash field of a SHA-256-crypt digest: 43 characters.
pub fn encode_sha256(source: &[u8; 32]) -> [u8; 43]
    ensures field { result ≡ hash_field map_sha256 source.now }
{
    b64::encode::<32, 43>(&MAP_SHA256, source)
}

/// The SHA-256-crypt digest whose hash field `source` is.
pub fn decode_sha256(source: &[u8]) -> Result<[u8; 32], DecodeError>
    ensures found { MatchResult result
        (λ digest. IsHashFieldOf 32 map_sha256 source.now digest)
        (λ _. (digest : List ℕ) → IsHashFieldOf 32 map_sha256 source.now digest → ⊥) }
{
    b64::decode::<32>(&MAP_SHA256, &BACK_SHA256, source)
}

/// The SHA-512-crypt digest of a password and a salt, of which the first 16 bytes count.
///
/// Every password below 2^30 bytes is taken: then each message that is hashed has fewer than 2^61 bytes.
pub fn sha512_crypt(password: &[u8], salt: &[u8], params: &Sha512Params) -> [u8; 64]
    requires short { length password.now < 2 ^ 30 }
    ensures digest { result ≡ sha_crypt_digest sha512 password.now salt.now params.now }
{
    digest::sha_crypt_digest::<64, Sha512>(password, salt, params.rounds())
}

/// The hash field of the SHA-512-crypt digest of a password and a salt: 86 characters. `OutOfMemory` may come in
/// its place.
pub fn sha512_crypt_b64(
    alloc: Global,
    password: &[u8],
    salt: &[u8],
    params: &Sha512Params,
) -> Result<String, CryptError>
    requires short { length password.now < 2 ^ 30 }
    ensures field { IfOk result (λ t. string_bytes t
        ≡ hash_field map_sha512 (sha_crypt_digest sha512 password.now salt.now params.now)) }
    ensures fault { IsOkUnless result CryptError.OutOfMemory }
{
    simple::crypt_b64::<64, Sha512>(alloc, &MAP_SHA512, password, salt, params.rounds())
}

/// The SHA-512-crypt text of a password, `$id$[rounds=N$]salt$hash`, with a salt of the characters of the next 16
/// words of a generator. `rounds=N$` stands there for other rounds than 5,000. `OutOfMemory` may come in its place.
#[tactic(auto, unfolding(crate::specs::Records::record_text))]
pub fn sha512_simple<R: Rng>(
    alloc: Global,
    rng: &mut R,
    password: &str,
    params: &Sha512Params,
) -> Result<String, CryptError>
    requires short { length password.now < 2 ^ 30 }
    ensures text { IfOk result (λ t. string_bytes t
        ≡ sha512_text password.now (characters 16 (R.stream rng.old)).0 params.now) }
    ensures stream { R.stream rng.new ≡ (characters 16 (R.stream rng.old)).1 }
    ensures fault { IsOkUnless result CryptError.OutOfMemory }
{
    simple::crypt_simple::<64, Sha512, R>(alloc, rng, "6", &MAP_SHA512, password, params.rounds())
}

/// Checks a password against a SHA-512-crypt text `$6$[rounds=N$]salt$hash`.
///
/// The first fault of the text is answered, in the order of `FormatFault` with the rounds out of range before
/// `SaltTooLong`, and else `HashMismatch` for another password.
pub fn sha512_check(password: &str, hashed_value: &str) -> Result<(), CheckError>
    requires short { length password.now < 2 ^ 30 }
    ensures answer { result ≡ sha512_answer password.now hashed_value.now }
{
    let mut counts = Counts::new();
    sha512_check_counted(password, hashed_value, &mut counts)
}

/// The same check. On a verdict it adds 88 look-ups and 68 comparisons of secret bytes to the counts; on a fault at most
/// 88 and 4.
pub fn sha512_check_counted(
    password: &str,
    hashed_value: &str,
    counts: &mut Counts,
) -> Result<(), CheckError>
    requires short { length password.now < 2 ^ 30 }
    requires looks { counts.old.looks ≤ 2 ^ 62 }
    requires sames { counts.old.sames ≤ 2 ^ 62 }
    ensures answer { result ≡ sha512_answer password.now hashed_value.now }
    ensures looks { is_verdict result ≡ true → counts.new.looks ≡ counts.old.looks + 88 }
    ensures sames { is_verdict result ≡ true → counts.new.sames ≡ counts.old.sames + 68 }
    ensures looks_stay { counts.old.looks ≤ counts.new.looks }
    ensures most_looks { counts.new.looks ≤ counts.old.looks + 88 }
    ensures sames_stay { counts.old.sames ≤ counts.new.sames }
    ensures most_sames { is_verdict result ≡ false → counts.new.sames ≤ counts.old.sames + 4 }
{
    let password = password.as_bytes();
    check::check_text::<64, Sha512>(
        &MAP_SHA512,
        Family::Sha512,
        "6",
        password,
        hashed_value,
        counts,
    )
}

/// The hash field of a SHA-512-crypt digest: 86 characters.
pub fn encode_sha512(source: &[u8; 64]) -> [u8; 86]
    ensures field { result ≡ hash_field map_sha512 source.now }
{
    b64::encode::<64, 86>(&MAP_SHA512, source)
}

/// The SHA-512-crypt digest whose hash field `source` is.
pub fn decode_sha512(source: &[u8]) -> Result<[u8; 64], DecodeError>
    ensures found { MatchResult result
        (λ digest. IsHashFieldOf 64 map_sha512 source.now digest)
        (λ _. (digest : List ℕ) → IsHashFieldOf 64 map_sha512 source.now digest → ⊥) }
{
    b64::decode::<64>(&MAP_SHA512, &BACK_SHA512, source)
}
