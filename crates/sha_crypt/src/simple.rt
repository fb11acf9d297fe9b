//! Texts that are made of a password.

ghost use Rattle.std.specs.Prelude.{◌≡◌, ◌≤◌, ◌<◌, ◌++◌, ◌==◌, not, codes, IfOk, IsAscii, IsOkUnless, string_bytes, true};
ghost use Rattle.sha_crypt.specs.Digest.{sha_crypt_digest};
ghost use Rattle.sha_crypt.specs.HashField.{are_places, hash_field};
ghost use Rattle.sha_crypt.specs.Records.{rounds_part};
ghost use Rattle.sha_crypt.specs.Simple.{characters, word_character};

use crate::b64::in_order;
use crate::digest::sha_crypt_digest;
use crate::hasher::Hasher;
use crate::{CryptError, ROUNDS_DEFAULT, TAB};
use base64ct::{Base64ShaCrypt, Encoding};
use rand_core::Rng;
use std::alloc::{AllocError, Global};

// The character of a word, by its six highest bits.
fn word_character(word: u32) -> u8
    ensures value { result ≡ word_character word }
    ensures ascii { result < 128 }
{
    TAB[(word >> 26) as usize]
}

/// The characters of the next `N` words of a generator, each by the six highest bits of its word.
pub fn random_characters<const N: usize, R: Rng>(rng: &mut R) -> [u8; N]
    ensures characters { (result, R.stream rng.new) ≡ characters N (R.stream rng.old) }
    ensures ascii { IsAscii result }
{
    let mut text = [0; N];
    'words: for k in 0..N {
        let word = rng.next_u32();
        text[k] = word_character(word);
    }
    text
}

/// The hash field of the digest of a password, a salt and rounds.
#[tactic(auto, unfolding(crate::specs::HashField::hash_field))]
pub(crate) fn crypt_b64<const N: usize, H: Hasher<N>>(
    alloc: Global,
    places: &[u8; N],
    password: &[u8],
    salt: &[u8],
    rounds: usize,
) -> Result<String, CryptError>
    requires wide { 16 ≤ N }
    requires short { N ≤ 64 }
    requires places { are_places N places.now ≡ true }
    ensures field { IfOk result (λ t. string_bytes t
        ≡ hash_field places.now (sha_crypt_digest H.hash password.now salt.now rounds)) }
    ensures fault { IsOkUnless result CryptError.OutOfMemory }
{
    let digest = sha_crypt_digest::<N, H>(password, salt, rounds);
    match Base64ShaCrypt::encode_string(alloc, &in_order(places, &digest)) {
        Ok(field) => Ok(field),
        Err(_) => Err(CryptError::OutOfMemory),
    }
}

// `$id$[rounds=N$]salt$hash`.
fn joined(
    alloc: Global,
    id: &str,
    rounds: usize,
    salt: &str,
    hash: &str,
) -> Result<String, AllocError>
    ensures { IfOk result (λ t. string_bytes t
        ≡ codes "$" ++ id.now ++ codes "$" ++ rounds_part (not (rounds == 5000)) rounds ++ salt.now ++ codes "$" ++ hash.now) }
{
    if rounds == ROUNDS_DEFAULT {
        return format!(in alloc; "${id}${salt}${hash}");
    }
    format!(in alloc; "${id}$rounds={rounds}${salt}${hash}")
}

/// The text of a password and rounds, with a salt of 16 characters from a generator.
pub(crate) fn crypt_simple<const N: usize, H: Hasher<N>, R: Rng>(
    alloc: Global,
    rng: &mut R,
    id: &str,
    places: &[u8; N],
    password: &str,
    rounds: usize,
) -> Result<String, CryptError>
    requires wide { 16 ≤ N }
    requires short { N ≤ 64 }
    requires places { are_places N places.now ≡ true }
    ensures text { IfOk result (λ t. string_bytes t
        ≡ codes "$" ++ id.now ++ codes "$" ++ rounds_part (not (rounds == 5000)) rounds ++ (characters 16 (R.stream rng.old)).0 ++ codes "$"
        ++ hash_field places.now (sha_crypt_digest H.hash password.now (characters 16 (R.stream rng.old)).0 rounds)) }
    ensures stream { R.stream rng.new ≡ (characters 16 (R.stream rng.old)).1 }
    ensures fault { IsOkUnless result CryptError.OutOfMemory }
{
    let bytes = random_characters::<16, R>(rng);
    let salt = unsafe { str::from_utf8_unchecked(&bytes) };
    let hash = match crypt_b64::<N, H>(
        alloc,
        places,
        password.as_bytes(),
        salt.as_bytes(),
        rounds,
    ) {
        Ok(hash) => hash,
        Err(e) => return Err(e),
    };
    match joined(alloc, id, rounds, salt, hash.as_str()) {
        Ok(text) => Ok(text),
        Err(_) => Err(CryptError::OutOfMemory),
    }
}
