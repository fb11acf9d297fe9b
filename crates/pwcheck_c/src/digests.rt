//! Digests of SHA-crypt, and their hash fields.

ghost use Rattle.std.specs.Prelude.{◌≡◌, length, true, false};
ghost use Rattle.sha2.specs.Sha256.{sha256};
ghost use Rattle.sha2.specs.Sha512.{sha512};
ghost use Rattle.sha_crypt.specs.Digest.{sha_crypt_digest};
ghost use Rattle.sha_crypt.specs.HashField.{map_sha256, map_sha512, hash_field};
ghost use Rattle.pwcheck_c.specs.Inputs.{sha_takes};
ghost use Rattle.sha_crypt.specs.Limits.{pw_size_sha256, pw_size_sha512};
ghost use Rattle.c_buffers.specs.Statuses.{status_done};
ghost use Rattle.pwcheck_c.specs.Statuses.{status_out_of_range};

use crate::statuses::{DONE, OUT_OF_RANGE};
use sha_crypt::{
    Sha256Params, Sha512Params, encode_sha256, encode_sha512, sha256_crypt, sha512_crypt,
};
use stored_check::PASSWORD_MAX;

/// Writes the SHA-256-crypt digest of 32 bytes.
#[unsafe(no_mangle)]
pub extern "C" fn pwcheck_sha256_crypt(
    password: &[u8],
    salt: &[u8],
    rounds: u32,
    out: &mut [u8],
) -> i32
    ensures digest { sha_takes 32 password.now rounds (length out.old) ≡ true
        → (result ≡ status_done) × (out.new ≡ sha_crypt_digest sha256 password.now salt.now rounds) }
    ensures refused { sha_takes 32 password.now rounds (length out.old) ≡ false
        → (result ≡ status_out_of_range) × (out.new ≡ out.old) }
{
    if password.len() > PASSWORD_MAX || out.len() != 32 {
        return OUT_OF_RANGE;
    }
    match Sha256Params::new(rounds as usize) {
        Ok(params) => {
            out.copy_from_slice(&sha256_crypt(password, salt, &params));
            DONE
        }
        Err(_) => OUT_OF_RANGE,
    }
}

/// Writes the SHA-512-crypt digest of 64 bytes.
#[unsafe(no_mangle)]
pub extern "C" fn pwcheck_sha512_crypt(
    password: &[u8],
    salt: &[u8],
    rounds: u32,
    out: &mut [u8],
) -> i32
    ensures digest { sha_takes 64 password.now rounds (length out.old) ≡ true
        → (result ≡ status_done) × (out.new ≡ sha_crypt_digest sha512 password.now salt.now rounds) }
    ensures refused { sha_takes 64 password.now rounds (length out.old) ≡ false
        → (result ≡ status_out_of_range) × (out.new ≡ out.old) }
{
    if password.len() > PASSWORD_MAX || out.len() != 64 {
        return OUT_OF_RANGE;
    }
    match Sha512Params::new(rounds as usize) {
        Ok(params) => {
            out.copy_from_slice(&sha512_crypt(password, salt, &params));
            DONE
        }
        Err(_) => OUT_OF_RANGE,
    }
}

/// Writes the hash field of the SHA-256-crypt digest: 43 characters, without a zero behind them.
#[unsafe(no_mangle)]
pub extern "C" fn pwcheck_sha256_crypt_b64(
    password: &[u8],
    salt: &[u8],
    rounds: u32,
    out: &mut [u8],
) -> i32
    ensures field { sha_takes pw_size_sha256 password.now rounds (length out.old) ≡ true
        → (result ≡ status_done) × (out.new ≡ hash_field map_sha256 (sha_crypt_digest sha256 password.now salt.now rounds)) }
    ensures refused { sha_takes pw_size_sha256 password.now rounds (length out.old) ≡ false
        → (result ≡ status_out_of_range) × (out.new ≡ out.old) }
{
    if password.len() > PASSWORD_MAX || out.len() != 43 {
        return OUT_OF_RANGE;
    }
    match Sha256Params::new(rounds as usize) {
        Ok(params) => {
            let digest = sha256_crypt(password, salt, &params);
            out.copy_from_slice(&encode_sha256(&digest));
            DONE
        }
        Err(_) => OUT_OF_RANGE,
    }
}

/// Writes the hash field of the SHA-512-crypt digest: 86 characters, without a zero behind them.
#[unsafe(no_mangle)]
pub extern "C" fn pwcheck_sha512_crypt_b64(
    password: &[u8],
    salt: &[u8],
    rounds: u32,
    out: &mut [u8],
) -> i32
    ensures field { sha_takes pw_size_sha512 password.now rounds (length out.old) ≡ true
        → (result ≡ status_done) × (out.new ≡ hash_field map_sha512 (sha_crypt_digest sha512 password.now salt.now rounds)) }
    ensures refused { sha_takes pw_size_sha512 password.now rounds (length out.old) ≡ false
        → (result ≡ status_out_of_range) × (out.new ≡ out.old) }
{
    if password.len() > PASSWORD_MAX || out.len() != 86 {
        return OUT_OF_RANGE;
    }
    match Sha512Params::new(rounds as usize) {
        Ok(params) => {
            let digest = sha512_crypt(password, salt, &params);
            out.copy_from_slice(&encode_sha512(&digest));
            DONE
        }
        Err(_) => OUT_OF_RANGE,
    }
}
