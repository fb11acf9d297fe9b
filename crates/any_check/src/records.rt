//! The derivation of keys for the records that have a verdict, where no table is kept.

use argon2_plain::Argon2Plain;
use pbkdf2_key::{Pbkdf2Hash, Pbkdf2Plain};
use phc::PasswordHash;
use scrypt_plain::ScryptPlain;
use std::alloc::{AllocError, Global};
use stored_check::PhcKdf;

/// scrypt, PBKDF2 with one of three hash functions and Argon2, each for the records with its identifiers: what
/// [`RecordKdf`](crate::RecordKdf) does, but each key takes a table of its own.
#[derive(Clone, Copy, Debug, PartialEq, Eq)]
pub struct PlainRecords;

const SHA256: Pbkdf2Plain = Pbkdf2Plain {
    hash: Pbkdf2Hash::Sha256,
};

const SHA512: Pbkdf2Plain = Pbkdf2Plain {
    hash: Pbkdf2Hash::Sha512,
};

const SHA1: Pbkdf2Plain = Pbkdf2Plain {
    hash: Pbkdf2Hash::Sha1,
};

impl PhcKdf for PlainRecords {
    ghost use Rattle.any_check.specs.Records as here;

    ghost accepted = { λ _ parsed salt n. here.accepted parsed salt n };

    ghost needs_memory = { λ _ parsed. here.needs_memory parsed };

    ghost tag = { λ _ password parsed salt n. here.tag password parsed salt n };

    ghost tag_length = { λ _ password parsed salt n. here.length-tag password parsed salt n };

    fn accepts(&self, parsed: &PasswordHash, salt: &[u8], length: usize) -> bool {
        let id = parsed.algorithm.as_str();
        if id == "scrypt" {
            ScryptPlain.accepts(parsed, salt, length)
        } else if id == "pbkdf2-sha256" {
            SHA256.accepts(parsed, salt, length)
        } else if id == "pbkdf2-sha512" {
            SHA512.accepts(parsed, salt, length)
        } else if id == "pbkdf2-sha1" {
            SHA1.accepts(parsed, salt, length)
        } else {
            Argon2Plain.accepts(parsed, salt, length)
        }
    }

    fn derive(
        &self,
        alloc: Global,
        password: &[u8],
        parsed: &PasswordHash,
        salt: &[u8],
        out: &mut [u8],
    ) -> Result<(), AllocError> {
        let id = parsed.algorithm.as_str();
        if id == "scrypt" {
            ScryptPlain.derive(alloc, password, parsed, salt, out)
        } else if id == "pbkdf2-sha256" {
            SHA256.derive(alloc, password, parsed, salt, out)
        } else if id == "pbkdf2-sha512" {
            SHA512.derive(alloc, password, parsed, salt, out)
        } else if id == "pbkdf2-sha1" {
            SHA1.derive(alloc, password, parsed, salt, out)
        } else {
            Argon2Plain.derive(alloc, password, parsed, salt, out)
        }
    }
}
