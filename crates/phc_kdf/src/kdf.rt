//! Key derivations.

ghost use Rattle.std.specs.Prelude.{◌≡◌, ◌≤◌, ℕ, List, Bool, OnErr, OnOk, length, true};
ghost use Rattle.phc.specs.Limits.{salt_max};
ghost use Rattle.phc.specs.declared.password_hash.PasswordHash.{PasswordHash};
ghost use Rattle.phc_kdf.specs.Limits.{password_max};

use std::alloc::{AllocError, Global};

/// A derivation of keys for PHC records.
///
/// An implementation names three meanings, on which callers rest: the records that it takes, those for which
/// it may need memory, and the key.
pub trait PhcKdf {
    // Whether it takes a record with these bytes as salt, for a key of so many bytes.
    ghost accepted: { Self → PasswordHash → List ℕ → ℕ → Bool };

    // Whether it may need memory for a record.
    ghost needs_memory: { Self → PasswordHash → Bool };

    // The key, or tag, of a password for a record, the bytes of a salt, and a length.
    ghost tag: { Self → List ℕ → PasswordHash → List ℕ → ℕ → List ℕ };

    /// Whether a record is taken with the bytes of its salt, for a key of `length` bytes. No memory is taken.
    fn accepts(&self, parsed: &phc::PasswordHash, salt: &[u8], length: usize) -> bool
        ensures accepted { result ≡ accepted self.now parsed.now salt.now length };

    /// Writes the key of `out.len()` bytes into `out`.
    ///
    /// # Errors
    ///
    /// Only for want of memory. What `out` holds then isn't said.
    fn derive(
        &self,
        alloc: Global,
        password: &[u8],
        parsed: &phc::PasswordHash,
        salt: &[u8],
        out: &mut [u8],
    ) -> Result<(), AllocError>
        requires taken { accepted self.now parsed.now salt.now (length out.old) ≡ true }
        requires short_password { length password.now ≤ password_max }
        requires short_salt { length salt.now ≤ salt_max }
        ensures key { OnOk result (out.new ≡ tag self.now password.now parsed.now salt.now (length out.old)) }
        ensures memory { OnErr result (needs_memory self.now parsed.now ≡ true) };

    // A key has the length that is asked for.
    ghost tag_length: { (kdf : Self) (password : List ℕ) (parsed : PasswordHash) (salt : List ℕ) (n : ℕ)
        → length (tag kdf password parsed salt n) ≡ n };
}
