//! What the derivation needs of a pseudorandom function, and the three that it is made with.

ghost use Rattle.std.specs.Prelude.{◌≡◌, ℕ, List, [], ◌++◌, length};
ghost use Rattle.hmac_plain.specs.Held.{HoldsHmac};
ghost use Rattle.hmac_plain.specs.Hmac.{hmac_sha256, hmac_sha512};
ghost use Rattle.hmac_plain.specs.Lengths.{length-hmac_sha256, length-hmac_sha512};
ghost use Rattle.hmac_sha1.specs.Held.{HoldsHmacSha1};
ghost use Rattle.hmac_sha1.specs.Hmac.{hmac_sha1};
ghost use Rattle.hmac_sha1.specs.Lengths.{length-hmac_sha1};
ghost use Rattle.sha2.specs.Hashers.{Holds256, Holds512};
ghost use Rattle.sha2.specs.Sha256.{sha256};
ghost use Rattle.sha2.specs.Sha512.{sha512};

use hmac_plain::{HmacSha256, HmacSha512};
use hmac_sha1::HmacSha1;

/// A message under a key, to which more can be added, and its code of `N` bytes.
pub(crate) trait Prf<const N: usize>: Drop {
    // The code of a message under a key.
    ghost code: { List ℕ → List ℕ → List ℕ };

    // Codes have N bytes.
    ghost long: { (key text : List ℕ) → length (code key text) ≡ N };

    // A key and the beginning of a message are taken in.
    ghost holds: { Self → List ℕ → List ℕ → Type 0 };

    // The empty message under the key.
    fn keyed(key: &[u8]) -> Self
        ensures { holds result key.now [] };

    // Adds `piece` at the end of the message.
    fn feed(&mut self, piece: &[u8])
        ensures { (key text : List ℕ) → holds self.old key text → holds self.new key (text ++ piece.now) };

    // Another of the same message.
    fn copy(&self) -> Self
        ensures { (key text : List ℕ) → holds self.now key text → holds result key text };

    // The code of the message.
    fn finish(self) -> [u8; N]
        ensures { (key text : List ℕ) → holds self key text → result ≡ code key text };
}

impl Prf<32> for HmacSha256 {
    ghost code = { hmac_sha256 };

    ghost holds = { λ s key text. HoldsHmac sha256 64 (λ h m. Holds256 h m) s key text };

    ghost long = { length-hmac_sha256 };

    #[inline(always)]
    fn keyed(key: &[u8]) -> HmacSha256 {
        HmacSha256::new(key)
    }

    #[inline(always)]
    fn feed(&mut self, piece: &[u8]) {
        self.update(piece);
    }

    #[inline(always)]
    fn copy(&self) -> HmacSha256 {
        self.copy()
    }

    #[inline(always)]
    fn finish(self) -> [u8; 32] {
        self.finalize()
    }
}

impl Prf<64> for HmacSha512 {
    ghost code = { hmac_sha512 };

    ghost holds = { λ s key text. HoldsHmac sha512 128 (λ h m. Holds512 h m) s key text };

    ghost long = { length-hmac_sha512 };

    #[inline(always)]
    fn keyed(key: &[u8]) -> HmacSha512 {
        HmacSha512::new(key)
    }

    #[inline(always)]
    fn feed(&mut self, piece: &[u8]) {
        self.update(piece);
    }

    #[inline(always)]
    fn copy(&self) -> HmacSha512 {
        self.copy()
    }

    #[inline(always)]
    fn finish(self) -> [u8; 64] {
        self.finalize()
    }
}

impl Prf<20> for HmacSha1 {
    ghost code = { hmac_sha1 };

    ghost holds = { λ s key text. HoldsHmacSha1 s key text };

    ghost long = { length-hmac_sha1 };

    #[inline(always)]
    fn keyed(key: &[u8]) -> HmacSha1 {
        HmacSha1::new(key)
    }

    #[inline(always)]
    fn feed(&mut self, piece: &[u8]) {
        self.update(piece);
    }

    #[inline(always)]
    fn copy(&self) -> HmacSha1 {
        self.copy()
    }

    #[inline(always)]
    fn finish(self) -> [u8; 20] {
        self.finalize()
    }
}
