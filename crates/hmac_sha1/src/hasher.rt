//! SHA-1 as a hash function for HMAC.

ghost use Rattle.sha1.specs.Sha1.{sha1};
ghost use Rattle.hmac_sha1.specs.Fits.{fits_20, length-sha1, small_64};
ghost use Rattle.hmac_sha1.specs.Held.{HoldsSha1};

use hmac_plain::HashFunction;
use sha1::Sha1;

/// A hasher of SHA-1. It is a type of this crate, since an implementation of another crate's trait has to name one.
#[derive(Drop)]
pub struct Sha1Hasher {
    state: Sha1,
}

impl HashFunction<64, 20> for Sha1Hasher {
    ghost hash = { sha1 };

    ghost holds = { HoldsSha1 };

    ghost long = { length-sha1 };

    ghost fits = { fits_20 };

    ghost small = { small_64 };

    #[inline(always)]
    fn start() -> Sha1Hasher {
        Sha1Hasher { state: Sha1::new() }
    }

    #[inline(always)]
    fn feed(&mut self, piece: &[u8]) {
        self.state.update(piece);
    }

    #[inline(always)]
    fn copy(&self) -> Sha1Hasher {
        match self.state.clone() {
            Ok(state) => Sha1Hasher { state },
            Err(_) => unreachable!(),
        }
    }

    #[inline(always)]
    fn finish(self) -> [u8; 20] {
        self.state.finalize()
    }
}
