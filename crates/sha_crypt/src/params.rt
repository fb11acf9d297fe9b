//! The number of rounds.

ghost use Rattle.std.specs.Prelude.{◌≡◌, ◌≤◌, ◌<◌, ◌⊎◌, Ok, Err};
ghost use Rattle.sha_crypt.specs.Limits.{rounds_max, rounds_min};

use crate::CryptError;
use std::marker::Model;

/// The rounds where none are named.
pub const ROUNDS_DEFAULT: usize = 5_000;

/// The least number of rounds.
pub const ROUNDS_MIN: usize = 1_000;

/// The greatest number of rounds.
pub const ROUNDS_MAX: usize = 999_999_999;

/// The rounds of SHA-256-crypt, from 1,000 to 999,999,999. Contracts see the number.
#[derive(Clone, Copy, Debug)]
pub struct Sha256Params {
    rounds: usize,
}

impl Model for Sha256Params {
    ghost use Rattle.std.specs.Prelude.{ℕ, ◌≤◌};
    ghost use Rattle.sha_crypt.specs.Limits.{rounds_max, rounds_min};

    ghost Value = { ℕ };

    ghost view = { λ p. p.rounds };

    ghost invariant = { λ p. (rounds_min ≤ p.rounds) × (p.rounds ≤ rounds_max) };

    ghost inverse = { λ n. record { rounds = n } };
}

impl Sha256Params {
    /// Parameters with this number of rounds.
    pub fn new(rounds: usize) -> Result<Sha256Params, CryptError>
        ensures inside { rounds_min ≤ rounds → rounds ≤ rounds_max → result ≡ Ok rounds }
        ensures outside { (rounds < rounds_min) ⊎ (rounds_max < rounds) → result ≡ Err CryptError.RoundsError }
    {
        if rounds < ROUNDS_MIN || rounds > ROUNDS_MAX {
            return Err(CryptError::RoundsError);
        }
        Ok(Sha256Params { rounds })
    }

    /// The rounds.
    pub fn rounds(&self) -> usize
        ensures number { result ≡ self.now }
        ensures least { rounds_min ≤ result }
        ensures most { result ≤ rounds_max }
    {
        self.rounds
    }
}

impl Default for Sha256Params {
    ghost is_default = { λ p. p ≡ 5000 };

    fn default() -> Self {
        Sha256Params {
            rounds: ROUNDS_DEFAULT,
        }
    }
}

/// The rounds of SHA-512-crypt, from 1,000 to 999,999,999. Contracts see the number.
#[derive(Clone, Copy, Debug)]
pub struct Sha512Params {
    rounds: usize,
}

impl Model for Sha512Params {
    ghost use Rattle.std.specs.Prelude.{ℕ, ◌≤◌};
    ghost use Rattle.sha_crypt.specs.Limits.{rounds_max, rounds_min};

    ghost Value = { ℕ };

    ghost view = { λ p. p.rounds };

    ghost invariant = { λ p. (rounds_min ≤ p.rounds) × (p.rounds ≤ rounds_max) };

    ghost inverse = { λ n. record { rounds = n } };
}

impl Sha512Params {
    /// Parameters with this number of rounds.
    pub fn new(rounds: usize) -> Result<Sha512Params, CryptError>
        ensures inside { rounds_min ≤ rounds → rounds ≤ rounds_max → result ≡ Ok rounds }
        ensures outside { (rounds < rounds_min) ⊎ (rounds_max < rounds) → result ≡ Err CryptError.RoundsError }
    {
        if rounds < ROUNDS_MIN || rounds > ROUNDS_MAX {
            return Err(CryptError::RoundsError);
        }
        Ok(Sha512Params { rounds })
    }

    /// The rounds.
    pub fn rounds(&self) -> usize
        ensures number { result ≡ self.now }
        ensures least { rounds_min ≤ result }
        ensures most { result ≤ rounds_max }
    {
        self.rounds
    }
}

impl Default for Sha512Params {
    ghost is_default = { λ p. p ≡ 5000 };

    fn default() -> Self {
        Sha512Params {
            rounds: ROUNDS_DEFAULT,
        }
    }
}
