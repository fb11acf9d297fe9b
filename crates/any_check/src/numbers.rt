//! The numbers that stored texts ask for.

ghost use Rattle.std.specs.Prelude.{◌≡◌};
ghost use Rattle.any_check.specs.Numbers.{costs_of, is_above, no_costs, of_cost, of_ln_r_p, of_ln_r_t, of_m_t_p, of_rounds};
ghost use Rattle.scheme_list.specs.Schemes.{row_of};

use scheme_list::{CostFamily, Scheme};

/// Numbers by their names in the standards of the schemes, 0 for each that a scheme hasn't.
#[derive(Clone, Copy, Debug, PartialEq, Eq)]
pub struct Costs {
    /// The rounds of SHA-crypt and of PBKDF2.
    pub rounds: u64,
    /// The cost of bcrypt and of phpass: the binary logarithm of the number of turns.
    pub cost: u64,
    /// The binary logarithm of N, of yescrypt and scrypt: their table takes `128 * r * N` bytes.
    pub ln: u64,
    /// `r` of yescrypt and scrypt.
    pub r: u64,
    /// `p` of scrypt; the lanes of Argon2.
    pub p: u64,
    /// `t` of yescrypt: so many turns more than the default; the passes of Argon2.
    pub t: u64,
    /// The memory of Argon2 in KiB.
    pub m: u64,
}

/// No number.
pub const NO_COSTS: Costs = Costs {
    rounds: 0,
    cost: 0,
    ln: 0,
    r: 0,
    p: 0,
    t: 0,
    m: 0,
};

/// Numbers for each family of schemes: the most that a text may ask for. md5-crypt, which is 1,000 rounds for each text, and salted
/// digests, which are none, have no number.
#[derive(Clone, Copy, Debug, PartialEq, Eq)]
pub struct SchemeCosts {
    /// Rounds (1,000 to 999,999,999).
    pub sha_crypt: Costs,
    /// A cost (4 to 31).
    pub bcrypt: Costs,
    /// `ln` (2 to 23), `r` and `t` (0 to 1,024).
    pub yescrypt: Costs,
    /// `ln` (1 to 24), `r` and `p`, of a record or of a text `$7$`.
    pub scrypt: Costs,
    /// Rounds (1 to 10,000,000).
    pub pbkdf2_sha256: Costs,
    /// Rounds (1 to 10,000,000).
    pub pbkdf2_sha512: Costs,
    /// `m` (8 to 2,097,152), `t` and `p`.
    pub argon2: Costs,
}

/// A scheme, and the numbers that a text of it asks for.
#[derive(Clone, Copy, Debug, PartialEq, Eq)]
pub struct TextCosts {
    pub scheme: Scheme,
    pub costs: Costs,
}

impl Costs {
    /// Rounds.
    pub fn of_rounds(rounds: u64) -> Costs
        ensures costs { result ≡ of_rounds rounds }
    {
        Costs { rounds, ..NO_COSTS }
    }

    /// A cost of bcrypt or of phpass.
    pub fn of_cost(cost: u64) -> Costs
        ensures costs { result ≡ of_cost cost }
    {
        Costs { cost, ..NO_COSTS }
    }

    /// The numbers of yescrypt.
    pub fn of_ln_r_t(ln: u64, r: u64, t: u64) -> Costs
        ensures costs { result ≡ of_ln_r_t ln r t }
    {
        Costs {
            ln,
            r,
            t,
            ..NO_COSTS
        }
    }

    /// The numbers of scrypt.
    pub fn of_ln_r_p(ln: u64, r: u64, p: u64) -> Costs
        ensures costs { result ≡ of_ln_r_p ln r p }
    {
        Costs {
            ln,
            r,
            p,
            ..NO_COSTS
        }
    }

    /// The numbers of Argon2.
    pub fn of_m_t_p(m: u64, t: u64, p: u64) -> Costs
        ensures costs { result ≡ of_m_t_p m t p }
    {
        Costs {
            m,
            t,
            p,
            ..NO_COSTS
        }
    }

    /// Whether one of the numbers is above its limit.
    pub fn is_above(&self, limit: &Costs) -> bool
        ensures above { result ≡ is_above limit.now self.now }
    {
        limit.rounds < self.rounds
            || limit.cost < self.cost
            || limit.ln < self.ln
            || limit.r < self.r
            || limit.p < self.p
            || limit.t < self.t
            || limit.m < self.m
    }
}

impl SchemeCosts {
    /// The numbers for a scheme, by its family.
    pub fn of(&self, scheme: Scheme) -> Costs
        ensures costs { result ≡ costs_of self.now (row_of scheme).family }
    {
        match scheme.family() {
            CostFamily::NoNumber => NO_COSTS,
            CostFamily::ShaCrypt => self.sha_crypt,
            CostFamily::Bcrypt => self.bcrypt,
            CostFamily::Yescrypt => self.yescrypt,
            CostFamily::Scrypt => self.scrypt,
            CostFamily::Pbkdf2Sha256 => self.pbkdf2_sha256,
            CostFamily::Pbkdf2Sha512 => self.pbkdf2_sha512,
            CostFamily::Argon2 => self.argon2,
        }
    }
}
