//! The schemes of which texts are made, and what their texts cost.

ghost use Rattle.std.specs.Prelude.{◌≡◌, ◌≤◌};
ghost use Rattle.any_make.specs.Costs.{is_taken, needs_memory, password_length, recommended, salt_length, scheme_of, takes_zero};
ghost use Rattle.any_make.specs.Records.{argon2_params};

use any_check::sha_scheme;
use argon2_plain::{Params, Variant};
use scheme_list::Scheme;
use sha_crypt::{Family, ROUNDS_MAX, ROUNDS_MIN};
use stored_check::PASSWORD_MAX;
use yescrypt_plain::{ScryptParams, YescryptParams};

/// What a text of Argon2id costs (RFC 9106, section 3.1).
#[derive(Clone, Copy, Debug, PartialEq, Eq)]
pub struct Argon2Cost {
    /// The memory in KiB, `m`.
    pub memory: u32,
    /// The passes over it, `t`.
    pub passes: u32,
    /// The lanes, `p`.
    pub lanes: u32,
}

/// The hash functions under PBKDF2 of which texts are made. Records with SHA-1 are read for migration alone.
#[derive(Clone, Copy, Debug, PartialEq, Eq)]
pub enum Pbkdf2Hash {
    Sha256,
    Sha512,
}

/// A scheme with what its text costs.
#[derive(Clone, Copy, Debug, PartialEq, Eq)]
pub enum MakeCost {
    /// The rounds of SHA-crypt, 1,000 to 999,999,999. 5,000 are not written in the text.
    ShaCrypt(Family, u32),
    /// The numbers of scrypt, of which [`scrypt_plain::in_bounds`] holds.
    Scrypt(ScryptParams),
    /// The cost of bcrypt, 4 to 31: the binary logarithm of the number of its turns.
    Bcrypt(u32),
    /// The numbers of yescrypt, of which [`yescrypt_plain::in_bounds`] holds.
    Yescrypt(YescryptParams),
    /// The numbers of Argon2id, of which [`Params::are_in_bounds`] holds.
    Argon2id(Argon2Cost),
    /// The hash function under PBKDF2, and its rounds, 1 to 10,000,000.
    Pbkdf2(Pbkdf2Hash, u32),
}

/// What a text costs where nothing else is said: today's recommendation, with its source in `specs/Costs.antt`. None for a
/// scheme of which no texts are made.
pub fn recommended(scheme: Scheme) -> Option<MakeCost>
    ensures cost { result ≡ recommended scheme }
{
    match scheme {
        Scheme::Sha256Crypt => Some(MakeCost::ShaCrypt(Family::Sha256, 535_000)),
        Scheme::Sha512Crypt => Some(MakeCost::ShaCrypt(Family::Sha512, 656_000)),
        Scheme::Scrypt => Some(MakeCost::Scrypt(ScryptParams { ln: 17, r: 8, p: 1 })),
        Scheme::Bcrypt => Some(MakeCost::Bcrypt(12)),
        Scheme::Yescrypt => Some(MakeCost::Yescrypt(YescryptParams {
            ln: 12,
            r: 32,
            t: 0,
        })),
        Scheme::Argon2id => Some(MakeCost::Argon2id(Argon2Cost {
            memory: 65_536,
            passes: 3,
            lanes: 4,
        })),
        Scheme::Pbkdf2Sha256 => Some(MakeCost::Pbkdf2(Pbkdf2Hash::Sha256, 600_000)),
        Scheme::Pbkdf2Sha512 => Some(MakeCost::Pbkdf2(Pbkdf2Hash::Sha512, 210_000)),
        _ => None,
    }
}

impl Argon2Cost {
    /// The numbers with the type.
    pub(crate) fn params(self) -> Params
        ensures params { result ≡ argon2_params self }
    {
        Params {
            variant: Variant::Id,
            passes: self.passes,
            memory: self.memory,
            lanes: self.lanes,
        }
    }
}

impl MakeCost {
    /// The scheme whose text this is for.
    pub fn scheme(self) -> Scheme
        ensures scheme { result ≡ scheme_of self }
    {
        match self {
            MakeCost::ShaCrypt(family, _) => sha_scheme(family),
            MakeCost::Scrypt(_) => Scheme::Scrypt,
            MakeCost::Bcrypt(_) => Scheme::Bcrypt,
            MakeCost::Yescrypt(_) => Scheme::Yescrypt,
            MakeCost::Argon2id(_) => Scheme::Argon2id,
            MakeCost::Pbkdf2(Pbkdf2Hash::Sha256, _) => Scheme::Pbkdf2Sha256,
            MakeCost::Pbkdf2(Pbkdf2Hash::Sha512, _) => Scheme::Pbkdf2Sha512,
        }
    }

    /// Whether texts are made of this cost: those of every text that has a verdict.
    pub fn is_taken(self) -> bool
        ensures taken { result ≡ is_taken self }
    {
        match self {
            MakeCost::ShaCrypt(_, rounds) => {
                ROUNDS_MIN <= rounds as usize && rounds as usize <= ROUNDS_MAX
            }
            MakeCost::Scrypt(cost) => scrypt_plain::in_bounds(cost.ln, cost.r, cost.p),
            MakeCost::Bcrypt(cost) => 4 <= cost && cost <= 31,
            MakeCost::Yescrypt(cost) => yescrypt_plain::in_bounds(cost),
            MakeCost::Argon2id(cost) => cost.params().are_in_bounds(),
            MakeCost::Pbkdf2(_, rounds) => 1 <= rounds && rounds <= 10_000_000,
        }
    }

    /// The bytes of a salt: 12 of SHA-crypt, 16 of every other scheme.
    pub fn salt_length(self) -> usize
        ensures length { result ≡ salt_length self }
        ensures most { result ≤ 16 }
    {
        match self {
            MakeCost::ShaCrypt(..) => 12,
            _ => 16,
        }
    }

    /// The most bytes of a password: 72 of bcrypt, 4,096 of every other scheme.
    pub fn password_length(self) -> usize
        ensures length { result ≡ password_length self }
    {
        match self {
            MakeCost::Bcrypt(_) => 72,
            _ => PASSWORD_MAX,
        }
    }

    /// Whether a password may have a zero byte: not where the scheme is one of crypt(3).
    pub fn takes_zero(self) -> bool
        ensures takes { result ≡ takes_zero self }
    {
        match self {
            MakeCost::ShaCrypt(..) | MakeCost::Bcrypt(_) | MakeCost::Yescrypt(_) => false,
            _ => true,
        }
    }

    /// Whether the key takes a table: of scrypt, yescrypt and Argon2id.
    pub fn needs_memory(self) -> bool
        ensures needs { result ≡ needs_memory self }
    {
        match self {
            MakeCost::Scrypt(_) | MakeCost::Yescrypt(_) | MakeCost::Argon2id(_) => true,
            _ => false,
        }
    }
}
