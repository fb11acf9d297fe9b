//! The least costs that aren't weak, and which number of a text is below them.

ghost use Rattle.std.specs.Prelude.{◌≡◌, ◌^◌};
ghost use Rattle.scheme_list.specs.Schemes.{row_of};
ghost use Rattle.shadow_survey.specs.Leasts.{argon2_weakness, below, bytes, family_weakness, memory, number_weakness, power, scrypt_weakness, weakness_of, work};

use any_check::{CostFamily, Costs, Scheme, TextCosts};

/// The least that isn't weak: of memory and time together where a scheme takes both. md5-crypt has none: its 1,000 rounds
/// are too few.
#[derive(Clone, Copy, Debug, PartialEq, Eq)]
pub struct LeastCosts {
    /// Rounds.
    pub sha256_rounds: u64,
    /// Rounds.
    pub sha512_rounds: u64,
    /// A cost, also of a text with a digest in front.
    pub bcrypt_cost: u64,
    /// KiB: `128 * r * 2^ln` bytes.
    pub yescrypt_memory: u64,
    /// KiB: `128 * r * 2^ln` bytes, of a record or of a text `$7$`.
    pub scrypt_memory: u64,
    /// KiB: `128 * r * 2^ln * p` bytes.
    pub scrypt_work: u64,
    /// Rounds.
    pub pbkdf2_sha256_rounds: u64,
    /// Rounds.
    pub pbkdf2_sha512_rounds: u64,
    /// KiB: `m`.
    pub argon2_memory: u64,
    /// KiB: `m * t`.
    pub argon2_work: u64,
}

/// The least costs as the sources of the schemes recommend them.
///
/// - SHA-crypt: what passlib 1.7.4 makes, as `any_make` does. crypt(5) of libxcrypt calls the default of 5,000 rounds too low.
/// - bcrypt, PBKDF2: OWASP, Password Storage Cheat Sheet.
/// - yescrypt: the default of libxcrypt, `j9T`: ln 12 and r 32.
/// - scrypt: the least memory, 2^13 blocks of r = 8, and the least work, `p` 5 over 2^14 of these, of the five settings that
///   OWASP calls equal.
/// - Argon2: the least memory, 7,168 KiB, and the least work, 5 passes over it, of OWASP's five.
pub const RECOMMENDED_LEAST: LeastCosts = LeastCosts {
    sha256_rounds: 535_000,
    sha512_rounds: 656_000,
    bcrypt_cost: 10,
    yescrypt_memory: 16_384,
    scrypt_memory: 8_192,
    scrypt_work: 81_920,
    pbkdf2_sha256_rounds: 600_000,
    pbkdf2_sha512_rounds: 210_000,
    argon2_memory: 7_168,
    argon2_work: 35_840,
};

/// What of a text is below its least.
#[derive(Clone, Copy, Debug, PartialEq, Eq)]
pub enum Weakness {
    /// The scheme, whatever its texts ask for.
    Scheme,
    Rounds,
    /// The cost of bcrypt.
    Cost,
    Memory,
    /// The passes over the memory, or its parts: memory and time together.
    Work,
}

// A power of two, as far as 64 bits hold it.
fn power(ln: u64) -> u64
    ensures { result ≡ power ln }
{
    if ln < 64 { 1 << ln } else { u64::MAX }
}

// The bytes of the table of scrypt or yescrypt.
fn bytes(costs: &Costs) -> u64
    ensures { result ≡ bytes costs.now }
{
    128u64
        .saturating_mul(costs.r)
        .saturating_mul(power(costs.ln))
}

/// The memory of a text in KiB, by its family.
pub fn memory(family: CostFamily, costs: &Costs) -> u64
    ensures { result ≡ memory family costs.now }
{
    match family {
        CostFamily::Argon2 => costs.m,
        _ => bytes(costs) / 1024,
    }
}

/// The memory of a text in KiB, as often as it is gone through: in the passes of Argon2, in the parts of scrypt.
pub fn work(family: CostFamily, costs: &Costs) -> u64
    ensures { result ≡ work family costs.now }
{
    match family {
        CostFamily::Argon2 => costs.m.saturating_mul(costs.t),
        _ => bytes(costs).saturating_mul(costs.p) / 1024,
    }
}

fn below(what: Weakness, number: u64, least: u64) -> Option<Weakness>
    ensures { result ≡ below what number least }
{
    if number < least { Some(what) } else { None }
}

fn scrypt_weakness(least: &LeastCosts, costs: &Costs) -> Option<Weakness>
    ensures { result ≡ scrypt_weakness least.now costs.now }
{
    if memory(CostFamily::Scrypt, costs) < least.scrypt_memory {
        Some(Weakness::Memory)
    } else {
        below(
            Weakness::Work,
            work(CostFamily::Scrypt, costs),
            least.scrypt_work,
        )
    }
}

fn argon2_weakness(least: &LeastCosts, costs: &Costs) -> Option<Weakness>
    ensures { result ≡ argon2_weakness least.now costs.now }
{
    if memory(CostFamily::Argon2, costs) < least.argon2_memory {
        Some(Weakness::Memory)
    } else {
        below(
            Weakness::Work,
            work(CostFamily::Argon2, costs),
            least.argon2_work,
        )
    }
}

// The first number that is below its least, by the scheme's family: of SHA-crypt the rounds with SHA-256.
fn family_weakness(least: &LeastCosts, family: CostFamily, costs: &Costs) -> Option<Weakness>
    ensures { result ≡ family_weakness least.now family costs.now }
{
    match family {
        CostFamily::NoNumber => None,
        CostFamily::ShaCrypt => below(Weakness::Rounds, costs.rounds, least.sha256_rounds),
        CostFamily::Bcrypt => below(Weakness::Cost, costs.cost, least.bcrypt_cost),
        CostFamily::Yescrypt => below(
            Weakness::Memory,
            memory(family, costs),
            least.yescrypt_memory,
        ),
        CostFamily::Scrypt => scrypt_weakness(least, costs),
        CostFamily::Pbkdf2Sha256 => below(
            Weakness::Rounds,
            costs.rounds,
            least.pbkdf2_sha256_rounds,
        ),
        CostFamily::Pbkdf2Sha512 => below(
            Weakness::Rounds,
            costs.rounds,
            least.pbkdf2_sha512_rounds,
        ),
        CostFamily::Argon2 => argon2_weakness(least, costs),
    }
}

// The first number of a text that is below its least: SHA-512-crypt has a least of its own.
fn number_weakness(least: &LeastCosts, scheme: Scheme, costs: &Costs) -> Option<Weakness>
    ensures { result ≡ number_weakness least.now scheme costs.now }
{
    match scheme {
        Scheme::Sha512Crypt => below(Weakness::Rounds, costs.rounds, least.sha512_rounds),
        _ => family_weakness(least, scheme.family(), costs),
    }
}

/// What of a text is weak; none where nothing is.
pub(crate) fn weakness_of(least: &LeastCosts, text: &TextCosts) -> Option<Weakness>
    ensures { result ≡ weakness_of least.now text.now }
{
    if text.scheme.is_weak() {
        Some(Weakness::Scheme)
    } else {
        number_weakness(least, text.scheme, &text.costs)
    }
}
