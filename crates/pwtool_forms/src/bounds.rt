//! The bound on cost that the command line gives, and the least cost that isn't weak.

use clap::ArgMatches;
pub use rule_options::bound_of;
use rule_options::number;
use shadow_survey::{LeastCosts, RECOMMENDED_LEAST};

/// The least costs that aren't weak, as the command line gives them.
pub fn least_of(matches: &ArgMatches<'_>) -> LeastCosts {
    let least = &RECOMMENDED_LEAST;
    LeastCosts {
        sha256_rounds: number(matches, "least-sha256-rounds", least.sha256_rounds),
        sha512_rounds: number(matches, "least-sha512-rounds", least.sha512_rounds),
        bcrypt_cost: number(matches, "least-bcrypt-cost", least.bcrypt_cost),
        yescrypt_memory: number(matches, "least-yescrypt-memory", least.yescrypt_memory),
        scrypt_memory: number(matches, "least-scrypt-memory", least.scrypt_memory),
        scrypt_work: number(matches, "least-scrypt-work", least.scrypt_work),
        pbkdf2_sha256_rounds: number(matches, "least-pbkdf2-rounds", least.pbkdf2_sha256_rounds),
        pbkdf2_sha512_rounds: number(
            matches,
            "least-pbkdf2-sha512-rounds",
            least.pbkdf2_sha512_rounds,
        ),
        argon2_memory: number(matches, "least-argon2-memory", least.argon2_memory),
        argon2_work: number(matches, "least-argon2-work", least.argon2_work),
    }
}
