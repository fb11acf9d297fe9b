//! The bound on cost that the command line gives.

use any_check::{Costs, NO_COSTS, SchemeCosts};
use clap::ArgMatches;

/// The most that each scheme takes: no valid text is above it.
const SCHEMES_OWN: SchemeCosts = SchemeCosts {
    sha_crypt: Costs {
        rounds: 4_294_967_295,
        ..NO_COSTS
    },
    bcrypt: Costs {
        cost: 31,
        ..NO_COSTS
    },
    yescrypt: Costs {
        ln: 23,
        r: 524_287,
        t: 1_024,
        ..NO_COSTS
    },
    scrypt: Costs {
        ln: 24,
        r: 131_072,
        p: 1_024,
        ..NO_COSTS
    },
    pbkdf2_sha256: Costs {
        rounds: 4_294_967_295,
        ..NO_COSTS
    },
    pbkdf2_sha512: Costs {
        rounds: 10_000_000,
        ..NO_COSTS
    },
    argon2: Costs {
        m: 2_097_152,
        t: 2_097_152,
        p: 262_144,
        ..NO_COSTS
    },
};

/// The number of an option, or this one.
pub fn number(matches: &ArgMatches<'_>, option: &str, number: u64) -> u64 {
    match matches.get_one::<u32>(option) {
        Some(n) => n as u64,
        None => number,
    }
}

// The numbers of yescrypt, of scrypt and of Argon2 that the command line allows.
fn most_of_yescrypt(matches: &ArgMatches<'_>, own: &Costs) -> Costs {
    Costs::of_ln_r_t(
        number(matches, "max-yescrypt-ln", own.ln),
        number(matches, "max-yescrypt-r", own.r),
        number(matches, "max-yescrypt-t", own.t),
    )
}

fn most_of_scrypt(matches: &ArgMatches<'_>, own: &Costs) -> Costs {
    Costs::of_ln_r_p(
        number(matches, "max-scrypt-ln", own.ln),
        number(matches, "max-scrypt-r", own.r),
        number(matches, "max-scrypt-p", own.p),
    )
}

fn most_of_argon2(matches: &ArgMatches<'_>, own: &Costs) -> Costs {
    Costs::of_m_t_p(
        number(matches, "max-argon2-memory", own.m),
        number(matches, "max-argon2-passes", own.t),
        number(matches, "max-argon2-lanes", own.p),
    )
}

// Rounds, as an option gives them.
fn rounds(matches: &ArgMatches<'_>, option: &str, otherwise: &Costs) -> Costs {
    Costs::of_rounds(number(matches, option, otherwise.rounds))
}

/// The bound of the command line; none where each number is the scheme's own.
pub fn bound_of(matches: &ArgMatches<'_>) -> Option<SchemeCosts> {
    let own = &SCHEMES_OWN;
    let limits = SchemeCosts {
        sha_crypt: rounds(matches, "max-sha-rounds", &own.sha_crypt),
        bcrypt: Costs::of_cost(number(matches, "max-bcrypt-cost", own.bcrypt.cost)),
        yescrypt: most_of_yescrypt(matches, &own.yescrypt),
        scrypt: most_of_scrypt(matches, &own.scrypt),
        pbkdf2_sha256: rounds(matches, "max-pbkdf2-rounds", &own.pbkdf2_sha256),
        pbkdf2_sha512: rounds(matches, "max-pbkdf2-rounds", &own.pbkdf2_sha512),
        argon2: most_of_argon2(matches, &own.argon2),
    };
    if limits == SCHEMES_OWN {
        return None;
    }
    Some(limits)
}
