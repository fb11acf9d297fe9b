//! Which rule of its scheme a cost breaks, for a message. Whether a cost is taken at all is for `any_make` to say.

use any_make::{Argon2Cost, MakeCost};
use yescrypt_plain::{ScryptParams, YescryptParams};

// The first rule that the numbers of scrypt break.
fn scrypt_rule(cost: ScryptParams) -> &'static str {
    let (ln, r, p) = (cost.ln as u64, cost.r as u64, cost.p as u64);
    if ln == 0 || r == 0 || p == 0 {
        "--ln, --r and --p are at least 1"
    } else if p > 1_024 {
        "--p is at most 1024"
    } else if r * p > 131_072 {
        "r p is at most 131072"
    } else if ln >= 16 * r {
        "--ln is below 16 r"
    } else {
        "128 r 2^ln is at most 2^28"
    }
}

// The first rule that the numbers of yescrypt break.
fn yescrypt_rule(cost: YescryptParams) -> &'static str {
    if cost.ln < 2 {
        "--ln is at least 2"
    } else if cost.r == 0 || cost.r >= 1 << 19 {
        "--r is from 1 to 524287"
    } else if cost.t > 1_024 {
        "--t is at most 1024"
    } else {
        "128 r 2^ln is at most 2^30"
    }
}

// The first rule that the numbers of Argon2id break.
fn argon2_rule(cost: Argon2Cost) -> &'static str {
    let (memory, passes, lanes) = (cost.memory as u64, cost.passes as u64, cost.lanes as u64);
    if passes == 0 || lanes == 0 {
        "--passes and --lanes are at least 1"
    } else if memory < 8 * lanes {
        "--memory is at least 8 KiB for each lane"
    } else if memory > 1 << 21 {
        "--memory is at most 2097152 KiB"
    } else {
        "passes times memory is at most 2^24 KiB"
    }
}

/// The first rule of its scheme that a cost breaks, where the cost isn't taken.
pub fn broken_rule(cost: MakeCost) -> &'static str {
    match cost {
        MakeCost::ShaCrypt(_, _) => "--rounds is from 1000 to 999999999",
        MakeCost::Scrypt(cost) => scrypt_rule(cost),
        MakeCost::Bcrypt(_) => "--cost is from 4 to 31",
        MakeCost::Yescrypt(cost) => yescrypt_rule(cost),
        MakeCost::Argon2id(cost) => argon2_rule(cost),
        MakeCost::Pbkdf2(_, _) => "--rounds is from 1 to 10000000",
    }
}
