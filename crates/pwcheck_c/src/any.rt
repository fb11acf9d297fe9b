//! The verdict for every scheme.

ghost use Rattle.std.specs.Prelude.{◌≡◌, IsSomeAnd, false, true};
ghost use Rattle.pwcheck_c.specs.Answers.{answer_of};
ghost use Rattle.pwcheck_c.specs.AnyAnswers.{IsAnyAnswer, IsTextAnswer, bounds_of};

use crate::answer::{Answer, cause_answer};
use crate::check::text_of;
use any_check::{AnyCheck, Costs, SchemeCosts};
use std::alloc::Global;
use stored_check::StoredError;

/// The most that a valid stored text may ask for, scheme by scheme. C programs know it as `struct pwcheck_limits`.
#[repr(C)]
#[derive(Clone, Copy)]
pub struct Limits {
    pub sha_rounds: u32,
    pub bcrypt_cost: u32,
    pub yescrypt_ln: u32,
    pub yescrypt_r: u32,
    pub yescrypt_t: u32,
    pub pbkdf2_rounds: u32,
    pub scrypt_ln: u32,
    pub scrypt_r: u32,
    pub scrypt_p: u32,
    pub argon2_memory: u32,
    pub argon2_passes: u32,
    pub argon2_lanes: u32,
}

// The bounds by the families of `any_check`.
fn bounds_of(limits: &Limits) -> SchemeCosts
    ensures { result ≡ bounds_of limits.now }
{
    SchemeCosts {
        sha_crypt: Costs::of_rounds(limits.sha_rounds as u64),
        bcrypt: Costs::of_cost(limits.bcrypt_cost as u64),
        yescrypt: Costs::of_ln_r_t(
            limits.yescrypt_ln as u64,
            limits.yescrypt_r as u64,
            limits.yescrypt_t as u64,
        ),
        scrypt: Costs::of_ln_r_p(
            limits.scrypt_ln as u64,
            limits.scrypt_r as u64,
            limits.scrypt_p as u64,
        ),
        pbkdf2_sha256: Costs::of_rounds(limits.pbkdf2_rounds as u64),
        pbkdf2_sha512: Costs::of_rounds(limits.pbkdf2_rounds as u64),
        argon2: Costs::of_m_t_p(
            limits.argon2_memory as u64,
            limits.argon2_passes as u64,
            limits.argon2_lanes as u64,
        ),
    }
}

// The answer to a password and a stored text.
fn text_answer(alloc: Global, password: &str, stored: &str, limits: &Limits) -> Answer
    ensures answer { IsTextAnswer limits.now password.now stored.now result }
{
    let check = AnyCheck::new(alloc, Some(bounds_of(limits)));
    match check.known_verdict(password, stored) {
        Some(answer) => cause_answer(answer),
        None => Answer::Checked(Err(StoredError::OutOfMemory)),
    }
}

// The same where one of the two may not be UTF-8.
#[tactic(auto, unfolding(crate::specs::AnyAnswers::any_answer, crate::specs::AnyAnswers::any_may_lack))]
fn any_answer(alloc: Global, password: &[u8], stored: &[u8], limits: &Limits) -> Answer
    ensures answer { IsAnyAnswer limits.now password.now stored.now result }
{
    match (text_of(password), text_of(stored)) {
        (Some(password), Some(stored)) => text_answer(alloc, password, stored, limits),
        _ => Answer::NotText,
    }
}

/// Checks a password against a stored text of every scheme, within bounds on the cost, and answers by a number.
///
/// A valid text that asks for more than a bound is answered by a number of its own, and nothing is hashed for it. Only the
/// keys of scrypt, yescrypt and Argon2 take memory, which is given back.
#[unsafe(no_mangle)]
pub extern "C" fn pwcheck_check_any(
    alloc: Global,
    password: &[u8],
    stored: &[u8],
    limits: &Limits,
) -> i32
    ensures answer { IsSomeAnd (answer_of result) (λ a. IsAnyAnswer limits.now password.now stored.now a) }
{
    any_answer(alloc, password, stored, limits).number()
}
