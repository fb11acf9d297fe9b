//! The verdict.

ghost use Rattle.std.specs.Prelude.{◌≡◌, MatchOption, IsSomeAnd, true, false};
ghost use Rattle.std.specs.Str.{is_utf8};
ghost use Rattle.pwcheck_c.specs.Answers.{answer_of};
ghost use Rattle.pwcheck_c.specs.Verdicts.{IsAnswer};
ghost use Rattle.pwcheck_c.specs.Costs.{IsLimitedAnswer};

use crate::answer::Answer;
use crate::cost::{Bounds, over_cost};
use scrypt_plain::ScryptPlain;
use std::alloc::Global;
use stored_check::check_stored;

/// The text that these bytes are.
pub(crate) fn text_of(bytes: &[u8]) -> Option<&str>
    ensures text { MatchOption result (is_utf8 bytes.now ≡ false)
        (λ text. (is_utf8 bytes.now ≡ true) × (text.now ≡ bytes.now)) }
{
    match str::from_utf8(bytes) {
        Ok(text) => Some(text),
        Err(_) => None,
    }
}

// The answer to two texts.
#[tactic(auto, unfolding(crate::specs::Verdicts::answer, crate::specs::Verdicts::may_lack))]
fn answer_to(alloc: Global, password: &[u8], stored: &[u8]) -> Answer
    ensures answer { IsAnswer password.now stored.now result }
{
    match (text_of(password), text_of(stored)) {
        (Some(password), Some(stored)) => {
            Answer::Checked(check_stored(alloc, &ScryptPlain, password, stored))
        }
        _ => Answer::NotText,
    }
}

/// Checks a password against a stored text, and answers by a number.
#[unsafe(no_mangle)]
pub extern "C" fn pwcheck_check(alloc: Global, password: &[u8], stored: &[u8]) -> i32
    ensures answer { IsSomeAnd (answer_of result) (λ a. IsAnswer password.now stored.now a) }
{
    answer_to(alloc, password, stored).number()
}

// The answer to two texts within bounds on the cost.
fn limited_answer_to(alloc: Global, password: &[u8], stored: &[u8], bounds: Bounds) -> Answer
    ensures answer { IsLimitedAnswer bounds.rounds bounds.bytes password.now stored.now result }
{
    if over_cost(password, stored, bounds) {
        return Answer::OverCost;
    }
    answer_to(alloc, password, stored)
}

/// Checks as `pwcheck_check`, but for a valid stored text of more than `max_rounds` rounds of SHA-crypt, or more than
/// `max_bytes` bytes that scrypt mixes: no digest or key is computed for it, and the answer is a number of its own.
#[unsafe(no_mangle)]
pub extern "C" fn pwcheck_check_limited(
    alloc: Global,
    password: &[u8],
    stored: &[u8],
    max_rounds: u32,
    max_bytes: u64,
) -> i32
    ensures answer { IsSomeAnd (answer_of result)
        (λ a. IsLimitedAnswer max_rounds max_bytes password.now stored.now a) }
{
    let bounds = Bounds {
        rounds: max_rounds,
        bytes: max_bytes,
    };
    limited_answer_to(alloc, password, stored, bounds).number()
}
