//! What the C face of crypt(3), `libpwcrypt`, calls: the text for a phrase and a setting, a new setting, how many random bytes
//! one takes, and what a setting is. `crypt3/pwcrypt_core.h` declares it.
//!
//! Each export calls one function of `crypt_text`, and requires nothing. A slice is a pointer and a length.
#![tactic(auto)]

mod settings;
mod statuses;
#[cfg(test)]
mod tests;
mod texts;
