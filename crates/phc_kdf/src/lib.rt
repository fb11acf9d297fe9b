//! What a verdict on a PHC record needs of a scheme: a derivation of keys, [`PhcKdf`], and the longest password.
//!
//! The schemes whose stored texts are PHC records implement the trait; `stored_check` holds the verdict by it.
//! [`EitherKdf`] is two derivations as one.
#![tactic(auto)]

mod either;
mod kdf;

pub use either::EitherKdf;
pub use kdf::PhcKdf;

/// The most bytes of a password.
pub const PASSWORD_MAX: usize = 4_096;
