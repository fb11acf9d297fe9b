//! The lines of a password file, answered by scrypt and PBKDF2 as one derivation: [`run_either`]. Only scrypt's keys take
//! memory.
//!
//! The scheme itself is `pbkdf2_key`'s, and [`EitherKdf`] is `phc_kdf`'s; both are given out again here.
#![tactic(auto)]

pub mod laws;
mod run;

pub use pbkdf2_key::{Pbkdf2Hash, Pbkdf2Plain, pbkdf2_sha1, pbkdf2_sha256, pbkdf2_sha512};
pub use phc_kdf::EitherKdf;
pub use run::{run_either, run_either_limited};
