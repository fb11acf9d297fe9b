//! sha1-crypt, NetBSD's scheme of the stored texts `$sha1$rounds$salt$hash`: its digest, its hash field, and the verdict on a password
//! and such a text.
//!
//! The digest is HMAC-SHA-1 (RFC 2104) with the password as key, taken `rounds` times: first of the salt, `$sha1$` and the rounds, then of
//! the code before. A round costs two compressions of SHA-1, which is cheap for a guesser: texts of this kind are read for migration,
//! and are not to be made.
//!
//! Nothing here takes memory.
#![tactic(auto)]

mod check;
mod compare;
mod digest;
mod error;
mod field;
pub mod laws;
mod text;

pub use check::{sha1_check, sha1_check_counted, text_cost};
pub use digest::sha1_crypt;
pub use error::Sha1Fault;
pub use field::{decode_sha1, encode_sha1};
