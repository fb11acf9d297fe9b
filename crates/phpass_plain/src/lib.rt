//! phpass's portable hashes, the scheme of the stored texts `$P$` (WordPress to 6.7, phpass 0.3) and `$H$` (phpBB 3): their digest,
//! their hash field, and the verdict on a password and such a text.
//!
//! The digest is MD5 of the salt and the password, and then 2^cost times MD5 of the digest before and the password. MD5 is broken, and
//! a turn is one compression for a password of up to 39 bytes, which is cheap for a guesser. So texts of this kind are read for
//! migration, and are not to be made.
//!
//! Nothing here takes memory.
#![tactic(auto)]

mod check;
mod compare;
mod cost;
mod digest;
mod error;
mod field;
pub mod laws;
mod text;

pub use check::{phpass_check, phpass_check_counted, text_cost};
pub use digest::phpass;
pub use error::PhpassFault;
pub use field::{decode_phpass, encode_phpass};
