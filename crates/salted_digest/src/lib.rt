//! Digests with a salt, as LDAP servers keep them, as a scheme of stored texts: the digest of a password and a salt, and the verdict on a
//! password and a text.
//!
//! A text is `$smd5$SALT$HASH`, `$ssha$SALT$HASH`, `$ssha256$SALT$HASH` or `$ssha512$SALT$HASH`, with the salt and the digest in Base64
//! with padding. LDAP's `{SMD5}`, `{SSHA}`, `{SSHA256}` and `{SSHA512}` have both in one field, the digest first; `{MD5}`, `{SHA}`, `{SHA256}`
//! and `{SHA512}` have no salt, which is an empty one here. The digest is one call of the hash function, which is no cost for a guesser:
//! texts of this kind are read for migration, and are not to be made.
//!
//! Nothing here takes memory.
#![tactic(auto)]

mod check;
mod compare;
mod decoded;
mod digest;
mod error;
mod fields;
mod hash;
pub mod laws;
mod text;

pub use check::{salted_check, salted_check_counted, text_hash};
pub use digest::salted_digest;
pub use error::SaltedFault;
pub use hash::DigestHash;
