//! HMAC (RFC 2104) over SHA-1 (RFC 3174, FIPS 180-4): [`hmac_sha1`], and [`HmacSha1`] for messages in pieces.
//!
//! The construction is that of `hmac_plain`, which has the hash functions of SHA-2. SHA-1 is for texts that are read for migration,
//! as those of sha1-crypt and of PBKDF2 with HMAC-SHA-1.
#![tactic(auto)]

mod code;
mod hasher;
pub mod laws;

pub use code::{HmacSha1, hmac_sha1};
pub use hasher::Sha1Hasher;
