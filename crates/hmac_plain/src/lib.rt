//! HMAC (RFC 2104) over any hash function: [`Hmac`] over a [`HashFunction`], and those over SHA-256, SHA-384 and SHA-512.
//!
//! Another hash function, as SHA-1, takes an impl of [`HashFunction`].
#![tactic(auto)]

mod code;
mod functions;
pub mod laws;

pub use code::{
    Hmac, HmacSha256, HmacSha384, HmacSha512, block_key, hmac_sha256, hmac_sha384, hmac_sha512,
};
pub use functions::HashFunction;
