//! bcrypt of a digest of the password: the texts of passlib's `bcrypt_sha256`, of WordPress since 6.8, and of Django's
//! `bcrypt_sha256`.
//!
//! bcrypt takes the first 72 bytes of a password, and ends it at a zero byte. So these makers hash the password first, and give
//! bcrypt the digest as text: hexadecimal digits or Base64. The check of a text is that of the text of bcrypt beneath it, on
//! the text of the digest ([`Front`]). It is `bcrypt_plain`'s, whose faults ([`BcryptFault`](bcrypt_plain::BcryptFault)) are
//! those of these texts too.
//!
//! | Text | Maker | What bcrypt gets |
//! |---|---|---|
//! | `$bcrypt-sha256$v=2,t=2b,r=12$SALT$HASH` | passlib 1.7.3 and later | Base64 of HMAC-SHA-256 with the salt's characters as key |
//! | `$bcrypt-sha256$2b,12$SALT$HASH`, `2a` too | passlib before | Base64 of SHA-256 |
//! | `$wp$2y$10$SALT-AND-HASH` | WordPress 6.8 | Base64 of HMAC-SHA-384 with the key `wp-sha384`, of the trimmed password |
//! | `$bcrypt-sha256-hex$2b$12$SALT-AND-HASH` | Django's `bcrypt_sha256$$2b$12$..`, with this front in the place of its name | the hexadecimal digits of SHA-256 |
//!
//! Nothing here takes memory.
#![tactic(auto)]

mod check;
mod front;
pub mod laws;
mod text;

pub use check::{digest_check, digest_cost};
pub use front::{Front, front_text, trimmed};
