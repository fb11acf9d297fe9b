//! SCRAM-SHA-256 (RFC 5802, RFC 7677) as a scheme of stored texts: the keys of a password, and the verdict on a password and a text.
//!
//! A text is `$scram-sha-256$ROUNDS$SALT$STORED$SERVER` or `$scram-sha-256-raw$ROUNDS$SALT$STORED$SERVER`. It has the fields of
//! PostgreSQL's `SCRAM-SHA-256$ROUNDS:SALT$STORED:SERVER` and of Dovecot's `{SCRAM-SHA-256}ROUNDS,SALT,STORED,SERVER`: the stored key and
//! the server key of the password, in Base64 with padding. PostgreSQL prepares a password by SASLprep (RFC 4013), which changes no ASCII
//! password; others are refused by name here. Dovecot hashes a password as it is.
//!
//! Nothing here takes memory.
#![tactic(auto)]

mod check;
mod compare;
mod decoded;
mod error;
mod fields;
mod keys;
pub mod laws;
mod preparation;
mod text;

pub use check::{scram_check, scram_check_counted, text_cost};
pub use error::ScramFault;
pub use keys::{ScramKeys, scram_keys};
pub use preparation::Preparation;
