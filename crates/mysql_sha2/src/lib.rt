//! MySQL's caching_sha2_password: the verdict on a password and a stored text `$mysql$A$THOUSANDS*SALT*HASH`.
//!
//! The digest is that of SHA-256-crypt, but each of the 20 bytes of the salt counts. The text is that of hashcat (mode 7401): MySQL's column
//! `authentication_string` with the bytes of the salt and the characters of the hash in hexadecimal digits.
//!
//! Nothing here takes memory.
#![tactic(auto)]

mod check;
mod compare;
mod digits;
mod error;
mod fields;
pub mod laws;
mod text;

pub use check::{mysql_check, mysql_check_counted, text_cost};
pub use error::MysqlFault;
