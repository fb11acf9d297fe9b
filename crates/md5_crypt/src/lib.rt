//! One verdict on a password and a stored text, in which the texts of md5-crypt (`$1$salt$hash` and, as Apache's
//! htpasswd writes it, `$apr1$salt$hash`) stand beside those of `check_stored`. [`run_legacy`] answers the lines of a
//! password file by it.
//!
//! The scheme itself is `md5_plain`'s, and is given out again here. Only the derivation of a key behind `check_stored`
//! takes memory. MD5 is broken, and a thousand rounds of it are cheap: texts of this kind are read for migration, and
//! are not to be made.
#![tactic(auto)]

mod check;
mod error;
pub mod laws;
mod run;

pub use check::check_legacy;
pub use error::LegacyError;
pub use md5_plain::{MAP_MD5, Magic, Md5Fault, decode_md5, encode_md5, md5_crypt};
pub use run::{run_legacy, run_legacy_limited};
