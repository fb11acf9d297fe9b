//! bcrypt (Provos and Mazieres, 1999), the scheme of the stored texts `$2b$cost$salt-and-hash` of OpenBSD, and of `$2a$`
//! and `$2y$` beside them: hashes, texts made, and the check of a password against a text.
//!
//! The three versions have one check. `2a` is the name of OpenBSD's texts before release 5.5, whose length of a key
//! was kept in one byte: of some passwords of 255 bytes or more that program took fewer bytes than the first 72, and only
//! texts of such passwords, made by it, get another verdict here. `2b` is OpenBSD's name since, and `2y` the name that
//! crypt_blowfish, PHP and Apache's htpasswd gave to texts that are not `2x`: those come from a program that took bytes above
//! 127 as negative numbers. crypt_blowfish, libxcrypt, PHP and htpasswd have a safety measure in `2a` against such texts, which
//! changes the hash of some passwords with a byte of 255: [`measured_bcrypt`] has it, for crypt(3). A check takes UTF-8, which
//! has no such byte, so the measure changes no verdict. `2` is the first version, without the zero byte after the password.
//! Texts with `2` and `2x` get a refusal of their own.
//!
//! Nothing here takes memory: the state of bcrypt, 4,168 bytes, is on the stack.
#![tactic(auto)]

mod blowfish;
mod check;
mod compare;
mod digest;
mod error;
mod field;
pub mod laws;
mod make;
mod measure;
mod pi;
mod schedule;
mod text;
mod version;

pub use check::{bcrypt_check, bcrypt_check_counted, text_cost};
pub use digest::{bcrypt, measured_bcrypt};
pub use error::{BcryptError, BcryptFault, MakeFault};
pub use field::{decode_hash, decode_salt, encode_hash, encode_salt};
pub use make::{bcrypt_simple, bcrypt_text};
