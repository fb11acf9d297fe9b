//! crypt(3): the text for a phrase and a setting, a new setting, and what a setting is, as libxcrypt 4.4.33 answers them.
//!
//! The methods are those whose schemes this repository has: md5-crypt (`$1$`), SHA-crypt (`$5$`, `$6$`), bcrypt (`$2a$`,
//! `$2b$`, `$2y$`), scrypt (`$7$`), yescrypt (`$y$`) and sha1-crypt (`$sha1`): `scheme_list` has their prefixes. A setting of another method is refused
//! as an unknown one is. Each hash is made by the scheme's own crate; here a setting is read, and the text is put together.
//!
//! A phrase and a setting are bytes. Only scrypt and yescrypt take memory.
#![tactic(auto)]

mod bcrypt_texts;
mod bytes;
mod error;
mod fields;
mod md5_texts;
mod new_settings;
mod scrypt_texts;
mod sha1_settings;
mod sha1_texts;
mod sha_texts;
mod status;
mod texts;
mod yescrypt_texts;

pub use error::CryptError;
pub use new_settings::{SETTING_MAX, new_setting, random_len};
pub use scheme_list::{Scheme, method_of};
pub use status::{SaltStatus, salt_status};
pub use texts::{PHRASE_MAX, TEXT_MAX, crypt_text};
