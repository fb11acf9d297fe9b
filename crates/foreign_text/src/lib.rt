//! Stored texts as others spell them, brought to the spelling that `any_check` reads.
//!
//! [`stored_text`] takes a text of a maker ([`Foreign`]). Fields of PBKDF2 and scrypt become a record in the PHC string format
//! with the same cost, salt and key, and a digest with its salt a text of `salted_digest`; the texts of argon2, bcrypt and crypt(3) are in the foreign ones as they are. A text of a
//! scheme that isn't read, or with a fault, is refused by a [`ForeignFault`], which has a word. Nothing is hashed, and no
//! memory taken.
#![tactic(auto)]

mod aix;
pub mod answers;
mod aspnet;
mod cisco;
mod converted;
mod digests;
mod django;
mod dovecot;
mod elasticsearch;
mod fault;
pub mod fields;
mod grub;
mod kdf;
pub mod laws;
mod ldap;
mod mattermost;
mod mediawiki;
mod mosquitto;
mod padded;
mod passlib;
mod postgres;
mod scram;
mod spring;
mod werkzeug;

pub use converted::{Foreign, stored_text};
pub use fault::{ForeignFault, Unread};
pub use kdf::{
    FieldBytes, Kdf, MadeText, Pbkdf2Hash, TEXT_MAX, if_sized, is_size, with_bytes, with_decoded,
};
