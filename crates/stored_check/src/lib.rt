//! One verdict on a password and a stored text of SHA-crypt or a PHC record; `any_check` has the one for every scheme.
//!
//! The schemes are SHA-256-crypt and SHA-512-crypt, and the PHC records that a [`PhcKdf`] takes. Nothing here
//! takes memory but the derivation of a key: for identifiers `5` and `6`, and before a fault, none is taken.
#![tactic(auto)]

mod check;
mod error;
mod family;
pub mod laws;
mod names;
mod normal;
mod words;

pub use check::{check_stored, check_stored_counted};
pub use error::{McfFault, PhcFault, ShaFault, ShaFormat, StoredError};
pub use family::named_family;
pub use names::mcf_name;
pub use normal::{normal_text, write_normal};
pub use phc_kdf::{PASSWORD_MAX, PhcKdf};
pub use words::word;
