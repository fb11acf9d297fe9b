//! Password hashes in the PHC string format: `$id[$v=version][$params][$salt[$hash]]`.
//!
//! [`PasswordHash`] is the record that such a text means: it is read with the first fault of any other text,
//! and prints its text back. [`PasswordHashString`] keeps a record with its text in memory of its own; its
//! makers and `try_clone` alone take memory. [`Ident`], [`Value`], [`ParamsString`], [`Salt`] and [`Output`]
//! are the parts of a record.
#![tactic(auto)]

pub use error::{Error, PhcStringError, Result};
pub use ident::Ident;
pub use output::Output;
pub use params::{Iter, Pair, ParamsString};
pub use password_hash::PasswordHash;
pub use password_hash_string::PasswordHashString;
pub use salt::{Salt, SaltString};
pub use try_fill::TryFill;
pub use value::{Decimal, Value};

mod error;
mod ident;
pub mod laws;
mod layout;
mod output;
mod params;
mod password_hash;
mod password_hash_string;
mod salt;
mod try_fill;
mod value;
