//! Texts of every scheme that new passwords may be kept by: [`make_text`] writes the text of a password, a cost and a salt that
//! is handed in, and `any_check` answers it with a match for this password.
//!
//! The definition is a table from cost to text (`specs/Made.antt`), each row the scheme's own definition. Of which schemes
//! texts are made, `scheme_list` says; the others' texts are read for migration alone. [`run_make`] writes the text of the first line of a source. Only the keys of scrypt, Argon2id and yescrypt take memory, a table for each call.
#![tactic(auto)]

mod error;
pub mod laws;
mod line;
mod make;
mod names;
mod records;
mod scheme;
mod sha_texts;
mod texts;

pub use error::{MakeFault, NameFault};
pub use line::{MakeEnd, run_make};
pub use make::{made_text, make_text};
pub use names::scheme_named;
pub use scheme::{Argon2Cost, MakeCost, Pbkdf2Hash, recommended};
pub use scheme_list::Scheme;
pub use texts::TEXT_MAX;
