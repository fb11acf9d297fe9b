//! The schemes of stored texts: one enumeration, and one table with a row for each.
//!
//! A row has the identifiers, the name, the numbers that a text asks for, and whether texts of it are made, are weak, and are
//! answered by crypt(3). What a text of a scheme is, and how it is checked, is the scheme's own crate's. The table is
//! `specs/Schemes.antt`. To add a scheme: a variant of [`Scheme`], its row, and an arm in each function here.
#![tactic(auto)]

mod methods;
mod names;
mod schemes;

pub use methods::method_of;
pub use names::scheme_of_name;
pub use schemes::{CostFamily, SCHEME_COUNT, SCHEMES, Scheme, scheme_named};
