//! Selection, comparison and equality whose steps do not depend on the values: a port of the crate
//! `subtle` 2.6.1.
//!
//! The bodies are arithmetic on bits, without branches on the values compared. The contracts say
//! what the answers are; that an optimiser keeps the arithmetic as it is, and how long it takes, is
//! not claimed.
#![tactic(auto)]

mod black_box;
mod choice;
mod count;
mod equal;
pub mod laws;
mod negate;
mod option;
mod order;
mod ordering;
mod select;
mod smear;

pub use black_box::BlackBox;
pub use choice::Choice;
pub use count::{Counting, SameByte, eq_with};
pub use equal::{ConstantTimeEq, ct_eq_slices};
pub use negate::ConditionallyNegatable;
pub use option::CtOption;
pub use order::{ConstantTimeGreater, ConstantTimeLess};
pub use select::ConditionallySelectable;
