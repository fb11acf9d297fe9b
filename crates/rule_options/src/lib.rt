//! Options that several command lines have: the most that a stored text may ask for, and the rules of a table of users.
#![tactic(auto)]

mod bounds;
mod costs;
mod rules;

pub use bounds::{bound_of, number};
pub use costs::{CostOption, cost, plus, with_costs, with_most};
pub use rules::{rules_of, with_rules};
