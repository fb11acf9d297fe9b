//! The forms of `pwtool`, each from what a parser read on its command line to its status.
//!
//! What the theorems are about stands first, over any source and any sink: [`check_lines`], [`check_users`], [`join_files`],
//! [`join_fewer`], [`tell_no_text`], [`survey_lines`], [`normalize_lines`], and over foreign texts [`check_foreign`],
//! [`check_foreign_users`], [`join_foreign`], [`join_foreign_fewer`] and [`survey_foreign`]. The modules that are public reach
//! files, standard input and output, and the system's random source. The command line itself is `pwtool_cli`'s.
#![tactic(auto)]

pub mod bounds;
pub mod brought;
mod check;
pub mod fault;
mod foreign;
pub mod form;
mod from;
pub mod good;
mod join;
pub mod make;
mod normalize;
pub mod pair;
pub mod progress;
pub mod reports;
mod rules;
pub mod small_forms;
pub mod status;
mod survey;
pub mod tally;
mod unused;

pub use check::{check_lines, check_users};
pub use foreign::{
    check_foreign, check_foreign_users, join_foreign, join_foreign_fewer, survey_foreign,
};
pub use join::{join_fewer, join_files, tell_no_text};
pub use normalize::normalize_lines;
pub use survey::survey_lines;
