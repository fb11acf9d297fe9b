//! Programs over lines, with a converter of foreign stored texts in front of them.
//!
//! [`ForeignLines`] hands each line to another responder, with the line's stored text converted by `foreign_text`; where the
//! text isn't converted, the word of the cause is written in place of the other's reply. [`run_foreign`],
//! [`run_foreign_users`] and [`run_foreign_survey`] are the runs of `shadow_check` and `shadow_survey` after it, and
//! [`ForeignJoin`] is what `shadow_check::run_join` joins. [`ConvertedTexts`] is what `line_filter::MappedLines` puts in the places of lines
//! of users and texts, before what sets the texts of users.
#![tactic(auto)]

mod converting;
mod join;
pub mod laws;
mod lines;
mod makers;
mod parts;
mod runs;

pub use converting::ConvertedTexts;
pub use join::ForeignJoin;
pub use lines::ForeignLines;
pub use makers::{MAKERS, maker_named};
pub use parts::LineForm;
pub use runs::{run_foreign, run_foreign_survey, run_foreign_users};
