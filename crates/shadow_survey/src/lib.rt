//! A survey of stored texts: for each user the scheme, its cost and a judgement, and then how many of each. No password is
//! asked for, and nothing is hashed.
#![tactic(auto)]

mod cells;
mod counts;
mod judgement;
mod least;
mod lines;
mod rows;
mod unsupported;

pub use any_check::{Costs, NO_COSTS, Scheme, TextCosts};
pub use cells::Format;
pub use counts::{Counts, Kind};
pub use judgement::{Judgement, judged};
pub use least::{LeastCosts, RECOMMENDED_LEAST, Weakness, memory, work};
pub use lines::{SurveyLines, run_survey};
pub use unsupported::UnsupportedForm;
