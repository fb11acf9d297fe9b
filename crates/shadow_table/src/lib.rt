//! A table of users with any text of a real system: the names of passwd(5), the texts of shadow(5), locked ones among them,
//! and the verdict for every scheme.
#![tactic(auto)]

mod any_texts;
mod fault;
mod fields;
pub mod laws;
mod rules;
mod strength;
mod words;

pub use any_texts::{AnyKept, AnyTexts, TableRuled};
pub use fault::FieldFault;
pub use fields::{is_field, is_locked_text, is_user_name};
pub use rules::{PLAIN_RULES, TableRules};
pub use words::answer_word;
