//! A table of users and their stored texts, the replies to the lines of a command file over it, and the run over all
//! lines of such a file.
//!
//! A [`Policy`] says which names users have, how many users there may be, which texts are taken, and how a text is judged. [`StoredTexts`] is that of
//! `pwfile`.
#![tactic(auto)]

mod answer;
mod command;
mod error;
pub mod laws;
mod listing;
mod policy;
mod reply;
mod responder;
mod run;
mod stored_texts;
mod table;
mod upgraded;
mod user;

pub use answer::answer_line;
pub use command::Command;
pub use error::FileError;
pub use listing::put_reply;
pub use policy::Policy;
pub use reply::{LineReply, Word, check_word, error_word, set_word, upgrade_word};
pub use run::{run_commands, run_file, run_file_limited};
pub use stored_texts::{StoredTexts, USERS_MAX};
pub use table::{ROW_LINE_MAX, Replaced, TEXT_MAX, Table, line_of_row};
pub use user::UserName;
