//! Lines answered by `any_check`'s verdicts, with and without users.
//!
//! [`run_any`] answers lines of a password and a stored text; [`run_users`] answers lines of a user, a password and a stored text; [`run_join`] answers the users of a shadow or
//! htpasswd file by the passwords of another file, and [`run_join_fewer`] the same with the passwords of those users alone in
//! memory; [`run_no_text`] tells the users of a file of passwords who have no line in a shadow or htpasswd file.
#![tactic(auto)]

mod answer;
mod fewer;
mod join;
mod joined;
pub mod laws;
mod lines;
mod no_text;
mod users;

pub use answer::JoinAnswer;
pub use fewer::run_join_fewer;
pub use join::{JoinEnd, Joining, TextJoin, run_join};
pub use joined::JoinedLines;
pub use lines::{AnyLines, LineAnswer, run_any};
pub use no_text::{NoTextLines, run_no_text};
pub use users::{UserLines, run_users};
