//! What programs over a table of users in a file share: the table of its file, the commands on it, the file made anew and the
//! users as lines of a shadow file, which are written or set, over any device ([`store_of`], [`serve`], [`compact`], [`export_users`],
//! [`import_users`], and [`import_foreign`] for those of another maker) and over a file of the system ([`serve_file`], [`compact_file`], [`export_file`], [`import_file`]). [`table_action`]
//! does one of these, by the words of a command line.
//!
//! What is said on standard error ([`messages`]) begins with the name of the program, which is handed in. The statuses are those of
//! `line_program` and `pw_store`, and those of [`status`].
#![tactic(auto)]

mod action;
mod export;
mod foreign;
mod help;
mod imported;
pub mod laws;
pub mod messages;
mod noted;
mod opened;
pub mod status;
mod table;

pub use action::{ACTIONS, table_action};
pub use export::export_users;
pub use foreign::import_foreign;
pub use foreign_lines::MAKERS;
pub use help::{HELP, VERSION};
pub use imported::import_file;
pub use opened::{compact_file, export_file, serve_file, tell};
pub use table::{Untaken, compact, import_users, serve, store_of};
