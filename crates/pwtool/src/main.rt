//! `pwtool check [FILE]`: answers each line of a password file, a password, a tab and a stored text, with one word,
//! where every scheme of `any_check` has a verdict; with `--users` each line begins with a user, who is kept.
//! `pwtool join TEXTS PASSWORDS`: answers each user of a shadow or htpasswd file by the user's password in another file.
//! `pwtool survey [FILE]`: tells the scheme and the cost of each user's stored text, and whether it is weak.
//! `pwtool make SCHEME`: writes the text of a new password, with a salt from the system.
//! `pwtool table FILE`: answers commands over a table of users and their stored texts that is kept in a file, as `pwstore` does.
//! `pwtool normalize`, `wrap` and `unwrap`: what `pwcheck` and `wrapstream` do under these names.
//!
//! With `--from` the texts are those of another maker, as Django, LDAP or Werkzeug.
//!
//! A file is standard input where it is `-`, and each answer goes to standard output with a line feed. Errors are one line on
//! standard error, where the progress of a run and how many answers there were are told, too. The status says how the run
//! ended.
#![tactic(auto)]

use pwtool_cli::run;
use std::process::ExitCode;

fn main(rt: HostRuntime) -> ExitCode {
    ExitCode::from(run(&rt))
}
