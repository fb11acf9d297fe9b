//! What the words of a command line ask for.

ghost use Rattle.std.specs.Prelude.{IfSome};
ghost use Rattle.store_run.specs.Statuses.{IsTableStatus};

use crate::imported::import_named;
use crate::opened::{compact_file, export_file, serve_file};
use shadow_table::TableRules;

/// What a help says of the word after the file.
pub const ACTIONS: &str =
    "'compact' writes the file anew, 'export' writes USER:TEXT for each user, 'import' sets the users of such lines; left out: commands are read from standard input";

// Does what a word asks for that names no file of users and no maker.
fn plain_action(
    rt: &HostRuntime,
    program: &str,
    file: &str,
    rules: TableRules,
    action: Option<&str>,
) -> Option<u8>
    ensures statuses { IfSome result (λ status. IsTableStatus status) }
{
    match action {
        None => Some(serve_file(rt, program, file, rules)),
        Some("compact") => Some(compact_file(rt, program, file)),
        Some("export") => Some(export_file(rt, program, file)),
        Some(_) => None,
    }
}

/// Does what the words after the file of a table ask for by these rules, with a file of users and a maker of their texts where these are named, and gives
/// the status; none where they ask for nothing that there is.
pub fn table_action(
    rt: &HostRuntime,
    program: &str,
    file: &str,
    rules: TableRules,
    action: Option<&str>,
    users: Option<&str>,
    from: Option<&str>,
) -> Option<u8>
    ensures statuses { IfSome result (λ status. IsTableStatus status) }
{
    if action == Some("import") {
        return import_named(rt, program, file, users.unwrap_or("-"), from, rules);
    }
    match (users, from) {
        (None, None) => plain_action(rt, program, file, rules, action),
        _ => None,
    }
}
