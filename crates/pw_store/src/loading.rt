//! A table that takes the lines of a file.

ghost use Rattle.std.specs.Prelude.{◌≡◌, ℕ, Bool, List, Err, None, false, true, IfOk, IfSome};
ghost use Rattle.std.specs.Option.{option_map};
ghost use Rattle.pw_file.specs.Calls.{is_want};
ghost use Rattle.pw_file.specs.Commands.{command};
ghost use Rattle.pw_file.specs.Lines.{Asks, command_of};
ghost use Rattle.pw_file.specs.History.{is_done};
ghost use Rattle.pw_file.specs.Rules.{table_after, table_reply};
ghost use Rattle.pw_store.specs.Store.{as_command, is_last_part, is_taken, removal_line, removed_name, rows_with};

use line_io::LINE_MAX;
use line_log::Taker;
use pw_file::{Command, FileError, Policy, Table};
use std::alloc::AllocError;

/// A table that takes the lines of a file. No key is derived for any of them.
#[derive(Drop)]
pub struct Loading<P: Policy> {
    pub table: Table<P>,
}

// A line that is refused isn't taken, unless memory is wanting.
fn refusal<T: Copy, V: Copy>(e: FileError<T, V>) -> Result<bool, AllocError>
    ensures refused { IfOk result (λ taken. taken ≡ false) }
    ensures known { IfOk result (λ taken. is_want {A = Bool} (Err e) ≡ false) }
{
    match e {
        FileError::OutOfMemory => Err(AllocError),
        _ => Ok(false),
    }
}

// The most bytes of a name.
const NAME_MAX: usize = 64;

// What stands behind `set` and a tab, where a line begins with them.
fn behind_set(line: &[u8]) -> Option<&[u8]>
    ensures some { IfSome result (λ name. line.now ≡ removal_line name.now) }
    ensures none { result ≡ None → (name : List ℕ) → line.now ≡ removal_line name → ⊥ }
{
    match line {
        [115, 101, 116, 9, name @ ..] => Some(name),
        _ => None,
    }
}

// Whether there is no tab among the bytes, and at most 64 bytes.
fn is_last_part(bytes: &[u8]) -> bool
    ensures { result ≡ is_last_part bytes.now }
{
    bytes.len() <= NAME_MAX && !bytes.contains(&b'\t')
}

// The user whom a line of the file takes away: `set`, a tab and the user.
fn removed_name(line: &[u8]) -> Option<&[u8]>
    ensures name { option_map (λ name. name.now) result ≡ removed_name line.now }
{
    let Some(name) = behind_set(line) else {
        return None;
    };
    if !is_last_part(name) {
        return None;
    }
    Some(name)
}

// The command that a line of the file is.
fn command_in<P: Policy>(line: &[u8]) -> Option<Command<'_, P>>
    ensures command { option_map command_of result ≡ command P.policy (as_command line.now) }
{
    let Some(name) = removed_name(line) else {
        return Command::parse(line);
    };
    match str::from_utf8(name) {
        Ok(name) => Command::removal(name),
        Err(_) => None,
    }
}

// Takes a command that is a `set`, or takes away a user who is there.
fn take_command<P: Policy>(
    table: &mut Table<P>,
    command: Command<'_, P>,
) -> Result<bool, AllocError>
    ensures taken { (line : List ℕ) → Asks P.policy line (command_of command.entry) → IfOk result (λ taken. taken ≡ is_done (table_reply P.policy table.old line)) }
    ensures after { (line : List ℕ) → Asks P.policy line (command_of command.entry)
        → IfOk result (λ taken. taken ≡ true → table.new ≡ table_after P.policy table.old line) }
{
    match command {
        Command::Set { user, text } => match table.set(&user, text) {
            Ok(()) => Ok(true),
            Err(e) => refusal(e),
        },
        Command::Remove { user } => match table.remove(&user) {
            Ok(()) => Ok(true),
            Err(e) => refusal(e),
        },
        Command::Check { .. } => Ok(false),
        Command::Upgrade { .. } => Ok(false),
        Command::List => Ok(false),
    }
}

// Takes a line of the file.
fn take_line<P: Policy>(table: &mut Table<P>, line: &[u8]) -> Result<bool, AllocError>
    ensures taken { IfOk result (λ taken. taken ≡ is_taken P.policy table.old line.now) }
    ensures after { IfOk result (λ taken. taken ≡ true → table.new ≡ rows_with P.policy table.old line.now) }
{
    if line.len() > LINE_MAX {
        return Ok(false);
    }
    match command_in(line) {
        Some(command) => take_command(table, command),
        None => Ok(false),
    }
}

impl<P: Policy> Taker for Loading<P> {
    ghost takes = { λ s line. is_taken P.policy s.table line };

    ghost after = { λ s line. record { table = rows_with P.policy s.table line } };

    fn take(&mut self, line: &[u8]) -> Result<bool, AllocError> {
        take_line(&mut self.table, line)
    }
}
