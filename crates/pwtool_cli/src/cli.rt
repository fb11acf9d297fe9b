//! The command line.

use crate::make_cli::{make, normalize, unwrap, wrap};
use crate::options::{
    file, flag, form, plus, wanted, with_file_of_maker, with_forms, with_good, with_maker,
    with_telling,
};
use crate::tables::table;
use clap::Command;
use rule_options::{CostOption, cost, with_costs, with_most};
use std::alloc::{AllocError, Global};
use store_run::VERSION;

/// What the help of the program has after the options.
const STATUSES: &str = "\
Statuses:
   0  the whole input was read, and every answer is good
   1  the whole input was read, and some answer isn't good
   3  a read failed; the whole lines that were read are answered
   4  a write failed
   5  out of memory; the lines before are answered
   6  the input has more than 2^40 bytes
   7  unwrap: the input isn't Base64 in such lines; table: a change isn't on the disk
   8  a word of the command line isn't UTF-8
  64  the words of the command line are no form of the program
  65  table: the file isn't one of a table
  66  a file can't be opened
  73  table: a file can't be made
  75  table: another process has the file
'pwtool help FORM' has the words and options of a form, and pwtool(1) everything.";

/// What is after the options in the help of `join`.
const USERS: &str = "\
A line of TEXTS is a user, a colon and a stored text, which ends at the next colon: a line of a
shadow or htpasswd file as it is. A line of PASSWORDS is a user, a colon and a password; of lines
of one user the last counts. Each line of TEXTS is answered, in order, by its user, a tab and a
word: match, mismatch, empty, locked (the text begins with * or !), no-password (PASSWORDS has no
line of the user), or a word of 'pwtool check'. With --no-text no password is checked: each line
of PASSWORDS whose user has no line in TEXTS is answered by its user, a tab and no-text. With
--from ldif TEXTS is a dump of a directory: each userPassword of an entry is a line, whose user is
the first uid of the entry, or else its dn. One of
the two files may be -, standard input. The smaller of two regular files is kept in memory, else
PASSWORDS, with --no-text TEXTS. Status 0 is for matches alone (--no-text: no answer), 1 for some
other word; pwtool --help has the rest.";

/// What is after the options in the help of `survey`.
const TEXTS: &str = "\
A line is a user, a colon and a stored text, which ends at the next colon: a line of a shadow or
htpasswd file as it is. No password is asked for, and nothing is hashed. A row is the user, the
scheme, its costs and a judgement, with tabs between them: ok, weak (with what is weak), locked
(the text begins with * or !), empty, unsupported (pwtool has no verdict on it; with the name of
its form), invalid (it has a fault), badline (no user) or toolong. After the rows comes how many
there are of each. With --from ldif the file is a dump of a directory: each userPassword of an entry
is a line, whose user is the first uid of the entry, or else its dn. md5-crypt, sha1-crypt, phpass,
salted-digest and pbkdf2-sha1 are weak in any case. A control character of a user is shown as ?, in
JSON as an escape. Status 0 is for accounts that are ok or locked, 1 for some other;
pwtool --help has the rest.";

// The least costs that aren't weak.
fn least_costs() -> [CostOption; 10] {
    [
        least("least-sha256-rounds", "sha256-crypt: rounds (535000)"),
        least("least-sha512-rounds", "sha512-crypt: rounds (656000)"),
        least("least-bcrypt-cost", "bcrypt: cost (10)"),
        least(
            "least-yescrypt-memory",
            "yescrypt: 128 r 2^ln in KiB (16384)",
        ),
        least(
            "least-scrypt-memory",
            "scrypt, $7$: 128 r 2^ln in KiB (8192)",
        ),
        least(
            "least-scrypt-work",
            "scrypt, $7$: 128 r 2^ln p in KiB (81920)",
        ),
        least("least-pbkdf2-rounds", "PBKDF2 with SHA-256: i (600000)"),
        least(
            "least-pbkdf2-sha512-rounds",
            "PBKDF2 with SHA-512: i (210000)",
        ),
        least("least-argon2-memory", "Argon2: m in KiB (7168)"),
        least("least-argon2-work", "Argon2: m t in KiB (35840)"),
    ]
}

fn least(name: &'static str, help: &'static str) -> CostOption {
    cost(name, help, 0, 4_294_967_295)
}

/// The heading of the least costs.
const LEAST: &str = "The least that isn't weak (left out: the number in brackets)";

/// The helps of the option that says which answers count as good, of `check`, `join` and `survey`.
const GOOD_WORDS: &str = "\
Status 0 is for these answers, with commas between them: match, mismatch, no-scheme, unsupported, \
too-costly, invalid (any other word), badline, toolong, locked (left out: match)";

const GOOD_USERS: &str = "\
Status 0 is for these answers, with commas between them: those of 'pwtool check', empty, \
no-password (left out: match)";

const GOOD_TEXTS: &str = "\
Status 0 is for these judgements, with commas between them: ok, weak, empty, locked, unsupported, \
invalid, badline, toolong (left out: ok,locked)";

// The form `check`, with this help after its options.
fn check<'a>(alloc: Global, help: &'a str) -> Result<Command<'a>, AllocError> {
    let command = form(
        alloc,
        "check",
        "Answer each line, a password, a tab and a stored text, with one word",
        help,
    );
    let command = plus(Ok(command), file(alloc));
    let users = "Lines begin with a user and a colon; keep the user before the word";
    let command = plus(command, flag(alloc, "users", users));
    with_most(
        alloc,
        with_telling(
            alloc,
            with_good(
                alloc,
                with_forms(alloc, with_maker(alloc, command)),
                GOOD_WORDS,
            ),
        ),
    )
}

// The form `join`.
fn join<'a>(alloc: Global) -> Result<Command<'a>, AllocError> {
    let command = form(
        alloc,
        "join",
        "Answer each user of a shadow or htpasswd file by the password in another file",
        USERS,
    );
    let texts = "A shadow or htpasswd file: a user, a colon and a stored text a line";
    let command = plus(Ok(command), wanted(alloc, "TEXTS", texts));
    let passwords = "A user, a colon and a password a line";
    let command = plus(command, wanted(alloc, "PASSWORDS", passwords));
    let no_text = "Answer the users of PASSWORDS who have no line in TEXTS, and check no password";
    let command = plus(command, flag(alloc, "no-text", no_text));
    with_most(
        alloc,
        with_telling(
            alloc,
            with_good(
                alloc,
                with_forms(alloc, with_file_of_maker(alloc, command)),
                GOOD_USERS,
            ),
        ),
    )
}

// The form `survey`.
fn survey<'a>(alloc: Global) -> Result<Command<'a>, AllocError> {
    let command = form(
        alloc,
        "survey",
        "Tell the scheme and the cost of each user's stored text, and whether it is weak",
        TEXTS,
    );
    let command = plus(Ok(command), file(alloc));
    let csv = "Write CSV: the names of four columns, then a line for each row, and no counts";
    let command = plus(command, flag(alloc, "csv", csv));
    let json = "Write an object of JSON a line, and no counts";
    let command = plus(command, flag(alloc, "json", json));
    with_costs(
        alloc,
        with_telling(
            alloc,
            with_good(
                alloc,
                with_forms(alloc, with_file_of_maker(alloc, command)),
                GOOD_TEXTS,
            ),
        ),
        &least_costs(),
        LEAST,
    )
}

// The command line without its forms.
fn program<'a>(alloc: Global) -> Result<Command<'a>, AllocError> {
    let command = Command::new(alloc, "pwtool").bin_name("pwtool")?;
    Ok(
        command
            .version(VERSION)
            .propagate_version(true)
            .about("Passwords checked against stored texts of every scheme")
            .subcommand_required(true)
            .after_help(STATUSES),
    )
}

// A command line with one more form.
fn with<'a>(
    command: Result<Command<'a>, AllocError>,
    form: Result<Command<'a>, AllocError>,
) -> Result<Command<'a>, AllocError> {
    command?.subcommand(form?)
}

/// The program's command line, with this help after the options of `check`: see [`crate::help_of_check`].
pub fn command<'a>(alloc: Global, help_of_check: &'a str) -> Result<Command<'a>, AllocError> {
    let command = with(program(alloc), check(alloc, help_of_check));
    let command = with(command, join(alloc));
    let command = with(command, survey(alloc));
    let command = with(command, make(alloc));
    let command = with(command, table(alloc));
    let command = with(command, normalize(alloc));
    let command = with(command, wrap(alloc));
    with(command, unwrap(alloc))
}
