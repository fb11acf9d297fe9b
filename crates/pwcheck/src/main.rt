//! `pwcheck`: passwords checked against stored texts. [`run`] does what the words of the command line say:
//!
//! - `check` answers each line, a password, a tab and a stored text, by one word; `check --count` adds how often the
//!   alphabet was looked up and bytes were compared;
//! - `normalize` writes the normal text of each line, a stored text;
//! - `bench N` makes `N` lines, checks them and counts the answers;
//! - `wrap W` writes the padded Base64 of its input in lines of `W` characters, and `unwrap W` the bytes of such lines.
//!
//! Lines and bytes come from standard input, and the output goes to standard output. The status says how the run ended.
//! The calls are those of `pwcheck_run`, and the contract is that of its [`run`].
#![tactic(auto)]

ghost use Rattle.std.specs.Prelude.{◌≡◌, ◌⊎◌, IfErr};

use line_io::{StdSink, StdSource};
use line_program::status::{NO_MEMORY, NO_WORDS};
pub use pwcheck_run::{Words, laws, run, run_limited, word};
use std::process::ExitCode;
use std::rt::Env;
use std::{env, io};

// The words of the command line without the program's name, or the status.
fn command_line<R: Env + AllocGlobal>(rt: &R) -> Result<Words, u8>
    ensures status { IfErr result (λ status. (status ≡ 5) ⊎ (status ≡ 8)) }
{
    let mut args = match env::args(rt) {
        Ok(args) => args,
        Err(error) if error.kind() == io::ErrorKind::OutOfMemory => return Err(NO_MEMORY),
        Err(_) => return Err(NO_WORDS),
    };
    let mut words = Words::new(rt.alloc());
    let _ = args.next();
    for word in args {
        if words.push(word.as_str()).is_err() {
            return Err(NO_MEMORY);
        }
    }
    Ok(words)
}

fn main(rt: HostRuntime) -> ExitCode {
    let words = match command_line(&rt) {
        Ok(words) => words,
        Err(status) => return ExitCode::from(status),
    };
    let mut source = StdSource::new(rt.reader());
    let mut sink = StdSink::new(io::writer(&rt));
    ExitCode::from(run(rt.alloc(), &words, &mut source, &mut sink))
}
