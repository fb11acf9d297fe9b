//! `pwkdf`: answers each line of a password file with `match`, `mismatch` or `invalid`, where the records of scrypt
//! (`$scrypt$ln=..`) and of PBKDF2 (`$pbkdf2-sha256$i=..`) have a verdict beside the texts of SHA-crypt.
//!
//! A line is a password, a tab and a stored text. The lines come from standard input, and each word goes to standard
//! output with a line feed. The status says how the run ended. Words of the command line are ignored.
#![tactic(auto)]

ghost use Rattle.std.specs.Prelude.{◌≡◌, ◌≢◌, ◌≤◌};

use line_io::{StdSink, StdSource};
use pbkdf2_plain::run_either;
use std::io;
use std::process::ExitCode;

// Answers the lines of standard input on standard output, and gives the status.
fn answer(rt: HostRuntime) -> u8
    ensures status { (result ≤ 6) × (result ≢ 2) }
{
    let mut source = StdSource::new(rt.reader());
    let mut sink = StdSink::new(io::writer(&rt));
    run_either(rt.alloc(), &mut source, &mut sink)
}

fn main(rt: HostRuntime) -> ExitCode {
    ExitCode::from(answer(rt))
}
