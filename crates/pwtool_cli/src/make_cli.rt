//! The command lines of the forms that make texts, and of those that the small programs have too.

use crate::options::{file, flag, form, plus, wanted, with_forms};
use clap::{Arg, Command, value_parser};
use std::alloc::{AllocError, Global};

/// What stands behind the options in the help of `make`.
const SCHEMES: &str = "\
The first line of standard input is the password, the text goes to standard output with a line
feed, and the salt is drawn from the system. SCHEME, and what its text costs where no option says
it:
  yescrypt       --ln 12 --r 32 --t 0                  libxcrypt's default
  argon2id       --memory 65536 --passes 3 --lanes 4   RFC 9106, second recommended option
  scrypt         --ln 17 --r 8 --p 1                   OWASP
  bcrypt         --cost 12                             PHP 8.4; OWASP asks for 10 and more
  pbkdf2-sha256  --rounds 600000                       OWASP
  pbkdf2-sha512  --rounds 210000                       OWASP
  sha512-crypt   --rounds 656000                       passlib 1.7.4
  sha256-crypt   --rounds 535000                       passlib 1.7.4
What the numbers may be:
  yescrypt       ln at least 2, r 1 to 524287, t at most 1024, 128 r 2^ln at most 2^30
  argon2id       passes and lanes at least 1, memory (in KiB) at least 8 for each lane and at most
                 2097152, memory times passes at most 2^24
  scrypt         ln, r and p at least 1, p at most 1024, r p at most 131072, ln below 16 r,
                 128 r 2^ln at most 2^28
  bcrypt         cost 4 to 31
  pbkdf2-sha256, pbkdf2-sha512   rounds 1 to 10000000
  sha512-crypt, sha256-crypt     rounds 1000 to 999999999
No text of md5-crypt, sha1-crypt, phpass, salted-digest and pbkdf2-sha1 is made, and none of an empty
password without --empty. The kit of this program can't keep a terminal from showing what is typed,
so it reads none, unless --echo is given.
To type a password unseen:
  (trap 'stty echo' EXIT INT; stty -echo; head -n 1) | pwtool make yescrypt
Status 0: the text is written; 1: no text is made of the line; pwtool --help has the rest.";

/// What stands behind the options in the help of `normalize`.
const NORMAL: &str = "\
A line is a stored text. An old spelling of a SHA-crypt text, which pwtool check refuses though
earlier programs took it, is written in its one spelling, and every other line as it is. A line
of more than 8,192 bytes is answered by toolong. Status 1 is for some such line; pwtool --help has
the rest.";

/// What stands behind the options in the help of `wrap` and `unwrap`.
const WIDTHS: &str = "\
W is the number of characters of a line, 4 to 65536, without a sign or a zero in front. No memory
is taken, however long the input is. Status 7: the input of unwrap is no such text, and what
stands before its fault is written; pwtool --help has the rest.";

// A number that a text may cost: its option, and its help.
#[derive(Drop)]
struct CostNumber {
    name: &'static str,
    help: &'static str,
}

fn number(name: &'static str, help: &'static str) -> CostNumber {
    CostNumber { name, help }
}

// The numbers that texts may cost.
fn numbers() -> [CostNumber; 9] {
    [
        number(
            "rounds",
            "sha256-crypt, sha512-crypt: 1000 to 999999999; PBKDF2: 1 to 10000000",
        ),
        number("cost", "bcrypt: 4 to 31"),
        number("ln", "scrypt: log2 of N, 1 to 20; yescrypt: 2 to 23"),
        number(
            "r",
            "scrypt, yescrypt: the block has 128 times so many bytes",
        ),
        number("p", "scrypt: the parts, 1 to 1024"),
        number("t", "yescrypt: the time, 0 to 1024"),
        number("memory", "argon2id: KiB, 8 to 2097152"),
        number("passes", "argon2id: the passes over the memory"),
        number("lanes", "argon2id: the lanes"),
    ]
}

// The argument of a number.
fn argument<'a>(alloc: Global, number: &CostNumber) -> Arg<'a> {
    Arg::new(alloc, number.name)
        .long(number.name)
        .value_name("N")
        .value_parser(value_parser!(u32).range(0..=4_294_967_295))
        .help_heading("What the text costs (left out: today's recommendation)")
        .help(number.help)
}

/// The form `make`.
pub fn make<'a>(alloc: Global) -> Result<Command<'a>, AllocError> {
    let command = form(
        alloc,
        "make",
        "Make the text of a new password, which standard input gives",
        SCHEMES,
    );
    let command = plus(
        Ok(command),
        wanted(alloc, "SCHEME", "The scheme, by its name"),
    );
    let echo = "Read the password from a terminal too, which shows what is typed";
    let command = plus(command, flag(alloc, "echo", echo));
    let empty = "Make a text of an empty password too";
    let mut command = plus(command, flag(alloc, "empty", empty));
    for number in &numbers() {
        command = plus(command, argument(alloc, number));
    }
    command
}

/// The form `normalize`.
pub fn normalize<'a>(alloc: Global) -> Result<Command<'a>, AllocError> {
    let about = "Write each line, a stored text, in its one spelling";
    let command = plus(Ok(form(alloc, "normalize", about, NORMAL)), file(alloc));
    let command = with_forms(alloc, command);
    let quiet = "Tell nothing but errors on standard error";
    plus(command, flag(alloc, "quiet", quiet))
}

// A form over the bytes of a file, with the width of the lines.
fn stream<'a>(
    alloc: Global,
    name: &'static str,
    about: &'static str,
) -> Result<Command<'a>, AllocError> {
    let width = wanted(alloc, "W", "The characters of a line, 4 to 65536");
    let command = plus(Ok(form(alloc, name, about, WIDTHS)), width);
    plus(command, file(alloc))
}

/// The form `wrap`.
pub fn wrap<'a>(alloc: Global) -> Result<Command<'a>, AllocError> {
    stream(alloc, "wrap", "Write bytes as padded Base64 in lines")
}

/// The form `unwrap`.
pub fn unwrap<'a>(alloc: Global) -> Result<Command<'a>, AllocError> {
    stream(alloc, "unwrap", "Write the bytes of padded Base64 in lines")
}
