//! The schemes in the help of `check`.

use scheme_list::{SCHEME_COUNT, Scheme};
use std::alloc::{AllocError, Global};

/// What is before the names of the schemes in the help of `check`, after the options.
const LINES: &str = "\
A line is a password, a tab and a stored text of one of these schemes, of which pwcheck(5) has the forms:
";

/// What is after them.
const WORDS: &str = ".
The word is match, mismatch, or the first cause that there is no verdict: no-scheme where no scheme
has the text, too-costly where a number of it is above the most given here. With --from the texts are
foreign ones, of which those that aren't read get a word that begins with unsupported- or foreign-.
pwtool(1) has all words. Status 0 is for matches alone, 1 for some other word; pwtool --help has the
rest.";

// What is before the name at a place: commas, and a new line for each six names.
fn separator(place: usize) -> &'static str {
    if place == 0 {
        ""
    } else if place % 6 == 0 {
        ",\n"
    } else {
        ", "
    }
}

/// What is after the options in the help of `check`: what a line is, with the names of all schemes, and what the words are.
pub fn help_of_check(alloc: Global) -> Result<String, AllocError> {
    let mut text = String::new(alloc);
    text.push_str(LINES)?;
    for place in 0..SCHEME_COUNT {
        text.push_str(separator(place))?;
        text.push_str(Scheme::at(place).name())?;
    }
    text.push_str(WORDS)?;
    Ok(text)
}
