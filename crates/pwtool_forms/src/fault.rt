//! Errors of one line on standard error.

use clap::Error;

/// Says a cause. That it can't be said has no consequence: the status tells.
pub fn say(rt: &impl Eprint, cause: &str) {
    let _ = eprintln!(rt; "pwtool: {cause}");
}

/// Says a cause at a file.
pub fn say_at(rt: &impl Eprint, file: &str, cause: &str) {
    let _ = eprintln!(rt; "pwtool: {file}: {cause}");
}

// The tip that a parser's text has for a word like a known one.
fn tip_of(text: &str) -> Option<&str> {
    for line in text.lines() {
        if let Some(tip) = line.strip_prefix("  tip: ") {
            return Some(tip);
        }
    }
    None
}

// The word that a parser's text names in a line of its own after the first: neither a tip nor the list of all forms.
fn named_of(text: &str) -> Option<&str> {
    let second = text.lines().nth(1)?;
    let word = second.strip_prefix("  ")?;
    if word.starts_with("tip: ") || word.starts_with("[subcommands") {
        None
    } else {
        Some(word)
    }
}

/// What a parser's text has below its first line that says more: the first word that it names there, or its tip, where it has one.
pub fn more_of(text: &str) -> Option<&str> {
    named_of(text).or(tip_of(text))
}

/// Says the first line of a parser's text with what says more below it, or with where more is to be found.
pub fn say_refused<R: Eprint + AllocGlobal>(rt: &R, error: &Error) {
    let Ok(text) = format!(in rt.alloc(); "{error}") else {
        return say(rt, "out of memory for the cause");
    };
    let first = text.as_str().lines().next().unwrap_or("");
    let cause = first.strip_prefix("error: ").unwrap_or(first);
    let cause = cause.strip_suffix(":").unwrap_or(cause);
    match more_of(text.as_str()) {
        Some(more) => {
            let _ = eprintln!(rt; "pwtool: {cause}: {more}");
        }
        None => {
            let _ = eprintln!(rt; "pwtool: {cause}: 'pwtool --help' has more");
        }
    }
}
