//! Errors of one line on standard error.

use clap::Error;

/// Says a cause. That it can't be said has no consequence: the status tells.
pub fn say(rt: &impl Eprint, cause: &str) {
    let _ = eprintln!(rt; "pwstore: {cause}");
}

// The tip that a parser's text has for a word like a known one.
fn tip_of(text: &str) -> Option<&str> {
    for line in text.lines() {
        if let Some(tip) = line.strip_prefix("  tip: ") {
            return Some(tip);
        }
    }
    None
}

/// Says the first line of a parser's text, with its tip where it has one.
pub fn say_refused<R: Eprint + AllocGlobal>(rt: &R, error: &Error) {
    let Ok(text) = format!(in rt.alloc(); "{error}") else {
        return say(rt, "out of memory for the cause");
    };
    let first = text.as_str().lines().next().unwrap_or("");
    let cause = first.strip_prefix("error: ").unwrap_or(first);
    match tip_of(text.as_str()) {
        Some(tip) => {
            let _ = eprintln!(rt; "pwstore: {cause}: {tip}");
        }
        None => say(rt, cause),
    }
}
