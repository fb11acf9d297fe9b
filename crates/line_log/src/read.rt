//! The lines of a file that a crash may have left.

ghost use Rattle.std.specs.Prelude.{◌≡◌, ◌≤◌, ◌<◌, ◌++◌, ◌∷◌, [], None, true, length, slice_index, take, IfSome, MatchOption};
ghost use Rattle.line_io.specs.Lines.{NoFeed};
ghost use Rattle.line_log.specs.Log.{IsGroup, IsLine, is_end, is_open, joined, open_lines};

use crate::GROUP_MAX;
use pieces::places::first_place;

// The place of the first line feed.
fn first_feed(text: &[u8]) -> Option<usize>
    ensures found { MatchOption result (NoFeed text.now) (λ at. (at < length text.now)
        × NoFeed (take at text.now) × (slice_index text.now at ≡ 10)) }
{
    first_place(text, b'\n')
}

/// The first line that counts, and what stands behind it.
pub fn first_line(text: &[u8]) -> Option<(&[u8], &[u8])>
    ensures line { IfSome result (λ found. IsLine found.0.now) }
    ensures parts { IfSome result (λ found. text.now ≡ found.0.now ++ 10 ∷ found.1.now) }
    ensures lines { IfSome result (λ found. open_lines text.now ≡ found.0.now ∷ open_lines found.1.now) }
    ensures none { result ≡ None → open_lines text.now ≡ [] }
{
    if !opens(text) {
        return None;
    }
    let len = first_feed(text)?;
    Some((&text[..len], &text[len + 1..]))
}

// Whether the first byte is `s`.
fn opens(text: &[u8]) -> bool
    ensures { result ≡ is_open text.now }
{
    match text {
        [gate, ..] => *gate == b's',
        [] => false,
    }
}

/// Whether a run can have left this behind the lines.
pub fn is_end(end: &[u8]) -> bool
    ensures { result ≡ is_end end.now }
{
    end.len() <= 1 || (!opens(end) && end.len() <= GROUP_MAX + 1)
}

// How many bytes the lines that count take, with their line feeds.
fn lines_length(text: &[u8]) -> usize
    ensures length { result ≡ length (joined (open_lines text.now)) }
{
    let mut rest = text;
    while let Some((_, after)) = first_line(rest) {
        rest = after;
    }
    text.len() - rest.len()
}

/// Whether this is lines that can be added at once.
pub fn is_group(text: &[u8]) -> bool
    ensures holds { result ≡ true → IsGroup text.now }
    ensures lacks { IsGroup text.now → result ≡ true }
{
    if text.is_empty() || text.len() > GROUP_MAX {
        return false;
    }
    lines_length(text) == text.len()
}
