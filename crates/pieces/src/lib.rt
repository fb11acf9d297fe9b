//! Texts cut at every place of one character, and a few bytes in fixed memory.
//!
//! A walk over the pieces of a text keeps what is left as an `Option<&str>`: `None` says that no piece
//! is left, and `Some("")` that one empty piece is. Nothing here copies a text or takes memory.
#![tactic(auto)]

ghost use Rattle.std.specs.Prelude.{◌≡◌, ◌<◌, ◌∷◌, drop, ℕ, nat_eq, true};
ghost use Rattle.std.specs.List.{starts_with, ends_with};
ghost use Rattle.pieces.specs.Pieces.{pieces_at, pieces_left, first, lent, behind};
ghost use Rattle.pieces.specs.Lists.{is_empty};

pub mod characters;
pub mod laws;
pub mod places;
pub mod short_bytes;
pub mod text;

use places::first_place;

/// The first piece of a text, and the text behind the first `cut`, where there is one.
///
/// A text without `cut` is one piece, and so is the empty text.
#[inline(always)]
pub fn first_piece<'a>(text: &'a str, cut: char) -> (&'a str, Option<&'a str>)
    requires ascii { cut < 128 }
    ensures pieces { pieces_at cut text.now ≡ result.0.now ∷ pieces_left cut result.1 }
{
    match first_place(text.as_bytes(), cut as u8) {
        Some(at) => (&text[..at], Some(&text[at + 1..])),
        None => (text, None),
    }
}

/// The next of the pieces that are left, if there is one, and the text with those behind it.
pub fn next_piece<'a>(left: Option<&'a str>, cut: char) -> (Option<&'a str>, Option<&'a str>)
    requires ascii { cut < 128 }
    ensures piece { lent result.0 ≡ first (pieces_left cut left.entry) }
    ensures others { pieces_left cut result.1 ≡ drop 1 (pieces_left cut left.entry) }
{
    match left {
        Some(text) => {
            let (piece, others) = first_piece(text, cut);
            (Some(piece), others)
        }
        None => (None, None),
    }
}

/// Whether no piece is left.
pub fn is_end(left: Option<&str>) -> bool
    ensures end { (c : ℕ) → result ≡ is_empty (pieces_left c left.entry) }
{
    match left {
        None => true,
        Some(_) => false,
    }
}

/// Whether a text begins with `front`.
pub fn begins_with(text: &str, front: &str) -> bool
    ensures begins { result ≡ starts_with nat_eq text.now front.now }
{
    text.starts_with(front)
}

/// Whether a text ends with `end`.
pub fn ends_in(text: &str, end: &str) -> bool
    ensures ends { result ≡ ends_with nat_eq text.now end.now }
{
    text.ends_with(end)
}

/// What stands behind `front`, where the text begins with it.
pub fn behind<'a>(text: &'a str, front: &str) -> Option<&'a str>
    ensures rest { lent result ≡ behind text.now front.now }
{
    text.strip_prefix(front)
}
