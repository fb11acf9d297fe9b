//! Laws over the definitions.

ghost use Rattle.std.specs.Prelude.{◌≡◌, ◌<◌, ◌≤◌, ◌^◌, ◌↔◌, ℕ, List, ◌∷◌, ◌++◌, Some};
ghost use Rattle.std.specs.Fmt.{decimal};
ghost use Rattle.std.specs.List.{join_with_byte};
ghost use Rattle.pieces.specs.Numbers.{plain_number};
ghost use Rattle.pieces.specs.Pieces.{EachLacks, LacksByte, pieces_at};

/// The pieces of a text, joined with the byte at which it was cut, are the text.
pub fn join_pieces()
    ensures text { (c : ℕ) (text : List ℕ) → join_with_byte c (pieces_at c text) ≡ text }
{}

/// Pieces without the byte, joined with it and cut again, are these pieces.
pub fn cut_joined()
    ensures pieces { (c : ℕ) (first : List ℕ) (others : List (List ℕ)) → LacksByte c first → EachLacks c others
        → pieces_at c (join_with_byte c (first ∷ others)) ≡ first ∷ others }
{}

/// The pieces of a text that goes on behind a cut are those before it, followed by those behind it.
pub fn cut_append()
    ensures pieces { (c : ℕ) (front back : List ℕ) → pieces_at c (front ++ c ∷ back) ≡ pieces_at c front ++ pieces_at c back }
{}

/// No piece has the byte at which the text was cut.
pub fn pieces_lack()
    ensures pieces { (c : ℕ) (text : List ℕ) → EachLacks c (pieces_at c text) }
{}

/// A number below a bound is written plainly by its decimal, and by no other text.
pub fn plain_numbers()
    ensures texts { (bound n : ℕ) (s : List ℕ) → bound ≤ 2 ^ 64
        → (plain_number bound s ≡ Some n) ↔ ((n < bound) × (s ≡ decimal n)) }
{}
