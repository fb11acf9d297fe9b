//! Laws over the definitions.

ghost use Rattle.std.specs.Prelude.{◌≡◌, ℕ, IsAscii, List, [], ◌∷◌, ◌++◌, None, Ok, true};
ghost use Rattle.pieces.specs.Pieces.{pieces_at};
ghost use Rattle.mcf.specs.Grammar.{fault, field_fault, first_field_fault, is_identifier, mcf, parts, Parts, parts_text, with_dollar, with_field};
ghost use Rattle.pieces.specs.Characters.{dollar};

/// A text without a fault is cut into an empty piece, its identifier and its fields.
pub fn pieces_of_valid()
    ensures pieces { (s : List ℕ) → fault s ≡ None
        → pieces_at dollar s ≡ [] ∷ ((parts s).id ∷ (parts s).fields) }
{}

/// An identifier behind a `$` is a text without a fault and without fields.
pub fn fault_identifier()
    ensures fault { (id : List ℕ) → is_identifier id ≡ true → fault (with_dollar id) ≡ None }
    ensures parts { (id : List ℕ) → is_identifier id ≡ true
        → parts (with_dollar id) ≡ record { id = id; fields = [] } }
{}

/// A field pushed behind a text without a fault keeps the grammar and the identifier, and is the last of
/// the fields.
pub fn fault_pushed()
    ensures fault { (s field : List ℕ) → fault s ≡ None → field_fault field ≡ None
        → fault (s ++ with_dollar field) ≡ None }
    ensures parts { (s field : List ℕ) → fault s ≡ None → field_fault field ≡ None
        → parts (s ++ with_dollar field) ≡ with_field (parts s) field }
{}

/// An identifier and fields without a fault are read back from their text.
pub fn read_back()
    ensures parts { (p : Parts) → is_identifier p.id ≡ true → first_field_fault p.fields ≡ None
        → mcf (parts_text p) ≡ Ok p }
{}

/// A text without a fault is the text of its identifier and fields.
pub fn written_back()
    ensures text { (s : List ℕ) (p : Parts) → mcf s ≡ Ok p → parts_text p ≡ s }
{}

/// A text without a fault is ASCII.
pub fn valid_is_ascii()
    ensures ascii { (s : List ℕ) → fault s ≡ None → IsAscii s }
{}
