//! Laws over the definitions.

ghost use Rattle.std.specs.Prelude.{◌≡◌, ◌≢◌, ℕ, List, Ok, false, true};
ghost use Rattle.phc.specs.Record.{IsRecord, is_printable, phc_text, record_text};
ghost use Rattle.phc.specs.declared.password_hash.PasswordHash.{PasswordHash};

/// The text of a record is read back as that record exactly where the record is printable.
pub fn parses_back()
    ensures printable { (r : PasswordHash) → IsRecord r → is_printable r ≡ true → phc_text (record_text r) ≡ Ok r }
    ensures other { (r : PasswordHash) → is_printable r ≡ false → phc_text (record_text r) ≢ Ok r }
{}

/// A record that is read from a text is the record of valid parts, is printable, and prints that text.
pub fn prints_back()
    ensures text { (s : List ℕ) (r : PasswordHash) → phc_text s ≡ Ok r → record_text r ≡ s }
    ensures valid { (s : List ℕ) (r : PasswordHash) → phc_text s ≡ Ok r → IsRecord r }
    ensures printable { (s : List ℕ) (r : PasswordHash) → phc_text s ≡ Ok r → is_printable r ≡ true }
{}
