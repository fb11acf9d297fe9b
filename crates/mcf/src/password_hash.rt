//! Texts in memory of their own.

ghost use Rattle.std.specs.Prelude.{◌≡◌, ◌⊎◌, ◌≤◌, ◌++◌, None, Some, Err, Ok, IfErr, IfOk, IsOkUnless, OnErr, OnOk, false, length, nat_eq, refl, string_bytes, true};
ghost use Rattle.std.specs.Cmp.{partial_equiv_from_equiv};
ghost use Rattle.std.specs.Cmp.Lexicographic.{nat_list_cmp_total, nat_list_eq_equiv, pointwise, slice_cmp, texts_po, texts_ties};
ghost use Rattle.std.specs.Ordering.{nat_cmp};
ghost use Rattle.base64ct.specs.Encoding.{encoding, longest_input};
ghost use Rattle.mcf.specs.Alphabets.{alphabet_of};
ghost use Rattle.mcf.specs.Grammar.{fault, field_fault, is_identifier, parts, with_dollar, with_field};
ghost use Rattle.pieces.specs.Faults.{unless};
ghost use Rattle.mcf.specs.Owned.{IsFaultOrMemory, IsMade, IsPush, bytes_fault};
ghost use Rattle.mcf.specs.Views.{field_text, fields_left, hash_text};

use crate::fields::fault_of_field;
use crate::{
    Base64, Error, Field, FieldText, Fields, PasswordHashRef, Result, fault_of_text, is_identifier,
};
use std::alloc::{AllocError, Global};
use std::cmp::Ordering;
use std::fmt;
use std::marker::Model;

/// A text in the modular crypt format that owns its memory. Contracts see it as the text, which is always in the
/// grammar.
///
/// Two of them are equal, and are ordered, as their texts are.
#[derive(Debug, Drop)]
pub struct PasswordHash {
    text: String,
}

impl Model for PasswordHash {
    ghost use Rattle.std.specs.Prelude.{◌≡◌, ℕ, List, None, string_bytes};
    ghost use Rattle.mcf.specs.Grammar.{fault};

    ghost Value = { List ℕ };

    ghost view = { λ h. string_bytes h.text };

    ghost invariant = { λ h. fault (string_bytes h.text) ≡ None };
}

// Appends `$` and a field, or nothing.
fn append_field(text: &mut String, field: &str) -> Result<()>
    ensures pushed { IsPush None field.now (string_bytes text.old) result (string_bytes text.new) }
{
    if text.try_reserve(1 + field.len()).is_err() {
        return Err(Error::OutOfMemory);
    }
    text.push('$').unwrap();
    text.push_str(field).unwrap();
    Ok(())
}

impl PasswordHash {
    /// The password hash that `s` is, copied. It refuses by the first fault, as [`PasswordHashRef::new`] does, and only
    /// then by `OutOfMemory`.
    pub fn new(alloc: Global, s: &str) -> Result<PasswordHash>
        ensures made { IsMade (fault s.now) s.now result }
    {
        match fault_of_text(s) {
            Some(e) => Err(e),
            None => match String::from_str(alloc, s) {
                Ok(text) => Ok(PasswordHash { text }),
                Err(_) => Err(Error::OutOfMemory),
            },
        }
    }

    /// The text of an identifier without fields. It refuses by `IdentifierInvalid`, and only then by `OutOfMemory`.
    pub fn from_id(alloc: Global, id: &str) -> Result<PasswordHash>
        ensures made { IsMade (unless (is_identifier id.now) Error.IdentifierInvalid) (with_dollar id.now) result }
    {
        if !is_identifier(id) {
            return Err(Error::IdentifierInvalid);
        }
        match format!(in alloc; "${id}") {
            Ok(text) => Ok(PasswordHash { text }),
            Err(_) => Err(Error::OutOfMemory),
        }
    }

    /// The same text, lent.
    pub fn as_password_hash_ref(&self) -> PasswordHashRef<'_>
        ensures text { hash_text result ≡ self.now }
    {
        PasswordHashRef {
            text: self.text.as_str(),
        }
    }

    /// The text.
    pub fn as_str(&self) -> &str
        ensures text { result.now ≡ self.now }
        ensures valid { fault result.now ≡ None }
    {
        self.text.as_str()
    }

    /// The identifier.
    pub fn id(&self) -> &str
        ensures { result.now ≡ (parts self.now).id }
    {
        self.as_password_hash_ref().id()
    }

    /// The fields behind the identifier.
    pub fn fields(&self) -> Fields<'_>
        ensures { fields_left result ≡ (parts self.now).fields }
    {
        self.as_password_hash_ref().fields()
    }

    /// The text alone.
    pub fn into_string(self) -> String
        ensures text { string_bytes result ≡ self }
    {
        let PasswordHash { text } = self;
        text
    }

    /// A copy.
    pub fn try_clone(&self) -> std::result::Result<Self, AllocError>
        ensures same { IfOk result (λ h. h ≡ self.now) }
    {
        let text = self.text.clone()?;
        Ok(PasswordHash { text })
    }

    /// Pushes the field that `s` is. It refuses by the fault of [`Field::new`], and only then by `OutOfMemory`; then the
    /// text stays.
    pub fn push_str(&mut self, s: &str) -> Result<()>
        ensures pushed { IsPush (field_fault s.now) s.now self.old result self.new }
        ensures parts { OnOk result (parts self.new ≡ with_field (parts self.old) s.now) }
    {
        match Field::new(s) {
            Ok(field) => self.push_field(field),
            Err(e) => Err(e),
        }
    }

    /// Pushes a field. It refuses by `OutOfMemory` alone; then the text stays.
    pub fn push_field(&mut self, field: Field<'_>) -> Result<()>
        ensures pushed { IsPush None (field_text field.entry) self.old result self.new }
        ensures parts { OnOk result (parts self.new ≡ with_field (parts self.old) (field_text field.entry)) }
    {
        append_field(&mut self.text, field.as_str())
    }

    /// Pushes the encoding of bytes. It refuses by `FieldInvalid` where there are none, and only then by `OutOfMemory`;
    /// then the text stays.
    pub fn push_base64(&mut self, field: &[u8], base64_encoding: Base64) -> Result<()>
        requires { length field.now ≤ longest_input }
        ensures pushed { IsPush (bytes_fault field.now) (encoding (alphabet_of base64_encoding) field.now) self.old result self.new }
        ensures parts { OnOk result (parts self.new ≡ with_field (parts self.old) (encoding (alphabet_of base64_encoding) field.now)) }
    {
        if field.is_empty() {
            return Err(Error::FieldInvalid);
        }
        let alloc = *self.text.allocator();
        match base64_encoding.encode_string(alloc, field) {
            Ok(text) => self.push_str(text.as_str()),
            Err(_) => Err(Error::OutOfMemory),
        }
    }

    // Pushes the bytes of a field.
    #[tactic(auto, using(crate::proofs::Ascii::field_utf8))]
    fn push_bytes(&mut self, bytes: &[u8]) -> Result<()>
        ensures pushed { IsPush (field_fault bytes.now) bytes.now self.old result self.new }
        ensures parts { OnOk result (parts self.new ≡ with_field (parts self.old) bytes.now) }
    {
        match fault_of_field(bytes) {
            Some(e) => Err(e),
            None => self.push_str(unsafe { str::from_utf8_unchecked(bytes) }),
        }
    }

    /// Pushes a value as it prints. It refuses by `DisplayFailed` where the printing fails, by the fault of the printed
    /// text where it doesn't, and in any case by `OutOfMemory`; then the text stays.
    pub fn push_displayable<D: FieldText + Drop>(&mut self, displayable: D) -> Result<()>
        ensures pushed { OnOk result ((D.fails displayable ≡ false) × (self.new ≡ self.old ++ with_dollar (D.shown displayable))) }
        ensures parts { OnOk result (parts self.new ≡ with_field (parts self.old) (D.shown displayable)) }
        ensures unchanged { OnErr result (self.new ≡ self.old) }
        ensures failed { D.fails displayable ≡ true → IfErr result (λ e. (e ≡ Error.DisplayFailed) ⊎ (e ≡ Error.OutOfMemory)) }
        ensures fault { D.fails displayable ≡ false → IfErr result (IsFaultOrMemory (field_fault (D.shown displayable))) }
    {
        let alloc = *self.text.allocator();
        let Ok(mut shown) = vec![in alloc; 0u8; displayable.shown_len()] else {
            return Err(Error::OutOfMemory);
        };
        if displayable.show(shown.as_mut_slice()).is_err() {
            return Err(Error::DisplayFailed);
        }
        self.push_bytes(shown.as_slice())
    }
}

impl PartialEq for PasswordHash {
    ghost eq = { pointwise nat_eq };

    ghost laws = { partial_equiv_from_equiv nat_list_eq_equiv };

    fn eq(&self, other: &Self) -> bool {
        self.as_str() == other.as_str()
    }
}

impl Eq for PasswordHash {
    ghost laws = { nat_list_eq_equiv };
}

impl PartialOrd for PasswordHash {
    ghost partial_cmp = { λ s t. Some (slice_cmp nat_cmp s t) };

    ghost laws = { texts_po };

    fn partial_cmp(&self, other: &Self) -> Option<Ordering> {
        Some(self.cmp(other))
    }
}

impl Ord for PasswordHash {
    ghost cmp = { slice_cmp nat_cmp };

    ghost total = { nat_list_cmp_total };

    ghost matches_partial_cmp = { λ s t. refl };

    ghost matches_eq = { texts_ties };

    fn cmp(&self, other: &Self) -> Ordering {
        self.as_str().cmp(other.as_str())
    }
}

impl fmt::Display for PasswordHash {
    ghost output = { λ h. Some h };

    fn fmt<W: fmt::Write>(&self, f: &mut fmt::Formatter<W>) -> fmt::Result {
        f.write_str(self.as_str())
    }
}
