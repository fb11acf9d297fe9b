//! Records kept with their text.

ghost use Rattle.std.specs.Prelude.{◌≡◌, true, IfOk, Some, length, nat_eq};
ghost use Rattle.std.specs.Cmp.{on_equiv, on_per, partial_equiv_from_equiv};
ghost use Rattle.std.specs.Cmp.Lexicographic.{pointwise, nat_list_eq_equiv};
ghost use Rattle.phc.specs.Kept.{IsKept};
ghost use Rattle.phc.specs.Record.{is_printable, phc_text, record_text};

use crate::password_hash::promised_by_parts;
use crate::{Decimal, Ident, Output, ParamsString, PasswordHash, PhcStringError, Salt};
use std::alloc::{AllocError, Global};
use std::fmt;
use std::marker::Model;

/// A PHC text in memory of its own. Contracts see it as its record; its text is the text of that record.
#[derive(Debug, Drop)]
pub struct PasswordHashString {
    text: String,
    parsed: PasswordHash,
}

impl Model for PasswordHashString {
    ghost use Rattle.std.specs.Prelude.{◌≡◌, Ok, string_bytes};
    ghost use Rattle.phc.specs.Record.{phc_text};
    ghost use Rattle.phc.specs.declared.password_hash.PasswordHash.{PasswordHash};

    ghost Value = { PasswordHash };

    ghost view = { λ h. h.parsed };

    ghost invariant = { λ h. phc_text (string_bytes h.text) ≡ Ok h.parsed };
}

impl PasswordHashString {
    /// The PHC text `s`, copied. It refuses by `Phc` with the first fault of the text, as
    /// [`PasswordHash::new`] does, and only then by `OutOfMemory`.
    pub fn new(alloc: Global, s: &str) -> Result<Self, PhcStringError>
        ensures answer { IsKept (phc_text s.now) result }
        ensures text { IfOk result (λ h. record_text h ≡ s.now) }
    {
        match PasswordHash::new(s) {
            Err(e) => Err(PhcStringError::Phc(e)),
            Ok(parsed) => match String::from_str(alloc, s) {
                Ok(text) => Ok(PasswordHashString { text, parsed }),
                Err(_) => Err(PhcStringError::OutOfMemory),
            },
        }
    }

    /// The text of a record.
    pub fn from_record(alloc: Global, hash: &PasswordHash) -> Result<Self, AllocError>
        requires printable { is_printable hash.now ≡ true }
        ensures same { IfOk result (λ h. h ≡ hash.now) }
    {
        promised_by_parts(hash);
        let text = format!(in alloc; "{hash}")?;
        let parsed = hash.clone()?;
        Ok(PasswordHashString { text, parsed })
    }

    /// A copy.
    pub fn try_clone(&self) -> Result<Self, AllocError>
        ensures same { IfOk result (λ h. h ≡ self.now) }
    {
        let text = self.text.clone()?;
        let parsed = self.parsed.clone()?;
        Ok(PasswordHashString { text, parsed })
    }

    /// The record.
    pub fn password_hash(&self) -> PasswordHash
        ensures same { result ≡ self.now }
    {
        match self.parsed.clone() {
            Ok(parsed) => parsed,
            Err(_) => unreachable!(),
        }
    }

    /// The text.
    pub fn as_str(&self) -> &str
        ensures text { result.now ≡ record_text self.now }
    {
        self.text.as_str()
    }

    /// The bytes of the text.
    pub fn as_bytes(&self) -> &[u8]
        ensures bytes { result.now ≡ record_text self.now }
    {
        self.as_str().as_bytes()
    }

    /// The number of bytes of the text.
    pub fn len(&self) -> usize
        ensures length { result ≡ length (record_text self.now) }
    {
        self.as_str().len()
    }

    /// The identifier of the algorithm.
    pub fn algorithm(&self) -> Ident
        ensures algorithm { result ≡ self.now.algorithm }
    {
        self.parsed.algorithm
    }

    /// The version.
    pub fn version(&self) -> Option<Decimal>
        ensures version { result ≡ self.now.version }
    {
        self.parsed.version
    }

    /// The parameters.
    pub fn params(&self) -> ParamsString
        ensures params { result ≡ self.now.params }
    {
        self.parsed.params
    }

    /// The salt.
    pub fn salt(&self) -> Option<Salt>
        ensures salt { result ≡ self.now.salt }
    {
        self.parsed.salt
    }

    /// The hash.
    pub fn hash(&self) -> Option<Output>
        ensures hash { result ≡ self.now.hash }
    {
        self.parsed.hash
    }
}

impl fmt::Display for PasswordHashString {
    ghost output = { λ h. Some (record_text h) };

    fn fmt<W: fmt::Write>(&self, f: &mut fmt::Formatter<W>) -> fmt::Result {
        f.write_str(self.as_str())
    }
}

/// Equality of texts.
impl PartialEq for PasswordHashString {
    ghost eq = { λ a b. pointwise nat_eq (record_text a) (record_text b) };

    ghost laws = { on_per record_text (partial_equiv_from_equiv nat_list_eq_equiv) };

    fn eq(&self, other: &Self) -> bool {
        self.as_str() == other.as_str()
    }
}

impl Eq for PasswordHashString {
    ghost laws = { on_equiv record_text nat_list_eq_equiv };
}
