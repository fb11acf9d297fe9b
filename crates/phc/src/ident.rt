//! Names: identifiers of algorithms and names of parameters.

ghost use Rattle.std.specs.Prelude.{◌≡◌, true, length, Some};
ghost use Rattle.std.specs.Ordering.{nat_cmp, on, then_cmp, as_partial_cmp};
ghost use Rattle.std.specs.Cmp.{on_equiv, partial_order_from_own_ties};
ghost use Rattle.std.specs.Cmp.Lexicographic.{slice_cmp};
ghost use Rattle.std.specs.Cmp.Rules.{comparing};
ghost use Rattle.std.proofs.Common.{rules};
ghost use Rattle.phc.specs.Grammar.{is_name, name_fault};
ghost use Rattle.pieces.specs.Faults.{value_or_fault};

use crate::{Error, Result};
use pieces::characters::has_name_bytes;
use pieces::short_bytes::ShortBytes;
use std::cmp::Ordering;
use std::fmt;
use std::marker::Model;
use std::str::{self, FromStr};

/// A name: 1 to 32 characters of `a-z`, `0-9` and `-`. Contracts see it as the list of these characters.
///
/// Names are ordered by their length, then by their characters.
#[derive(Clone, Copy, Debug, PartialEq, Eq, Hash, Drop)]
pub struct Ident {
    text: ShortBytes<32>,
}

impl Model for Ident {
    ghost use Rattle.std.specs.Prelude.{◌≡◌, ℕ, List, true};
    ghost use Rattle.phc.specs.Grammar.{is_name};

    ghost Value = { List ℕ };

    ghost view = { λ i. i.text };

    ghost invariant = { λ i. is_name i.text ≡ true };

    ghost inverse = { λ s. record { text = s } };
}

/// Whether a text is a name.
pub(crate) fn is_name(s: &str) -> bool
    ensures { result ≡ is_name s.now }
{
    1 <= s.len() && s.len() <= Ident::MAX_LENGTH && has_name_bytes(s.as_bytes())
}

impl Ident {
    // The most characters.
    const MAX_LENGTH: usize = 32;

    /// The name that `s` is, or else `ParamNameInvalid`.
    pub fn new(s: &str) -> Result<Ident>
        ensures name { result ≡ value_or_fault s.now (name_fault s.now) }
    {
        if !is_name(s) {
            return Err(Error::ParamNameInvalid);
        }
        Ok(Ident {
            text: ShortBytes::from_slice(s.as_bytes()),
        })
    }

    /// The name that `s` is.
    pub fn new_unwrap(s: &str) -> Ident
        requires name { is_name s.now ≡ true }
        ensures text { result ≡ s.now }
    {
        Ident {
            text: ShortBytes::from_slice(s.as_bytes()),
        }
    }

    /// The text.
    pub fn as_str(&self) -> &str
        ensures text { result.now ≡ self.now }
        ensures name { is_name result.now ≡ true }
    {
        unsafe { str::from_utf8_unchecked(self.text.as_slice()) }
    }
}

impl Ord for Ident {
    ghost cmp = { then_cmp (on length nat_cmp) (slice_cmp nat_cmp) };

    ghost total = { Prim.search (comparing, rules) };

    ghost matches_partial_cmp = { Prim.search (comparing, rules) };

    ghost matches_eq = { Prim.search (comparing, rules) };

    fn cmp(&self, other: &Ident) -> Ordering {
        self.as_str()
            .len()
            .cmp(&other.as_str().len())
            .then(self.as_str().cmp(other.as_str()))
    }
}

impl PartialOrd for Ident {
    ghost partial_cmp = { as_partial_cmp (then_cmp (on length nat_cmp) (slice_cmp nat_cmp)) };

    ghost laws = { partial_order_from_own_ties (Prim.search (comparing, rules)) (Prim.search (comparing, rules)) };

    fn partial_cmp(&self, other: &Ident) -> Option<Ordering> {
        Some(self.cmp(other))
    }
}

impl fmt::Display for Ident {
    ghost output = { λ i. Some i };

    fn fmt<W: fmt::Write>(&self, f: &mut fmt::Formatter<W>) -> fmt::Result {
        f.write_str(self.as_str())
    }
}

impl FromStr for Ident {
    ghost use Rattle.std.specs.Prelude.{◌≡◌};
    ghost use Rattle.phc.specs.Grammar.{name_fault};
    ghost use Rattle.pieces.specs.Faults.{value_or_fault};

    type Err = Error;

    ghost from_str_gives = { λ text r. r ≡ value_or_fault text (name_fault text) };

    fn from_str(s: &str) -> Result<Ident> {
        Ident::new(s)
    }
}
