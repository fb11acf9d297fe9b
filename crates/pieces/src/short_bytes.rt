//! A few bytes kept in place.

ghost use Rattle.std.specs.Prelude.{◌≡◌, ℕ, ◌+◌, ◌≤◌, List, [], ◌++◌, length};
ghost use Rattle.std.specs.Prelude.{nat_eq};
ghost use Rattle.std.specs.Cmp.{partial_equiv_from_equiv};
ghost use Rattle.std.specs.Cmp.Lexicographic.{pointwise, nat_list_eq_equiv};
ghost use Rattle.std.specs.Cmp.Rules.{hashing};
ghost use Rattle.std.specs.Fmt.{decimal};
ghost use Rattle.std.specs.Hash as fed;
ghost use Rattle.std.proofs.Common.{rules};

use itoa::Buffer;
use std::fmt;
use std::hash::{Hash, Hasher};
use std::marker::Model;

/// At most `N` bytes, in memory of that size; those past the length are zero.
///
/// Contracts see the list of the bytes. Nothing here takes memory.
#[derive(Clone, Copy)]
pub struct ShortBytes<const N: usize> {
    cells: [u8; N],
    len: usize,
}

impl<const N: usize> Model for ShortBytes<N> {
    ghost use Rattle.std.specs.Prelude.{◌≡◌, ℕ, ◌-◌, ◌≤◌, List, ◌++◌, length, take, drop, replicate};
    ghost use Rattle.std.proofs.Common.{length-take-le};
    ghost use Rattle.pieces.specs.ShortBytes.{refilled, shortened};

    ghost Value = { List ℕ };

    ghost view = { λ b. take b.len b.cells };

    ghost invariant = { λ b. (b.len ≤ N) × (length b.cells ≡ N) × (drop b.len b.cells ≡ replicate (N - b.len) 0) };

    ghost inverse = { λ s. record { cells = s ++ replicate (N - length s) 0; len = length s } };

    ghost inverse_ok = { λ b h i. record {
      cells = refilled N b.len b.cells h.0 h.1 h.2 i;
      len = shortened N b.len b.cells h.0 h.1 i;
    } };
}

impl<const N: usize> ShortBytes<N> {
    /// No bytes.
    pub fn new() -> Self
        ensures none { result ≡ [] }
    {
        ShortBytes {
            cells: [0; N],
            len: 0,
        }
    }

    /// These bytes.
    pub fn from_slice(s: &[u8]) -> Self
        requires { length s.now ≤ N }
        ensures bytes { result ≡ s.now }
    {
        let mut bytes = Self::new();
        bytes.push_all(s);
        bytes
    }

    /// The bytes.
    pub fn as_slice(&self) -> &[u8]
        ensures value { result.now ≡ self.now }
        ensures fits { length result.now ≤ N }
    {
        &self.cells[..self.len]
    }

    /// The number of bytes.
    pub fn len(&self) -> usize
        ensures value { result ≡ length self.now }
        ensures fits { result ≤ N }
    {
        self.len
    }

    /// Appends bytes.
    pub fn push_all(&mut self, s: &[u8])
        requires { length self.old + length s.now ≤ N }
        ensures appended { self.new ≡ self.old ++ s.now }
        ensures length { length self.new ≡ length self.old + length s.now }
    {
        let start = self.len;
        let end = start + s.len();
        let cells = &mut self.cells[..];
        cells[start..end].copy_from_slice(s);
        self.len = end;
    }

    /// Appends the decimal digits of a number, of which there are at most 20.
    pub fn push_decimal(&mut self, n: u64)
        requires { length self.old + length (decimal n) ≤ N }
        ensures appended { self.new ≡ self.old ++ decimal n }
        ensures length { length self.new ≤ length self.old + 20 }
    {
        let mut digits = Buffer::new();
        self.push_all(digits.format(n).as_bytes());
    }
}

impl<const N: usize> PartialEq for ShortBytes<N> {
    ghost eq = { pointwise nat_eq };

    ghost laws = { partial_equiv_from_equiv nat_list_eq_equiv };

    fn eq(&self, other: &Self) -> bool {
        self.as_slice() == other.as_slice()
    }
}

impl<const N: usize> Eq for ShortBytes<N> {
    ghost laws = { nat_list_eq_equiv };
}

impl<const N: usize> Hash for ShortBytes<N> {
    ghost hash_input = { fed.slice fed.u8 };

    ghost respects_eq = { Prim.search (hashing, rules) };

    fn hash<H: Hasher>(&self, state: &mut H) {
        self.as_slice().hash(state);
    }
}

impl<const N: usize> fmt::Debug for ShortBytes<N> {
    fn fmt<W: fmt::Write>(&self, f: &mut fmt::Formatter<W>) -> fmt::Result {
        fmt::Debug::fmt(&self.as_slice(), f)
    }
}
