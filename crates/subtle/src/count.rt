//! Equality of bytes, with a count of the comparisons.
ghost use Rattle.std.specs.Prelude.{◌≡◌, ◌==◌, ◌+◌, ◌<◌, ◌≤◌, ◌^◌, ℕ, Bool, length, if◌then◌else◌};
ghost use Rattle.std.specs.Cmp.Lexicographic.{pointwise};

use crate::{Choice, ConstantTimeEq};
use std::marker::Model;

/// A comparison of two bytes that counts how often it is made.
pub trait SameByte {
    /// Whether two numbers are related. It belongs to the type, and is the same for all its values.
    ghost related: { ℕ → ℕ → Bool };

    /// How many comparisons were made.
    ghost count: { Self → ℕ };

    /// Whether `a` and `b` are related. The count rises by one.
    fn same(&mut self, a: u8, b: u8) -> Choice
        requires { count self.old < 2 ^ 63 }
        ensures answer { result ≡ related a b }
        ensures counted { count self.new ≡ count self.old + 1 };
}

/// Counts comparisons by equality. Contracts see it as its count.
#[derive(Clone, Debug, Drop)]
pub struct Counting {
    comparisons: u64,
}

impl Model for Counting {
    ghost Value = { ℕ };

    ghost view = { λ c. c.comparisons };

    ghost inverse = { λ n. record { comparisons = n } };
}

impl Counting {
    /// A count of 0.
    pub fn new() -> Counting
        ensures { result ≡ 0 }
    {
        Counting { comparisons: 0 }
    }

    /// How many comparisons were made.
    pub fn count(&self) -> u64
        ensures { result ≡ self.now }
    {
        self.comparisons
    }
}

impl SameByte for Counting {
    ghost related = { ◌==◌ };

    ghost count = { λ c. c };

    fn same(&mut self, a: u8, b: u8) -> Choice {
        self.comparisons += 1;
        a.ct_eq(&b)
    }
}

/// 1 exactly where the two lengths agree and all pairs are related. Lists of one length cost a
/// comparison for each pair, whatever the answer; lists of different lengths cost none.
pub fn eq_with<C: SameByte>(c: &mut C, a: &[u8], b: &[u8]) -> Choice
    requires { C.count c.old + length a.now ≤ 2 ^ 63 }
    ensures answer { result ≡ pointwise C.related a.now b.now }
    ensures counted { C.count c.new ≡ C.count c.old
        + (if length a.now == length b.now then length a.now else 0) }
{
    if a.len() != b.len() {
        return Choice::from_u8(0);
    }
    let mut all = Choice::from_u8(1);
    for i in 0..a.len() {
        all &= c.same(a[i], b[i]);
    }
    all
}
