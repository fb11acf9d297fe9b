//! Equality.
ghost use Rattle.std.specs.Prelude.{◌≡◌, ◌==◌, not, Bool};
ghost use Rattle.std.specs.Bool.{beq};
ghost use Rattle.std.specs.Cmp.{IsEquivalence, nat_eq_equiv, int_eq_equiv, bool_eq_equiv, on_equiv};
ghost use Rattle.std.specs.Cmp.Lexicographic.{pointwise};
ghost use Rattle.std.specs.Ordering.{int_eq, on};
ghost use Rattle.subtle.specs.Orderings.{ordering_number};

use crate::Choice;
use crate::ordering::place_of;
use std::cmp::Ordering;

/// Values that can be tested for equality.
pub trait ConstantTimeEq {
    /// Whether two values are equal.
    ghost are_equal: { Self → Self → Bool };

    /// 1 exactly where the two values are equal.
    fn ct_eq(&self, other: &Self) -> Choice
        ensures { result ≡ are_equal self.now other.now };

    /// 1 exactly where the two values are not equal.
    fn ct_ne(&self, other: &Self) -> Choice
        ensures { result ≡ not (are_equal self.now other.now) }
    {
        !self.ct_eq(other)
    }

    /// Equality is an equivalence.
    ghost equivalence: { IsEquivalence are_equal };
}

impl ConstantTimeEq for u8 {
    ghost are_equal = { ◌==◌ };

    ghost equivalence = { nat_eq_equiv };

    fn ct_eq(&self, other: &u8) -> Choice {
        let differing = *self ^ *other;
        let sign = (differing | 0u8.wrapping_sub(differing)) >> 7;
        Choice::from_u8(sign ^ 1)
    }
}

impl ConstantTimeEq for u16 {
    ghost are_equal = { ◌==◌ };

    ghost equivalence = { nat_eq_equiv };

    fn ct_eq(&self, other: &u16) -> Choice {
        let differing = *self ^ *other;
        let sign = (differing | 0u16.wrapping_sub(differing)) >> 15;
        Choice::from_u8((sign ^ 1) as u8)
    }
}

impl ConstantTimeEq for u32 {
    ghost are_equal = { ◌==◌ };

    ghost equivalence = { nat_eq_equiv };

    fn ct_eq(&self, other: &u32) -> Choice {
        let differing = *self ^ *other;
        let sign = (differing | 0u32.wrapping_sub(differing)) >> 31;
        Choice::from_u8((sign ^ 1) as u8)
    }
}

impl ConstantTimeEq for u64 {
    ghost are_equal = { ◌==◌ };

    ghost equivalence = { nat_eq_equiv };

    fn ct_eq(&self, other: &u64) -> Choice {
        let differing = *self ^ *other;
        let sign = (differing | 0u64.wrapping_sub(differing)) >> 63;
        Choice::from_u8((sign ^ 1) as u8)
    }
}

impl ConstantTimeEq for u128 {
    ghost are_equal = { ◌==◌ };

    ghost equivalence = { nat_eq_equiv };

    fn ct_eq(&self, other: &u128) -> Choice {
        let differing = *self ^ *other;
        let sign = (differing | 0u128.wrapping_sub(differing)) >> 127;
        Choice::from_u8((sign ^ 1) as u8)
    }
}

impl ConstantTimeEq for usize {
    ghost are_equal = { ◌==◌ };

    ghost equivalence = { nat_eq_equiv };

    fn ct_eq(&self, other: &usize) -> Choice {
        let differing = *self ^ *other;
        let sign = (differing | 0usize.wrapping_sub(differing)) >> 63;
        Choice::from_u8((sign ^ 1) as u8)
    }
}

impl ConstantTimeEq for i8 {
    ghost are_equal = { int_eq };

    ghost equivalence = { int_eq_equiv };

    fn ct_eq(&self, other: &i8) -> Choice {
        self.cast_unsigned().ct_eq(&other.cast_unsigned())
    }
}

impl ConstantTimeEq for i16 {
    ghost are_equal = { int_eq };

    ghost equivalence = { int_eq_equiv };

    fn ct_eq(&self, other: &i16) -> Choice {
        self.cast_unsigned().ct_eq(&other.cast_unsigned())
    }
}

impl ConstantTimeEq for i32 {
    ghost are_equal = { int_eq };

    ghost equivalence = { int_eq_equiv };

    fn ct_eq(&self, other: &i32) -> Choice {
        self.cast_unsigned().ct_eq(&other.cast_unsigned())
    }
}

impl ConstantTimeEq for i64 {
    ghost are_equal = { int_eq };

    ghost equivalence = { int_eq_equiv };

    fn ct_eq(&self, other: &i64) -> Choice {
        self.cast_unsigned().ct_eq(&other.cast_unsigned())
    }
}

impl ConstantTimeEq for i128 {
    ghost are_equal = { int_eq };

    ghost equivalence = { int_eq_equiv };

    fn ct_eq(&self, other: &i128) -> Choice {
        self.cast_unsigned().ct_eq(&other.cast_unsigned())
    }
}

impl ConstantTimeEq for isize {
    ghost are_equal = { int_eq };

    ghost equivalence = { int_eq_equiv };

    fn ct_eq(&self, other: &isize) -> Choice {
        self.cast_unsigned().ct_eq(&other.cast_unsigned())
    }
}

impl ConstantTimeEq for Choice {
    ghost are_equal = { beq };

    ghost equivalence = { bool_eq_equiv };

    #[tactic(auto, using(crate::proofs::BitLemmas::not_not))]
    fn ct_eq(&self, other: &Choice) -> Choice {
        !(*self ^ *other)
    }
}

impl ConstantTimeEq for Ordering {
    ghost are_equal = { on ordering_number int_eq };

    ghost equivalence = { on_equiv ordering_number int_eq_equiv };

    #[tactic(auto, using(crate::proofs::Places::places_equal))]
    fn ct_eq(&self, other: &Ordering) -> Choice {
        place_of(*self).ct_eq(&place_of(*other))
    }
}

/// 1 exactly where the lengths and all values agree. It stands for the implementation of
/// `ConstantTimeEq` on slices in the Rust crate, and branches on the lengths alone.
pub fn ct_eq_slices<T: ConstantTimeEq>(a: &[T], b: &[T]) -> Choice
    ensures { result ≡ pointwise T.are_equal a.now b.now }
{
    if a.len() != b.len() {
        return Choice::from_u8(0);
    }
    let mut all = Choice::from_u8(1);
    for i in 0..a.len() {
        all &= a[i].ct_eq(&b[i]);
    }
    all
}
