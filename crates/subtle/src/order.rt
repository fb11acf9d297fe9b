//! Order.
ghost use Rattle.std.specs.Prelude.{◌≡◌, ℤ, pos, int_lt, IsTrue, ◌↔◌};
ghost use Rattle.subtle.specs.Orderings.{ordering_number};
ghost use Rattle.subtle.specs.EqualNumbers.{equal_as_numbers, equal_as_orderings};

use crate::ordering::place_of;
use crate::smear::{smeared_8, smeared_16, smeared_32, smeared_64, smeared_128};
use crate::{Choice, ConstantTimeEq};
use std::cmp::Ordering;

/// Values of which one can be told to be greater.
pub trait ConstantTimeGreater {
    /// The number of a value, by which it is ordered.
    ghost number: { Self → ℤ };

    /// 1 exactly where the number of `self` is greater.
    fn ct_gt(&self, other: &Self) -> Choice
        ensures { result ≡ int_lt (number other.now) (number self.now) };
}

/// Values of which one can be told to be less, and which are equal exactly where their numbers are.
pub trait ConstantTimeLess: ConstantTimeEq + ConstantTimeGreater {
    /// 1 exactly where the number of `self` is less.
    fn ct_lt(&self, other: &Self) -> Choice
        ensures { result ≡ int_lt (Self.number self.now) (Self.number other.now) }
    {
        !self.ct_gt(other) & !self.ct_eq(other)
    }

    /// Equality agrees with order.
    ghost agrees: { (x y : Self) → IsTrue (Self.are_equal x y) ↔ (Self.number x ≡ Self.number y) };
}

impl ConstantTimeGreater for u8 {
    ghost number = { pos };

    fn ct_gt(&self, other: &u8) -> Choice {
        let under = smeared_8(!*self & *other);
        let over = smeared_8(*self & !*other & !under);
        Choice::from_u8(over & 1)
    }
}

impl ConstantTimeLess for u8 {
    ghost agrees = { equal_as_numbers };
}

impl ConstantTimeGreater for u16 {
    ghost number = { pos };

    fn ct_gt(&self, other: &u16) -> Choice {
        let under = smeared_16(!*self & *other);
        let over = smeared_16(*self & !*other & !under);
        Choice::from_u8((over & 1) as u8)
    }
}

impl ConstantTimeLess for u16 {
    ghost agrees = { equal_as_numbers };
}

impl ConstantTimeGreater for u32 {
    ghost number = { pos };

    fn ct_gt(&self, other: &u32) -> Choice {
        let under = smeared_32(!*self & *other);
        let over = smeared_32(*self & !*other & !under);
        Choice::from_u8((over & 1) as u8)
    }
}

impl ConstantTimeLess for u32 {
    ghost agrees = { equal_as_numbers };
}

impl ConstantTimeGreater for u64 {
    ghost number = { pos };

    fn ct_gt(&self, other: &u64) -> Choice {
        let under = smeared_64(!*self & *other);
        let over = smeared_64(*self & !*other & !under);
        Choice::from_u8((over & 1) as u8)
    }
}

impl ConstantTimeLess for u64 {
    ghost agrees = { equal_as_numbers };
}

impl ConstantTimeGreater for u128 {
    ghost number = { pos };

    fn ct_gt(&self, other: &u128) -> Choice {
        let under = smeared_128(!*self & *other);
        let over = smeared_128(*self & !*other & !under);
        Choice::from_u8((over & 1) as u8)
    }
}

impl ConstantTimeLess for u128 {
    ghost agrees = { equal_as_numbers };
}

impl ConstantTimeGreater for Ordering {
    ghost number = { ordering_number };

    #[tactic(auto, using(crate::proofs::Places::places_ordered))]
    fn ct_gt(&self, other: &Ordering) -> Choice {
        place_of(*self).ct_gt(&place_of(*other))
    }
}

impl ConstantTimeLess for Ordering {
    ghost agrees = { equal_as_orderings };
}
