//! Selection by a choice.
ghost use Rattle.std.specs.Prelude.{◌≡◌, if◌then◌else◌};

use crate::Choice;
use crate::ordering::{ordering_at, place_of};
use std::cmp::Ordering;

/// Values one of which can be selected by a choice.
pub trait ConditionallySelectable: Copy {
    /// `a` for 0, and `b` for 1.
    fn conditional_select(a: &Self, b: &Self, choice: Choice) -> Self
        ensures { result ≡ (if choice then b.now else a.now) };

    /// Takes the value of `other` for 1, and stays as it is for 0.
    fn conditional_assign(&mut self, other: &Self, choice: Choice)
        ensures { self.new ≡ (if choice then other.now else self.old) }
    {
        *self = Self::conditional_select(self, other, choice);
    }

    /// Exchanges the two values for 1, and leaves both for 0.
    fn conditional_swap(a: &mut Self, b: &mut Self, choice: Choice)
        ensures first { a.new ≡ (if choice then b.old else a.old) }
        ensures second { b.new ≡ (if choice then a.old else b.old) }
    {
        let before: Self = *a;
        a.conditional_assign(b, choice);
        b.conditional_assign(&before, choice);
    }
}

impl ConditionallySelectable for u8 {
    fn conditional_select(a: &u8, b: &u8, choice: Choice) -> u8 {
        let mask = 0u8.wrapping_sub(choice.unwrap_u8());
        *a ^ (mask & (*a ^ *b))
    }
}

impl ConditionallySelectable for u16 {
    fn conditional_select(a: &u16, b: &u16, choice: Choice) -> u16 {
        let mask = 0u16.wrapping_sub(u16::from(choice.unwrap_u8()));
        *a ^ (mask & (*a ^ *b))
    }
}

impl ConditionallySelectable for u32 {
    fn conditional_select(a: &u32, b: &u32, choice: Choice) -> u32 {
        let mask = 0u32.wrapping_sub(u32::from(choice.unwrap_u8()));
        *a ^ (mask & (*a ^ *b))
    }
}

impl ConditionallySelectable for u64 {
    fn conditional_select(a: &u64, b: &u64, choice: Choice) -> u64 {
        let mask = 0u64.wrapping_sub(u64::from(choice.unwrap_u8()));
        *a ^ (mask & (*a ^ *b))
    }
}

impl ConditionallySelectable for u128 {
    fn conditional_select(a: &u128, b: &u128, choice: Choice) -> u128 {
        let mask = 0u128.wrapping_sub(u128::from(choice.unwrap_u8()));
        *a ^ (mask & (*a ^ *b))
    }
}

impl ConditionallySelectable for i8 {
    fn conditional_select(a: &i8, b: &i8, choice: Choice) -> i8 {
        u8::conditional_select(&a.cast_unsigned(), &b.cast_unsigned(), choice).cast_signed()
    }
}

impl ConditionallySelectable for i16 {
    fn conditional_select(a: &i16, b: &i16, choice: Choice) -> i16 {
        u16::conditional_select(&a.cast_unsigned(), &b.cast_unsigned(), choice).cast_signed()
    }
}

impl ConditionallySelectable for i32 {
    fn conditional_select(a: &i32, b: &i32, choice: Choice) -> i32 {
        u32::conditional_select(&a.cast_unsigned(), &b.cast_unsigned(), choice).cast_signed()
    }
}

impl ConditionallySelectable for i64 {
    fn conditional_select(a: &i64, b: &i64, choice: Choice) -> i64 {
        u64::conditional_select(&a.cast_unsigned(), &b.cast_unsigned(), choice).cast_signed()
    }
}

impl ConditionallySelectable for i128 {
    fn conditional_select(a: &i128, b: &i128, choice: Choice) -> i128 {
        u128::conditional_select(&a.cast_unsigned(), &b.cast_unsigned(), choice).cast_signed()
    }
}

impl ConditionallySelectable for Ordering {
    fn conditional_select(a: &Ordering, b: &Ordering, choice: Choice) -> Ordering {
        ordering_at(u8::conditional_select(&place_of(*a), &place_of(*b), choice))
    }
}

impl ConditionallySelectable for Choice {
    fn conditional_select(a: &Choice, b: &Choice, choice: Choice) -> Choice {
        *a ^ (choice & (*a ^ *b))
    }
}

impl<T: ConditionallySelectable, const N: usize> ConditionallySelectable for [T; N] {
    fn conditional_select(a: &[T; N], b: &[T; N], choice: Choice) -> [T; N] {
        let mut selected = *a;
        for i in 0..N {
            selected[i] = T::conditional_select(&a[i], &b[i], choice);
        }
        selected
    }
}
