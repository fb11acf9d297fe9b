//! Negation by a choice.
ghost use Rattle.std.specs.Prelude.{◌≡◌, if◌then◌else◌};
ghost use Rattle.std.specs.Int.{int_wrapping_neg, w8, w16, w32, w64, w128};

use crate::{Choice, ConditionallySelectable};

/// Values that can be negated by a choice: the signed integers.
pub trait ConditionallyNegatable {
    /// The negation, which wraps: the least value negates to itself.
    ghost negation: { Self → Self };

    /// Negates the value for 1, and leaves it for 0.
    fn conditional_negate(&mut self, choice: Choice)
        ensures { self.new ≡ (if choice then negation self.old else self.old) };
}

impl ConditionallyNegatable for i8 {
    ghost negation = { int_wrapping_neg w8 };

    fn conditional_negate(&mut self, choice: Choice) {
        *self = i8::conditional_select(self, &self.wrapping_neg(), choice);
    }
}

impl ConditionallyNegatable for i16 {
    ghost negation = { int_wrapping_neg w16 };

    fn conditional_negate(&mut self, choice: Choice) {
        *self = i16::conditional_select(self, &self.wrapping_neg(), choice);
    }
}

impl ConditionallyNegatable for i32 {
    ghost negation = { int_wrapping_neg w32 };

    fn conditional_negate(&mut self, choice: Choice) {
        *self = i32::conditional_select(self, &self.wrapping_neg(), choice);
    }
}

impl ConditionallyNegatable for i64 {
    ghost negation = { int_wrapping_neg w64 };

    fn conditional_negate(&mut self, choice: Choice) {
        *self = i64::conditional_select(self, &self.wrapping_neg(), choice);
    }
}

impl ConditionallyNegatable for i128 {
    ghost negation = { int_wrapping_neg w128 };

    fn conditional_negate(&mut self, choice: Choice) {
        *self = i128::conditional_select(self, &self.wrapping_neg(), choice);
    }
}
