//! Laws that hold for every type of the traits, and the law on bit smearing. Those that answer
//! nothing say by their contract alone what is so.
ghost use Rattle.std.specs.Prelude.{◌≡◌, ◌<◌, ◌^◌, ◌↔◌, int_lt, nat_lt, IsTrue, if◌then◌else◌};
ghost use Rattle.std.specs.Bool.{OnTrue, OnFalse};
ghost use Rattle.subtle.specs.Comparing.{IsExactlyOne};
ghost use Rattle.subtle.specs.Smearing.{IsWidth, greater_bit};

use crate::{Choice, ConditionallySelectable, ConstantTimeLess};

/// Equality agrees with order: two values are equal exactly where their numbers are.
pub fn equality_agrees_with_order<T: ConstantTimeLess>(a: &T, b: &T)
    ensures { IsTrue (T.are_equal a.now b.now) ↔ (T.number a.now ≡ T.number b.now) }
{}

/// The answers of `ct_lt`, `ct_eq` and `ct_gt`, of which exactly one is 1.
pub fn exactly_one_holds<T: ConstantTimeLess>(a: &T, b: &T) -> (Choice, Choice, Choice)
    ensures less { result.0 ≡ int_lt (T.number a.now) (T.number b.now) }
    ensures equal { result.1 ≡ T.are_equal a.now b.now }
    ensures greater { result.2 ≡ int_lt (T.number b.now) (T.number a.now) }
    ensures one { IsExactlyOne result.0 result.1 result.2 }
{
    (a.ct_lt(b), a.ct_eq(b), a.ct_gt(b))
}

/// `conditional_swap` exchanges both values for 1, and neither for 0.
pub fn swap_exchanges_both<T: ConditionallySelectable>(a: &mut T, b: &mut T, choice: Choice)
    ensures exchanged { OnTrue choice ((a.new ≡ b.old) × (b.new ≡ a.old)) }
    ensures kept { OnFalse choice ((a.new ≡ a.old) × (b.new ≡ b.old)) }
{
    T::conditional_swap(a, b, choice);
}

/// The steps of bit smearing at a width of 8, 16, 32, 64 or 128 bits give 1 exactly where `a` is
/// greater than `b`. The bodies of `ct_gt` make these steps.
pub fn gt_steps(width: u32, a: u128, b: u128)
    requires width { IsWidth width }
    requires a_fits { a < 2 ^ width }
    requires b_fits { b < 2 ^ width }
    ensures { greater_bit width a b ≡ (if nat_lt b a then 1 else 0) }
{}
