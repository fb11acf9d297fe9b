//! One bit, the answer of a comparison.
ghost use Rattle.std.specs.Prelude.{◌≡◌, ◌≤◌, ◌==◌, ◌&&◌, ◌||◌, not, if◌then◌else◌};
ghost use Rattle.std.specs.Bool.{beq};

use std::marker::Model;
use std::ops::{BitAnd, BitAndAssign, BitOr, BitOrAssign, BitXor, BitXorAssign, Not};

/// The answer of a comparison: 1 for yes, 0 for no. Contracts see it as a truth value.
///
/// Its operators are the operations on one bit; none of them short-circuits.
#[derive(Clone, Copy, Debug)]
pub struct Choice(u8);

impl Model for Choice {
    ghost use Rattle.std.specs.Prelude.{Bool, ◌==◌, ◌≤◌, if◌then◌else◌};
    ghost use Rattle.subtle.specs.Bits.{same_bit};

    ghost Value = { Bool };

    ghost view = { λ c. c.0 == 1 };

    ghost invariant = { λ c. c.0 ≤ 1 };

    ghost inverse = { λ b. record { 0 = if b then 1 else 0 } };

    ghost inverse_ok = { same_bit };
}

impl Choice {
    /// The choice whose number is `n`, which is 0 or 1. It stands for `From<u8>` of the Rust crate.
    pub fn from_u8(n: u8) -> Choice
        requires { n ≤ 1 }
        ensures { result ≡ (n == 1) }
    {
        Choice(n)
    }

    /// The number of the choice, 0 or 1.
    pub fn unwrap_u8(&self) -> u8
        ensures { result ≡ (if self.now then 1 else 0) }
    {
        self.0
    }
}

/// True for 1. What follows may branch on the answer.
impl From<Choice> for bool {
    ghost from_gives = { λ c r. r ≡ c };

    fn from(choice: Choice) -> bool {
        choice.0 != 0
    }
}

impl BitAnd for Choice {
    type Output = Choice;

    ghost bitand_gives = { λ x y r. r ≡ (x && y) };

    fn bitand(self, rhs: Choice) -> Choice {
        Choice(self.0 & rhs.0)
    }
}

impl BitOr for Choice {
    type Output = Choice;

    ghost bitor_gives = { λ x y r. r ≡ (x || y) };

    fn bitor(self, rhs: Choice) -> Choice {
        Choice(self.0 | rhs.0)
    }
}

impl BitXor for Choice {
    type Output = Choice;

    ghost bitxor_gives = { λ x y r. r ≡ not (beq x y) };

    #[tactic(auto, using(crate::proofs::BitLemmas::bit_xor_differs))]
    fn bitxor(self, rhs: Choice) -> Choice {
        Choice(self.0 ^ rhs.0)
    }
}

impl Not for Choice {
    type Output = Choice;

    ghost not_gives = { λ x r. r ≡ not x };

    #[tactic(auto, using(crate::proofs::BitLemmas::bit_xor_one))]
    fn not(self) -> Choice {
        Choice(self.0 ^ 1)
    }
}

impl BitAndAssign for Choice {
    ghost bitand_assign_gives = { λ x y r. r ≡ (x && y) };

    fn bitand_assign(&mut self, rhs: Choice) {
        *self = *self & rhs;
    }
}

impl BitOrAssign for Choice {
    ghost bitor_assign_gives = { λ x y r. r ≡ (x || y) };

    fn bitor_assign(&mut self, rhs: Choice) {
        *self = *self | rhs;
    }
}

impl BitXorAssign for Choice {
    ghost bitxor_assign_gives = { λ x y r. r ≡ not (beq x y) };

    fn bitxor_assign(&mut self, rhs: Choice) {
        *self = *self ^ rhs;
    }
}
