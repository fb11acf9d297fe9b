//! A value that is read through a call alone.
ghost use Rattle.std.specs.Prelude.{◌≡◌};

use std::alloc::AllocError;
use std::marker::Model;

/// Holds a value, which `get` gives back. Nothing is promised on what an optimiser sees of it.
#[derive(Debug)]
pub struct BlackBox<T: Copy>(T);

impl<T: Copy> Model for BlackBox<T> {
    ghost Value = { T };

    ghost view = { λ b. b.0 };

    ghost inverse = { λ v. record { 0 = v } };
}

impl<T: Copy> BlackBox<T> {
    /// Holds `value`.
    pub fn new(value: T) -> Self
        ensures { result ≡ value }
    {
        BlackBox(value)
    }

    /// Gives the value back.
    pub fn get(self) -> T
        ensures { result ≡ self }
    {
        self.0
    }
}

impl<T: Copy> Clone for BlackBox<T> {
    ghost use Rattle.std.specs.Prelude.{⊤};

    ghost is_clone = { λ a b. b ≡ a };

    ghost is_infallible = { λ _. ⊤ };

    fn clone(&self) -> Result<Self, AllocError> {
        Ok(*self)
    }
}

impl<T: Copy> Copy for BlackBox<T> {}
