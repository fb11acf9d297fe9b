//! An option whose presence is a choice.
ghost use Rattle.std.specs.Prelude.{◌≡◌, Option, Some, None, IfSome, IsSome, is_some, is_none, MatchOption, unwrap_or, if◌then◌else◌};
ghost use Rattle.std.specs.Cmp.{on_equiv};
ghost use Rattle.std.specs.Cmp.Lexicographic.{options_equiv};
ghost use Rattle.std.specs.Option.{option_eq};
ghost use Rattle.subtle.specs.Options.{option_of, MapsTo, ContinuesTo, FallsBackTo, IsCalledOn};

use crate::{Choice, ConditionallySelectable, ConstantTimeEq};

/// A value that is there where a choice is 1. No call gives a value stored under the choice 0; `Debug` alone prints it.
#[derive(Clone, Copy, Debug, Drop)]
pub struct CtOption<T> {
    value: T,
    present: Choice,
}

impl<T> CtOption<T> {
    /// `value` for 1, and none for 0.
    pub fn new(value: T, is_some: Choice) -> CtOption<T>
        ensures { option_of result ≡ (if is_some then Some value else None) }
    {
        CtOption {
            value,
            present: is_some,
        }
    }

    /// The value, which the caller knows to be there.
    pub fn unwrap(self) -> T
        requires { IsSome (option_of self) }
        ensures { option_of self ≡ Some result }
    {
        let CtOption { value, present: _ } = self;
        value
    }

    /// The value, which the caller knows to be there. The message is never shown.
    pub fn expect(self, msg: &str) -> T
        requires { IsSome (option_of self) }
        ensures { option_of self ≡ Some result }
    {
        let _ = msg;
        self.unwrap()
    }

    /// 1 exactly where there is a value.
    pub fn is_some(&self) -> Choice
        ensures { result ≡ is_some (option_of self.now) }
    {
        self.present
    }

    /// 1 exactly where there is no value.
    pub fn is_none(&self) -> Choice
        ensures { result ≡ is_none (option_of self.now) }
    {
        !self.present
    }

    /// The value, or `def` where there is none.
    pub fn unwrap_or(self, def: T) -> T
    where
        T: ConditionallySelectable,
        ensures { result ≡ unwrap_or (option_of self) def }
    {
        T::conditional_select(&def, &self.value, self.present)
    }

    /// The value, or what `f` answers where there is none. `f` is called in both cases.
    pub fn unwrap_or_else<F: FnOnce() -> T>(self, f: F) -> T
    where
        T: ConditionallySelectable,
        requires { F.pre f }
        ensures answer { MatchOption (option_of self) (F.post f result) (λ v. result ≡ v) }
        ensures called { (v : T) × F.post f v }
    {
        T::conditional_select(&f(), &self.value, self.present)
    }

    /// What `f` answers for the value, or none where there is none. `f` is called in both cases, on
    /// `T::default()` where there is no value.
    pub fn map<U, F: FnOnce(T) -> U>(self, f: F) -> CtOption<U>
    where
        T: Default + ConditionallySelectable,
        requires present { IfSome (option_of self) (λ v. F.pre f v) }
        requires absent { option_of self ≡ None → (d : T) → T.is_default d → F.pre f d }
        ensures answer { MapsTo (option_of self) (F.post f) (option_of result) }
        ensures called { option_of self ≡ None → IsCalledOn T.is_default (F.post f) }
    {
        let input = T::conditional_select(&T::default(), &self.value, self.present);
        CtOption::new(f(input), self.present)
    }

    /// The option that `f` answers for the value, or none where there is none. `f` is called in
    /// both cases, on `T::default()` where there is no value.
    pub fn and_then<U, F: FnOnce(T) -> CtOption<U>>(self, f: F) -> CtOption<U>
    where
        T: Default + ConditionallySelectable,
        requires present { IfSome (option_of self) (λ v. F.pre f v) }
        requires absent { option_of self ≡ None → (d : T) → T.is_default d → F.pre f d }
        ensures answer { ContinuesTo (option_of self) (F.post f) (option_of result) }
        ensures called { option_of self ≡ None → IsCalledOn T.is_default (F.post f) }
    {
        let input = T::conditional_select(&T::default(), &self.value, self.present);
        let mut answer = f(input);
        answer.present &= self.present;
        answer
    }

    /// This option where it has a value, or else the one that `f` answers. `f` is called in both
    /// cases.
    pub fn or_else<F: FnOnce() -> CtOption<T>>(self, f: F) -> CtOption<T>
    where
        T: ConditionallySelectable,
        requires { F.pre f }
        ensures answer { FallsBackTo (option_of self) (F.post f) (option_of result) }
        ensures called { (o : CtOption T) × F.post f o }
    {
        let other = f();
        CtOption::conditional_select(&other, &self, self.present)
    }

    /// The option as a plain one. What follows may branch on it.
    pub fn into_option(self) -> Option<T>
    where
        T: Drop,
        ensures { result ≡ option_of self }
    {
        let CtOption { value, present } = self;
        if bool::from(present) {
            Some(value)
        } else {
            None
        }
    }
}

/// The option as a plain one, as `into_option` gives it.
impl<T: Drop> From<CtOption<T>> for Option<T> {
    ghost from_gives = { λ c r. r ≡ option_of c };

    fn from(source: CtOption<T>) -> Option<T> {
        source.into_option()
    }
}

impl<T: ConditionallySelectable> ConditionallySelectable for CtOption<T> {
    fn conditional_select(a: &CtOption<T>, b: &CtOption<T>, choice: Choice) -> CtOption<T> {
        CtOption {
            value: T::conditional_select(&a.value, &b.value, choice),
            present: Choice::conditional_select(&a.present, &b.present, choice),
        }
    }
}

/// Two options are equal where both have equal values, or neither has one.
impl<T: ConstantTimeEq> ConstantTimeEq for CtOption<T> {
    ghost are_equal = { λ x y. option_eq T.are_equal (option_of x) (option_of y) };

    ghost equivalence = { on_equiv option_of (options_equiv T.equivalence) };

    fn ct_eq(&self, other: &CtOption<T>) -> Choice {
        let both = self.present & other.present & self.value.ct_eq(&other.value);
        let neither = !self.present & !other.present;
        both | neither
    }
}
