//! The names of users.

ghost use Rattle.std.specs.Prelude.{◌≡◌, ◌≤◌, MatchOption, false, length, true};
ghost use Rattle.pw_file.specs.Limits.{name_max};
ghost use Rattle.std.specs.Cmp.{partial_equiv_from_equiv};
ghost use Rattle.std.specs.Cmp.Lexicographic.{nat_list_eq_equiv};
ghost use Rattle.std.specs.Cmp.Rules.{hashing};
ghost use Rattle.std.specs.Hash as fed;
ghost use Rattle.std.proofs.Common.{rules};
ghost use Rattle.stored_check.specs.Verdict.{same_text};

use crate::Policy;
use pieces::short_bytes::ShortBytes;
use std::hash::{Hash, Hasher};
use std::marker::{Model, PhantomData};
use std::{fmt, str};

/// The name of a user, as the policy has it, of at most 64 bytes. Contracts see it as the list of its bytes.
#[derive(Drop)]
pub struct UserName<P: Policy> {
    text: ShortBytes<64>,
    policy: PhantomData<P>,
}

impl<P: Policy> Model for UserName<P> {
    ghost use Rattle.std.specs.Prelude.{◌≡◌, ℕ, List, true};

    ghost Value = { List ℕ };

    ghost view = { λ u. u.text };

    ghost invariant = { λ u. P.policy.is_name u.text ≡ true };
}

impl<P: Policy> UserName<P> {
    /// The name that the text is, if it is one.
    pub fn new(name: &str) -> Option<UserName<P>>
        ensures name { MatchOption result (P.policy.is_name name.now ≡ false)
            (λ user. (user ≡ name.now) × (P.policy.is_name name.now ≡ true)) }
    {
        if !P::is_name(name) {
            return None;
        }
        Some(UserName {
            text: ShortBytes::from_slice(name.as_bytes()),
            policy: PhantomData,
        })
    }

    /// The same name once more. It takes no memory.
    pub fn copied(&self) -> UserName<P>
        ensures same { result ≡ self.now }
    {
        UserName {
            text: self.text,
            policy: PhantomData,
        }
    }

    /// The bytes of the text.
    pub fn as_bytes(&self) -> &[u8]
        ensures bytes { result.now ≡ self.now }
        ensures short { length result.now ≤ name_max }
    {
        self.text.as_slice()
    }

    /// The text.
    pub fn as_str(&self) -> &str
        ensures text { result.now ≡ self.now }
        ensures name { P.policy.is_name result.now ≡ true }
    {
        unsafe { str::from_utf8_unchecked(self.text.as_slice()) }
    }
}

impl<P: Policy> PartialEq for UserName<P> {
    ghost eq = { same_text };

    ghost laws = { partial_equiv_from_equiv nat_list_eq_equiv };

    fn eq(&self, other: &Self) -> bool {
        self.text == other.text
    }
}

impl<P: Policy> Eq for UserName<P> {
    ghost laws = { nat_list_eq_equiv };
}

impl<P: Policy> Hash for UserName<P> {
    ghost hash_input = { fed.slice fed.u8 };

    ghost respects_eq = { Prim.search (hashing, rules) };

    fn hash<H: Hasher>(&self, state: &mut H) {
        self.text.hash(state);
    }
}

impl<P: Policy> fmt::Debug for UserName<P> {
    fn fmt<W: fmt::Write>(&self, f: &mut fmt::Formatter<W>) -> fmt::Result {
        fmt::Debug::fmt(self.as_str(), f)
    }
}
