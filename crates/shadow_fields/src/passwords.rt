//! The table of passwords.

ghost use Rattle.std.specs.Prelude.{◌≡◌, [], length, OnErr, OnOk};
ghost use Rattle.std.specs.Option.{option_copied};
ghost use Rattle.shadow_fields.specs.Passwords.{password_in, with_password};
ghost use Rattle.shadow_fields.specs.Wanted.{is_in};

use indexmap::IndexMap;
use std::alloc::{AllocError, Global};
use std::hash::RandomState;
use std::marker::Model;

/// Users with a password each, in the order in which the users came. Contracts see the list of them.
#[derive(Drop)]
pub struct Passwords {
    map: IndexMap<Vec<u8>, Vec<u8>, RandomState>,
    alloc: Global,
}

impl Model for Passwords {
    ghost use Rattle.std.specs.Prelude.{ℕ, List};
    ghost use Rattle.shadow_fields.specs.Passwords.{rows_of};

    ghost Value = { List (List ℕ × List ℕ) };

    ghost view = { λ p. rows_of p.map.entries };
}

impl Passwords {
    /// No users. The keys of the hash are random, as others choose the users' names.
    pub fn new(alloc: Global, keys: RandomState) -> Passwords
        ensures empty { result ≡ [] }
    {
        Passwords {
            map: IndexMap::with_hasher(alloc, keys),
            alloc,
        }
    }

    /// How many users there are.
    pub fn len(&self) -> usize
        ensures len { result ≡ length self.now }
    {
        self.map.len()
    }

    /// The user's password.
    pub fn get(&self, user: &[u8]) -> Option<&[u8]>
        ensures password { option_copied result ≡ password_in self.now user.now }
    {
        match self.map.get(user) {
            Some(password) => Some(password.as_slice()),
            None => None,
        }
    }

    /// Whether the user is in the table.
    pub fn has(&self, user: &[u8]) -> bool
        ensures has { result ≡ is_in self.now user.now }
    {
        self.get(user).is_some()
    }

    // Makes this the user's password. A new user goes last.
    fn insert(&mut self, user: Vec<u8>, password: Vec<u8>) -> Result<(), AllocError>
        ensures put { OnOk result (self.new ≡ with_password self.old user.items password.items) }
        ensures err { OnErr result (self.new ≡ self.old) }
    {
        match self.map.insert(user, password) {
            Ok(_) => Ok(()),
            Err(_) => Err(AllocError),
        }
    }

    /// Makes a copy of this the user's password. A new user goes last.
    pub fn put(&mut self, user: &[u8], password: &[u8]) -> Result<(), AllocError>
        ensures put { OnOk result (self.new ≡ with_password self.old user.now password.now) }
        ensures err { OnErr result (self.new ≡ self.old) }
    {
        let Ok(user) = Vec::from_slice(self.alloc, user) else {
            return Err(AllocError);
        };
        let Ok(password) = Vec::from_slice(self.alloc, password) else {
            return Err(AllocError);
        };
        self.insert(user, password)
    }
}
