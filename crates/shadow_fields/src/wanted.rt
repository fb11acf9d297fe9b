//! A table of the passwords of those users alone who are wanted.

ghost use Rattle.std.specs.Prelude.{◌≡◌, ◌≢◌, ◌≤◌, ◌^◌, [], false, true, OnErr, OnOk, if◌then◌else◌};
ghost use Rattle.line_program.specs.Outcome.{RunTold};
ghost use Rattle.shadow_fields.specs.Passwords.{with_password};
ghost use Rattle.shadow_fields.specs.Wanted.{LoadedWanted, is_in};

use crate::cut::cut_user;
use crate::passwords::Passwords;
use line_io::{OutputBuffer, Sink, Source};
use line_program::{Responder, run_state_lines};
use std::alloc::AllocError;

/// A table that takes the password of each line whose user is in another table, and writes nothing.
#[derive(Drop)]
pub struct LoadingWanted {
    pub passwords: Passwords,
    pub users: Passwords,
}

impl LoadingWanted {
    // Takes the password of a user who is wanted.
    fn take(&mut self, user: &[u8], password: &[u8]) -> Result<(), AllocError>
        ensures taken { OnOk result (self.new.passwords
            ≡ (if is_in self.old.users user.now then with_password self.old.passwords user.now password.now else self.old.passwords)) }
        ensures wanted { OnErr result (is_in self.old.users user.now ≡ true) }
        ensures unchanged { OnErr result (self.new ≡ self.old) }
        ensures same { self.new.users ≡ self.old.users }
    {
        if self.users.has(user) {
            self.passwords.put(user, password)
        } else {
            Ok(())
        }
    }
}

impl Responder for LoadingWanted {
    ghost use Rattle.shadow_fields.specs.WantedRules.{loading_wanted_rules};

    ghost rules = { loading_wanted_rules };

    fn answer<K: Sink>(
        &mut self,
        line: &[u8],
        _out: &mut OutputBuffer,
        _sink: &mut K,
    ) -> Result<bool, AllocError> {
        match cut_user(line) {
            Some((user, password)) => match self.take(user, password) {
                Ok(()) => Ok(true),
                Err(_) => Err(AllocError),
            },
            None => Ok(false),
        }
    }

    fn answer_long<K: Sink>(&mut self, _out: &mut OutputBuffer, _sink: &mut K) -> bool {
        false
    }
}

/// Puts the passwords of the wanted users into an empty table, and gives the status, as
/// [`load_passwords`](crate::load_passwords) does. Lines of users who aren't wanted take no memory.
pub fn load_wanted<S: Source, K: Sink>(
    loading: &mut LoadingWanted,
    source: &mut S,
    sink: &mut K,
    max: u64,
) -> u8
    requires bound { max ≤ 2 ^ 40 }
    requires empty { loading.old.passwords ≡ [] }
    ensures told { RunTold S.left S.faults source.old source.new K.written K.faults sink.old sink.new result
        (λ held taken added. LoadedWanted (is_in loading.old.users) loading.new.passwords result max held taken added) }
    ensures count { K.faults sink.old ≤ K.faults sink.new }
{
    run_state_lines(loading, source, sink, max)
}
