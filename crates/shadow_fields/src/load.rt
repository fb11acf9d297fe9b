//! A table of passwords from the lines of a source.

ghost use Rattle.std.specs.Prelude.{◌≡◌, ◌≢◌, ◌≤◌, ◌^◌, [], false, true};
ghost use Rattle.line_program.specs.Outcome.{RunTold};
ghost use Rattle.shadow_fields.specs.Loads.{Loaded};

use crate::cut::cut_user;
use crate::passwords::Passwords;
use line_io::{OutputBuffer, Sink, Source};
use line_program::{Responder, run_state_lines};
use std::alloc::AllocError;

/// A table that takes the password of each line, and writes nothing.
#[derive(Drop)]
pub struct Loading {
    pub passwords: Passwords,
}

impl Responder for Loading {
    ghost use Rattle.shadow_fields.specs.LoadRules.{loading_rules};

    ghost rules = { loading_rules };

    fn answer<K: Sink>(
        &mut self,
        line: &[u8],
        _out: &mut OutputBuffer,
        _sink: &mut K,
    ) -> Result<bool, AllocError> {
        match cut_user(line) {
            Some((user, password)) => match self.passwords.put(user, password) {
                Ok(()) => Ok(true),
                Err(_) => Err(AllocError),
            },
            None => Ok(false),
        }
    }

    fn answer_long<K: Sink>(&mut self, _out: &mut OutputBuffer, _sink: &mut K) -> bool {
        false
    }
}

/// Puts the passwords of the lines of a source of at most `max` bytes into an empty table, and gives the status. Nothing is
/// written to the sink.
///
/// A line is a user, a colon and a password, which may be empty and have colons; of lines of one user the last counts.
/// Statuses: 0 each line was taken, 1 some line has no user or more than 8,192 bytes and was left out; 3 a read failed, 5
/// memory was wanting, 6 the source holds more than `max` bytes.
pub fn load_passwords<S: Source, K: Sink>(
    loading: &mut Loading,
    source: &mut S,
    sink: &mut K,
    max: u64,
) -> u8
    requires bound { max ≤ 2 ^ 40 }
    requires empty { loading.old.passwords ≡ [] }
    ensures told { RunTold S.left S.faults source.old source.new K.written K.faults sink.old sink.new result
        (λ held taken added. Loaded loading.new.passwords result max held taken added) }
    ensures count { K.faults sink.old ≤ K.faults sink.new }
{
    run_state_lines(loading, source, sink, max)
}
