//! PBKDF2 with HMAC-SHA-256 (RFC 8018) of eight passwords at once, each with a salt of its own, all with the same rounds: keys of 32
//! bytes, in vectors of eight words.
#![tactic(auto)]

ghost use Rattle.std.specs.Prelude.{◌≡◌, ◌≢◌, ℕ, ◌<◌, ◌≤◌, List, [], slice_index_or};
ghost use Rattle.pbkdf2_key.specs.Pbkdf2.{pbkdf2_sha256};
ghost use Rattle.pbkdf2_lanes.specs.Held.{HoldsKey};

mod codes;
pub mod laws;
mod rounds;
mod states;
mod vectors;

use codes::{code_in_lanes, first_code, lane_bytes};
use rounds::rounds_lanes;
use states::keyed_states;
use vectors::{EightStates, loaded, with_lane};

/// Eight lanes, of which each holds what the rounds need of a password and a salt: the states of SHA-256 after the two blocks that
/// HMAC makes of the password, and the first code. The password itself is not kept.
#[derive(Drop)]
pub struct KeyLanes {
    inner: EightStates,
    outer: EightStates,
    first: EightStates,
}

impl KeyLanes {
    /// Eight lanes that hold nothing yet. The keys of a lane that was never set mean nothing.
    pub fn new() -> KeyLanes {
        KeyLanes {
            inner: EightStates::zeros(),
            outer: EightStates::zeros(),
            first: EightStates::zeros(),
        }
    }

    /// Puts a password and a salt, both of any length, into a lane, in place of what the lane held. The other lanes stay.
    ///
    /// The cost is that of some ten compressions of SHA-256 beside what a long password or salt takes.
    #[inline(never)]
    pub fn set(&mut self, lane: usize, password: &[u8], salt: &[u8])
        requires lane { lane < 8 }
        ensures pair { HoldsKey self.new lane password.now salt.now }
        ensures others { (j : ℕ) (p s : List ℕ) → j ≢ lane → HoldsKey self.old j p s → HoldsKey self.new j p s }
    {
        let inner = keyed_states(password, 0x36);
        let outer = keyed_states(password, 0x5c);
        let first = code_in_lanes(&first_code(password, salt));
        self.inner = with_lane(&self.inner, inner, lane);
        self.outer = with_lane(&self.outer, outer, lane);
        self.first = with_lane(&self.first, first, lane);
    }

    /// The key of 32 bytes of each lane, after so many rounds.
    ///
    /// A round costs two compressions of eight lanes, however many lanes are set.
    #[inline(never)]
    pub fn keys(&self, rounds: u32) -> [[u8; 32]; 8]
        requires rounds_least { 1 ≤ rounds }
        ensures keys { (j : ℕ) (password salt : List ℕ) → j < 8 → HoldsKey self.now j password salt
            → slice_index_or result j [] ≡ pbkdf2_sha256 password salt rounds 32 }
    {
        let blocks = rounds_lanes(
            loaded(&self.inner),
            loaded(&self.outer),
            loaded(&self.first),
            rounds,
        );
        [
            lane_bytes(&blocks, 0),
            lane_bytes(&blocks, 1),
            lane_bytes(&blocks, 2),
            lane_bytes(&blocks, 3),
            lane_bytes(&blocks, 4),
            lane_bytes(&blocks, 5),
            lane_bytes(&blocks, 6),
            lane_bytes(&blocks, 7),
        ]
    }
}
