//! The parts of a text.

ghost use Rattle.std.specs.Prelude.{◌≡◌, ◌≤◌, ◌+◌, ◌^◌, IfOk, OnOk};
ghost use Rattle.scram_plain.specs.Text.{server_key_of, stored_key_of, text_parts, with_server, with_stored};
ghost use Rattle.scram_plain.specs.Views.{as_parts};

use crate::decoded::{key_of, salt_of};
use crate::fields::{ScramFields, text_fields};
use crate::{Preparation, ScramFault};
use base64ct::Counts;
use pieces::short_bytes::ShortBytes;
use plain_rounds::rounds_of;

/// What a text means.
#[derive(Clone, Copy, Debug)]
pub(crate) struct ScramParts {
    pub preparation: Preparation,
    pub rounds: u32,
    pub salt: ShortBytes<48>,
    pub stored: [u8; 32],
    pub server: [u8; 32],
}

// The parts, by the text of the server key.
fn with_server(
    preparation: Preparation,
    rounds: u32,
    salt: ShortBytes<48>,
    stored: [u8; 32],
    server: &str,
    counts: &mut Counts,
) -> Result<ScramParts, ScramFault>
    requires looks { counts.old.looks ≤ 2 ^ 62 + 44 }
    requires sames { counts.old.sames ≤ 2 ^ 62 + 4 }
    ensures parts { as_parts result ≡ with_server preparation rounds salt stored (server_key_of server.now) }
    ensures rounds { IfOk result (λ p. p.rounds ≡ rounds) }
    ensures looks { OnOk result (counts.new.looks ≡ counts.old.looks + 44) }
    ensures sames { OnOk result (counts.new.sames ≡ counts.old.sames + 4) }
    ensures looks_stay { counts.old.looks ≤ counts.new.looks }
    ensures most_looks { counts.new.looks ≤ counts.old.looks + 44 }
    ensures sames_stay { counts.old.sames ≤ counts.new.sames }
    ensures most_sames { counts.new.sames ≤ counts.old.sames + 4 }
{
    let length = ScramFault::ServerKeyLength;
    let encoding = ScramFault::ServerKeyEncoding;
    match key_of(length, encoding, server.as_bytes(), counts) {
        Ok(server) => Ok(ScramParts {
            preparation,
            rounds,
            salt,
            stored,
            server,
        }),
        Err(e) => Err(e),
    }
}

// The parts, by the texts of both keys.
fn with_stored(
    preparation: Preparation,
    rounds: u32,
    salt: ShortBytes<48>,
    stored: &str,
    server: &str,
    counts: &mut Counts,
) -> Result<ScramParts, ScramFault>
    requires looks { counts.old.looks ≤ 2 ^ 62 }
    requires sames { counts.old.sames ≤ 2 ^ 62 }
    ensures parts { as_parts result ≡ with_stored preparation rounds salt (stored_key_of stored.now) server.now }
    ensures rounds { IfOk result (λ p. p.rounds ≡ rounds) }
    ensures looks { OnOk result (counts.new.looks ≡ counts.old.looks + 88) }
    ensures sames { OnOk result (counts.new.sames ≡ counts.old.sames + 8) }
    ensures looks_stay { counts.old.looks ≤ counts.new.looks }
    ensures most_looks { counts.new.looks ≤ counts.old.looks + 88 }
    ensures sames_stay { counts.old.sames ≤ counts.new.sames }
    ensures most_sames { counts.new.sames ≤ counts.old.sames + 8 }
{
    let length = ScramFault::StoredKeyLength;
    let encoding = ScramFault::StoredKeyEncoding;
    match key_of(length, encoding, stored.as_bytes(), counts) {
        Ok(stored) => with_server(preparation, rounds, salt, stored, server, counts),
        Err(e) => Err(e),
    }
}

/// The parts of a text, or its first fault. The characters of the keys are tested by decoding them.
#[tactic(auto, unfolding(crate::specs::Text::text_parts))]
pub(crate) fn text_parts(text: &str, counts: &mut Counts) -> Result<ScramParts, ScramFault>
    requires looks { counts.old.looks ≤ 2 ^ 62 }
    requires sames { counts.old.sames ≤ 2 ^ 62 }
    ensures parts { as_parts result ≡ text_parts text.now }
    ensures rounds { IfOk result (λ p. 1 ≤ p.rounds) }
    ensures looks { OnOk result (counts.new.looks ≡ counts.old.looks + 88) }
    ensures sames { OnOk result (counts.new.sames ≡ counts.old.sames + 8) }
    ensures looks_stay { counts.old.looks ≤ counts.new.looks }
    ensures most_looks { counts.new.looks ≤ counts.old.looks + 88 }
    ensures sames_stay { counts.old.sames ≤ counts.new.sames }
    ensures most_sames { counts.new.sames ≤ counts.old.sames + 8 }
{
    let fields = match text_fields(text) {
        Ok(fields) => fields,
        Err(e) => return Err(e),
    };
    let Some(rounds) = rounds_of(fields.rounds) else {
        return Err(ScramFault::Rounds);
    };
    match salt_of(fields.salt.as_bytes()) {
        Ok(salt) => with_stored(
            fields.preparation,
            rounds,
            salt,
            fields.stored,
            fields.server,
            counts,
        ),
        Err(e) => Err(e),
    }
}
