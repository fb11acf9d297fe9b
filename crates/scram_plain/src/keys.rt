//! The keys of a password.

ghost use Rattle.std.specs.Prelude.{◌≡◌, ◌≤◌};
ghost use Rattle.sha2.specs.Sha256.{sha256};
ghost use Rattle.scram_plain.specs.Keys.{client_key, salted_password, server_key, stored_key};

use hmac_plain::hmac_sha256;
use pbkdf2_key::pbkdf2_sha256;
use sha2::{Digest, Sha256};

/// What a server keeps of a password: enough to check it, and to prove that the server has it.
#[derive(Clone, Copy, Debug)]
pub struct ScramKeys {
    /// The digest of the client key.
    pub stored: [u8; 32],
    /// The server key.
    pub server: [u8; 32],
}

// The salted password.
#[tactic(auto, unfolding(crate::specs::Keys::salted_password))]
fn salted_password(password: &[u8], salt: &[u8], rounds: u32) -> [u8; 32]
    requires rounds { 1 ≤ rounds }
    ensures key { result ≡ salted_password password.now salt.now rounds }
{
    let mut salted = [0; 32];
    pbkdf2_sha256(password, salt, rounds, &mut salted);
    salted
}

// The digest of SHA-256.
fn digest_of(message: &[u8]) -> [u8; 32]
    ensures { result ≡ sha256 message.now }
{
    let mut hasher = Sha256::new();
    hasher.update(message);
    hasher.finalize()
}

// The client key of a salted password.
fn client_key(salted: &[u8; 32]) -> [u8; 32]
    ensures key { result ≡ client_key salted.now }
{
    hmac_sha256(salted, b"Client Key")
}

// The stored key of a salted password.
#[tactic(auto, unfolding(crate::specs::Keys::stored_key))]
fn stored_key(salted: &[u8; 32]) -> [u8; 32]
    ensures key { result ≡ stored_key salted.now }
{
    digest_of(&client_key(salted))
}

// The server key of a salted password.
#[tactic(auto, unfolding(crate::specs::Keys::server_key))]
fn server_key(salted: &[u8; 32]) -> [u8; 32]
    ensures key { result ≡ server_key salted.now }
{
    hmac_sha256(salted, b"Server Key")
}

/// The stored key and the server key of a password, as it is hashed, and a salt after so many rounds: two compressions of SHA-256 a
/// round. Password and salt may have any bytes and any length.
#[inline(never)]
pub fn scram_keys(password: &[u8], salt: &[u8], rounds: u32) -> ScramKeys
    requires rounds { 1 ≤ rounds }
    ensures stored { result.stored ≡ stored_key (salted_password password.now salt.now rounds) }
    ensures server { result.server ≡ server_key (salted_password password.now salt.now rounds) }
{
    let salted = salted_password(password, salt, rounds);
    ScramKeys {
        stored: stored_key(&salted),
        server: server_key(&salted),
    }
}
