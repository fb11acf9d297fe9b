//! The digest.

ghost use Rattle.std.specs.Prelude.{◌≡◌, ◌≤◌, ℕ, List, [], ◌++◌};
ghost use Rattle.std.specs.Fmt.{decimal};
ghost use Rattle.hmac_sha1.specs.Held.{HoldsHmacSha1};
ghost use Rattle.hmac_sha1.specs.Hmac.{hmac_sha1};
ghost use Rattle.sha1_crypt.specs.Digest.{first_message, sha1_digest};

use hmac_sha1::HmacSha1;
use pieces::short_bytes::ShortBytes;

// A number in decimal digits.
fn decimal_text(n: u32) -> ShortBytes<20>
    ensures { result ≡ decimal n }
{
    let mut text = ShortBytes::new();
    text.push_decimal(n as u64);
    text
}

// The code of a message, which is added to what `keyed` holds.
#[inline(always)]
fn code_of(keyed: &HmacSha1, message: &[u8]) -> [u8; 20]
    ensures { (password : List ℕ) → HoldsHmacSha1 keyed.now password []
        → result ≡ hmac_sha1 password message.now }
{
    let mut state = keyed.copy();
    state.update(message);
    state.finalize()
}

// The code of the first message.
fn first_code(keyed: &HmacSha1, salt: &[u8], rounds: u32) -> [u8; 20]
    ensures { (password : List ℕ) → HoldsHmacSha1 keyed.now password []
        → result ≡ hmac_sha1 password (first_message salt.now rounds) }
{
    let mut state = keyed.copy();
    state.update(salt);
    state.update(b"$sha1$");
    state.update(decimal_text(rounds).as_slice());
    state.finalize()
}

/// The digest of a password and a salt after so many rounds: two compressions of SHA-1 a round. Password and salt may have any bytes
/// and any length.
///
/// The algorithm is that of NetBSD's crypt(3) for `$sha1$`, which libxcrypt has too.
#[tactic(auto, unfolding(crate::specs::Digest::sha1_digest))]
#[inline(never)]
pub fn sha1_crypt(password: &[u8], salt: &[u8], rounds: u32) -> [u8; 20]
    requires rounds { 1 ≤ rounds }
    ensures digest { result ≡ sha1_digest password.now salt.now rounds }
{
    let keyed = HmacSha1::new(password);
    let mut code = first_code(&keyed, salt, rounds);
    'turns: for turn in 1..rounds {
        code = code_of(&keyed, &code);
    }
    code
}
