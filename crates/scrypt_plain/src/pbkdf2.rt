//! PBKDF2 (RFC 8018) over HMAC-SHA-256 with an iteration count of 1.

ghost use Rattle.std.specs.Prelude.{◌≡◌, ℕ, ◌*◌, ◌%◌, ◌^◌, ◌<◌, ◌++◌, List, length};
ghost use Rattle.std.specs.Int.{w32, to_be_bytes};
ghost use Rattle.scrypt_plain.specs.Bytes.{bytes};
ghost use Rattle.scrypt_plain.specs.Hmac.{HoldsHmac, hmac};
ghost use Rattle.scrypt_plain.specs.Pbkdf2.{pbkdf2_once};

use crate::hmac::HmacSha256;

// Block `index`, from the salt under the password.
fn output_block(salted: &HmacSha256, index: u32) -> [u8; 32]
    ensures { (key salt : List ℕ) → HoldsHmac salted.now key salt → result ≡ hmac key (salt ++ to_be_bytes w32 index) }
{
    let mut state = salted.copy();
    state.update(&index.to_be_bytes());
    state.finalize()
}

// Four bytes to a word, lowest byte first.
fn put_words(digest: &[u8; 32], out: &mut [u32])
    requires { length out.old ≡ 8 }
    ensures { bytes out.new ≡ digest.now }
{
    'words: for i in 0..8 {
        out[i] = u32::from_le_bytes([
            digest[4 * i],
            digest[4 * i + 1],
            digest[4 * i + 2],
            digest[4 * i + 3],
        ]);
    }
}

/// Four bytes of each word, lowest byte first.
pub fn le_bytes(words: &[u32]) -> [u8; 64]
    requires { length words.now ≡ 16 }
    ensures { result ≡ bytes words.now }
{
    let mut out = [0u8; 64];
    'words: for i in 0..16 {
        out[4 * i..4 * i + 4].copy_from_slice(&words[i].to_le_bytes());
    }
    out
}

/// Fills `out`, read as bytes, with PBKDF2 of the password and the salt.
pub fn derive_words(password: &[u8], salt: &[u8], out: &mut [u32])
    requires whole_blocks { length out.old % 8 ≡ 0 }
    requires counted { length out.old < 2 ^ 24 }
    ensures { bytes out.new ≡ pbkdf2_once password.now salt.now (4 * length out.old) }
{
    let mut salted = HmacSha256::new(password);
    salted.update(salt);
    'outputs: for i in 0..out.len() / 8 {
        let digest = output_block(&salted, i as u32 + 1);
        put_words(&digest, &mut out[8 * i..8 * i + 8]);
    }
}

// The words, read as bytes, under the password.
fn salted_by_words(password: &[u8], words: &[u32]) -> HmacSha256
    requires whole_blocks { length words.now % 16 ≡ 0 }
    ensures { HoldsHmac result password.now (bytes words.now) }
{
    let mut salted = HmacSha256::new(password);
    'salt: for i in 0..words.len() / 16 {
        salted.update(&le_bytes(&words[16 * i..16 * i + 16]));
    }
    salted
}

/// Fills `out` with PBKDF2 of the password, and of the words, read as bytes, as the salt.
pub fn derive_bytes(password: &[u8], words: &[u32], out: &mut [u8])
    requires whole_blocks { length words.now % 16 ≡ 0 }
    requires counted { length out.old < 2 ^ 24 }
    ensures { out.new ≡ pbkdf2_once password.now (bytes words.now) (length out.old) }
{
    let salted = salted_by_words(password, words);
    let whole = out.len() / 32;
    'outputs: for i in 0..whole {
        let block = output_block(&salted, i as u32 + 1);
        out[32 * i..32 * i + 32].copy_from_slice(&block);
    }
    let rest = &mut out[32 * whole..];
    if rest.len() > 0 {
        let last = output_block(&salted, whole as u32 + 1);
        let count = rest.len();
        rest.copy_from_slice(&last[..count]);
    }
}
