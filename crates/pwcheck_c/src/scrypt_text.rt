//! Texts of scrypt for a salt that is given.

ghost use Rattle.std.specs.Prelude.{◌≡◌, ◌⊎◌, ◌≤◌, ◌<◌, ◌+◌, ◌^◌, ◌++◌, codes, length, IfOk, true, false};
ghost use Rattle.std.specs.Fmt.{decimal};
ghost use Rattle.phc.specs.Encoded.{encoding};
ghost use Rattle.scrypt_plain.specs.Bounds.{in_bounds};
ghost use Rattle.pwcheck_c.specs.Inputs.{scrypt_text_takes};
ghost use Rattle.pwcheck_c.specs.Texts.{scrypt_text};
ghost use Rattle.c_buffers.specs.Statuses.{status_no_memory};
ghost use Rattle.pwcheck_c.specs.Statuses.{status_out_of_range};
ghost use Rattle.c_buffers.specs.Put.{IsPut};
ghost use Rattle.phc_kdf.specs.Limits.{password_max};

use crate::check::text_of;
use crate::room::text_len;
use crate::statuses::{NO_MEMORY, NO_ROOM, OUT_OF_RANGE};
use any_make::MakeCost;
use base64ct::{Base64Unpadded, Encoding};
use c_buffers::put;
use pieces::short_bytes::ShortBytes;
use scrypt_plain::{in_bounds, scrypt};
use std::alloc::{AllocError, Global};
use stored_check::PASSWORD_MAX;
use yescrypt_plain::ScryptParams;

// Room for `$scrypt$ln=`, `,r=`, `,p=`, three numbers of 32 bits, two `$` and 65 characters.
const TEXT_MAX: usize = 144;

// Appends the encoding of at most 32 bytes.
fn push_encoding(text: &mut ShortBytes<TEXT_MAX>, bytes: &[u8])
    requires few { length bytes.now ≤ 32 }
    requires room { length text.old + 43 ≤ 144 }
    ensures appended { text.new ≡ text.old ++ encoding bytes.now }
    ensures len { length text.new ≤ length text.old + 43 }
{
    let mut room = [0; 43];
    match Base64Unpadded::encode_into(bytes, &mut room) {
        Ok(n) => text.push_all(&room[..n]),
        Err(_) => unreachable!(),
    }
}

// Appends a number.
fn push_number(text: &mut ShortBytes<TEXT_MAX>, number: u32)
    requires room { length text.old + 10 ≤ 144 }
    ensures appended { text.new ≡ text.old ++ decimal number }
    ensures len { length text.new ≤ length text.old + 10 }
{
    text.push_decimal(number as u64);
}

// `$scrypt$ln=L,r=R,p=P$`
fn front(ln: u32, r: u32, p: u32) -> ShortBytes<TEXT_MAX>
    ensures text { result ≡ codes "$scrypt$ln=" ++ decimal ln ++ codes ",r=" ++ decimal r ++ codes ",p=" ++ decimal p
        ++ codes "$" }
    ensures len { length result ≤ 48 }
{
    let mut text = ShortBytes::new();
    text.push_all(b"$scrypt$ln=");
    push_number(&mut text, ln);
    text.push_all(b",r=");
    push_number(&mut text, r);
    text.push_all(b",p=");
    push_number(&mut text, p);
    text.push_all(b"$");
    text
}

// `$scrypt$ln=L,r=R,p=P$salt$key`
fn joined(ln: u32, r: u32, p: u32, salt: &[u8], key: &[u8]) -> ShortBytes<TEXT_MAX>
    requires salt { length salt.now ≤ 32 }
    requires key { length key.now ≤ 32 }
    ensures text { result ≡ codes "$scrypt$ln=" ++ decimal ln ++ codes ",r=" ++ decimal r ++ codes ",p=" ++ decimal p
        ++ codes "$" ++ encoding salt.now ++ codes "$" ++ encoding key.now }
{
    let mut text = front(ln, r, p);
    push_encoding(&mut text, salt);
    text.push_all(b"$");
    push_encoding(&mut text, key);
    text
}

// The text of a password and a salt.
fn scrypt_text(
    alloc: Global,
    password: &[u8],
    salt: &[u8],
    ln: u32,
    r: u32,
    p: u32,
) -> Result<ShortBytes<TEXT_MAX>, AllocError>
    requires bounds { in_bounds ln r p ≡ true }
    requires password { length password.now ≤ password_max }
    requires salt { length salt.now ≡ 16 }
    ensures text { IfOk result (λ text. text ≡ scrypt_text password.now salt.now ln r p) }
{
    let mut key = [0; 32];
    scrypt(alloc, password, salt, ln, r, p, &mut key)?;
    Ok(joined(ln, r, p, salt, &key))
}

// Whether a text is made of these.
fn is_taken(password: &[u8], salt: &[u8], ln: u32, r: u32, p: u32) -> bool
    ensures { result ≡ scrypt_text_takes password.now salt.now ln r p }
{
    password.len() <= PASSWORD_MAX
        && text_of(password).is_some()
        && salt.len() == 16
        && in_bounds(ln, r, p)
}

/// Writes the PHC text `$scrypt$ln=L,r=R,p=P$salt$key` of a password and a salt of 16 bytes, with a key of 32 bytes and
/// without a zero behind it: at most 93 characters.
#[unsafe(no_mangle)]
pub extern "C" fn pwcheck_scrypt_text(
    alloc: Global,
    password: &[u8],
    salt: &[u8],
    ln: u32,
    r: u32,
    p: u32,
    out: &mut [u8],
    len: &mut usize,
) -> i32
    ensures text { scrypt_text_takes password.now salt.now ln r p ≡ true
        → IsPut (scrypt_text password.now salt.now ln r p) out.old out.new len.old len.new result
        ⊎ ((result ≡ status_no_memory) × (out.new ≡ out.old) × (len.new ≡ len.old)) }
    ensures refused { scrypt_text_takes password.now salt.now ln r p ≡ false
        → (result ≡ status_out_of_range) × (out.new ≡ out.old) × (len.new ≡ len.old) }
{
    if !is_taken(password, salt, ln, r, p) {
        return OUT_OF_RANGE;
    }
    if out.len() < text_len(MakeCost::Scrypt(ScryptParams { ln, r, p })) {
        return NO_ROOM;
    }
    match scrypt_text(alloc, password, salt, ln, r, p) {
        Ok(text) => put(text.as_slice(), out, len),
        Err(_) => NO_MEMORY,
    }
}
