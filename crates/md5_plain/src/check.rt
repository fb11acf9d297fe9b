//! The verdict on the fields of a text.

ghost use Rattle.std.specs.Prelude.{◌≡◌, ◌≤◌, Ok, is_ok, length};
ghost use Rattle.mcf.specs.Views.{fields_left};
ghost use Rattle.phc_kdf.specs.Limits.{password_max};
ghost use Rattle.md5_plain.specs.Verdict.{checked_fields, fields_verdict, md5_fields, md5_verdict, split_fields};
ghost use Rattle.md5_plain.specs.Views.{as_form, fields_of};

use crate::{MAP_MD5, Magic, Md5Fault, md5_crypt};
use mcf::Fields;
use sha_crypt::b64::{field_bytes, in_order};
use subtle::ct_eq_slices;

/// The most bytes of a salt.
const SALT_MAX: usize = 8;

/// A salt and the text of a hash.
#[derive(Clone, Copy, Debug)]
pub(crate) struct Md5Text<'a> {
    pub salt: &'a str,
    pub hash: &'a str,
}

// A salt, a hash and nothing else.
fn split_fields(mut fields: Fields<'_>) -> Result<Md5Text<'_>, Md5Fault>
    ensures { as_form result ≡ split_fields (fields_left fields.entry) }
{
    let Some(salt) = fields.next() else {
        return Err(Md5Fault::NoSalt);
    };
    let Some(hash) = fields.next() else {
        return Err(Md5Fault::NoHash);
    };
    if fields.next().is_some() {
        return Err(Md5Fault::Trailing);
    }
    Ok(Md5Text {
        salt: salt.as_str(),
        hash: hash.as_str(),
    })
}

// Whether the text of the hash is the hash field of the password's digest. The digests are compared as bytes, to their
// end.
fn check_parts(magic: Magic, password: &[u8], parts: Md5Text<'_>) -> Result<bool, Md5Fault>
    requires short { length password.now ≤ password_max }
    ensures answer { result ≡ fields_verdict magic password.now (checked_fields (Ok (fields_of parts.entry))) }
{
    if parts.salt.len() > SALT_MAX {
        return Err(Md5Fault::SaltTooLong);
    }
    let Some(bytes) = field_bytes::<16>(parts.hash.as_bytes()) else {
        return Err(Md5Fault::Base64);
    };
    let digest = md5_crypt(password, parts.salt.as_bytes(), magic);
    let wanted = in_order(&MAP_MD5, &digest);
    Ok(bool::from(ct_eq_slices(&wanted, &bytes)))
}

/// Whether a password matches the fields that follow an identifier with this magic, `salt$hash`.
///
/// # Errors
///
/// The first [`Md5Fault`] of the fields, whatever the password.
#[tactic(auto, unfolding(crate::specs::Verdict::md5_fields, crate::specs::Verdict::md5_verdict))]
pub fn md5_verdict(magic: Magic, password: &[u8], fields: Fields<'_>) -> Result<bool, Md5Fault>
    requires short { length password.now ≤ password_max }
    ensures verdict { result ≡ md5_verdict magic password.now (fields_left fields.entry) }
{
    match split_fields(fields) {
        Err(e) => Err(e),
        Ok(parts) => check_parts(magic, password, parts),
    }
}

// Whether the salt is short enough, and the hash is the hash field of some digest.
fn are_valid(parts: Md5Text<'_>) -> bool
    ensures { result ≡ is_ok (checked_fields (Ok (fields_of parts.entry))) }
{
    parts.salt.len() <= SALT_MAX && field_bytes::<16>(parts.hash.as_bytes()).is_some()
}

/// Whether the fields that follow an identifier have no fault: whether [`md5_verdict`] is a verdict, whatever the password.
/// Nothing is hashed.
#[tactic(auto, unfolding(crate::specs::Verdict::md5_fields))]
pub fn are_md5_fields(fields: Fields<'_>) -> bool
    ensures valid { result ≡ is_ok (md5_fields (fields_left fields.entry)) }
{
    match split_fields(fields) {
        Err(_) => false,
        Ok(parts) => are_valid(parts),
    }
}
