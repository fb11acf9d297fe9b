//! Texts of Gitea and Forgejo.

ghost use Rattle.std.specs.Prelude.{◌≡◌, ℕ, List, Ok, Some};
ghost use Rattle.foreign_text.specs.Fields.{in_four, in_three, in_two};
ghost use Rattle.foreign_text.specs.Views.{as_answer, as_four, as_three, as_two};
ghost use Rattle.foreign_text.specs.declared.kdf.Kdf.TheVariants.{Pbkdf2};
ghost use Rattle.foreign_text.specs.declared.kdf.Pbkdf2Hash.TheVariants.{Sha256};
ghost use Rattle.application_texts.specs.Gitea.{bcrypt_three, bcrypt_two, gitea, gitea_bcrypt, gitea_made, gitea_others, gitea_pbkdf2};
ghost use Rattle.application_texts.specs.Gitea.{gitea_plain, gitea_salt, gitea_scrypt, pbkdf2_fields, pbkdf2_numbers, scrypt_fields, scrypt_numbers};

use foreign_text::answers::{as_it_is, put_made};
use foreign_text::fields::{
    Four, Three, Two, four_at, number_of, pbkdf2_cost, scrypt_cost, small_hex, three_at, two_at,
};
use foreign_text::{
    FieldBytes, ForeignFault, Kdf, MadeText, Pbkdf2Hash, Unread, if_sized, is_size, with_decoded,
};
use pieces::behind;
use pieces::short_bytes::ShortBytes;

// The bytes of a salt.
fn gitea_salt(salt: &[u8]) -> Option<FieldBytes>
    ensures { result ≡ gitea_salt salt.now }
{
    if salt.len() == 10 {
        Some(ShortBytes::from_slice(salt))
    } else {
        small_hex(salt)
    }
}

// The text of a cost, a key of a length and a salt.
fn gitea_made(
    kdf: Result<Kdf, ForeignFault>,
    size: Option<u32>,
    key: &str,
    salt: &str,
) -> Result<MadeText, ForeignFault>
    ensures { result ≡ gitea_made kdf size key.now salt.now }
{
    if_sized(
        is_size(size, small_hex(key.as_bytes())),
        with_decoded(kdf, gitea_salt(salt.as_bytes()), small_hex(key.as_bytes())),
    )
}

// The text of a key of 50 bytes and a salt.
fn plain_fields(kdf: Kdf, fields: Result<Two<'_>, ForeignFault>) -> Result<MadeText, ForeignFault>
    ensures { result ≡ in_two (gitea_made (Ok kdf) (Some 50)) (as_two fields.entry) }
{
    match fields {
        Ok(f) => gitea_made(Ok(kdf), Some(50), f.first, f.second),
        Err(fault) => Err(fault),
    }
}

// The stored text of an algorithm without parameters.
fn gitea_plain<'a>(
    kdf: Kdf,
    rest: &str,
    made: &mut MadeText,
) -> Result<Option<&'a str>, ForeignFault>
    ensures { as_answer result made.new ≡ gitea_plain kdf rest.now }
{
    put_made(plain_fields(kdf, two_at(rest, ':')), made)
}

// The same of PBKDF2 with HMAC-SHA-256.
fn plain_pbkdf2<'a>(
    rounds: u32,
    rest: &str,
    made: &mut MadeText,
) -> Result<Option<&'a str>, ForeignFault>
    ensures { as_answer result made.new ≡ gitea_plain (Pbkdf2 Sha256 rounds) rest.now }
{
    let hash = Pbkdf2Hash::Sha256;
    gitea_plain(Kdf::Pbkdf2 { hash, rounds }, rest, made)
}

// The text of PBKDF2 by the rounds and the length of the key.
fn pbkdf2_numbers(
    key: &str,
    salt: &str,
    numbers: Result<Two<'_>, ForeignFault>,
) -> Result<MadeText, ForeignFault>
    ensures { result ≡ in_two (pbkdf2_numbers key.now salt.now) (as_two numbers.entry) }
{
    match numbers {
        Ok(f) => gitea_made(
            pbkdf2_cost(Pbkdf2Hash::Sha256, f.first),
            number_of(f.second),
            key,
            salt,
        ),
        Err(fault) => Err(fault),
    }
}

// The text of PBKDF2 by its fields.
fn pbkdf2_fields(fields: Result<Three<'_>, ForeignFault>) -> Result<MadeText, ForeignFault>
    ensures { result ≡ in_three pbkdf2_fields (as_three fields.entry) }
{
    match fields {
        Ok(f) => pbkdf2_numbers(f.second, f.third, two_at(f.first, '$')),
        Err(fault) => Err(fault),
    }
}

// The text of scrypt by N, r, p and the length of the key.
fn scrypt_numbers(
    key: &str,
    salt: &str,
    numbers: Result<Four<'_>, ForeignFault>,
) -> Result<MadeText, ForeignFault>
    ensures { result ≡ in_four (scrypt_numbers key.now salt.now) (as_four numbers.entry) }
{
    match numbers {
        Ok(f) => gitea_made(
            scrypt_cost(f.first, f.others.first, f.others.second),
            number_of(f.others.third),
            key,
            salt,
        ),
        Err(fault) => Err(fault),
    }
}

// The text of scrypt by its fields.
fn scrypt_fields(fields: Result<Three<'_>, ForeignFault>) -> Result<MadeText, ForeignFault>
    ensures { result ≡ in_three scrypt_fields (as_three fields.entry) }
{
    match fields {
        Ok(f) => scrypt_numbers(f.second, f.third, four_at(f.first, '$')),
        Err(fault) => Err(fault),
    }
}

// bcrypt's text before a salt.
fn bcrypt_two<'a>(fields: Result<Two<'a>, ForeignFault>) -> Result<Option<&'a str>, ForeignFault>
    ensures { (made : List ℕ) → as_answer result made ≡ in_two bcrypt_two (as_two fields.entry) }
{
    match fields {
        Ok(f) => as_it_is("$2", f.first),
        Err(fault) => Err(fault),
    }
}

// bcrypt's text between a cost and a salt.
fn bcrypt_three<'a>(
    fields: Result<Three<'a>, ForeignFault>,
) -> Result<Option<&'a str>, ForeignFault>
    ensures { (made : List ℕ) → as_answer result made ≡ in_three bcrypt_three (as_three fields.entry) }
{
    match fields {
        Ok(f) => as_it_is("$2", f.second),
        Err(fault) => Err(fault),
    }
}

// The stored text of bcrypt, or that the algorithm isn't read.
#[tactic(auto, unfolding(crate::specs::Gitea::gitea_bcrypt))]
fn gitea_bcrypt(text: &str) -> Result<Option<&str>, ForeignFault>
    ensures { (made : List ℕ) → as_answer result made ≡ gitea_bcrypt text.now }
{
    if let Some(rest) = behind(text, "bcrypt:") {
        return bcrypt_two(two_at(rest, ':'));
    }
    if let Some(rest) = behind(text, "bcrypt$") {
        return bcrypt_three(three_at(rest, ':'));
    }
    Err(ForeignFault::Unread(Unread::Other))
}

// The stored text of an algorithm with parameters, of scrypt or of bcrypt.
#[tactic(auto, unfolding(crate::specs::Gitea::gitea_others))]
fn gitea_others<'a>(text: &'a str, made: &mut MadeText) -> Result<Option<&'a str>, ForeignFault>
    ensures { as_answer result made.new ≡ gitea_others text.now }
{
    if let Some(rest) = behind(text, "pbkdf2$") {
        return put_made(pbkdf2_fields(three_at(rest, ':')), made);
    }
    if let Some(rest) = behind(text, "scrypt$") {
        return put_made(scrypt_fields(three_at(rest, ':')), made);
    }
    if let Some(rest) = behind(text, "scrypt:") {
        return gitea_plain(
            Kdf::Scrypt {
                ln: 16,
                r: 16,
                p: 2,
            },
            rest,
            made,
        );
    }
    gitea_bcrypt(text)
}

/// The stored text of a text of Gitea.
#[tactic(auto, unfolding(crate::specs::Gitea::gitea))]
pub(crate) fn gitea<'a>(text: &'a str, made: &mut MadeText) -> Result<Option<&'a str>, ForeignFault>
    ensures { as_answer result made.new ≡ gitea text.now }
{
    if let Some(rest) = behind(text, "pbkdf2:") {
        return plain_pbkdf2(10_000, rest, made);
    }
    if let Some(rest) = behind(text, "pbkdf2_v1:") {
        return plain_pbkdf2(10_000, rest, made);
    }
    if let Some(rest) = behind(text, "pbkdf2_v2:") {
        return plain_pbkdf2(50_000, rest, made);
    }
    if let Some(rest) = behind(text, "pbkdf2_hi:") {
        return plain_pbkdf2(320_000, rest, made);
    }
    gitea_others(text, made)
}
