//! What a stored text is, and what it asks for.

ghost use Rattle.std.specs.Prelude.{◌≡◌, ℕ, Bool, List, IsTrue, is_ok, unwrap_or};
ghost use Rattle.mcf.specs.Grammar.{mcf};
ghost use Rattle.mcf.specs.Views.{fields_left};
ghost use Rattle.phc.specs.Record.{phc_text};
ghost use Rattle.scheme_list.specs.Schemes.{row_of};
ghost use Rattle.phc_kdf.specs.Numbers.{number};
ghost use Rattle.sha_crypt.specs.Records.{record_of};
ghost use Rattle.yescrypt_plain.specs.Text.{scrypt_costs, yescrypt_costs};
ghost use Rattle.phc.specs.declared.password_hash.PasswordHash.{PasswordHash};
ghost use Rattle.any_check.specs.Numbers.{no_costs};
ghost use Rattle.any_check.specs.Kinds.{asks, bcrypt_kind, md5_fields_kind, md5_kind, phc_kind, phpass_kind, record_costs, record_kind, row_kind, salted_kind, scram_kind, scrypt_kind, sha_kind, sha1_kind, sha_text_kind, digest_text_kind, mysql_kind, text_kind, yescrypt_kind};

use crate::md5_text::is_plain;
use crate::{Costs, NO_COSTS, TextCosts, scheme_of_text, sha_scheme};
use bcrypt_digest::digest_cost;
use bcrypt_plain::{BcryptFault, text_cost};
use mcf::{Fields, PasswordHashRef};
use md5_plain::{are_md5_fields, magic_of};
use mysql_sha2::MysqlFault;
use phc::PasswordHash;
use phpass_plain::PhpassFault;
use salted_digest::{DigestHash, SaltedFault, text_hash};
use scheme_list::{CostFamily, Scheme};
use scram_plain::ScramFault;
use sha_crypt::{Family, ShaRecord};
use sha1_crypt::Sha1Fault;
use stored_check::PhcKdf;
use yescrypt_plain::{scrypt_costs, yescrypt_costs};

/// What a stored text is.
#[derive(Clone, Copy, Debug, PartialEq, Eq)]
pub enum TextKind {
    /// No scheme has its identifier.
    NoScheme,
    /// It has a fault.
    Invalid,
    /// It has no fault, and asks for these costs.
    Valid(TextCosts),
}

// A text of a scheme that asks for these numbers.
fn asks(scheme: Scheme, costs: Costs) -> TextKind
    ensures { result ≡ asks scheme costs }
{
    TextKind::Valid(TextCosts { scheme, costs })
}

// A number of a record; 0 where it has none of this name.
fn number(parsed: &PasswordHash, name: &str) -> u64
    ensures { result ≡ unwrap_or (number parsed.now name.now) 0 }
{
    match parsed.params.get_decimal_named(name) {
        Some(n) => n as u64,
        None => 0,
    }
}

// The costs of a record, by the numbers of its scheme.
fn record_costs(family: CostFamily, parsed: &PasswordHash) -> Costs
    ensures { result ≡ record_costs family parsed.now }
{
    match family {
        CostFamily::Scrypt => {
            Costs::of_ln_r_p(
                number(parsed, "ln"),
                number(parsed, "r"),
                number(parsed, "p"),
            )
        }
        CostFamily::Pbkdf2Sha256 | CostFamily::Pbkdf2Sha512 => Costs::of_rounds(number(
            parsed, "i",
        )),
        CostFamily::Argon2 => {
            Costs::of_m_t_p(
                number(parsed, "m"),
                number(parsed, "t"),
                number(parsed, "p"),
            )
        }
        CostFamily::NoNumber | CostFamily::ShaCrypt | CostFamily::Bcrypt | CostFamily::Yescrypt =>
            NO_COSTS,
    }
}

// A record with its salt and hash.
fn salted_kind<K: PhcKdf>(kdf: &K, scheme: Scheme, parsed: &PasswordHash) -> TextKind
    ensures { result ≡ salted_kind (K.accepted kdf.now) scheme parsed.now parsed.now.salt parsed.now.hash }
{
    let Some(salt) = &parsed.salt else {
        return TextKind::Invalid;
    };
    let Some(hash) = &parsed.hash else {
        return TextKind::Invalid;
    };
    if kdf.accepts(parsed, salt.as_bytes(), hash.len()) {
        asks(scheme, record_costs(scheme.family(), parsed))
    } else {
        TextKind::Invalid
    }
}

fn phc_kind<K: PhcKdf>(kdf: &K, scheme: Scheme, stored: &str) -> TextKind
    ensures { result ≡ phc_kind (K.accepted kdf.now) scheme (phc_text stored.now) }
{
    match PasswordHash::new(stored) {
        Ok(parsed) => salted_kind(kdf, scheme, &parsed),
        Err(_) => TextKind::Invalid,
    }
}

// Whether a text is in the modular crypt format.
fn is_mcf(stored: &str) -> bool
    ensures { result ≡ is_ok (mcf stored.now) }
{
    match PasswordHashRef::new(stored) {
        Ok(_) => true,
        Err(_) => false,
    }
}

fn record_kind<K: PhcKdf>(kdf: &K, scheme: Scheme, stored: &str) -> TextKind
    ensures { result ≡ record_kind (K.accepted kdf.now) scheme stored.now }
{
    if is_mcf(stored) {
        phc_kind(kdf, scheme, stored)
    } else {
        TextKind::Invalid
    }
}

fn sha_kind(family: Family, stored: &str) -> TextKind
    ensures { result ≡ sha_kind family (record_of family stored.now) }
{
    match ShaRecord::new(stored, family) {
        Ok(record) => asks(sha_scheme(family), Costs::of_rounds(record.rounds() as u64)),
        Err(_) => TextKind::Invalid,
    }
}

fn sha_text_kind(family: Family, stored: &str) -> TextKind
    ensures { result ≡ sha_text_kind family stored.now }
{
    if is_mcf(stored) {
        sha_kind(family, stored)
    } else {
        TextKind::Invalid
    }
}

fn md5_fields_kind(fields: Fields<'_>) -> TextKind
    ensures { result ≡ md5_fields_kind (fields_left fields.entry) }
{
    if are_md5_fields(fields) {
        asks(Scheme::Md5Crypt, NO_COSTS)
    } else {
        TextKind::Invalid
    }
}

fn md5_kind(stored: &str) -> TextKind
    ensures { result ≡ md5_kind (mcf stored.now) }
{
    match PasswordHashRef::new(stored) {
        Err(_) => TextKind::Invalid,
        Ok(text) => match magic_of(text.id()) {
            Some(_) => md5_fields_kind(text.fields()),
            None => TextKind::Invalid,
        },
    }
}

// A text of bcrypt, also of a digest, by its cost.
fn bcrypt_kind(scheme: Scheme, cost: Result<u32, BcryptFault>) -> TextKind
    ensures { result ≡ bcrypt_kind scheme cost }
{
    match cost {
        Ok(cost) => asks(scheme, Costs::of_cost(cost as u64)),
        Err(_) => TextKind::Invalid,
    }
}

// A text of sha1-crypt, by its rounds.
fn sha1_kind(rounds: Result<u32, Sha1Fault>) -> TextKind
    ensures { result ≡ sha1_kind rounds }
{
    match rounds {
        Ok(rounds) => asks(Scheme::Sha1Crypt, Costs::of_rounds(rounds as u64)),
        Err(_) => TextKind::Invalid,
    }
}

// A text of SCRAM, by its rounds.
fn scram_kind(rounds: Result<u32, ScramFault>) -> TextKind
    ensures { result ≡ scram_kind rounds }
{
    match rounds {
        Ok(rounds) => asks(Scheme::Scram, Costs::of_rounds(rounds as u64)),
        Err(_) => TextKind::Invalid,
    }
}

// A text of phpass, by its cost.
fn phpass_kind(cost: Result<u32, PhpassFault>) -> TextKind
    ensures { result ≡ phpass_kind cost }
{
    match cost {
        Ok(cost) => asks(Scheme::Phpass, Costs::of_cost(cost as u64)),
        Err(_) => TextKind::Invalid,
    }
}

// A text of a salted digest, by its hash function.
fn digest_text_kind(hash: Result<DigestHash, SaltedFault>) -> TextKind
    ensures { result ≡ digest_text_kind hash }
{
    match hash {
        Ok(_) => asks(Scheme::SaltedDigest, NO_COSTS),
        Err(_) => TextKind::Invalid,
    }
}

// A text of MySQL, by its rounds.
fn mysql_kind(rounds: Result<u32, MysqlFault>) -> TextKind
    ensures { result ≡ mysql_kind rounds }
{
    match rounds {
        Ok(rounds) => asks(Scheme::MysqlSha2, Costs::of_rounds(rounds as u64)),
        Err(_) => TextKind::Invalid,
    }
}

fn yescrypt_kind(stored: &str) -> TextKind
    ensures { result ≡ yescrypt_kind (yescrypt_costs stored.now) }
{
    match yescrypt_costs(stored) {
        Ok(costs) => asks(
            Scheme::Yescrypt,
            Costs::of_ln_r_t(costs.ln as u64, costs.r as u64, costs.t as u64),
        ),
        Err(_) => TextKind::Invalid,
    }
}

fn scrypt_kind(stored: &str) -> TextKind
    ensures { result ≡ scrypt_kind (scrypt_costs stored.now) }
{
    match scrypt_costs(stored) {
        Ok(costs) => asks(
            Scheme::ScryptCrypt,
            Costs::of_ln_r_p(costs.ln as u64, costs.r as u64, costs.p as u64),
        ),
        Err(_) => TextKind::Invalid,
    }
}

// What a text of a scheme is.
fn row_kind<K: PhcKdf>(kdf: &K, scheme: Scheme, stored: &str) -> TextKind
    ensures { result ≡ row_kind (K.accepted kdf.now) scheme stored.now }
{
    match scheme {
        Scheme::Md5Crypt => md5_kind(stored),
        Scheme::Sha256Crypt => sha_text_kind(Family::Sha256, stored),
        Scheme::Sha512Crypt => sha_text_kind(Family::Sha512, stored),
        Scheme::Bcrypt => bcrypt_kind(Scheme::Bcrypt, text_cost(stored)),
        Scheme::Yescrypt => yescrypt_kind(stored),
        Scheme::ScryptCrypt => scrypt_kind(stored),
        Scheme::BcryptDigest => bcrypt_kind(Scheme::BcryptDigest, digest_cost(stored)),
        Scheme::Sha1Crypt => sha1_kind(sha1_crypt::text_cost(stored)),
        Scheme::Scram => scram_kind(scram_plain::text_cost(stored)),
        Scheme::Phpass => phpass_kind(phpass_plain::text_cost(stored)),
        Scheme::SaltedDigest => digest_text_kind(text_hash(stored)),
        Scheme::MysqlSha2 => mysql_kind(mysql_sha2::text_cost(stored)),
        Scheme::Scrypt
        | Scheme::Pbkdf2Sha256
        | Scheme::Pbkdf2Sha512
        | Scheme::Pbkdf2Sha1
        | Scheme::Argon2d
        | Scheme::Argon2i
        | Scheme::Argon2id => record_kind(kdf, scheme, stored),
    }
}

// Whether a text of a scheme is seen to have no fault before it is read: of md5-crypt, whose texts ask for no number.
#[inline(always)]
fn is_seen(scheme: Scheme, stored: &str) -> bool
    ensures valid { IsTrue result → (accepted : PasswordHash → List ℕ → ℕ → Bool)
        → row_kind accepted scheme stored.now ≡ asks Scheme.Md5Crypt no_costs }
{
    match scheme {
        Scheme::Md5Crypt => is_plain(stored),
        _ => false,
    }
}

/// What a stored text is, and what it asks for: a record by what `kdf` takes. Nothing is hashed, and no memory taken.
#[tactic(auto, unfolding(crate::specs::Kinds::text_kind))]
pub fn text_kind<K: PhcKdf>(kdf: &K, stored: &str) -> TextKind
    ensures kind { result ≡ text_kind (K.accepted kdf.now) stored.now }
{
    match scheme_of_text(stored) {
        None => TextKind::NoScheme,
        Some(scheme) if is_seen(scheme, stored) => asks(Scheme::Md5Crypt, NO_COSTS),
        Some(scheme) => row_kind(kdf, scheme, stored),
    }
}
