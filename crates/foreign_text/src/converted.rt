//! Foreign texts converted.

ghost use Rattle.std.specs.Prelude.{◌≡◌};
ghost use Rattle.foreign_text.specs.Converted.{by_maker, converted, has_clear_texts, has_colons, has_own_dollar};
ghost use Rattle.foreign_text.specs.Views.{as_answer};

use crate::ForeignFault;
use crate::aspnet::aspnet;
use crate::cisco::cisco;
use crate::django::django;
use crate::dovecot::dovecot;
use crate::elasticsearch::elasticsearch;
use crate::grub::grub;
use crate::kdf::MadeText;
use crate::ldap::{ldap, ldif};
use crate::mediawiki::mediawiki;
use crate::mosquitto::mosquitto;
use crate::passlib::passlib;
use crate::postgres::postgres;
use crate::spring::spring;
use crate::werkzeug::werkzeug;
use pieces::begins_with;

/// Whose spelling a text has.
#[derive(Clone, Copy, Debug, PartialEq, Eq)]
pub enum Foreign {
    /// Django: `pbkdf2_sha256$ROUNDS$SALT$KEY`, `pbkdf2_sha1$..`, `scrypt$N$SALT$R$P$KEY`, `argon2$argon2id$..`, `bcrypt$$2b$..`,
    /// `bcrypt_sha256$$2b$..`.
    Django,
    /// Werkzeug, which Flask's programs use: `scrypt:N:R:P$SALT$KEY`, `pbkdf2:sha256:ROUNDS$SALT$KEY`, `pbkdf2:sha512:..`,
    /// `pbkdf2:sha1:..`.
    Werkzeug,
    /// LDAP: `{CRYPT}..`, `{ARGON2}..`, `{BCRYPT}..`, `{PBKDF2-SHA256}ROUNDS$SALT$KEY`, `{PBKDF2-SHA512}..`, `{PBKDF2}..`,
    /// `{PBKDF2-SHA1}..`, `{SSHA}DIGEST` and the other digests of MD5, SHA-1, SHA-256 and SHA-512, with a salt or without.
    Ldap,
    /// The same in the lines of a dump in LDIF (`ldif_lines`): the text goes on to the line's end, and a stored text has no colon.
    Ldif,
    /// passlib: `$pbkdf2-sha256$ROUNDS$SALT$KEY`, `$pbkdf2-sha512$..`, `$pbkdf2$..`, and the texts that it shares with others.
    Passlib,
    /// Dovecot: `{SHA512-CRYPT}$6$..`, `{BLF-CRYPT}$2y$..`, `{ARGON2ID}$argon2id$..` and others of crypt(3) and Argon2,
    /// `{SCRAM-SHA-256}..`, `{PBKDF2}$1$SALT$ROUNDS$KEY`, and the digests of LDAP.
    Dovecot,
    /// Spring Security: `{bcrypt}$2a$..`, `{argon2}$argon2id$..`, `{scrypt}$COST$SALT$KEY`, `{pbkdf2@SpringSecurity_v5_8}DIGITS`,
    /// `{pbkdf2}DIGITS`.
    Spring,
    /// Elasticsearch: `{PBKDF2}ROUNDS$SALT$KEY`, and bcrypt's texts.
    Elasticsearch,
    /// ASP.NET Core Identity: Base64 of the bytes of its formats 2 and 3.
    AspNet,
    /// Cisco's IOS: `$8$SALT$KEY`, `$9$SALT$KEY`, and the texts that it shares with others.
    Cisco,
    /// Mosquitto: `$7$ROUNDS$SALT$KEY`.
    Mosquitto,
    /// MediaWiki: `:pbkdf2:sha512:ROUNDS:LENGTH:SALT:KEY`, and the same with `sha256` or `sha1`.
    MediaWiki,
    /// GRUB: `grub.pbkdf2.sha512.ROUNDS.SALT.KEY`.
    Grub,
    /// PostgreSQL: `SCRAM-SHA-256$ROUNDS:SALT$STORED:SERVER`.
    Postgres,
}

impl Foreign {
    // Whether the maker's own texts begin with `$`.
    fn has_own_dollar(self) -> bool
        ensures { result ≡ has_own_dollar self }
    {
        match self {
            Foreign::Passlib | Foreign::Cisco | Foreign::Mosquitto | Foreign::Ldif => true,
            _ => false,
        }
    }

    /// Whether texts of the maker have colons, so that no colon ends them.
    pub fn has_colons(self) -> bool
        ensures colons { result ≡ has_colons self }
    {
        match self {
            Foreign::Werkzeug | Foreign::Ldif | Foreign::MediaWiki | Foreign::Postgres => true,
            _ => false,
        }
    }

    /// Whether a text of the maker is the password itself where it has no tag, so that none which begins with `*` or `!` is of a locked
    /// account.
    pub fn has_clear_texts(self) -> bool
        ensures clear { result ≡ has_clear_texts self }
    {
        match self {
            Foreign::Ldap | Foreign::Ldif => true,
            _ => false,
        }
    }
}

// The stored text of a text of the maker's own.
fn by_maker<'a>(
    foreign: Foreign,
    text: &'a str,
    made: &mut MadeText,
) -> Result<Option<&'a str>, ForeignFault>
    ensures { as_answer result made.new ≡ by_maker foreign text.now }
{
    match foreign {
        Foreign::Django => django(text, made),
        Foreign::Werkzeug => werkzeug(text, made),
        Foreign::Ldap => ldap(text, made),
        Foreign::Ldif => ldif(text, made),
        Foreign::Passlib => passlib(text, made),
        Foreign::Dovecot => dovecot(text, made),
        Foreign::Spring => spring(text, made),
        Foreign::Elasticsearch => elasticsearch(text, made),
        Foreign::AspNet => aspnet(text, made),
        Foreign::Cisco => cisco(text, made),
        Foreign::Mosquitto => mosquitto(text, made),
        Foreign::MediaWiki => mediawiki(text, made),
        Foreign::Grub => grub(text, made),
        Foreign::Postgres => postgres(text, made),
    }
}

/// The stored text that a foreign text is read as, in the one spelling that `any_check` reads: a part of the foreign text; or
/// none, and then the text is put into `made`.
///
/// A record of PBKDF2 or scrypt is made of the cost, the salt and the key, a text of SCRAM of the rounds, the salt and both keys, and
/// one of a digest of its salt and the digest; where the maker hashes a salt's characters, the salt is their bytes. A text that is there in the foreign one is given as it is there, and so is one that begins with `$`, but for
/// those of passlib, Cisco and Mosquitto of their own: whether it has a fault is for `any_check` to say.
///
/// # Errors
///
/// The first cause: the scheme isn't read; the form; then the rounds or the cost, the salt, its length, the key and its length.
#[tactic(auto, unfolding(crate::specs::Converted::converted))]
pub fn stored_text<'a>(
    foreign: Foreign,
    text: &'a str,
    made: &mut MadeText,
) -> Result<Option<&'a str>, ForeignFault>
    ensures converted { as_answer result made.new ≡ converted foreign text.now }
{
    if !foreign.has_own_dollar() && begins_with(text, "$") {
        return Ok(Some(text));
    }
    by_maker(foreign, text, made)
}
