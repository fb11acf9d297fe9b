//! The makers, and the stored texts of theirs.

ghost use Rattle.std.specs.Prelude.{◌≡◌};
ghost use Rattle.foreign_text.specs.Views.{as_answer};
ghost use Rattle.application_texts.specs.Makers.{application_has_colons, by_application, has_clear_texts, has_colons, has_own_dollar, is_clear_of};
ghost use Rattle.application_texts.specs.Makers.{of_application, read_by};

use crate::couchdb::couchdb;
use crate::gitea::gitea;
use crate::grafana::grafana;
use crate::home_assistant::home_assistant;
use crate::jenkins::jenkins;
use crate::mysql::mysql;
use crate::nextcloud::nextcloud;
use foreign_text::{Foreign, ForeignFault, MadeText, stored_text};
use pieces::begins_with;

/// An application whose spelling a text has.
#[derive(Clone, Copy, Debug, PartialEq, Eq)]
pub enum Application {
    /// Jenkins: `#jbcrypt:$2a$..`, `$PBKDF2$HMACSHA512:ROUNDS:SALT$KEY`.
    Jenkins,
    /// Nextcloud: `1|$2y$..`, `2|$argon2i$..`, `3|$argon2id$..`.
    Nextcloud,
    /// Home Assistant: Base64 of bcrypt's text.
    HomeAssistant,
    /// CouchDB: `-pbkdf2-KEY,SALT,ROUNDS`, `-pbkdf2-sha256,KEY,SALT,ROUNDS`, and the same with `sha` and `sha512`.
    CouchDb,
    /// Grafana: `KEY:SALT`.
    Grafana,
    /// MySQL: the bytes of caching_sha2_password's `$A$005$` with salt and hash in hexadecimal digits, with or without `0x` before them.
    MySql,
    /// Gitea and Forgejo: `ALGORITHM:KEY:SALT` with PBKDF2, scrypt or bcrypt; Argon2's aren't read.
    Gitea,
}

impl Application {
    // Whether the application's own texts begin with `$`.
    fn has_own_dollar(self) -> bool
        ensures { result ≡ has_own_dollar self }
    {
        match self {
            Application::Jenkins => true,
            _ => false,
        }
    }

    // Whether texts of the application have colons.
    fn has_colons(self) -> bool
        ensures { result ≡ application_has_colons self }
    {
        match self {
            Application::Jenkins | Application::Grafana | Application::Gitea => true,
            _ => false,
        }
    }

    // Whether a text of the application may be the password itself, or an older digest of MySQL's, which begins with `*`.
    fn is_clear(self) -> bool
        ensures { result ≡ is_clear_of self }
    {
        match self {
            Application::CouchDb | Application::MySql => true,
            _ => false,
        }
    }
}

/// Whose spelling a text has.
#[derive(Clone, Copy, Debug, PartialEq, Eq)]
pub enum Maker {
    /// A maker of `foreign_text`.
    Foreign(Foreign),
    /// An application.
    Application(Application),
}

impl Maker {
    /// Whether texts of the maker have colons, so that no colon ends them.
    pub fn has_colons(self) -> bool
        ensures colons { result ≡ has_colons self }
    {
        match self {
            Maker::Foreign(foreign) => foreign.has_colons(),
            Maker::Application(application) => application.has_colons(),
        }
    }

    /// Whether a text of the maker may be the password itself, or a digest that begins with `*`: then none which begins with `*` or `!` is of
    /// a locked account.
    pub fn has_clear_texts(self) -> bool
        ensures clear { result ≡ has_clear_texts self }
    {
        match self {
            Maker::Foreign(foreign) => foreign.has_clear_texts(),
            Maker::Application(application) => application.is_clear(),
        }
    }
}

// The stored text of a text of an application's own.
fn by_application<'a>(
    application: Application,
    text: &'a str,
    made: &mut MadeText,
) -> Result<Option<&'a str>, ForeignFault>
    ensures { as_answer result made.new ≡ by_application application text.now }
{
    match application {
        Application::Jenkins => jenkins(text, made),
        Application::Nextcloud => nextcloud(text),
        Application::HomeAssistant => home_assistant(text, made),
        Application::CouchDb => couchdb(text, made),
        Application::Grafana => grafana(text, made),
        Application::MySql => mysql(text, made),
        Application::Gitea => gitea(text, made),
    }
}

// The stored text of a text of an application.
#[tactic(auto, unfolding(crate::specs::Makers::of_application))]
fn of_application<'a>(
    application: Application,
    text: &'a str,
    made: &mut MadeText,
) -> Result<Option<&'a str>, ForeignFault>
    ensures { as_answer result made.new ≡ of_application application text.now }
{
    if !application.has_own_dollar() && begins_with(text, "$") {
        return Ok(Some(text));
    }
    by_application(application, text, made)
}

/// The stored text that a maker's text is read as, in the one spelling that `any_check` reads: a part of the maker's text; or none, and
/// then the text is put into `made`.
///
/// Texts of `foreign_text` are read by its `stored_text`. A text of an application becomes a record, or is given as it is there, in the same
/// way.
///
/// # Errors
///
/// The first cause: the scheme isn't read; the form; then the rounds, the salt, its length, the key and its length.
pub fn maker_text<'a>(
    maker: Maker,
    text: &'a str,
    made: &mut MadeText,
) -> Result<Option<&'a str>, ForeignFault>
    ensures read { as_answer result made.new ≡ read_by maker text.now }
{
    match maker {
        Maker::Foreign(foreign) => stored_text(foreign, text, made),
        Maker::Application(application) => of_application(application, text, made),
    }
}
