//! The makers by their names.

ghost use Rattle.std.specs.Prelude.{◌≡◌, IfSome};
ghost use Rattle.foreign_lines.specs.Makers.{application_name, foreign_name, maker_name};

use application_texts::{Application, Maker};
use foreign_text::Foreign;

/// The names of the makers on a command line, of files of users and their texts; `ldif` is a dump of a directory.
pub const MAKERS: &[&str] = &[
    "django",
    "werkzeug",
    "passlib",
    "ldap",
    "ldif",
    "elasticsearch",
    "dovecot",
    "spring",
    "aspnet",
    "cisco",
    "mosquitto",
    "mediawiki",
    "grub",
    "postgres",
    "jenkins",
    "nextcloud",
    "home-assistant",
    "couchdb",
    "grafana",
    "mysql",
    "gitea",
];

// The maker of `foreign_text` that has a name.
fn foreign_named(name: &str) -> Option<Foreign>
    ensures named { IfSome result (λ foreign. foreign_name foreign ≡ name.now) }
{
    match name {
        "django" => Some(Foreign::Django),
        "werkzeug" => Some(Foreign::Werkzeug),
        "passlib" => Some(Foreign::Passlib),
        "ldap" => Some(Foreign::Ldap),
        "ldif" => Some(Foreign::Ldif),
        "elasticsearch" => Some(Foreign::Elasticsearch),
        "dovecot" => Some(Foreign::Dovecot),
        "spring" => Some(Foreign::Spring),
        "aspnet" => Some(Foreign::AspNet),
        "cisco" => Some(Foreign::Cisco),
        "mosquitto" => Some(Foreign::Mosquitto),
        "mediawiki" => Some(Foreign::MediaWiki),
        "grub" => Some(Foreign::Grub),
        "postgres" => Some(Foreign::Postgres),
        _ => None,
    }
}

// The application that has a name.
fn application_named(name: &str) -> Option<Application>
    ensures named { IfSome result (λ application. application_name application ≡ name.now) }
{
    match name {
        "jenkins" => Some(Application::Jenkins),
        "nextcloud" => Some(Application::Nextcloud),
        "home-assistant" => Some(Application::HomeAssistant),
        "couchdb" => Some(Application::CouchDb),
        "grafana" => Some(Application::Grafana),
        "mysql" => Some(Application::MySql),
        "gitea" => Some(Application::Gitea),
        _ => None,
    }
}

/// The maker that has a name.
pub fn maker_named(name: &str) -> Option<Maker>
    ensures named { IfSome result (λ maker. maker_name maker ≡ name.now) }
{
    match foreign_named(name) {
        Some(foreign) => Some(Maker::Foreign(foreign)),
        None => match application_named(name) {
            Some(application) => Some(Maker::Application(application)),
            None => None,
        },
    }
}
