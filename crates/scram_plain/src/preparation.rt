//! How a password is prepared before it is hashed.

ghost use Rattle.std.specs.Prelude.{◌≡◌};
ghost use Rattle.std.specs.Char.{is_ascii};
ghost use Rattle.std.specs.List.{list_all};
ghost use Rattle.scram_plain.specs.Text.{identifier, leaves, preparation_of};

/// What is made of a password before SCRAM.
#[derive(Clone, Copy, Debug, PartialEq, Eq)]
pub enum Preparation {
    /// SASLprep (RFC 4013), as PostgreSQL prepares a password. It changes no password of ASCII characters.
    SaslPrep,
    /// None, as with Dovecot: the bytes of a password are hashed as they are.
    Raw,
}

// Whether each byte is below 128.
fn are_ascii(password: &[u8]) -> bool
    ensures { result ≡ list_all is_ascii password.now }
{
    password.iter().all(|b| b.is_ascii())
}

impl Preparation {
    /// The identifier of its texts: `scram-sha-256` or `scram-sha-256-raw`.
    pub fn identifier(self) -> &'static str
        ensures identifier { result.now ≡ identifier self }
    {
        match self {
            Preparation::SaslPrep => "scram-sha-256",
            Preparation::Raw => "scram-sha-256-raw",
        }
    }

    /// Whether it is known to leave a password as it is, so that a text with it gets a verdict.
    pub fn leaves(self, password: &[u8]) -> bool
        ensures leaves { result ≡ leaves self password.now }
    {
        match self {
            Preparation::SaslPrep => are_ascii(password),
            Preparation::Raw => true,
        }
    }
}

/// The preparation that an identifier names.
pub(crate) fn preparation_of(id: &str) -> Option<Preparation>
    ensures { result ≡ preparation_of id.now }
{
    if id == Preparation::SaslPrep.identifier() {
        Some(Preparation::SaslPrep)
    } else if id == Preparation::Raw.identifier() {
        Some(Preparation::Raw)
    } else {
        None
    }
}
