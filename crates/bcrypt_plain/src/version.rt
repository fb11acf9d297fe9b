//! The versions of bcrypt's texts.

ghost use Rattle.std.specs.Prelude.{◌≡◌};
ghost use Rattle.bcrypt_plain.specs.Text.{version_of};

/// What an identifier says of a text.
#[derive(Clone, Copy, Debug, PartialEq, Eq)]
pub(crate) enum Version {
    /// `2a`, `2b` and `2y`, which are one and the same here.
    Current,
    /// `2` and `2x`.
    Obsolete,
}

/// The version of an identifier, if it is one of bcrypt's.
pub(crate) fn version_of(id: &str) -> Option<Version>
    ensures { result ≡ version_of id.now }
{
    if id == "2a" || id == "2b" || id == "2y" {
        Some(Version::Current)
    } else if id == "2" || id == "2x" {
        Some(Version::Obsolete)
    } else {
        None
    }
}
