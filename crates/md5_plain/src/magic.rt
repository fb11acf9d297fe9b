//! The two magics.

ghost use Rattle.std.specs.Prelude.{◌≡◌};
ghost use Rattle.md5_plain.specs.Digest.{magic_text};
ghost use Rattle.md5_plain.specs.Verdict.{magic_of};

/// Which text stands between the password and the salt in the first digest.
#[derive(Clone, Copy, Debug, PartialEq, Eq)]
pub enum Magic {
    /// `$1$`, of the texts with identifier `1`.
    Md5,
    /// `$apr1$`, of the texts with identifier `apr1`.
    Apr1,
}

/// The text of a magic.
pub(crate) fn magic_text(magic: Magic) -> &'static [u8]
    ensures { result.now ≡ magic_text magic }
{
    match magic {
        Magic::Md5 => b"$1$",
        Magic::Apr1 => b"$apr1$",
    }
}

/// The magic of an identifier: none where the texts with it aren't md5-crypt's.
pub fn magic_of(id: &str) -> Option<Magic>
    ensures magic { result ≡ magic_of id.now }
{
    if id == "1" {
        Some(Magic::Md5)
    } else if id == "apr1" {
        Some(Magic::Apr1)
    } else {
        None
    }
}
