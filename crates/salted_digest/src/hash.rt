//! The hash functions of the texts.

ghost use Rattle.std.specs.Prelude.{◌≡◌, ◌≤◌, ◌<◌, ◌%◌};
ghost use Rattle.salted_digest.specs.Digest.{digest_size};
ghost use Rattle.salted_digest.specs.Text.{hash_of, identifier};

/// A hash function whose digests are kept with a salt.
#[derive(Clone, Copy, Debug, PartialEq, Eq)]
pub enum DigestHash {
    /// MD5 (RFC 1321): LDAP's `{MD5}` and `{SMD5}`.
    Md5,
    /// SHA-1 (FIPS 180-4): LDAP's `{SHA}` and `{SSHA}`.
    Sha1,
    /// SHA-256 (FIPS 180-4): `{SHA256}` and `{SSHA256}`.
    Sha256,
    /// SHA-512 (FIPS 180-4): `{SHA512}` and `{SSHA512}`.
    Sha512,
}

impl DigestHash {
    /// The identifier of its texts: `smd5`, `ssha`, `ssha256` or `ssha512`.
    pub fn identifier(self) -> &'static str
        ensures identifier { result.now ≡ identifier self }
    {
        match self {
            DigestHash::Md5 => "smd5",
            DigestHash::Sha1 => "ssha",
            DigestHash::Sha256 => "ssha256",
            DigestHash::Sha512 => "ssha512",
        }
    }

    /// How many bytes its digests have.
    pub fn size(self) -> usize
        ensures size { result ≡ digest_size self }
        ensures fits { result ≤ 64 }
        ensures rest { 0 < result % 3 }
    {
        match self {
            DigestHash::Md5 => 16,
            DigestHash::Sha1 => 20,
            DigestHash::Sha256 => 32,
            DigestHash::Sha512 => 64,
        }
    }
}

/// The hash function that an identifier names.
pub(crate) fn hash_of(id: &str) -> Option<DigestHash>
    ensures { result ≡ hash_of id.now }
{
    if id == DigestHash::Md5.identifier() {
        Some(DigestHash::Md5)
    } else if id == DigestHash::Sha1.identifier() {
        Some(DigestHash::Sha1)
    } else if id == DigestHash::Sha256.identifier() {
        Some(DigestHash::Sha256)
    } else if id == DigestHash::Sha512.identifier() {
        Some(DigestHash::Sha512)
    } else {
        None
    }
}
