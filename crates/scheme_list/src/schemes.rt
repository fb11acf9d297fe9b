//! The schemes, and what is known of each.

ghost use Rattle.std.specs.Prelude.{◌≡◌, ◌<◌, ◌≤◌, Some, drop, length};
ghost use Rattle.std.specs.List.{slice_get};
ghost use Rattle.scheme_list.specs.Schemes.{has_identifier, look_up, place, row_of, scheme_named, schemes};

/// A scheme.
#[derive(Clone, Copy, Debug, PartialEq, Eq)]
pub enum Scheme {
    /// md5-crypt, of crypt(3) or of Apache's htpasswd.
    Md5Crypt,
    Sha256Crypt,
    Sha512Crypt,
    /// bcrypt, the obsolete versions too.
    Bcrypt,
    Yescrypt,
    /// scrypt in crypt's own form, `$7$`.
    ScryptCrypt,
    /// bcrypt of a digest of the password: texts of passlib's `bcrypt_sha256`, of Django's, and of WordPress.
    BcryptDigest,
    /// sha1-crypt, NetBSD's `$sha1$`.
    Sha1Crypt,
    /// SCRAM-SHA-256 as PostgreSQL and Dovecot store it.
    Scram,
    /// phpass's portable hashes, `$P$` of WordPress and `$H$` of phpBB.
    Phpass,
    /// A digest of the password and a salt, as LDAP servers keep it.
    SaltedDigest,
    /// MySQL's caching_sha2_password: SHA-256-crypt of which each byte of the salt counts.
    MysqlSha2,
    /// scrypt as a record in the PHC string format.
    Scrypt,
    /// PBKDF2 with HMAC-SHA-256, as a record.
    Pbkdf2Sha256,
    /// PBKDF2 with HMAC-SHA-512, as a record.
    Pbkdf2Sha512,
    /// PBKDF2 with HMAC-SHA-1, as a record.
    Pbkdf2Sha1,
    /// Argon2, as a record.
    Argon2d,
    Argon2i,
    Argon2id,
}

/// How many schemes there are.
pub const SCHEME_COUNT: usize = 19;

/// The schemes, in the order in which they are told.
pub const SCHEMES: [Scheme; SCHEME_COUNT] = [
    Scheme::Md5Crypt,
    Scheme::Sha256Crypt,
    Scheme::Sha512Crypt,
    Scheme::Bcrypt,
    Scheme::Yescrypt,
    Scheme::ScryptCrypt,
    Scheme::BcryptDigest,
    Scheme::Sha1Crypt,
    Scheme::Scram,
    Scheme::Phpass,
    Scheme::SaltedDigest,
    Scheme::MysqlSha2,
    Scheme::Scrypt,
    Scheme::Pbkdf2Sha256,
    Scheme::Pbkdf2Sha512,
    Scheme::Pbkdf2Sha1,
    Scheme::Argon2d,
    Scheme::Argon2i,
    Scheme::Argon2id,
];

/// The schemes whose texts ask for the same numbers. A bound on cost has numbers for each.
#[derive(Clone, Copy, Debug, PartialEq, Eq)]
pub enum CostFamily {
    /// No number: a text names no cost.
    NoNumber,
    /// The rounds.
    ShaCrypt,
    /// The cost, the binary logarithm of the number of turns.
    Bcrypt,
    /// The binary logarithm of N, r and t.
    Yescrypt,
    /// The binary logarithm of N, r and p.
    Scrypt,
    /// The rounds.
    Pbkdf2Sha256,
    /// The rounds.
    Pbkdf2Sha512,
    /// `m`, the memory in KiB, `t`, the passes over it, and `p`, the lanes.
    Argon2,
}

impl Scheme {
    /// The place among [`SCHEMES`].
    pub fn place(self) -> usize
        ensures place { result ≡ place self }
        ensures most { result < length schemes }
        ensures there { slice_get schemes result ≡ Some self }
    {
        self as usize
    }

    /// The scheme at a place among [`SCHEMES`].
    pub fn at(place: usize) -> Scheme
        requires most { place < length schemes }
        ensures scheme { slice_get schemes place ≡ Some result }
    {
        SCHEMES[place]
    }

    /// The name.
    pub fn name(self) -> &'static str
        ensures name { result.now ≡ (row_of self).name }
        ensures short { length result.now ≤ 13 }
    {
        match self {
            Scheme::Md5Crypt => "md5-crypt",
            Scheme::Sha256Crypt => "sha256-crypt",
            Scheme::Sha512Crypt => "sha512-crypt",
            Scheme::Bcrypt => "bcrypt",
            Scheme::Yescrypt => "yescrypt",
            Scheme::ScryptCrypt => "scrypt-crypt",
            Scheme::BcryptDigest => "bcrypt-digest",
            Scheme::Sha1Crypt => "sha1-crypt",
            Scheme::Scram => "scram-sha-256",
            Scheme::Phpass => "phpass",
            Scheme::SaltedDigest => "salted-digest",
            Scheme::MysqlSha2 => "mysql-sha2",
            Scheme::Scrypt => "scrypt",
            Scheme::Pbkdf2Sha256 => "pbkdf2-sha256",
            Scheme::Pbkdf2Sha512 => "pbkdf2-sha512",
            Scheme::Pbkdf2Sha1 => "pbkdf2-sha1",
            Scheme::Argon2d => "argon2d",
            Scheme::Argon2i => "argon2i",
            Scheme::Argon2id => "argon2id",
        }
    }

    /// Which numbers its texts ask for.
    pub fn family(self) -> CostFamily
        ensures family { result ≡ (row_of self).family }
    {
        match self {
            Scheme::Md5Crypt | Scheme::SaltedDigest => CostFamily::NoNumber,
            Scheme::Sha256Crypt | Scheme::Sha512Crypt | Scheme::Sha1Crypt | Scheme::MysqlSha2 =>
                CostFamily::ShaCrypt,
            Scheme::Bcrypt | Scheme::BcryptDigest | Scheme::Phpass => CostFamily::Bcrypt,
            Scheme::Yescrypt => CostFamily::Yescrypt,
            Scheme::ScryptCrypt | Scheme::Scrypt => CostFamily::Scrypt,
            Scheme::Pbkdf2Sha256 | Scheme::Pbkdf2Sha1 | Scheme::Scram => CostFamily::Pbkdf2Sha256,
            Scheme::Pbkdf2Sha512 => CostFamily::Pbkdf2Sha512,
            Scheme::Argon2d | Scheme::Argon2i | Scheme::Argon2id => CostFamily::Argon2,
        }
    }

    /// Whether its texts are weak whatever they ask for.
    pub fn is_weak(self) -> bool
        ensures weak { result ≡ (row_of self).is_weak }
    {
        matches!(
            self,
            Scheme::Md5Crypt
                | Scheme::Sha1Crypt
                | Scheme::Phpass
                | Scheme::SaltedDigest
                | Scheme::Pbkdf2Sha1
        )
    }

    /// Whether texts of it are made of new passwords.
    pub fn is_made(self) -> bool
        ensures made { result ≡ (row_of self).is_made }
    {
        match self {
            Scheme::Sha256Crypt
            | Scheme::Sha512Crypt
            | Scheme::Bcrypt
            | Scheme::Yescrypt
            | Scheme::Scrypt
            | Scheme::Pbkdf2Sha256
            | Scheme::Pbkdf2Sha512
            | Scheme::Argon2id => true,
            Scheme::Md5Crypt
            | Scheme::ScryptCrypt
            | Scheme::BcryptDigest
            | Scheme::Sha1Crypt
            | Scheme::Scram
            | Scheme::Phpass
            | Scheme::SaltedDigest
            | Scheme::MysqlSha2
            | Scheme::Pbkdf2Sha1
            | Scheme::Argon2d
            | Scheme::Argon2i => false,
        }
    }
}

// The scheme of a record's identifier.
fn record_named(id: &str) -> Option<Scheme>
    ensures scheme { result ≡ look_up (has_identifier id.now) (drop 12 schemes) }
{
    match id {
        "scrypt" => Some(Scheme::Scrypt),
        "pbkdf2-sha256" => Some(Scheme::Pbkdf2Sha256),
        "pbkdf2-sha512" => Some(Scheme::Pbkdf2Sha512),
        "pbkdf2-sha1" => Some(Scheme::Pbkdf2Sha1),
        "argon2d" => Some(Scheme::Argon2d),
        "argon2i" => Some(Scheme::Argon2i),
        "argon2id" => Some(Scheme::Argon2id),
        _ => None,
    }
}

/// The scheme of an identifier, which is what a text has between its first two `$`. None where no scheme has it.
pub fn scheme_named(id: &str) -> Option<Scheme>
    ensures scheme { result ≡ scheme_named id.now }
{
    match id {
        "1" | "apr1" => Some(Scheme::Md5Crypt),
        "5" => Some(Scheme::Sha256Crypt),
        "6" => Some(Scheme::Sha512Crypt),
        "2a" | "2b" | "2y" | "2" | "2x" => Some(Scheme::Bcrypt),
        "y" => Some(Scheme::Yescrypt),
        "7" => Some(Scheme::ScryptCrypt),
        "bcrypt-sha256" | "bcrypt-sha256-hex" | "wp" => Some(Scheme::BcryptDigest),
        "sha1" => Some(Scheme::Sha1Crypt),
        "scram-sha-256" | "scram-sha-256-raw" => Some(Scheme::Scram),
        "P" | "H" => Some(Scheme::Phpass),
        "smd5" | "ssha" | "ssha256" | "ssha512" => Some(Scheme::SaltedDigest),
        "mysql" => Some(Scheme::MysqlSha2),
        _ => record_named(id),
    }
}
