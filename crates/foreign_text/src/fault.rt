//! Why a foreign text isn't converted.

ghost use Rattle.std.specs.Prelude.{◌≡◌, ◌≤◌, length};
ghost use Rattle.foreign_text.specs.Words.{fault_word, unread_word};

/// A scheme of which no text is read.
#[derive(Clone, Copy, Debug, PartialEq, Eq)]
pub enum Unread {
    /// SCRAM with SHA-1.
    Scram,
    /// SHA-1 without a cost, with or without a salt.
    Sha1,
    /// MD5 without a cost, with or without a salt.
    Md5,
    /// SHA-2 without a cost, with or without a salt.
    Sha2,
    /// crypt(3) by DES.
    DesCrypt,
    /// The password itself.
    Cleartext,
    /// Another, or none.
    Other,
}

impl Unread {
    // The word.
    fn word(&self) -> &'static str
        ensures word { result.now ≡ unread_word self.now }
        ensures short { length result.now ≤ 25 }
    {
        match self {
            Unread::Scram => "unsupported-scram",
            Unread::Sha1 => "unsupported-sha1",
            Unread::Md5 => "unsupported-md5",
            Unread::Sha2 => "unsupported-sha2",
            Unread::DesCrypt => "unsupported-des-crypt",
            Unread::Cleartext => "unsupported-cleartext",
            Unread::Other => "unsupported-scheme",
        }
    }
}

/// The first cause that a foreign text isn't converted.
#[derive(Clone, Copy, Debug, PartialEq, Eq)]
pub enum ForeignFault {
    /// The maker's own way to say that the account is locked: no password matches.
    Locked,
    /// It is of a scheme that isn't read.
    Unread(Unread),
    /// It hasn't the fields of its scheme, or what stands in it as it is isn't of that scheme.
    Form,
    /// The rounds are no plain decimal below 2^32, or are 0 where the maker has no text of none.
    Rounds,
    /// N, r or p of scrypt is no plain decimal below 2^32, or N is no power of two from 2 on.
    Cost,
    /// The salt isn't in the maker's encoding, or has more than 128 characters.
    Salt,
    /// The salt has fewer than 8 or more than 48 bytes, which no record holds; or that of a salted digest has none or more than 48.
    SaltLength,
    /// The key or the digest isn't in the maker's encoding, or the key has more than 128 characters.
    Hash,
    /// The key has fewer than 10 or more than 64 bytes, which no record holds; or a digest isn't as long as its hash function's.
    HashLength,
}

impl ForeignFault {
    /// The word: `locked`, `unsupported-` and the scheme, or `foreign-` and the part that has the fault.
    pub fn word(&self) -> &'static str
        ensures word { result.now ≡ fault_word self.now }
        ensures short { length result.now ≤ 25 }
    {
        match self {
            ForeignFault::Locked => "locked",
            ForeignFault::Unread(scheme) => scheme.word(),
            ForeignFault::Form => "foreign-form",
            ForeignFault::Rounds => "foreign-rounds",
            ForeignFault::Cost => "foreign-cost",
            ForeignFault::Salt => "foreign-salt",
            ForeignFault::SaltLength => "foreign-salt-length",
            ForeignFault::Hash => "foreign-hash",
            ForeignFault::HashLength => "foreign-hash-length",
        }
    }
}
