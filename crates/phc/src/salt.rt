//! Salts, as bytes and as text.

ghost use Rattle.std.specs.Prelude.{◌≡◌, ◌≤◌, ◌+◌, ◌*◌, ◌/◌, ◌^◌, ℕ, List, None, Some, IfOk, OnErr, OnOk, length};
ghost use Rattle.std.specs.Io.KnownBytes.{Consumes};
ghost use Rattle.rand_core.specs.Stream.{fill_bytes};
ghost use Rattle.base64ct.specs.Counts.{field_looks};
ghost use Rattle.phc.specs.Encoded.{decoding, encoding};
ghost use Rattle.phc.specs.Grammar.{salt_fault};
ghost use Rattle.phc.specs.Parts.{salt_of_bytes, salt_or_fault, salt_text_or_fault};
ghost use Rattle.pieces.specs.FaultCounts.{HasRisen};
ghost use Rattle.phc.specs.Limits.{salt_max, salt_min};

use crate::{Error, Result, TryFill};
use base64ct::{Base64Unpadded, Counts, Encoding};
use pieces::short_bytes::ShortBytes;
use rand_core::Rng;
use std::fmt;
use std::marker::Model;
use std::str::FromStr;

/// A salt: 8 to 48 bytes. Contracts see it as the list of its bytes.
#[derive(Clone, Copy, Debug, PartialEq, Eq, Drop)]
pub struct Salt {
    bytes: ShortBytes<48>,
}

impl Model for Salt {
    ghost use Rattle.std.specs.Prelude.{◌≡◌, ◌≤◌, ℕ, List, length};
    ghost use Rattle.phc.specs.Limits.{salt_max, salt_min};

    ghost Value = { List ℕ };

    ghost view = { λ o. o.bytes };

    ghost invariant = { λ o. (salt_min ≤ length o.bytes) × (length o.bytes ≤ salt_max) };

    ghost inverse = { λ s. record { bytes = s } };
}

impl Salt {
    /// The fewest bytes.
    pub const MIN_LENGTH: usize = 8;

    /// The most bytes.
    pub const MAX_LENGTH: usize = 48;

    /// The bytes of a salt from a generator.
    pub const RECOMMENDED_LENGTH: usize = 16;

    /// The salt of these bytes. It refuses by `SaltTooShort` under 8 bytes and by `SaltTooLong` over 48.
    pub fn new(slice: &[u8]) -> Result<Salt>
        ensures salt { result ≡ salt_of_bytes slice.now }
    {
        if slice.len() < Self::MIN_LENGTH {
            return Err(Error::SaltTooShort);
        }
        if slice.len() > Self::MAX_LENGTH {
            return Err(Error::SaltTooLong);
        }
        Ok(Salt {
            bytes: ShortBytes::from_slice(slice),
        })
    }

    /// The salt whose encoding `b64` is. It refuses by `SaltTooShort` where `b64` has fewer than 11 bytes,
    /// then by `SaltTooLong` where it has more than 64, then by `Base64(InvalidEncoding)` where it is the
    /// encoding of no bytes.
    pub fn from_b64(b64: &str) -> Result<Salt>
        ensures salt { result ≡ salt_or_fault b64.now }
    {
        Self::from_b64_counted(b64, &mut Counts::new())
    }

    /// Decodes as [`from_b64`](Salt::from_b64), with its look-ups and comparisons counted.
    pub(crate) fn from_b64_counted(b64: &str, counts: &mut Counts) -> Result<Salt>
        requires looks { counts.old.looks ≤ 2 ^ 62 }
        requires sames { counts.old.sames ≤ 2 ^ 62 }
        ensures salt { result ≡ salt_or_fault b64.now }
        ensures looks { OnOk result (counts.new.looks ≡ counts.old.looks + field_looks b64.now) }
        ensures sames { OnOk result (counts.new.sames ≡ counts.old.sames + 4) }
        ensures most_looks { counts.new.looks ≤ counts.old.looks + 68 }
        ensures most_sames { counts.new.sames ≤ counts.old.sames + 4 }
        ensures looks_stay { counts.old.looks ≤ counts.new.looks }
        ensures sames_stay { counts.old.sames ≤ counts.new.sames }
    {
        if b64.len() < SaltString::MIN_LENGTH {
            return Err(Error::SaltTooShort);
        }
        if b64.len() > SaltString::MAX_LENGTH {
            return Err(Error::SaltTooLong);
        }
        let mut room = [0; 48];
        match counts.decode::<Base64Unpadded>(b64.as_bytes(), &mut room) {
            Ok(bytes) => Ok(Salt {
                bytes: ShortBytes::from_slice(bytes),
            }),
            Err(e) => Err(Error::Base64(e)),
        }
    }

    /// The salt of the next 16 bytes of a generator, by one call of `fill_bytes`.
    pub fn from_rng<R: Rng>(rng: &mut R) -> Salt
        ensures bytes { (result, R.stream rng.new) ≡ fill_bytes 16 (R.stream rng.old) }
        ensures length { length result ≡ 16 }
    {
        let mut bytes = [0; 16];
        rng.fill_bytes(&mut bytes);
        Salt {
            bytes: ShortBytes::from_slice(&bytes),
        }
    }

    /// The salt of the next 16 bytes of a generator that may refuse, by one call of `try_fill`. It refuses
    /// as that call does.
    pub fn try_from_rng<R: TryFill>(rng: &mut R) -> std::result::Result<Salt, R::Error>
        ensures length { IfOk result (λ s. length s ≡ 16) }
        ensures bytes { IfOk result (λ s. Consumes (R.coming rng.old) (R.coming rng.new) s) }
        ensures count { R.refusals rng.old ≤ R.refusals rng.new }
        ensures cause { OnErr result (HasRisen (R.refusals rng.old) (R.refusals rng.new)) }
    {
        let mut bytes = [0; 16];
        rng.try_fill(&mut bytes)?;
        Ok(Salt {
            bytes: ShortBytes::from_slice(&bytes),
        })
    }

    /// The bytes.
    pub fn as_bytes(&self) -> &[u8]
        ensures bytes { result.now ≡ self.now }
        ensures least { salt_min ≤ length result.now }
        ensures most { length result.now ≤ salt_max }
    {
        self.bytes.as_slice()
    }

    /// The encoding.
    pub fn to_salt_string(&self) -> SaltString
        ensures text { result ≡ encoding self.now }
    {
        SaltString {
            text: encoded(self.as_bytes()),
        }
    }
}

// The encoding of the bytes of a salt.
fn encoded(bytes: &[u8]) -> ShortBytes<64>
    requires least { salt_min ≤ length bytes.now }
    requires most { length bytes.now ≤ salt_max }
    ensures text { result ≡ encoding bytes.now }
    ensures valid { salt_fault result ≡ None }
{
    let mut room = [0; 64];
    match Base64Unpadded::encode(bytes, &mut room) {
        Ok(text) => ShortBytes::from_slice(text.as_bytes()),
        Err(_) => ShortBytes::new(),
    }
}

/// The encoding.
impl fmt::Display for Salt {
    ghost output = { λ s. Some (encoding s) };

    fn fmt<W: fmt::Write>(&self, f: &mut fmt::Formatter<W>) -> fmt::Result {
        f.write_str(self.to_salt_string().as_str())
    }
}

impl FromStr for Salt {
    ghost use Rattle.std.specs.Prelude.{◌≡◌};
    ghost use Rattle.phc.specs.Parts.{salt_or_fault};

    type Err = Error;

    ghost from_str_gives = { λ text r. r ≡ salt_or_fault text };

    fn from_str(s: &str) -> Result<Salt> {
        Salt::from_b64(s)
    }
}

/// The encoding of a salt: 11 to 64 characters. Contracts see it as the list of these characters.
#[derive(Clone, Copy, Debug, PartialEq, Eq, Drop)]
pub struct SaltString {
    text: ShortBytes<64>,
}

impl Model for SaltString {
    ghost use Rattle.std.specs.Prelude.{◌≡◌, ℕ, List, None};
    ghost use Rattle.phc.specs.Grammar.{salt_fault};

    ghost Value = { List ℕ };

    ghost view = { λ s. s.text };

    ghost invariant = { λ s. salt_fault s.text ≡ None };

    ghost inverse = { λ s. record { text = s } };
}

impl SaltString {
    /// The fewest characters.
    pub const MIN_LENGTH: usize = 11;

    /// The most characters.
    pub const MAX_LENGTH: usize = 64;

    /// The text of a salt. It refuses as [`Salt::from_b64`] does.
    pub fn from_b64(s: &str) -> Result<SaltString>
        ensures text { result ≡ salt_text_or_fault s.now }
    {
        match Salt::from_b64(s) {
            Ok(_) => Ok(SaltString {
                text: ShortBytes::from_slice(s.as_bytes()),
            }),
            Err(e) => Err(e),
        }
    }

    /// The encoding of the next 16 bytes of a generator, by one call of `fill_bytes`.
    pub fn from_rng<R: Rng>(rng: &mut R) -> SaltString
        ensures text { result ≡ encoding (fill_bytes 16 (R.stream rng.old)).0 }
        ensures stream { R.stream rng.new ≡ (fill_bytes 16 (R.stream rng.old)).1 }
    {
        Salt::from_rng(rng).to_salt_string()
    }

    /// The encoding of the next 16 bytes of a generator that may refuse, by one call of `try_fill`. It
    /// refuses as that call does.
    pub fn try_from_rng<R: TryFill>(rng: &mut R) -> std::result::Result<SaltString, R::Error>
        ensures bytes { IfOk result (λ s. (b : List ℕ) × (length b ≡ 16) × (s ≡ encoding b)
            × Consumes (R.coming rng.old) (R.coming rng.new) b) }
        ensures count { R.refusals rng.old ≤ R.refusals rng.new }
        ensures cause { OnErr result (HasRisen (R.refusals rng.old) (R.refusals rng.new)) }
    {
        let salt = Salt::try_from_rng(rng)?;
        Ok(salt.to_salt_string())
    }

    /// The salt whose encoding the text is.
    pub fn to_salt(&self) -> Salt
        ensures bytes { decoding self.now ≡ Some result }
        ensures text { self.now ≡ encoding result }
    {
        Salt {
            bytes: decoded(self.as_str()),
        }
    }

    /// The text.
    pub fn as_str(&self) -> &str
        ensures text { result.now ≡ self.now }
        ensures valid { salt_fault result.now ≡ None }
    {
        unsafe { str::from_utf8_unchecked(self.text.as_slice()) }
    }
}

// The bytes whose encoding the text of a salt is.
fn decoded(text: &str) -> ShortBytes<48>
    requires { salt_fault text.now ≡ None }
    ensures { decoding text.now ≡ Some result }
{
    let mut room = [0; 48];
    match Base64Unpadded::decode(text.as_bytes(), &mut room) {
        Ok(bytes) => ShortBytes::from_slice(bytes),
        Err(_) => ShortBytes::new(),
    }
}

impl fmt::Display for SaltString {
    ghost output = { λ s. Some s };

    fn fmt<W: fmt::Write>(&self, f: &mut fmt::Formatter<W>) -> fmt::Result {
        f.write_str(self.as_str())
    }
}

impl FromStr for SaltString {
    ghost use Rattle.std.specs.Prelude.{◌≡◌};
    ghost use Rattle.phc.specs.Parts.{salt_text_or_fault};

    type Err = Error;

    ghost from_str_gives = { λ text r. r ≡ salt_text_or_fault text };

    fn from_str(s: &str) -> Result<SaltString> {
        SaltString::from_b64(s)
    }
}
