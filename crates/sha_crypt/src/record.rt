//! The records of stored texts.

ghost use Rattle.std.specs.Prelude.{◌≡◌, ◌≤◌, ◌<◌, ◌+◌, ◌↔◌, ◌++◌, IfOk, IfSome, IsAscii, IsErr, OnErr, Some, drop, length, take};
ghost use Rattle.std.specs.Str.{IsUtf8};
ghost use Rattle.std.specs.Borrow.{sem, Array, u8 as byte};
ghost use Rattle.std.specs.Io.BufRead.{Rests};
ghost use Rattle.sha_crypt.specs.HashField.{is_hash_field};
ghost use Rattle.sha_crypt.specs.Records.{family_scheme, old_record_of, record_of};
ghost use Rattle.sha_crypt.specs.Limits.{pw_size_sha512, salt_max_len};

use crate::b64::field_bytes;
use crate::fields::{Reading, text_parts};
use crate::lent::fill_printed;
use crate::text::{TEXT_MAX, family_id, text_of_fields};
use crate::{CheckError, Family, FormatFault, SALT_MAX_LEN};
use base64ct::InvalidLengthError;
use base64ct::lent::finish_encoded;
use pieces::short_bytes::ShortBytes;
use std::fmt;

/// What a SHA-crypt text says: its family, rounds, salt and hash, which are slices of the text.
///
/// Each record has one text, which it prints.
#[derive(Clone, Copy, Debug)]
pub struct ShaRecord<'a> {
    family: Family,
    rounds: usize,
    written: bool,
    salt: &'a str,
    hash: &'a str,
    ghost short_salt: { length salt.now ≤ 16 },
    ghost short_hash: { length hash.now ≤ 86 },
}

// Whether a text is the hash field of some digest of a family.
fn is_hash_field(family: Family, text: &str) -> bool
    ensures { result ≡ is_hash_field (family_scheme family).size text.now }
{
    match family {
        Family::Sha256 => field_bytes::<32>(text.as_bytes()).is_some(),
        Family::Sha512 => field_bytes::<64>(text.as_bytes()).is_some(),
    }
}

// The bytes of a salt that count.
fn cut_salt(salt: &str) -> &str
    requires { IsAscii salt.now }
    ensures { result.now ≡ take salt_max_len salt.now }
{
    if salt.len() > SALT_MAX_LEN {
        &salt[..SALT_MAX_LEN]
    } else {
        salt
    }
}

impl<'a> ShaRecord<'a> {
    ghost use Rattle.sha_crypt.specs.RecordViews.{family_of, fields_of_record, found_fields, kept_fields, printed};

    /// The record that `text` is of this family.
    ///
    /// It refuses by the first fault, in the order of `FormatFault` with the rounds out of range before
    /// `SaltTooLong`.
    pub fn new(text: &'a str, family: Family) -> Result<ShaRecord<'a>, CheckError>
        ensures record { found_fields result ≡ record_of family text.now }
        ensures family { IfOk result (λ r. family_of r ≡ family) }
        ensures prints_back { IfOk result (λ r. printed r ≡ text.now) }
    {
        let parts = match text_parts(Reading::Plain, family, family_id(family), text) {
            Ok(parts) => parts,
            Err(e) => return Err(e),
        };
        if !is_hash_field(family, parts.hash) {
            return Err(CheckError::InvalidFormat(FormatFault::Base64));
        }
        Ok(ShaRecord {
            family,
            rounds: parts.rounds,
            written: parts.written,
            salt: parts.salt,
            hash: parts.hash,
        })
    }

    /// The family.
    pub fn family(&self) -> Family
        ensures { result ≡ family_of self.now }
    {
        self.family
    }

    /// The rounds: 5,000 where none are written.
    pub fn rounds(&self) -> usize
        ensures { result ≡ (fields_of_record self.now).rounds }
    {
        self.rounds
    }

    /// Whether the text names the rounds.
    pub fn rounds_written(&self) -> bool
        ensures { result ≡ (fields_of_record self.now).written }
    {
        self.written
    }

    /// The salt: at most 16 bytes.
    pub fn salt(&self) -> &'a str
        ensures salt { result.now ≡ (fields_of_record self.now).salt }
        ensures short { length result.now ≤ salt_max_len }
    {
        self.salt
    }

    /// The hash field: 43 or 86 characters.
    pub fn hash(&self) -> &'a str
        ensures hash { result.now ≡ (fields_of_record self.now).hash }
        ensures short { length result.now ≤ pw_size_sha512 }
    {
        self.hash
    }

    // The text of the record.
    fn text(&self) -> ShortBytes<TEXT_MAX>
        ensures text { result ≡ printed self.now }
        ensures utf8 { IsUtf8 result }
    {
        text_of_fields(
            self.family,
            self.written,
            self.rounds,
            self.salt().as_bytes(),
            self.hash().as_bytes(),
        )
    }

    /// Writes the text of the record at the front of `out`, and tells its length. It refuses where `out` is shorter;
    /// then `out` is unchanged.
    pub fn print_to(&self, out: &mut [u8]) -> Result<usize, InvalidLengthError>
        ensures refused { IsErr result ↔ (length out.old < length (printed self.now)) }
        ensures written { IfOk result (λ n. (n ≡ length (printed self.now)) × (n ≤ length out.old)
            × (out.new ≡ printed self.now ++ drop n out.old)) }
        ensures utf8 { IfOk result (λ n. IsUtf8 (take n out.new)) }
        ensures unchanged { OnErr result (out.new ≡ out.old) }
    {
        let text = self.text();
        let bytes = text.as_slice();
        if out.len() < bytes.len() {
            return Err(InvalidLengthError);
        }
        out[..bytes.len()].copy_from_slice(bytes);
        Ok(bytes.len())
    }

    /// Prints as [`print_to`](ShaRecord::print_to), and gives the text.
    pub fn print_into<'o>(&self, out: &'o mut [u8]) -> Result<&'o str, InvalidLengthError>
        ensures* buffer { sem 𝓛 (Rests (Array byte 0) out.entry (λ new.
            IfOk result (λ t. new ≡ t.now ++ drop (length t.now) out.old) × OnErr result (new ≡ out.old))) }
        ensures refused { IsErr result ↔ (length out.old < length (printed self.now)) }
        ensures written { IfOk result (λ t. t.now ≡ printed self.now) }
    {
        finish_encoded(fill_printed(self, out))
    }

    /// The record that an earlier text is of this family.
    pub(crate) fn from_old(text: &'a str, family: Family) -> Option<ShaRecord<'a>>
        requires ascii { IsAscii text.now }
        ensures record { kept_fields result ≡ old_record_of family text.now }
        ensures family { IfSome result (λ r. family_of r ≡ family) }
    {
        let parts = match text_parts(Reading::Old, family, family_id(family), text) {
            Ok(parts) => parts,
            Err(_) => return None,
        };
        if !is_hash_field(family, parts.hash) {
            return None;
        }
        Some(ShaRecord {
            family,
            rounds: parts.rounds,
            written: parts.written,
            salt: cut_salt(parts.salt),
            hash: parts.hash,
        })
    }
}

impl fmt::Display for ShaRecord<'_> {
    ghost use Rattle.sha_crypt.specs.RecordViews.{printed};

    ghost output = { λ r. Some (printed r) };

    fn fmt<W: fmt::Write>(&self, f: &mut fmt::Formatter<W>) -> fmt::Result {
        let text = self.text();
        f.write_str(unsafe { str::from_utf8_unchecked(text.as_slice()) })
    }
}
