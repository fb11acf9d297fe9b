//! Records: what a PHC text says.

ghost use Rattle.std.specs.Prelude.{◌≡◌, ◌+◌, ◌++◌, ◌^◌, ◌<◌, ◌≤◌, length, IfOk, IfSome, IsTrue, None, Ok, OnOk, Some, true};
ghost use Rattle.std.specs.Fmt.{HasWritten, IsPlainFormatter};
ghost use Rattle.std.specs.Option.{option_and_then};
ghost use Rattle.base64ct.specs.Encoding.{EachBelow};
ghost use Rattle.pieces.specs.Characters.{dollar};
ghost use Rattle.pieces.specs.Pieces.{lent, pieces_left};
ghost use Rattle.phc.specs.Counts.{comparisons_of, layout_comparisons, layout_looks, layout_of_text, looks_of};
ghost use Rattle.phc.specs.Grammar.{decimal_value, fault_of, fault_of_layout, hash_fault, layout, pairs_of, salt_fault, text_fault, version_fault};
ghost use Rattle.pieces.specs.Faults.{value_or_fault};
ghost use Rattle.phc.specs.Record.{IsRecord, bytes_part, hash_part, is_lone_v, is_printable, params_part, phc, phc_text, record_of_layout, record_text, version_part};
ghost use Rattle.phc.specs.Encoded.{decoding};
ghost use Rattle.phc.specs.Views.{parts_of};
ghost use Rattle.phc.specs.Limits.{output_max, output_min, salt_max, salt_min};

use crate::layout::{FormParts, layout};
use crate::value::decimal;
use crate::{Decimal, Error, Ident, Output, ParamsString, PasswordHashString, Result, Salt, Value};
use base64ct::Counts;
use pieces::{behind, first_piece, is_end};
use std::alloc::{AllocError, Global};
use std::fmt;
use std::str::FromStr;

/// What a PHC text `$id[$v=version][$params][$salt[$hash]]` says.
///
/// Two records are equal where their five fields are.
#[derive(Clone, Debug, PartialEq, Eq, Drop)]
pub struct PasswordHash {
    /// The identifier of the algorithm.
    pub algorithm: Ident,
    /// The version, where there is one.
    pub version: Option<Decimal>,
    /// The parameters.
    pub params: ParamsString,
    /// The salt, where there is one.
    pub salt: Option<Salt>,
    /// The output of the hash function, where there is one.
    pub hash: Option<Output>,
}

// The version of these digits.
fn version_of(digits: Option<&str>) -> Result<Option<Decimal>>
    ensures { result ≡ value_or_fault (option_and_then decimal_value (lent digits.entry)) (fault_of version_fault (lent digits.entry)) }
{
    let Some(digits) = digits else {
        return Ok(None);
    };
    if digits.len() > Value::MAX_LENGTH {
        return Err(Error::ParamValueTooLong);
    }
    match decimal(digits) {
        Some(number) => Ok(Some(number)),
        None => Err(Error::ParamValueInvalid),
    }
}

// The fault of the parameters of a piece; no piece has none.
fn fault_of_params(text: Option<&str>) -> Option<Error>
    ensures { result ≡ fault_of text_fault (lent text.entry) }
{
    match text {
        Some(text) => ParamsString::fault_of_text(text),
        None => None,
    }
}

// The parameters of a piece without a fault; no piece has none.
fn params_of(text: Option<&str>) -> ParamsString
    requires { fault_of text_fault (lent text) ≡ None }
    ensures { result ≡ pairs_of (lent text.entry) }
{
    match text {
        Some(text) => ParamsString::new_unwrap(text),
        None => ParamsString::new(),
    }
}

// The salt of a piece.
fn salt_of(text: Option<&str>, counts: &mut Counts) -> Result<Option<Salt>>
    requires looks { counts.old.looks ≤ 2 ^ 62 }
    requires sames { counts.old.sames ≤ 2 ^ 62 }
    ensures salt { result ≡ value_or_fault (option_and_then decoding (lent text.entry)) (fault_of salt_fault (lent text.entry)) }
    ensures looks { OnOk result (counts.new.looks ≡ counts.old.looks + looks_of (lent text.entry)) }
    ensures sames { OnOk result (counts.new.sames ≡ counts.old.sames + comparisons_of (lent text.entry)) }
    ensures most_looks { counts.new.looks ≤ counts.old.looks + 68 }
    ensures most_sames { counts.new.sames ≤ counts.old.sames + 4 }
    ensures looks_stay { counts.old.looks ≤ counts.new.looks }
    ensures sames_stay { counts.old.sames ≤ counts.new.sames }
{
    let Some(text) = text else {
        return Ok(None);
    };
    match Salt::from_b64_counted(text, counts) {
        Ok(salt) => Ok(Some(salt)),
        Err(e) => Err(e),
    }
}

// The hash of a piece.
fn hash_of(text: Option<&str>, counts: &mut Counts) -> Result<Option<Output>>
    requires looks { counts.old.looks ≤ 2 ^ 62 + 68 }
    requires sames { counts.old.sames ≤ 2 ^ 62 + 4 }
    ensures hash { result ≡ value_or_fault (option_and_then decoding (lent text.entry)) (fault_of hash_fault (lent text.entry)) }
    ensures looks { OnOk result (counts.new.looks ≡ counts.old.looks + looks_of (lent text.entry)) }
    ensures sames { OnOk result (counts.new.sames ≡ counts.old.sames + comparisons_of (lent text.entry)) }
    ensures most_looks { counts.new.looks ≤ counts.old.looks + 88 }
    ensures most_sames { counts.new.sames ≤ counts.old.sames + 4 }
    ensures looks_stay { counts.old.looks ≤ counts.new.looks }
    ensures sames_stay { counts.old.sames ≤ counts.new.sames }
{
    let Some(text) = text else {
        return Ok(None);
    };
    match Output::decode_counted(text, counts) {
        Ok(hash) => Ok(Some(hash)),
        Err(e) => Err(e),
    }
}

// The record of an identifier and the parts behind it, or their first fault.
fn record_of(id: &str, parts: FormParts<'_>, counts: &mut Counts) -> Result<PasswordHash>
    requires looks { counts.old.looks ≤ 2 ^ 62 }
    requires sames { counts.old.sames ≤ 2 ^ 62 }
    ensures record_or_fault { result ≡ value_or_fault (record_of_layout id.now (parts_of parts.entry)) (fault_of_layout id.now (parts_of parts.entry)) }
    ensures looks { OnOk result (counts.new.looks ≡ counts.old.looks + layout_looks (parts_of parts.entry)) }
    ensures sames { OnOk result (counts.new.sames ≡ counts.old.sames + layout_comparisons (parts_of parts.entry)) }
    ensures most_looks { counts.new.looks ≤ counts.old.looks + 156 }
    ensures most_sames { counts.new.sames ≤ counts.old.sames + 8 }
    ensures looks_stay { counts.old.looks ≤ counts.new.looks }
    ensures sames_stay { counts.old.sames ≤ counts.new.sames }
{
    let algorithm = match Ident::new(id) {
        Ok(algorithm) => algorithm,
        Err(e) => return Err(e),
    };
    let version = match version_of(parts.version) {
        Ok(version) => version,
        Err(e) => return Err(e),
    };
    // The parameters are copied once all is known to be good.
    if let Some(e) = fault_of_params(parts.params) {
        return Err(e);
    }
    let salt = match salt_of(parts.salt, counts) {
        Ok(salt) => salt,
        Err(e) => return Err(e),
    };
    let hash = match hash_of(parts.hash, counts) {
        Ok(hash) => hash,
        Err(e) => return Err(e),
    };
    if !is_end(parts.rest) {
        return Err(Error::TrailingData);
    }
    Ok(PasswordHash {
        algorithm,
        version,
        params: params_of(parts.params),
        salt,
        hash,
    })
}

impl PasswordHash {
    /// The record that a text is.
    ///
    /// It refuses by the first fault, in this order:
    /// 1. `MissingField`, where the text does not begin with `$`;
    /// 2. `ParamNameInvalid`, where the identifier is no name;
    /// 3. for the version `ParamValueTooLong` over 64 characters, then `ParamValueInvalid` for no decimal;
    /// 4. for the parameters as [`ParamsString`] does;
    /// 5. for the salt as [`Salt::from_b64`] does;
    /// 6. for the hash as [`Output::decode`] does;
    /// 7. `TrailingData`, where one more field follows.
    pub fn new(s: &str) -> Result<PasswordHash>
        ensures record_or_fault { result ≡ phc_text s.now }
        ensures prints_back { IfOk result (λ r. record_text r ≡ s.now) }
    {
        PasswordHash::new_counted(s, &mut Counts::new())
    }

    /// Answers as [`new`](PasswordHash::new), with the look-ups and comparisons of its decoding counted.
    ///
    /// For a record, `looks` rises by `4 * (n / 4) + 4` for the salt field and for the hash field, of n
    /// characters, where they stand, and `sames` by 4 for each. Before a refusal they rise by at most 156
    /// and 8.
    pub fn new_counted(s: &str, counts: &mut Counts) -> Result<PasswordHash>
        requires looks { counts.old.looks ≤ 2 ^ 62 }
        requires sames { counts.old.sames ≤ 2 ^ 62 }
        ensures record_or_fault { result ≡ phc_text s.now }
        ensures prints_back { IfOk result (λ r. record_text r ≡ s.now) }
        ensures looks { OnOk result (counts.new.looks ≡ counts.old.looks + layout_looks (layout_of_text s.now)) }
        ensures sames { OnOk result (counts.new.sames ≡ counts.old.sames + layout_comparisons (layout_of_text s.now)) }
        ensures most_looks { counts.new.looks ≤ counts.old.looks + 156 }
        ensures most_sames { counts.new.sames ≤ counts.old.sames + 8 }
        ensures looks_stay { counts.old.looks ≤ counts.new.looks }
        ensures sames_stay { counts.old.sames ≤ counts.new.sames }
    {
        // A record is large, so that no further function hands it on.
        let Some(body) = behind(s, "$") else {
            return Err(Error::MissingField);
        };
        let (id, pieces) = first_piece(body, '$');
        record_of(id, layout(pieces), counts)
    }

    /// Whether the text of the record is read back as the record. It is not where there is a hash and no
    /// salt, or no version and one single parameter with the name `v`.
    pub fn is_printable(&self) -> bool
        ensures printable { result ≡ is_printable self.now }
        ensures parses_back { IsTrue result → phc_text (record_text self.now) ≡ Ok self.now }
    {
        promised_by_parts(self);
        has_printable_parts(self)
    }

    /// The text of the record, in memory of its own.
    pub fn serialize(&self, alloc: Global) -> std::result::Result<PasswordHashString, AllocError>
        requires printable { is_printable self.now ≡ true }
        ensures same { IfOk result (λ t. t ≡ self.now) }
    {
        PasswordHashString::from_record(alloc, self)
    }
}

// Whether there is no hash without a salt, and no parameters that are read as a version.
fn has_printable_parts(parsed: &PasswordHash) -> bool
    ensures { result ≡ is_printable parsed.now }
{
    !(parsed.hash.is_some() && parsed.salt.is_none())
        && !(parsed.version.is_none() && has_lone_v(&parsed.params))
}

// What the type of a version promises.
fn promised_by_version(version: Option<Decimal>)
    ensures { IfSome version (λ n. n < 2 ^ 32) }
{
    let _ = version;
}

// What the type of bytes promises.
fn promised_by_bytes(bytes: &[u8])
    ensures { EachBelow 256 bytes.now }
{
    let _ = bytes;
}

// What the type of a salt promises.
fn promised_by_salt(salt: Option<Salt>)
    ensures { IfSome salt (λ b. EachBelow 256 b × (salt_min ≤ length b) × (length b ≤ salt_max)) }
{
    if let Some(salt) = &salt {
        promised_by_bytes(salt.as_bytes());
    }
}

// What the type of a hash promises.
fn promised_by_hash(hash: Option<Output>)
    ensures { IfSome hash (λ b. EachBelow 256 b × (output_min ≤ length b) × (length b ≤ output_max)) }
{
    if let Some(hash) = &hash {
        promised_by_bytes(hash.as_bytes());
    }
}

// What the types of the parts of a record promise: the proofs of its callers need it, and nothing is done.
pub(crate) fn promised_by_parts(parsed: &PasswordHash)
    ensures { IsRecord parsed.now }
{
    let _ = parsed.algorithm.as_str();
    let _ = parsed.params.as_str();
    promised_by_version(parsed.version);
    promised_by_salt(parsed.salt);
    promised_by_hash(parsed.hash);
}

// Whether the parameters are one single pair with the name `v`.
fn has_lone_v(params: &ParamsString) -> bool
    ensures { result ≡ is_lone_v params.now }
{
    let mut pairs = params.iter();
    match (pairs.next(), pairs.next()) {
        (Some((name, _)), None) => name.as_str() == "v",
        _ => false,
    }
}

// Writes `$v=` and a version.
fn write_version<W: fmt::Write>(version: Option<Decimal>, f: &mut fmt::Formatter<W>) -> fmt::Result
    ensures writes { OnOk result (IsPlainFormatter f.old
        → HasWritten W.write_str_gives f.old (version_part version) f.new) }
{
    match version {
        Some(version) => write!(f, "$v={version}"),
        None => Ok(()),
    }
}

// Writes `$` and parameters, where there are any.
fn write_params<W: fmt::Write>(params: &ParamsString, f: &mut fmt::Formatter<W>) -> fmt::Result
    ensures writes { OnOk result (IsPlainFormatter f.old
        → HasWritten W.write_str_gives f.old (params_part params.now) f.new) }
{
    if params.is_empty() {
        return Ok(());
    }
    write!(f, "${params}")
}

// Writes a salt and the hash behind it; no hash without a salt.
fn write_fields<W: fmt::Write>(
    salt: Option<Salt>,
    hash: Option<Output>,
    f: &mut fmt::Formatter<W>,
) -> fmt::Result
    ensures writes { OnOk result (IsPlainFormatter f.old
        → HasWritten W.write_str_gives f.old (bytes_part salt ++ hash_part salt hash) f.new) }
{
    match (salt, hash) {
        (Some(salt), Some(hash)) => write!(f, "${salt}${hash}"),
        (Some(salt), None) => write!(f, "${salt}"),
        (None, _) => Ok(()),
    }
}

/// The form; a hash is left out where there is no salt.
impl fmt::Display for PasswordHash {
    ghost output = { λ r. Some (record_text r) };

    #[tactic(auto, unfolding(crate::specs::Record::record_text))]
    fn fmt<W: fmt::Write>(&self, f: &mut fmt::Formatter<W>) -> fmt::Result {
        let algorithm = self.algorithm;
        write!(f, "${algorithm}")?;
        write_version(self.version, f)?;
        write_params(&self.params, f)?;
        write_fields(self.salt, self.hash, f)
    }
}

impl FromStr for PasswordHash {
    ghost use Rattle.std.specs.Prelude.{◌≡◌};
    ghost use Rattle.phc.specs.Record.{phc_text};

    type Err = Error;

    ghost from_str_gives = { λ text r. r ≡ phc_text text };

    fn from_str(s: &str) -> Result<PasswordHash> {
        PasswordHash::new(s)
    }
}
