//! Parameters: names and values, and their text.

ghost use Rattle.std.specs.Prelude.{◌≡◌, ◌&&◌, ◌≤◌, ◌+◌, [], ◌∷◌, ◌++◌, List, None, Some, Ok, IsOk, length, map, nat_eq, nat_le, nat_lt, if◌then◌else◌};
ghost use Rattle.std.specs.Cmp.{on_equiv, on_per, partial_equiv_from_equiv};
ghost use Rattle.std.specs.Cmp.Lexicographic.{pointwise, nat_list_eq_equiv};
ghost use Rattle.std.specs.Fmt.{decimal};
ghost use Rattle.std.specs.Iterator.{IsFinite, DrainsIf};
ghost use Rattle.std.specs.Option.{option_and_then, option_map};
ghost use Rattle.pieces.specs.Characters.{comma, equals};
ghost use Rattle.pieces.specs.Pieces.{pieces_at, pieces_left};
ghost use Rattle.phc.specs.Grammar.{behind_name_fault, cut_pairs, decimal_value, has_value_bytes, pair_fault, pair_of, text_fault, text_pairs};
ghost use Rattle.pieces.specs.Faults.{first_fault};
ghost use Rattle.pieces.specs.Lists.{is_empty};
ghost use Rattle.phc.specs.Params.{add, add_bytes, add_each, add_named, appended, added_or_kept, get, pairs_fault, pairs_text, params_or_fault, with_name};
ghost use Rattle.phc.specs.Limits.{name_max, params_max, value_max};

use crate::ident::is_name;
use crate::value::has_value_bytes;
use crate::{Decimal, Error, Ident, Result, Value};
use base64ct::{Base64Unpadded, Encoding};
use pieces::first_piece;
use pieces::short_bytes::ShortBytes;
use std::alloc::AllocError;
use std::fmt;
use std::marker::Model;
use std::str::FromStr;

/// A name and its value.
pub type Pair<'a> = (Ident, Value<'a>);

/// The parameters of a password hash: at most 127 characters of pairs `name=value` with commas between.
///
/// Contracts see them as the list of these pairs. An addition that is refused leaves the text.
#[derive(Clone, Copy, Debug, Drop)]
pub struct ParamsString {
    text: ShortBytes<127>,
}

impl Model for ParamsString {
    ghost use Rattle.std.specs.Prelude.{◌≡◌, ℕ, List, None};
    ghost use Rattle.phc.specs.Grammar.{text_pairs, text_fault};
    ghost use Rattle.phc.specs.Params.{pairs_text};
    ghost use Rattle.phc.specs.PairsOfText.{pairs_text-text_pairs};

    ghost Value = { List (List ℕ × List ℕ) };

    ghost view = { λ p. text_pairs p.text };

    ghost invariant = { λ p. text_fault p.text ≡ None };

    ghost inverse = { λ ps. record { text = pairs_text ps } };

    ghost inverse_ok = { λ p h i. record { text = pairs_text-text_pairs p.text h i } };
}

// Whether a text is a value.
fn is_value(text: &str) -> bool
    ensures { result ≡ (nat_le (length text.now) value_max && has_value_bytes text.now) }
{
    text.len() <= Value::MAX_LENGTH && has_value_bytes(text.as_bytes())
}

// The fault of what stands behind the name of a pair.
fn fault_behind_name(text: &str) -> Option<Error>
    ensures { result ≡ behind_name_fault (pieces_at equals text.now) }
{
    // No value has a `=`, so that a good one isn't searched for it.
    if is_value(text) {
        return None;
    }
    let (value, _) = first_piece(text, '=');
    if value.len() > Value::MAX_LENGTH {
        Some(Error::ParamValueTooLong)
    } else {
        Some(Error::ParamValueInvalid)
    }
}

// The fault of one pair.
fn fault_of_pair(pair: &str) -> Option<Error>
    ensures { result ≡ pair_fault (pieces_at equals pair.now) }
{
    let (name, behind) = first_piece(pair, '=');
    if !is_name(name) {
        return Some(Error::ParamNameInvalid);
    }
    match behind {
        Some(text) => fault_behind_name(text),
        None => Some(Error::ParamValueInvalid),
    }
}

// The fault of the first pair that has one.
fn fault_of_pairs(s: &str) -> Option<Error>
    ensures { result ≡ first_fault (map pair_fault (cut_pairs s.now)) }
{
    let mut rest = Some(s);
    'pairs: while let Some(text) = rest {
        let (pair, others) = first_piece(text, ',');
        let fault = fault_of_pair(pair);
        if fault.is_some() {
            return fault;
        }
        rest = others;
    }
    None
}

// The fault of a text.
fn fault_of_text(s: &str) -> Option<Error>
    ensures { result ≡ text_fault s.now }
{
    if s.is_empty() {
        return None;
    }
    if s.len() > ParamsString::MAX_LENGTH {
        return Some(Error::ParamsMaxExceeded);
    }
    fault_of_pairs(s)
}

// A text with one more pair behind it, where that fits.
fn appended(text: &ShortBytes<127>, name: &str, value: &str) -> Option<ShortBytes<127>>
    requires name { length name.now ≤ name_max }
    requires value { length value.now ≤ value_max }
    ensures { result ≡ (if nat_lt params_max (length (appended text.now name.now value.now)) then None
        else Some (appended text.now name.now value.now)) }
{
    let mut longer = *text;
    let comma = if text.len() == 0 { "" } else { "," };
    if text.len() + comma.len() + name.len() + 1 + value.len() > ParamsString::MAX_LENGTH {
        return None;
    }
    longer.push_all(comma.as_bytes());
    longer.push_all(name.as_bytes());
    longer.push_all(b"=");
    longer.push_all(value.as_bytes());
    Some(longer)
}

impl ParamsString {
    ghost use Rattle.phc.specs.ValueViews.{pair_view, pairs_left, value_text};

    // The most characters.
    const MAX_LENGTH: usize = 127;

    /// No pairs.
    pub fn new() -> Self
        ensures empty { result ≡ [] }
    {
        ParamsString {
            text: ShortBytes::new(),
        }
    }

    /// The fault of a text.
    pub(crate) fn fault_of_text(s: &str) -> Option<Error>
        ensures { result ≡ text_fault s.now }
    {
        fault_of_text(s)
    }

    /// The parameters that a text is, which must have no fault.
    pub(crate) fn new_unwrap(s: &str) -> ParamsString
        requires { text_fault s.now ≡ None }
        ensures { result ≡ text_pairs s.now }
    {
        ParamsString {
            text: ShortBytes::from_slice(s.as_bytes()),
        }
    }

    /// The parameters that a text is.
    pub(crate) fn from_text(s: &str) -> Result<ParamsString>
        ensures { result ≡ params_or_fault s.now }
    {
        match fault_of_text(s) {
            Some(e) => Err(e),
            None => Ok(ParamsString::new_unwrap(s)),
        }
    }

    /// Appends a pair. It refuses by `ParamNameDuplicated` where the name stands already, then by
    /// `ParamsMaxExceeded` where the longer text has more than 127 characters.
    pub fn add_str(&mut self, name: Ident, value: Value<'_>) -> Result<()>
        ensures added { (result, self.new) ≡ added_or_kept (add self.old name (value_text value.entry)) self.old }
    {
        if self.get(name).is_some() {
            return Err(Error::ParamNameDuplicated);
        }
        match appended(&self.text, name.as_str(), value.as_str()) {
            Some(text) => {
                self.text = text;
                Ok(())
            }
            None => Err(Error::ParamsMaxExceeded),
        }
    }

    /// Appends a pair whose value is the decimal of a number. It refuses as
    /// [`add_str`](ParamsString::add_str) does.
    pub fn add_decimal(&mut self, name: Ident, value: Decimal) -> Result<()>
        ensures added { (result, self.new) ≡ added_or_kept (add self.old name (decimal value)) self.old }
    {
        let mut digits = ShortBytes::new();
        digits.push_decimal(u64::from(value));
        self.add_str(name, Value::of_digits(&digits))
    }

    /// Appends a pair whose value is the encoding of bytes. It refuses by `ParamNameDuplicated` where the
    /// name stands already, then by `ParamValueTooLong` for more than 48 bytes, then by
    /// `ParamsMaxExceeded` where the longer text has more than 127 characters.
    pub fn add_b64_bytes(&mut self, name: Ident, bytes: &[u8]) -> Result<()>
        ensures added { (result, self.new) ≡ added_or_kept (add_bytes self.old name bytes.now) self.old }
    {
        if self.get(name).is_some() {
            return Err(Error::ParamNameDuplicated);
        }
        if bytes.len() > Value::MAX_BYTES {
            return Err(Error::ParamValueTooLong);
        }
        let mut room = [0; 64];
        match Base64Unpadded::encode(bytes, &mut room) {
            Ok(text) => self.add_str(name, Value::new_unwrap(text)),
            Err(_) => Err(Error::ParamValueTooLong),
        }
    }

    /// Appends a pair. It refuses by `ParamNameInvalid` where `name` is no name, then by
    /// `ParamValueInvalid` where `value` is no value, then as [`add_str`](ParamsString::add_str) does.
    pub fn add_str_named(&mut self, name: &str, value: &str) -> Result<()>
        ensures added { (result, self.new) ≡ added_or_kept (add_named self.old name.now value.now) self.old }
    {
        let name = match Ident::new(name) {
            Ok(name) => name,
            Err(e) => return Err(e),
        };
        match Value::new(value) {
            Ok(value) => self.add_str(name, value),
            Err(_) => Err(Error::ParamValueInvalid),
        }
    }

    /// Appends a pair whose value is the decimal of a number. It refuses by `ParamNameInvalid` where
    /// `name` is no name, then as [`add_decimal`](ParamsString::add_decimal) does.
    pub fn add_decimal_named(&mut self, name: &str, value: Decimal) -> Result<()>
        ensures added { (result, self.new)
            ≡ added_or_kept (with_name name.now (add self.old name.now (decimal value))) self.old }
    {
        match Ident::new(name) {
            Ok(name) => self.add_decimal(name, value),
            Err(e) => Err(e),
        }
    }

    /// Appends a pair whose value is the encoding of bytes. It refuses by `ParamNameInvalid` where `name`
    /// is no name, then as [`add_b64_bytes`](ParamsString::add_b64_bytes) does.
    pub fn add_b64_bytes_named(&mut self, name: &str, bytes: &[u8]) -> Result<()>
        ensures added { (result, self.new)
            ≡ added_or_kept (with_name name.now (add_bytes self.old name.now bytes.now)) self.old }
    {
        match Ident::new(name) {
            Ok(name) => self.add_b64_bytes(name, bytes),
            Err(e) => Err(e),
        }
    }

    /// The first value of a name.
    pub fn get(&self, name: Ident) -> Option<Value<'_>>
        ensures value { option_map value_text result ≡ get self.now name }
    {
        self.get_named(name.as_str())
    }

    /// The text of the first value of a name.
    pub fn get_str(&self, name: Ident) -> Option<&str>
        ensures text { option_map (λ s. s.now) result ≡ get self.now name }
    {
        self.get_str_named(name.as_str())
    }

    /// The number that the first value of a name writes, where it writes one.
    pub fn get_decimal(&self, name: Ident) -> Option<Decimal>
        ensures number { result ≡ option_and_then decimal_value (get self.now name) }
    {
        self.get_decimal_named(name.as_str())
    }

    /// The first value of a name. A text that is no name has none.
    pub fn get_named(&self, name: &str) -> Option<Value<'_>>
        ensures value { option_map value_text result ≡ get self.now name.now }
    {
        'pairs: for (other, value) in self.iter() {
            if other.as_str() == name {
                return Some(value);
            }
        }
        None
    }

    /// The text of the first value of a name. A text that is no name has none.
    pub fn get_str_named(&self, name: &str) -> Option<&str>
        ensures text { option_map (λ s. s.now) result ≡ get self.now name.now }
    {
        match self.get_named(name) {
            Some(value) => Some(value.as_str()),
            None => None,
        }
    }

    /// The number that the first value of a name writes, where it writes one. A text that is no name has
    /// none.
    pub fn get_decimal_named(&self, name: &str) -> Option<Decimal>
        ensures number { result ≡ option_and_then decimal_value (get self.now name.now) }
    {
        match self.get_named(name) {
            Some(value) => value.decimal().ok(),
            None => None,
        }
    }

    /// The parameters of these pairs, added one after another by [`add_str`](ParamsString::add_str). The
    /// first refusal is the answer.
    pub fn try_from_iter<'a, I: Iterator<Item = Pair<'a>> + Drop>(pairs: I) -> Result<Self>
        requires can { I.can_next pairs }
        requires ends { IsFinite (I.remaining pairs) }
        ensures { (xs : List _) × DrainsIf I.next_gives (IsOk result) pairs xs
            × (result ≡ add_each (Ok []) (map pair_view xs)) }
    {
        let mut params = ParamsString::new();
        for (name, value) in pairs {
            params.add_str(name, value)?;
        }
        Ok(params)
    }

    /// The pairs, in their order.
    pub fn iter(&self) -> Iter<'_>
        ensures pairs { pairs_left result ≡ self.now }
    {
        let text = self.as_str();
        if text.is_empty() {
            Iter { left: None }
        } else {
            Iter { left: Some(text) }
        }
    }

    /// The text.
    pub fn as_str(&self) -> &str
        ensures text { result.now ≡ pairs_text self.now }
        ensures pairs { text_pairs result.now ≡ self.now }
        ensures valid { text_fault result.now ≡ None }
    {
        unsafe { str::from_utf8_unchecked(self.text.as_slice()) }
    }

    /// The bytes of the text.
    pub fn as_bytes(&self) -> &[u8]
        ensures bytes { result.now ≡ pairs_text self.now }
    {
        self.as_str().as_bytes()
    }

    /// The number of characters of the text.
    pub fn len(&self) -> usize
        ensures length { result ≡ length (pairs_text self.now) }
    {
        self.as_str().len()
    }

    /// Whether there are no pairs.
    pub fn is_empty(&self) -> bool
        ensures empty { result ≡ is_empty (pairs_text self.now) }
    {
        self.as_str().is_empty()
    }
}

impl Default for ParamsString {
    ghost is_default = { λ p. p ≡ [] };

    fn default() -> Self {
        Self::new()
    }
}

/// Equality of texts.
impl PartialEq for ParamsString {
    ghost eq = { λ a b. pointwise nat_eq (pairs_text a) (pairs_text b) };

    ghost laws = { on_per pairs_text (partial_equiv_from_equiv nat_list_eq_equiv) };

    fn eq(&self, other: &Self) -> bool {
        self.as_str() == other.as_str()
    }
}

impl Eq for ParamsString {
    ghost laws = { on_equiv pairs_text nat_list_eq_equiv };
}

impl fmt::Display for ParamsString {
    ghost output = { λ p. Some (pairs_text p) };

    fn fmt<W: fmt::Write>(&self, f: &mut fmt::Formatter<W>) -> fmt::Result {
        f.write_str(self.as_str())
    }
}

impl FromStr for ParamsString {
    ghost use Rattle.std.specs.Prelude.{◌≡◌};
    ghost use Rattle.phc.specs.Params.{params_or_fault};

    type Err = Error;

    ghost from_str_gives = { λ text r. r ≡ params_or_fault text };

    fn from_str(s: &str) -> Result<ParamsString> {
        ParamsString::from_text(s)
    }
}

/// The pairs that are left of parameters, in their order.
#[derive(Debug, Drop)]
pub struct Iter<'a> {
    left: Option<&'a str>,
    ghost valid: { pairs_fault (pieces_left comma left) ≡ None },
}

impl Clone for Iter<'_> {
    ghost use Rattle.std.specs.Prelude.{⊤};
    ghost use Rattle.phc.specs.ValueViews.{pairs_left};

    ghost is_clone = { λ a b. pairs_left b ≡ pairs_left a };

    ghost is_infallible = { λ _. ⊤ };

    fn clone(&self) -> std::result::Result<Self, AllocError> {
        Ok(Iter { left: self.left })
    }
}

impl<'a> Iter<'a> {
    ghost use Rattle.phc.specs.ValueViews.{pair_view};

    // The name and the value of a pair without a fault.
    fn split_pair(pair: &'a str) -> Pair<'a>
        requires { pair_fault (pieces_at equals pair.now) ≡ None }
        ensures { pair_view result ≡ pair_of (pieces_at equals pair.now) }
    {
        let (name, rest) = first_piece(pair, '=');
        match rest {
            Some(value) => (Ident::new_unwrap(name), Value::new_unwrap(value)),
            None => unreachable!(),
        }
    }
}

impl<'a> Iterator for Iter<'a> {
    ghost use Rattle.std.specs.Iterator.{YieldsFirstBy, item_count};
    ghost use Rattle.phc.specs.ValueViews.{pair_view, pairs_left};

    type Item = Pair<'a>;

    ghost next_gives = { YieldsFirstBy pair_view pairs_left };

    ghost remaining = { item_count pairs_left };

    fn next(&mut self) -> Option<Pair<'a>> {
        let text = self.left?;
        let (pair, left) = first_piece(text, ',');
        self.left = left;
        Some(Iter::split_pair(pair))
    }
}
