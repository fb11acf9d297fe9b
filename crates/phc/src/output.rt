//! Outputs of password hashing functions.

ghost use Rattle.std.specs.Prelude.{◌≡◌, ◌↔◌, ◌<◌, ◌≤◌, ◌+◌, ◌*◌, ◌/◌, ◌^◌, ◌==◌, Some, IfOk, IsErr, IsOkUnless, OnOk, length, Err, replicate, nat_eq};
ghost use Rattle.std.specs.Cmp.{nat_eq_equiv, partial_equiv_from_equiv};
ghost use Rattle.std.specs.Cmp.Lexicographic.{pointwise, nat_list_eq_equiv};
ghost use Rattle.std.specs.Fn.{FnOnceTakesAtMut, FnOnceReturnsAtMut};
ghost use Rattle.std.specs.declared.cmp.Ordering.TheVariants.{Less, Greater};
ghost use Rattle.base64ct.specs.declared.errors.Error.TheVariants.{InvalidLength};
ghost use Rattle.base64ct.specs.Counts.{field_looks};
ghost use Rattle.phc.specs.Encoded.{encoding};
ghost use Rattle.phc.specs.Parts.{output_or_fault, output_of_bytes, after_init};
ghost use Rattle.phc.specs.Limits.{output_max, output_min};

use crate::{Error, Result};
use base64ct::{Base64Unpadded, Counts, Encoding};
use pieces::short_bytes::ShortBytes;
use std::cmp::Ordering;
use std::fmt;
use std::marker::Model;
use std::str::FromStr;
use subtle::{Choice, ConstantTimeEq, ct_eq_slices};

/// The output of a password hashing function: 10 to 64 bytes. Contracts see it as the list of its bytes.
///
/// Two outputs are compared by steps that do not depend on their bytes.
#[derive(Clone, Copy, Debug, Drop)]
pub struct Output {
    bytes: ShortBytes<64>,
}

impl Model for Output {
    ghost use Rattle.std.specs.Prelude.{◌≡◌, ◌≤◌, ℕ, List, length};
    ghost use Rattle.phc.specs.Limits.{output_max, output_min};

    ghost Value = { List ℕ };

    ghost view = { λ o. o.bytes };

    ghost invariant = { λ o. (output_min ≤ length o.bytes) × (length o.bytes ≤ output_max) };

    ghost inverse = { λ s. record { bytes = s } };
}

// What is refused under 10 bytes.
const TOO_SHORT: Error = Error::OutputSize {
    provided: Ordering::Less,
    expected: Output::MIN_LENGTH,
};

// What is refused over 64 bytes.
const TOO_LONG: Error = Error::OutputSize {
    provided: Ordering::Greater,
    expected: Output::MAX_LENGTH,
};

// Calls `f` on a slice.
fn call_with<F: FnOnce(&mut [u8]) -> Result<()>>(f: F, slice: &mut [u8]) -> Result<()>
    requires { FnOnceTakesAtMut F.FnOnce f slice.old }
    ensures { FnOnceReturnsAtMut F.FnOnce f slice.old result slice.new }
{
    f(slice)
}

impl Output {
    /// The fewest bytes.
    pub const MIN_LENGTH: usize = 10;

    /// The most bytes.
    pub const MAX_LENGTH: usize = 64;

    /// The most characters of an encoding.
    pub const B64_MAX_LENGTH: usize = 86;

    /// The output of these bytes. It refuses by `OutputSize` with `Less` and 10, or with `Greater` and 64.
    pub fn new(input: &[u8]) -> Result<Output>
        ensures output { result ≡ output_of_bytes input.now }
    {
        if input.len() < Self::MIN_LENGTH {
            return Err(TOO_SHORT);
        }
        if input.len() > Self::MAX_LENGTH {
            return Err(TOO_LONG);
        }
        Ok(Output {
            bytes: ShortBytes::from_slice(input),
        })
    }

    /// The output that `f` writes over `output_size` zeros. It refuses a size as [`new`](Output::new) does
    /// before `f` is called, and then as `f` does.
    pub fn init_with<F: FnOnce(&mut [u8]) -> Result<()>>(output_size: usize, f: F) -> Result<Output>
        requires { output_min ≤ output_size → output_size ≤ output_max → FnOnceTakesAtMut F.FnOnce f (replicate output_size 0) }
        ensures short { output_size < output_min → result ≡ Err (Error.OutputSize Less output_min) }
        ensures long { output_max < output_size → result ≡ Err (Error.OutputSize Greater output_max) }
        ensures filled { output_min ≤ output_size → output_size ≤ output_max → (answer : _) × (left : _)
            × FnOnceReturnsAtMut F.FnOnce f (replicate output_size 0) answer left × (result ≡ after_init answer left) }
    {
        if output_size < Self::MIN_LENGTH {
            return Err(TOO_SHORT);
        }
        if output_size > Self::MAX_LENGTH {
            return Err(TOO_LONG);
        }
        let mut bytes = [0; 64];
        call_with(f, &mut bytes[..output_size])?;
        Ok(Output {
            bytes: ShortBytes::from_slice(&bytes[..output_size]),
        })
    }

    /// The bytes.
    pub fn as_bytes(&self) -> &[u8]
        ensures bytes { result.now ≡ self.now }
        ensures least { output_min ≤ length result.now }
        ensures most { length result.now ≤ output_max }
    {
        self.bytes.as_slice()
    }

    /// The number of bytes.
    pub fn len(&self) -> usize
        ensures length { result ≡ length self.now }
    {
        self.bytes.len()
    }

    /// The number of characters of the encoding.
    pub fn encoded_len(&self) -> usize
        ensures length { result ≡ length (encoding self.now) }
    {
        Base64Unpadded::encoded_len(self.as_bytes())
    }

    /// The output whose encoding `input` is. It refuses by `Base64(InvalidLength)` where `input` has more
    /// than 86 bytes, then by `Base64(InvalidEncoding)` where it is the encoding of no bytes, then by
    /// `OutputSize` with `Less` and 10 where these bytes are fewer than 10.
    pub fn decode(input: &str) -> Result<Output>
        ensures output { result ≡ output_or_fault input.now }
    {
        Self::decode_counted(input, &mut Counts::new())
    }

    /// Decodes as [`decode`](Output::decode), with its look-ups and comparisons counted.
    pub(crate) fn decode_counted(input: &str, counts: &mut Counts) -> Result<Output>
        requires looks { counts.old.looks ≤ 2 ^ 62 + 68 }
        requires sames { counts.old.sames ≤ 2 ^ 62 + 4 }
        ensures output { result ≡ output_or_fault input.now }
        ensures looks { OnOk result (counts.new.looks ≡ counts.old.looks + field_looks input.now) }
        ensures sames { OnOk result (counts.new.sames ≡ counts.old.sames + 4) }
        ensures most_looks { counts.new.looks ≤ counts.old.looks + 88 }
        ensures most_sames { counts.new.sames ≤ counts.old.sames + 4 }
        ensures looks_stay { counts.old.looks ≤ counts.new.looks }
        ensures sames_stay { counts.old.sames ≤ counts.new.sames }
    {
        if input.len() > Self::B64_MAX_LENGTH {
            return Err(Error::Base64(base64ct::Error::InvalidLength));
        }
        let mut room = [0; 64];
        match counts.decode::<Base64Unpadded>(input.as_bytes(), &mut room) {
            Err(e) => Err(Error::Base64(e)),
            Ok(bytes) => {
                if bytes.len() < Self::MIN_LENGTH {
                    return Err(TOO_SHORT);
                }
                Ok(Output {
                    bytes: ShortBytes::from_slice(bytes),
                })
            }
        }
    }

    /// Writes the encoding at the front of `out`, and gives that part. It refuses, by
    /// `Base64(InvalidLength)`, where `out` is too short.
    pub fn encode<'a>(&self, out: &'a mut [u8]) -> Result<&'a str>
        ensures refused { IsErr result ↔ (length out.old < length (encoding self.now)) }
        ensures fault { IsOkUnless result (Error.Base64 InvalidLength) }
        ensures written { IfOk result (λ t. t.now ≡ encoding self.now) }
    {
        match Base64Unpadded::encode(self.as_bytes(), out) {
            Ok(text) => Ok(text),
            Err(_) => Err(Error::Base64(base64ct::Error::InvalidLength)),
        }
    }

    /// An older name of [`decode`](Output::decode).
    pub fn b64_decode(input: &str) -> Result<Output>
        ensures output { result ≡ output_or_fault input.now }
    {
        Self::decode(input)
    }

    /// An older name of [`encode`](Output::encode).
    pub fn b64_encode<'a>(&self, out: &'a mut [u8]) -> Result<&'a str>
        ensures refused { IsErr result ↔ (length out.old < length (encoding self.now)) }
        ensures fault { IsOkUnless result (Error.Base64 InvalidLength) }
        ensures written { IfOk result (λ t. t.now ≡ encoding self.now) }
    {
        self.encode(out)
    }

    /// An older name of [`encoded_len`](Output::encoded_len).
    pub fn b64_len(&self) -> usize
        ensures length { result ≡ length (encoding self.now) }
    {
        self.encoded_len()
    }
}

impl ConstantTimeEq for Output {
    ghost are_equal = { pointwise nat_eq };

    ghost equivalence = { nat_list_eq_equiv };

    fn ct_eq(&self, other: &Output) -> Choice {
        ct_eq_slices(self.as_bytes(), other.as_bytes())
    }
}

impl PartialEq for Output {
    ghost eq = { pointwise nat_eq };

    ghost laws = { partial_equiv_from_equiv nat_list_eq_equiv };

    fn eq(&self, other: &Output) -> bool {
        self.ct_eq(other).into()
    }
}

impl Eq for Output {
    ghost laws = { nat_list_eq_equiv };
}

/// The encoding.
impl fmt::Display for Output {
    ghost output = { λ o. Some (encoding o) };

    fn fmt<W: fmt::Write>(&self, f: &mut fmt::Formatter<W>) -> fmt::Result {
        let mut room = [0; 86];
        match self.encode(&mut room) {
            Ok(text) => f.write_str(text),
            Err(_) => Err(fmt::Error),
        }
    }
}

impl FromStr for Output {
    ghost use Rattle.std.specs.Prelude.{◌≡◌};
    ghost use Rattle.phc.specs.Parts.{output_or_fault};

    type Err = Error;

    ghost from_str_gives = { λ text r. r ≡ output_or_fault text };

    fn from_str(s: &str) -> Result<Output> {
        Output::decode(s)
    }
}
